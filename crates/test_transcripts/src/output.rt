//! The output of a run, which may be a pipe that nobody reads any more.

ghost use Rattle.std.specs.Prelude.{◌≡◌, ◌&&◌};

use volcano_answer::Pipe;
use vx_catalog_bytes::{Broken, ByteOut};

/// An output behind a port. Where it is a pipe, the port fails once nobody reads it any more.
#[derive(Drop)]
pub struct TestOutput<O> {
    pub port: O,
    pub is_pipe: bool,
}

impl<O: ByteOut> ByteOut for TestOutput<O> {
    ghost contents = { λ o. O.contents o.port };

    ghost has_failed = { λ o. O.has_failed o.port };

    fn write(&mut self, buf: &[u8]) -> Result<usize, Broken> {
        self.port.write(buf)
    }

    fn failed(&self) -> bool {
        self.port.failed()
    }
}

impl<O: ByteOut> Pipe for TestOutput<O> {
    ghost closed = { λ o. o.is_pipe && O.has_failed o.port };

    fn is_closed(&self) -> bool {
        self.is_pipe && self.port.failed()
    }
}
