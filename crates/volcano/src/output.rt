//! Standard output, which knows whether somebody still reads it.

ghost use Rattle.std.specs.Prelude.{◌≡◌, ◌≤◌, length, false, IfOk};
ghost use Rattle.std.specs.Io.KnownBytes.{WriteAppends};

use std::io::{ErrorKind, Write};
use volcano_answer::Pipe;
use vx_catalog_bytes::{Broken, ByteOut};

// One write, tried again where the system interrupted it. Any other failure is told by its kind.
fn write_retrying<W: Write>(inner: &mut W, buf: &[u8]) -> Result<usize, ErrorKind>
    ensures bound { IfOk result (λ n. n ≤ length buf.now) }
    ensures bytes { WriteAppends (W.contents inner.old) (W.contents inner.new) result buf.now }
{
    for _ in 0..u64::MAX {
        match inner.write(buf) {
            Ok(n) => return Ok(n),
            Err(e) => {
                let kind = e.kind();
                if kind != ErrorKind::Interrupted {
                    return Err(kind);
                }
            }
        }
    }
    Err(ErrorKind::Interrupted)
}

/// A port over a writer of std that tells a pipe that nobody reads any more from other failures. A call that was interrupted is
/// tried again.
#[derive(Drop)]
pub struct Output<W> {
    inner: W,
    broken: bool,
    closed: bool,
}

impl<W> Output<W> {
    /// A port that has not failed.
    pub fn new(inner: W) -> Output<W>
        ensures inner { result.inner ≡ inner }
        ensures whole { result.broken ≡ false }
        ensures read { result.closed ≡ false }
    {
        Output {
            inner,
            broken: false,
            closed: false,
        }
    }

    /// The writer of std.
    pub fn into_inner(self) -> W
        ensures { result ≡ self.inner }
    {
        self.inner
    }
}

impl<W: Write> ByteOut for Output<W> {
    ghost contents = { λ o. W.contents o.inner };

    ghost has_failed = { λ o. o.broken };

    fn write(&mut self, buf: &[u8]) -> Result<usize, Broken> {
        if self.broken {
            return Err(Broken);
        }
        match write_retrying(&mut self.inner, buf) {
            Ok(n) if n > 0 || buf.is_empty() => Ok(n),
            Ok(_) => {
                self.broken = true;
                Err(Broken)
            }
            Err(kind) => {
                self.broken = true;
                self.closed = kind == ErrorKind::BrokenPipe;
                Err(Broken)
            }
        }
    }

    fn failed(&self) -> bool {
        self.broken
    }
}

impl<W: Write> Pipe for Output<W> {
    ghost closed = { λ o. o.closed };

    fn is_closed(&self) -> bool {
        self.closed
    }
}
