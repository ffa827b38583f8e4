//! Standard input that can be read a second time.

ghost use Rattle.std.specs.Prelude.{◌≡◌};

use std::alloc::Global;
use vx_catalog_bytes::{Broken, ByteIn};

// How many bytes are kept at most.
const MOST: usize = 1 << 24;

/// What keeps a copy of what was read.
pub trait Replay {
    /// All bytes that were read, if they are kept.
    fn replay(&self) -> Option<&[u8]>;
}

/// A port that keeps a copy of what is read of it, as long as that is not more than 16 MiB and there is memory for it.
#[derive(Drop)]
pub struct Recorded<R> {
    port: R,
    text: Vec<u8>,
    is_whole: bool,
}

impl<R> Recorded<R> {
    /// A port of which nothing was read yet.
    pub fn new(alloc: Global, port: R) -> Recorded<R>
        ensures { result.port ≡ port }
    {
        Recorded {
            port,
            text: Vec::new(alloc),
            is_whole: true,
        }
    }

    // Keeps bytes that were read, or from here on nothing.
    fn keep(&mut self, bytes: &[u8])
        ensures { self.new.port ≡ self.old.port }
    {
        if !self.is_whole {
            return;
        }
        let has_room = self.text.len().saturating_add(bytes.len()) <= MOST;
        if !has_room || self.text.extend_from_slice(bytes).is_err() {
            self.is_whole = false;
            self.text.clear();
        }
    }
}

impl<R: ByteIn> ByteIn for Recorded<R> {
    ghost remaining = { λ r. R.remaining r.port };

    ghost has_failed = { λ r. R.has_failed r.port };

    ghost is_reliable = { λ r. R.is_reliable r.port };

    fn read(&mut self, buf: &mut [u8]) -> Result<usize, Broken> {
        let result = self.port.read(buf);
        if let Ok(count) = result {
            self.keep(&buf[..count]);
        }
        result
    }

    fn failed(&self) -> bool {
        self.port.failed()
    }
}

impl<R> Replay for Recorded<R> {
    fn replay(&self) -> Option<&[u8]> {
        if self.is_whole {
            Some(self.text.as_slice())
        } else {
            None
        }
    }
}
