//! A place with one file, of which a step may fail.

ghost use Rattle.vx_catalog_bytes.specs.Stored.{present};

use crate::output::TestOutput;
use std::alloc::Global;
use volcano_answer::Replacing;
use vx_catalog_bytes::{Broken, MemoryOut};

/// A place with one file, whatever the path.
pub struct TestPlace {
    alloc: Global,
    file: Vec<u8>,
    /// Whether a new file can be begun.
    pub begins: bool,
    /// How many bytes it takes.
    pub room: usize,
    /// Whether it can be put in its place.
    pub finishes: bool,
}

impl Drop for TestPlace {
    fn drop(self) {
        let TestPlace {
            alloc: _,
            file: _,
            begins: _,
            room: _,
            finishes: _,
        } = self;
    }
}

impl TestPlace {
    /// A place with this file, where nothing fails as long as a new one has no more bytes.
    pub fn new(alloc: Global, file: Vec<u8>, room: usize) -> TestPlace {
        TestPlace {
            alloc,
            file,
            begins: true,
            room,
            finishes: true,
        }
    }

    /// The bytes of its file.
    pub fn bytes(&self) -> &[u8] {
        self.file.as_slice()
    }
}

impl Replacing for TestPlace {
    type Part = TestOutput<MemoryOut>;

    ghost holds = { λ place _. present place.file.items };

    fn begin(&mut self, _path: &str) -> Result<TestOutput<MemoryOut>, Broken> {
        if !self.begins {
            return Err(Broken);
        }
        Ok(TestOutput {
            port: MemoryOut::new(self.alloc, 3, self.room),
            is_pipe: false,
        })
    }

    fn finish(&mut self, _path: &str, part: TestOutput<MemoryOut>) -> Result<(), Broken> {
        if !self.finishes {
            return Err(Broken);
        }
        match Vec::from_slice(self.alloc, part.port.bytes()) {
            Ok(bytes) => {
                self.file = bytes;
                Ok(())
            }
            Err(_) => Err(Broken),
        }
    }

    fn discard(&mut self, _part: TestOutput<MemoryOut>) {}
}
