//! Ports over memory, which fail at a stated byte or never: for texts in memory, and for tests of what reads and writes.

ghost use Rattle.std.specs.Prelude.{◌≡◌, ◌&&◌, [], Some, false, not, is_none};

use crate::bytes::{Broken, ByteIn, ByteOut};
use std::alloc::Global;

/// A reader over memory. It fails after `fails_after` bytes, or never if that is `None`.
#[derive(Drop)]
pub struct MemoryIn<'a> {
    rest: &'a [u8],
    fails_after: Option<usize>,
    broken: bool,
}

impl<'a> MemoryIn<'a> {
    /// A reader of `bytes`, which fails after `fails_after` of them, or never if that is `None`.
    pub fn new(bytes: &'a [u8], fails_after: Option<usize>) -> MemoryIn<'a>
        ensures rest { result.rest.now ≡ bytes.now }
        ensures limit { result.fails_after ≡ fails_after }
        ensures whole { result.broken ≡ false }
    {
        MemoryIn {
            rest: bytes,
            fails_after,
            broken: false,
        }
    }
}

impl<'a> ByteIn for MemoryIn<'a> {
    ghost remaining = { λ m. Some m.rest.now };

    ghost has_failed = { λ m. m.broken };

    ghost is_reliable = { λ m. not m.broken && is_none m.fails_after };

    fn read(&mut self, buf: &mut [u8]) -> Result<usize, Broken> {
        if self.broken {
            return Err(Broken);
        }
        let mut n = buf.len().min(self.rest.len());
        if let Some(left) = self.fails_after {
            if left == 0 {
                self.broken = true;
                return Err(Broken);
            }
            n = n.min(left);
            self.fails_after = Some(left - n);
        }
        let (front, rest) = self.rest.split_at(n);
        buf[..n].copy_from_slice(front);
        self.rest = rest;
        Ok(n)
    }

    fn failed(&self) -> bool {
        self.broken
    }
}

/// A writer into memory, which writes a few bytes at a time. It fails after `room` bytes.
#[derive(Drop)]
pub struct MemoryOut {
    bytes: Vec<u8>,
    at_once: usize,
    room: usize,
    broken: bool,
}

impl MemoryOut {
    /// A writer that writes at most `at_once` bytes in a call, or one if that is 0, and `room` bytes in all.
    pub fn new(alloc: Global, at_once: usize, room: usize) -> MemoryOut
        ensures empty { result.bytes.items ≡ [] }
        ensures at_once { result.at_once ≡ at_once }
        ensures room { result.room ≡ room }
        ensures whole { result.broken ≡ false }
    {
        MemoryOut {
            bytes: Vec::new(alloc),
            at_once,
            room,
            broken: false,
        }
    }

    /// The bytes that were written.
    pub fn bytes(&self) -> &[u8]
        ensures { result.now ≡ self.now.bytes.items }
    {
        self.bytes.as_slice()
    }
}

impl ByteOut for MemoryOut {
    ghost contents = { λ m. Some m.bytes.items };

    ghost has_failed = { λ m. m.broken };

    fn write(&mut self, buf: &[u8]) -> Result<usize, Broken> {
        if self.broken {
            return Err(Broken);
        }
        let n = buf.len().min(self.at_once.max(1)).min(self.room);
        if n == 0 && !buf.is_empty() {
            self.broken = true;
            return Err(Broken);
        }
        if self.bytes.extend_from_slice(&buf[..n]).is_err() {
            self.broken = true;
            return Err(Broken);
        }
        self.room -= n;
        Ok(n)
    }

    fn failed(&self) -> bool {
        self.broken
    }
}
