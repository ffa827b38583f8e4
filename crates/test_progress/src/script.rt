//! A screen by script: its clock goes on by the same time whenever it is asked, and what is written on it is kept.

ghost use Rattle.std.specs.Prelude.{is_none, None};
ghost use Rattle.vx_catalog_bytes.specs.Stored.{present};

use std::alloc::{AllocError, Global};
use std::cell::{Cell, RefCell};
use volcano_progress::Screen;
use vx_catalog_bytes::{Broken, ByteOut, MemoryIn, Store};

/// What a screen does, and what was written on it.
#[derive(Drop)]
pub struct Script {
    /// How much later it is whenever the clock is asked, in milliseconds. No clock: none.
    step: Option<u64>,
    /// What it says of the size of each file.
    size: Option<u64>,
    /// How many bytes may be written before writing fails.
    room: usize,
    asked: Cell<u64>,
    written: RefCell<Vec<u8>>,
}

impl Script {
    /// Nothing was written, and the clock was not asked.
    pub fn new(alloc: Global, step: Option<u64>, size: Option<u64>, room: usize) -> Script {
        Script {
            step,
            size,
            room,
            asked: Cell::new(0),
            written: RefCell::new(Vec::new(alloc)),
        }
    }

    // Keeps bytes, if there is room for them.
    fn keep(&self, bytes: &[u8]) -> bool {
        let Ok(mut written) = self.written.try_borrow_mut() else {
            return false;
        };
        if written.len().saturating_add(bytes.len()) > self.room {
            return false;
        }
        written.extend_from_slice(bytes).is_ok()
    }

    /// What was written.
    pub fn written(&self, alloc: Global) -> Result<Vec<u8>, AllocError> {
        match self.written.try_borrow() {
            Ok(written) => Vec::from_slice(alloc, written.as_slice()),
            Err(_) => Err(AllocError),
        }
    }
}

/// The screen of a script.
#[derive(Clone, Copy)]
pub struct Scripted<'s> {
    pub script: &'s Script,
}

/// A writer on that screen.
#[derive(Drop)]
pub struct Pen<'s> {
    script: &'s Script,
    broken: bool,
}

impl ByteOut for Pen<'_> {
    ghost contents = { λ _. None };

    ghost has_failed = { λ p. p.broken };

    fn write(&mut self, buf: &[u8]) -> Result<usize, Broken> {
        if self.broken || !self.script.keep(buf) {
            self.broken = true;
            return Err(Broken);
        }
        Ok(buf.len())
    }

    fn failed(&self) -> bool {
        self.broken
    }
}

impl<'s> Screen for Scripted<'s> {
    type Out = Pen<'s>;

    fn out(&self) -> Pen<'s> {
        Pen {
            script: self.script,
            broken: false,
        }
    }

    fn now(&self) -> Option<u64> {
        let step = self.script.step?;
        let now = self.script.asked.get();
        self.script.asked.set(now.saturating_add(step));
        Some(now)
    }

    fn size(&self, _path: &str) -> Option<u64> {
        self.script.size
    }
}

/// A store that has the same `text` at each path. Reading it fails after `fails_after` bytes, or never.
#[derive(Clone, Copy)]
pub struct Everywhere<'t> {
    pub text: &'t [u8],
    pub fails_after: Option<usize>,
}

impl<'t> Store for Everywhere<'t> {
    type In = MemoryIn<'t>;

    ghost holds = { λ s _. present s.text.now };

    ghost is_reliable = { λ s _. is_none s.fails_after };

    fn open(&self, _path: &str) -> Option<MemoryIn<'t>> {
        Some(MemoryIn::new(self.text, self.fails_after))
    }
}
