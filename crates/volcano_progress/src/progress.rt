//! How much of a relation's text has been read, and when the line that says so is due.

ghost use Rattle.std.specs.Prelude.{◌≡◌, ◌≤◌, ◌<◌, IfOk, OnOk, IsSomeAnd, None, true, false};

use crate::due::{first_due, next_due};
use crate::text::{ENDING, shown_text};
use std::alloc::{AllocError, Global};

/// How much of a relation's text has been read.
#[derive(Drop)]
pub struct Progress {
    pub name: Vec<u8>,
    pub size: Option<u64>,
    pub bytes: u64,
    pub lines: u64,
    pub due: u64,
    pub is_shown: bool,
}

impl Progress {
    ghost use Rattle.volcano_progress.specs.Due.{first_due, next_due};
    ghost use Rattle.volcano_progress.specs.Progress.{IsCounted, IsSameCount, progress_text, ending_text};

    /// Nothing of the text of a relation, whose size may be known. The command began and the text was opened at these
    /// times, in milliseconds.
    pub fn new(name: Vec<u8>, size: Option<u64>, began: u64, opened: u64) -> Progress
        ensures name { result.name ≡ name }
        ensures size { result.size ≡ size }
        ensures bytes { result.bytes ≡ 0 }
        ensures lines { result.lines ≡ 0 }
        ensures due { result.due ≡ first_due began opened }
        ensures hidden { result.is_shown ≡ false }
    {
        Progress {
            name,
            size,
            bytes: 0,
            lines: 0,
            due: first_due(began, opened),
            is_shown: false,
        }
    }

    /// Counts bytes that were read.
    pub fn count(&mut self, chunk: &[u8])
        ensures counted { IsCounted self.old self.new chunk.now }
        ensures due { self.new.due ≡ self.old.due }
        ensures shown { self.new.is_shown ≡ self.old.is_shown }
    {
        self.bytes = self.bytes.saturating_add(chunk.len() as u64);
        let feeds = chunk.iter().filter(|b| **b == b'\n').count();
        self.lines = self.lines.saturating_add(feeds as u64);
    }

    /// What is to be written at a time, in milliseconds: the line, if it is due.
    pub fn take_due(&mut self, alloc: Global, now: u64) -> Result<Option<Vec<u8>>, AllocError>
        ensures early { now < self.old.due → (result ≡ Ok None) × (self.new ≡ self.old) }
        ensures text { self.old.due ≤ now → IfOk result (λ due. IsSomeAnd due (λ text. text.items ≡ progress_text self.old)) }
        ensures next { self.old.due ≤ now → OnOk result (self.new.due ≡ next_due now) }
        ensures shown { self.old.due ≤ now → OnOk result (self.new.is_shown ≡ true) }
        ensures same { IsSameCount self.old self.new }
    {
        if now < self.due {
            return Ok(None);
        }
        let text = shown_text(
            alloc,
            self.name.as_slice(),
            self.size,
            self.bytes,
            self.lines,
        )?;
        self.due = next_due(now);
        self.is_shown = true;
        Ok(Some(text))
    }

    /// What is to be written so that no line is shown.
    pub fn take_end(&mut self) -> &'static [u8]
        ensures text { result.now ≡ ending_text self.old.is_shown }
        ensures hidden { self.new.is_shown ≡ false }
        ensures same { IsSameCount self.old self.new }
    {
        if self.is_shown {
            self.is_shown = false;
            ENDING
        } else {
            b""
        }
    }
}
