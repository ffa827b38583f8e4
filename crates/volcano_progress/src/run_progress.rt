//! How far a run has come, and when the line that says so is due.

ghost use Rattle.std.specs.Prelude.{◌≡◌, ◌≤◌, ◌<◌, IfOk, OnOk, IsSomeAnd, None, true, false};

use crate::due::{first_due, next_due};
use crate::text::{ENDING, shown_run_text};
use std::alloc::{AllocError, Global};

/// How far a run has come.
#[derive(Drop)]
pub struct RunProgress {
    pub name: Vec<u8>,
    pub began: u64,
    pub rows: u64,
    pub due: u64,
    pub is_shown: bool,
}

impl RunProgress {
    ghost use Rattle.volcano_progress.specs.Due.{first_due, next_due};
    ghost use Rattle.volcano_progress.specs.Progress.{ending_text};
    ghost use Rattle.volcano_progress.specs.Runs.{seconds_since, HasGoneOn, IsSameRun, run_text};

    /// A run whose root has given no row. The command and the run began at these times, in milliseconds.
    pub fn new(name: Vec<u8>, command: u64, run: u64) -> RunProgress
        ensures name { result.name ≡ name }
        ensures began { result.began ≡ run }
        ensures rows { result.rows ≡ 0 }
        ensures due { result.due ≡ first_due command run }
        ensures hidden { result.is_shown ≡ false }
    {
        RunProgress {
            name,
            began: run,
            rows: 0,
            due: first_due(command, run),
            is_shown: false,
        }
    }

    /// Its root has given so many rows.
    pub fn note(&mut self, rows: u64)
        ensures noted { HasGoneOn self.old rows self.new }
        ensures due { self.new.due ≡ self.old.due }
        ensures shown { self.new.is_shown ≡ self.old.is_shown }
    {
        self.rows = rows;
    }

    // How many whole seconds the run goes on.
    fn seconds(&self, now: u64) -> u64
        ensures { result ≡ seconds_since self.now.began now }
    {
        now.saturating_sub(self.began) / 1_000
    }

    /// What is to be written at a time, in milliseconds: the line, if it is due.
    pub fn take_due(&mut self, alloc: Global, now: u64) -> Result<Option<Vec<u8>>, AllocError>
        ensures early { now < self.old.due → (result ≡ Ok None) × (self.new ≡ self.old) }
        ensures text { self.old.due ≤ now → IfOk result (λ due. IsSomeAnd due (λ text. text.items ≡ run_text self.old now)) }
        ensures next { self.old.due ≤ now → OnOk result (self.new.due ≡ next_due now) }
        ensures shown { self.old.due ≤ now → OnOk result (self.new.is_shown ≡ true) }
        ensures same { IsSameRun self.old self.new }
    {
        if now < self.due {
            return Ok(None);
        }
        let text = shown_run_text(alloc, self.name.as_slice(), self.rows, self.seconds(now))?;
        self.due = next_due(now);
        self.is_shown = true;
        Ok(Some(text))
    }

    /// What is to be written so that no line is shown.
    pub fn take_end(&mut self) -> &'static [u8]
        ensures text { result.now ≡ ending_text self.old.is_shown }
        ensures hidden { self.new.is_shown ≡ false }
        ensures same { IsSameRun self.old self.new }
    {
        if self.is_shown {
            self.is_shown = false;
            ENDING
        } else {
            b""
        }
    }
}
