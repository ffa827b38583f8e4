//! Runs that show on a screen how far they have come.

ghost use Rattle.std.specs.Prelude.{◌≡◌, ◌<◌, ◌⊎◌, codes, false, Ok, None, IfOk, IfSome, IsNone, IsSomeAnd};
ghost use Rattle.std.specs.Io.KnownBytes.{Appends};
ghost use Rattle.volcano_progress.specs.Progress.{ending_text};
ghost use Rattle.volcano_progress.specs.Runs.{HasGoneOn, IsBegun, IsSameRun, run_text};

use crate::name::{after_slash, shown_name};
use crate::run_progress::RunProgress;
use crate::screen::Screen;
use std::alloc::{AllocError, Global};
use std::cell::RefCell;
use vx_catalog_bytes::{ByteOut, write_all};
use vx_exec_watch::Watch;

// The name of a run of one plan alone.
const LONE: &[u8] = b"run";

// Writes the line of a run, if it is due. Where memory runs out or the writer fails, it is not written.
fn show<O: ByteOut>(run: &mut RunProgress, alloc: Global, now: u64, out: &mut O)
    ensures early { now < run.old.due → out.new ≡ out.old }
    ensures same { IsSameRun run.old run.new }
    ensures written { O.has_failed out.new ≡ false → (out.new ≡ out.old) ⊎ Appends (O.contents out.old) (O.contents out.new) (run_text run.old now) }
{
    if let Ok(Some(text)) = run.take_due(alloc, now) {
        let _ = write_all(out, text.as_slice());
    }
}

// Erases the line of a run, if it is shown.
fn erase<O: ByteOut>(run: &mut RunProgress, out: &mut O)
    ensures hidden { run.new.is_shown ≡ false }
    ensures same { IsSameRun run.old run.new }
    ensures erased { O.has_failed out.new ≡ false → Appends (O.contents out.old) (O.contents out.new) (ending_text run.old.is_shown) }
{
    let text = run.take_end();
    let _ = write_all(out, text);
}

// The name of a run that begins: that of its plan, if it is one of several.
fn name_of_run(alloc: Global, plan: Option<Vec<u8>>) -> Result<Vec<u8>, AllocError>
    ensures plan { IfSome plan (λ name. result ≡ Ok name) }
    ensures lone { IsNone plan → IfOk result (λ name. name.items ≡ codes "run") }
{
    match plan {
        Some(name) => Ok(name),
        None => Vec::from_slice(alloc, LONE),
    }
}

// A run that begins. Where memory runs out, nothing is shown of it.
fn run_begun(alloc: Global, plan: Option<Vec<u8>>, command: u64, now: u64) -> Option<RunProgress>
    ensures begun { IfSome result (λ run. IsBegun run command now) }
    ensures plan { IfSome plan (λ name. IsSomeAnd result (λ run. run.name ≡ name)) }
    ensures lone { IsNone plan → IfSome result (λ run. run.name.items ≡ codes "run") }
{
    match name_of_run(alloc, plan) {
        Ok(name) => Some(RunProgress::new(name, command, now)),
        Err(_) => None,
    }
}

// What is known of the run that goes on, and of the one that comes next.
#[derive(Drop)]
struct Known {
    // The name of the plan that runs next, if it is one of several.
    plan: Option<Vec<u8>>,
    // The run that goes on, if one does.
    run: Option<RunProgress>,
}

impl Known {
    // A run begins.
    fn begin(&mut self, alloc: Global, command: u64, now: u64)
        ensures taken { self.new.plan ≡ None }
        ensures begun { IfSome self.new.run (λ run. IsBegun run command now) }
        ensures plan { IfSome self.old.plan (λ name. IsSomeAnd self.new.run (λ run. run.name ≡ name)) }
        ensures lone { IsNone self.old.plan → IfSome self.new.run (λ run. run.name.items ≡ codes "run") }
    {
        self.run = run_begun(alloc, self.plan.take(), command, now);
    }

    // The run goes on, and its root has given so many rows.
    fn note<O: ByteOut>(&mut self, rows: u64, alloc: Global, now: u64, out: &mut O)
        ensures plan { self.new.plan ≡ self.old.plan }
        ensures noted { IfSome self.old.run (λ before. IsSomeAnd self.new.run (λ after. HasGoneOn before rows after)) }
        ensures early { IfSome self.old.run (λ before. now < before.due → out.new ≡ out.old) }
        ensures written { IfSome self.new.run (λ after. O.has_failed out.new ≡ false → (out.new ≡ out.old) ⊎ Appends (O.contents out.old) (O.contents out.new) (run_text after now)) }
        ensures no_run { IsNone self.old.run → IsNone self.new.run × (out.new ≡ out.old) }
    {
        if let Some(run) = &mut self.run {
            run.note(rows);
            show(run, alloc, now, out);
        }
    }

    // The run has ended.
    fn end<O: ByteOut>(&mut self, out: &mut O)
        ensures over { self.new.run ≡ None }
        ensures plan { self.new.plan ≡ self.old.plan }
        ensures erased { IfSome self.old.run (λ run. O.has_failed out.new ≡ false → Appends (O.contents out.old) (O.contents out.new) (ending_text run.is_shown)) }
        ensures no_run { IsNone self.old.run → out.new ≡ out.old }
    {
        if let Some(mut run) = self.run.take() {
            erase(&mut run, out);
        }
    }
}

/// Shows on a screen how far each run has come, where there is a screen.
#[derive(Drop)]
pub struct WatchedRuns<'s, C> {
    alloc: Global,
    screen: Option<&'s C>,
    began: Option<u64>,
    known: RefCell<Known>,
}

impl<'s, C: Screen> WatchedRuns<'s, C> {
    /// No run has begun. The command begins now.
    pub fn new(alloc: Global, screen: Option<&'s C>) -> WatchedRuns<'s, C> {
        let began = match screen {
            Some(screen) => screen.now(),
            None => None,
        };
        WatchedRuns {
            alloc,
            screen,
            began,
            known: RefCell::new(Known {
                plan: None,
                run: None,
            }),
        }
    }

    // The name under which a plan at a path is shown.
    fn name_of(&self, path: &str) -> Result<Vec<u8>, AllocError> {
        shown_name(self.alloc, after_slash(path.as_bytes()))
    }
}

impl<C: Screen> Watch for WatchedRuns<'_, C> {
    fn announce(&self, path: &str) {
        if self.screen.is_none() {
            return;
        }
        if let Ok(mut known) = self.known.try_borrow_mut() {
            known.plan = self.name_of(path).ok();
        }
    }

    fn is_looking(&self) -> bool {
        self.screen.is_some()
    }

    fn begin(&self) {
        let Some(screen) = self.screen else {
            return;
        };
        let (Some(command), Some(now)) = (self.began, screen.now()) else {
            return;
        };
        if let Ok(mut known) = self.known.try_borrow_mut() {
            known.begin(self.alloc, command, now);
        }
    }

    fn note(&self, rows: u64) {
        let Some(screen) = self.screen else {
            return;
        };
        let Some(now) = screen.now() else {
            return;
        };
        if let Ok(mut known) = self.known.try_borrow_mut() {
            known.note(rows, self.alloc, now, &mut screen.out());
        }
    }

    fn end(&self) {
        let Some(screen) = self.screen else {
            return;
        };
        if let Ok(mut known) = self.known.try_borrow_mut() {
            known.end(&mut screen.out());
        }
    }
}
