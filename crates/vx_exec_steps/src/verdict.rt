//! What a run comes to.

use vx_exchange_ends::Sends;
use vx_ops::{Fault, Source};
use vx_worker::{Worker, WorkerOutcome};

/// How the workers of a run stand together.
#[derive(Clone, Copy)]
pub enum RunState {
    /// All ended well.
    Done,
    /// Some worker has not ended.
    Unfinished,
    /// All ended, and some failed: the fault of the lowest-numbered of those that failed by themselves.
    Failed(Fault),
}

impl RunState {
    ghost use Rattle.std.specs.Prelude.{◌≡◌};
    ghost use Rattle.vx_exec_steps.specs.Verdicts.{with_outcome};

    // With one more worker that ended.
    fn with(self, outcome: WorkerOutcome) -> RunState
        ensures { result ≡ with_outcome self outcome }
    {
        match (self, outcome) {
            (RunState::Done | RunState::Failed(Fault::Passed), WorkerOutcome::Failed(fault)) =>
                RunState::Failed(fault),
            _ => self,
        }
    }
}

ghost use Rattle.vx_exec_steps.specs.Verdicts.{Judged};

/// Unfinished where a worker goes on; else the fault of the lowest-numbered worker that failed by itself, if one failed.
pub fn judge<O: Source, S: Sends>(workers: &[Worker<O, S>]) -> RunState
    ensures { Judged workers.now result }
{
    let mut verdict = RunState::Done;
    for worker in workers {
        match worker.outcome() {
            None => return RunState::Unfinished,
            Some(outcome) => verdict = verdict.with(outcome),
        }
    }
    verdict
}
