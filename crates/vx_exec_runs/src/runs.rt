//! What runs plans.

use crate::outcome::RunOutcome;
use std::alloc::Global;
use std::sync::Wait;
use std::thread::Threads;
use vx_catalog::Database;
use vx_check_rules::CheckedPlan;
use vx_exec_setup::{RunCounts, RunFault, Setting};

/// The most rounds of a run: an engine that runs by rounds makes as many before it gives up.
pub const MAX_ROUNDS: u64 = 1_000_000_000;

/// What runs plans: the workers of this repository, or another engine that keeps the same promise. By rounds it gives up only a plan that may
/// need more than `MAX_ROUNDS` of them. An engine knows how it hashes keys: a hash route sends a key where `byte_route` says.
pub trait Runs {
    ghost use Rattle.std.specs.Prelude.{◌≡◌, true, List, Result, IfOk};
    ghost use Rattle.std.specs.Thread.{IsSync};
    ghost use Rattle.vx_catalog.specs.Database.{Database};
    ghost use Rattle.vx_check_rules.specs.CheckedView.{typed_plan};
    ghost use Rattle.vx_plan_nodes.specs.ByteRouter.{byte_route};
    ghost use Rattle.vx_plan_nodes.specs.TypedView.{resolved_of};
    ghost use Rattle.vx_plan_nodes.specs.declared.typed_plan.TypedPlan.{TypedPlan};
    ghost use Rattle.vx_exec_runs.specs.Promise.{RunPromise, MayReport};
    ghost use Rattle.vx_exec_runs.specs.Runs.{IsSetUp, IsWhole, IfUnfinished, NeedsMoreRounds};
    ghost use Rattle.vx_exec_runs.specs.Sizes.{Sizes};
    ghost use Rattle.vx_exec_runs.specs.declared.outcome.RunOutcome.{RunOutcome};
    ghost use Rattle.vx_exec_setup.specs.Counts.{is_wanted, counts_in};
    ghost use Rattle.vx_exec_setup.specs.declared.counts.WorkerCounts.{WorkerCounts};
    ghost use Rattle.vx_exec_setup.specs.declared.fault.RunFault.{RunFault};
    ghost use Rattle.vx_exec_setup.specs.declared.setting.Mode.{Mode};
    ghost use Rattle.vx_exec_setup.specs.declared.setting.Mode.TheVariants as mode;

    // What the workers of a run in this mode, of these sizes, which came to this, counted in the end.
    ghost counted: { Self → Mode → TypedPlan → Database → Sizes → Result RunOutcome RunFault → List WorkerCounts → Type 0 };

    /// The run that comes next is of the plan at `path`, one of several. What tells a person of it may name it; no run depends on it.
    fn announce(&self, _path: &str) {}

    /// A run of a plan over a database, in the mode that the setting says. A plan that names a function which the program does not have is
    /// refused before the first step. Only by rounds may a run be left unfinished, and only where the setup is right and the plan needs more
    /// than `MAX_ROUNDS` rounds by the bound `rounds_needed`. What its workers counted is in `counts` afterwards, also where some failed;
    /// memory for it is refused only where it is wanted.
    fn run<T: Threads + Wait + Sync>(
        &self,
        rt: &T,
        alloc: Global,
        plan: &CheckedPlan,
        database: &Database,
        setting: &Setting,
        counts: &mut RunCounts,
    ) -> Result<RunOutcome, RunFault>
        requires shared { IsSync T.row }
        ensures promise { RunPromise byte_route (MayReport setting.now.mode) (resolved_of (typed_plan plan.now)) database.now setting.now.setup result }
        ensures whole { setting.now.mode ≡ mode.Threads → IfOk result IsWhole }
        ensures unfinished { IfOk result (IfUnfinished ((setting.now.mode ≡ mode.Rounds)
            × ((s : Sizes) × IsSetUp (resolved_of (typed_plan plan.now)) database.now setting.now.setup s × NeedsMoreRounds (resolved_of (typed_plan plan.now)) database.now s))) }
        ensures counts { is_wanted counts.old ≡ true → (s : Sizes) → IsSetUp (resolved_of (typed_plan plan.now)) database.now setting.now.setup s
            → counted self.now setting.now.mode (typed_plan plan.now) database.now s result (counts_in counts.new) };
}
