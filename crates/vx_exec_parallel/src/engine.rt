//! The engine of this repository.

use crate::run::{Threading, run_threads};
use std::alloc::Global;
use std::sync::Wait;
use std::thread::Threads;
use vx_catalog::Database;
use vx_check_rules::CheckedPlan;
use vx_exchange::ByteRouter;
use vx_exec::run_rounds;
use vx_exec_runs::{MAX_ROUNDS, RunOutcome, Runs};
use vx_exec_setup::{Mode, RunCounts, RunFault, Setting};
use vx_exec_threads::Free;
use vx_exec_watch::Watch;
use vx_plan_nodes::{PlanFunctions, StandardFunctions};

/// Runs plans by the workers of this repository and by the standard functions: by rounds in one thread, or each worker in a thread of its own.
/// Hash routes send keys by their bytes. A watch is told how far each run has come.
#[derive(Drop)]
pub struct Engine<'w, V> {
    watch: &'w V,
}

impl<'w, V> Engine<'w, V> {
    ghost use Rattle.std.specs.Prelude.{◌≡◌};

    /// Such an engine, with this watch.
    pub fn new(watch: &'w V) -> Engine<'w, V>
        ensures { result.watch.now ≡ watch.now }
    {
        Engine { watch }
    }
}

impl<V: Watch> Runs for Engine<'_, V> {
    ghost use Rattle.vx_exec_parallel.specs.Engine.{CountedIn};

    ghost counted = { λ _ mode p db s result ws. CountedIn ⟦<StandardFunctions as PlanFunctions>⟧ mode p db s result ws };

    fn announce(&self, path: &str) {
        self.watch.announce(path);
    }

    fn run<T: Threads + Wait + Sync>(
        &self,
        rt: &T,
        alloc: Global,
        plan: &CheckedPlan,
        database: &Database,
        setting: &Setting,
        counts: &mut RunCounts,
    ) -> Result<RunOutcome, RunFault> {
        let setup = setting.setup();
        match setting.mode() {
            Mode::Rounds => run_rounds(
                alloc,
                plan,
                database,
                setup,
                &StandardFunctions,
                &ByteRouter,
                MAX_ROUNDS,
                self.watch,
                counts,
            ),
            Mode::Threads => {
                let (router, gate) = (ByteRouter, Free);
                let threading = Threading::new(&router, &gate, self.watch);
                run_threads(
                    rt,
                    alloc,
                    plan,
                    database,
                    setup,
                    &StandardFunctions,
                    &threading,
                    counts,
                )
            }
        }
    }
}
