//! Runs of several plans, of which each answer is printed once it is made.

ghost use Rattle.std.specs.Prelude.{◌≡◌, ◌||◌, ◌++◌, [], is_err, string_bytes, ℕ, List, Some, None, map, IfOk, IfErr, OnOk};
ghost use Rattle.std.specs.Io.KnownBytes.{Appends};
ghost use Rattle.vx_plan_nodes.specs.TypedView.{resolved_of};
ghost use Rattle.vx_check_rules.specs.CheckedView.{typed_plan};
ghost use Rattle.volcano_stats.specs.Text.{write_end};
ghost use Rattle.volcano_stats.specs.declared.text.StatsForm.{StatsForm};
ghost use Rattle.volcano_answer.specs.Commands.{RunRefuses};
ghost use Rattle.volcano_answer.specs.Plans.{title};
ghost use Rattle.volcano_answer.specs.PlansView.{named_is};
ghost use Rattle.volcano_answer.specs.Printing.{AreWritten, IsEndedBy, StopsWith};
ghost use Rattle.volcano_answer.specs.Stats.{IsRunMore};

use crate::plans::AcceptedPlan;
use crate::runs::LoadedPlans;
use crate::services::Services;
use crate::stats::run_one;
use std::sync::Wait;
use std::thread::Threads;
use std::time::Clock;
use volcano_refusals::Refusal;
use volcano_stats::{Stopwatch, write_end};
use vx_catalog_bytes::{Broken, ByteOut, write_all};
use vx_catalog_writing::Text;
use vx_exec_runs::Runs;

/// What is left of runs whose answers were printed: their statistics, and how long the writes took, if that is known.
#[derive(Drop)]
pub struct PrintedRuns {
    pub stats: String,
    pub time: Option<u64>,
}

/// Why not all runs of several plans were printed.
#[derive(Drop)]
pub enum PrintFault {
    /// A run gives no text. The answers before it were printed.
    Refused(Refusal),
    /// The output failed.
    WriteFailed,
}

// Both times, where they are known.
fn both(first: Option<u64>, second: Option<u64>) -> Option<u64> {
    Some(first?.saturating_add(second?))
}

// Writes a text behind the line with the path of its plan.
fn write_titled<O: ByteOut>(path: &str, text: &Text, out: &mut O) -> Result<(), Broken>
    ensures ok { OnOk result (Appends (O.contents out.old) (O.contents out.new) (title path.now ++ text.now.items)) }
    ensures fails { O.has_failed out.new ≡ (O.has_failed out.old || is_err result) }
{
    write_all(out, b"# ")?;
    write_all(out, path.as_bytes())?;
    write_all(out, b"\n")?;
    text.write_to(out)
}

// Runs one of several plans, and writes its answer once all work of the plan is done. Its statistics and the time of the write are
// added to those of the plans before it.
fn print_run<T: Threads + Wait + Sync, R: Runs, C: Clock, O: ByteOut>(
    services: &Services<'_, T, R, C>,
    loaded: &LoadedPlans,
    accepted: &AcceptedPlan,
    printed: &mut PrintedRuns,
    out: &mut O,
) -> Result<(), PrintFault>
    ensures more { OnOk result ((own : List ℕ) × IsRunMore (R.counted services.now.engine.now) services.now.layout loaded.now.form loaded.now.database loaded.now.setting accepted.now [] (string_bytes printed.old.stats) own (string_bytes printed.new.stats) × Appends (O.contents out.old) (O.contents out.new) own) }
    ensures whole { OnOk result (O.has_failed out.new ≡ O.has_failed out.old) }
    ensures fault { IfErr result (IsEndedBy (λ e. RunRefuses (resolved_of (typed_plan accepted.now.plan)) loaded.now.database loaded.now.setting e) (out.new ≡ out.old) (O.has_failed out.new)) }
{
    let (form, setting, stats) = (loaded.form, &loaded.setting, &mut printed.stats);
    let own = match run_one(services, form, setting, accepted, &loaded.database, stats) {
        Ok(own) => own,
        Err(refusal) => return Err(PrintFault::Refused(refusal)),
    };
    let mut watch = Stopwatch::start(services.clock);
    match write_titled(accepted.path.as_str(), &own, out) {
        Ok(()) => {
            printed.time = both(printed.time, watch.lap(services.clock));
            Ok(())
        }
        Err(_) => Err(PrintFault::WriteFailed),
    }
}

/// Runs plans one after the other, and writes the answer of each behind the line with its path before the next one runs. The first
/// plan whose run gives no text ends it.
pub fn print_runs<T: Threads + Wait + Sync, R: Runs, C: Clock, O: ByteOut>(
    services: &Services<'_, T, R, C>,
    loaded: &LoadedPlans,
    out: &mut O,
) -> Result<PrintedRuns, PrintFault>
    ensures all { IfOk result (λ p. AreWritten (R.counted services.now.engine.now) loaded.now.layout loaded.now.form loaded.now.database loaded.now.setting loaded.now.plans.items (O.contents out.old) (O.contents out.new) (string_bytes p.stats)) }
    ensures stopped { IfErr result (StopsWith loaded.now.layout loaded.now.database loaded.now.setting (map named_is loaded.now.plans.items) (O.contents out.old) (O.contents out.new) (O.has_failed out.old) (O.has_failed out.new)) }
{
    let services = services
        .with_threads(loaded.threads)
        .with_layout(loaded.layout);
    let mut printed = PrintedRuns {
        stats: String::new(services.alloc),
        time: Some(0),
    };
    for accepted in &loaded.plans {
        print_run(&services, loaded, accepted, &mut printed, out)?;
    }
    Ok(printed)
}

/// Writes the statistics of plans that were printed, if they are asked for.
pub fn write_printed<E: ByteOut>(
    loaded: &LoadedPlans,
    printed: &PrintedRuns,
    err: &mut E,
) -> Result<(), Broken>
    ensures none { loaded.now.form ≡ None → err.new ≡ err.old }
    ensures ok { OnOk result ((f : StatsForm) → loaded.now.form ≡ Some f → Appends (E.contents err.old) (E.contents err.new) (string_bytes printed.now.stats ++ string_bytes loaded.now.common ++ write_end f printed.now.time)) }
    ensures fails { E.has_failed err.new ≡ (E.has_failed err.old || is_err result) }
{
    let Some(form) = loaded.form else {
        return Ok(());
    };
    write_all(err, printed.stats.as_bytes())?;
    write_all(err, loaded.common.as_bytes())?;
    write_end(err, form, printed.time)
}
