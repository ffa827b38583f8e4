//! Runs of plans over databases.

ghost use Rattle.std.specs.Prelude.{◌≡◌, true, Option, IfSome, IfOk, IfErr};
ghost use Rattle.vx_exec_setup.specs.Counts.{is_wanted, counts_in};
ghost use Rattle.vx_plan_nodes.specs.Outline.{columns};
ghost use Rattle.vx_plan_nodes.specs.TypedView.{resolved_of};
ghost use Rattle.vx_check_rules.specs.CheckedView.{typed_plan};
ghost use Rattle.volcano_stats.specs.declared.text.StatsForm.{StatsForm};
ghost use Rattle.volcano_answer.specs.Commands.{RunRefuses};
ghost use Rattle.volcano_answer.specs.Layouts.{rows_text};
ghost use Rattle.volcano_answer.specs.Stats.{IsCountedRun};

use crate::layouts::format_rows;
use crate::services::Services;
use std::alloc::AllocError;
use std::sync::Wait;
use std::thread::Threads;
use std::time::Clock;
use volcano_refusals::Refusal;
use vx_catalog::Database;
use vx_catalog_writing::Text;
use vx_check_rules::CheckedPlan;
use vx_exec_runs::{RunOutcome, Runs};
use vx_exec_setup::{RunCounts, Setting};
use vx_plan_nodes::{TypedPlan, name_texts};
use vx_rows_views::Rows;

/// The text of rows under the names of a plan's output, in the layout that is asked for.
pub fn text_of<T: Threads + Wait + Sync, R: Runs, C: Clock>(
    services: &Services<'_, T, R, C>,
    plan: &TypedPlan,
    rows: Rows,
) -> Result<Text, AllocError>
    ensures { IfOk result (λ v. v.items ≡ rows_text services.now.layout (columns (resolved_of plan.now).root).names rows.rows) }
{
    let names = name_texts(services.alloc, plan.root().head().columns.names.as_slice())?;
    format_rows(services, names.as_slice(), rows)
}

/// The rows of a run of a plan over a database. What its workers counted is kept, if that is wanted.
pub fn rows_over<T: Threads + Wait + Sync, R: Runs, C: Clock>(
    services: &Services<'_, T, R, C>,
    setting: &Setting,
    plan: &CheckedPlan,
    database: &Database,
    counts: &mut RunCounts,
) -> Result<Rows, Refusal>
    ensures run { (f : Option StatsForm) → IfSome f (λ _. is_wanted counts.old ≡ true)
        → IfOk result (λ rows. IsCountedRun (R.counted services.now.engine.now) services.now.layout f (typed_plan plan.now) database.now setting.now (rows_text services.now.layout (columns (resolved_of (typed_plan plan.now)).root).names rows.rows) (counts_in counts.new)) }
    ensures refused { IfErr result (λ e. RunRefuses (resolved_of (typed_plan plan.now)) database.now setting.now e) }
{
    let (rt, engine, alloc) = (services.rt, services.engine, services.alloc);
    match engine.run(rt, alloc, plan, database, setting, counts)? {
        RunOutcome::Done(rows) => Ok(rows),
        RunOutcome::Unfinished => Err(Refusal::Unfinished),
    }
}

/// The text of a run of a plan over a database. What its workers counted is kept, if that is wanted.
pub fn run_over<T: Threads + Wait + Sync, R: Runs, C: Clock>(
    services: &Services<'_, T, R, C>,
    setting: &Setting,
    plan: &CheckedPlan,
    database: &Database,
    counts: &mut RunCounts,
) -> Result<Text, Refusal>
    ensures run { (f : Option StatsForm) → IfSome f (λ _. is_wanted counts.old ≡ true)
        → IfOk result (λ text. IsCountedRun (R.counted services.now.engine.now) services.now.layout f (typed_plan plan.now) database.now setting.now text.items (counts_in counts.new)) }
    ensures refused { IfErr result (λ e. RunRefuses (resolved_of (typed_plan plan.now)) database.now setting.now e) }
{
    let rows = rows_over(services, setting, plan, database, counts)?;
    Ok(text_of(services, plan.plan(), rows)?)
}
