//! The answer to a bundle, over values: no byte is read or written here.

ghost use Rattle.std.specs.Prelude.{◌≡◌, string_bytes, IfOk, IfErr};
ghost use Rattle.volcano_bundle.specs.BundleView.{bundle_form};
ghost use Rattle.volcano_bundle.specs.declared.command.Command.TheVariants as command;
ghost use Rattle.vx_plan_nodes.specs.TypedView.{resolved_of};
ghost use Rattle.volcano_stats.specs.Phases.{phases_of, times_in};
ghost use Rattle.volcano_answer.specs.Answer.{IsBundlePlan, IsBundlePlanRefusal, IsOutput, Refuses, IsAnswer, IsRefused, AsksForRun};
ghost use Rattle.volcano_answer.specs.Made.{text_in, IfRun, IsRunReport};
ghost use Rattle.volcano_answer.specs.Stats.{IsBundleRun, AreBundleStats};

use crate::command::{CommandAnswer, execute};
use crate::services::Services;
use std::alloc::Global;
use std::sync::Wait;
use std::thread::Threads;
use std::time::Clock;
use volcano_bundle::{Bundle, bundle_in, value_of_text};
use volcano_refusals::Refusal;
use volcano_stats::{StatsForm, Timer, WorkPhase};
use vx_catalog_relations::Catalog;
use vx_check_directions::planned;
use vx_exec_runs::Runs;
use vx_plan_json::Plan;
use vx_plan_nodes::TypedPlan;

// The plan of a bundle over the bundle's catalog.
fn plan_from_bundle(alloc: Global, bundle: &Bundle<'_>) -> Result<TypedPlan, Refusal>
    ensures planned { IfOk result (λ p. IsBundlePlan (bundle_form bundle.now) (resolved_of p)) }
    ensures refused { IfErr result (λ e. IsBundlePlanRefusal (bundle_form bundle.now) e) }
{
    let catalog = Catalog::of_value(alloc, bundle.catalog())?;
    let plan = Plan::of_value(alloc, bundle.plan())?;
    Ok(planned(alloc, &plan, &catalog)?)
}

// What answers a bundle. The phases that came before are in the timer.
fn answer_bundle<T: Threads + Wait + Sync, R: Runs, C: Clock>(
    services: &Services<'_, T, R, C>,
    bundle: &Bundle<'_>,
    form: Option<StatsForm>,
    timer: &mut Timer,
) -> Result<CommandAnswer, Refusal>
    ensures text { IfOk result (λ a. IsOutput services.now.layout (bundle_form bundle.now) (text_in a)) }
    ensures run { IfOk result (IfRun (λ k. IsBundleRun (R.counted services.now.engine.now) services.now.layout form (bundle_form bundle.now) (phases_of (times_in timer.old)) k.text.items (string_bytes k.stats))) }
    ensures runs { (bundle_form bundle.now).command ≡ command.Run → IfOk result IsRunReport }
    ensures refused { IfErr result (λ e. Refuses (bundle_form bundle.now) e) }
{
    let plan = plan_from_bundle(services.alloc, bundle)?;
    timer.end(services.clock, WorkPhase::Plan)?;
    let (command, setting) = (bundle.command(), bundle.setting());
    execute(services, command, bundle, setting, plan, form, timer)
}

/// What answers a bundle's bytes, before a byte of it is written. The statistics of its run, if its command is one and they are asked
/// for, are those up to the time that the write takes.
pub fn answer_bytes<T: Threads + Wait + Sync, R: Runs, C: Clock>(
    services: &Services<'_, T, R, C>,
    bytes: &[u8],
    form: Option<StatsForm>,
) -> Result<CommandAnswer, Refusal>
    ensures text { IfOk result (λ a. IsAnswer services.now.layout bytes.now (text_in a)) }
    ensures run { IfOk result (IfRun (λ k. AreBundleStats (R.counted services.now.engine.now) services.now.layout form bytes.now k.text.items (string_bytes k.stats))) }
    ensures runs { AsksForRun bytes.now → IfOk result IsRunReport }
    ensures refused { IfErr result (λ e. IsRefused bytes.now e) }
{
    let mut timer = Timer::start(services.alloc, services.clock);
    let Some(value) = value_of_text(services.alloc, bytes)? else {
        return Err(Refusal::BadBundle);
    };
    let Some(bundle) = bundle_in(services.alloc, &value)? else {
        return Err(Refusal::BadBundle);
    };
    timer.end(services.clock, WorkPhase::Read)?;
    answer_bundle(services, &bundle, form, &mut timer)
}
