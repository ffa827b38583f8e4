//! What a command makes of a plan over tables.

ghost use Rattle.std.specs.Prelude.{◌≡◌, ◌++◌, ◌∷◌, [], string_bytes, IfOk, IfErr};
ghost use Rattle.vx_plan_nodes.specs.TypedView.{resolved_of};
ghost use Rattle.vx_check_rules.specs.CheckedView.{typed_plan};
ghost use Rattle.volcano_stats.specs.Phases.{phases_of, times_in};
ghost use Rattle.volcano_stats.specs.declared.phases.WorkPhase.TheVariants as work_phase;
ghost use Rattle.volcano_answer.specs.Commands.{IsShown, IsNotShown, IsResultOf, CommandRefuses};
ghost use Rattle.volcano_answer.specs.Made.{text_in, IfRun, IsRunReport};
ghost use Rattle.volcano_answer.specs.Stats.{IsCountedPlan};

use crate::serial::serial_plan;
use crate::services::Services;
use crate::stats::{RunReport, run_checked};
use std::alloc::Global;
use std::sync::Wait;
use std::thread::Threads;
use std::time::Clock;
use volcano_bundle::Command;
use volcano_refusals::Refusal;
use volcano_stats::{StatsForm, Timer};
use volcano_tables::Tables;
use vx_catalog_writing::Text;
use vx_check::{accepted_text, explain};
use vx_check_rules::{CheckFault, CheckedPlan, check};
use vx_exec_runs::Runs;
use vx_exec_setup::Setting;
use vx_plan_json::PlanFault;
use vx_plan_nodes::TypedPlan;

/// What a command makes of a plan over tables.
#[derive(Drop)]
pub enum CommandAnswer {
    Text(Text),
    /// Of a run, with its statistics if they are asked for.
    Run(RunReport),
}

impl CommandAnswer {
    /// The text alone.
    pub fn into_text(self) -> Text
        ensures { result.items ≡ text_in self }
    {
        match self {
            CommandAnswer::Text(text) => text,
            CommandAnswer::Run(report) => report.text,
        }
    }
}

/// A plan, once the checker has accepted it.
pub fn accepted(alloc: Global, plan: TypedPlan) -> Result<CheckedPlan, Refusal>
    ensures plan { IfOk result (λ checked. typed_plan checked ≡ plan) }
    ensures shown { IfOk result (λ _. IsShown (resolved_of plan)) }
    ensures refused { IfErr result (λ e. IsNotShown (resolved_of plan) e) }
{
    match check(alloc, plan) {
        Ok(checked) => Ok(checked),
        Err(CheckFault::Refused(refused)) => Err(Refusal::Check {
            rule: refused.rule,
            node: refused.node,
        }),
        Err(CheckFault::NoMemory(_)) => Err(Refusal::Plan(PlanFault::NoMemory)),
    }
}

/// What a command makes of a plan over tables. The phases that came before are in the timer; those of a run are added.
pub fn execute<T: Threads + Wait + Sync, R: Runs, C: Clock, B: Tables>(
    services: &Services<'_, T, R, C>,
    command: Command,
    tables: &B,
    setting: &Setting,
    plan: TypedPlan,
    form: Option<StatsForm>,
    timer: &mut Timer,
) -> Result<CommandAnswer, Refusal>
    ensures text { IfOk result (λ a. IsResultOf services.now.layout command (resolved_of plan) (B.holds tables.now) setting.now (text_in a)) }
    ensures run { IfOk result (IfRun (λ k. (command ≡ Command.Run) × IsShown (resolved_of plan) × IsCountedPlan (R.counted services.now.engine.now) services.now.layout form plan (B.holds tables.now) setting.now (phases_of (times_in timer.old) ++ (work_phase.Check ∷ [])) k.text.items (string_bytes k.stats))) }
    ensures runs { command ≡ Command.Run → IfOk result IsRunReport }
    ensures refused { IfErr result (λ e. CommandRefuses command (resolved_of plan) (B.holds tables.now) (B.lacks tables.now) setting.now e) }
{
    match command {
        Command::Run => {
            let report = run_checked(services, tables, setting, plan, form, timer)?;
            Ok(CommandAnswer::Run(report))
        }
        Command::Serial => {
            let text = serial_plan(services, tables, &plan)?;
            Ok(CommandAnswer::Text(text))
        }
        Command::Check => {
            let text = accepted_text(services.alloc, accepted(services.alloc, plan)?.is_total())?;
            Ok(CommandAnswer::Text(Text::from(text)))
        }
        Command::Explain => {
            let text = explain(services.alloc, &accepted(services.alloc, plan)?)?;
            Ok(CommandAnswer::Text(Text::from(text.into_bytes())))
        }
    }
}
