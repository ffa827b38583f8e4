//! What arguments ask for: runs, with statistics if they are asked for, or anything else.

ghost use Rattle.std.specs.Prelude.{◌≡◌, true, Some, None, IfOk, IfErr};
ghost use Rattle.volcano_arguments.specs.Asked.{asked_is};
ghost use Rattle.volcano_stats.specs.declared.text.StatsForm.{StatsForm};
ghost use Rattle.volcano_answer.specs.CommandLineView.{IsAskAnswer, IsAskFault};
ghost use Rattle.volcano_answer.specs.Made.{IsRunReport};
ghost use Rattle.volcano_answer.specs.Stats.{AsksForRuns};
ghost use Rattle.volcano_answer.specs.StatsView.{answer_with, made_with, IsCountedAs, IsUncounted};

use crate::arguments::setting_in;
use crate::command::CommandAnswer;
use crate::command_line::{ArgumentAnswer, ArgumentFault, answer_plain, usage_fault};
use crate::finding::answer_catalog;
use crate::program::outcome_of;
use crate::runs::load_plans;
use crate::services::Services;
use crate::stats::{CountedText, RunReport, run_task};
use std::sync::Wait;
use std::thread::Threads;
use std::time::Clock;
use volcano_arguments::Asked;
use volcano_stats::StatsForm;
use vx_catalog_bytes::{ByteIn, Store};
use vx_catalog_writing::Text;
use vx_exec_runs::Runs;

// The answer that a report of runs is: with statistics, if they are asked for.
fn answer_of(form: Option<StatsForm>, report: RunReport) -> ArgumentAnswer
    ensures is { result ≡ answer_with form report }
    ensures no_stats { form ≡ None → IsUncounted result }
    ensures stats { (f : StatsForm) → form ≡ Some f → IsCountedAs f result }
{
    match form {
        None => ArgumentAnswer::Text(report.text),
        Some(form) => ArgumentAnswer::Counted(CountedText {
            text: report.text,
            form,
            opening: report.stats,
        }),
    }
}

// The answer that what a command made is.
fn answer_made(form: Option<StatsForm>, made: CommandAnswer) -> ArgumentAnswer
    ensures is { result ≡ made_with form made }
    ensures no_stats { form ≡ None → IsUncounted result }
    ensures stats { (f : StatsForm) → form ≡ Some f → IsRunReport made → IsCountedAs f result }
{
    match made {
        CommandAnswer::Text(text) => ArgumentAnswer::Text(text),
        CommandAnswer::Run(report) => answer_of(form, report),
    }
}

/// What answers what arguments ask for. Runs are answered with statistics in this form, if there is one.
pub fn answer_asked<T: Threads + Wait + Sync, R: Runs, C: Clock, F: Store, I: ByteIn>(
    services: &Services<'_, T, R, C>,
    files: &F,
    input: &mut I,
    form: Option<StatsForm>,
    asked: &Asked<'_>,
) -> Result<ArgumentAnswer, ArgumentFault>
    ensures answer { IfOk result (λ a. IsAskAnswer (R.counted services.now.engine.now) services.now.layout (F.holds files.now) (I.remaining input.old) (asked_is asked.now) a) }
    ensures no_stats { form ≡ None → IfOk result IsUncounted }
    ensures stats { (f : StatsForm) → form ≡ Some f → AsksForRuns (I.remaining input.old) (asked_is asked.now) → IfOk result (IsCountedAs f) }
    ensures refused { IfErr result (IsAskFault (F.holds files.now) (F.is_reliable files.now) (I.remaining input.old) (I.has_failed input.new) (asked_is asked.now)) }
{
    let alloc = services.alloc;
    match asked {
        Asked::Bundle => {
            let made = outcome_of(services, input, form)?;
            Ok(answer_made(form, made))
        }
        Asked::Run(sources, folder, given) => {
            let setting = match setting_in(alloc, given)? {
                Ok(setting) => setting,
                Err(wrong) => return Err(usage_fault(alloc, wrong)),
            };
            let report = run_task(services, files, input, form, *sources, *folder, &setting)?;
            Ok(answer_of(form, report))
        }
        Asked::RunPlans(sources, folder, given) => {
            let setting = match setting_in(alloc, given)? {
                Ok(setting) => setting,
                Err(wrong) => return Err(usage_fault(alloc, wrong)),
            };
            let loaded = load_plans(services, files, input, form, sources, *folder, setting)?;
            Ok(ArgumentAnswer::Runs(loaded))
        }
        Asked::Catalog(paths, _quiet) => {
            let text = answer_catalog(services, files, paths.as_slice())?;
            Ok(ArgumentAnswer::Text(Text::from(text)))
        }
        _ => answer_plain(services, files, input, asked),
    }
}
