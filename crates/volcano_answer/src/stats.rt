//! Runs of plans over tables, counted and timed where statistics are asked for.

ghost use Rattle.std.specs.Prelude.{◌≡◌, ◌⊎◌, ◌++◌, ◌∷◌, [], true, Some, string_bytes, IfSome, IfOk, IfErr, OnOk};
ghost use Rattle.vx_exec_setup.specs.Counts.{is_wanted};
ghost use Rattle.volcano_stats.specs.Text.{lone_text, plan_text};
ghost use Rattle.vx_plan_nodes.specs.TypedView.{resolved_of};
ghost use Rattle.vx_check_rules.specs.CheckedView.{typed_plan};
ghost use Rattle.volcano_arguments.specs.Asked.{paths_are};
ghost use Rattle.volcano_bundle.specs.declared.command.Command.TheVariants as command;
ghost use Rattle.volcano_stats.specs.Phases.{phases_of, times_in};
ghost use Rattle.volcano_stats.specs.declared.phases.WorkPhase.TheVariants as work_phase;
ghost use Rattle.volcano_answer.specs.CommandLine.{TaskRefuses};
ghost use Rattle.volcano_answer.specs.Commands.{IsShown, PlanRefuses, CommandRefuses, RunRefuses};
ghost use Rattle.volcano_answer.specs.Files.{IsFilesPlan, IsFilesRefusal};
ghost use Rattle.volcano_answer.specs.Plans.{title};
ghost use Rattle.volcano_answer.specs.Stats.{if_asked, IsCountedPlan, AreTaskStats, IsRunMore};
ghost use Rattle.volcano_answer.specs.StatsNames.{stats_named};

use crate::command::accepted;
use crate::files::document_from_files;
use crate::plans::AcceptedPlan;
use crate::run::{rows_over, run_over, text_of};
use crate::services::Services;
use std::alloc::{AllocError, Global};
use std::sync::Wait;
use std::thread::Threads;
use std::time::Clock;
use volcano_arguments::Sources;
use volcano_refusals::Refusal;
use volcano_stats::{
    LoadTime, LoadTimer, PhaseTime, StatsForm, Stopwatch, Timer, WorkPhase, push_lone_plan,
    push_plan,
};
use volcano_tables::{Folder, Tables, load_tables_in_threads};
use vx_catalog::Database;
use vx_catalog_bytes::{ByteIn, Store};
use vx_catalog_writing::Text;
use vx_check_directions::planned;
use vx_check_rules::CheckedPlan;
use vx_exec_runs::Runs;
use vx_exec_setup::{RunCounts, Setting, WorkerCounts};
use vx_plan_nodes::TypedPlan;

/// The text of runs, and their statistics up to the time that its write takes, which are empty where none are asked for.
#[derive(Drop)]
pub struct RunReport {
    pub text: Text,
    pub stats: String,
}

/// A finished text, and the statistics of its runs up to the time that its write takes.
#[derive(Drop)]
pub struct CountedText {
    pub text: Text,
    pub form: StatsForm,
    pub opening: String,
}

/// The form of statistics that a word asks for, of which `none` asks for none. `None` if it is no such word.
pub fn stats_named(word: &str) -> Option<Option<StatsForm>>
    ensures { result ≡ stats_named word.now }
{
    match word {
        "none" => Some(None),
        "table" => Some(Some(StatsForm::Table)),
        "json" => Some(Some(StatsForm::Json)),
        _ => None,
    }
}

// The plan at one path, over the catalog at the other.
fn timed_plan<C: Clock, F: Store, I: ByteIn>(
    clock: &C,
    alloc: Global,
    files: &F,
    input: &mut I,
    sources: Sources<'_>,
    timer: &mut Timer,
) -> Result<TypedPlan, Refusal>
    ensures planned { IfOk result (λ p. IsFilesPlan (F.holds files.now) (I.remaining input.old) (paths_are sources.entry) (resolved_of p)) }
    ensures refused { IfErr result (λ e. (e ≡ Refusal.NoMemory) ⊎ IsFilesRefusal (F.holds files.now) (F.is_reliable files.now) (I.remaining input.old) (I.has_failed input.new) (paths_are sources.entry) e) }
    ensures phases { OnOk result (phases_of (times_in timer.new) ≡ phases_of (times_in timer.old) ++ (work_phase.Read ∷ work_phase.Plan ∷ [])) }
{
    let (catalog, plan) = document_from_files(alloc, files, input, sources)?;
    timer.end(clock, WorkPhase::Read)?;
    let typed = planned(alloc, &plan, &catalog)?;
    timer.end(clock, WorkPhase::Plan)?;
    Ok(typed)
}

/// Where what workers count is to be kept, if statistics are asked for.
pub fn counts_for(alloc: Global, form: Option<StatsForm>) -> RunCounts
    ensures { IfSome form (λ _. is_wanted result ≡ true) }
{
    match form {
        Some(_) => RunCounts::new(alloc),
        None => RunCounts::unread(alloc),
    }
}

// The statistics of a plan that runs alone, up to the time of the write, if they are asked for.
fn lone_stats(
    alloc: Global,
    form: Option<StatsForm>,
    plan: &TypedPlan,
    workers: &[WorkerCounts],
    loads: &[LoadTime],
    times: &[PhaseTime],
) -> Result<String, AllocError>
    ensures { IfOk result (λ s. string_bytes s ≡ if_asked form (λ f. lone_text f plan.now workers.now loads.now times.now)) }
{
    let mut stats = String::new(alloc);
    if let Some(form) = form {
        push_lone_plan(&mut stats, alloc, form, plan, workers, loads, times)?;
    }
    Ok(stats)
}

/// The text of a run of a plan over tables, with its statistics if they are asked for. The phases that came before are in the timer.
pub fn run_plan<T: Threads + Wait + Sync, R: Runs, C: Clock, B: Tables>(
    services: &Services<'_, T, R, C>,
    tables: &B,
    setting: &Setting,
    plan: &CheckedPlan,
    form: Option<StatsForm>,
    timer: &mut Timer,
) -> Result<RunReport, Refusal>
    ensures run { IfOk result (λ k. IsCountedPlan (R.counted services.now.engine.now) services.now.layout form (typed_plan plan.now) (B.holds tables.now) setting.now (phases_of (times_in timer.old)) k.text.items (string_bytes k.stats)) }
    ensures refused { IfErr result (λ e. (e ≡ Refusal.NoMemory) ⊎ PlanRefuses (resolved_of (typed_plan plan.now)) (B.holds tables.now) (B.lacks tables.now) setting.now e) }
{
    let (alloc, clock) = (services.alloc, services.clock);
    let mut loads = LoadTimer::start(alloc, clock);
    let database = load_tables_in_threads(
        services.rt,
        services.loading(),
        plan.plan(),
        tables,
        &mut loads,
    )?;
    timer.end(clock, WorkPhase::Load)?;
    let mut counts = counts_for(alloc, form);
    let rows = rows_over(services, setting, plan, &database, &mut counts)?;
    // What no row of the answer needs goes before the text is made, and the rest while it is.
    drop(database);
    let text = text_of(services, plan.plan(), rows)?;
    timer.end(clock, WorkPhase::Run)?;
    let workers = counts.workers();
    let stats = lone_stats(
        alloc,
        form,
        plan.plan(),
        workers,
        loads.times(),
        timer.times(),
    )?;
    Ok(RunReport { text, stats })
}

/// The same of a plan that the checker is still to accept.
pub fn run_checked<T: Threads + Wait + Sync, R: Runs, C: Clock, B: Tables>(
    services: &Services<'_, T, R, C>,
    tables: &B,
    setting: &Setting,
    plan: TypedPlan,
    form: Option<StatsForm>,
    timer: &mut Timer,
) -> Result<RunReport, Refusal>
    ensures shown { IfOk result (λ _. IsShown (resolved_of plan)) }
    ensures stats { IfOk result (λ k. IsCountedPlan (R.counted services.now.engine.now) services.now.layout form plan (B.holds tables.now) setting.now (phases_of (times_in timer.old) ++ (work_phase.Check ∷ [])) k.text.items (string_bytes k.stats)) }
    ensures refused { IfErr result (λ e. CommandRefuses command.Run (resolved_of plan) (B.holds tables.now) (B.lacks tables.now) setting.now e) }
{
    let checked = accepted(services.alloc, plan)?;
    timer.end(services.clock, WorkPhase::Check)?;
    run_plan(services, tables, setting, &checked, form, timer)
}

/// The text of a run of the plan at one path over the catalog at the other and the tables of a folder, with its statistics if they
/// are asked for.
pub fn run_task<T: Threads + Wait + Sync, R: Runs, C: Clock, F: Store, I: ByteIn>(
    services: &Services<'_, T, R, C>,
    files: &F,
    input: &mut I,
    form: Option<StatsForm>,
    sources: Sources<'_>,
    folder: &str,
    setting: &Setting,
) -> Result<RunReport, Refusal>
    ensures stats { IfOk result (λ k. AreTaskStats (R.counted services.now.engine.now) services.now.layout (F.holds files.now) (I.remaining input.old) form
        (record { command = command.Run; paths = paths_are sources.entry; folder = folder.now; setting = setting.now }) k.text.items (string_bytes k.stats)) }
    ensures refused { IfErr result (λ e. TaskRefuses (F.holds files.now) (F.is_reliable files.now) (I.remaining input.old) (I.has_failed input.new)
        (record { command = command.Run; paths = paths_are sources.entry; folder = folder.now; setting = setting.now }) e) }
{
    let (alloc, clock) = (services.alloc, services.clock);
    let mut timer = Timer::start(alloc, clock);
    let plan = timed_plan(clock, alloc, files, input, sources, &mut timer)?;
    let tables = Folder {
        files,
        path: folder,
    };
    run_checked(services, &tables, setting, plan, form, &mut timer)
}

// Adds the line with the path of a plan.
fn push_title(text: &mut String, path: &str) -> Result<(), AllocError>
    ensures { OnOk result (string_bytes text.new ≡ string_bytes text.old ++ title path.now) }
{
    text.push_str("# ")?;
    text.push_str(path)?;
    text.push_str("\n")
}

// Adds the statistics of one of several plans behind the line with its path, if they are asked for.
fn push_stats(
    stats: &mut String,
    alloc: Global,
    form: Option<StatsForm>,
    accepted: &AcceptedPlan,
    workers: &[WorkerCounts],
    time: PhaseTime,
) -> Result<(), AllocError>
    ensures { OnOk result (string_bytes stats.new ≡ string_bytes stats.old ++ if_asked form (λ f. title (string_bytes accepted.now.path) ++ plan_text f (typed_plan accepted.now.plan) workers.now time)) }
{
    if let Some(form) = form {
        push_title(stats, accepted.path.as_str())?;
        push_plan(stats, alloc, form, accepted.plan.plan(), workers, time)?;
    }
    Ok(())
}

/// The text of a run of one of several plans. Its statistics are added behind the line with the plan's path, if they are asked for.
pub fn run_one<T: Threads + Wait + Sync, R: Runs, C: Clock>(
    services: &Services<'_, T, R, C>,
    form: Option<StatsForm>,
    setting: &Setting,
    accepted: &AcceptedPlan,
    database: &Database,
    stats: &mut String,
) -> Result<Text, Refusal>
    ensures run { IfOk result (λ own. IsRunMore (R.counted services.now.engine.now) services.now.layout form database.now setting.now accepted.now [] (string_bytes stats.old) (title (string_bytes accepted.now.path) ++ own.items) (string_bytes stats.new)) }
    ensures refused { IfErr result (λ e. RunRefuses (resolved_of (typed_plan accepted.now.plan)) database.now setting.now e) }
{
    let (alloc, clock) = (services.alloc, services.clock);
    let mut counts = counts_for(alloc, form);
    services.engine.announce(accepted.path.as_str());
    let mut watch = Stopwatch::start(clock);
    let own = run_over(services, setting, &accepted.plan, database, &mut counts)?;
    let time = watch.end(clock, WorkPhase::Run);
    push_stats(stats, alloc, form, accepted, counts.workers(), time)?;
    Ok(own)
}
