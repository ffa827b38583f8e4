//! What arguments ask for, answered from files and standard input.

ghost use Rattle.std.specs.Prelude.{ℕ, ◌≡◌, ◌⊎◌, List, [], slice_index_or, Bool, true, false, map, Option, option_map, Some, None, MatchResult, IfOk, IfErr};
ghost use Rattle.clap.specs.Values.{kind_of};
ghost use Rattle.volcano_arguments.specs.Asked.{asked_is, paths_are, check_all, explain, draw, sql, why, generate, Ask};
ghost use Rattle.volcano_stats.specs.declared.text.StatsForm.{StatsForm};
ghost use Rattle.vx_catalog_bytes.specs.Stored.{Stored};
ghost use Rattle.volcano_answer.specs.CommandLine.{default_setting, IsTask, AnswersTask, TaskRefuses, AnswersForm, FormIsRefused, AnswersStatement, StatementIsRefused, AnswersAnnotation, AnnotationIsRefused, spelled_out, with_program_name, AsksFor};
ghost use Rattle.volcano_answer.specs.Stats.{stats_of_word, stats_asked, is_plain, AsksForRuns};
ghost use Rattle.volcano_answer.specs.StatsNames.{stats_named};
ghost use Rattle.volcano_answer.specs.Layouts.{names_layout, layout_of_word};
ghost use Rattle.volcano_answer.specs.StatsView.{IsCountedAs, IsUncounted, IsStatsFault, IsLayoutFault, IsErrorsFault};
ghost use Rattle.volcano_answer.specs.UsageView.{IsUnmet};
ghost use Rattle.volcano_answer.specs.CommandLineView.{task_is, IsJob, IsAskAnswer, IsArgumentAnswer, IsHelp, HasUsageText, IsUsageFault, IsClapFault, IsAskFault, IsArgumentFault};

use crate::annotating::{annotated_plan, asking_if};
use crate::asked::answer_asked;
use crate::command::{accepted, execute};
use crate::drawing_faults::no_drawing;
use crate::failing::{Findings, verdict_on};
use crate::files::{all_from_files, bytes_at, document_from_files, plan_from_files};
use crate::forms::{PlanForm, form_named, plan_in_form};
use crate::layouts::{Layout, layout_named};
use crate::loading::loading_threads;
use crate::relation::relation_text;
use crate::runs::LoadedPlans;
use crate::services::Services;
use crate::statement::{dialect_named, statement};
use crate::stats::{CountedText, stats_named};
use crate::usage::{WrongPart, usage_text};
use clap::Error;
use clap::error::ErrorKind;
use std::alloc::{AllocError, Global};
use std::sync::Wait;
use std::thread::Threads;
use std::time::Clock;
use volcano_arguments::{Asked, Request, Sources, asked_for};
use volcano_bundle::Command;
use volcano_drawing::draw;
use volcano_refusals::Refusal;
use volcano_stats::{Timer, operator_words};
use volcano_tables::Folder;
use volcano_why::entry;
use vx_catalog_bytes::{ByteIn, Store};
use vx_catalog_writing::Text;
use vx_check_sql::Dialect;
use vx_exec_runs::Runs;
use vx_exec_setup::{
    DEFAULT_MORSEL_ROWS, DEFAULT_PACKET_ROWS, DEFAULT_SLACK, Mode, Setting, Setup,
};

/// A command over the catalog, the plan and the folder of tables that arguments name.
#[derive(Drop)]
pub struct FileCommand<'a> {
    command: Command,
    sources: Sources<'a>,
    folder: &'a str,
    setting: Setting,
}

/// What arguments ask for that is no run, with its values.
#[derive(Drop)]
enum AskedJob<'a> {
    Command(FileCommand<'a>),
    /// A check of all nodes of the plan that arguments name, over the catalog that they name.
    Verdict(Sources<'a>),
    /// That plan with the claims that the rule table shows, and whether they are found by what is known of columns too.
    Annotation(Sources<'a>, bool),
    /// A plan in a form, over the catalog and the plan that arguments name.
    Form(PlanForm, Sources<'a>),
    /// A plan's picture with the statistics of the file at a path, over the catalog and the plan that arguments name.
    Drawing(Sources<'a>, &'a str),
    /// A plan as a statement of SQL, over the catalog and the plan that arguments name.
    Statement(Dialect, Sources<'a>),
    /// What a code means.
    Entry(&'static str),
    /// The relation with so many rows.
    Relation(u64),
}

/// What answers arguments.
#[derive(Drop)]
pub enum ArgumentAnswer {
    /// A finished text.
    Text(Text),
    /// The text of the relation with so many rows as CSV, which is still to be made.
    Relation(u64),
    /// A finished text, and statistics that follow it.
    Counted(CountedText),
    /// The texts of runs of several plans, which are still to be made.
    Runs(LoadedPlans),
}

/// Why arguments have no answer.
#[derive(Drop)]
pub enum ArgumentFault {
    /// They are wrong, with the text that says how.
    Usage(Vec<u8>),
    /// What they ask for is refused.
    Refused(Refusal),
    /// They ask for a check of all nodes of a plan, and some fail: a line for each of them.
    Failing(String),
}

impl From<Refusal> for ArgumentFault {
    ghost use Rattle.std.specs.Prelude.{◌≡◌};
    ghost use Rattle.volcano_answer.specs.declared.command_line.ArgumentFault.TheVariants as fault;

    ghost from_gives = { λ refusal e. e ≡ fault.Refused refusal };

    fn from(refusal: Refusal) -> ArgumentFault {
        ArgumentFault::Refused(refusal)
    }
}

impl From<AllocError> for ArgumentFault {
    ghost use Rattle.std.specs.Prelude.{◌≡◌};
    ghost use Rattle.volcano_answer.specs.declared.command_line.ArgumentFault.TheVariants as fault;
    ghost use Rattle.volcano_refusals.specs.declared.refusal.Refusal.TheVariants.{NoMemory};

    ghost from_gives = { λ _ e. e ≡ fault.Refused NoMemory };

    fn from(_e: AllocError) -> ArgumentFault {
        ArgumentFault::Refused(Refusal::NoMemory)
    }
}

// How a run is set up by default.
fn default_setting(alloc: Global) -> Setting
    ensures { result ≡ default_setting }
{
    let setup = Setup::new(
        Vec::new(alloc),
        DEFAULT_PACKET_ROWS,
        DEFAULT_MORSEL_ROWS,
        DEFAULT_SLACK,
    );
    Setting::new(setup, Mode::Rounds)
}

// A command that needs no more than a catalog and a plan, or a folder of tables too.
fn plain_task<'a>(
    alloc: Global,
    command: Command,
    sources: Sources<'a>,
    folder: &'a str,
) -> FileCommand<'a>
    ensures { task_is result ≡ record { command = command; paths = paths_are sources.entry; folder = folder.entry.now; setting = default_setting } }
{
    FileCommand {
        command,
        sources,
        folder,
        setting: default_setting(alloc),
    }
}

// What explaining a plan in the format of this name is.
fn explain_job<'a>(
    alloc: Global,
    sources: Sources<'a>,
    format: &'a str,
) -> Result<AskedJob<'a>, WrongPart<'a>>
    ensures { MatchResult result (IsJob (explain (paths_are sources.entry) format.entry.now)) (IsUnmet (explain (paths_are sources.entry) format.entry.now)) }
{
    if format == "text" {
        let task = plain_task(alloc, Command::Explain, sources, "");
        return Ok(AskedJob::Command(task));
    }
    match form_named(format) {
        Some(form) => Ok(AskedJob::Form(form, sources)),
        None => Err(WrongPart {
            before: "volcano: --format ",
            argument: format,
            after: ": a format is text, json or dot; see volcano explain --help\n",
        }),
    }
}

// What printing a plan in the SQL of the dialect of this name is.
fn sql_job<'a>(sources: Sources<'a>, dialect: &'a str) -> Result<AskedJob<'a>, WrongPart<'a>>
    ensures { MatchResult result (IsJob (sql (paths_are sources.entry) dialect.entry.now)) (IsUnmet (sql (paths_are sources.entry) dialect.entry.now)) }
{
    match dialect_named(dialect) {
        Some(named) => Ok(AskedJob::Statement(named, sources)),
        None => Err(WrongPart {
            before: "volcano: --dialect ",
            argument: dialect,
            after: ": a dialect is sqlite, postgres or clickhouse; see volcano sql --help\n",
        }),
    }
}

// What printing the meaning of a code is.
fn why_job<'a>(code: &'a str) -> Result<AskedJob<'a>, WrongPart<'a>>
    ensures { MatchResult result (IsJob (why code.entry.now)) (IsUnmet (why code.entry.now)) }
{
    match entry(code) {
        Some(text) => Ok(AskedJob::Entry(text)),
        None => Err(WrongPart {
            before: "volcano: why ",
            argument: code,
            after: ": a code is C1 to C12, P1 to P13, K1 to K9, K11, X1 to X15 or V1 to V6, or the name of one; see volcano why --help\n",
        }),
    }
}

// The job that is asked for, which is no run and no catalog, or the format, the dialect or the code that there is not.
fn job_in<'a>(alloc: Global, asked: &Asked<'a>) -> Result<AskedJob<'a>, WrongPart<'a>>
    requires { is_plain (asked_is asked.now) ≡ true }
    ensures { MatchResult result (IsJob (asked_is asked.now)) (IsUnmet (asked_is asked.now)) }
{
    match asked {
        Asked::Check(sources) => {
            let task = plain_task(alloc, Command::Check, *sources, "");
            Ok(AskedJob::Command(task))
        }
        Asked::CheckAll(sources) => Ok(AskedJob::Verdict(*sources)),
        Asked::Annotate(sources, derive) => Ok(AskedJob::Annotation(*sources, *derive)),
        Asked::Explain(sources, format) => explain_job(alloc, *sources, *format),
        Asked::Draw(sources, stats) => Ok(AskedJob::Drawing(*sources, *stats)),
        Asked::Sql(sources, dialect) => sql_job(*sources, *dialect),
        Asked::Why(code) => why_job(*code),
        Asked::Serial(sources, folder) => {
            let task = plain_task(alloc, Command::Serial, *sources, *folder);
            Ok(AskedJob::Command(task))
        }
        Asked::Bundle | Asked::Run(_, _, _) | Asked::RunPlans(_, _, _) | Asked::Catalog(_, _) => {
            unreachable!()
        }
        Asked::Generate(rows) => Ok(AskedJob::Relation(*rows)),
    }
}

// The text that answers a task. Up to `services.threads` threads load each of its tables.
fn answer_task<T: Threads + Wait + Sync, R: Runs, C: Clock, F: Store, I: ByteIn>(
    services: &Services<'_, T, R, C>,
    files: &F,
    input: &mut I,
    task: &FileCommand<'_>,
) -> Result<Text, Refusal>
    ensures text { IfOk result (λ text. AnswersTask services.now.layout (F.holds files.now) (I.remaining input.old) (task_is task.now) text.items) }
    ensures refused { IfErr result (λ e. TaskRefuses (F.holds files.now) (F.is_reliable files.now) (I.remaining input.old) (I.has_failed input.new) (task_is task.now) e) }
{
    let plan = plan_from_files(services.alloc, files, input, task.sources)?;
    let folder = Folder {
        files,
        path: task.folder,
    };
    let mut timer = Timer::start(services.alloc, services.clock);
    let (command, setting) = (task.command, &task.setting);
    let answer = execute(services, command, &folder, setting, plan, None, &mut timer)?;
    Ok(answer.into_text())
}

// The plan at one path over the catalog at the other, in a form.
fn answer_form<F: Store, I: ByteIn>(
    alloc: Global,
    files: &F,
    input: &mut I,
    form: PlanForm,
    sources: Sources<'_>,
) -> Result<Vec<u8>, Refusal>
    ensures text { IfOk result (λ text. AnswersForm (F.holds files.now) (I.remaining input.old) form (paths_are sources.entry) text.items) }
    ensures refused { IfErr result (λ e. FormIsRefused (F.holds files.now) (F.is_reliable files.now) (I.remaining input.old) (I.has_failed input.new) (paths_are sources.entry) e) }
{
    let plan = plan_from_files(alloc, files, input, sources)?;
    plan_in_form(alloc, form, plan)
}

// The plan at one path over the catalog at the other, as a statement of SQL.
fn answer_statement<F: Store, I: ByteIn>(
    alloc: Global,
    files: &F,
    input: &mut I,
    dialect: Dialect,
    sources: Sources<'_>,
) -> Result<Vec<u8>, Refusal>
    ensures text { IfOk result (λ text. AnswersStatement (F.holds files.now) (I.remaining input.old) dialect (paths_are sources.entry) text.items) }
    ensures refused { IfErr result (λ e. StatementIsRefused (F.holds files.now) (F.is_reliable files.now) (I.remaining input.old) (I.has_failed input.new) (paths_are sources.entry) e) }
{
    let plan = plan_from_files(alloc, files, input, sources)?;
    statement(alloc, dialect, &plan)
}

// The picture of the plan at one path over the catalog at the other, with the statistics of the file at a third.
fn answer_drawing<T: Threads + Wait + Sync, R: Runs, C: Clock, F: Store, I: ByteIn>(
    services: &Services<'_, T, R, C>,
    files: &F,
    input: &mut I,
    sources: Sources<'_>,
    stats: &str,
) -> Result<ArgumentAnswer, ArgumentFault>
    ensures answer { IfOk result (λ a. IsAskAnswer (R.counted services.now.engine.now) services.now.layout (F.holds files.now) (I.remaining input.old) (draw (paths_are sources.entry) stats.now) a) }
    ensures no_stats { IfOk result IsUncounted }
    ensures refused { IfErr result (IsAskFault (F.holds files.now) (F.is_reliable files.now) (I.remaining input.old) (I.has_failed input.new) (draw (paths_are sources.entry) stats.now)) }
{
    let alloc = services.alloc;
    let plan = plan_from_files(alloc, files, input, sources)?;
    let words = operator_words(alloc, &plan)?;
    let checked = accepted(alloc, plan)?;
    let counted = bytes_at(alloc, files, input, true, stats)?;
    match draw(alloc, &checked, words.as_slice(), counted.as_slice()) {
        Ok(drawing) => Ok(ArgumentAnswer::Text(Text::from(drawing))),
        Err(fault) => Err(no_drawing(alloc, stats, words.as_slice(), fault)),
    }
}

// The plan at one path over the catalog at the other, with the claims that the rule table shows. It asks for what is known of
// its columns where that is said.
fn answer_annotation<F: Store, I: ByteIn>(
    alloc: Global,
    files: &F,
    input: &mut I,
    sources: Sources<'_>,
    derive: bool,
) -> Result<Vec<u8>, Refusal>
    ensures text { IfOk result (λ text. AnswersAnnotation (F.holds files.now) (I.remaining input.old) (paths_are sources.entry) derive text.items) }
    ensures refused { IfErr result (AnnotationIsRefused (F.holds files.now) (F.is_reliable files.now) (I.remaining input.old) (I.has_failed input.new) (paths_are sources.entry) derive) }
{
    let (catalog, plan) = document_from_files(alloc, files, input, sources)?;
    let asking = asking_if(alloc, derive, plan);
    annotated_plan(alloc, &catalog, asking)
}

// What the checker says of all nodes of the plan at one path, over the catalog at the other.
fn answer_verdict<T: Threads + Wait + Sync, R: Runs, C: Clock, F: Store, I: ByteIn>(
    services: &Services<'_, T, R, C>,
    files: &F,
    input: &mut I,
    sources: Sources<'_>,
) -> Result<ArgumentAnswer, ArgumentFault>
    ensures answer { IfOk result (λ a. IsAskAnswer (R.counted services.now.engine.now) services.now.layout (F.holds files.now) (I.remaining input.old) (check_all (paths_are sources.entry)) a) }
    ensures no_stats { IfOk result IsUncounted }
    ensures refused { IfErr result (IsAskFault (F.holds files.now) (F.is_reliable files.now) (I.remaining input.old) (I.has_failed input.new) (check_all (paths_are sources.entry))) }
{
    let alloc = services.alloc;
    let (catalog, document, plan) = all_from_files(alloc, files, input, sources)?;
    match verdict_on(alloc, &catalog, document, &plan)? {
        Findings::Accepted(text) => Ok(ArgumentAnswer::Text(Text::from(text))),
        Findings::Failing(lines) => Err(ArgumentFault::Failing(lines)),
    }
}

// The relation with `rows` rows. As CSV its text is made as it is written.
fn answer_relation<T: Threads + Wait + Sync, R: Runs, C: Clock>(
    services: &Services<'_, T, R, C>,
    rows: u64,
) -> Result<ArgumentAnswer, ArgumentFault>
    ensures answer { (files : List ℕ → Stored) (input : Option (List ℕ)) → IfOk result (IsAskAnswer (R.counted services.now.engine.now) services.now.layout files input (generate rows)) }
    ensures no_stats { IfOk result IsUncounted }
    ensures refused { (files : List ℕ → Stored) (reliable : List ℕ → Bool) (input : Option (List ℕ)) (failed : Bool) → IfErr result (IsAskFault files reliable input failed (generate rows)) }
{
    if let Layout::Csv = services.layout {
        return Ok(ArgumentAnswer::Relation(rows));
    }
    let text = relation_text(services, rows)?;
    Ok(ArgumentAnswer::Text(text))
}

// The fault of wrong arguments, with this text.
fn usage_error(alloc: Global, text: &str) -> ArgumentFault
    ensures { HasUsageText text.now result }
{
    match Vec::from_slice(alloc, text.as_bytes()) {
        Ok(text) => ArgumentFault::Usage(text),
        Err(_) => ArgumentFault::Refused(Refusal::NoMemory),
    }
}

/// The fault of a part of the command line that is wrong, with the message that names it.
pub fn usage_fault(alloc: Global, wrong: WrongPart<'_>) -> ArgumentFault
    ensures { IsUsageFault wrong.entry.before.now wrong.entry.argument.now wrong.entry.after.now result }
{
    match usage_text(alloc, wrong) {
        Ok(text) => ArgumentFault::Usage(text),
        Err(_) => ArgumentFault::Refused(Refusal::NoMemory),
    }
}

/// What answers what arguments ask for that is no run and no catalog.
pub fn answer_plain<T: Threads + Wait + Sync, R: Runs, C: Clock, F: Store, I: ByteIn>(
    services: &Services<'_, T, R, C>,
    files: &F,
    input: &mut I,
    asked: &Asked<'_>,
) -> Result<ArgumentAnswer, ArgumentFault>
    requires plain { is_plain (asked_is asked.now) ≡ true }
    ensures answer { IfOk result (λ a. IsAskAnswer (R.counted services.now.engine.now) services.now.layout (F.holds files.now) (I.remaining input.old) (asked_is asked.now) a) }
    ensures no_stats { IfOk result IsUncounted }
    ensures refused { IfErr result (IsAskFault (F.holds files.now) (F.is_reliable files.now) (I.remaining input.old) (I.has_failed input.new) (asked_is asked.now)) }
{
    let alloc = services.alloc;
    match job_in(alloc, asked) {
        Ok(AskedJob::Command(task)) => {
            let text = answer_task(services, files, input, &task)?;
            Ok(ArgumentAnswer::Text(text))
        }
        Ok(AskedJob::Verdict(sources)) => answer_verdict(services, files, input, sources),
        Ok(AskedJob::Annotation(sources, derive)) => {
            let text = answer_annotation(alloc, files, input, sources, derive)?;
            Ok(ArgumentAnswer::Text(Text::from(text)))
        }
        Ok(AskedJob::Form(form, sources)) => {
            let text = answer_form(alloc, files, input, form, sources)?;
            Ok(ArgumentAnswer::Text(Text::from(text)))
        }
        Ok(AskedJob::Drawing(sources, stats)) => answer_drawing(
            services, files, input, sources, stats,
        ),
        Ok(AskedJob::Statement(dialect, sources)) => {
            let text = answer_statement(alloc, files, input, dialect, sources)?;
            Ok(ArgumentAnswer::Text(Text::from(text)))
        }
        Ok(AskedJob::Entry(text)) => {
            let text = Vec::from_slice(alloc, text.as_bytes())?;
            Ok(ArgumentAnswer::Text(Text::from(text)))
        }
        Ok(AskedJob::Relation(rows)) => answer_relation(services, rows),
        Err(wrong) => Err(usage_fault(alloc, wrong)),
    }
}

// The argument at a place, the empty word where there is none.
fn argument_at<'a>(arguments: &[&'a str], place: usize) -> &'a str
    ensures { result.now ≡ slice_index_or (map (λ a. a.now) arguments.now) place [] }
{
    match arguments.get(place) {
        Some(argument) => argument,
        None => "",
    }
}

// An argument of a command before another: `--stats` asks for a table where no form of statistics follows it.
fn spelled_out<'a>(command: &str, argument: &'a str, next: &str) -> &'a str
    ensures { result.now ≡ spelled_out command.now argument.now next.now }
{
    match (command, argument) {
        ("run" | "bundle", "--stats") => match stats_named(next) {
            Some(_) => argument,
            None => "--stats=table",
        },
        _ => argument,
    }
}

/// The program's name, and then the arguments, spelled out.
pub fn with_program_name<'a>(
    alloc: Global,
    arguments: &[&'a str],
) -> Result<Vec<&'a str>, AllocError>
    ensures { IfOk result (λ v. map (λ a. a.now) v.items ≡ with_program_name (map (λ a. a.now) arguments.now)) }
{
    let command = argument_at(arguments, 0);
    let mut all = Vec::new(alloc);
    all.push("volcano")?;
    for place in 0..arguments.len() {
        let next = argument_at(arguments, place + 1);
        all.push(spelled_out(command, argument_at(arguments, place), next))?;
    }
    Ok(all)
}

// The fault of a word for statistics that is none.
fn stats_fault(alloc: Global, word: &str) -> ArgumentFault
    requires { stats_named word.now ≡ None }
    ensures { IsStatsFault (Some word.now) result }
{
    let wrong = WrongPart {
        before: "volcano: --stats ",
        argument: word,
        after: ": statistics are none, table or json; see volcano run --help\n",
    };
    usage_fault(alloc, wrong)
}

// What there is in place of a word for the layout of rows that is none, with the help of the command that takes it.
fn layouts_of(asked: &Asked<'_>) -> &'static str {
    match asked {
        Asked::Serial(_, _) => {
            ": rows are written as csv, table or json; see volcano serial --help\n"
        }
        Asked::Generate(_) => ": rows are written as csv, table or json; see volcano gen --help\n",
        _ => ": rows are written as csv, table or json; see volcano run --help\n",
    }
}

// The fault of a word for the layout of rows that is none.
fn layout_fault(alloc: Global, asked: &Asked<'_>, word: &str) -> ArgumentFault
    requires { names_layout word.now ≡ false }
    ensures { IsLayoutFault (Some word.now) result }
{
    let wrong = WrongPart {
        before: "volcano: --format ",
        argument: word,
        after: layouts_of(asked),
    };
    usage_fault(alloc, wrong)
}

// The layout that a word asks for, or the word if it is none. Without a word rows are CSV.
fn request_layout<'a>(columns: Option<usize>, word: Option<&'a str>) -> Result<Layout, &'a str>
    ensures layout { IfOk result (λ l. l ≡ layout_of_word columns (option_map (λ s. s.now) word.entry)) }
    ensures other { IfErr result (λ w. (names_layout w.now ≡ false) × (option_map (λ s. s.now) word.entry ≡ Some w.now)) }
{
    let Some(word) = word else {
        return Ok(Layout::Csv);
    };
    match layout_named(columns, word) {
        Some(layout) => Ok(layout),
        None => Err(word),
    }
}

// The fault of a word for the form of refusals that is none.
fn errors_fault(alloc: Global, word: &str) -> ArgumentFault
    ensures { IsErrorsFault (Some word.now) result }
{
    let wrong = WrongPart {
        before: "volcano: --errors ",
        argument: word,
        after: ": a refusal is written short, long or json; see volcano run --help\n",
    };
    usage_fault(alloc, wrong)
}

// What answers a request.
fn answer_request<T: Threads + Wait + Sync, R: Runs, C: Clock, F: Store, I: ByteIn>(
    services: &Services<'_, T, R, C>,
    files: &F,
    input: &mut I,
    request: &Request<'_>,
) -> Result<ArgumentAnswer, ArgumentFault>
    ensures answer { IfOk result (λ a. IsAskAnswer (R.counted services.now.engine.now) (layout_of_word services.now.columns (option_map (λ s. s.now) request.now.layout)) (F.holds files.now) (I.remaining input.old) (asked_is request.now.asked) a) }
    ensures stats { (f : StatsForm) → AsksForRuns (I.remaining input.old) (asked_is request.now.asked) → stats_of_word (option_map (λ s. s.now) request.now.stats) ≡ Some f → IfOk result (IsCountedAs f) }
    ensures no_stats { stats_of_word (option_map (λ s. s.now) request.now.stats) ≡ None → IfOk result IsUncounted }
    ensures refused { IfErr result (λ e. IsAskFault (F.holds files.now) (F.is_reliable files.now) (I.remaining input.old) (I.has_failed input.new) (asked_is request.now.asked) e
        ⊎ (IsStatsFault (option_map (λ s. s.now) request.now.stats) e ⊎ (IsLayoutFault (option_map (λ s. s.now) request.now.layout) e ⊎ IsErrorsFault (option_map (λ s. s.now) request.now.unknown_errors) e))) }
    ensures errors { IfOk result (λ _. option_map (λ s. s.now) request.now.unknown_errors ≡ None) }
{
    if let Some(word) = request.unknown_errors {
        return Err(errors_fault(services.alloc, word));
    }
    let layout = match request_layout(services.columns, request.layout) {
        Ok(layout) => layout,
        Err(word) => return Err(layout_fault(services.alloc, &request.asked, word)),
    };
    let threads = loading_threads(services.rt, request.threads);
    let services = services.with_threads(threads).with_layout(layout);
    match request.stats {
        None => answer_asked(&services, files, input, None, &request.asked),
        Some(word) => match stats_named(word) {
            None => Err(stats_fault(services.alloc, word)),
            Some(form) => answer_asked(&services, files, input, form, &request.asked),
        },
    }
}

// What clap returns in place of matches: help, which is an answer, or a fault.
fn help_or_fault(alloc: Global, error: &Error) -> Result<ArgumentAnswer, ArgumentFault>
    ensures help { IfOk result (IsHelp (kind_of error.now)) }
    ensures fault { IfErr result (IsClapFault (kind_of error.now)) }
{
    let text = format!(in alloc; "{error}")?;
    match error.kind() {
        ErrorKind::DisplayHelp | ErrorKind::DisplayVersion => Ok(ArgumentAnswer::Text(Text::from(
            text.into_bytes(),
        ))),
        ErrorKind::OutOfMemory => Err(ArgumentFault::Refused(Refusal::NoMemory)),
        _ => Err(ArgumentFault::Usage(text.into_bytes())),
    }
}

/// What answers arguments.
pub fn answer_arguments<T: Threads + Wait + Sync, R: Runs, C: Clock, F: Store, I: ByteIn>(
    services: &Services<'_, T, R, C>,
    files: &F,
    input: &mut I,
    arguments: &[&str],
) -> Result<ArgumentAnswer, ArgumentFault>
    ensures answer { IfOk result (λ a. IsArgumentAnswer (R.counted services.now.engine.now) services.now.columns (F.holds files.now) (I.remaining input.old) (map (λ a. a.now) arguments.now) a) }
    ensures stats { (f : StatsForm) (ask : Ask) → AsksFor (map (λ a. a.now) arguments.now) ask → AsksForRuns (I.remaining input.old) ask → stats_asked (map (λ a. a.now) arguments.now) ≡ Some f → IfOk result (IsCountedAs f) }
    ensures no_stats { stats_asked (map (λ a. a.now) arguments.now) ≡ None → IfOk result IsUncounted }
    ensures refused { IfErr result (IsArgumentFault (F.holds files.now) (F.is_reliable files.now) (I.remaining input.old) (I.has_failed input.new) (map (λ a. a.now) arguments.now)) }
{
    let alloc = services.alloc;
    let arguments = with_program_name(alloc, arguments)?;
    match asked_for(alloc, arguments.as_slice()) {
        Ok(Some(request)) => answer_request(services, files, input, &request),
        Ok(None) => Err(usage_error(
            alloc,
            "volcano: statistics are drawn with --format dot alone; see volcano explain --help\n",
        )),
        Err(error) => help_or_fault(alloc, &error),
    }
}
