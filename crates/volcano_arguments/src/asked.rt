//! What the command-line arguments ask for.

ghost use Rattle.std.specs.Prelude.{◌≡◌, IfOk, IfSome, map, option_map, option_and_then, codes};
ghost use Rattle.clap.specs.Words.{FailsBy, fault_of, rows_of, found_of, first_of, all_of, subcommand_of, subcommand_rows_of};
ghost use Rattle.volcano_arguments.specs.Asked.{volcano_app, paths_of, given_of, sizes_of, serial_of, check_of, explain_of, annotate_of, sql_of, find_of, run_for, run_of, number_of, generate_of, ask_of, asked_by, error_form_named, verbose_form, errors_of, errors_by, unless_named, unknown_errors_of, unknown_errors_by, threads_of, threads_by, stats_of, stats_by, layout_of, layout_by, output_of, output_by, faults_of, paths_are, given_is, asked_is};

use crate::command_line::command;
use clap::{ArgMatches, Error};
use std::alloc::{AllocError, Global};

/// The paths of a catalog and of a plan; `-` is standard input.
#[derive(Clone, Copy, Debug)]
pub struct Sources<'a> {
    pub catalog: &'a str,
    pub plan: &'a str,
}

/// The paths of a catalog and of several plans; `-` is standard input.
#[derive(Debug, Drop)]
pub struct ManySources<'a> {
    pub catalog: &'a str,
    pub plans: Vec<&'a str>,
}

/// The numbers and the mode of a run as they were written or are by default, and its arguments `NAME=N`.
#[derive(Debug, Drop)]
pub struct RunArguments<'a> {
    pub packet: &'a str,
    pub morsel: &'a str,
    pub slack: &'a str,
    pub mode: &'a str,
    pub sizes: Vec<&'a str>,
}

/// What the arguments ask for.
#[derive(Debug, Drop)]
pub enum Asked<'a> {
    /// The answer to a bundle on standard input.
    Bundle,
    Check(Sources<'a>),
    /// A check that goes on behind the first refusal.
    CheckAll(Sources<'a>),
    /// With the name of the text's format.
    Explain(Sources<'a>, &'a str),
    /// The plan's picture, with the file of a run's statistics.
    Draw(Sources<'a>, &'a str),
    /// The plan with the claims that the rule table shows, and whether they are found by what is known of columns too.
    Annotate(Sources<'a>, bool),
    /// The plan as a statement of SQL, with the name of the dialect.
    Sql(Sources<'a>, &'a str),
    /// The catalog that is found in these files, and whether nothing is said beside it.
    Catalog(Vec<&'a str>, bool),
    /// With the code of a refusal.
    Why(&'a str),
    /// With the folder of the tables.
    Serial(Sources<'a>, &'a str),
    /// With the folder of the tables.
    Run(Sources<'a>, &'a str, RunArguments<'a>),
    /// Runs of several plans, with the folder of the tables.
    RunPlans(ManySources<'a>, &'a str, RunArguments<'a>),
    /// The text of the relation with so many rows.
    Generate(u64),
}

/// How a refusal is written.
#[derive(Clone, Copy, Debug, PartialEq, Eq)]
pub enum ErrorForm {
    /// One line.
    Short,
    /// With where in the files it was found.
    Long,
    /// An object of JSON.
    Json,
}

/// What the arguments ask for, and what they say of loading and of reports.
#[derive(Drop)]
pub struct Request<'a> {
    pub asked: Asked<'a>,
    /// How a refusal is written, where they say it.
    pub errors: Option<ErrorForm>,
    /// What they say of that, where it is the name of no form.
    pub unknown_errors: Option<&'a str>,
    /// How many threads load each table, where the command loads any; 0 is one for each processor.
    pub threads: Option<u64>,
    /// The format of a run's statistics: `none`, `table` or `json`, if it is one of them.
    pub stats: Option<&'a str>,
    /// The layout of rows: `csv`, `table` or `json`, if it is one of them.
    pub layout: Option<&'a str>,
    /// The path of the file that gets the rows, if they name one.
    pub output: Option<&'a str>,
}

// The first value of an option.
fn value<'a>(found: &ArgMatches<'a>, id: &str) -> Option<&'a str>
    ensures { option_map (λ s. s.now) result ≡ first_of id.now (rows_of (found_of found.now)) }
{
    found.get_str(id)
}

fn sources_in<'a>(found: &ArgMatches<'a>) -> Option<Sources<'a>>
    ensures { option_map paths_are result ≡ paths_of (rows_of (found_of found.now)) }
{
    let catalog = value(found, "catalog")?;
    let plan = value(found, "plan")?;
    Some(Sources { catalog, plan })
}

// All values of an option, or of the arguments behind the options.
fn values<'f, 'a>(found: &'f ArgMatches<'a>, id: &str) -> Option<&'f [&'a str]>
    ensures { option_map (λ s. map (λ v. v.now) s.now) result ≡ all_of id.now (rows_of (found_of found.now)) }
{
    found.get_strs(id)
}

fn sizes_in<'a>(alloc: Global, found: &ArgMatches<'a>) -> Result<Vec<&'a str>, AllocError>
    ensures { IfOk result (λ v. map (λ t. t.now) v.items ≡ sizes_of (rows_of (found_of found.now))) }
{
    match values(found, "sizes") {
        Some(arguments) => Vec::from_slice(alloc, arguments),
        None => Ok(Vec::new(alloc)),
    }
}

fn run_arguments_in<'a>(
    alloc: Global,
    found: &ArgMatches<'a>,
) -> Result<Option<RunArguments<'a>>, AllocError>
    ensures { IfOk result (λ o. option_map given_is o ≡ given_of (rows_of (found_of found.now))) }
{
    let Some(packet) = value(found, "packet") else {
        return Ok(None);
    };
    let Some(morsel) = value(found, "morsel") else {
        return Ok(None);
    };
    let Some(slack) = value(found, "slack") else {
        return Ok(None);
    };
    let Some(mode) = value(found, "mode") else {
        return Ok(None);
    };
    let sizes = sizes_in(alloc, found)?;
    Ok(Some(RunArguments {
        packet,
        morsel,
        slack,
        mode,
        sizes,
    }))
}

fn check_asked<'a>(found: &ArgMatches<'a>) -> Option<Asked<'a>>
    ensures { option_map asked_is result ≡ check_of (rows_of (found_of found.now)) }
{
    let sources = sources_in(found)?;
    match value(found, "all")? {
        "true" => Some(Asked::CheckAll(sources)),
        _ => Some(Asked::Check(sources)),
    }
}

fn explain_asked<'a>(found: &ArgMatches<'a>) -> Option<Asked<'a>>
    ensures { option_map asked_is result ≡ explain_of (rows_of (found_of found.now)) }
{
    let sources = sources_in(found)?;
    let format = value(found, "format")?;
    let Some(stats) = value(found, "drawn") else {
        return Some(Asked::Explain(sources, format));
    };
    match format {
        "dot" => Some(Asked::Draw(sources, stats)),
        _ => None,
    }
}

fn annotate_asked<'a>(found: &ArgMatches<'a>) -> Option<Asked<'a>>
    ensures { option_map asked_is result ≡ annotate_of (rows_of (found_of found.now)) }
{
    let sources = sources_in(found)?;
    let derive = value(found, "derive")?;
    Some(Asked::Annotate(sources, derive == "true"))
}

fn sql_asked<'a>(found: &ArgMatches<'a>) -> Option<Asked<'a>>
    ensures { option_map asked_is result ≡ sql_of (rows_of (found_of found.now)) }
{
    let sources = sources_in(found)?;
    let dialect = value(found, "dialect")?;
    Some(Asked::Sql(sources, dialect))
}

fn catalog_asked<'a>(alloc: Global, found: &ArgMatches<'a>) -> Result<Option<Asked<'a>>, AllocError>
    ensures { IfOk result (λ o. option_map asked_is o ≡ find_of (rows_of (found_of found.now))) }
{
    let Some(files) = values(found, "files") else {
        return Ok(None);
    };
    let Some(quiet) = value(found, "quiet") else {
        return Ok(None);
    };
    let files = Vec::from_slice(alloc, files)?;
    Ok(Some(Asked::Catalog(files, quiet == "true")))
}

fn serial_asked<'a>(found: &ArgMatches<'a>) -> Option<Asked<'a>>
    ensures { option_map asked_is result ≡ serial_of (rows_of (found_of found.now)) }
{
    let sources = sources_in(found)?;
    let data = value(found, "data")?;
    Some(Asked::Serial(sources, data))
}

// A run of one plan, or of several.
fn run_for<'a>(
    alloc: Global,
    catalog: &'a str,
    plans: &[&'a str],
    folder: &'a str,
    given: RunArguments<'a>,
) -> Result<Asked<'a>, AllocError>
    ensures { IfOk result (λ a. asked_is a ≡ run_for catalog.entry.now (map (λ p. p.now) plans.entry.now) folder.entry.now (given_is given.entry)) }
{
    if let [plan] = plans {
        return Ok(Asked::Run(Sources { catalog, plan }, folder, given));
    }
    let plans = Vec::from_slice(alloc, plans)?;
    Ok(Asked::RunPlans(ManySources { catalog, plans }, folder, given))
}

fn run_asked<'a>(alloc: Global, found: &ArgMatches<'a>) -> Result<Option<Asked<'a>>, AllocError>
    ensures { IfOk result (λ o. option_map asked_is o ≡ run_of (rows_of (found_of found.now))) }
{
    let Some(catalog) = value(found, "catalog") else {
        return Ok(None);
    };
    let Some(plans) = values(found, "plan") else {
        return Ok(None);
    };
    let Some(data) = value(found, "data") else {
        return Ok(None);
    };
    match run_arguments_in(alloc, found)? {
        Some(given) => Ok(Some(run_for(alloc, catalog, plans, data, given)?)),
        None => Ok(None),
    }
}

// The number of 64 bits that a text is.
fn number_in(text: &str) -> Option<u64>
    ensures { result ≡ number_of text.now }
{
    text.parse::<u64>().ok()
}

fn rows_in<'a>(found: &ArgMatches<'a>) -> Option<u64>
    ensures { result ≡ option_and_then number_of (first_of (codes "rows") (rows_of (found_of found.now))) }
{
    number_in(value(found, "rows")?)
}

fn generate_asked<'a>(found: &ArgMatches<'a>) -> Option<Asked<'a>>
    ensures { option_map asked_is result ≡ generate_of (rows_of (found_of found.now)) }
{
    let rows = rows_in(found)?;
    Some(Asked::Generate(rows))
}

// What clap makes of the arguments.
fn matches_in<'a>(alloc: Global, arguments: &'a [&'a str]) -> Result<ArgMatches<'a>, Error>
    ensures found { IfOk result (λ m. subcommand_rows_of m ≡ subcommand_of volcano_app (map (λ w. w.now) arguments.entry.now)) }
    ensures faults { FailsBy (fault_of volcano_app (map (λ w. w.now) arguments.entry.now)) result }
{
    command(alloc)?.try_get_matches_from(arguments)
}

// What matches ask for.
fn asked_in<'a>(alloc: Global, matches: &ArgMatches<'a>) -> Result<Option<Asked<'a>>, AllocError>
    ensures { IfOk result (λ o. option_map asked_is o ≡ ask_of (subcommand_rows_of matches.now)) }
{
    let Some((name, found)) = matches.subcommand() else {
        return Ok(Some(Asked::Bundle));
    };
    match name {
        "run" => run_asked(alloc, found),
        "serial" => Ok(serial_asked(found)),
        "check" => Ok(check_asked(found)),
        "explain" => Ok(explain_asked(found)),
        "annotate" => Ok(annotate_asked(found)),
        "sql" => Ok(sql_asked(found)),
        "catalog" => catalog_asked(alloc, found),
        "why" => Ok(value(found, "code").map(Asked::Why)),
        "gen" => Ok(generate_asked(found)),
        "bundle" => Ok(Some(Asked::Bundle)),
        _ => Ok(None),
    }
}

// The form of a name, if it is one.
fn error_form_named(word: &str) -> Option<ErrorForm>
    ensures { result ≡ error_form_named word.now }
{
    match word {
        "short" => Some(ErrorForm::Short),
        "long" => Some(ErrorForm::Long),
        "json" => Some(ErrorForm::Json),
        _ => None,
    }
}

// How the flag asks for refusals to be written.
fn verbose_form(found: &ArgMatches<'_>) -> Option<ErrorForm>
    ensures { result ≡ verbose_form (rows_of (found_of found.now)) }
{
    match value(found, "verbose-errors") {
        Some("true") => Some(ErrorForm::Long),
        _ => None,
    }
}

// How matches ask for refusals to be written.
fn errors_in(matches: &ArgMatches<'_>) -> Option<ErrorForm>
    ensures { result ≡ errors_of (subcommand_rows_of matches.now) }
{
    let (_, found) = matches.subcommand()?;
    match value(found, "errors") {
        Some(word) => error_form_named(word),
        None => verbose_form(found),
    }
}

// A word that names no form.
fn unless_named(word: &str) -> Option<&str>
    ensures { option_map (λ s. s.now) result ≡ unless_named word.entry.now }
{
    match error_form_named(word) {
        Some(_) => None,
        None => Some(word),
    }
}

// The word in matches for how refusals are written, if it names no form.
fn unknown_errors_in<'a>(matches: &ArgMatches<'a>) -> Option<&'a str>
    ensures { option_map (λ s. s.now) result ≡ unknown_errors_of (subcommand_rows_of matches.now) }
{
    let (_, found) = matches.subcommand()?;
    unless_named(value(found, "errors")?)
}

// How many threads matches ask for.
fn threads_in(matches: &ArgMatches<'_>) -> Option<u64>
    ensures { result ≡ threads_of (subcommand_rows_of matches.now) }
{
    let (_, found) = matches.subcommand()?;
    number_in(value(found, "threads")?)
}

// The format of statistics in matches.
fn stats_in<'a>(matches: &ArgMatches<'a>) -> Option<&'a str>
    ensures { option_map (λ s. s.now) result ≡ stats_of (subcommand_rows_of matches.now) }
{
    let (_, found) = matches.subcommand()?;
    value(found, "stats")
}

// The word for the layout of rows in matches.
fn layout_in<'a>(matches: &ArgMatches<'a>) -> Option<&'a str>
    ensures { option_map (λ s. s.now) result ≡ layout_of (subcommand_rows_of matches.now) }
{
    let (_, found) = matches.subcommand()?;
    value(found, "layout")
}

// The path of the file that gets the rows, in matches.
fn output_in<'a>(matches: &ArgMatches<'a>) -> Option<&'a str>
    ensures { option_map (λ s. s.now) result ≡ output_of (subcommand_rows_of matches.now) }
{
    let (_, found) = matches.subcommand()?;
    value(found, "output")
}

/// What the arguments ask for, the program's name first. An `Err` is running out of memory, a usage error, or help.
#[tactic(auto, unfolding(crate::specs::Asked::asked_by, crate::specs::Asked::errors_by, crate::specs::Asked::unknown_errors_by, crate::specs::Asked::threads_by, crate::specs::Asked::stats_by, crate::specs::Asked::layout_by, crate::specs::Asked::output_by, crate::specs::Asked::faults_of))]
pub fn asked_for<'a>(alloc: Global, arguments: &'a [&'a str]) -> Result<Option<Request<'a>>, Error>
    ensures asked { IfOk result (λ o. option_map (λ r. asked_is r.asked) o ≡ asked_by (map (λ w. w.now) arguments.entry.now)) }
    ensures errors { IfOk result (λ o. IfSome o (λ r. r.errors ≡ errors_by (map (λ w. w.now) arguments.entry.now))) }
    ensures unknown_errors { IfOk result (λ o. IfSome o (λ r. option_map (λ s. s.now) r.unknown_errors ≡ unknown_errors_by (map (λ w. w.now) arguments.entry.now))) }
    ensures threads { IfOk result (λ o. IfSome o (λ r. r.threads ≡ threads_by (map (λ w. w.now) arguments.entry.now))) }
    ensures stats { IfOk result (λ o. IfSome o (λ r. option_map (λ s. s.now) r.stats ≡ stats_by (map (λ w. w.now) arguments.entry.now))) }
    ensures layout { IfOk result (λ o. IfSome o (λ r. option_map (λ s. s.now) r.layout ≡ layout_by (map (λ w. w.now) arguments.entry.now))) }
    ensures output { IfOk result (λ o. IfSome o (λ r. option_map (λ s. s.now) r.output ≡ output_by (map (λ w. w.now) arguments.entry.now))) }
    ensures faults { FailsBy (faults_of (map (λ w. w.now) arguments.entry.now)) result }
{
    let matches = matches_in(alloc, arguments)?;
    let errors = errors_in(&matches);
    let unknown_errors = unknown_errors_in(&matches);
    let threads = threads_in(&matches);
    let stats = stats_in(&matches);
    let layout = layout_in(&matches);
    let output = output_in(&matches);
    match asked_in(alloc, &matches)? {
        Some(asked) => Ok(Some(Request {
            asked,
            errors,
            unknown_errors,
            threads,
            stats,
            layout,
            output,
        })),
        None => Ok(None),
    }
}
