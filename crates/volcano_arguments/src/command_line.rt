//! The commands of the program and their options, with the help that they show.

ghost use Rattle.std.specs.Prelude.{◌≡◌, IfOk, false, codes};
ghost use Rattle.clap.specs.Words.{App, Rule, app_of, rule_of, new_app, with_rule, with_subcommand};
ghost use Rattle.clap.specs.declared.builder.command.Command.TheViews.{out-Command as fields_of};
ghost use Rattle.volcano_arguments.specs.Asked.{named_rule, path_rule, plans_rule, number_rule, rows_rule, word_rule, flag_rule, code_rule, sizes_rule, files_rule, verbose_rule, errors_rule, drawn_rule, layout_rule, output_rule, with_reports, with_rows, reading_app, judging_app, serial_app, run_app, check_app, explain_app, annotate_app, sql_app, catalog_app, why_app, gen_app, bundle_app, program_app, volcano_app};
ghost use Rattle.volcano_arguments.specs.Planned.{IsOption, IsCommand};

use clap::{Arg, ArgAction, Command, value_parser};
use std::alloc::{AllocError, Global};

// An option with a value of this kind.
fn named_option<'a>(alloc: Global, name: &'a str, kind: &'a str, help: &'a str) -> Arg<'a>
    ensures rule { rule_of result ≡ named_rule name.entry.now }
    ensures own { result.global ≡ false }
{
    Arg::new(alloc, name).long(name).value_name(kind).help(help)
}

// A required option with a path.
fn path_option<'a>(alloc: Global, name: &'a str, kind: &'a str, help: &'a str) -> Arg<'a>
    ensures rule { rule_of result ≡ path_rule name.entry.now }
    ensures own { result.global ≡ false }
{
    named_option(alloc, name, kind, help).required(true)
}

// An option with a number, which has a default.
fn number_option<'a>(alloc: Global, name: &'a str, default: &'a str, help: &'a str) -> Arg<'a>
    ensures rule { rule_of result ≡ number_rule name.entry.now default.entry.now }
    ensures own { result.global ≡ false }
{
    named_option(alloc, name, "N", help)
        .default_value(default)
        .value_parser(value_parser!(u32))
}

fn rows_option<'a>(alloc: Global) -> Arg<'a>
    ensures rule { rule_of result ≡ rows_rule }
    ensures own { result.global ≡ false }
{
    named_option(
        alloc,
        "rows",
        "N",
        "How many rows the relation has, 0 to 10000000",
    )
    .required(true)
    .value_parser(value_parser!(u64))
}

// An option with a word, which has a default.
fn word_option<'a>(
    alloc: Global,
    name: &'a str,
    kind: &'a str,
    default: &'a str,
    help: &'a str,
) -> Arg<'a>
    ensures rule { rule_of result ≡ word_rule name.entry.now default.entry.now }
    ensures own { result.global ≡ false }
{
    named_option(alloc, name, kind, help).default_value(default)
}

fn mode_option<'a>(alloc: Global) -> Arg<'a>
    ensures rule { rule_of result ≡ word_rule (codes "mode") (codes "rounds") }
    ensures own { result.global ≡ false }
{
    word_option(
        alloc,
        "mode",
        "MODE",
        "rounds",
        "Where the workers run: `rounds`, in turns of one thread, or `threads`, each in a thread of its own",
    )
}

fn format_option<'a>(alloc: Global) -> Arg<'a>
    ensures rule { rule_of result ≡ word_rule (codes "format") (codes "text") }
    ensures own { result.global ≡ false }
{
    word_option(
        alloc,
        "format",
        "FORMAT",
        "text",
        "What is printed: `text`, a line for each node; `json`, an object for each node; or `dot`, a picture for Graphviz",
    )
}

fn dialect_option<'a>(alloc: Global) -> Arg<'a>
    ensures rule { rule_of result ≡ word_rule (codes "dialect") (codes "sqlite") }
    ensures own { result.global ≡ false }
{
    word_option(
        alloc,
        "dialect",
        "DIALECT",
        "sqlite",
        "Whose SQL the statement is: `sqlite`, `postgres` or `clickhouse`",
    )
}

// An option without a value.
fn flag_option<'a>(alloc: Global, name: &'a str, help: &'a str) -> Arg<'a>
    ensures rule { rule_of result ≡ flag_rule name.entry.now }
    ensures own { result.global ≡ false }
{
    Arg::new(alloc, name)
        .long(name)
        .help(help)
        .action(ArgAction::SetTrue)
}

fn all_option<'a>(alloc: Global) -> Arg<'a>
    ensures rule { rule_of result ≡ flag_rule (codes "all") }
    ensures own { result.global ≡ false }
{
    flag_option(
        alloc,
        "all",
        "A line for each node of which a claim does not follow, and what follows there",
    )
}

fn derive_option<'a>(alloc: Global) -> Arg<'a>
    ensures rule { rule_of result ≡ flag_rule (codes "derive") }
    ensures own { result.global ≡ false }
{
    flag_option(
        alloc,
        "derive",
        "Finds claims by what is known of columns too, and puts `\"derive\": true` into the plan",
    )
}

fn errors_option<'a>(alloc: Global) -> Arg<'a>
    ensures rule { rule_of result ≡ errors_rule }
    ensures own { result.global ≡ false }
{
    named_option(
        alloc,
        "errors",
        "FORM",
        "How a refusal is written: `short`, one line; `long`, with where it was found; or `json`, an object. If left out, it is long on a terminal and else short",
    )
}

fn verbose_option<'a>(alloc: Global) -> Arg<'a>
    ensures rule { rule_of result ≡ verbose_rule }
    ensures own { result.global ≡ false }
{
    flag_option(alloc, "verbose-errors", "The same as `--errors=long`")
}

fn stats_option<'a>(alloc: Global) -> Arg<'a>
    ensures rule { rule_of result ≡ word_rule (codes "stats") (codes "none") }
    ensures own { result.global ≡ false }
{
    word_option(
        alloc,
        "stats",
        "FORMAT",
        "none",
        "What each worker did and how long each phase took, on standard error: `table`, `json` or `none`; `--stats` alone is `table`",
    )
}

fn drawn_option<'a>(alloc: Global) -> Arg<'a>
    ensures rule { rule_of result ≡ drawn_rule }
    ensures own { result.global ≡ false }
{
    Arg::new(alloc, "drawn")
        .long("stats")
        .value_name("FILE")
        .help(
            "What `run --stats=json` wrote of this plan, drawn into the picture: with `--format dot` alone",
        )
}

fn layout_option<'a>(alloc: Global) -> Arg<'a>
    ensures rule { rule_of result ≡ layout_rule }
    ensures own { result.global ≡ false }
{
    Arg::new(alloc, "layout")
        .long("format")
        .value_name("FORMAT")
        .help(
            "How the rows are written: `csv`; `table`, in columns for people; or `json`, an object on a line for each row",
        )
        .default_value("csv")
}

fn output_option<'a>(alloc: Global) -> Arg<'a>
    ensures rule { rule_of result ≡ output_rule }
    ensures own { result.global ≡ false }
{
    named_option(
        alloc,
        "output",
        "FILE",
        "The file that gets the rows in place of standard output, once all are there; until then it stays as it was",
    )
    .short('o')
}

fn quiet_option<'a>(alloc: Global) -> Arg<'a>
    ensures rule { rule_of result ≡ flag_rule (codes "quiet") }
    ensures own { result.global ≡ false }
{
    flag_option(
        alloc,
        "quiet",
        "No line on a terminal that says how far a long load or run is",
    )
}

fn silent_option<'a>(alloc: Global) -> Arg<'a>
    ensures rule { rule_of result ≡ flag_rule (codes "quiet") }
    ensures own { result.global ≡ false }
{
    flag_option(
        alloc,
        "quiet",
        "No line that says that the catalog need not hold of other files, nor how far a long load is",
    )
}

fn threads_option<'a>(alloc: Global) -> Arg<'a>
    ensures rule { rule_of result ≡ number_rule (codes "threads") (codes "0") }
    ensures own { result.global ≡ false }
{
    number_option(
        alloc,
        "threads",
        "0",
        "How many threads load each table and make the text of the rows; 0 is one for each processor",
    )
}

fn code_argument<'a>(alloc: Global) -> Arg<'a>
    ensures rule { rule_of result ≡ code_rule }
    ensures own { result.global ≡ false }
{
    Arg::new(alloc, "code")
        .value_name("CODE")
        .help("The code that a refusal begins with, such as K4, or the name behind it, in any case")
        .required(true)
}

fn sizes_argument<'a>(alloc: Global) -> Arg<'a>
    ensures rule { rule_of result ≡ sizes_rule }
    ensures own { result.global ≡ false }
{
    Arg::new(alloc, "sizes")
        .value_name("NAME=N")
        .help("How many workers each size name of the plan stands for, 1 to 64")
        .num_args(0..)
}

fn files_argument<'a>(alloc: Global) -> Arg<'a>
    ensures rule { rule_of result ≡ files_rule }
    ensures own { result.global ≡ false }
{
    Arg::new(alloc, "files")
        .value_name("FILE")
        .help(
            "The files NAME.csv, each with the names of its columns in the first line: one for each relation NAME",
        )
        .num_args(1..)
        .required(true)
}

fn catalog_option<'a>(alloc: Global) -> Arg<'a>
    ensures rule { rule_of result ≡ path_rule (codes "catalog") }
    ensures own { result.global ≡ false }
{
    path_option(
        alloc,
        "catalog",
        "FILE",
        "The catalog, as JSON: relations with their columns, keys and orders",
    )
}

fn plan_option<'a>(alloc: Global) -> Arg<'a>
    ensures rule { rule_of result ≡ path_rule (codes "plan") }
    ensures own { result.global ≡ false }
{
    path_option(
        alloc,
        "plan",
        "FILE",
        "The plan, as JSON: a tree of operators with the claims of the optimizer",
    )
}

fn plans_option<'a>(alloc: Global) -> Arg<'a>
    ensures rule { rule_of result ≡ plans_rule }
    ensures own { result.global ≡ false }
{
    path_option(
        alloc,
        "plan",
        "FILE",
        "The plan, as JSON; of several, each is run over the same tables, which are loaded once",
    )
    .action(ArgAction::Append)
}

fn data_option<'a>(alloc: Global) -> Arg<'a>
    ensures rule { rule_of result ≡ path_rule (codes "data") }
    ensures own { result.global ≡ false }
{
    path_option(
        alloc,
        "data",
        "DIR",
        "The folder with a text DIR/NAME.csv for each relation NAME that the plan scans",
    )
}

// The command with one option more, where there was memory for the command.
fn with_option<'a>(
    command: Result<Command<'a>, AllocError>,
    option: Arg<'a>,
) -> Result<Command<'a>, AllocError>
    ensures { (app : App) (rule : Rule) → IsCommand app command.entry → IsOption rule option.entry → IsCommand (with_rule app rule) result }
{
    command?.arg(option)
}

// The command with both options that say how a refusal is written, where there was memory for the command.
fn with_reports<'a>(
    alloc: Global,
    command: Result<Command<'a>, AllocError>,
) -> Result<Command<'a>, AllocError>
    ensures { (app : App) → IsCommand app command.entry → IsCommand (with_reports app) result }
{
    let command = with_option(command, errors_option(alloc));
    with_option(command, verbose_option(alloc))
}

// The command with both options that say how rows are written and where, where there was memory for the command.
fn with_rows<'a>(
    alloc: Global,
    command: Result<Command<'a>, AllocError>,
) -> Result<Command<'a>, AllocError>
    ensures { (app : App) → IsCommand app command.entry → IsCommand (with_rows app) result }
{
    let command = with_option(command, layout_option(alloc));
    with_option(command, output_option(alloc))
}

// A command without options.
fn bare<'a>(alloc: Global, name: &'a str, about: &'a str, example: &'a str) -> Command<'a>
    ensures app { app_of result ≡ new_app name.entry.now }
    ensures local { (fields_of result).has_globals ≡ false }
{
    Command::new(alloc, name).about(about).after_help(example)
}

// A command that reads a catalog.
fn reading<'a>(
    alloc: Global,
    name: &'a str,
    about: &'a str,
    example: &'a str,
) -> Result<Command<'a>, AllocError>
    ensures { IsCommand (reading_app name.entry.now) result }
{
    let command = bare(alloc, name, about, example);
    with_option(Ok(command), catalog_option(alloc))
}

// A command that reads a catalog and a plan alone.
fn judging<'a>(
    alloc: Global,
    name: &'a str,
    about: &'a str,
    example: &'a str,
) -> Result<Command<'a>, AllocError>
    ensures { IsCommand (judging_app name.entry.now) result }
{
    let command = reading(alloc, name, about, example);
    with_option(command, plan_option(alloc))
}

fn serial<'a>(alloc: Global) -> Result<Command<'a>, AllocError>
    ensures { IsCommand serial_app result }
{
    let command = judging(
        alloc,
        "serial",
        "Evaluates the plan without its exchanges and prints the rows; the claims of the plan are not checked",
        "Example: volcano serial --catalog catalog.json --plan plan.json --data tables",
    );
    let command = with_option(command, data_option(alloc));
    let command = with_option(command, threads_option(alloc));
    let command = with_option(command, quiet_option(alloc));
    let command = with_rows(alloc, command);
    with_reports(alloc, command)
}

fn packet_option<'a>(alloc: Global) -> Arg<'a>
    ensures rule { rule_of result ≡ number_rule (codes "packet") (codes "256") }
    ensures own { result.global ≡ false }
{
    number_option(
        alloc,
        "packet",
        "256",
        "The most rows in a packet, 1 to 4096",
    )
}

fn morsel_option<'a>(alloc: Global) -> Arg<'a>
    ensures rule { rule_of result ≡ number_rule (codes "morsel") (codes "1024") }
    ensures own { result.global ≡ false }
{
    number_option(
        alloc,
        "morsel",
        "1024",
        "The rows of a morsel of a scan, 1 to 1000000",
    )
}

fn slack_option<'a>(alloc: Global) -> Arg<'a>
    ensures rule { rule_of result ≡ number_rule (codes "slack") (codes "8") }
    ensures own { result.global ≡ false }
{
    number_option(
        alloc,
        "slack",
        "8",
        "How many packets the ring from a producer to a consumer holds, 1 to 1024, with `--mode threads`; a consumer that waits for another producer empties it into a queue without bound",
    )
}

fn run<'a>(alloc: Global) -> Result<Command<'a>, AllocError>
    ensures { IsCommand run_app result }
{
    let command = reading(
        alloc,
        "run",
        "Runs a plan that the checker accepts, with many workers, and prints the rows",
        "Example: volcano run --catalog catalog.json --plan plan.json --data tables many=4",
    );
    let command = with_option(command, plans_option(alloc));
    let command = with_option(command, data_option(alloc));
    let command = with_option(command, packet_option(alloc));
    let command = with_option(command, morsel_option(alloc));
    let command = with_option(command, slack_option(alloc));
    let command = with_option(command, mode_option(alloc));
    let command = with_option(command, threads_option(alloc));
    let command = with_option(command, quiet_option(alloc));
    let command = with_option(command, stats_option(alloc));
    let command = with_rows(alloc, command);
    let command = with_reports(alloc, command);
    with_option(command, sizes_argument(alloc))
}

fn check<'a>(alloc: Global) -> Result<Command<'a>, AllocError>
    ensures { IsCommand check_app result }
{
    let command = judging(
        alloc,
        "check",
        "Says whether every claim of the plan follows: `accepted`, `accepted total`, or the first claim that does not",
        "Example: volcano check --catalog catalog.json --plan plan.json",
    );
    let command = with_option(command, all_option(alloc));
    with_reports(alloc, command)
}

fn explain<'a>(alloc: Global) -> Result<Command<'a>, AllocError>
    ensures { IsCommand explain_app result }
{
    let command = judging(
        alloc,
        "explain",
        "Prints a plan that the checker accepts: as a text with a line for each node, as JSON, or as a picture for Graphviz",
        "Example: volcano explain --catalog catalog.json --plan plan.json",
    );
    let command = with_option(command, format_option(alloc));
    let command = with_option(command, drawn_option(alloc));
    with_reports(alloc, command)
}

fn annotate<'a>(alloc: Global) -> Result<Command<'a>, AllocError>
    ensures { IsCommand annotate_app result }
{
    let command = judging(
        alloc,
        "annotate",
        "Prints the plan, as JSON, with the claims that follow at each node in place of its own",
        "Example: volcano annotate --catalog catalog.json --plan plan.json",
    );
    let command = with_option(command, derive_option(alloc));
    with_reports(alloc, command)
}

fn sql<'a>(alloc: Global) -> Result<Command<'a>, AllocError>
    ensures { IsCommand sql_app result }
{
    let command = judging(
        alloc,
        "sql",
        "Prints the plan without its exchanges as one statement of SQL; the claims of the plan are not checked",
        "Example: volcano sql --catalog catalog.json --plan plan.json --dialect postgres",
    );
    let command = with_option(command, dialect_option(alloc));
    with_reports(alloc, command)
}

fn catalog<'a>(alloc: Global) -> Result<Command<'a>, AllocError>
    ensures { IsCommand catalog_app result }
{
    let command = bare(
        alloc,
        "catalog",
        "Prints a catalog of CSV files, as JSON: the types of their columns, and the keys and orders that their rows have",
        "Example: volcano catalog tables/orders.csv tables/customers.csv > catalog.json",
    );
    let command = with_option(Ok(command), threads_option(alloc));
    let command = with_option(command, silent_option(alloc));
    let command = with_reports(alloc, command);
    with_option(command, files_argument(alloc))
}

fn why<'a>(alloc: Global) -> Result<Command<'a>, AllocError>
    ensures { IsCommand why_app result }
{
    let command = bare(
        alloc,
        "why",
        "Says what a refusal of this code or name means, its usual causes and its cure",
        "Example: volcano why K4",
    );
    with_option(Ok(command), code_argument(alloc))
}

fn generate<'a>(alloc: Global) -> Result<Command<'a>, AllocError>
    ensures { IsCommand gen_app result }
{
    let command = bare(
        alloc,
        "gen",
        "Prints a relation to measure on, of which each value is a formula on the row's number",
        "Example: volcano gen --rows 10000",
    );
    let command = with_option(Ok(command), rows_option(alloc));
    with_rows(alloc, command)
}

fn bundle<'a>(alloc: Global) -> Result<Command<'a>, AllocError>
    ensures { IsCommand bundle_app result }
{
    let command = bare(
        alloc,
        "bundle",
        "Answers the request, as JSON, on standard input, as the program does without a command",
        "Example: volcano bundle --stats < request.json",
    );
    let command = with_option(Ok(command), threads_option(alloc));
    let command = with_option(command, stats_option(alloc));
    with_reports(alloc, command)
}

// The program without its commands. `tools/install` writes the commit over the words in brackets of its version, in as many bytes.
fn program<'a>(alloc: Global) -> Command<'a>
    ensures app { app_of result ≡ program_app }
    ensures local { (fields_of result).has_globals ≡ false }
{
    Command::new(alloc, "volcano")
        .version("0.1.0 (made here by rt; tools/prove marks a proved one)")
        .about(
            "Runs query plans in parallel, after a check that every claim on them follows. Without a command it reads one request, as JSON, from standard input",
        )
        .after_help(
            "A file - is standard input. Exit status: 0 with the whole answer; 2 for a usage error; 3 if a file, the catalog, the plan or its data is refused; 4 if the machine or the run failed",
        )
}

// The program with one command more, where there was memory for both.
fn with_command<'a>(
    program: Result<Command<'a>, AllocError>,
    added: Result<Command<'a>, AllocError>,
) -> Result<Command<'a>, AllocError>
    ensures { (app : App) (sub : App) → IsCommand app program.entry → IsCommand sub added.entry → IsCommand (with_subcommand app sub.top) result }
{
    let added = added?;
    program?.subcommand(added)
}

/// The command line of the program.
pub fn command<'a>(alloc: Global) -> Result<Command<'a>, AllocError>
    ensures { IfOk result (λ c. app_of c ≡ volcano_app) }
{
    let program = with_command(Ok(program(alloc)), run(alloc));
    let program = with_command(program, serial(alloc));
    let program = with_command(program, check(alloc));
    let program = with_command(program, explain(alloc));
    let program = with_command(program, annotate(alloc));
    let program = with_command(program, sql(alloc));
    let program = with_command(program, catalog(alloc));
    let program = with_command(program, why(alloc));
    let program = with_command(program, generate(alloc));
    with_command(program, bundle(alloc))
}
