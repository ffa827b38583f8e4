//! Whether catalogs are read and found, rows loaded, kept and written, as files of cases say: in one thread and in several, with
//! readers and writers that fail, and with memory that is refused.
//!
//! The words of the command line name files of cases. A line of a file is a case (`Case`), a note, which begins with `#`,
//! or sets the ways in which later cases of the file share work out among threads (`Way`). A line is printed for each
//! file, and before it one for each case that is answered otherwise than it says.
#![tactic(auto)]

mod case;
mod catalogs;
mod expect;
mod found;
mod layouts;
mod loading;
mod ports;
mod rows;
mod steps;
mod way;
mod writing;

use anyhow::{Context, Error};
use case::{Case, Setting, bytes_of, catalog_after, is_case, ways_after};
use expect::{Wrong, told};
use std::alloc::Global;
use std::thread::Threads;
use std::{env, fs};

// Makes the call of the case `case`, and compares what comes of it with what the case wants.
fn compare<R: Threads + Sync>(
    rt: &R,
    alloc: Global,
    setting: Setting<'_>,
    case: Case<'_>,
) -> Result<(), Wrong> {
    let text = bytes_of(alloc, case.given)?;
    let text = text.as_slice();
    let wanted = bytes_of(alloc, case.wanted)?;
    let wanted = wanted.as_slice();
    match case.call {
        "catalog" => catalogs::compare_text(alloc, text, wanted),
        "fronts" => catalogs::compare_fronts(alloc, text, wanted),
        "found" => found::compare_found(rt, alloc, text, wanted),
        "load" => loading::compare_ways(rt, alloc, setting, text, None, wanted),
        "fail" => loading::compare_failing(rt, alloc, setting, text, wanted),
        "full" => writing::compare_rooms(alloc, setting, text, wanted),
        "bare" => writing::compare_no_columns(rt, alloc, setting, text, wanted),
        "json" => layouts::compare_json(alloc, setting, text, wanted),
        "table" => layouts::compare_table(alloc, setting, None, text, wanted),
        "screen" => layouts::compare_screen(alloc, setting, case, text, wanted),
        "second" => writing::compare_second(rt, alloc, setting, text, wanted),
        "read" => ports::compare_reads(alloc, text, wanted),
        "write" => ports::compare_writes(alloc, text, wanted),
        "rows" => rows::compare_steps(alloc, case.given, wanted),
        _ => Err(told(alloc, "there is no such call")),
    }
}

// Shows the case `case` of the file `path` if it is answered otherwise than it says.
fn tell<R: Threads + Sync + Print + AllocGlobal>(
    rt: &R,
    path: &str,
    setting: Setting<'_>,
    case: Case<'_>,
) -> Result<(), Error> {
    match compare(rt, rt.alloc(), setting, case) {
        Ok(()) => {}
        Err(Wrong::NoMemory) => println!(rt; "{path}: {}: {}: NoMemory", case.call, case.name)?,
        Err(Wrong::Said(said)) => println!(rt;
            "{path}: {}: {}: {said:?}, not {:?}",
            case.call, case.name, case.wanted
        )?,
    }
    Ok(())
}

// Shows the case that the line `line` is, if it is answered otherwise than it says. It answers how many cases the line is: one, or none
// if it is a note or sets the ways.
fn tell_line<R: Threads + Sync + Print + AllocGlobal>(
    rt: &R,
    path: &str,
    setting: Setting<'_>,
    line: &str,
) -> Result<u64, Error> {
    if !is_case(line) {
        return Ok(0);
    }
    let case = Case::of(line).context(format_args!("{path}: no case: {line}"))?;
    tell(rt, path, setting, case)?;
    Ok(1)
}

// Shows those cases of the file `path` that are answered otherwise than they say, and how many cases its text `text` has.
fn tell_all<R: Threads + Sync + Print + AllocGlobal>(
    rt: &R,
    path: &str,
    text: &str,
) -> Result<(), Error> {
    let mut catalog = "";
    let mut ways = "1";
    let mut count = 0u64;
    for line in text.lines() {
        catalog = catalog_after(line, catalog);
        ways = ways_after(line, ways);
        count = count.saturating_add(tell_line(rt, path, Setting { catalog, ways }, line)?);
    }
    println!(rt; "{path}: {count} cases")?;
    Ok(())
}

fn main(rt: HostRuntime) -> Result<(), Error> {
    for word in env::args(&rt)?.skip(1) {
        let path = word.as_str();
        let text = fs::read_to_string(&rt, path).context(format_args!("reading {path}"))?;
        tell_all(&rt, path, text.as_str())?;
    }
    Ok(())
}
