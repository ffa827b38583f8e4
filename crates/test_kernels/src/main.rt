//! What no clause says of rows by positions, of kernels and of the serial evaluator: that their calls succeed with ample
//! memory, small examples, exact texts of refusals, and that threads may share rows.
//!
//! The words of the command line name files of cases, which are lines `name | call | rows | others | steps | wanted`. A line
//! is printed for each file, and before it one for each case with another answer than it says.
#![tactic(auto)]

mod case;
mod chunks;
mod kernels;
mod numbers;
mod plans;
mod positions;
mod rows;
mod seeds;
mod tables;
mod threads;

use anyhow::{Context, Error, bail};
use case::Case;
use std::path::Path;
use std::thread::Threads;
use std::{env, fs};

// What the call of a case answers.
fn answer<R: Threads + Sync + AllocGlobal>(rt: &R, case: &Case<'_>) -> Result<String, Error> {
    let alloc = rt.alloc();
    match case.call {
        "chunk" => chunks::answer(alloc, case),
        "between" => numbers::places_between(alloc, case),
        "number" => numbers::number_of(alloc, case),
        "range" => positions::answer(alloc, case),
        "shared" => threads::shared(rt, case),
        "sent" => threads::sent(rt, case),
        "rows" | "chunks" | "part" | "table" | "taken" => rows::answer(alloc, case),
        "merge" | "rises" => kernels::in_order(alloc, case),
        "seen" | "group" => kernels::answer(alloc, case),
        "probe" => kernels::probed(alloc, case),
        "seeds" => seeds::answer(alloc, case),
        "plan" | "elsewhere" => plans::answer(alloc, case),
        _ => bail!("there is no such call"),
    }
}

// Whether the case of a line is answered as it says. If it is not, it is shown with its answer.
fn is_right<R: Threads + Sync + Print + AllocGlobal>(rt: &R, line: &str) -> Result<bool, Error> {
    let case = Case::read(line).context(format_args!("this line is no case: {line}"))?;
    let came = answer(rt, &case).context(format_args!("in this case: {line}"))?;
    let (name, wanted) = (case.name, case.wanted);
    if came.as_str() == wanted {
        return Ok(true);
    }
    println!(rt; "{name}: wanted {wanted}, came {came}")?;
    Ok(false)
}

// Shows the wrong cases of a file, and how many cases it has. A line that begins with `#` is a note.
fn tell<R: Threads + Sync + Print + AllocGlobal>(
    rt: &R,
    name: &str,
    text: &str,
) -> Result<(), Error> {
    let mut cases = 0u64;
    let mut wrong = 0u64;
    for line in text.lines() {
        if !line.starts_with('#') {
            cases = cases.saturating_add(1);
            if !is_right(rt, line)? {
                wrong = wrong.saturating_add(1);
            }
        }
    }
    println!(rt; "{name}: {cases} cases, {wrong} wrong")?;
    Ok(())
}

fn main(rt: HostRuntime) -> Result<(), Error> {
    for word in env::args(&rt)?.skip(1) {
        let path = word.as_str();
        let text = fs::read_to_string(&rt, path).context(format_args!("reading {path}"))?;
        let name = Path::new(path).file_stem().unwrap_or(path);
        tell(&rt, name, text.as_str())?;
    }
    Ok(())
}
