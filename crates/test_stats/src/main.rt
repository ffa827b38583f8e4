//! Prints the statistics of times as users see them, and what timers say.
//!
//! The arguments name text files. A line that begins with `$` is a case: it is printed, and behind it what comes of it. Any other line is a
//! note. The first word of a case says what is shown:
//! - `alone FORM`, with the form `table` or `json`: the statistics of a plan that runs alone; `one FORM`: those of one of several plans, none of whose
//!   workers counted; `shared FORM`: what several plans share;
//! - `phases STEP`: what a timer of phases says by a clock that goes on by so many nanoseconds each time that it is asked, or by none
//!   where the step is `-`; `loads STEP`: what a timer of loads says; `bundle STEP`: the same of a plan's relations, which are loaded from a bundle.
//!
//! Each further word is a phase of the work, or the number of a relation that is loaded, with its microseconds where they are given: `read=12`,
//! `1=34`, or `run=-` where the time is not known.
#![tactic(auto)]

mod clocks;
mod given;
mod runs;
mod texts;
mod timers;

use anyhow::{Context, Error, bail};
use given::{Given, form_named, number_in};
use std::fs::Files;
use std::thread::Threads;
use std::{env, fs};
use texts::{show_alone, show_one, show_shared};
use timers::{show_bundle, show_loads, show_phases};

// Prints what comes of a case.
fn show<R: Threads + Sync + Print + AllocGlobal>(rt: &R, case: &str) -> Result<(), Error> {
    let mut words = case.split_whitespace();
    let name = words.next().context("the case has no word")?;
    let word = words.next().context("the case has one word")?;
    let given = Given::read(rt.alloc(), words)?;
    match name {
        "alone" => show_alone(rt, form_named(word)?, &given),
        "one" => show_one(rt, form_named(word)?, &given),
        "shared" => show_shared(rt, form_named(word)?, &given),
        "phases" => show_phases(rt, number_in(word)?, &given),
        "loads" => show_loads(rt, number_in(word)?, &given),
        "bundle" => show_bundle(rt, number_in(word)?),
        _ => bail!("nothing has the name {name}"),
    }
}

fn main(rt: HostRuntime) -> Result<(), Error> {
    let path = env::args(&rt)?.nth(1).context("no file is named")?;
    let text = fs::read_to_string(&rt, path.as_str())?;
    for line in text.lines() {
        if let Some(case) = line.strip_prefix("$") {
            println!(rt; "{line}")?;
            show(&rt, case)?;
        }
    }
    Ok(())
}
