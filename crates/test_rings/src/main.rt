//! Rings and shared decks: small ones step by step, and both under load by threads.
//!
//! The arguments name files of cases, a case on each line: what it shows, what is made and what it is asked, and what has to be answered.
//! A line is printed for each file, and before it one for each case that is answered otherwise. What is answered is the same in each run: no
//! order between the threads shows in it.
#![tactic(auto)]

mod answers;
mod decks;
mod loaded_decks;
mod loaded_rings;
mod packets;
mod pairs;
mod rings;

use answers::answer_to;
use packets::numbers;
use std::fs::Files;
use std::sync::{Arc, Wait};
use std::thread::Threads;
use std::{env, fs, io};
use test_tables::parts;
use vx_rows::Table;

// Shows the case of a `line` if it is answered otherwise than it says.
fn tell<R: Threads + Wait + Sync + Print + AllocGlobal>(
    rt: &R,
    base: &Arc<Table>,
    line: &str,
) -> io::Result<()> {
    let Some((name, given, wanted)) = parts(line) else {
        return println!(rt; "this line is no case: {line}");
    };
    let Some(got) = answer_to(rt, rt.alloc(), base, given) else {
        return println!(rt; "{name}: NoMemory, or no thread, or no such case");
    };
    let got = got.as_str().trim();
    if got != wanted {
        return println!(rt; "{name}: answered {got}, not {wanted}");
    }
    Ok(())
}

// Shows those cases of a file that are answered otherwise than they say, and how many the file has.
fn tell_all<R: Threads + Wait + Sync + Files + Print + AllocGlobal>(
    rt: &R,
    base: &Arc<Table>,
    path: &str,
) -> io::Result<()> {
    let text = fs::read_to_string(rt, path)?;
    for line in text.lines() {
        tell(rt, base, line)?;
    }
    println!(rt; "{path}: {} cases", text.lines().count())
}

fn main(rt: HostRuntime) -> io::Result<()> {
    let base = numbers(rt.alloc())?;
    for path in env::args(&rt)?.skip(1) {
        tell_all(&rt, &base, path.as_str())?;
    }
    Ok(())
}
