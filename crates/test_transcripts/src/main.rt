//! Runs the commands of files, and prints or compares what came of them.
//!
//! The arguments name text files. A line that begins with `$ volcano` is a command of a transcript: after that come the
//! program's arguments, separated by spaces, and at the end there may be `< FILE`, whose bytes are its standard input, or `<< TEXT`,
//! which is that itself; without them it is empty. The line is printed, then what went to the output, what went to the errors,
//! and the status.
//!
//! A line `? WAY: volcano .. => TEXT` is a trial: the command is run in that way (`way.rt` has them all), and has to come to the text,
//! which is the output, the errors and the status, with `|` between them and `\n` for the end of a line. What comes to another text is
//! printed. `(one|other)` in such a line stands for two lines, with each of the words in its place. Behind each file with trials
//! stands how many lines it has, and how often commands were run.
//!
//! Any other line is a note. Before the first file, what some calls answer is printed.
#![tactic(auto)]

mod alternatives;
mod calls;
mod command;
mod cut;
mod output;
mod place;
mod ports;
mod trial;
mod way;

use alternatives::chosen;
use anyhow::{Context, Error};
use calls::show_calls;
use command::Command;
use ports::{Ports, run};
use std::fs::{File, Files};
use std::sync::Wait;
use std::thread::Threads;
use std::{env, fs};
use trial::try_line;

// Runs a command of a transcript, and shows what came of it.
fn show<R: Threads + Wait + Sync + Files<File = File> + Print + AllocGlobal>(
    rt: &R,
    text: &str,
) -> Result<(), Error> {
    let command = Command::of(rt.alloc(), text)?;
    let input = command.read_input(rt)?;
    let ports = Ports::ample(input.as_slice());
    let written = run(rt, command.arguments.as_slice(), &ports);
    let out = str::from_utf8(written.out.port.bytes())?;
    let err = str::from_utf8(written.err.bytes())?;
    let status = written.status;
    println!(rt; "{out}{err}status {status}")?;
    Ok(())
}

// Shows the command of a line, or tries those of each line that it stands for. The result says how often commands were tried.
fn tell<R: Threads + Wait + Sync + Files<File = File> + Print + AllocGlobal>(
    rt: &R,
    line: &str,
) -> Result<u64, Error> {
    if let Some(text) = line.strip_prefix("$ volcano") {
        println!(rt; "{line}")?;
        show(rt, text)?;
        return Ok(0);
    }
    let Some(trial) = line.strip_prefix("? ") else {
        return Ok(0);
    };
    let mut runs = 0u64;
    for line in chosen(rt.alloc(), trial)? {
        runs = runs.saturating_add(try_line(rt, line.as_str())?);
    }
    Ok(runs)
}

// Shows or tries the commands of the file at a path.
fn tell_all<R: Threads + Wait + Sync + Files<File = File> + Print + AllocGlobal>(
    rt: &R,
    path: &str,
) -> Result<(), Error> {
    let text = fs::read_to_string(rt, path).context(format_args!("reading {path}"))?;
    let (mut lines, mut runs) = (0u64, 0u64);
    for line in text.lines() {
        let more = tell(rt, line)?;
        if more > 0 {
            lines = lines.saturating_add(1);
            runs = runs.saturating_add(more);
        }
    }
    if lines > 0 {
        println!(rt; "{path}: {lines} trials, {runs} runs")?;
    }
    Ok(())
}

fn main(rt: HostRuntime) -> Result<(), Error> {
    show_calls(&rt)?;
    for argument in env::args(&rt)?.skip(1) {
        tell_all(&rt, argument.as_str())?;
    }
    Ok(())
}
