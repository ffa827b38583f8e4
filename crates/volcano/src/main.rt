//! The program: from arguments or a bundle to rows.
#![tactic(auto)]

mod new_files;
mod output;
mod stack;

use crate::new_files::NewFiles;
use crate::output::Output;
use crate::stack::take_stack;
use std::alloc::{AllocError, Global};
use std::env::Env;
use std::fs::{File, Files};
use std::io::{ErrorKind, IsTerminal};
use std::process::ExitCode;
use std::random::RandomSource;
use std::sync::Wait;
use std::thread::Threads;
use std::time::Clock;
use std::{env, io};
use volcano_answer::{Pipe, Services, answer, answer_into, output_path};
use volcano_locations::{Reasons, Recorded, Replay, SystemFiles};
use volcano_progress::{Terminal, Watched, WatchedRuns, is_quiet};
use volcano_refusals::{Refusal, report};
use vx_catalog_bytes::{ByteIn, ByteOut, Disk, Real, Store, write_all};
use vx_exec_parallel::Engine;
use vx_exec_runs::Runs;
use vx_rows_values::KeySeed;

// The arguments, without the program's name.
fn arguments_of(rt: &(impl Env + AllocGlobal)) -> io::Result<Vec<String>> {
    let mut arguments = Vec::new(rt.alloc());
    for argument in env::args(rt)?.skip(1) {
        arguments.push(argument)?;
    }
    Ok(arguments)
}

// The texts of arguments.
fn texts_of(alloc: Global, arguments: &[String]) -> Result<Vec<&str>, AllocError> {
    let mut texts = Vec::new(alloc);
    for argument in arguments {
        texts.push(argument.as_str())?;
    }
    Ok(texts)
}

// A number that nobody knows before the run.
fn drawn_number(rt: &impl RandomSource) -> io::Result<u64> {
    let mut bytes = [0; 8];
    rt.fill_bytes(&mut bytes)?;
    Ok(u64::from_le_bytes(bytes))
}

// A seed of drawn numbers.
fn drawn_seed(rt: &impl RandomSource) -> io::Result<KeySeed> {
    Ok(KeySeed::new(drawn_number(rt)?, drawn_number(rt)?))
}

// A seed that nobody knows before the run. Without random bytes the program answers the same, with the fixed seed.
fn seed_of(rt: &impl RandomSource) -> KeySeed {
    match drawn_seed(rt) {
        Ok(seed) => seed,
        Err(_) => KeySeed::fixed(),
    }
}

// How many columns the screen has that shows what is printed, if one does and the environment says it: the system has no call
// here that would.
fn columns_of(rt: &(impl Env + AllocGlobal), is_shown: bool) -> Option<usize> {
    if !is_shown {
        return None;
    }
    env::var(rt, "COLUMNS").ok()?.as_str().parse::<usize>().ok()
}

// Says that memory ran out, and returns the status of that.
fn out_of_memory<E: ByteOut>(err: &mut E) -> ExitCode {
    report(&Refusal::NoMemory, err);
    ExitCode::from(4)
}

// The arguments. If they cannot be read, that is said, and its status is the answer.
fn read_arguments<E: ByteOut>(
    rt: &(impl Env + AllocGlobal),
    err: &mut E,
) -> Result<Vec<String>, ExitCode> {
    match arguments_of(rt) {
        Ok(arguments) => Ok(arguments),
        Err(e) if e.kind() == ErrorKind::OutOfMemory => Err(out_of_memory(err)),
        Err(_) => {
            let _ = write_all(err, b"volcano: an argument is not valid UTF-8\n");
            Err(ExitCode::from(2))
        }
    }
}

// Answers the arguments into the file that they name, which no screen shows, or else on `out`.
fn answer_in_place<
    T: Threads + Wait + Sync + Files<File = File>,
    R: Runs,
    C: Clock,
    F: Store + Reasons,
    I: ByteIn + Replay,
    O: ByteOut + Pipe,
    E: ByteOut,
>(
    services: &Services<'_, T, R, C>,
    arguments: &[&str],
    files: &F,
    input: &mut I,
    out: &mut O,
    err: &mut E,
) -> ExitCode {
    let Ok(path) = output_path(services.alloc, arguments) else {
        return out_of_memory(err);
    };
    let Some(path) = path else {
        return ExitCode::from(answer(services, arguments, files, input, out, err));
    };
    let services = services.with_columns(None);
    let mut place = NewFiles::new(services.rt, services.alloc);
    let path = path.as_str();
    ExitCode::from(answer_into(&services, arguments, files, input, &mut place, path, err))
}

// What is said where nothing is asked for, and a person would have to type the request.
const NO_REQUEST: &str = "volcano: no arguments, and standard input is a terminal
Type volcano --help for the commands; a request as JSON is read from a file or a pipe: volcano < request.json
";

fn main(rt: HostRuntime) -> ExitCode {
    let mut input = Recorded::new(rt.alloc(), Real::new(rt.reader()));
    let mut out = Output::new(rt.stdout());
    let mut err = Real::new(rt.stderr());
    let arguments = match read_arguments(&rt, &mut err) {
        Ok(arguments) => arguments,
        Err(status) => return status,
    };
    let Ok(texts) = texts_of(rt.alloc(), arguments.as_slice()) else {
        return out_of_memory(&mut err);
    };
    let texts = texts.as_slice();
    if texts.is_empty() && rt.stdin().is_terminal() {
        let _ = write_all(&mut err, NO_REQUEST.as_bytes());
        return ExitCode::from(2);
    }
    if take_stack(rt.alloc(), texts.len()).is_err() {
        return out_of_memory(&mut err);
    }
    // Only a terminal shows how much of a table has been read, and how far a run has come.
    let terminal = Terminal::new(&rt, rt.stderr());
    let is_read = rt.stderr().is_terminal();
    let is_shown = is_read && !is_quiet(texts);
    let screen = is_shown.then_some(&terminal);
    let files = SystemFiles {
        rt: &rt,
        files: Watched::new(rt.alloc(), Disk::new(&rt), screen),
    };
    let runs = WatchedRuns::new(rt.alloc(), screen);
    let engine = Engine::new(&runs);
    let services = Services::new(&rt, &engine, &rt, rt.alloc(), seed_of(&rt))
        .with_reader(is_read)
        .with_columns(columns_of(&rt, rt.stdout().is_terminal()));
    answer_in_place(&services, texts, &files, &mut input, &mut out, &mut err)
}
