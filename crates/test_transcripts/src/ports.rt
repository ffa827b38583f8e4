//! Runs of the program over ports that may fail, and what comes of them.

use crate::cut::CutDisk;
use crate::output::TestOutput;
use crate::place::TestPlace;
use anyhow::{Context, Error};
use std::alloc::Global;
use std::fs::{File, Files};
use std::sync::Wait;
use std::thread::Threads;
use volcano_answer::{Pipe, Services, answer, answer_into, output_path};
use volcano_locations::{Reasons, Recorded, SystemFiles};
use volcano_stats::NoClock;
use vx_catalog_bytes::{ByteOut, Disk, MemoryIn, MemoryOut, Real, Store};
use vx_exec_parallel::Engine;
use vx_exec_watch::Unwatched;
use vx_rows_values::KeySeed;

// More bytes than a command of these files writes on its output, or on its errors.
const AMPLE: usize = 1 << 20;

// The path that stands for the standard input.
const INPUT: &str = "-";

/// The standard input of a run, and how far its ports go.
#[derive(Clone, Copy)]
pub struct Ports<'a> {
    pub input: &'a [u8],
    /// What fails as it is read: the file at this path, or the standard input if it is `-`. Nothing does where it is empty.
    pub cut: &'a str,
    /// After how many bytes that fails.
    pub after: usize,
    /// How many bytes the output takes.
    pub room: usize,
    /// Whether the output is a pipe, which nobody reads once it has taken them.
    pub is_pipe: bool,
    /// How many bytes the errors take.
    pub error_room: usize,
}

impl<'a> Ports<'a> {
    /// Ports that do not fail.
    pub fn ample(input: &'a [u8]) -> Ports<'a> {
        Ports {
            input,
            cut: "",
            after: 0,
            room: AMPLE,
            is_pipe: false,
            error_room: AMPLE,
        }
    }

    /// Ports of which what is read at `path` fails after `after` bytes.
    pub fn cut(input: &'a [u8], path: &'a str, after: usize) -> Ports<'a> {
        Ports {
            input,
            cut: path,
            after,
            room: AMPLE,
            is_pipe: false,
            error_room: AMPLE,
        }
    }
}

// The status of the answer to `arguments` over `files` and `input`. What it writes goes to `out` and `err`.
//
// The one place that calls the program: its contract is long, and the proof of each caller goes through it.
fn status_of<
    R: Threads + Wait + Sync + AllocGlobal,
    F: Store + Reasons,
    O: ByteOut + Pipe,
    E: ByteOut,
>(
    rt: &R,
    arguments: &[&str],
    files: &F,
    input: &mut Recorded<MemoryIn<'_>>,
    out: &mut O,
    err: &mut E,
) -> u8 {
    let watch = Unwatched;
    let engine = Engine::new(&watch);
    let services = Services::new(rt, &engine, &NoClock, rt.alloc(), KeySeed::fixed());
    answer(&services, arguments, files, input, out, err)
}

/// What a run wrote, and its status.
#[derive(Drop)]
pub struct Written {
    pub out: TestOutput<MemoryOut>,
    pub err: MemoryOut,
    pub status: u8,
}

/// What comes of `arguments` over `ports`, of which the output takes three bytes at a time, and the errors ten.
pub fn run<R: Threads + Wait + Sync + Files<File = File> + AllocGlobal>(
    rt: &R,
    arguments: &[&str],
    ports: &Ports<'_>,
) -> Written {
    let mut out = TestOutput {
        port: MemoryOut::new(rt.alloc(), 3, ports.room),
        is_pipe: ports.is_pipe,
    };
    let mut err = MemoryOut::new(rt.alloc(), 10, ports.error_room);
    let files = SystemFiles {
        rt,
        files: CutDisk {
            disk: Disk::new(rt),
            path: ports.cut,
            after: ports.after,
        },
    };
    let fails_after = if ports.cut == INPUT {
        Some(ports.after)
    } else {
        None
    };
    let mut input = Recorded::new(rt.alloc(), MemoryIn::new(ports.input, fails_after));
    let status = status_of(rt, arguments, &files, &mut input, &mut out, &mut err);
    Written { out, err, status }
}

/// The status of `arguments`, which put their rows into a file, over a place with one file, and what goes to the errors.
pub fn run_into<R: Threads + Wait + Sync + Files<File = File> + AllocGlobal>(
    rt: &R,
    arguments: &[&str],
    place: &mut TestPlace,
) -> Result<(MemoryOut, u8), Error> {
    let mut err = MemoryOut::new(rt.alloc(), 10, AMPLE);
    let files = SystemFiles {
        rt,
        files: Disk::new(rt),
    };
    let mut input = Recorded::new(rt.alloc(), MemoryIn::new(&[], None));
    let watch = Unwatched;
    let engine = Engine::new(&watch);
    let services = Services::new(rt, &engine, &NoClock, rt.alloc(), KeySeed::fixed());
    let path = output_path(rt.alloc(), arguments)?.context("no file is named")?;
    let path = path.as_str();
    let status = answer_into(
        &services, arguments, &files, &mut input, place, path, &mut err,
    );
    Ok((err, status))
}

/// The bytes of an output and of the errors, and the status, as one text, in which `\n` stands for the end of a line.
pub fn shown(alloc: Global, out: &[u8], err: &[u8], status: u8) -> Result<String, Error> {
    let out = str::from_utf8(out)?;
    let err = str::from_utf8(err)?;
    let text = format!(in alloc; "{out}|{err}|{status}")?;
    Ok(text.replace(alloc, "\n", r"\n")?)
}

/// What comes of `arguments`, as one text, where the memory for all that is written is there before.
pub fn text_of<R: Threads + Wait + Sync + Files<File = File> + AllocGlobal>(
    rt: &R,
    arguments: &[&str],
    input: &[u8],
) -> Result<String, Error> {
    let mut out = Vec::<u8>::with_capacity(rt.alloc(), AMPLE)?;
    let mut err = Vec::<u8>::with_capacity(rt.alloc(), AMPLE)?;
    let files = SystemFiles {
        rt,
        files: Disk::new(rt),
    };
    let status = status_of(
        rt,
        arguments,
        &files,
        &mut Recorded::new(rt.alloc(), MemoryIn::new(input, None)),
        &mut TestOutput {
            port: Real::new(&mut out),
            is_pipe: false,
        },
        &mut Real::new(&mut err),
    );
    shown(rt.alloc(), out.as_slice(), err.as_slice(), status)
}
