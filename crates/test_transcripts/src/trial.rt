//! Trials: a command is tried in a way, and each time it has to come to what is wanted.

use crate::command::Command;
use crate::place::TestPlace;
use crate::ports::{Ports, run, run_into, shown, text_of};
use crate::way::{Way, way_named};
use anyhow::{Context, Error};
use std::alloc::Global;
use std::fs;
use std::fs::{File, Files};
use std::sync::Wait;
use std::thread::Threads;

// What is reported of an output that fails, and the status then.
const FULL: (&[u8], u8) = (b"volcano: V4 WriteFailed\n", 4);

// What is reported of a pipe that nobody reads any more, and the status then.
const CLOSED: (&[u8], u8) = (b"", 4);

// The file at a place before a command puts another there.
const OLD_FILE: &[u8] = b"old rows\n";

/// A command that is tried. Each of its ways is a method, which returns how often the command was run.
#[derive(Clone, Copy)]
struct Trial<'a, R> {
    rt: &'a R,
    line: &'a str,
    arguments: &'a [&'a str],
    /// The bytes of its standard input.
    input: &'a [u8],
    /// What goes to the output, what goes to the errors, and the status, as `shown` has them; or several such texts with ` or `
    /// between them.
    wanted: &'a str,
}

impl<R: Threads + Wait + Sync + Files<File = File> + Print + AllocGlobal> Trial<'_, R> {
    // Prints what the command came to, if it is none of the texts that are wanted.
    fn compare(&self, found: &str, wanted: &str) -> Result<(), Error> {
        for text in wanted.split(" or ") {
            if found == text {
                return Ok(());
            }
        }
        let line = self.line;
        println!(self.rt; "gave {found}, not {wanted}: {line}")?;
        Ok(())
    }

    // Runs the command over these ports, and compares what came of it.
    fn try_ports(&self, ports: &Ports<'_>, wanted: &str) -> Result<(), Error> {
        let written = run(self.rt, self.arguments, ports);
        let (out, err) = (written.out.port.bytes(), written.err.bytes());
        let found = shown(self.rt.alloc(), out, err, written.status)?;
        self.compare(found.as_str(), wanted)
    }

    // So many times.
    fn times(&self, times: u32) -> Result<u64, Error> {
        for _ in 0..times {
            let found = text_of(self.rt, self.arguments, self.input)?;
            self.compare(found.as_str(), self.wanted)?;
        }
        Ok(u64::from(times))
    }

    // With each front of its input in the place of that.
    fn fronts(&self) -> Result<u64, Error> {
        for length in 0..self.input.len() {
            let ports = Ports::ample(&self.input[..length]);
            self.try_ports(&ports, self.wanted)?;
        }
        Ok(self.input.len() as u64)
    }

    // What is read at a path fails after each number of bytes, up to all.
    fn reads(&self, path: &str) -> Result<u64, Error> {
        let length = if path == "-" {
            self.input.len()
        } else {
            let bytes = fs::read(self.rt, path).context(format_args!("reading {path}"))?;
            bytes.len()
        };
        let runs = length.saturating_add(1);
        for after in 0..runs {
            let ports = Ports::cut(self.input, path, after);
            self.try_ports(&ports, self.wanted)?;
        }
        Ok(runs as u64)
    }

    // The errors take all bytes, and then each number of bytes that is less, over ports that are the same otherwise. The output and the
    // status are the same each time.
    fn errors(
        &self,
        ports: &Ports<'_>,
        out: &[u8],
        (errors, status): (&[u8], u8),
    ) -> Result<u64, Error> {
        let alloc = self.rt.alloc();
        let wanted = shown(alloc, out, errors, status)?;
        self.try_ports(ports, wanted.as_str())?;
        let mut ports = *ports;
        for room in 0..errors.len() {
            ports.error_room = room;
            let wanted = shown(alloc, out, &errors[..room], status)?;
            self.try_ports(&ports, wanted.as_str())?;
        }
        Ok((errors.len() as u64).saturating_add(1))
    }

    // The errors take each number of bytes.
    fn error_rooms(&self) -> Result<u64, Error> {
        let (out, errors, status) = parts_of(self.rt.alloc(), self.wanted)?;
        let ports = Ports::ample(self.input);
        self.errors(&ports, out.as_bytes(), (errors.as_bytes(), status))
    }

    // The output takes each number of bytes, up to all. Where it takes fewer, the run ends with these errors and this status.
    fn rooms(&self, is_pipe: bool, end: (&[u8], u8)) -> Result<u64, Error> {
        let (out, _, _) = parts_of(self.rt.alloc(), self.wanted)?;
        let out = out.as_bytes();
        let mut ports = Ports::ample(self.input);
        ports.is_pipe = is_pipe;
        let mut runs = 1u64;
        for room in 0..out.len() {
            ports.room = room;
            runs = runs.saturating_add(self.errors(&ports, &out[..room], end)?);
        }
        ports.room = out.len();
        self.try_ports(&ports, self.wanted)?;
        Ok(runs)
    }

    // The rows go to a place with another file, which still stands where a step fails.
    fn at_place(&self, place: TestPlace, wanted: &str) -> Result<(), Error> {
        let mut place = place;
        let (err, status) = run_into(self.rt, self.arguments, &mut place)?;
        let found = shown(self.rt.alloc(), place.bytes(), err.bytes(), status)?;
        self.compare(found.as_str(), wanted)
    }

    // Each step of a place fails, and then none.
    fn places(&self) -> Result<u64, Error> {
        let alloc = self.rt.alloc();
        let (out, _, _) = parts_of(alloc, self.wanted)?;
        let length = out.len();
        let failed = shown(alloc, OLD_FILE, FULL.0, FULL.1)?;
        for room in 0..length {
            let old = Vec::from_slice(alloc, OLD_FILE)?;
            self.at_place(TestPlace::new(alloc, old, room), failed.as_str())?;
        }
        let mut place = TestPlace::new(alloc, Vec::from_slice(alloc, OLD_FILE)?, length);
        place.begins = false;
        self.at_place(place, failed.as_str())?;
        let mut place = TestPlace::new(alloc, Vec::from_slice(alloc, OLD_FILE)?, length);
        place.finishes = false;
        self.at_place(place, failed.as_str())?;
        let old = Vec::from_slice(alloc, OLD_FILE)?;
        self.at_place(TestPlace::new(alloc, old, length), self.wanted)?;
        Ok((length as u64).saturating_add(3))
    }

    // The output takes so many bytes. How many it has then stands for them.
    fn bytes(&self, room: usize) -> Result<u64, Error> {
        let alloc = self.rt.alloc();
        let mut ports = Ports::ample(self.input);
        ports.room = room;
        let written = run(self.rt, self.arguments, &ports);
        let count = written.out.port.bytes().len();
        let count = format!(in alloc; "{count} bytes")?;
        let found = shown(alloc, count.as_bytes(), written.err.bytes(), written.status)?;
        self.compare(found.as_str(), self.wanted)?;
        Ok(1)
    }

    // In this way. Where a part of its input is repeated, it has been repeated before.
    fn in_way(&self, way: Way<'_>) -> Result<u64, Error> {
        match way {
            Way::Times(times) => self.times(times),
            Way::Units(_) => self.times(1),
            Way::Fronts => self.fronts(),
            Way::Reads(path) => self.reads(path),
            Way::Rooms => self.rooms(false, FULL),
            Way::Pipes => self.rooms(true, CLOSED),
            Way::Places => self.places(),
            Way::ErrorRooms => self.error_rooms(),
            Way::Bytes(room) => self.bytes(room),
        }
    }
}

// The output, the errors and the status of a text that is wanted.
fn parts_of(alloc: Global, wanted: &str) -> Result<(String, String, u8), Error> {
    let (out, rest) = wanted.split_once('|').context("no output is wanted")?;
    let (errors, status) = rest.split_once('|').context("no errors are wanted")?;
    let out = out.replace(alloc, r"\n", "\n")?;
    let errors = errors.replace(alloc, r"\n", "\n")?;
    Ok((out, errors, status.parse::<u8>()?))
}

// The bytes in which what stands between angle brackets is repeated.
fn repeated(alloc: Global, bytes: &[u8], times: usize) -> Result<Vec<u8>, Error> {
    let text = str::from_utf8(bytes)?;
    let (before, rest) = text.split_once('<').context("no part is repeated")?;
    let (unit, after) = rest.split_once('>').context("no part is repeated")?;
    let units = unit.repeat(alloc, times)?;
    Ok(format!(in alloc; "{before}{units}{after}")?.into_bytes())
}

// The bytes of the standard input of a command that is tried in this way.
fn input_in_way(
    rt: &(impl Files + AllocGlobal),
    command: &Command<'_>,
    way: Way<'_>,
) -> Result<Vec<u8>, Error> {
    let input = command.read_input(rt)?;
    match way {
        Way::Units(times) => repeated(rt.alloc(), input.as_slice(), times),
        _ => Ok(input),
    }
}

// The way of a line, its command after the program's name, and what is wanted.
fn trial_in(line: &str) -> Option<(Way<'_>, &str, &str)> {
    let (way, rest) = line.split_once(": volcano")?;
    let (command, wanted) = rest.split_once(" => ")?;
    Some((way_named(way)?, command, wanted))
}

/// Tries the command of `line` in its way, and prints each time that it came to what is not wanted. The result says how often it was run.
pub fn try_line<R: Threads + Wait + Sync + Files<File = File> + Print + AllocGlobal>(
    rt: &R,
    line: &str,
) -> Result<u64, Error> {
    let (way, command, wanted) = trial_in(line).context(format_args!(
        "no trial `WAY: volcano .. => TEXT`: {line}"
    ))?;
    let command = Command::of(rt.alloc(), command)?;
    let input = input_in_way(rt, &command, way)?;
    let trial = Trial {
        rt,
        line,
        arguments: command.arguments.as_slice(),
        input: input.as_slice(),
        wanted,
    };
    trial.in_way(way)
}
