//! How long each part of a command takes.

use std::alloc::{AllocError, Global};
use std::io;
use std::io::ErrorKind;
use std::time::{Clock, Duration, Instant};

/// A part of the work of a command.
#[derive(Clone, Copy, Debug, PartialEq, Eq)]
pub enum WorkPhase {
    /// The texts of the catalog and of the plan were read.
    Read,
    /// The text of the catalog was read.
    Catalog,
    /// The plan was resolved.
    Plan,
    /// Several plans were read, resolved and checked.
    Plans,
    /// The plan was checked.
    Check,
    /// The tables were loaded.
    Load,
    /// The workers ran, and the text of their rows was made.
    Run,
    /// The rows were written.
    Write,
}

/// A phase, and how long it took, if that is known.
#[derive(Clone, Copy, Debug, PartialEq, Eq)]
pub struct PhaseTime {
    pub phase: WorkPhase,
    pub microseconds: Option<u64>,
}

/// The time at which a phase began, if that is known.
#[derive(Clone, Copy)]
pub struct Stopwatch {
    began: Option<Instant>,
}

/// A clock that returns no time: no phase has a known one.
#[derive(Clone, Copy)]
pub struct NoClock;

impl Clock for NoClock {
    fn monotonic(&self) -> io::Result<Duration> {
        Err(ErrorKind::Unsupported.into())
    }

    fn since_1970(&self) -> io::Result<Duration> {
        Err(ErrorKind::Unsupported.into())
    }
}

// The time on a clock, if it returns one.
fn time_on<C: Clock>(clock: &C) -> Option<Instant> {
    Instant::now(clock).ok()
}

impl Stopwatch {
    ghost use Rattle.std.specs.Prelude.{◌≡◌};

    /// A phase begins now.
    pub fn start<C: Clock>(clock: &C) -> Stopwatch {
        Stopwatch {
            began: time_on(clock),
        }
    }

    /// How long the phase took that ends now; the next one begins.
    pub fn lap<C: Clock>(&mut self, clock: &C) -> Option<u64> {
        let now = time_on(clock);
        let began = self.began;
        self.began = now;
        let time = now?.saturating_duration_since(began?);
        Some(time.as_micros().min(u64::MAX as u128) as u64)
    }

    /// The time of the phase that ends now; the next one begins.
    pub fn end<C: Clock>(&mut self, clock: &C, phase: WorkPhase) -> PhaseTime
        ensures { result.phase ≡ phase }
    {
        PhaseTime {
            phase,
            microseconds: self.lap(clock),
        }
    }
}

/// Calls: `start`, then `end` at the end of each phase.
///
/// The times of the phases of a command, which follow one another.
#[derive(Drop)]
pub struct Timer {
    watch: Stopwatch,
    times: Vec<PhaseTime>,
}

impl Timer {
    ghost use Rattle.std.specs.Prelude.{◌≡◌, ◌++◌, ◌∷◌, [], OnOk};
    ghost use Rattle.volcano_stats.specs.Phases.{phases_of, times_in};

    /// The first phase begins now.
    pub fn start<C: Clock>(alloc: Global, clock: &C) -> Timer
        ensures { times_in result ≡ [] }
    {
        Timer {
            watch: Stopwatch::start(clock),
            times: Vec::new(alloc),
        }
    }

    /// A phase ends now, and the next one begins.
    pub fn end<C: Clock>(&mut self, clock: &C, phase: WorkPhase) -> Result<(), AllocError>
        ensures { OnOk result (phases_of (times_in self.new) ≡ phases_of (times_in self.old) ++ (phase ∷ [])) }
    {
        self.times.push(self.watch.end(clock, phase))?;
        Ok(())
    }

    /// The phases that have ended with their times, in order.
    pub fn times(&self) -> &[PhaseTime]
        ensures { result.now ≡ times_in self.now }
    {
        self.times.as_slice()
    }
}
