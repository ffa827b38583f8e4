//! Clocks for tests.

use std::cell::Cell;
use std::io;
use std::io::ErrorKind;
use std::time::{Clock, Duration};
use volcano_stats::NoClock;

/// A clock that goes on by `step` nanoseconds each time that it is asked. Where there is no step it is no clock.
#[derive(Drop)]
pub struct Ticking {
    now: Cell<u64>,
    step: Option<u64>,
}

impl Ticking {
    /// It begins at 0.
    pub fn new(step: Option<u64>) -> Ticking {
        Ticking {
            now: Cell::new(0),
            step,
        }
    }
}

impl Clock for Ticking {
    fn monotonic(&self) -> io::Result<Duration> {
        let Some(step) = self.step else {
            return NoClock.monotonic();
        };
        let now = self.now.get();
        self.now.set(now.wrapping_add(step));
        Ok(Duration::from_nanos(now))
    }

    fn since_1970(&self) -> io::Result<Duration> {
        Err(ErrorKind::Unsupported.into())
    }
}
