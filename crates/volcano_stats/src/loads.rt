//! How long the load of each relation takes.

use crate::phases::Stopwatch;
use std::alloc::{AllocError, Global};
use std::time::Clock;
use volcano_tables::Observer;

/// A relation, by its number in the catalog, and how long its load took, if that is known.
#[derive(Clone, Copy, Debug, PartialEq, Eq)]
pub struct LoadTime {
    pub relation: usize,
    pub microseconds: Option<u64>,
}

/// Calls: `start`, then `loaded` at the end of each load.
///
/// The times of the loads of relations, which follow one another.
#[derive(Drop)]
pub struct LoadTimer<'c, C> {
    clock: &'c C,
    watch: Stopwatch,
    times: Vec<LoadTime>,
}

impl<'c, C: Clock> LoadTimer<'c, C> {
    ghost use Rattle.std.specs.Prelude.{◌≡◌, []};
    ghost use Rattle.volcano_stats.specs.Loads.{loads_in};

    /// The first load begins now.
    pub fn start(alloc: Global, clock: &'c C) -> LoadTimer<'c, C>
        ensures { loads_in result ≡ [] }
    {
        LoadTimer {
            clock,
            watch: Stopwatch::start(clock),
            times: Vec::new(alloc),
        }
    }

    /// The relations that were loaded with the times of their loads, in order.
    pub fn times(&self) -> &[LoadTime]
        ensures { result.now ≡ loads_in self.now }
    {
        self.times.as_slice()
    }
}

impl<C: Clock> Observer for LoadTimer<'_, C> {
    ghost use Rattle.std.specs.Prelude.{Some};
    ghost use Rattle.volcano_stats.specs.Loads.{loads_in, relations_of};

    ghost seen = { λ t. Some (relations_of (loads_in t)) };

    fn loaded(&mut self, relation: usize) -> Result<(), AllocError> {
        let microseconds = self.watch.lap(self.clock);
        self.times.push(LoadTime {
            relation,
            microseconds,
        })?;
        Ok(())
    }
}
