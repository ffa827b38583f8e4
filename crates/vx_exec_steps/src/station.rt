//! What the nodes of a plan share between workers.

use crate::scans::{SharedScan, WholeScan};

/// What stands at a node of the plan, for all workers.
#[derive(Drop)]
pub enum Station {
    /// An operator, which shares nothing.
    Inner,
    /// An exchange: the numbers of its first producer and of its first consumer.
    Exchange { below: usize, above: usize },
    /// A scan whose workers draw from one deck.
    Shared(SharedScan),
    /// A scan whose workers read all of it, each by itself.
    Whole(WholeScan),
}

impl Station {
    ghost use Rattle.vx_exec_steps.specs.Stations.{StationDraws};

    /// The next morsel for a worker, if this is a scan of its fragment.
    pub fn draw(&mut self, worker: usize) -> Option<u64>
        ensures { StationDraws self.old worker result self.new }
    {
        match self {
            Station::Inner => return None,
            Station::Exchange { below: _, above: _ } => return None,
            Station::Shared(scan) => return scan.draw(worker),
            Station::Whole(scan) => return scan.draw(worker),
        }
    }
}
