//! What the workers of a run counted, as texts.

use std::alloc::AllocError;
use std::test::Fail;
use vx_exec_setup::{OperatorCounts, WorkerCounts};

// What all workers counted at a node together: rows that came from the left, rows given, morsels, packets taken; and how many workers
// have the node.
#[derive(Clone, Copy)]
struct Totals {
    left: u64,
    gave: u64,
    morsels: u64,
    packets: u64,
    workers: u64,
}

impl Totals {
    // Adds what one more worker counted at the node.
    fn add(&mut self, counts: &OperatorCounts) {
        self.left = self.left.saturating_add(counts.left);
        self.gave = self.gave.saturating_add(counts.gave);
        self.morsels = self.morsels.saturating_add(counts.morsels);
        self.packets = self.packets.saturating_add(counts.packets);
        self.workers = self.workers.saturating_add(1);
    }

    // Adds what a worker counted at a node, if it has that.
    fn add_worker(&mut self, worker: &WorkerCounts, node: u32) {
        for line in worker.nodes.as_slice() {
            if line.node == node {
                self.add(&line.counts);
            }
        }
    }
}

// Adds what these workers counted at a node, as `4 4 4 0 by 3`.
fn push_totals(text: &mut String, workers: &[WorkerCounts], node: u32) -> Result<(), AllocError> {
    let mut totals = Totals {
        left: 0,
        gave: 0,
        morsels: 0,
        packets: 0,
        workers: 0,
    };
    for worker in workers {
        totals.add_worker(worker, node);
    }
    write!(
        text,
        "{} {} {} {} by {};",
        totals.left, totals.gave, totals.morsels, totals.packets, totals.workers
    )
}

// The packets that all workers put, and the steps in which some worker waited.
fn steps_of(workers: &[WorkerCounts]) -> (u64, u64) {
    let mut puts = 0u64;
    let mut waits = 0u64;
    for worker in workers {
        puts = puts.saturating_add(worker.steps.puts);
        waits = waits.saturating_add(worker.steps.waits);
    }
    (puts, waits)
}

/// Adds what a word asks for: the packets that all workers put, the steps in which they waited, `1` if there were any, how many
/// workers there are, or else what they counted at the node with this number.
pub fn push_count(text: &mut String, workers: &[WorkerCounts], word: &str) -> Result<(), Fail> {
    let (puts, waits) = steps_of(workers);
    match word {
        "puts" => Ok(write!(text, "{puts};")?),
        "waits" => Ok(write!(text, "{waits};")?),
        "waited" => Ok(write!(text, "{};", waits.min(1))?),
        "workers" => Ok(write!(text, "{};", workers.len())?),
        node => Ok(push_totals(text, workers, node.parse::<u32>()?)?),
    }
}
