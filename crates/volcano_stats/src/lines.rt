//! The lines of a run's counts: one for each node in each worker.

ghost use Rattle.std.specs.Prelude.{◌≡◌, ◌++◌, IfOk, OnOk};
ghost use Rattle.volcano_stats.specs.Lines.{line_of, other_waits, worker_lines, lines_of};

use std::alloc::{AllocError, Global};
use vx_exec_setup::{NodeCounts, OperatorCounts, WorkerCounts};

/// One node of a plan in one worker of a run.
#[derive(Clone, Copy, PartialEq, Eq)]
pub struct Line {
    /// The number of the node.
    pub node: u32,
    /// The number of the worker among all of the run.
    pub worker: usize,
    /// What the operator counted.
    pub counts: OperatorCounts,
    /// The packets that the worker put, at the top node of its fragment, and 0 at others.
    pub puts: u64,
    /// The steps in which the worker waited, but for no packet, at the top node of its fragment, and 0 at others: a port had no room.
    pub full: u64,
}

// The line of a node, with what its worker counted of its own steps.
fn line_of(worker: usize, puts: u64, full: u64, node: &NodeCounts) -> Line
    ensures { result ≡ line_of worker puts full node.now }
{
    Line {
        node: node.node,
        worker,
        counts: node.counts,
        puts,
        full,
    }
}

// The number `waits` without the waits for a packet that one of `nodes` wanted.
fn other_waits(waits: u64, nodes: &[NodeCounts]) -> u64
    ensures { result ≡ other_waits waits nodes.now }
{
    let mut left = waits;
    for node in nodes {
        left = left.saturating_sub(node.counts.waits);
    }
    left
}

// Adds the lines of the worker with this number. That of its top node has what the worker counted of its own steps.
fn add_lines(lines: &mut Vec<Line>, number: usize, worker: &WorkerCounts) -> Result<(), AllocError>
    ensures { OnOk result (lines.new.items ≡ lines.old.items ++ worker_lines number worker.now) }
{
    let nodes = worker.nodes.as_slice();
    let mut puts = worker.steps.puts;
    let mut full = other_waits(worker.steps.waits, nodes);
    for node in nodes {
        lines.push(line_of(number, puts, full, node))?;
        puts = 0;
        full = 0;
    }
    Ok(())
}

/// A line for each node in each worker, the workers in the order of their numbers and the nodes of each in preorder.
pub fn lines_of(alloc: Global, workers: &[WorkerCounts]) -> Result<Vec<Line>, AllocError>
    ensures { IfOk result (λ v. v.items ≡ lines_of workers.now) }
{
    let mut lines = Vec::new(alloc);
    for (number, worker) in workers.iter().enumerate() {
        add_lines(&mut lines, number, worker)?;
    }
    Ok(lines)
}
