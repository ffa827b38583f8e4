//! What the workers of a run counted, read off them.

ghost use Rattle.std.specs.Prelude.{◌≡◌, ◌++◌, IfOk, OnOk, true};
ghost use Rattle.vx_exec_setup.specs.Counts.{is_wanted, counts_in};
ghost use Rattle.vx_exec.specs.Counts.{line_of, lines_of, IsCountOf, AreCountsOf};

use std::alloc::{AllocError, Global};
use vx_exec_operators::{Destination, Operator};
use vx_exec_setup::{NodeCounts, RunCounts, WorkerCounts};
use vx_plan_nodes::PlanFunctions;
use vx_worker::{Tree, Worker};

// What an operator counted, under its node's number.
fn line_of<F: PlanFunctions + Copy>(operator: &Operator<F>) -> NodeCounts
    ensures { result ≡ line_of operator.now }
{
    NodeCounts {
        node: operator.node(),
        counts: operator.counts(),
    }
}

// Adds what each operator of a tree counted, in preorder.
fn add_lines<F: PlanFunctions + Copy>(
    lines: &mut Vec<NodeCounts>,
    tree: &Tree<Operator<F>>,
) -> Result<(), AllocError>
    ensures { OnOk result (lines.new.items ≡ lines.old.items ++ lines_of tree.now) }
{
    match tree {
        Tree::Leaf(_, operator) => {
            lines.push(line_of(operator))?;
            return Ok(());
        }
        Tree::One(operator, below) => {
            lines.push(line_of(operator))?;
            return add_lines(lines, below);
        }
        Tree::Two(operator, left, right) => {
            lines.push(line_of(operator))?;
            add_lines(lines, left)?;
            return add_lines(lines, right);
        }
    }
}

// What a worker counted.
fn count_of<F: PlanFunctions + Copy>(
    alloc: Global,
    worker: &Worker<Operator<F>, Destination>,
) -> Result<WorkerCounts, AllocError>
    ensures { IfOk result (IsCountOf worker.now) }
{
    let mut nodes = Vec::new(alloc);
    add_lines(&mut nodes, worker.tree())?;
    Ok(WorkerCounts {
        steps: worker.counts(),
        nodes,
    })
}

// What each worker counted, in their order.
fn counts_of<F: PlanFunctions + Copy>(
    alloc: Global,
    workers: &[Worker<Operator<F>, Destination>],
) -> Result<Vec<WorkerCounts>, AllocError>
    ensures { IfOk result (λ v. AreCountsOf workers.now v.items) }
{
    let mut counts = Vec::with_capacity(alloc, workers.len())?;
    for worker in workers {
        counts.push(count_of(alloc, worker)?)?;
    }
    Ok(counts)
}

/// Keeps what each worker of a run counted, if that is wanted.
pub fn keep_counts<F: PlanFunctions + Copy>(
    counts: &mut RunCounts,
    alloc: Global,
    workers: &[Worker<Operator<F>, Destination>],
) -> Result<(), AllocError>
    ensures wanted { is_wanted counts.new ≡ is_wanted counts.old }
    ensures counts { OnOk result (is_wanted counts.old ≡ true → AreCountsOf workers.now (counts_in counts.new)) }
{
    if counts.is_wanted() {
        counts.keep(counts_of(alloc, workers)?);
    }
    Ok(())
}
