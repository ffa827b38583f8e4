//! How many rounds a run of a plan needs at most.

ghost use Rattle.std.specs.Prelude.{◌≡◌, ◌+◌, ◌*◌, ℕ, List};
ghost use Rattle.std.specs.List.{All};
ghost use Rattle.vx_rows_values.specs.Limits.{max_group_workers};
ghost use Rattle.vx_rows_values.specs.Values.{Row};
ghost use Rattle.vx_plan_nodes.specs.Outline.{plan_of};
ghost use Rattle.vx_plan_nodes.specs.TypedView.{plan as whole_plan};
ghost use Rattle.vx_plan_nodes.specs.Workers.{IsWithin, worker_group_at};
ghost use Rattle.vx_exec_layout.specs.Needed.{capped, most_rows, most_turns, steps_below as steps_by_definition, rounds_needed as rounds_by_definition, AreSizesOf};

use crate::worker_groups::workers_of;
use vx_plan_nodes::{Binary, TypedNode, TypedPlan};

// What one worker may have at a node and do for it. In place of a number that 64 bits do not hold stands the largest that they do, here and below.
#[derive(Clone, Copy)]
struct Work {
    rows: u64,
    turns: u64,
}

fn sum(a: u64, b: u64) -> u64
    ensures { result ≡ capped (a + b) }
{
    a.saturating_add(b)
}

fn product(a: u64, b: u64) -> u64
    ensures { result ≡ capped (a * b) }
{
    a.saturating_mul(b)
}

// The work of one worker at a node over two inputs, which may have so many rows.
fn both_work(rows: u64, left: Work, right: Work) -> Work
    ensures rows { result.rows ≡ rows }
    ensures turns { result.turns ≡ capped (2 * (left.rows + right.rows) + 2 + (left.turns + right.turns)) }
{
    let read = sum(left.rows, right.rows);
    let turns = sum(left.turns, right.turns);
    Work {
        rows,
        turns: sum(sum(product(2, read), 2), turns),
    }
}

// The work of one worker at a node, and for the nodes from there down to its exchanges. `rows` says how many rows each relation has.
#[tactic(auto, using(crate::proofs::Capped::capped_product))]
fn work_of(node: &TypedNode, worker_groups: &[u32], rows: &[u64]) -> Work
    requires { All (IsWithin 1 max_group_workers) worker_groups.now }
    ensures rows { (db : ℕ → List Row) → AreSizesOf db rows.now → result.rows ≡ capped (most_rows db (worker_group_at worker_groups.now) (plan_of node.now)) }
    ensures turns { (db : ℕ → List Row) → AreSizesOf db rows.now → result.turns ≡ capped (most_turns db (worker_group_at worker_groups.now) (plan_of node.now)) }
{
    match node {
        TypedNode::Scan(_, scan) => {
            let count = rows.get(scan.relation).copied().unwrap_or(0);
            Work {
                rows: count,
                turns: count,
            }
        }
        TypedNode::Unary(_, _, input) => {
            let below = work_of(input, worker_groups, rows);
            Work {
                rows: below.rows,
                turns: sum(below.rows, below.turns),
            }
        }
        TypedNode::Binary(_, binary, left, right) => {
            let left = work_of(left, worker_groups, rows);
            let right = work_of(right, worker_groups, rows);
            match binary {
                Binary::Union => both_work(sum(left.rows, right.rows), left, right),
                Binary::HashJoin(_) | Binary::MergeJoin(_, _) => {
                    both_work(product(left.rows, right.rows), left, right)
                }
                Binary::SemiJoin(_, _) | Binary::AntiJoin(_, _) => {
                    both_work(left.rows, left, right)
                }
            }
        }
        TypedNode::Exchange(_, _, input) => {
            let producers = u64::from(workers_of(worker_groups, input.size()));
            let below = work_of(input, worker_groups, rows);
            Work {
                rows: product(producers, below.rows),
                turns: product(producers, sum(below.rows, 1)),
            }
        }
    }
}

// The most steps by which a worker with this `work` goes on that sends to `consumers` consumers.
#[tactic(auto, using(crate::proofs::Capped::capped_steps))]
fn steps_of(consumers: u64, work: Work) -> u64
    ensures { (rows turns : ℕ) → work.rows ≡ capped rows → work.turns ≡ capped turns → result ≡ capped ((consumers + 1) * rows + turns + (2 * consumers + 4)) }
{
    let sent = product(sum(consumers, 1), work.rows);
    sum(sum(sent, work.turns), sum(product(2, consumers), 4))
}

// The steps of `workers` workers with `each` steps each, and the steps of all `others`.
#[tactic(auto, using(crate::proofs::Capped::capped_with_others))]
fn with_others(workers: u32, each: u64, others: u64) -> u64
    ensures { (steps rest : ℕ) → each ≡ capped steps → others ≡ capped rest → result ≡ capped (workers * steps + rest) }
{
    sum(product(u64::from(workers), each), others)
}

// Those of all workers below the top fragment.
fn steps_below(node: &TypedNode, worker_groups: &[u32], rows: &[u64]) -> u64
    requires { All (IsWithin 1 max_group_workers) worker_groups.now }
    ensures { (db : ℕ → List Row) → AreSizesOf db rows.now → result ≡ capped (steps_by_definition db (worker_group_at worker_groups.now) (plan_of node.now)) }
{
    match node {
        TypedNode::Scan(_, _) => 0,
        TypedNode::Unary(_, _, input) => steps_below(input, worker_groups, rows),
        TypedNode::Binary(_, _, left, right) => {
            let left = steps_below(left, worker_groups, rows);
            sum(left, steps_below(right, worker_groups, rows))
        }
        TypedNode::Exchange(_, exchange, input) => {
            let producers = workers_of(worker_groups, input.size());
            let consumers = u64::from(workers_of(worker_groups, exchange.kind.target()));
            let each = steps_of(consumers, work_of(input, worker_groups, rows));
            with_others(producers, each, steps_below(input, worker_groups, rows))
        }
    }
}

/// How many rounds a run of a plan needs at most: with as many it does not end unfinished. `rows` says how many rows each relation has, by its
/// number, and `worker_groups` how many workers each size name has. A number that 64 bits do not hold comes back as `u64::MAX`.
#[tactic(auto, using(crate::proofs::Capped::capped_sum))]
pub fn rounds_needed(plan: &TypedPlan, worker_groups: &[u32], rows: &[u64]) -> u64
    requires { All (IsWithin 1 max_group_workers) worker_groups.now }
    ensures { (db : ℕ → List Row) → AreSizesOf db rows.now → result ≡ capped (rounds_by_definition db (worker_group_at worker_groups.now) (whole_plan plan.now)) }
{
    let root = plan.root();
    let own = steps_of(0, work_of(root, worker_groups, rows));
    sum(own, steps_below(root, worker_groups, rows))
}
