//! The layout of a run, found in one walk over its plan.

ghost use Rattle.std.specs.Prelude.{◌≡◌, ◌<◌, ◌≤◌, ◌+◌, ◌*◌, ◌++◌, ◌^◌, IfOk, OnOk};
ghost use Rattle.std.specs.List.{All};
ghost use Rattle.vx_plan_nodes.specs.Numbering.{nodes};
ghost use Rattle.vx_plan_nodes.specs.Outline.{plan_of, size_of};
ghost use Rattle.vx_plan_nodes.specs.TypedView.{plan as whole_plan};
ghost use Rattle.vx_plan_nodes.specs.Streams.{workers};
ghost use Rattle.vx_plan_nodes.specs.Workers.{workers_below, IsWithin, worker_group_at};
ghost use Rattle.vx_exec_layout.specs.Layout.{spans_of};
ghost use Rattle.vx_rows_values.specs.Limits.{max_group_workers};

use crate::span::{ExchangeSpan, NodeSpan, ScanSpan};
use crate::worker_groups::workers_of;
use std::alloc::{AllocError, Global};
use vx_plan_nodes::{ScanNode, Size, TypedNode, TypedPlan};

/// Which workers the nodes of a plan have in a run. It is made once, before the first step. Rings, decks and hands are made
/// by it, the relation of a morsel is found in it, and what threads gave back is put together by it.
pub struct Layout {
    // The workers of each size name, by its number.
    worker_groups: Vec<u32>,
    // By node number.
    spans: Vec<NodeSpan>,
    // How many workers there are.
    workers: u32,
    ghost within: { All (IsWithin 1 max_group_workers) worker_groups.items },
}

impl Drop for Layout {
    fn drop(self) {
        let Layout {
            worker_groups: _,
            spans: _,
            workers: _,
        } = self;
    }
}

fn scan_span(worker_groups: &[u32], number: u32, scan: &ScanNode, top: usize) -> NodeSpan
    requires { All (IsWithin 1 max_group_workers) worker_groups.now }
    ensures { result ≡ NodeSpan.Scan (record { number = number; relation = scan.now.relation; is_shared = scan.now.shared; first = top; workers = workers (worker_group_at worker_groups.now) (size_of scan.now.size) }) }
{
    NodeSpan::Scan(ScanSpan {
        number,
        relation: scan.relation,
        is_shared: scan.shared,
        first: top,
        workers: workers_of(worker_groups, scan.size),
    })
}

// Adds the nodes from here down, in preorder. The workers of the node's own fragment begin with number `top`, those of the
// fragments below it with number `next`. Returns the number behind them all.
fn add_spans(
    spans: &mut Vec<NodeSpan>,
    worker_groups: &[u32],
    node: &TypedNode,
    top: usize,
    next: usize,
) -> Result<usize, AllocError>
    requires within { All (IsWithin 1 max_group_workers) worker_groups.now }
    requires few { next + max_group_workers * nodes (plan_of node.now) < 2 ^ 32 }
    ensures next { IfOk result (λ n. n ≡ next + workers_below (worker_group_at worker_groups.now) (plan_of node.now)) }
    ensures bound { IfOk result (λ n. n ≤ next + max_group_workers * nodes (plan_of node.now)) }
    ensures added { OnOk result (spans.new.items ≡ spans.old.items ++ spans_of (worker_group_at worker_groups.now) (plan_of node.now) top next) }
{
    match node {
        TypedNode::Scan(head, scan) => {
            spans.push(scan_span(worker_groups, head.number, scan, top))?;
            Ok(next)
        }
        TypedNode::Unary(_, _, input) => {
            spans.push(NodeSpan::Inner)?;
            add_spans(spans, worker_groups, input, top, next)
        }
        TypedNode::Binary(_, _, left, right) => {
            spans.push(NodeSpan::Inner)?;
            let behind = add_spans(spans, worker_groups, left, top, next)?;
            add_spans(spans, worker_groups, right, top, behind)
        }
        TypedNode::Exchange(head, exchange, input) => {
            let producers = workers_of(worker_groups, input.size());
            spans.push(NodeSpan::Exchange(ExchangeSpan {
                number: head.number,
                below: next,
                producers,
                above: top,
                consumers: workers_of(worker_groups, exchange.kind.target()),
            }))?;
            add_spans(spans, worker_groups, input, next, next + producers as usize)
        }
    }
}

impl Layout {
    /// The layout of a plan. `worker_groups` holds the number of workers of each size name, by its number.
    pub fn of(
        alloc: Global,
        worker_groups: Vec<u32>,
        plan: &TypedPlan,
    ) -> Result<Layout, AllocError>
        requires { All (IsWithin 1 max_group_workers) worker_groups.items }
        ensures spans { IfOk result (λ l. l.spans.items ≡ spans_of (worker_group_at worker_groups.items) (whole_plan plan.now) 0 1) }
        ensures workers { IfOk result (λ l. l.workers ≡ 1 + workers_below (worker_group_at worker_groups.items) (whole_plan plan.now)) }
        ensures worker_groups { IfOk result (λ l. l.worker_groups.items ≡ worker_groups.items) }
    {
        let mut spans = Vec::new(alloc);
        let workers = add_spans(&mut spans, worker_groups.as_slice(), plan.root(), 0, 1)? as u32;
        Ok(Layout {
            worker_groups,
            spans,
            workers,
        })
    }

    /// The workers of each size name, by its number.
    pub fn worker_groups(&self) -> &[u32]
        ensures value { result.now ≡ self.now.worker_groups.items }
        ensures within { All (IsWithin 1 max_group_workers) result.now }
    {
        self.worker_groups.as_slice()
    }

    /// How many workers a size has.
    pub fn workers_of(&self, size: Size) -> u32
        ensures count { result ≡ workers (worker_group_at self.now.worker_groups.items) (size_of size) }
        ensures some { 1 ≤ result }
        ensures few { result ≤ max_group_workers }
    {
        workers_of(self.worker_groups.as_slice(), size)
    }

    /// How many workers the plan has: one at its root, and those below.
    pub fn workers(&self) -> u32
        ensures { result ≡ self.now.workers }
    {
        self.workers
    }

    /// What each node is to the workers, by its number.
    pub fn spans(&self) -> &[NodeSpan]
        ensures { result.now ≡ self.now.spans.items }
    {
        self.spans.as_slice()
    }
}
