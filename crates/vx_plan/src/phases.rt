//! Groups in two phases: what a final group takes from its partial one, and what stands between the two.

ghost use Rattle.std.specs.Prelude.{◌≡◌, ◌<◌, ◌^◌, nat_lt, map, option_map, IfOk};
ghost use Rattle.std.specs.List.{list_all};
ghost use Rattle.vx_rows_values.specs.Order.{order_columns};
ghost use Rattle.vx_catalog_relations.specs.Catalog.{all_below};
ghost use Rattle.vx_plan_json.specs.Fault.{Gives};
ghost use Rattle.vx_plan_nodes.specs.Outline.{aggregate_of, outline_of};
ghost use Rattle.vx_plan_nodes.specs.Phases.{first_columns, merged, merging};
ghost use Rattle.vx_plan.specs.Resolve.{test_phase, parts_of, sorts_before};

use std::alloc::{AllocError, Global};
use vx_plan_json::PlanFault;
use vx_plan_nodes::{Aggregate, Phase, SortPhase, TypedNode, Unary};
use vx_rows_values::OrderEntry;

/// A partial group or a partial sort stands where groups are in parts.
#[tactic(auto, unfolding(crate::specs::Resolve::test_phase))]
pub fn test_phase(node: u32, fits: bool) -> Result<(), PlanFault>
    ensures { Gives (λ _. tt) result (test_phase node fits) }
{
    if !fits {
        return Err(PlanFault::PhaseMismatch { node });
    }
    Ok(())
}

/// The columns and the aggregates of the first node from here down that is neither an exchange nor a partial sort, if it is a
/// partial group.
pub fn parts_of(node: &TypedNode) -> Option<(&[usize], &[Aggregate])>
    ensures { option_map (λ g. (g.0.now, map aggregate_of g.1.now)) result ≡ parts_of (outline_of node.now) }
{
    match node {
        TypedNode::Unary(_, Unary::Group(Phase::Partial, by, aggregates), _) => {
            Some((by.as_slice(), aggregates.as_slice()))
        }
        TypedNode::Unary(_, Unary::Sort(SortPhase::Partial, _), input) => parts_of(input),
        TypedNode::Exchange(_, _, input) => parts_of(input),
        _ => None,
    }
}

fn all_before(end: usize, order: &[OrderEntry]) -> bool
    ensures { result ≡ list_all (λ e. nat_lt e.column end) order.now }
{
    order.iter().all(|entry| entry.column < end)
}

// Whether all columns of an order are before this one.
fn are_before(end: usize, order: &[OrderEntry]) -> bool
    ensures { result ≡ all_below end (order_columns order.now) }
{
    all_before(end, order)
}

/// Whether the partial sorts from here down to the first node that is neither an exchange nor such a sort are on columns before this one.
pub fn sorts_before(end: usize, node: &TypedNode) -> bool
    ensures { result ≡ sorts_before end (outline_of node.now) }
{
    match node {
        TypedNode::Unary(_, Unary::Sort(SortPhase::Partial, order), input) => {
            are_before(end, order.as_slice()) && sorts_before(end, input)
        }
        TypedNode::Exchange(_, _, input) => sorts_before(end, input),
        _ => true,
    }
}

/// The first `count` columns.
#[tactic(auto, using(crate::proofs::PhaseFacts::first_push))]
pub fn first_columns(alloc: Global, count: usize) -> Result<Vec<usize>, AllocError>
    ensures { IfOk result (λ v. v.items ≡ first_columns count) }
{
    let mut columns = Vec::new(alloc);
    for column in 0..count {
        columns.push(column)?;
    }
    Ok(columns)
}

// How a final group puts together the aggregate that its partial one gives in a column.
fn merging(column: usize, aggregate: Aggregate) -> Aggregate
    ensures { aggregate_of result ≡ merging column (aggregate_of aggregate) }
{
    match aggregate {
        Aggregate::Least(_) => Aggregate::Least(column),
        Aggregate::Greatest(_) => Aggregate::Greatest(column),
        Aggregate::Sum(_) | Aggregate::CountRows => Aggregate::Sum(column),
    }
}

/// The aggregates of a final group over a partial one that has this many columns before its aggregates.
#[tactic(auto, using(crate::proofs::PhaseFacts::merged_next))]
pub fn merged(
    alloc: Global,
    count: usize,
    aggregates: &[Aggregate],
) -> Result<Vec<Aggregate>, AllocError>
    requires { count < 2 ^ 63 }
    ensures { IfOk result (λ v. map aggregate_of v.items ≡ merged count (map aggregate_of aggregates.now)) }
{
    let mut found = Vec::new(alloc);
    for i in 0..aggregates.len() {
        let aggregate = &aggregates[i];
        found.push(merging(count + i, *aggregate))?;
    }
    Ok(found)
}
