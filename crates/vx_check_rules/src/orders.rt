//! Orders: what is needed of the inputs', and what is shown of the output's.

ghost use Rattle.std.specs.Prelude.{◌≡◌, ◌||◌, ℕ};
ghost use Rattle.vx_rows_values.specs.Order.{order_columns};
ghost use Rattle.vx_catalog_relations.specs.Relation.{Relation};
ghost use Rattle.vx_catalog_relations.specs.Catalog.{relation_at};
ghost use Rattle.vx_plan_nodes.specs.Outline.{claim_of, outline_of, plan_of};
ghost use Rattle.vx_check_rules.specs.Rules.{covers, within, numbers_below, order_given, first_rows_known, order_shown, is_total_order};
ghost use Rattle.vx_plan_nodes.specs.Outputs.{HasOutputs};

use crate::columns::ColumnsSeen;
use crate::keyed::{KeysSeen, are_covered};
use crate::nodes::{claimed_order, has_one_worker, width_of};
use crate::order_seen::OrderSeen;
use crate::sortings::{node_sortings, show_order};
use vx_catalog_relations::Catalog;
use vx_plan_nodes::{Binary, Claim, TypedNode, Unary};

/// Whether the orders of a merge join's inputs begin with the columns that it joins on, in its directions, and a merging
/// exchange's with the order that it merges on: K7.
pub fn is_order_given(node: &TypedNode) -> bool
    ensures { result ≡ order_given (plan_of node.now) }
{
    match node {
        TypedNode::Binary(_, Binary::MergeJoin(on, falls), left, right) => {
            OrderSeen::Lefts(on.as_slice(), falls.as_slice()).begin(claimed_order(left))
                && OrderSeen::Rights(on.as_slice(), falls.as_slice()).begin(claimed_order(right))
        }
        TypedNode::Exchange(_, exchange, input) => {
            OrderSeen::Listed(exchange.merge.as_slice()).begin(claimed_order(input))
        }
        _ => true,
    }
}

/// Whether the node's claimed order is shown, as an empty one always is: K6.
pub fn is_order_shown(catalog: &Catalog, node: &TypedNode) -> bool
    ensures { result ≡ order_shown (relation_at catalog.now) (plan_of node.now) }
{
    show_order(&node_sortings(catalog, node), claimed_order(node))
}

/// Whether the order of the claim contains all columns of one of its keys, or all `width` columns of an output.
pub fn is_total(claim: &Claim, width: usize) -> bool
    ensures { result ≡ (covers (claim_of claim.now).keys (order_columns (claim_of claim.now).order) || within (numbers_below width) (order_columns (claim_of claim.now).order)) }
{
    let order = ColumnsSeen::Ordered(claim.order.as_slice());
    are_covered(KeysSeen::Listed(claim.keys.as_slice()), order)
        || are_covered(KeysSeen::First(width), order)
}

/// Whether the node's claimed order contains all columns of a claimed key, or all output columns: K9.
pub fn is_order_total(node: &TypedNode) -> bool
    ensures { (catalog : ℕ → Relation) → HasOutputs catalog (outline_of node.now) → result ≡ is_total_order catalog (plan_of node.now) }
{
    is_total(&node.head().claim, width_of(node))
}

/// Whether a limit's input has one worker and a total order, so that its first rows are known: K11.
pub fn are_first_rows_known(node: &TypedNode) -> bool
    ensures { (catalog : ℕ → Relation) → HasOutputs catalog (outline_of node.now) → result ≡ first_rows_known catalog (plan_of node.now) }
{
    match node {
        TypedNode::Unary(_, Unary::Limit(_), input) => {
            has_one_worker(input) && is_order_total(input)
        }
        _ => true,
    }
}
