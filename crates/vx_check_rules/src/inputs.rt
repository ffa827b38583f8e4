//! What a node needs of its inputs' sizes and parts.

ghost use Rattle.std.specs.Prelude.{◌≡◌, ℕ};
ghost use Rattle.vx_catalog_relations.specs.Relation.{Relation};
ghost use Rattle.vx_plan_nodes.specs.Outline.{outline_of, plan_of};
ghost use Rattle.vx_plan_nodes.specs.Outputs.{HasOutputs};
ghost use Rattle.vx_check_rules.specs.Rules.{sizes_match, not_replicated, inputs_match};

use crate::nodes::{has_one_worker, have_same_size};
use crate::parts::has_part;
use crate::ways::{has_way, node_ways};
use vx_plan_nodes::{Part, TypedNode};

/// Whether the inputs of a join or a union have the same size name: K1.
pub fn do_sizes_match(node: &TypedNode) -> bool
    ensures { result ≡ sizes_match (plan_of node.now) }
{
    match node {
        TypedNode::Binary(_, _, left, right) => have_same_size(left, right),
        _ => true,
    }
}

/// Whether an exchange's input has each row once: K5.
pub fn is_not_replicated(node: &TypedNode) -> bool
    ensures { result ≡ not_replicated (plan_of node.now) }
{
    match node {
        TypedNode::Exchange(_, _, input) => has_part(input, &Part::Any),
        _ => true,
    }
}

/// Whether the inputs' parts are those that the operator needs, so that there is a way to a part, or the node has one
/// worker: K4.
pub fn do_inputs_match(node: &TypedNode) -> bool
    ensures { (catalog : ℕ → Relation) → HasOutputs catalog (outline_of node.now) → result ≡ inputs_match (plan_of node.now) }
{
    has_one_worker(node) || has_way(&node_ways(node))
}
