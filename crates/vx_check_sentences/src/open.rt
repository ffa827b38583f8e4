//! Nodes whose rows are parts of groups.

ghost use Rattle.std.specs.Prelude.{◌≡◌};
ghost use Rattle.vx_plan_nodes.specs.Outline.{plan_of};
ghost use Rattle.vx_plan_nodes.specs.Phases.{is_open};

use vx_plan_nodes::{Phase, SortPhase, TypedNode, Unary};

/// Whether a node is a partial group, or exchanges and partial sorts alone above one: a final group is to put its rows together.
pub fn is_open(node: &TypedNode) -> bool
    ensures { result ≡ is_open (plan_of node.now) }
{
    match node {
        TypedNode::Unary(_, Unary::Group(Phase::Partial, _, _), _) => true,
        TypedNode::Unary(_, Unary::Sort(SortPhase::Partial, _), input) => is_open(input),
        TypedNode::Exchange(_, _, input) => is_open(input),
        _ => false,
    }
}
