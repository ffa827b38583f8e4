//! What a node claims, and how many workers it has.

ghost use Rattle.std.specs.Prelude.{◌≡◌, ℕ, map};
ghost use Rattle.vx_catalog_relations.specs.Relation.{Relation};
ghost use Rattle.vx_plan_nodes.specs.Plan.{claim, size, size_eq, is_one};
ghost use Rattle.vx_plan_nodes.specs.Outline.{part_of, outline_of, plan_of};
ghost use Rattle.vx_plan_nodes.specs.Types.{width};
ghost use Rattle.vx_plan_nodes.specs.Outputs.{HasOutputs};

use vx_plan_nodes::{Part, Size, TypedNode, output_types};
use vx_rows_values::OrderEntry;

/// The part that the node's note claims.
pub fn claimed_part(node: &TypedNode) -> &Part
    ensures { part_of result.now ≡ (claim (plan_of node.now)).part }
{
    &node.head().claim.part
}

/// The order that the node's note claims.
pub fn claimed_order(node: &TypedNode) -> &[OrderEntry]
    ensures { result.now ≡ (claim (plan_of node.now)).order }
{
    node.head().claim.order.as_slice()
}

/// The keys that the node's note claims.
pub fn claimed_keys(node: &TypedNode) -> &[Vec<usize>]
    ensures { map (λ k. k.items) result.now ≡ (claim (plan_of node.now)).keys }
{
    node.head().claim.keys.as_slice()
}

/// How many columns the node's output has.
pub fn width_of(node: &TypedNode) -> usize
    ensures { (catalog : ℕ → Relation) → HasOutputs catalog (outline_of node.now) → result ≡ width catalog (plan_of node.now) }
{
    output_types(node).len()
}

/// Whether the node has one worker.
pub fn has_one_worker(node: &TypedNode) -> bool
    ensures { result ≡ is_one (size (plan_of node.now)) }
{
    match node.size() {
        Size::One => true,
        Size::Group(_) => false,
    }
}

/// Whether the nodes have the same size name.
pub fn have_same_size(node: &TypedNode, other: &TypedNode) -> bool
    ensures { result ≡ size_eq (size (plan_of node.now)) (size (plan_of other.now)) }
{
    match (node.size(), other.size()) {
        (Size::One, Size::One) => true,
        (Size::Group(name), Size::Group(other)) => name == other,
        _ => false,
    }
}
