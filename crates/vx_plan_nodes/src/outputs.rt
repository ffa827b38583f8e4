//! What a node says of its output.

ghost use Rattle.std.specs.Prelude.{◌≡◌, ℕ};
ghost use Rattle.vx_catalog_relations.specs.Relation.{Relation};
ghost use Rattle.vx_plan_nodes.specs.Outline.{outline_of, plan_of};
ghost use Rattle.vx_plan_nodes.specs.Types.{types_of};
ghost use Rattle.vx_plan_nodes.specs.Outputs.{HasOutputs};

use crate::typed::TypedNode;
use vx_rows_values::ColType;

/// The types of the columns of a node's output, as the node says them. In a typed plan they are those that the
/// operators at the node and below it give.
pub fn output_types(node: &TypedNode) -> &[ColType]
    ensures { (catalog : ℕ → Relation) → HasOutputs catalog (outline_of node.now) → result.now ≡ types_of catalog (plan_of node.now) }
{
    node.head().columns.types.as_slice()
}
