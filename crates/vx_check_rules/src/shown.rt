//! The part that a node shows.

ghost use Rattle.std.specs.Prelude.{◌≡◌, ℕ};
ghost use Rattle.vx_catalog_relations.specs.Relation.{Relation};
ghost use Rattle.vx_plan_nodes.specs.Outline.{outline_of, plan_of};
ghost use Rattle.vx_plan_nodes.specs.Outputs.{HasOutputs};
ghost use Rattle.vx_check_rules.specs.Rules.{part_shown};

use crate::nodes::{claimed_part, has_one_worker};
use crate::ways::{show_part, ways_if_fit};
use vx_plan_nodes::TypedNode;

/// Whether the node's claimed part is shown: it has one worker, or one of the ways that it has if its inputs match gives
/// the part: K3.
pub fn is_part_shown(node: &TypedNode) -> bool
    ensures { (catalog : ℕ → Relation) → HasOutputs catalog (outline_of node.now) → result ≡ part_shown catalog (plan_of node.now) }
{
    has_one_worker(node) || show_part(&ways_if_fit(node), claimed_part(node))
}
