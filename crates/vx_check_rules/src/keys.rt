//! The keys that a node shows.

ghost use Rattle.std.specs.Prelude.{◌≡◌, true};
ghost use Rattle.vx_catalog_relations.specs.Catalog.{relation_at};
ghost use Rattle.vx_plan_nodes.specs.Outline.{outline_of, plan_of};
ghost use Rattle.vx_plan_nodes.specs.Outputs.{HasOutputs};
ghost use Rattle.vx_check_rules.specs.Rules.{keys_shown};
ghost use Rattle.vx_check_rules.specs.Exactly.{keys_name_columns};

use crate::keyed::{node_keyed, show_key};
use crate::nodes::claimed_keys;
use vx_catalog_relations::Catalog;
use vx_plan_nodes::TypedNode;

/// Whether each of the node's claimed keys, which name its columns, is shown: K8.
pub fn are_keys_shown(catalog: &Catalog, node: &TypedNode) -> bool
    requires outputs { HasOutputs (relation_at catalog.now) (outline_of node.now) }
    requires keys { keys_name_columns (relation_at catalog.now) (plan_of node.now) ≡ true }
    ensures { result ≡ keys_shown (relation_at catalog.now) (plan_of node.now) }
{
    let keyed = node_keyed(catalog, node);
    let keys = claimed_keys(node);
    for key in keys {
        if !show_key(&keyed, key.as_slice()) {
            return false;
        }
    }
    true
}
