//! Columns by the first of those that are equal to them.

ghost use Rattle.std.specs.Prelude.{◌≡◌, ℕ, ◌<◌, true, IfOk};
ghost use Rattle.vx_catalog_relations.specs.Relation.{Relation};
ghost use Rattle.vx_catalog_relations.specs.Catalog.{all_below};
ghost use Rattle.vx_plan_nodes.specs.Outline.{plan_of};
ghost use Rattle.vx_plan_nodes.specs.Types.{width};
ghost use Rattle.vx_plan_facts.specs.Equal.{equal_at};
ghost use Rattle.vx_plan_facts.specs.KnownView.{IsKnownOf};
ghost use Rattle.vx_check_rules.specs.KnownNode.{IsKeyOf};
ghost use Rattle.vx_check_shown.specs.Standing.{first_equal};
ghost use Rattle.vx_check_shown.specs.ShownKeys.{IsNamed};

use std::alloc::{AllocError, Global};
use vx_plan_facts::KnownColumns;
use vx_plan_nodes::TypedNode;

/// The first column of the node that is equal to this one.
pub(crate) fn first_equal(node: &TypedNode, known: &KnownColumns<'_>, column: usize) -> usize
    requires { (catalog : ℕ → Relation) × IsKnownOf catalog known.now (plan_of node.now) × (column < width catalog (plan_of node.now)) }
    ensures { (catalog : ℕ → Relation) → IsKnownOf catalog known.now (plan_of node.now) → column < width catalog (plan_of node.now)
        → result ≡ first_equal (width catalog (plan_of node.now)) (equal_at catalog (plan_of node.now)) column }
{
    known.facts_of(node).first_of(column)
}

/// The columns of a key by the first ones that are equal to them, each once.
pub(crate) fn named(
    alloc: Global,
    node: &TypedNode,
    known: &KnownColumns<'_>,
    key: &[usize],
) -> Result<Vec<usize>, AllocError>
    requires { (catalog : ℕ → Relation) × IsKeyOf catalog known.now (plan_of node.now) key.now }
    ensures { (catalog : ℕ → Relation) → IsKeyOf catalog known.now (plan_of node.now) key.now
        → IfOk result (λ v. IsNamed (width catalog (plan_of node.now)) (equal_at catalog (plan_of node.now)) key.now v.items) }
{
    let mut named = Vec::new(alloc);
    for column in key {
        let first = first_equal(node, known, *column);
        if !named.contains(&first) {
            named.push(first)?;
        }
    }
    Ok(named)
}
