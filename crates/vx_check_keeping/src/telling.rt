//! Whether the claims of a plan tell at least as much as those of another one.

ghost use Rattle.std.specs.Prelude.{◌≡◌, ℕ, true, ◌||◌, map, IfOk};
ghost use Rattle.std.specs.List.{list_all, list_any};
ghost use Rattle.vx_catalog_relations.specs.Relation.{Relation};
ghost use Rattle.vx_catalog_relations.specs.Catalog.{relation_at, all_below};
ghost use Rattle.vx_plan_nodes.specs.Plan.{claim, size, is_one};
ghost use Rattle.vx_plan_nodes.specs.Outline.{part_of, plan_of};
ghost use Rattle.vx_plan_nodes.specs.Types.{width, part_columns};
ghost use Rattle.vx_plan_nodes.specs.TypedView.{scope, plan as whole_plan};
ghost use Rattle.vx_plan_facts.specs.ColumnSetView.{set_of_columns};
ghost use Rattle.vx_plan_facts.specs.Determined.{determined};
ghost use Rattle.vx_plan_facts.specs.Equal.{equal_at};
ghost use Rattle.vx_plan_facts.specs.Following.{key_follows};
ghost use Rattle.vx_plan_facts.specs.KnownView.{IsKnownOf};
ghost use Rattle.vx_check_rules.specs.KnownNode.{StaysKnown};
ghost use Rattle.vx_check_options.specs.Placed.{bare};
ghost use Rattle.vx_check_shown.specs.PartLaws.{told};
ghost use Rattle.vx_check_keeping.specs.Telling.{tells_here, tells_derived, IsBesideKnown};

use std::alloc::{AllocError, Global};
use vx_check_rules::{
    OrderSeen, claimed_keys, claimed_order, claimed_part, gives, has_one_worker, is_same_equally,
    order_follows, seen,
};
use vx_plan_facts::{ColumnSet, KnownColumns, known_columns};
use vx_plan_nodes::{Part, TypedNode, TypedPlan};

// Whether the node has one worker, or its part tells the other one: it gives it, or is routed alike on equal columns.
fn does_part_tell(node: &TypedNode, known: &KnownColumns<'_>, wanted: &Part) -> bool
    requires { (catalog : ℕ → Relation) × IsKnownOf catalog known.now (plan_of node.now) }
    ensures { (catalog : ℕ → Relation) → IsKnownOf catalog known.now (plan_of node.now) → all_below (width catalog (plan_of node.now)) (part_columns (part_of wanted.now)) ≡ true
        → result ≡ (is_one (size (plan_of node.now)) || told (equal_at catalog (plan_of node.now)) (claim (plan_of node.now)).part (part_of wanted.now)) }
{
    if has_one_worker(node) {
        return true;
    }
    let part = claimed_part(node);
    gives(part, wanted) || is_same_equally(known.facts_of(node), seen(part), seen(wanted))
}

// Whether all columns of one of the keys are in the set.
fn is_key_within(keys: &[Vec<usize>], set: &ColumnSet) -> bool
    ensures { result ≡ list_any (λ k. list_all (set_of_columns set.now) k.items) keys.now }
{
    keys.iter().any(|key| set.contains_all(key.as_slice()))
}

// Whether the key determines all columns of a key that the node claims.
fn does_key_follow(node: &TypedNode, known: &mut KnownColumns<'_>, key: &[usize]) -> bool
    requires { (catalog : ℕ → Relation) × IsKnownOf catalog known.old (plan_of node.now) }
    ensures follows { (catalog : ℕ → Relation) → IsKnownOf catalog known.old (plan_of node.now)
        → result ≡ key_follows (determined catalog (plan_of node.now)) (claim (plan_of node.now)).keys key.now }
    ensures kept { StaysKnown known.old known.new (plan_of node.now) }
{
    let found = known.determined(node, &ColumnSet::of(key));
    is_key_within(claimed_keys(node), &found)
}

// The same of each of the keys.
fn do_keys_follow(node: &TypedNode, known: &mut KnownColumns<'_>, keys: &[Vec<usize>]) -> bool
    requires { (catalog : ℕ → Relation) × IsKnownOf catalog known.old (plan_of node.now) }
    ensures follow { (catalog : ℕ → Relation) → IsKnownOf catalog known.old (plan_of node.now)
        → result ≡ list_all (key_follows (determined catalog (plan_of node.now)) (claim (plan_of node.now)).keys) (map (λ k. k.items) keys.now) }
    ensures kept { StaysKnown known.old known.new (plan_of node.now) }
{
    for key in keys {
        if !does_key_follow(node, known, key.as_slice()) {
            return false;
        }
    }
    true
}

// Whether the claim of a node tells at least as much as that of the other one.
fn does_tell_here(node: &TypedNode, other: &TypedNode, known: &mut KnownColumns<'_>) -> bool
    requires { (catalog : ℕ → Relation) × IsBesideKnown catalog known.old (plan_of node.now) (plan_of other.now) }
    ensures tells { (catalog : ℕ → Relation) → IsBesideKnown catalog known.old (plan_of node.now) (plan_of other.now)
        → result ≡ tells_here catalog (plan_of node.now) (plan_of other.now) }
    ensures kept { StaysKnown known.old known.new (plan_of node.now) }
{
    let part = claimed_part(other);
    if !does_part_tell(node, known, part) {
        return false;
    }
    let given = claimed_order(node);
    let wanted = claimed_order(other);
    if !order_follows(
        node,
        known,
        OrderSeen::Listed(given),
        OrderSeen::Listed(wanted),
    ) {
        return false;
    }
    do_keys_follow(node, known, claimed_keys(other))
}

// The same at all nodes up to this one.
fn do_nodes_tell(node: &TypedNode, other: &TypedNode, known: &mut KnownColumns<'_>) -> bool
    requires { (catalog : ℕ → Relation) × IsBesideKnown catalog known.old (plan_of node.now) (plan_of other.now) }
    ensures tell { (catalog : ℕ → Relation) → IsBesideKnown catalog known.old (plan_of node.now) (plan_of other.now)
        → result ≡ tells_derived catalog (plan_of node.now) (plan_of other.now) }
    ensures kept { StaysKnown known.old known.new (plan_of node.now) }
{
    match (node, other) {
        (TypedNode::Scan(_, _), TypedNode::Scan(_, _)) => does_tell_here(node, other, known),
        (TypedNode::Unary(_, _, input), TypedNode::Unary(_, _, below)) => {
            do_nodes_tell(input, below, known) && does_tell_here(node, other, known)
        }
        (TypedNode::Binary(_, _, left, right), TypedNode::Binary(_, _, first, second)) => {
            do_nodes_tell(left, first, known)
                && do_nodes_tell(right, second, known)
                && does_tell_here(node, other, known)
        }
        (TypedNode::Exchange(_, _, input), TypedNode::Exchange(_, _, below)) => {
            do_nodes_tell(input, below, known) && does_tell_here(node, other, known)
        }
        _ => false,
    }
}

/// Whether the claims of a plan tell at least as much as those of another one that has the same nodes, by what is known of
/// the columns of the first.
pub fn does_tell(alloc: Global, plan: &TypedPlan, other: &TypedPlan) -> Result<bool, AllocError>
    requires catalog { (scope other.now).catalog ≡ (scope plan.now).catalog }
    requires same { bare (whole_plan plan.now) ≡ bare (whole_plan other.now) }
    ensures { IfOk result (λ b. b ≡ tells_derived (relation_at (scope plan.now).catalog) (whole_plan plan.now) (whole_plan other.now)) }
{
    let mut known = known_columns(alloc, plan)?;
    let root = plan.root();
    let beside = other.root();
    Ok(do_nodes_tell(root, beside, &mut known))
}
