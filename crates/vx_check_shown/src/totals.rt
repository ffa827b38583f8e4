//! Whether an order of a node is total.

ghost use Rattle.std.specs.Prelude.{◌≡◌, ℕ, ◌||◌};
ghost use Rattle.std.specs.List.{list_all, list_any};
ghost use Rattle.vx_catalog_relations.specs.Relation.{Relation};
ghost use Rattle.vx_rows_values.specs.Order.{order_columns};
ghost use Rattle.vx_plan_nodes.specs.Outline.{claim_of, outline_of, plan_of};
ghost use Rattle.vx_plan_nodes.specs.Outputs.{HasOutputs};
ghost use Rattle.vx_plan_nodes.specs.Types.{width};
ghost use Rattle.vx_plan_facts.specs.ColumnSetView.{set_of_columns};
ghost use Rattle.vx_plan_facts.specs.Determined.{determined};
ghost use Rattle.vx_plan_facts.specs.Following.{total_follows};
ghost use Rattle.vx_plan_facts.specs.KnownView.{IsKnownOf};
ghost use Rattle.vx_check_rules.specs.Rules.{covers, within, numbers_below};
ghost use Rattle.vx_check_shown.specs.Found.{IsClaimOf};

use vx_check_rules::is_total;
use vx_plan_facts::{ColumnSet, KnownColumns};
use vx_plan_nodes::{Claim, TypedNode, output_types};

// Whether all columns of one of the keys are in the set.
fn is_key_within(keys: &[Vec<usize>], set: &ColumnSet) -> bool
    ensures { result ≡ list_any (λ k. list_all (set_of_columns set.now) k.items) keys.now }
{
    keys.iter().any(|key| set.contains_all(key.as_slice()))
}

// Whether the order of the claim determines all columns of one of its keys, or all columns of the node.
fn does_total_follow(node: &TypedNode, known: &mut KnownColumns<'_>, claim: &Claim) -> bool
    requires { (catalog : ℕ → Relation) × IsClaimOf catalog known.old (plan_of node.now) (claim_of claim.now) }
    ensures { (catalog : ℕ → Relation) → IsClaimOf catalog known.old (plan_of node.now) (claim_of claim.now)
        → result ≡ total_follows (width catalog (plan_of node.now)) (determined catalog (plan_of node.now)) (claim_of claim.now).keys (order_columns (claim_of claim.now).order) }
{
    let width = known.facts_of(node).width();
    let found = known.determined(node, &ColumnSet::of_order(claim.order.as_slice()));
    if is_key_within(claim.keys.as_slice(), &found) {
        return true;
    }
    ColumnSet::first(width).is_within(&found)
}

/// Whether the order of a claim for the node contains all columns of one of its keys or all of the node, or determines them.
pub(crate) fn is_claim_total(node: &TypedNode, known: &mut KnownColumns<'_>, claim: &Claim) -> bool
    requires { (catalog : ℕ → Relation) × IsClaimOf catalog known.old (plan_of node.now) (claim_of claim.now) }
    ensures { (catalog : ℕ → Relation) → IsClaimOf catalog known.old (plan_of node.now) (claim_of claim.now) → HasOutputs catalog (outline_of node.now)
        → result ≡ ((covers (claim_of claim.now).keys (order_columns (claim_of claim.now).order) || within (numbers_below (width catalog (plan_of node.now))) (order_columns (claim_of claim.now).order))
        || total_follows (width catalog (plan_of node.now)) (determined catalog (plan_of node.now)) (claim_of claim.now).keys (order_columns (claim_of claim.now).order)) }
{
    if is_total(claim, output_types(node).len()) {
        return true;
    }
    does_total_follow(node, known, claim)
}
