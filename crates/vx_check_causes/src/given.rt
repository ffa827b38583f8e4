//! Whether what a node claims follows from another claim of it.

ghost use Rattle.std.specs.Prelude.{◌≡◌, map};
ghost use Rattle.std.specs.List.{list_all};
ghost use Rattle.vx_plan_nodes.specs.Outline.{claim_of, plan_of};
ghost use Rattle.vx_check_rules.specs.Rules.{covers};
ghost use Rattle.vx_check_rules.specs.RuleView.{rule_of};
ghost use Rattle.vx_check_causes.specs.Causes.{is_given, goes_away};

use vx_check_rules::{ColumnsSeen, KeysSeen, OrderSeen, Rule, are_covered, gives, has_one_worker};
use vx_plan_nodes::{Claim, TypedNode};

// Whether each of the keys contains one of the others.
fn are_keys_given(keys: &[Vec<usize>], others: &[Vec<usize>]) -> bool
    ensures { result ≡ list_all (covers (map (λ k. k.items) others.now)) (map (λ k. k.items) keys.now) }
{
    for key in keys {
        if !are_covered(
            KeysSeen::Listed(others),
            ColumnsSeen::Listed(key.as_slice()),
        ) {
            return false;
        }
    }
    true
}

// Whether another claim of a node gives what the node claims.
fn is_given(node: &TypedNode, other: &Claim) -> bool
    ensures { result ≡ is_given (plan_of node.now) (claim_of other.now) }
{
    let claim = &node.head().claim;
    (has_one_worker(node) || gives(&other.part, &claim.part))
        && OrderSeen::Listed(claim.order.as_slice()).begin(other.order.as_slice())
        && are_keys_given(claim.keys.as_slice(), other.keys.as_slice())
}

/// Whether a failure of this rule at a node goes away over the claims that follow below it, where the node has this claim in
/// the plan with these, which is total or not.
pub fn goes_away(is_total: bool, claim: &Claim, rule: Rule, node: &TypedNode) -> bool
    ensures { result ≡ goes_away is_total (claim_of claim.now) (rule_of rule) (plan_of node.now) }
{
    match rule {
        Rule::PartNotShown | Rule::OrderNotShown | Rule::KeyNotShown => is_given(node, claim),
        Rule::TotalNotShown => is_total,
        Rule::SizeMismatch
        | Rule::RootNotOne
        | Rule::InputsNotMatched
        | Rule::ReplicatedInput
        | Rule::OrderNeeded
        | Rule::FirstRowsOpen => true,
    }
}
