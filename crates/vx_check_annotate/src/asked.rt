//! Plans that ask for what is known of their columns.

ghost use Rattle.std.specs.Prelude.{◌≡◌, true};
ghost use Rattle.vx_plan_json.specs.Document.{claim_form, tree_of};
ghost use Rattle.vx_plan_json.specs.Formed.{has_few_keys, are_keys_few};
ghost use Rattle.vx_plan_json.specs.PlanView.{document_of};
ghost use Rattle.vx_check_annotate.specs.Asking.{with_few_keys, asking};

use crate::rewriting::claimed_plan;
use std::alloc::Global;
use vx_plan_json::{NamedClaim, Node, Plan};
use vx_rows_values::limits::MAX_KEYS;

fn has_few_keys(claim: &NamedClaim) -> bool
    ensures { result ≡ has_few_keys true (claim_form claim.now) }
{
    claim.keys.len() <= MAX_KEYS
}

// Whether no claim has more than 16 keys.
fn are_keys_few(node: &Node) -> bool
    ensures { result ≡ are_keys_few true (tree_of node.now) }
{
    match node {
        Node::Scan(claim, _) => has_few_keys(claim),
        Node::Unary(claim, _, input) => has_few_keys(claim) && are_keys_few(input),
        Node::Binary(claim, _, left, right) => {
            has_few_keys(claim) && are_keys_few(left) && are_keys_few(right)
        }
        Node::Exchange(claim, _, _, input) => has_few_keys(claim) && are_keys_few(input),
    }
}

// The plan, without its claims if one of them has more than 16 keys.
fn with_few_keys(alloc: Global, plan: Plan) -> Plan
    ensures same { document_of result ≡ with_few_keys (document_of plan) }
    ensures few { are_keys_few true (document_of result).root ≡ true }
{
    if are_keys_few(plan.root()) {
        return plan;
    }
    claimed_plan(alloc, Vec::new(alloc), false, plan)
}

/// The plan, which asks for what is known of its columns. If one of its claims has more than 16 keys, which no plan that
/// asks so can have, it comes without its claims.
pub fn asking(alloc: Global, plan: Plan) -> Plan
    ensures asks { document_of result ≡ asking (document_of plan) }
    ensures same { (document_of plan).derives ≡ true → document_of result ≡ document_of plan }
{
    let plan = with_few_keys(alloc, plan);
    let total = plan.is_total();
    let (sizes, ranges, root) = plan.into_parts();
    Plan::new(sizes, ranges, total, true, root)
}
