//! A plan with other claims.

ghost use Rattle.std.specs.Prelude.{◌≡◌, [], true, false, drop};
ghost use Rattle.std.specs.List.{list_all};
ghost use Rattle.vx_plan_json.specs.Document.{claim_form, tree_of, tree_nodes};
ghost use Rattle.vx_plan_json.specs.Formed.{is_claim_form, has_few_keys};
ghost use Rattle.vx_plan_json.specs.PlanView.{document_of};
ghost use Rattle.vx_check_annotate.specs.Unclaimed.{are_claims_formed, unclaimed};
ghost use Rattle.vx_check_annotate.specs.Claimed.{first_form, later_forms, tree_with, with_forms, forms_in};

use crate::formed::{FormedClaim, no_claim};
use std::alloc::Global;
use vx_plan_json::{NamedClaim, Node, Plan};

// The last of the claims, which is taken from them, or one that says nothing.
fn next_claim(alloc: Global, claims: &mut Vec<FormedClaim>) -> NamedClaim
    ensures formed { is_claim_form (claim_form result) ≡ true }
    ensures first { claim_form result ≡ first_form (forms_in claims.old.items) }
    ensures later { forms_in claims.new.items ≡ later_forms (forms_in claims.old.items) }
{
    match claims.pop() {
        Some(claim) => claim.into_claim(),
        None => no_claim(alloc),
    }
}

// Replaces the claims of the nodes by these, in preorder from the last one on; a node for which there is none says nothing.
fn put_claims(alloc: Global, claims: &mut Vec<FormedClaim>, node: &mut Node)
    ensures formed { are_claims_formed (tree_of node.new) ≡ true }
    ensures placed { tree_of node.new ≡ tree_with (forms_in claims.old.items) (tree_of node.old) }
    ensures later { forms_in claims.new.items ≡ drop (tree_nodes (tree_of node.old)) (forms_in claims.old.items) }
{
    let next = next_claim(alloc, claims);
    match node {
        Node::Scan(claim, _) => *claim = next,
        Node::Unary(claim, _, input) => {
            *claim = next;
            put_claims(alloc, claims, input);
        }
        Node::Binary(claim, _, left, right) => {
            *claim = next;
            put_claims(alloc, claims, left);
            put_claims(alloc, claims, right);
        }
        Node::Exchange(claim, _, _, input) => {
            *claim = next;
            put_claims(alloc, claims, input);
        }
    }
}

/// The plan with these claims, in preorder from the last one on; a node for which there is none says nothing.
pub fn claimed_plan(alloc: Global, claims: Vec<FormedClaim>, total: bool, plan: Plan) -> Plan
    requires { list_all (has_few_keys (document_of plan).derives) (forms_in claims.items) ≡ true }
    ensures placed { document_of result ≡ with_forms (forms_in claims.items) total (document_of plan) }
    ensures same { unclaimed (document_of result) ≡ unclaimed (document_of plan) }
    ensures bare { claims.items ≡ [] → total ≡ false → document_of result ≡ unclaimed (document_of plan) }
{
    let mut claims = claims;
    let derives = plan.derives();
    let (sizes, ranges, root) = plan.into_parts();
    let mut root = root;
    put_claims(alloc, &mut claims, &mut root);
    Plan::new(sizes, ranges, total, derives, root)
}
