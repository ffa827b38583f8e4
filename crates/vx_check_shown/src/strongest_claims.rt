//! The parts and the orders of all nodes of a plan, from the inputs upwards, over the keys that it claims.

ghost use Rattle.std.specs.Prelude.{◌≡◌, ◌∷◌, [], ◌++◌, Some, map, length, slice_get, IfOk};
ghost use Rattle.vx_catalog_relations.specs.Catalog.{relation_at, IsCatalog};
ghost use Rattle.vx_plan_nodes.specs.Plan.{Plan, claim};
ghost use Rattle.vx_plan_nodes.specs.Outline.{claim_of, outline_of, plan_of};
ghost use Rattle.vx_plan_nodes.specs.Outputs.{HasOutputs};
ghost use Rattle.vx_plan_nodes.specs.TypedView.{scope, plan as whole_plan};
ghost use Rattle.vx_plan_facts.specs.KnownView.{IsKnownOf};
ghost use Rattle.vx_check_rules.specs.Derived.{is_total_derived};
ghost use Rattle.vx_check_rules.specs.KnownNode.{IsKnownTyped};
ghost use Rattle.vx_check_options.specs.Claimed.{reversed_claims};
ghost use Rattle.vx_check_shown.specs.Found.{no_claim, claim_at, found_claim, found, AreTold};

use crate::claim_lists::{claim_at, copied_keys, no_claim};
use crate::orders::shown_order;
use crate::parts::shown_part;
use crate::totals::is_claim_total;
use std::alloc::{AllocError, Global};
use vx_catalog_relations::Catalog;
use vx_plan_facts::{KnownColumns, known_columns};
use vx_plan_nodes::{Claim, TypedNode, TypedPlan};

// Finds the part and the order of a node, over what its inputs claim at these places, and puts a claim of them and of the
// node's keys behind the others, at the place that it returns.
fn put_claim(
    alloc: Global,
    catalog: &Catalog,
    none: &Claim,
    known: &mut KnownColumns<'_>,
    claims: &mut Vec<Claim>,
    node: &TypedNode,
    left: Option<usize>,
    right: Option<usize>,
) -> Result<usize, AllocError>
    requires none { claim_of none.now ≡ no_claim }
    requires known { IsKnownTyped catalog.now known.old (plan_of node.now) }
    requires outputs { HasOutputs (relation_at catalog.now) (outline_of node.now) }
    requires told { AreTold (relation_at catalog.now) (plan_of node.now) (claim_at (map claim_of claims.now.items) left) (claim_at (map claim_of claims.now.items) right) }
    ensures put { IfOk result (λ at. (at ≡ length (map claim_of claims.old.items)) × (map claim_of claims.new.items ≡ map claim_of claims.old.items
        ++ found_claim (relation_at catalog.now) (plan_of node.now) (claim_at (map claim_of claims.old.items) left) (claim_at (map claim_of claims.old.items) right) ∷ [])) }
    ensures kept { (q : Plan) → IsKnownOf (relation_at catalog.now) known.old q → IsKnownOf (relation_at catalog.now) known.new q }
{
    let at = claims.len();
    let first = claim_at(claims.as_slice(), left, none);
    let second = claim_at(claims.as_slice(), right, none);
    let part = shown_part(alloc, node, known, &first.part, &second.part)?;
    let order = shown_order(
        alloc,
        catalog,
        node,
        known,
        &first.part,
        first.order.as_slice(),
    )?;
    let keys = copied_keys(alloc, node.head().claim.keys.as_slice())?;
    claims.push(Claim { part, order, keys })?;
    Ok(at)
}

// Puts the claims of the nodes below a node and then its own behind the others, right inputs before left ones, and returns
// the place of its own.
fn put_claims(
    alloc: Global,
    catalog: &Catalog,
    none: &Claim,
    known: &mut KnownColumns<'_>,
    claims: &mut Vec<Claim>,
    node: &TypedNode,
) -> Result<usize, AllocError>
    requires none { claim_of none.now ≡ no_claim }
    requires known { IsKnownTyped catalog.now known.old (plan_of node.now) }
    requires outputs { HasOutputs (relation_at catalog.now) (outline_of node.now) }
    requires catalog { IsCatalog catalog.now }
    ensures put { IfOk result (λ at. (slice_get (map claim_of claims.new.items) at ≡ Some (claim (found (relation_at catalog.now) (plan_of node.now))))
        × (map claim_of claims.new.items ≡ map claim_of claims.old.items ++ reversed_claims (found (relation_at catalog.now) (plan_of node.now)))) }
    ensures kept { (q : Plan) → IsKnownOf (relation_at catalog.now) known.old q → IsKnownOf (relation_at catalog.now) known.new q }
{
    match node {
        TypedNode::Scan(_, _) => put_claim(alloc, catalog, none, known, claims, node, None, None),
        TypedNode::Unary(_, _, input) => {
            let left = put_claims(alloc, catalog, none, known, claims, input)?;
            put_claim(alloc, catalog, none, known, claims, node, Some(left), None)
        }
        TypedNode::Binary(_, _, left, right) => {
            let right = put_claims(alloc, catalog, none, known, claims, right)?;
            let left = put_claims(alloc, catalog, none, known, claims, left)?;
            put_claim(
                alloc,
                catalog,
                none,
                known,
                claims,
                node,
                Some(left),
                Some(right),
            )
        }
        TypedNode::Exchange(_, _, input) => {
            let left = put_claims(alloc, catalog, none, known, claims, input)?;
            put_claim(alloc, catalog, none, known, claims, node, Some(left), None)
        }
    }
}

/// The claims that tell the most at all nodes, over the keys that the plan claims: those of a node behind those of its inputs,
/// and a right input before a left one; and whether the order of the root is total.
pub fn found_claims(alloc: Global, plan: &TypedPlan) -> Result<(Vec<Claim>, bool), AllocError>
    ensures claims { IfOk result (λ r. map claim_of r.0.items ≡ reversed_claims (found (relation_at (scope plan.now).catalog) (whole_plan plan.now))) }
    ensures total { IfOk result (λ r. r.1 ≡ is_total_derived (relation_at (scope plan.now).catalog) (found (relation_at (scope plan.now).catalog) (whole_plan plan.now))) }
{
    let catalog = plan.catalog();
    let _relations = catalog.len();
    let root = plan.root();
    let none = no_claim(alloc);
    let mut known = known_columns(alloc, plan)?;
    let mut claims = Vec::new(alloc);
    let at = put_claims(alloc, catalog, &none, &mut known, &mut claims, root)?;
    let is_total = is_claim_total(root, &mut known, &claims[at]);
    Ok((claims, is_total))
}
