//! The keys of all nodes of a plan, from the inputs upwards.

ghost use Rattle.std.specs.Prelude.{◌≡◌, ℕ, List, ◌∷◌, [], ◌++◌, Some, map, length, slice_get, IfOk};
ghost use Rattle.vx_catalog_relations.specs.Catalog.{relation_at};
ghost use Rattle.vx_plan_nodes.specs.Plan.{Plan, claim};
ghost use Rattle.vx_plan_nodes.specs.Outline.{claim_of, outline_of, plan_of};
ghost use Rattle.vx_plan_nodes.specs.Outputs.{HasOutputs};
ghost use Rattle.vx_plan_nodes.specs.TypedView.{scope, plan as whole_plan};
ghost use Rattle.vx_plan_facts.specs.KnownView.{IsKnownOf};
ghost use Rattle.vx_check_rules.specs.KnownNode.{IsKnownTyped};
ghost use Rattle.vx_check_options.specs.Claimed.{reversed_claims};
ghost use Rattle.vx_check_shown.specs.Found.{no_claim, claim_at, keyed, ShownAt, IsKeyed};

use crate::claim_lists::{claim_at, no_claim};
use crate::keys::shown_keys;
use std::alloc::{AllocError, Global};
use vx_catalog_relations::Catalog;
use vx_plan_facts::{KnownColumns, known_columns};
use vx_plan_nodes::{Claim, Part, TypedNode, TypedPlan};

// Finds the keys of a node, over those that its inputs claim at these places, and puts a claim of them behind the others, at
// the place that it returns.
fn put_keys(
    alloc: Global,
    catalog: &Catalog,
    none: &Claim,
    known: &mut KnownColumns<'_>,
    claims: &mut Vec<Claim>,
    node: &TypedNode,
    left: Option<usize>,
    right: Option<usize>,
) -> Result<usize, AllocError>
    requires none { claim_of none.now ≡ no_claim }
    requires known { IsKnownTyped catalog.now known.old (plan_of node.now) }
    requires outputs { HasOutputs (relation_at catalog.now) (outline_of node.now) }
    ensures put { IfOk result (λ at. (keys : List (List ℕ))
        × ShownAt (relation_at catalog.now) (plan_of node.now) (claim_at (map claim_of claims.old.items) left).keys (claim_at (map claim_of claims.old.items) right).keys keys
        × (at ≡ length (map claim_of claims.old.items)) × (map claim_of claims.new.items ≡ map claim_of claims.old.items ++ keyed keys ∷ [])) }
    ensures kept { (q : Plan) → IsKnownOf (relation_at catalog.now) known.old q → IsKnownOf (relation_at catalog.now) known.new q }
{
    let at = claims.len();
    let first = claim_at(claims.as_slice(), left, none);
    let second = claim_at(claims.as_slice(), right, none);
    let claimed = node.head().claim.keys.as_slice();
    let keys = shown_keys(
        alloc,
        catalog,
        node,
        known,
        claimed,
        first.keys.as_slice(),
        second.keys.as_slice(),
    )?;
    claims.push(Claim {
        part: Part::Any,
        order: Vec::new(alloc),
        keys,
    })?;
    Ok(at)
}

// Puts the keys of the nodes below a node and then its own behind the others, right inputs before left ones, and returns the
// place of its own.
fn put_all_keys(
    alloc: Global,
    catalog: &Catalog,
    none: &Claim,
    known: &mut KnownColumns<'_>,
    claims: &mut Vec<Claim>,
    node: &TypedNode,
) -> Result<usize, AllocError>
    requires none { claim_of none.now ≡ no_claim }
    requires known { IsKnownTyped catalog.now known.old (plan_of node.now) }
    requires outputs { HasOutputs (relation_at catalog.now) (outline_of node.now) }
    ensures put { IfOk result (λ at. (x : Plan) × IsKeyed (relation_at catalog.now) (plan_of node.now) x
        × (slice_get (map claim_of claims.new.items) at ≡ Some (claim x)) × (map claim_of claims.new.items ≡ map claim_of claims.old.items ++ reversed_claims x)) }
    ensures kept { (q : Plan) → IsKnownOf (relation_at catalog.now) known.old q → IsKnownOf (relation_at catalog.now) known.new q }
{
    match node {
        TypedNode::Scan(_, _) => put_keys(alloc, catalog, none, known, claims, node, None, None),
        TypedNode::Unary(_, _, input) => {
            let left = put_all_keys(alloc, catalog, none, known, claims, input)?;
            put_keys(alloc, catalog, none, known, claims, node, Some(left), None)
        }
        TypedNode::Binary(_, _, left, right) => {
            let right = put_all_keys(alloc, catalog, none, known, claims, right)?;
            let left = put_all_keys(alloc, catalog, none, known, claims, left)?;
            put_keys(
                alloc,
                catalog,
                none,
                known,
                claims,
                node,
                Some(left),
                Some(right),
            )
        }
        TypedNode::Exchange(_, _, input) => {
            let left = put_all_keys(alloc, catalog, none, known, claims, input)?;
            put_keys(alloc, catalog, none, known, claims, node, Some(left), None)
        }
    }
}

/// The keys that are shown at all nodes, each over those of its inputs, in claims of keys alone: those of a node behind those
/// of its inputs, and a right input before a left one.
pub fn keyed_claims(alloc: Global, plan: &TypedPlan) -> Result<Vec<Claim>, AllocError>
    ensures { IfOk result (λ v. (x : Plan) × IsKeyed (relation_at (scope plan.now).catalog) (whole_plan plan.now) x × (map claim_of v.items ≡ reversed_claims x)) }
{
    let catalog = plan.catalog();
    let none = no_claim(alloc);
    let mut known = known_columns(alloc, plan)?;
    let mut claims = Vec::new(alloc);
    put_all_keys(alloc, catalog, &none, &mut known, &mut claims, plan.root())?;
    Ok(claims)
}
