//! The claim that is shown at a node by what is known of columns.

ghost use Rattle.std.specs.Prelude.{◌≡◌, List, IfOk, OnOk};
ghost use Rattle.vx_catalog_relations.specs.Relation.{Relation};
ghost use Rattle.vx_catalog_relations.specs.Catalog.{relation_at};
ghost use Rattle.vx_plan_nodes.specs.Plan.{Plan, claim};
ghost use Rattle.vx_plan_nodes.specs.Outline.{claim_of, outline_of, plan_of};
ghost use Rattle.vx_plan_nodes.specs.Outputs.{HasOutputs};
ghost use Rattle.vx_plan_facts.specs.KnownView.{IsKnownOf};
ghost use Rattle.vx_check_rules.specs.KnownNode.{IsKnownTyped};
ghost use Rattle.vx_check_failures.specs.Shown.{first_input, second_input, derived_claim};

use crate::named::named_keys;
use std::alloc::{AllocError, Global};
use vx_catalog_relations::Catalog;
use vx_check_rules::node_keys;
use vx_check_shown::{shown_order, shown_part};
use vx_plan_facts::KnownColumns;
use vx_plan_nodes::{Claim, TypedNode};

// What the left or only input of a node claims.
fn first_claim(node: &TypedNode) -> &Claim
    ensures { claim_of result.now ≡ claim (first_input (plan_of node.now)) }
{
    match node {
        TypedNode::Scan(head, _) => &head.claim,
        TypedNode::Unary(_, _, input) | TypedNode::Exchange(_, _, input) => &input.head().claim,
        TypedNode::Binary(_, _, left, _) => &left.head().claim,
    }
}

// What its right or only input claims.
fn second_claim(node: &TypedNode) -> &Claim
    ensures { claim_of result.now ≡ claim (second_input (plan_of node.now)) }
{
    match node {
        TypedNode::Scan(head, _) => &head.claim,
        TypedNode::Unary(_, _, input) | TypedNode::Exchange(_, _, input) => &input.head().claim,
        TypedNode::Binary(_, _, _, right) => &right.head().claim,
    }
}

/// The part and the order that tell the most at a node, and the keys that are carried up to it.
pub fn derived_claim(
    alloc: Global,
    catalog: &Catalog,
    node: &TypedNode,
    known: &mut KnownColumns<'_>,
) -> Result<Claim, AllocError>
    requires known { IsKnownTyped catalog.now known.old (plan_of node.now) }
    requires outputs { HasOutputs (relation_at catalog.now) (outline_of node.now) }
    ensures claim { IfOk result (λ c. claim_of c ≡ derived_claim (relation_at catalog.now) (plan_of node.now)) }
    ensures kept { OnOk result ((relations : List Relation) → IsKnownTyped relations known.old (plan_of node.now) → (p : Plan) → IsKnownOf (relation_at relations) known.old p → IsKnownOf (relation_at relations) known.new p) }
{
    let _relations = catalog.len();
    let first = first_claim(node);
    let part = shown_part(alloc, node, known, &first.part, &second_claim(node).part)?;
    let carried = node_keys(alloc, catalog, node)?;
    let keys = named_keys(alloc, known.facts_of(node), carried.as_slice())?;
    let below = first.order.as_slice();
    let order = shown_order(alloc, catalog, node, known, &first.part, below)?;
    Ok(Claim { part, order, keys })
}
