//! The claims of all nodes of a plan: a part and an order for each from the top down, and its keys from the inputs upwards.

ghost use Rattle.std.specs.Prelude.{◌≡◌, ℕ, List, ◌∷◌, [], ◌++◌, true, Some, map, length, slice_get, IfOk};
ghost use Rattle.vx_catalog_relations.specs.Catalog.{relation_at};
ghost use Rattle.vx_plan_nodes.specs.Plan.{Plan, claim, size, is_one};
ghost use Rattle.vx_plan_nodes.specs.Describe.{whole_rows, described};
ghost use Rattle.vx_plan_nodes.specs.Outline.{part_of, claim_of, unary_of, binary_of, kind_of, outline_of, plan_of};
ghost use Rattle.vx_plan_nodes.specs.Outputs.{HasOutputs};
ghost use Rattle.vx_check_rules.specs.Rules.{is_total_order};
ghost use Rattle.vx_check_options.specs.Options.{no_input, parts_at, places_at};
ghost use Rattle.vx_check_options.specs.Placed.{first_entries, first_part, order_along, order_below, order_to_left, order_to_right, order_sent, parts_below, part_sent};
ghost use Rattle.vx_check_options.specs.OptionsView.{IsAbsent};
ghost use Rattle.vx_check_options.specs.Claimed.{note, keys_at, FoundAt, IsClaimed, reversed_claims, names_keys, names_keys_at};

use crate::keys::found_keys;
use crate::options::{Options, absent, options_at};
use crate::placing::{
    Placement, part_sent, parts_below, wanted_below, wanted_left, wanted_right, wanted_sent,
};
use std::alloc::{AllocError, Global};
use vx_catalog_relations::Catalog;
use vx_check_rules::{OrderSeen, has_one_worker, is_total};
use vx_plan_nodes::{Binary, Claim, Copying, Exchange, TypedNode, Unary, output_types};

// What the input of an operator over one input is to claim.
fn place_below(
    alloc: Global,
    catalog: &Catalog,
    none: &Options,
    node: &TypedNode,
    operator: &Unary,
    input: &TypedNode,
    place: &Placement,
) -> Result<Placement, AllocError>
    requires none { IsAbsent none.now }
    requires outputs { HasOutputs (relation_at catalog.now) (outline_of node.now) }
    requires input { HasOutputs (relation_at catalog.now) (outline_of input.now) }
    ensures part { IfOk result (λ r. part_of r.part ≡ (parts_below (relation_at catalog.now) (plan_of node.now) (part_of place.now.part) (parts_at (relation_at catalog.now) (plan_of input.now)) no_input).0) }
    ensures order { IfOk result (λ r. r.order.items ≡ order_below (described (unary_of operator.now)).order (described (unary_of operator.now)).copying place.now.order.items (places_at (relation_at catalog.now) (plan_of input.now))) }
{
    let below = options_at(alloc, catalog, none, input)?;
    let (part, _) = parts_below(
        catalog,
        node,
        &place.part,
        below.parts.as_slice(),
        none.parts.as_slice(),
    );
    let described = operator.described();
    let wanted = wanted_below(described.order, place.order.as_slice());
    Placement::along(
        alloc,
        part,
        described.copying,
        OrderSeen::Listed(wanted),
        below.choices.as_slice(),
    )
}

// What the inputs of an operator over two inputs are to claim.
fn places_below(
    alloc: Global,
    catalog: &Catalog,
    none: &Options,
    node: &TypedNode,
    operator: &Binary,
    left: &TypedNode,
    right: &TypedNode,
    place: &Placement,
) -> Result<(Placement, Placement), AllocError>
    requires none { IsAbsent none.now }
    requires outputs { HasOutputs (relation_at catalog.now) (outline_of node.now) }
    requires left { HasOutputs (relation_at catalog.now) (outline_of left.now) }
    requires right { HasOutputs (relation_at catalog.now) (outline_of right.now) }
    ensures parts { IfOk result (λ r. (part_of r.0.part, part_of r.1.part) ≡ parts_below (relation_at catalog.now) (plan_of node.now) (part_of place.now.part)
        (parts_at (relation_at catalog.now) (plan_of left.now)) (parts_at (relation_at catalog.now) (plan_of right.now))) }
    ensures left { IfOk result (λ r. r.0.order.items ≡ order_to_left (binary_of operator.now) place.now.order.items (places_at (relation_at catalog.now) (plan_of left.now))) }
    ensures right { IfOk result (λ r. r.1.order.items ≡ order_to_right (binary_of operator.now) (places_at (relation_at catalog.now) (plan_of right.now))) }
{
    let lefts = options_at(alloc, catalog, none, left)?;
    let rights = options_at(alloc, catalog, none, right)?;
    let (first, second) = parts_below(
        catalog,
        node,
        &place.part,
        lefts.parts.as_slice(),
        rights.parts.as_slice(),
    );
    let order = wanted_left(operator, place.order.as_slice());
    let choices = lefts.choices.as_slice();
    let first = Placement::along(alloc, first, Copying::WholeRows, order, choices)?;
    let order = wanted_right(operator);
    let choices = rights.choices.as_slice();
    let second = Placement::along(alloc, second, Copying::WholeRows, order, choices)?;
    Ok((first, second))
}

// What the input of an exchange is to claim.
fn place_sent(
    alloc: Global,
    catalog: &Catalog,
    none: &Options,
    exchange: &Exchange,
    input: &TypedNode,
    place: &Placement,
) -> Result<Placement, AllocError>
    requires none { IsAbsent none.now }
    requires outputs { HasOutputs (relation_at catalog.now) (outline_of input.now) }
    ensures part { IfOk result (λ r. part_of r.part ≡ part_sent (kind_of exchange.now.kind) place.now.order.items (parts_at (relation_at catalog.now) (plan_of input.now))) }
    ensures order { IfOk result (λ r. r.order.items ≡ order_along whole_rows (order_sent (kind_of exchange.now.kind) (is_one (size (plan_of input.now))) exchange.now.merge.items place.now.order.items) (places_at (relation_at catalog.now) (plan_of input.now))) }
{
    let below = options_at(alloc, catalog, none, input)?;
    let order = place.order.as_slice();
    let part = part_sent(&exchange.kind, order, below.parts.as_slice());
    let merge = exchange.merge.as_slice();
    let wanted = wanted_sent(&exchange.kind, has_one_worker(input), merge, order);
    let choices = below.choices.as_slice();
    Placement::along(
        alloc,
        part,
        Copying::WholeRows,
        OrderSeen::Listed(wanted),
        choices,
    )
}

// The keys of the claim at this place; none where there is none.
fn keys_at(claims: &[Claim], at: Option<usize>) -> &[Vec<usize>]
    ensures { map (λ k. k.items) result.now ≡ keys_at (map claim_of claims.now) at }
{
    match at {
        Some(at) => match claims.get(at) {
            Some(claim) => claim.keys.as_slice(),
            None => &[],
        },
        None => &[],
    }
}

// Finds the keys of a node, over those that its inputs claim at these places, and puts its claim behind the others, at
// the place that it returns.
fn put_claim(
    alloc: Global,
    catalog: &Catalog,
    claims: &mut Vec<Claim>,
    node: &TypedNode,
    place: Placement,
    left: Option<usize>,
    right: Option<usize>,
) -> Result<usize, AllocError>
    requires outputs { HasOutputs (relation_at catalog.now) (outline_of node.now) }
    requires keys { names_keys_at (relation_at catalog.now) (plan_of node.now) ≡ true }
    ensures { IfOk result (λ at. (keys : List (List ℕ)) × FoundAt (relation_at catalog.now) (plan_of node.now) (keys_at (map claim_of claims.old.items) left) (keys_at (map claim_of claims.old.items) right) keys
        × (at ≡ length (map claim_of claims.old.items)) × (map claim_of claims.new.items ≡ map claim_of claims.old.items ++ note (part_of place.part) place.order.items keys ∷ [])) }
{
    let at = claims.len();
    let lefts = keys_at(claims.as_slice(), left);
    let rights = keys_at(claims.as_slice(), right);
    let claimed = node.head().claim.keys.as_slice();
    let keys = found_keys(alloc, catalog, node, claimed, lefts, rights)?;
    claims.push(place.with_keys(keys))?;
    Ok(at)
}

// Puts the claims of the nodes below a node and then its own behind the others, right inputs before left ones, and
// returns the place of its own.
fn put_claims(
    alloc: Global,
    catalog: &Catalog,
    none: &Options,
    claims: &mut Vec<Claim>,
    node: &TypedNode,
    place: Placement,
) -> Result<usize, AllocError>
    requires none { IsAbsent none.now }
    requires outputs { HasOutputs (relation_at catalog.now) (outline_of node.now) }
    requires keys { names_keys (relation_at catalog.now) (plan_of node.now) ≡ true }
    ensures { IfOk result (λ at. (x : Plan) × IsClaimed (relation_at catalog.now) (plan_of node.now) (part_of place.part) place.order.items x
        × (slice_get (map claim_of claims.new.items) at ≡ Some (claim x)) × (map claim_of claims.new.items ≡ map claim_of claims.old.items ++ reversed_claims x)) }
{
    match node {
        TypedNode::Scan(_, _) => put_claim(alloc, catalog, claims, node, place, None, None),
        TypedNode::Unary(_, operator, input) => {
            let below = place_below(alloc, catalog, none, node, operator, input, &place)?;
            let left = put_claims(alloc, catalog, none, claims, input, below)?;
            put_claim(alloc, catalog, claims, node, place, Some(left), None)
        }
        TypedNode::Binary(_, operator, left, right) => {
            let (first, second) = places_below(
                alloc, catalog, none, node, operator, left, right, &place,
            )?;
            let right = put_claims(alloc, catalog, none, claims, right, second)?;
            let left = put_claims(alloc, catalog, none, claims, left, first)?;
            put_claim(alloc, catalog, claims, node, place, Some(left), Some(right))
        }
        TypedNode::Exchange(_, exchange, input) => {
            let below = place_sent(alloc, catalog, none, exchange, input, &place)?;
            let left = put_claims(alloc, catalog, none, claims, input, below)?;
            put_claim(alloc, catalog, claims, node, place, Some(left), None)
        }
    }
}

// What the root is to claim: the first of its parts, and the first entry at each place of its order.
fn first_place(
    alloc: Global,
    catalog: &Catalog,
    none: &Options,
    root: &TypedNode,
) -> Result<Placement, AllocError>
    requires none { IsAbsent none.now }
    requires outputs { HasOutputs (relation_at catalog.now) (outline_of root.now) }
    ensures part { IfOk result (λ r. part_of r.part ≡ first_part (parts_at (relation_at catalog.now) (plan_of root.now))) }
    ensures order { IfOk result (λ r. r.order.items ≡ first_entries (places_at (relation_at catalog.now) (plan_of root.now))) }
{
    let options = options_at(alloc, catalog, none, root)?;
    let choices = options.choices.as_slice();
    Placement::along(
        alloc,
        options.parts.first(),
        Copying::WholeRows,
        OrderSeen::Listed(&[]),
        choices,
    )
}

/// The claims of all nodes, those of a node behind those of its inputs and a right input before a left one, and whether
/// the order of the root is a total one.
pub fn found_claims(
    alloc: Global,
    catalog: &Catalog,
    root: &TypedNode,
) -> Result<(Vec<Claim>, bool), AllocError>
    requires outputs { HasOutputs (relation_at catalog.now) (outline_of root.now) }
    requires keys { names_keys (relation_at catalog.now) (plan_of root.now) ≡ true }
    ensures { IfOk result (λ r. (x : Plan) × IsClaimed (relation_at catalog.now) (plan_of root.now) (first_part (parts_at (relation_at catalog.now) (plan_of root.now))) (first_entries (places_at (relation_at catalog.now) (plan_of root.now))) x
        × (map claim_of r.0.items ≡ reversed_claims x) × (r.1 ≡ is_total_order (relation_at catalog.now) x)) }
{
    let none = absent(alloc)?;
    let place = first_place(alloc, catalog, &none, root)?;
    let mut claims = Vec::new(alloc);
    let at = put_claims(alloc, catalog, &none, &mut claims, root, place)?;
    let is_total = is_total(&claims[at], output_types(root).len());
    Ok((claims, is_total))
}
