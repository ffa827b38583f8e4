//! The parts that nodes can claim, by what their inputs can claim.

ghost use Rattle.std.specs.Prelude.{◌≡◌, ◌∷◌, [], map, flat_map, filter, take, find, option_map, false, IfOk, OnOk};
ghost use Rattle.std.specs.List.{list_any};
ghost use Rattle.vx_catalog_relations.specs.Catalog.{relation_at};
ghost use Rattle.vx_plan_nodes.specs.Plan.{claim, size, is_one};
ghost use Rattle.vx_plan_nodes.specs.Outline.{part_of, route_of, outline_of, plan_of};
ghost use Rattle.vx_plan_nodes.specs.Outputs.{HasOutputs};
ghost use Rattle.vx_check_rules.specs.WayView.{had_of, way_of, ways_in};
ghost use Rattle.vx_check_options.specs.Options.{routed_by, parts_of_way, parts_over, parts_among, same_part, with_part, with_parts, is_routed, most_telling, part_if_given, parts_above};
ghost use Rattle.vx_check_options.specs.Placed.{first_two, is_given};

use crate::copies::copied_lists;
use std::alloc::{AllocError, Global};
use vx_catalog_relations::Catalog;
use vx_check_rules::{Had, PartSeen, Way, gives, has_one_worker, seen, show_part, ways_from};
use vx_plan_nodes::{Part, Route, TypedNode, copied_part, routed_part};

// So many parts of a node are kept at most.
const MAX_PARTS: usize = 64;

type Parts = Vec<Part>;

/// A part alone.
pub fn only_part(alloc: Global, part: Part) -> Result<Parts, AllocError>
    ensures { IfOk result (λ v. map part_of v.items ≡ part_of part ∷ []) }
{
    let mut parts = Vec::new(alloc);
    parts.push(part)?;
    Ok(parts)
}

// Whether the part is one of these.
fn is_among(parts: &[Part], part: &Part) -> bool
    ensures { result ≡ list_any (same_part (part_of part.now)) (map part_of parts.now) }
{
    for other in parts {
        if gives(part, other) && gives(other, part) {
            return true;
        }
    }
    false
}

// Puts the part behind the others, if it is not among them.
fn add_part(parts: &mut Parts, part: Part) -> Result<(), AllocError>
    ensures { OnOk result (map part_of parts.new.items ≡ with_part (map part_of parts.old.items) (part_of part)) }
{
    if is_among(parts.as_slice(), &part) {
        return Ok(());
    }
    parts.push(part)?;
    Ok(())
}

// Puts the part that is routed by each of these lists of columns behind the others; any part where there is no list.
fn add_routed(
    alloc: Global,
    parts: &mut Parts,
    route: &Route,
    lists: Vec<Vec<usize>>,
) -> Result<(), AllocError>
    ensures { OnOk result (map part_of parts.new.items ≡ with_parts (map part_of parts.old.items) (routed_by (route_of route.now) (map (λ v. v.items) lists.items))) }
{
    if lists.is_empty() {
        return add_part(parts, Part::Any);
    }
    for list in lists {
        add_part(parts, routed_part(alloc, route, list)?)?;
    }
    Ok(())
}

// Puts what the way gives behind the others.
fn add_way(alloc: Global, parts: &mut Parts, way: Way<'_>) -> Result<(), AllocError>
    ensures { OnOk result (map part_of parts.new.items ≡ with_parts (map part_of parts.old.items) (parts_of_way (way_of way.entry))) }
{
    match way.common_part() {
        PartSeen::One => Ok(()),
        PartSeen::Any => add_part(parts, Part::Any),
        PartSeen::All => add_part(parts, Part::All),
        PartSeen::Routed(route, columns) => {
            let lists = copied_lists(alloc, way.copying, columns)?;
            add_routed(alloc, parts, route, lists)
        }
    }
}

// Puts what each of the ways that are there gives behind the others.
fn add_ways(alloc: Global, parts: &mut Parts, ways: &[Option<Way<'_>>]) -> Result<(), AllocError>
    ensures { OnOk result (map part_of parts.new.items ≡ with_parts (map part_of parts.old.items) (flat_map parts_of_way (ways_in ways.now))) }
{
    for way in ways {
        match way {
            Some(way) => add_way(alloc, parts, *way)?,
            None => {}
        }
    }
    Ok(())
}

// What an input on several workers has.
fn had<'p>(part: &'p Part) -> Had<'p>
    ensures { had_of result ≡ (false, part_of part.now) }
{
    Had {
        is_alone: false,
        part: seen(part),
    }
}

// Puts the parts that a node can have, where its left input has this part and its right one one of these, behind the
// others.
fn add_beside(
    alloc: Global,
    catalog: &Catalog,
    node: &TypedNode,
    parts: &mut Parts,
    left: &Part,
    rights: &[Part],
) -> Result<(), AllocError>
    requires { HasOutputs (relation_at catalog.now) (outline_of node.now) }
    ensures { OnOk result (map part_of parts.new.items
        ≡ with_parts (map part_of parts.old.items) (flat_map (parts_over (relation_at catalog.now) (plan_of node.now) (part_of left.now)) (map part_of rights.now))) }
{
    for right in rights {
        add_ways(alloc, parts, &ways_from(node, had(left), had(right)))?;
    }
    Ok(())
}

// The parts that a node can have where its inputs have some of these, each once.
fn parts_among(
    alloc: Global,
    catalog: &Catalog,
    node: &TypedNode,
    lefts: &[Part],
    rights: &[Part],
) -> Result<Parts, AllocError>
    requires { HasOutputs (relation_at catalog.now) (outline_of node.now) }
    ensures { IfOk result (λ v. map part_of v.items ≡ with_parts [] (parts_among (relation_at catalog.now) (plan_of node.now) (map part_of lefts.now) (map part_of rights.now))) }
{
    let mut parts = Vec::new(alloc);
    for left in lefts {
        add_beside(alloc, catalog, node, &mut parts, left, rights)?;
    }
    Ok(parts)
}

fn is_routed(part: &Part) -> bool
    ensures { result ≡ is_routed (part_of part.now) }
{
    matches!(part, Part::Routed(_, _))
}

// Whether one of the parts is routed.
fn has_routed(parts: &[Part]) -> bool
    ensures { result ≡ list_any is_routed (map part_of parts.now) }
{
    for part in parts {
        if is_routed(part) {
            return true;
        }
    }
    false
}

// Those that tell the most, the first 64: the routed ones, if there are any.
fn most_telling(mut parts: Parts) -> Parts
    ensures { map part_of result.items ≡ take 64 (most_telling (map part_of parts.items)) }
{
    if has_routed(parts.as_slice()) {
        parts.retain(is_routed);
    }
    parts.truncate(MAX_PARTS);
    parts
}

// Whether the node shows the part where its inputs have these, or has one worker.
fn is_given(catalog: &Catalog, node: &TypedNode, part: &Part, left: &Part, right: &Part) -> bool
    requires { HasOutputs (relation_at catalog.now) (outline_of node.now) }
    ensures { result ≡ is_given (relation_at catalog.now) (plan_of node.now) (part_of part.now) (part_of left.now) (part_of right.now) }
{
    has_one_worker(node) || show_part(&ways_from(node, had(left), had(right)), part)
}

// The first of these parts of the right input with which it does.
fn first_beside<'p>(
    catalog: &Catalog,
    node: &TypedNode,
    part: &Part,
    left: &Part,
    rights: &'p [Part],
) -> Option<&'p Part>
    requires { HasOutputs (relation_at catalog.now) (outline_of node.now) }
    ensures { option_map (λ p. part_of p.now) result ≡ find (is_given (relation_at catalog.now) (plan_of node.now) (part_of part.now) (part_of left.now)) (map part_of rights.now) }
{
    for right in rights {
        if is_given(catalog, node, part, left, right) {
            return Some(right);
        }
    }
    None
}

/// The first two of these parts of the inputs with which the node shows the part, or has one worker.
pub fn first_two<'p>(
    catalog: &Catalog,
    node: &TypedNode,
    part: &Part,
    lefts: &'p [Part],
    rights: &'p [Part],
) -> Option<(&'p Part, &'p Part)>
    requires { HasOutputs (relation_at catalog.now) (outline_of node.now) }
    ensures { option_map (λ p. (part_of p.0.now, part_of p.1.now)) result
        ≡ first_two (is_given (relation_at catalog.now) (plan_of node.now) (part_of part.now)) (map part_of lefts.now) (map part_of rights.now) }
{
    for left in lefts {
        if let Some(right) = first_beside(catalog, node, part, left, rights) {
            return Some((left, right));
        }
    }
    None
}

// The part that a node on several workers claims already, alone, if it is shown where each input has one of these.
fn part_if_given(
    alloc: Global,
    catalog: &Catalog,
    node: &TypedNode,
    lefts: &[Part],
    rights: &[Part],
) -> Result<Parts, AllocError>
    requires outputs { HasOutputs (relation_at catalog.now) (outline_of node.now) }
    requires several { is_one (size (plan_of node.now)) ≡ false }
    ensures { IfOk result (λ v. map part_of v.items ≡ take 64 (part_if_given (relation_at catalog.now) (plan_of node.now) (claim (plan_of node.now)).part (map part_of lefts.now) (map part_of rights.now))) }
{
    let claimed = &node.head().claim.part;
    match first_two(catalog, node, claimed, lefts, rights) {
        Some(_) => only_part(alloc, copied_part(alloc, claimed)?),
        None => Ok(Vec::new(alloc)),
    }
}

/// The parts that a node can claim, where each input can claim one of these: the first 64.
pub fn parts_over(
    alloc: Global,
    catalog: &Catalog,
    node: &TypedNode,
    lefts: &[Part],
    rights: &[Part],
) -> Result<Parts, AllocError>
    requires { HasOutputs (relation_at catalog.now) (outline_of node.now) }
    ensures { IfOk result (λ v. map part_of v.items ≡ take 64 (parts_above (relation_at catalog.now) (plan_of node.now) (map part_of lefts.now) (map part_of rights.now))) }
{
    if has_one_worker(node) {
        return only_part(alloc, Part::One);
    }
    match &node.head().claim.part {
        Part::One | Part::Any => {
            Ok(most_telling(parts_among(alloc, catalog, node, lefts, rights)?))
        }
        Part::All | Part::Routed(_, _) => part_if_given(alloc, catalog, node, lefts, rights),
    }
}
