//! The part and the order of each input under those of a node.

ghost use Rattle.std.specs.Prelude.{◌≡◌, map, find, option_map, slice_get, unwrap_or, IfOk};
ghost use Rattle.vx_catalog_relations.specs.Catalog.{relation_at};
ghost use Rattle.vx_plan_nodes.specs.Plan.{any};
ghost use Rattle.vx_plan_nodes.specs.Describe.{Copying as Copies, whole_rows};
ghost use Rattle.vx_plan_nodes.specs.DescribeView.{copying_of, order_after_of};
ghost use Rattle.vx_plan_nodes.specs.Outline.{part_of, claim_of, kind_of, binary_of, outline_of, plan_of};
ghost use Rattle.vx_plan_nodes.specs.Outputs.{HasOutputs};
ghost use Rattle.vx_check_rules.specs.Rules.{rises_by};
ghost use Rattle.vx_check_options.specs.Options.{OrderChoices};
ghost use Rattle.vx_check_rules.specs.Seen.{order_seen};
ghost use Rattle.vx_check_options.specs.Placed.{source_entry, next_entry, order_along, order_below, order_to_left, order_to_right, order_sent, parts_below, part_sent};
ghost use Rattle.vx_check_options.specs.Claimed.{note};

use crate::order_choices::has_entry;
use crate::parts::first_two;
use std::alloc::{AllocError, Global};
use vx_catalog_relations::Catalog;
use vx_check_rules::{OrderSeen, rises_with_workers};
use vx_plan_nodes::{
    Binary, Claim, Copying, ExchangeKind, OrderAfter, Part, TypedNode, copied_part,
};
use vx_rows_values::OrderEntry;

/// The part and the order that a node is to claim.
pub struct Placement {
    pub part: Part,
    pub order: Vec<OrderEntry>,
}

impl Drop for Placement {
    fn drop(self) {
        let Placement { part: _, order: _ } = self;
    }
}

// The entry of the input's column of which an entry's column is a copy, in its direction.
fn source_entry(copying: Copying<'_>, entry: OrderEntry) -> OrderEntry
    ensures { result ≡ source_entry (copying_of copying.entry) entry }
{
    OrderEntry {
        column: copying.source(entry.column).unwrap_or(0),
        falling: entry.falling,
    }
}

// The entry of an input's order at this place, under an order of the output: that of the column of which the column there is a
// copy, if it may stand there, and else the first that may.
fn next_entry(
    copying: Copying<'_>,
    order: OrderSeen<'_>,
    at: usize,
    place: &[OrderEntry],
) -> Option<OrderEntry>
    ensures { result ≡ next_entry (copying_of copying.entry) (slice_get (order_seen order.entry) at) place.now }
{
    if at >= order.len() {
        return place.first().copied();
    }
    let source = source_entry(copying, order.at(at));
    match place {
        [first, ..] if !has_entry(place, source) => Some(*first),
        _ => Some(source),
    }
}

// The order of an input with these places, under an order of the output.
fn order_along(
    alloc: Global,
    copying: Copying<'_>,
    order: OrderSeen<'_>,
    choices: &[Vec<OrderEntry>],
) -> Result<Vec<OrderEntry>, AllocError>
    ensures { IfOk result (λ v. v.items ≡ order_along (copying_of copying.entry) (order_seen order.entry) (map (λ v. v.items) choices.now)) }
{
    let mut entries = Vec::new(alloc);
    for i in 0..choices.len() {
        let Some(entry) = next_entry(copying, order, i, choices[i].as_slice()) else {
            return Ok(entries);
        };
        entries.push(entry)?;
    }
    Ok(entries)
}

impl Placement {
    /// The claim, with these keys.
    pub fn with_keys(self, keys: Vec<Vec<usize>>) -> Claim
        ensures { claim_of result ≡ note (part_of self.part) self.order.items (map (λ k. k.items) keys.items) }
    {
        let Placement { part, order } = self;
        Claim { part, order, keys }
    }

    /// This part, or any where there is none, and the order of an input with these places, under an order of the output.
    pub fn along(
        alloc: Global,
        part: Option<&Part>,
        copying: Copying<'_>,
        order: OrderSeen<'_>,
        choices: &[Vec<OrderEntry>],
    ) -> Result<Placement, AllocError>
        ensures part { IfOk result (λ r. part_of r.part ≡ unwrap_or (option_map (λ p. part_of p.now) part.entry) any) }
        ensures order { IfOk result (λ r. r.order.items ≡ order_along (copying_of copying.entry) (order_seen order.entry) (map (λ v. v.items) choices.now)) }
    {
        let order = order_along(alloc, copying, order, choices)?;
        match part {
            Some(part) => Ok(Placement {
                part: copied_part(alloc, part)?,
                order,
            }),
            None => Ok(Placement {
                part: Part::Any,
                order,
            }),
        }
    }
}

/// The parts of the inputs with which a node shows its own, each the first of its list where none do.
pub fn parts_below<'p>(
    catalog: &Catalog,
    node: &TypedNode,
    part: &Part,
    lefts: &'p [Part],
    rights: &'p [Part],
) -> (Option<&'p Part>, Option<&'p Part>)
    requires { HasOutputs (relation_at catalog.now) (outline_of node.now) }
    ensures { (unwrap_or (option_map (λ p. part_of p.now) result.0) any, unwrap_or (option_map (λ p. part_of p.now) result.1) any)
        ≡ parts_below (relation_at catalog.now) (plan_of node.now) (part_of part.now) (map part_of lefts.now) (map part_of rights.now) }
{
    match first_two(catalog, node, part, lefts, rights) {
        Some((left, right)) => (Some(left), Some(right)),
        None => (lefts.first(), rights.first()),
    }
}

/// The first of the parts by which rows in this order rise with the number of their worker.
pub fn first_rising<'p>(parts: &'p [Part], order: &[OrderEntry]) -> Option<&'p Part>
    ensures { option_map (λ p. part_of p.now) result ≡ find (λ x. rises_by x order.now) (map part_of parts.now) }
{
    for part in parts {
        if rises_with_workers(part, order) {
            return Some(part);
        }
    }
    None
}

/// The part of an exchange's input, under a concat one by which the order rises.
pub fn part_sent<'p>(
    kind: &ExchangeKind,
    order: &[OrderEntry],
    parts: &'p [Part],
) -> Option<&'p Part>
    ensures { unwrap_or (option_map (λ p. part_of p.now) result) any ≡ part_sent (kind_of kind.now) order.now (map part_of parts.now) }
{
    match kind {
        ExchangeKind::Concat => match first_rising(parts, order) {
            Some(part) => Some(part),
            None => parts.first(),
        },
        ExchangeKind::Route(_, _, _)
        | ExchangeKind::Round(_)
        | ExchangeKind::Broadcast(_)
        | ExchangeKind::Gather => parts.first(),
    }
}

/// What the order of the input of an operator over one input has to begin with, where it can; the order of a sort is its
/// own.
pub fn wanted_below<'p>(after: OrderAfter<'_>, order: &'p [OrderEntry]) -> &'p [OrderEntry]
    ensures { (k : Copies) (places : OrderChoices) → order_along k result.now places ≡ order_below (order_after_of after.entry) k order.now places }
{
    match after {
        OrderAfter::Kept => order,
        OrderAfter::SortedOn(_) => &[],
    }
}

/// What the order of an exchange's input, which has one worker or not, has to begin with.
pub fn wanted_sent<'p>(
    kind: &ExchangeKind,
    alone: bool,
    merge: &'p [OrderEntry],
    order: &'p [OrderEntry],
) -> &'p [OrderEntry]
    ensures { result.now ≡ order_sent (kind_of kind.now) alone merge.now order.now }
{
    if alone || matches!(kind, ExchangeKind::Concat) {
        order
    } else {
        merge
    }
}

/// What the order of the left input of an operator over two inputs has to begin with, where it can.
pub fn wanted_left<'p>(operator: &Binary, order: &'p [OrderEntry]) -> OrderSeen<'p>
    ensures { (places : OrderChoices) → order_along whole_rows (order_seen result) places ≡ order_to_left (binary_of operator.now) order.now places }
{
    match operator {
        Binary::Union => OrderSeen::Listed(&[]),
        Binary::HashJoin(_) | Binary::MergeJoin(_, _) => OrderSeen::Listed(order),
        Binary::SemiJoin(_, _) | Binary::AntiJoin(_, _) => OrderSeen::Listed(order),
    }
}

/// What the right one's has to begin with.
pub fn wanted_right(operator: &Binary) -> OrderSeen<'_>
    ensures { (places : OrderChoices) → order_along whole_rows (order_seen result) places ≡ order_to_right (binary_of operator.now) places }
{
    match operator {
        Binary::MergeJoin(on, falls) => OrderSeen::Rights(on.as_slice(), falls.as_slice()),
        Binary::Union | Binary::HashJoin(_) => OrderSeen::Listed(&[]),
        Binary::SemiJoin(_, _) | Binary::AntiJoin(_, _) => OrderSeen::Listed(&[]),
    }
}
