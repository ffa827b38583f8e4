//! The entries that may stand at each place of an order.

ghost use Rattle.std.specs.Prelude.{◌≡◌, [], ◌∷◌, flat_map, map, filter, is_some, ◌++◌, IfOk, OnOk};
ghost use Rattle.std.specs.List.{list_any};
ghost use Rattle.vx_catalog_relations.specs.Catalog.{relation_at};
ghost use Rattle.vx_plan_nodes.specs.Describe.{described};
ghost use Rattle.vx_plan_nodes.specs.Outline.{part_of, kind_of, unary_of, binary_of, plan_of};
ghost use Rattle.vx_plan_nodes.specs.DescribeView.{copying_of};
ghost use Rattle.vx_check_rules.specs.Rules.{rises_by};
ghost use Rattle.vx_check_rules.specs.Seen.{order_seen};
ghost use Rattle.vx_check_options.specs.Options.{singles, has_entry, entry_copies, places_up, places_after, narrowed, or_nowhere, places_over_both, rising, places_sent, places_over};

use crate::copies::add_copies;
use crate::placing::first_rising;
use std::alloc::{AllocError, Global};
use vx_catalog_relations::Catalog;
use vx_check_rules::{OrderSeen, has_one_worker};
use vx_plan_nodes::{Binary, Copying, Exchange, ExchangeKind, OrderAfter, Part, TypedNode, Unary};
use vx_rows_values::OrderEntry;

/// For each place of an order the entries that may stand there.
pub type OrderChoices = Vec<Vec<OrderEntry>>;

/// The same choices in memory of their own.
fn copied(alloc: Global, choices: &[Vec<OrderEntry>]) -> Result<OrderChoices, AllocError>
    ensures { IfOk result (λ v. map (λ v. v.items) v.items ≡ map (λ v. v.items) choices.now) }
{
    Vec::from_clones(alloc, choices)
}

/// Each of these entries alone at its place.
pub fn singles(alloc: Global, order: OrderSeen<'_>) -> Result<OrderChoices, AllocError>
    ensures { IfOk result (λ v. map (λ v. v.items) v.items ≡ singles (order_seen order.entry)) }
{
    let mut choices = Vec::new(alloc);
    for place in 0..order.len() {
        choices.push(Vec::from_slice(alloc, &[order.at(place)])?)?;
    }
    Ok(choices)
}

// Puts the copies of an entry's column, in its direction, behind the others.
fn add_entry_copies(
    alloc: Global,
    found: &mut Vec<OrderEntry>,
    copying: Copying<'_>,
    entry: OrderEntry,
) -> Result<(), AllocError>
    ensures { OnOk result (found.new.items ≡ found.old.items ++ entry_copies (copying_of copying.entry) entry) }
{
    let mut columns = Vec::new(alloc);
    add_copies(&mut columns, copying, entry.column)?;
    for column in columns.as_slice() {
        found.push(OrderEntry {
            column: *column,
            falling: entry.falling,
        })?;
    }
    Ok(())
}

// All copies of these entries.
fn all_copies(
    alloc: Global,
    copying: Copying<'_>,
    entries: &[OrderEntry],
) -> Result<Vec<OrderEntry>, AllocError>
    ensures { IfOk result (λ v. v.items ≡ flat_map (entry_copies (copying_of copying.entry)) entries.now) }
{
    let mut found = Vec::new(alloc);
    for entry in entries {
        add_entry_copies(alloc, &mut found, copying, *entry)?;
    }
    Ok(found)
}

// The copies of what may stand at each place, up to the first that has none.
fn choices_up(
    alloc: Global,
    copying: Copying<'_>,
    choices: &[Vec<OrderEntry>],
) -> Result<OrderChoices, AllocError>
    ensures { IfOk result (λ v. map (λ v. v.items) v.items ≡ places_up (copying_of copying.entry) (map (λ v. v.items) choices.now)) }
{
    let mut found = Vec::new(alloc);
    for place in choices {
        let copies = all_copies(alloc, copying, place.as_slice())?;
        if copies.is_empty() {
            return Ok(found);
        }
        found.push(copies)?;
    }
    Ok(found)
}

/// Whether the entry is one of these.
pub fn has_entry(entries: &[OrderEntry], entry: OrderEntry) -> bool
    ensures { result ≡ has_entry entries.now entry }
{
    entries.iter().any(|other| entry.is_same(*other))
}

/// Whether an order may begin so.
pub fn may_begin(choices: &[Vec<OrderEntry>], order: OrderSeen<'_>) -> bool
    ensures { result ≡ is_some (narrowed (order_seen order.entry) (map (λ v. v.items) choices.now)) }
{
    if choices.len() < order.len() {
        return false;
    }
    for place in 0..order.len() {
        if !has_entry(choices[place].as_slice(), order.at(place)) {
            return false;
        }
    }
    true
}

/// What may stand at each place of an order that begins so; no place where it may not.
pub fn narrowed(
    alloc: Global,
    order: OrderSeen<'_>,
    choices: &[Vec<OrderEntry>],
) -> Result<OrderChoices, AllocError>
    ensures { IfOk result (λ v. map (λ v. v.items) v.items ≡ or_nowhere (narrowed (order_seen order.entry) (map (λ v. v.items) choices.now))) }
{
    if !may_begin(choices, order) {
        return Ok(Vec::new(alloc));
    }
    let mut found = singles(alloc, order)?;
    found.extend_from_slice(&choices[order.len()..])?;
    Ok(found)
}

// Of an operator over two inputs, by the left one's.
fn choices_over_both(
    alloc: Global,
    operator: &Binary,
    choices: &[Vec<OrderEntry>],
) -> Result<OrderChoices, AllocError>
    ensures { IfOk result (λ v. map (λ v. v.items) v.items ≡ places_over_both (binary_of operator.now) (map (λ v. v.items) choices.now)) }
{
    match operator {
        Binary::Union => Ok(Vec::new(alloc)),
        Binary::HashJoin(_) => copied(alloc, choices),
        Binary::SemiJoin(_, _) => copied(alloc, choices),
        Binary::AntiJoin(_, _) => copied(alloc, choices),
        Binary::MergeJoin(on, falls) => narrowed(
            alloc,
            OrderSeen::Lefts(on.as_slice(), falls.as_slice()),
            choices,
        ),
    }
}

// The entries by whose ranges the rows can be routed.
fn rising_entries(
    alloc: Global,
    parts: &[Part],
    entries: &[OrderEntry],
) -> Result<Vec<OrderEntry>, AllocError>
    ensures { IfOk result (λ v. v.items ≡ filter (λ e. list_any (λ x. rises_by x (e ∷ [])) (map part_of parts.now)) entries.now) }
{
    let mut rising = Vec::new(alloc);
    for entry in entries {
        if first_rising(parts, &[*entry]).is_some() {
            rising.push(*entry)?;
        }
    }
    Ok(rising)
}

// The places of an order that begins with a rising column by whose ranges the rows can be routed.
fn rising(
    alloc: Global,
    parts: &[Part],
    choices: &[Vec<OrderEntry>],
) -> Result<OrderChoices, AllocError>
    ensures { IfOk result (λ v. map (λ v. v.items) v.items ≡ rising (map part_of parts.now) (map (λ v. v.items) choices.now)) }
{
    let [place, ..] = choices else {
        return Ok(Vec::new(alloc));
    };
    let entries = rising_entries(alloc, parts, place.as_slice())?;
    if entries.is_empty() {
        return Ok(Vec::new(alloc));
    }
    let mut found = copied(alloc, choices)?;
    found[0] = entries;
    Ok(found)
}

// Of an exchange of several producers, which can have these parts.
fn choices_sent(
    alloc: Global,
    exchange: &Exchange,
    parts: &[Part],
    choices: &[Vec<OrderEntry>],
) -> Result<OrderChoices, AllocError>
    ensures { IfOk result (λ v. map (λ v. v.items) v.items ≡ places_sent (kind_of exchange.now.kind) exchange.now.merge.items (map part_of parts.now) (map (λ v. v.items) choices.now)) }
{
    match &exchange.kind {
        ExchangeKind::Concat => rising(alloc, parts, choices),
        ExchangeKind::Route(_, _, _)
        | ExchangeKind::Round(_)
        | ExchangeKind::Broadcast(_)
        | ExchangeKind::Gather => singles(alloc, OrderSeen::Listed(exchange.merge.as_slice())),
    }
}

// Of an operator over one input.
fn choices_along(
    alloc: Global,
    operator: &Unary,
    choices: &[Vec<OrderEntry>],
) -> Result<OrderChoices, AllocError>
    ensures { IfOk result (λ v. map (λ v. v.items) v.items ≡ places_up (described (unary_of operator.now)).copying (places_after (described (unary_of operator.now)).order (map (λ v. v.items) choices.now))) }
{
    let described = operator.described();
    match described.order {
        OrderAfter::Kept => choices_up(alloc, described.copying, choices),
        OrderAfter::SortedOn(order) => {
            let sorted = singles(alloc, OrderSeen::Listed(order))?;
            choices_up(alloc, described.copying, sorted.as_slice())
        }
    }
}

/// What may stand at each place of an order of the node, where the (left) input can claim these parts and these places.
pub fn choices_over(
    alloc: Global,
    catalog: &Catalog,
    node: &TypedNode,
    parts: &[Part],
    choices: &[Vec<OrderEntry>],
) -> Result<OrderChoices, AllocError>
    ensures { IfOk result (λ v. map (λ v. v.items) v.items ≡ places_over (relation_at catalog.now) (plan_of node.now) (map part_of parts.now) (map (λ v. v.items) choices.now)) }
{
    match node {
        TypedNode::Scan(_, scan) => singles(
            alloc,
            OrderSeen::Listed(catalog.order_of(scan.relation)),
        ),
        TypedNode::Unary(_, operator, _) => choices_along(alloc, operator, choices),
        TypedNode::Binary(_, operator, _, _) => choices_over_both(alloc, operator, choices),
        TypedNode::Exchange(_, exchange, input) => {
            if has_one_worker(input) {
                return narrowed(alloc, OrderSeen::Listed(exchange.merge.as_slice()), choices);
            }
            choices_sent(alloc, exchange, parts, choices)
        }
    }
}
