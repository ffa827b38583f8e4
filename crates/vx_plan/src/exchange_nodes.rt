//! Exchanges and scans.

ghost use Rattle.std.specs.Prelude.{◌≡◌, ◌<◌, length, string_bytes, position, IfOk};
ghost use Rattle.vx_plan_json.specs.Fault.{Gives};
ghost use Rattle.vx_plan_json.specs.Document.{kind_form};
ghost use Rattle.vx_plan_nodes.specs.Outline.{columns_of, kind_of};
ghost use Rattle.vx_plan.specs.Lookup.{test_distinct};
ghost use Rattle.vx_plan.specs.Resolve.{find_kind, kind_names, kind_fits, exchange_columns, test_exchange, exchange_shape, find_relation};
ghost use Rattle.vx_plan.specs.Named.{names_of};

use crate::claims::single;
use crate::fits::route_fits;
use crate::lookup::{
    Declared, find_column, find_columns, find_order, find_range, find_size, test_distinct,
    test_distinct_order, test_match,
};
use std::alloc::Global;
use vx_catalog_json::OrderText;
use vx_plan_json::{NamedKind, PlanFault};
use vx_plan_nodes::{Columns, Exchange, ExchangeKind, Name, Route};
use vx_rows_values::ColType;

// How an exchange sends: a size comes before a range, and that before columns.
#[tactic(auto, unfolding(crate::specs::Resolve::find_kind))]
fn find_kind(
    alloc: Global,
    declared: &Declared<'_>,
    node: u32,
    names: &[Name],
    kind: &NamedKind,
) -> Result<ExchangeKind, PlanFault>
    ensures { Gives kind_of result (find_kind (names_of declared.now) node names.now (kind_form kind.now)) }
{
    match kind {
        NamedKind::Hash {
            size,
            route,
            columns,
        } => {
            let size = find_size(alloc, declared, size.as_str())?;
            let positions = find_columns(alloc, node, names, columns.as_slice())?;
            let name = String::from_str(alloc, route.as_str())?;
            Ok(ExchangeKind::Route(size, Route::Hash(name), positions))
        }
        NamedKind::Range {
            size,
            range,
            column,
        } => {
            let size = find_size(alloc, declared, size.as_str())?;
            let number = find_range(alloc, declared, node, range.as_str())?;
            let position = find_column(alloc, node, names, column.as_str())?;
            let positions = single(alloc, position)?;
            Ok(ExchangeKind::Route(size, Route::Range(number), positions))
        }
        NamedKind::Round(size) => Ok(ExchangeKind::Round(find_size(
            alloc,
            declared,
            size.as_str(),
        )?)),
        NamedKind::Broadcast(size) => {
            let size = find_size(alloc, declared, size.as_str())?;
            Ok(ExchangeKind::Broadcast(size))
        }
        NamedKind::Gather => Ok(ExchangeKind::Gather),
        NamedKind::Concat => Ok(ExchangeKind::Concat),
    }
}

// The hashed columns of an exchange stand once.
#[tactic(auto, unfolding(crate::specs::Lookup::test_distinct, crate::specs::Lookup::tested_onto))]
fn kind_once(alloc: Global, node: u32, kind: &NamedKind) -> Result<(), PlanFault>
    ensures { Gives (λ _. tt) result (test_distinct node (kind_names (kind_form kind.now))) }
{
    match kind {
        NamedKind::Hash { columns, .. } => test_distinct(alloc, node, columns.as_slice()),
        NamedKind::Range { .. }
        | NamedKind::Round(_)
        | NamedKind::Broadcast(_)
        | NamedKind::Gather
        | NamedKind::Concat => Ok(()),
    }
}

fn kind_fits(declared: &Declared<'_>, types: &[ColType], kind: &ExchangeKind) -> bool
    ensures { result ≡ kind_fits (names_of declared.now) types.now (kind_of kind.now) }
{
    match kind {
        ExchangeKind::Route(_, route, columns) => route_fits(
            declared,
            types,
            route,
            columns.as_slice(),
        ),
        ExchangeKind::Round(_)
        | ExchangeKind::Broadcast(_)
        | ExchangeKind::Gather
        | ExchangeKind::Concat => true,
    }
}

#[tactic(auto, unfolding(crate::specs::Resolve::exchange_columns))]
fn exchange_columns(
    alloc: Global,
    declared: &Declared<'_>,
    node: u32,
    names: &[Name],
    kind: &NamedKind,
    merge: &[OrderText],
) -> Result<Exchange, PlanFault>
    ensures { Gives (λ e. (kind_of e.kind, e.merge.items)) result (exchange_columns (names_of declared.now) node names.now (kind_form kind.now) merge.now) }
{
    let kind = find_kind(alloc, declared, node, names, kind)?;
    let merge = find_order(alloc, node, names, merge)?;
    Ok(Exchange { kind, merge })
}

#[tactic(auto, unfolding(crate::specs::Resolve::test_exchange))]
fn test_exchange(
    alloc: Global,
    node: u32,
    kind: &NamedKind,
    merge: &[OrderText],
) -> Result<(), PlanFault>
    ensures { Gives (λ _. tt) result (test_exchange node (kind_form kind.now) merge.now) }
{
    kind_once(alloc, node, kind)?;
    test_distinct_order(alloc, node, merge)
}

/// An exchange by positions. The routed columns come before those to merge on.
#[tactic(auto, unfolding(crate::specs::Resolve::exchange_shape))]
pub fn exchange_shape(
    alloc: Global,
    declared: &Declared<'_>,
    node: u32,
    input: &Columns,
    kind: &NamedKind,
    merge: &[OrderText],
) -> Result<Exchange, PlanFault>
    ensures { Gives (λ e. (kind_of e.kind, e.merge.items)) result (exchange_shape (names_of declared.now) node (columns_of input.now) (kind_form kind.now) merge.now) }
{
    let exchange = exchange_columns(alloc, declared, node, input.names.as_slice(), kind, merge)?;
    test_exchange(alloc, node, kind, merge)?;
    test_match(
        node,
        kind_fits(declared, input.types.as_slice(), &exchange.kind),
    )?;
    Ok(exchange)
}

/// The number of the relation of this name.
#[tactic(auto, unfolding(crate::specs::Resolve::find_relation))]
pub fn find_relation(
    alloc: Global,
    declared: &Declared<'_>,
    node: u32,
    name: &str,
) -> Result<usize, PlanFault>
    ensures value { Gives (λ r. r) result (find_relation (names_of declared.now) node name.now) }
    ensures there { IfOk result (λ r. r < length declared.now.catalog.now) }
{
    match declared.catalog.find(name) {
        Some(relation) => Ok(relation),
        None => Err(PlanFault::UnknownRelation {
            node,
            name: String::from_str(alloc, name)?,
        }),
    }
}
