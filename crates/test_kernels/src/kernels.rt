//! Kernels that answer with more than rows, or with something else.

ghost use Rattle.std.specs.Prelude.{length};
ghost use Rattle.vx_rows.specs.View.{AreColumns};
ghost use Rattle.vx_rows_values.specs.Order.{order_columns};

use crate::case::{Case, all_below, entries, two_lists};
use crate::tables::{rows_of, shown_rows};
use anyhow::{Context, Error, bail};
use std::alloc::{AllocError, Global};
use vx_match_grouping::{GroupFault, grouped};
use vx_match_join::Build;
use vx_match_keys::{Seen, rises};
use vx_match_merging::{MergeFault, merge_join};
use vx_plan_nodes::Aggregate;
use vx_rows_values::{KeySeed, OrderEntry, order_columns};
use vx_rows_views::Rows;

// The merge join of rows on the same columns of both in these directions, or that one input falls.
fn merged(
    alloc: Global,
    order: &[OrderEntry],
    left: &Rows,
    right: &Rows,
) -> Result<String, AllocError>
    requires left { AreColumns (length left.now.types) (order_columns order.now) }
    requires right { AreColumns (length right.now.types) (order_columns order.now) }
{
    match merge_join(alloc, left, order, right, order) {
        Ok(joined) => shown_rows(alloc, &joined),
        Err(MergeFault::Falls) => String::from_str(alloc, "falls"),
        Err(MergeFault::NoMemory) => Err(AllocError),
    }
}

// What is new in the rows by some columns, and then in the others by columns of theirs.
fn new_in_turn(
    alloc: Global,
    columns: &[usize],
    rows: &Rows,
    later: &[usize],
    others: &Rows,
) -> Result<String, AllocError>
    requires columns { AreColumns (length rows.now.types) columns.now }
    requires later { AreColumns (length others.now.types) later.now }
{
    let mut seen = Seen::new(alloc, KeySeed::fixed());
    let first = shown_rows(alloc, &seen.keep_new(rows, columns)?)?;
    let second = shown_rows(alloc, &seen.keep_new(others, later)?)?;
    format!(in alloc; "{first} / {second}")
}

// The aggregate of this name, of column 0 or 1.
fn aggregate_of(name: &str) -> Option<Aggregate> {
    match name {
        "count" => Some(Aggregate::CountRows),
        "sum 0" => Some(Aggregate::Sum(0)),
        "least 0" => Some(Aggregate::Least(0)),
        "least 1" => Some(Aggregate::Least(1)),
        "greatest 0" => Some(Aggregate::Greatest(0)),
        "greatest 1" => Some(Aggregate::Greatest(1)),
        _ => None,
    }
}

// The aggregates of these names, with a comma between them.
fn aggregates_of(alloc: Global, names: &str) -> Result<Vec<Aggregate>, Error> {
    let mut aggregates = Vec::new(alloc);
    for name in names.split_terminator(',') {
        aggregates.push(aggregate_of(name.trim()).context("there is no such aggregate")?)?;
    }
    Ok(aggregates)
}

// The groups of rows, or that a number of theirs does not fit.
fn groups(alloc: Global, by: &[usize], rows: &Rows, names: &str) -> Result<String, Error>
    requires { AreColumns (length rows.now.types) by.now }
{
    let aggregates = aggregates_of(alloc, names)?;
    match grouped(alloc, KeySeed::fixed(), rows, by, aggregates.as_slice()) {
        Ok(groups) => Ok(shown_rows(alloc, &Rows::of_table(alloc, groups)?)?),
        Err(GroupFault::Overflow) => Ok(String::from_str(alloc, "overflow")?),
        Err(GroupFault::TooMany) => bail!("there are too many rows"),
        Err(GroupFault::NoMemory) => Err(AllocError.into()),
    }
}

/// What a kernel answers of the rows of a case in an order.
pub fn in_order(alloc: Global, case: &Case<'_>) -> Result<String, Error> {
    let rows = rows_of(alloc, case.rows)?;
    let others = rows_of(alloc, case.others)?;
    let entries = entries(alloc, case.arguments)?;
    let order = entries.as_slice();
    let columns = order_columns(alloc, order)?;
    if !all_below(columns.as_slice(), 2) {
        bail!("a column is too great");
    }
    match case.call {
        "merge" => Ok(merged(alloc, order, &rows, &others)?),
        _ => Ok(format!(in alloc; "{}", rises(&rows, order))?),
    }
}

/// What a kernel answers of the rows of a case by some columns.
pub fn answer(alloc: Global, case: &Case<'_>) -> Result<String, Error> {
    let rows = rows_of(alloc, case.rows)?;
    let others = rows_of(alloc, case.others)?;
    let (first, second) = two_lists(alloc, case.arguments)?;
    let columns = first.as_slice();
    let later = second.as_slice();
    if !all_below(columns, 2) || !all_below(later, 2) {
        bail!("a column is too great");
    }
    match case.call {
        "seen" => Ok(new_in_turn(alloc, columns, &rows, later, &others)?),
        "group" => groups(alloc, columns, &rows, case.steps),
        _ => bail!("there is no such kernel"),
    }
}

/// How many rows the first probe of a hash join on texts joins, and how many of its rows it leaves, if it is to end at as
/// many joined rows as the case says.
pub fn probed(alloc: Global, case: &Case<'_>) -> Result<String, Error> {
    let rows = rows_of(alloc, case.rows)?;
    let others = rows_of(alloc, case.others)?;
    let most = case
        .arguments
        .parse::<usize>()
        .ok()
        .context("it is no number")?;
    let mut build = Build::of(alloc, KeySeed::fixed(), &others, vec![in alloc; 1]?)?;
    let (joined, rest) = build.probe(rows, &[1], most)?;
    Ok(format!(in alloc; "{} joined, {} left", joined.len(), rest.len())?)
}
