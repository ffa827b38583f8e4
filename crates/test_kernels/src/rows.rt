//! Rows in many chunks: how they are made, and what calls that give rows make of them.

use crate::case::{Case, all_below, bounds, entries, numbers, word_of};
use crate::tables::{rows_of, shown_rows, table_of};
use anyhow::{Error, bail};
use std::alloc::Global;
use std::sync::Arc;
use vx_match_join::hash_join;
use vx_match_keys::Seen;
use vx_ops_kernels::sorted_chunks;
use vx_rows_values::{KeySeed, order_columns};
use vx_rows_views::Rows;

// The rows of a shared table between two bounds, as far as there are such.
fn part(alloc: Global, case: &Case<'_>) -> Result<Rows, Error> {
    let base = Arc::new(alloc, table_of(alloc, case.rows)?)?;
    let (from, to) = bounds(numbers(alloc, case.arguments)?.as_slice(), base.len());
    Ok(Rows::of(alloc, &base, from, to)?)
}

// The rows with the others behind them, taken out of rows that have to be empty then.
fn taken(alloc: Global, case: &Case<'_>) -> Result<Rows, Error> {
    let mut rows = rows_of(alloc, case.rows)?;
    rows.append(rows_of(alloc, case.others)?)?;
    let taken = rows.take(alloc)?;
    if !rows.is_empty() {
        bail!("rows are left where all were taken");
    }
    Ok(taken)
}

// The rows that the steps of a case begin with.
fn start(alloc: Global, case: &Case<'_>) -> Result<Rows, Error> {
    match case.call {
        "table" => Ok(Rows::of_table(alloc, table_of(alloc, case.rows)?)?),
        "part" => part(alloc, case),
        "taken" => taken(alloc, case),
        _ => rows_of(alloc, case.rows),
    }
}

// What a kernel makes of rows by some of their columns: a hash join is on the same columns of `others`.
fn by_columns(
    alloc: Global,
    kernel: &str,
    columns: &[usize],
    rows: Rows,
    others: &Rows,
) -> Result<Rows, Error> {
    if !all_below(columns, rows.types().len()) || !all_below(columns, others.types().len()) {
        bail!("a column is too great");
    }
    let made = match kernel {
        "columns" => rows.project(alloc, columns),
        "distinct" => Seen::new(alloc, KeySeed::fixed()).keep_new(&rows, columns),
        "hash" => {
            let on = Vec::from_slice(alloc, columns)?;
            hash_join(alloc, KeySeed::fixed(), rows, columns, others, on)
        }
        _ => bail!("there is no such step, or a place is too great"),
    };
    Ok(made?)
}

// The rows in an order.
fn sorted(alloc: Global, rows: &Rows, text: &str) -> Result<Rows, Error> {
    let order = entries(alloc, text)?;
    let columns = order_columns(alloc, order.as_slice())?;
    if !all_below(columns.as_slice(), rows.types().len()) {
        bail!("a column is too great");
    }
    Ok(sorted_chunks(alloc, rows, order.as_slice())?)
}

// What a step makes of rows, with others beside them where it is a join.
fn followed(alloc: Global, mut rows: Rows, step: &str, others: &Rows) -> Result<Rows, Error> {
    let (verb, rest) = word_of(step);
    if verb == "sort" {
        return sorted(alloc, &rows, rest);
    }
    let numbers = numbers(alloc, rest)?;
    let list = numbers.as_slice();
    match verb {
        "cut" => {
            let (from, to) = bounds(list, rows.len());
            Ok(rows.slice(alloc, from, to)?)
        }
        "at" if all_below(list, rows.len()) => Ok(rows.at(alloc, list)?),
        "clear" => {
            rows.clear();
            Ok(rows)
        }
        _ => by_columns(alloc, verb, list, rows, others),
    }
}

// What the steps of a case make of its rows.
fn made(alloc: Global, case: &Case<'_>) -> Result<Rows, Error> {
    let others = rows_of(alloc, case.others)?;
    let mut rows = start(alloc, case)?;
    for step in case.steps.split_terminator(',') {
        rows = followed(alloc, rows, step.trim(), &others)?;
    }
    Ok(rows)
}

/// What the steps of a case make of its rows, as text, and in how many chunks they are if the call asks for that.
pub fn answer(alloc: Global, case: &Case<'_>) -> Result<String, Error> {
    let rows = made(alloc, case)?;
    let text = shown_rows(alloc, &rows)?;
    if case.call == "rows" || case.call == "taken" {
        return Ok(text);
    }
    Ok(format!(in alloc; "{} chunks: {text}", rows.chunks().len())?)
}
