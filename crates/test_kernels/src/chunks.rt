//! Chunks: cuts, places, projections and joins.

use crate::case::{Case, all_below, bounds, two_lists, word_of};
use crate::tables::{part_of, shown_rows, table_of};
use anyhow::{Error, bail};
use std::alloc::Global;
use std::sync::Arc;
use vx_rows_views::{Chunk, Rows};

// All rows of a table.
fn whole(alloc: Global, text: &str) -> Result<Chunk, Error> {
    let base = Arc::new(alloc, table_of(alloc, text)?)?;
    Ok(part_of(alloc, &base, &[])?)
}

// Rows of `left` at some places, with the rows of `right` at as many others beside them.
fn beside(
    alloc: Global,
    left: &Chunk,
    places: &[usize],
    right: &Chunk,
    others: &[usize],
) -> Result<Chunk, Error> {
    let there = all_below(places, left.len()) && all_below(others, right.len());
    if there && places.len() == others.len() {
        return Ok(Chunk::joined(alloc, left, places, right, others)?);
    }
    bail!("a place is too great, or has no other beside it");
}

// What a step makes of the rows so far, where `first` are those that the steps began with and `others` those of another
// table.
fn followed(
    alloc: Global,
    chunk: &Chunk,
    step: &str,
    first: &Chunk,
    others: &Chunk,
) -> Result<Chunk, Error> {
    let (verb, rest) = word_of(step);
    let (left, right) = two_lists(alloc, rest)?;
    let (list, other_list) = (left.as_slice(), right.as_slice());
    match verb {
        "cut" => {
            let (from, to) = bounds(list, chunk.len());
            Ok(chunk.slice(alloc, from, to)?)
        }
        "at" if all_below(list, chunk.len()) => Ok(chunk.at(alloc, list)?),
        "columns" if all_below(list, chunk.types().len()) => {
            Ok(chunk.share(alloc)?.project(alloc, list)?)
        }
        "share" => Ok(chunk.share(alloc)?),
        "first" => beside(alloc, chunk, list, first, other_list),
        "others" => beside(alloc, chunk, list, others, other_list),
        _ => bail!("there is no such step, place or column"),
    }
}

/// What the steps of a case make of its rows. The table that they were in is let go.
pub fn made(alloc: Global, case: &Case<'_>) -> Result<Chunk, Error> {
    let first = whole(alloc, case.rows)?;
    let others = whole(alloc, case.others)?;
    let mut chunk = first.share(alloc)?;
    for step in case.steps.split_terminator(',') {
        chunk = followed(alloc, &chunk, step.trim(), &first, &others)?;
    }
    Ok(chunk)
}

/// What the steps of a case make of its rows, as text.
pub fn answer(alloc: Global, case: &Case<'_>) -> Result<String, Error> {
    let chunk = made(alloc, case)?;
    let is_empty = chunk.is_empty();
    let mut rows = Rows::new(alloc, chunk.types())?;
    rows.push(chunk)?;
    if rows.is_empty() != is_empty {
        bail!("a chunk is empty where its rows are not, or the other way round");
    }
    Ok(shown_rows(alloc, &rows)?)
}
