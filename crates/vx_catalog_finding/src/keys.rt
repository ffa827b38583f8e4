//! The keys that rows have.

ghost use Rattle.std.specs.Prelude.{◌≡◌, ◌<◌, ◌≤◌, ◌++◌, length, map, IfOk, OnOk};
ghost use Rattle.vx_rows_values.specs.Keys.{is_key};
ghost use Rattle.vx_rows.specs.View.{AreColumns};
ghost use Rattle.vx_catalog_finding.specs.Found.{if_key, single_keys, pairs_with, pair_keys, keys_in};

use std::alloc::{AllocError, Global};
use vx_rows::Table;
use vx_rows_values::limits::MAX_KEYS;

// How many columns are tried in pairs.
const PAIRED_COLUMNS: usize = 8;

// Whether no two rows agree on these columns.
fn is_key(alloc: Global, rows: &Table, cols: &[usize]) -> Result<bool, AllocError>
    requires { AreColumns (length rows.now.types) cols.now }
    ensures { IfOk result (λ b. b ≡ is_key cols.now rows.now.rows) }
{
    Ok(rows.first_key_clash(alloc, cols)?.is_none())
}

// Adds these columns to the keys, if they are one.
fn push_if_key(
    alloc: Global,
    keys: &mut Vec<Vec<usize>>,
    rows: &Table,
    cols: &[usize],
) -> Result<(), AllocError>
    requires { AreColumns (length rows.now.types) cols.now }
    ensures { OnOk result (map (λ k. k.items) keys.new.items ≡ map (λ k. k.items) keys.old.items ++ if_key cols.now rows.now.rows) }
{
    if is_key(alloc, rows, cols)? {
        keys.push(Vec::from_slice(alloc, cols)?)?;
    }
    Ok(())
}

// The columns that are keys by themselves.
#[tactic(auto, using(crate::proofs::KeyFacts::single_more))]
fn single_keys(alloc: Global, rows: &Table) -> Result<Vec<Vec<usize>>, AllocError>
    ensures { IfOk result (λ v. map (λ k. k.items) v.items ≡ single_keys (length rows.now.types) rows.now.rows) }
{
    let mut keys = Vec::new(alloc);
    for column in 0..rows.types().len() {
        push_if_key(alloc, &mut keys, rows, &[column])?;
    }
    Ok(keys)
}

// Adds the keys of this column and one before it.
#[tactic(auto, using(crate::proofs::KeyFacts::pairs_more))]
fn push_pairs_with(
    alloc: Global,
    keys: &mut Vec<Vec<usize>>,
    rows: &Table,
    second: usize,
) -> Result<(), AllocError>
    requires { second < length rows.now.types }
    ensures { OnOk result (map (λ k. k.items) keys.new.items ≡ map (λ k. k.items) keys.old.items ++ pairs_with second second rows.now.rows) }
{
    for first in 0..second {
        push_if_key(alloc, keys, rows, &[first, second])?;
    }
    Ok(())
}

// The keys of two of the first columns.
#[tactic(auto, using(crate::proofs::KeyFacts::pair_more))]
fn pair_keys(alloc: Global, rows: &Table, columns: usize) -> Result<Vec<Vec<usize>>, AllocError>
    requires { columns ≤ length rows.now.types }
    ensures { IfOk result (λ v. map (λ k. k.items) v.items ≡ pair_keys columns rows.now.rows) }
{
    let mut keys = Vec::new(alloc);
    for second in 0..columns {
        push_pairs_with(alloc, &mut keys, rows, second)?;
    }
    Ok(keys)
}

/// The keys of rows: the columns that are keys by themselves, or if there are none, pairs of the first columns.
pub fn keys_of(alloc: Global, rows: &Table) -> Result<Vec<Vec<usize>>, AllocError>
    ensures { IfOk result (λ v. map (λ k. k.items) v.items ≡ keys_in (length rows.now.types) rows.now.rows) }
{
    let mut keys = single_keys(alloc, rows)?;
    if keys.is_empty() {
        keys = pair_keys(alloc, rows, rows.types().len().min(PAIRED_COLUMNS))?;
    }
    keys.truncate(MAX_KEYS);
    Ok(keys)
}
