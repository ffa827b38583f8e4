//! Whether rows rise in an order: none goes before the one in front of it. In a falling column a greater value goes before a smaller one.

ghost use Rattle.std.specs.Prelude.{◌≡◌, ◌∷◌, [], ◌<◌, ℕ, ℤ, suc, Bool, List, map, length, true, false};
ghost use Rattle.std.specs.Ordering.{is_lt, is_le, int_cmp};
ghost use Rattle.vx_rows_values.specs.Values.{Row as Cells, pick};
ghost use Rattle.vx_rows_values.specs.Order.{order_columns, compare_on, sorted};
ghost use Rattle.vx_rows.specs.View.{row, AreColumns};
ghost use Rattle.vx_match_keys.specs.Rising.{IsRiseAnswer, AtMostAnswer};

use crate::columns::IntColumn;
use std::cmp::Ordering;
use vx_rows_values::OrderEntry;
use vx_rows_views::{Chunk, Rows};

// How many numbers are read and compared at once.
const BLOCK: usize = 64;

// Whether each of some numbers is at most the one at its place in another list. No branch stops it at one that is not, so that several are compared
// at once.
fn are_at_most(lower: &[i64], upper: &[i64]) -> bool
    requires { length lower.now ≡ length upper.now }
    ensures { AtMostAnswer lower.now upper.now (length lower.now) result }
{
    let mut all = true;
    for i in 0..lower.len() {
        all &= lower[i].cmp(&upper[i]).is_le();
    }
    all
}

// Whether none of these numbers is less than the one before it, or where they are to fall, greater.
fn block_rises(numbers: &[i64], falling: bool) -> bool
    ensures { IsRiseAnswer falling numbers.now result }
{
    let Some(last) = numbers.len().checked_sub(1) else {
        return true;
    };
    let (before, behind) = (&numbers[..last], &numbers[1..]);
    if falling {
        are_at_most(behind, before)
    } else {
        are_at_most(before, behind)
    }
}

// Whether rows rise in this direction of a column, where these numbers are what they have there.
fn numbers_rise(numbers: &IntColumn<'_>, falling: bool) -> bool
    ensures { (column : ℕ) → (rows : List Cells) → numbers.now ≡ map (pick (column ∷ [])) rows → result ≡ sorted (record { column = column; falling = falling } ∷ []) rows }
{
    let count = numbers.len();
    let mut found = [0; BLOCK];
    let mut from = 0;
    while from + 1 < count {
        let block = BLOCK.min(count - from);
        numbers.read(from, &mut found[..block]);
        if !block_rises(&found[..block], falling) {
            return false;
        }
        // the last number of a block is the first of the next one too
        from += block - 1;
    }
    true
}

// Compares two rows of a chunk entry by entry, where they lie.
fn compare_in(chunk: &Chunk, order: &[OrderEntry], i: usize, j: usize) -> Ordering
    requires columns { AreColumns (length chunk.now.types) (order_columns order.now) }
    requires row { i < length chunk.now.rows }
    requires other { j < length chunk.now.rows }
    ensures { result ≡ compare_on order.now (row chunk.now i) (row chunk.now j) }
{
    for entry in order {
        match entry.compare(chunk.cell(i, entry.column), chunk.cell(j, entry.column)) {
            Ordering::Equal => {}
            other => return other,
        }
    }
    Ordering::Equal
}

// Whether the rows of a chunk rise.
fn chunk_rises(chunk: &Chunk, order: &[OrderEntry]) -> bool
    requires { AreColumns (length chunk.now.types) (order_columns order.now) }
    ensures { result ≡ sorted order.now chunk.now.rows }
{
    if let [entry] = order {
        if let Some(numbers) = IntColumn::of(chunk, &[entry.column]) {
            return numbers_rise(&numbers, entry.falling);
        }
    }
    for i in 1..chunk.len() {
        if compare_in(chunk, order, i, i - 1).is_lt() {
            return false;
        }
    }
    true
}

/// Compares two rows entry by entry, where they lie.
pub fn compare_rows(order: &[OrderEntry], a: &Rows, i: usize, b: &Rows, j: usize) -> Ordering
    requires types { a.now.types ≡ b.now.types }
    requires columns { AreColumns (length a.now.types) (order_columns order.now) }
    requires a { i < length a.now.rows }
    requires b { j < length b.now.rows }
    ensures { result ≡ compare_on order.now (row a.now i) (row b.now j) }
{
    for entry in order {
        match entry.compare(a.cell(i, entry.column), b.cell(j, entry.column)) {
            Ordering::Equal => {}
            other => return other,
        }
    }
    Ordering::Equal
}

// Whether there is a row at a place, and it goes before the one in front of it.
fn falls_at(rows: &Rows, order: &[OrderEntry], at: usize) -> bool
    requires { AreColumns (length rows.now.types) (order_columns order.now) }
    ensures falls { result ≡ true → sorted order.now rows.now.rows ≡ false }
    ensures rises { result ≡ false → (k : ℕ) → suc k ≡ at → suc k < length rows.now.rows → is_lt (compare_on order.now (row rows.now (suc k)) (row rows.now k)) ≡ false }
{
    if at == 0 || at >= rows.len() {
        return false;
    }
    compare_rows(order, rows, at, rows, at - 1).is_lt()
}

/// Whether no row goes before the one in front of it. Each chunk is looked at by itself, and then where it meets the one in front of it.
pub fn rises(rows: &Rows, order: &[OrderEntry]) -> bool
    requires { AreColumns (length rows.now.types) (order_columns order.now) }
    ensures { result ≡ sorted order.now rows.now.rows }
{
    // no chunk ends above this
    let _count = rows.len();
    let chunks = rows.chunks();
    let mut at = 0;
    for i in 0..chunks.len() {
        let chunk = &chunks[i];
        if falls_at(rows, order, at) || !chunk_rises(chunk, order) {
            return false;
        }
        at += chunk.len();
    }
    true
}
