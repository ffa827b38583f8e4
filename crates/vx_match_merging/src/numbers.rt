//! Keys that are one number each: they are read a block at a time, and compared without going back to the rows.

ghost use Rattle.std.specs.Prelude.{◌≡◌, ◌+◌, ◌-◌, ◌*◌, ◌^◌, ◌<◌, ◌≤◌, ◌++◌, ℕ, List, length, map, take, slice_range, OnOk, IfOk};
ghost use Rattle.vx_rows_values.specs.Values.{Row as Cells, num};
ghost use Rattle.vx_rows_values.specs.Order.{order_columns, compare_values};
ghost use Rattle.vx_rows.specs.View.{AreColumns, ArePositions};
ghost use Rattle.vx_match_keys.specs.Columns.{number_key};
ghost use Rattle.vx_match_merging.specs.Merged.{MergeView, IsMerged, rows_at};
ghost use Rattle.vx_match_merging.specs.Numbers.{AreKeysFrom, HasNumbers, at_place};

use crate::side_by_side::{MatchedPositions, add_pairs};
use std::alloc::AllocError;
use std::cmp::Ordering;
use vx_match_keys::IntColumn;
use vx_rows_values::OrderEntry;
use vx_rows_views::Rows;

// Reads the numbers of a column from one on, as many as there are places, and returns how many these were.
fn read_part(column: &IntColumn<'_>, from: usize, numbers: &mut [i64]) -> usize
    requires { from ≤ length column.now }
    ensures len { length numbers.new ≡ length numbers.old }
    ensures many { result ≤ length numbers.new }
    ensures within { from + result ≤ length column.now }
    ensures numbers { map number_key (take result numbers.new) ≡ slice_range column.now from (from + result) }
{
    let count = numbers.len().min(column.len() - from);
    column.read(from, &mut numbers[..count]);
    count
}

/// Reads the keys of rows from one row on, where each is one number: of the rows that lie in one chunk, as many as there are
/// places. Returns how many these were, which is none where the keys are of another kind.
pub(crate) fn read_keys(
    rows: &Rows,
    order: &[OrderEntry],
    from: usize,
    numbers: &mut [i64],
) -> usize
    requires columns { AreColumns (length rows.now.types) (order_columns order.now) }
    requires from { from ≤ length rows.now.rows }
    ensures len { length numbers.new ≡ length numbers.old }
    ensures many { result ≤ length numbers.new }
    ensures within { from + result ≤ length rows.now.rows }
    ensures room { from + result < 2 ^ 64 }
    ensures keys { AreKeysFrom order.now rows.now.rows from numbers.new result }
{
    if order.len() != 1 || from == rows.len() {
        return 0;
    }
    let (chunk, place) = rows.chunk_at(from);
    match IntColumn::of(chunk, &[order[0].column]) {
        Some(column) => read_part(&column, place, numbers),
        None => 0,
    }
}

// Compares two numbers, in a falling column the other way round.
fn compare_numbers(a: i64, b: i64, falling: bool) -> Ordering
    ensures { result ≡ compare_values falling (num a) (num b) }
{
    if falling { b.cmp(&a) } else { a.cmp(&b) }
}

/// Where a merge stands: at which left row, and where the run of its key starts and ends, as far as right rows were passed.
#[derive(Clone, Copy)]
pub(crate) struct MergePlace {
    pub next: usize,
    pub start: usize,
    pub end: usize,
}

/// Goes on from a place by the numbers of the left and the right rows from there on, until either come to their end or
/// `most` pairs or more were made, and returns the place behind. The last left number is only compared with the one before.
pub(crate) fn join_numbers(
    pairs: &mut MatchedPositions,
    most: usize,
    lefts: &[i64],
    rights: &[i64],
    falling: bool,
    from: MergePlace,
) -> Result<MergePlace, AllocError>
    requires many { length pairs.old.left.items ≡ length pairs.old.right.items }
    requires order { from.start ≤ from.end }
    requires left_room { from.next + length lefts.now < 2 ^ 64 }
    requires right_room { from.end + length rights.now < 2 ^ 64 }
    ensures next { IfOk result (λ p. from.next ≤ p.next) }
    ensures end { IfOk result (λ p. from.end ≤ p.end) }
    ensures order { IfOk result (λ p. p.start ≤ p.end) }
    ensures left_within { IfOk result (λ p. p.next ≤ from.next + length lefts.now) }
    ensures right_within { IfOk result (λ p. p.end ≤ from.end + length rights.now) }
    ensures many { OnOk result (length pairs.new.left.items ≡ length pairs.new.right.items) }
    ensures left { OnOk result ((n : ℕ) → from.next + length lefts.now ≤ n → ArePositions n pairs.old.left.items → ArePositions n pairs.new.left.items) }
    ensures right { OnOk result ((n : ℕ) → from.end + length rights.now ≤ n → ArePositions n pairs.old.right.items → ArePositions n pairs.new.right.items) }
    ensures fewer { IfOk result (λ p. (l r : ℕ) → from.next + length lefts.now ≤ l → from.end + length rights.now ≤ r
        → (l - p.next) * r + length pairs.new.left.items ≤ (l - from.next) * r + length pairs.old.left.items) }
    ensures still { IfOk result (λ p. p.next ≡ from.next → p.end ≡ from.end → (p ≡ from) × (pairs.new ≡ pairs.old)) }
    ensures joined { IfOk result (λ p. (s : MergeView) (earlier passed ys : List Cells) → HasNumbers s from falling lefts.now rights.now
        → IsMerged (at_place s from) earlier passed (ys ++ rows_at s.left s.right pairs.old.left.items pairs.old.right.items)
        → IsMerged (at_place s p) earlier passed (ys ++ rows_at s.left s.right pairs.new.left.items pairs.new.right.items)) }
{
    let mut start = from.start;
    let mut i = 0;
    let mut j = 0;
    while i + 1 < lefts.len() && j < rights.len() && pairs.left.len() < most {
        let left = lefts[i];
        match compare_numbers(left, rights[j], falling) {
            Ordering::Greater => {
                j += 1;
                start = from.end + j;
            }
            Ordering::Equal => j += 1,
            Ordering::Less => {
                add_pairs(pairs, from.next + i, start, from.end + j)?;
                i += 1;
                // a later key has a new run, behind this one
                if compare_numbers(left, lefts[i], falling).is_lt() {
                    start = from.end + j;
                }
            }
        }
    }
    Ok(MergePlace {
        next: from.next + i,
        start,
        end: from.end + j,
    })
}
