//! Whether keys that were found are those of rows, a block of rows at a time and column by column.

ghost use Rattle.std.specs.Prelude.{◌≡◌, ◌+◌, ◌<◌, ◌≤◌, ◌∷◌, [], ℕ, pos, length, slice_index, slice_index_or, IsTrue};
ghost use Rattle.vx_rows_values.specs.Values.{pick, value_at};
ghost use Rattle.vx_rows.specs.View.{row, AreColumns, ArePositions};
ghost use Rattle.vx_match_keys.specs.Columns.{number_key, text_key};
ghost use Rattle.vx_match_keys.specs.Values.{value_keys};

use crate::columns::{IntColumn, TextColumn, ValueColumn};
use crate::key_hashes::BLOCK;
use vx_rows::{Numbers, Table, Texts};
use vx_rows_views::Chunk;

// Whether the numbers at some places are those of the rows from one on.
fn have_numbers(known: &Numbers, places: &[usize], column: &IntColumn<'_>, from: usize) -> bool
    requires places { ArePositions (length known.now) places.now }
    requires there { from + length places.now ≤ length column.now }
    requires block { length places.now ≤ BLOCK }
    ensures { IsTrue result → (k : ℕ) → k < length places.now → number_key (slice_index_or known.now (slice_index places.now k) (pos 0)) ≡ slice_index_or column.now (from + k) [] }
{
    let mut block = [0; BLOCK];
    let numbers = &mut block[..places.len()];
    column.read(from, numbers);
    for i in 0..places.len() {
        if known.get(places[i]) != numbers[i] {
            return false;
        }
    }
    true
}

// Whether the texts at some places are those of the rows from one on.
fn have_texts(known: &Texts, places: &[usize], column: &TextColumn<'_>, from: usize) -> bool
    requires places { ArePositions (length known.now) places.now }
    requires there { from + length places.now ≤ length column.now }
    ensures { IsTrue result → (k : ℕ) → k < length places.now → text_key (slice_index_or known.now (slice_index places.now k) []) ≡ slice_index_or column.now (from + k) [] }
{
    // no row is above this
    let _count = column.len();
    for i in 0..places.len() {
        if known.get(places[i]) != column.get(from + i) {
            return false;
        }
    }
    true
}

// Whether the keys at some places have in column j the values of the rows from one on.
fn have_values(
    keys: &Table,
    j: usize,
    places: &[usize],
    column: &ValueColumn<'_>,
    from: usize,
) -> bool
    requires column { j < length keys.now.types }
    requires places { ArePositions (length keys.now.rows) places.now }
    requires there { from + length places.now ≤ length (value_keys column.now) }
    requires block { length places.now ≤ BLOCK }
    ensures { IsTrue result → (k : ℕ) → k < length places.now → value_at (row keys.now (slice_index places.now k)) j ∷ [] ≡ slice_index_or (value_keys column.now) (from + k) [] }
{
    match column {
        ValueColumn::Ints(numbers) => match keys.numbers(j) {
            Some(known) => have_numbers(known, places, numbers, from),
            None => false,
        },
        ValueColumn::Texts(texts) => match keys.texts(j) {
            Some(known) => have_texts(known, places, texts, from),
            None => false,
        },
    }
}

/// Whether the keys at some places are those that the rows from one on have in these columns.
pub(crate) fn have_keys(
    keys: &Table,
    places: &[usize],
    chunk: &Chunk,
    columns: &[usize],
    from: usize,
) -> bool
    requires places { ArePositions (length keys.now.rows) places.now }
    requires columns { AreColumns (length chunk.now.types) columns.now }
    requires there { from + length places.now ≤ length chunk.now.rows }
    requires block { length places.now ≤ BLOCK }
    ensures { IsTrue result → (k : ℕ) → k < length places.now → row keys.now (slice_index places.now k) ≡ pick columns.now (row chunk.now (from + k)) }
{
    if keys.types().len() != columns.len() {
        return false;
    }
    for j in 0..columns.len() {
        if !have_values(keys, j, places, &ValueColumn::of(chunk, columns[j]), from) {
            return false;
        }
    }
    true
}
