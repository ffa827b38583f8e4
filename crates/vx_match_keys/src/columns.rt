//! Columns whose values are keys by themselves, read where they lie.

ghost use Rattle.std.specs.Prelude.{◌≡◌, ◌+◌, ◌^◌, ◌<◌, ◌≤◌, ◌∷◌, [], pos, length, map, slice_index, slice_index_or, slice_range, All, IfSome};
ghost use Rattle.vx_rows_values.specs.Values.{pick};
ghost use Rattle.vx_rows.specs.View.{AreColumns};
ghost use Rattle.vx_rows.specs.Numbers.{seen_numbers};
ghost use Rattle.vx_rows_views.specs.Seen.{seen_positions};
ghost use Rattle.vx_match_keys.specs.Columns.{number_key, text_key};

use std::marker::Model;
use vx_rows::{NumbersRef, Texts};
use vx_rows_views::{Chunk, Position, PositionsRef};

// How many positions there are.
fn count_of(at: PositionsRef<'_>) -> usize
    ensures { result ≡ length (seen_positions at.entry) }
{
    match at {
        PositionsRef::Range(_, count) => count,
        PositionsRef::Narrow(positions) => positions.len(),
        PositionsRef::Wide(positions) => positions.len(),
    }
}

// Position k.
fn position_at(at: PositionsRef<'_>, k: usize) -> usize
    requires there { k < length (seen_positions at) }
    requires fits { slice_index (seen_positions at) k < 2 ^ 64 }
    ensures { result ≡ slice_index (seen_positions at.entry) k }
{
    match at {
        PositionsRef::Range(from, _) => from + k,
        PositionsRef::Narrow(positions) => positions[k] as usize,
        PositionsRef::Wide(positions) => positions[k],
    }
}

// How many numbers there are.
fn number_count(numbers: NumbersRef<'_>) -> usize
    ensures { result ≡ length (seen_numbers numbers.entry) }
{
    match numbers {
        NumbersRef::Narrow(narrow) => narrow.len(),
        NumbersRef::Wide(wide) => wide.len(),
    }
}

// The number at a position.
fn number_at(numbers: NumbersRef<'_>, position: usize) -> i64
    requires { position < length (seen_numbers numbers) }
    ensures { result ≡ slice_index_or (seen_numbers numbers.entry) position (pos 0) }
{
    match numbers {
        NumbersRef::Narrow(narrow) => i64::from(narrow[position]),
        NumbersRef::Wide(wide) => wide[position],
    }
}

// Puts numbers of 32 bits into a slice of as many.
fn widen(narrow: &[i32], numbers: &mut [i64])
    requires { length narrow.now ≡ length numbers.old }
    ensures len { length numbers.new ≡ length numbers.old }
    ensures numbers { numbers.new ≡ narrow.now }
{
    for i in 0..numbers.len() {
        numbers[i] = i64::from(narrow[i]);
    }
}

// Puts the numbers of 32 bits at some positions into a slice of as many.
fn widen_at<P: Position>(narrow: &[i32], positions: &[P], numbers: &mut [i64])
    requires long { length positions.now ≡ length numbers.old }
    requires there { All (λ p. P.place p < length narrow.now) positions.now }
    ensures len { length numbers.new ≡ length numbers.old }
    ensures numbers { numbers.new ≡ map (λ p. slice_index_or narrow.now (P.place p) (pos 0)) positions.now }
{
    for i in 0..numbers.len() {
        numbers[i] = i64::from(narrow[positions[i].place()]);
    }
}

// Puts the numbers of 64 bits at some positions into a slice of as many.
fn copy_at<P: Position>(wide: &[i64], positions: &[P], numbers: &mut [i64])
    requires long { length positions.now ≡ length numbers.old }
    requires there { All (λ p. P.place p < length wide.now) positions.now }
    ensures len { length numbers.new ≡ length numbers.old }
    ensures numbers { numbers.new ≡ map (λ p. slice_index_or wide.now (P.place p) (pos 0)) positions.now }
{
    for i in 0..numbers.len() {
        numbers[i] = wide[positions[i].place()];
    }
}

// Puts the numbers from a position on into a slice.
fn read_from(all: NumbersRef<'_>, first: usize, numbers: &mut [i64])
    requires { first + length numbers.old ≤ length (seen_numbers all) }
    ensures len { length numbers.new ≡ length numbers.old }
    ensures numbers { numbers.new ≡ slice_range (seen_numbers all.entry) first (first + length numbers.old) }
{
    let count = numbers.len();
    match all {
        NumbersRef::Narrow(narrow) => widen(&narrow[first..first + count], numbers),
        NumbersRef::Wide(wide) => numbers.copy_from_slice(&wide[first..first + count]),
    }
}

// Puts the numbers at the positions from one on into a slice.
fn read_at<P: Position>(all: NumbersRef<'_>, positions: &[P], from: usize, numbers: &mut [i64])
    requires within { from + length numbers.old ≤ length positions.now }
    requires there { All (λ p. P.place p < length (seen_numbers all)) positions.now }
    ensures len { length numbers.new ≡ length numbers.old }
    ensures numbers { numbers.new ≡ map (λ p. slice_index_or (seen_numbers all.entry) (P.place p) (pos 0)) (slice_range positions.now from (from + length numbers.old)) }
{
    let part = &positions[from..from + numbers.len()];
    match all {
        NumbersRef::Narrow(narrow) => widen_at(narrow, part, numbers),
        NumbersRef::Wide(wide) => copy_at(wide, part, numbers),
    }
}

/// The keys of rows, where each is one number.
#[derive(Drop)]
pub struct IntColumn<'a> {
    numbers: NumbersRef<'a>,
    at: PositionsRef<'a>,
}

impl<'a> Model for IntColumn<'a> {
    ghost use Rattle.std.specs.Prelude.{List, length};
    ghost use Rattle.vx_rows_values.specs.Values.{Row};
    ghost use Rattle.vx_rows.specs.View.{ArePositions};
    ghost use Rattle.vx_rows.specs.Numbers.{seen_numbers};
    ghost use Rattle.vx_rows_views.specs.Seen.{seen_positions};
    ghost use Rattle.vx_match_keys.specs.Columns.{number_keys};

    ghost Value = { List Row };

    ghost view = { λ c. number_keys (seen_numbers c.numbers) (seen_positions c.at) };

    ghost invariant = { λ c. ArePositions (length (seen_numbers c.numbers)) (seen_positions c.at) };
}

impl<'a> IntColumn<'a> {
    /// The keys that the rows of a chunk have in these columns, where that is one column of numbers.
    pub fn of(chunk: &'a Chunk, columns: &[usize]) -> Option<IntColumn<'a>>
        requires { AreColumns (length chunk.now.types) columns.now }
        ensures { IfSome result (λ c. c ≡ map (pick columns.now) chunk.now.rows) }
    {
        if columns.len() != 1 {
            return None;
        }
        match chunk.numbers(columns[0]) {
            None => None,
            Some((numbers, at)) => Some(IntColumn {
                numbers: numbers.view(),
                at,
            }),
        }
    }

    /// How many rows there are.
    pub fn len(&self) -> usize
        ensures { result ≡ length self.now }
    {
        count_of(self.at)
    }

    /// The number of row k.
    pub fn get(&self, k: usize) -> i64
        requires { k < length self.now }
        ensures { number_key result ≡ slice_index_or self.now k [] }
    {
        // no position is above this
        let _count = number_count(self.numbers);
        number_at(self.numbers, position_at(self.at, k))
    }

    /// Puts the numbers of the rows from one on into a slice, one behind the other.
    pub fn read(&self, from: usize, numbers: &mut [i64])
        requires { from + length numbers.old ≤ length self.now }
        ensures len { length numbers.new ≡ length numbers.old }
        ensures numbers { map number_key numbers.new ≡ slice_range self.now from (from + length numbers.old) }
    {
        // a range of no rows may begin past the numbers
        if numbers.len() == 0 {
            return;
        }
        // no position is above this
        let _count = number_count(self.numbers);
        match self.at {
            PositionsRef::Range(first, _) => read_from(self.numbers, first + from, numbers),
            PositionsRef::Narrow(positions) => read_at(self.numbers, positions, from, numbers),
            PositionsRef::Wide(positions) => read_at(self.numbers, positions, from, numbers),
        }
    }
}

/// The keys of rows, where each is one text.
#[derive(Drop)]
pub(crate) struct TextColumn<'a> {
    texts: &'a Texts,
    at: PositionsRef<'a>,
}

impl<'a> Model for TextColumn<'a> {
    ghost use Rattle.std.specs.Prelude.{List, length};
    ghost use Rattle.vx_rows_values.specs.Values.{Row};
    ghost use Rattle.vx_rows.specs.View.{ArePositions};
    ghost use Rattle.vx_rows_views.specs.Seen.{seen_positions};
    ghost use Rattle.vx_match_keys.specs.Columns.{text_keys};

    ghost Value = { List Row };

    ghost view = { λ c. text_keys c.texts.now (seen_positions c.at) };

    ghost invariant = { λ c. ArePositions (length c.texts.now) (seen_positions c.at) };
}

impl<'a> TextColumn<'a> {
    /// The keys that the rows of a chunk have in these columns, where that is one column of texts.
    pub fn of(chunk: &'a Chunk, columns: &[usize]) -> Option<TextColumn<'a>>
        requires { AreColumns (length chunk.now.types) columns.now }
        ensures { IfSome result (λ c. c ≡ map (pick columns.now) chunk.now.rows) }
    {
        if columns.len() != 1 {
            return None;
        }
        match chunk.texts(columns[0]) {
            None => None,
            Some((texts, at)) => Some(TextColumn { texts, at }),
        }
    }

    /// How many rows there are.
    pub fn len(&self) -> usize
        ensures { result ≡ length self.now }
    {
        count_of(self.at)
    }

    /// The text of row k.
    pub fn get(&self, k: usize) -> &'a str
        requires { k < length self.now }
        ensures { text_key result.now ≡ slice_index_or self.now k [] }
    {
        // no position is above this
        let _count = self.texts.len();
        self.texts.get(position_at(self.at, k))
    }
}

/// The keys of rows, where each is one value.
#[derive(Drop)]
pub(crate) enum ValueColumn<'a> {
    Ints(IntColumn<'a>),
    Texts(TextColumn<'a>),
}

impl<'a> ValueColumn<'a> {
    ghost use Rattle.vx_match_keys.specs.Values.{value_keys};

    /// The values that the rows of a chunk have in a column.
    pub fn of(chunk: &'a Chunk, column: usize) -> ValueColumn<'a>
        requires { column < length chunk.now.types }
        ensures { value_keys result ≡ map (pick (column ∷ [])) chunk.now.rows }
    {
        match chunk.numbers(column) {
            Some((numbers, at)) => ValueColumn::Ints(IntColumn {
                numbers: numbers.view(),
                at,
            }),
            None => match chunk.texts(column) {
                Some((texts, at)) => ValueColumn::Texts(TextColumn { texts, at }),
                None => unreachable!(),
            },
        }
    }
}
