//! The numbers of a key or an order of one column, read where they lie.

ghost use Rattle.std.specs.Prelude.{◌≡◌, ◌+◌, ◌<◌, ◌≤◌, ◌++◌, ◌∷◌, [], pos, length, map, slice_index_or, slice_range, All, IfOk, OnOk};
ghost use Rattle.std.specs.Ordering.{is_lt};
ghost use Rattle.vx_rows_values.specs.declared.value.ColType.TheVariants as kind;
ghost use Rattle.vx_rows_values.specs.Types.{type_at};
ghost use Rattle.vx_rows_values.specs.Values.{num, pick};
ghost use Rattle.vx_rows_values.specs.Order.{compare_values};
ghost use Rattle.vx_rows.specs.Numbers.{seen_numbers};
ghost use Rattle.vx_rows_views.specs.Chunks.{all_rows};
ghost use Rattle.vx_catalog.specs.Loading.{first_fall};
ghost use Rattle.vx_catalog.specs.KeyNumbers.{number_rows, number_order};

use std::alloc::{AllocError, Global};
use vx_rows::NumbersRef;
use vx_rows_views::{Chunk, Position, PositionsRef, Rows};

// Puts numbers of 32 bits into a slice of as many.
fn widen(narrow: &[i32], numbers: &mut [i64])
    requires { length narrow.now ≡ length numbers.old }
    ensures { numbers.new ≡ narrow.now }
{
    for i in 0..numbers.len() {
        numbers[i] = narrow[i] as i64;
    }
}

// Adds numbers of 32 bits to those of 64.
fn push_widened(found: &mut Vec<i64>, narrow: &[i32]) -> Result<(), AllocError>
    ensures { OnOk result (found.new.items ≡ found.old.items ++ narrow.now) }
{
    let before = found.len();
    found.resize(before + narrow.len(), 0)?;
    widen(narrow, &mut found.as_mut_slice()[before..]);
    Ok(())
}

// Adds `count` numbers from a position on.
fn push_range(
    found: &mut Vec<i64>,
    numbers: NumbersRef<'_>,
    from: usize,
    count: usize,
) -> Result<(), AllocError>
    requires { from + count ≤ length (seen_numbers numbers) }
    ensures { OnOk result (found.new.items ≡ found.old.items ++ slice_range (seen_numbers numbers.entry) from (from + count)) }
{
    match numbers {
        NumbersRef::Narrow(narrow) => push_widened(found, &narrow[from..from + count]),
        NumbersRef::Wide(wide) => found.extend_from_slice(&wide[from..from + count]),
    }
}

// Adds the numbers of 32 bits at some positions.
fn push_narrow_at<P: Position>(
    found: &mut Vec<i64>,
    narrow: &[i32],
    positions: &[P],
) -> Result<(), AllocError>
    requires { All (λ p. P.place p < length narrow.now) positions.now }
    ensures { OnOk result (found.new.items ≡ found.old.items ++ map (λ p. slice_index_or narrow.now (P.place p) (pos 0)) positions.now) }
{
    for i in 0..positions.len() {
        found.push(narrow[positions[i].place()] as i64)?;
    }
    Ok(())
}

// Adds the numbers of 64 bits at some positions.
fn push_wide_at<P: Position>(
    found: &mut Vec<i64>,
    wide: &[i64],
    positions: &[P],
) -> Result<(), AllocError>
    requires { All (λ p. P.place p < length wide.now) positions.now }
    ensures { OnOk result (found.new.items ≡ found.old.items ++ map (λ p. slice_index_or wide.now (P.place p) (pos 0)) positions.now) }
{
    for i in 0..positions.len() {
        found.push(wide[positions[i].place()])?;
    }
    Ok(())
}

// Adds the numbers at some positions.
fn push_at<P: Position>(
    found: &mut Vec<i64>,
    numbers: NumbersRef<'_>,
    positions: &[P],
) -> Result<(), AllocError>
    requires { All (λ p. P.place p < length (seen_numbers numbers)) positions.now }
    ensures { OnOk result (found.new.items ≡ found.old.items ++ map (λ p. slice_index_or (seen_numbers numbers.entry) (P.place p) (pos 0)) positions.now) }
{
    match numbers {
        NumbersRef::Narrow(narrow) => push_narrow_at(found, narrow, positions),
        NumbersRef::Wide(wide) => push_wide_at(found, wide, positions),
    }
}

// Adds the numbers that the rows of a chunk have in a column.
fn push_chunk(found: &mut Vec<i64>, chunk: &Chunk, column: usize) -> Result<(), AllocError>
    requires column { column < length chunk.now.types }
    requires number { type_at chunk.now.types column ≡ kind.Int }
    ensures { OnOk result (number_rows found.new.items ≡ number_rows found.old.items ++ map (pick (column ∷ [])) chunk.now.rows) }
{
    let Some((numbers, at)) = chunk.numbers(column) else {
        unreachable!()
    };
    // a range of no rows may begin past the numbers
    if chunk.len() == 0 {
        return Ok(());
    }
    match at {
        PositionsRef::Range(from, count) => push_range(found, numbers.view(), from, count),
        PositionsRef::Narrow(positions) => push_at(found, numbers.view(), positions),
        PositionsRef::Wide(positions) => push_at(found, numbers.view(), positions),
    }
}

// Adds the numbers that the rows of chunks have in a column.
fn push_chunks(found: &mut Vec<i64>, chunks: &[Chunk], column: usize) -> Result<(), AllocError>
    requires columns { All (λ c. column < length c.types) chunks.now }
    requires numbers { All (λ c. type_at c.types column ≡ kind.Int) chunks.now }
    ensures { OnOk result (number_rows found.new.items ≡ number_rows found.old.items ++ map (pick (column ∷ [])) (all_rows chunks.now)) }
{
    for i in 0..chunks.len() {
        push_chunk(found, &chunks[i], column)?;
    }
    Ok(())
}

/// The numbers that rows have in a column of numbers.
pub(crate) fn key_numbers(alloc: Global, rows: &Rows, column: usize) -> Result<Vec<i64>, AllocError>
    requires column { column < length rows.now.types }
    requires number { type_at rows.now.types column ≡ kind.Int }
    ensures { IfOk result (λ v. number_rows v.items ≡ map (pick (column ∷ [])) rows.now.rows) }
{
    let mut found = Vec::with_capacity(alloc, rows.len())?;
    push_chunks(&mut found, rows.chunks(), column)?;
    Ok(found)
}

// Whether a number comes before another one.
fn comes_before(number: i64, other: i64, falling: bool) -> bool
    ensures { result ≡ is_lt (compare_values falling (num number) (num other)) }
{
    if falling {
        other < number
    } else {
        number < other
    }
}

/// The first number that comes before the one in front of it.
pub(crate) fn first_number_fall(numbers: &[i64], falling: bool) -> Option<usize>
    ensures { result ≡ first_fall (number_order falling) (number_rows numbers.now) }
{
    for i in 1..numbers.len() {
        if comes_before(numbers[i], numbers[i - 1], falling) {
            return Some(i);
        }
    }
    None
}
