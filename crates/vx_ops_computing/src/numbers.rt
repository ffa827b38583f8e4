//! Functions of two numbers by columns.

ghost use Rattle.std.specs.Prelude.{◌≡◌, ℕ, ◌+◌, ◌<◌, pos, length, slice_index_or, IfOk, IfErr, IfSome};
ghost use Rattle.vx_functions.specs.Standard.{of_numbers};
ghost use Rattle.vx_ops_computing.specs.Applied.{PairOverflows, ArePaired};
ghost use Rattle.vx_ops_computing.specs.Fault.{Blames};
ghost use Rattle.vx_ops_computing.specs.Numbers.{gathered_at, HasGathered, IsGathered};
ghost use Rattle.vx_rows_values.specs.Values.{num, value_at};
ghost use Rattle.vx_rows.specs.View.{row};
ghost use Rattle.vx_ops_computing.specs.Operands.{operand_at, IsFor, IsColumnOf};

use crate::fault::ComputeFault;
use crate::loops::{Constant, Listed, Narrow, NumberSource, filled};
use crate::operands::Operand;
use crate::pairs::{
    Above, AtLeast, AtMost, Below, Both, Difference, Either, Equal, NumberPair, Product, Quotient,
    Remainder, Sum, Unequal,
};
use std::alloc::{AllocError, Global};
use vx_functions::StandardFunction;
use vx_match_keys::IntColumn;
use vx_rows::{Numbers, NumbersRef};
use vx_rows_values::Cell;
use vx_rows_views::{Chunk, PositionsRef};

/// Numbers for rows.
#[derive(Drop)]
pub enum Gathered<'a> {
    /// The same for each row.
    Same(i64),
    /// One for each row, of 32 bits, where they lie.
    Narrow(&'a [i32]),
    /// One for each row, of 64 bits, where they lie.
    Wide(&'a [i64]),
    /// One for each row, copied from where they do not lie one behind the other.
    Copied(Vec<i64>),
}

// The `count` numbers from a position on, where they lie.
fn lying(numbers: &Numbers, first: usize, count: usize) -> Gathered<'_>
    requires { (k : ℕ) → k < count → first + k < length numbers.now }
    ensures { IsGathered count (λ k. num (slice_index_or numbers.now (first + k) (pos 0))) result }
{
    // a range of no rows may begin past the numbers
    if count == 0 {
        return Gathered::Wide(&[]);
    }
    match numbers.view() {
        NumbersRef::Narrow(narrow) => Gathered::Narrow(&narrow[first..first + count]),
        NumbersRef::Wide(wide) => Gathered::Wide(&wide[first..first + count]),
    }
}

// The numbers in a column of a chunk, one behind the other, where it has numbers.
fn copied_numbers<'a>(
    alloc: Global,
    chunk: &Chunk,
    column: usize,
    count: usize,
) -> Result<Option<Gathered<'a>>, AllocError>
    requires { IsColumnOf count chunk.now column }
    ensures { IfOk result (λ o. IfSome o (IsGathered count (λ k. value_at (row chunk.now k) column))) }
{
    match IntColumn::of(chunk, &[column]) {
        None => Ok(None),
        Some(found) => {
            let mut numbers = Vec::new(alloc);
            numbers.resize(count, 0)?;
            found.read(0, numbers.as_mut_slice());
            Ok(Some(Gathered::Copied(numbers)))
        }
    }
}

// The numbers in a column of a chunk, where it has numbers: where they lie, if that is one behind the other.
fn column_numbers<'a>(
    alloc: Global,
    chunk: &'a Chunk,
    column: usize,
    count: usize,
) -> Result<Option<Gathered<'a>>, AllocError>
    requires { IsColumnOf count chunk.now column }
    ensures { IfOk result (λ o. IfSome o (IsGathered count (λ k. value_at (row chunk.entry.now k) column))) }
{
    match chunk.numbers(column) {
        None => Ok(None),
        Some((numbers, PositionsRef::Range(first, _))) => Ok(Some(lying(numbers, first, count))),
        Some(_) => copied_numbers(alloc, chunk, column, count),
    }
}

/// The numbers of an operand for so many rows, where it has numbers.
pub fn gather<'a>(
    alloc: Global,
    operand: &'a Operand<'_>,
    count: usize,
) -> Result<Option<Gathered<'a>>, AllocError>
    requires { IsFor count operand.now }
    ensures { IfOk result (λ o. IfSome o (IsGathered count (operand_at operand.entry.now))) }
{
    match operand {
        Operand::Same(Cell::Int(number)) => Ok(Some(Gathered::Same(*number))),
        Operand::Same(Cell::Text(_)) => Ok(None),
        Operand::Lying(chunk, column) => column_numbers(alloc, chunk, *column, count),
        Operand::Numbers(numbers) => Ok(Some(Gathered::Wide(numbers.as_slice()))),
        Operand::Texts(_) => Ok(None),
    }
}

// What a function answers of two numbers for each of `count` rows.
fn with_right<F: NumberPair, L: NumberSource>(
    alloc: Global,
    function: &F,
    left: &L,
    right: &Gathered<'_>,
    count: usize,
) -> Result<Vec<i64>, ComputeFault>
    requires left { (k : ℕ) → k < count → L.HasNumber left.now k }
    requires right { (k : ℕ) → k < count → HasGathered right.now k }
    ensures numbers { IfOk result (λ v. ArePaired (F.says function.now) (L.number_at left.now) (gathered_at right.now) count v.items) }
    ensures fault { IfErr result (Blames (PairOverflows (F.says function.now) (L.number_at left.now) (gathered_at right.now) count)) }
{
    match right {
        Gathered::Same(number) => {
            let same = Constant { number: *number };
            filled(alloc, function, left, &same, count)
        }
        Gathered::Narrow(numbers) => filled(
            alloc,
            function,
            left,
            &Narrow { numbers: *numbers },
            count,
        ),
        Gathered::Wide(numbers) => filled(
            alloc,
            function,
            left,
            &Listed { numbers: *numbers },
            count,
        ),
        Gathered::Copied(numbers) => {
            let listed = Listed {
                numbers: numbers.as_slice(),
            };
            filled(alloc, function, left, &listed, count)
        }
    }
}

// What a function answers of two numbers for each of `count` rows.
fn by_rows<F: NumberPair>(
    alloc: Global,
    function: &F,
    left: &Gathered<'_>,
    right: &Gathered<'_>,
    count: usize,
) -> Result<Vec<i64>, ComputeFault>
    requires left { (k : ℕ) → k < count → HasGathered left.now k }
    requires right { (k : ℕ) → k < count → HasGathered right.now k }
    ensures numbers { IfOk result (λ v. ArePaired (F.says function.now) (gathered_at left.now) (gathered_at right.now) count v.items) }
    ensures fault { IfErr result (Blames (PairOverflows (F.says function.now) (gathered_at left.now) (gathered_at right.now) count)) }
{
    match left {
        Gathered::Same(number) => {
            let same = Constant { number: *number };
            with_right(alloc, function, &same, right, count)
        }
        Gathered::Narrow(numbers) => with_right(
            alloc,
            function,
            &Narrow { numbers: *numbers },
            right,
            count,
        ),
        Gathered::Wide(numbers) => with_right(
            alloc,
            function,
            &Listed { numbers: *numbers },
            right,
            count,
        ),
        Gathered::Copied(numbers) => {
            let listed = Listed {
                numbers: numbers.as_slice(),
            };
            with_right(alloc, function, &listed, right, count)
        }
    }
}

/// What the function answers of two numbers for each of `count` rows, where it is one of two numbers.
pub fn paired(
    alloc: Global,
    function: StandardFunction,
    left: &Gathered<'_>,
    right: &Gathered<'_>,
    count: usize,
) -> Result<Option<Vec<i64>>, ComputeFault>
    requires left { (k : ℕ) → k < count → HasGathered left.now k }
    requires right { (k : ℕ) → k < count → HasGathered right.now k }
    ensures numbers { IfOk result (λ o. IfSome o (λ v. ArePaired (of_numbers function) (gathered_at left.now) (gathered_at right.now) count v.items)) }
    ensures fault { IfErr result (Blames (PairOverflows (of_numbers function) (gathered_at left.now) (gathered_at right.now) count)) }
{
    let numbers = match function {
        StandardFunction::Add => by_rows(alloc, &Sum, left, right, count)?,
        StandardFunction::Sub => by_rows(alloc, &Difference, left, right, count)?,
        StandardFunction::Mul => by_rows(alloc, &Product, left, right, count)?,
        StandardFunction::Div => by_rows(alloc, &Quotient, left, right, count)?,
        StandardFunction::Mod => by_rows(alloc, &Remainder, left, right, count)?,
        StandardFunction::And => by_rows(alloc, &Both, left, right, count)?,
        StandardFunction::Or => by_rows(alloc, &Either, left, right, count)?,
        StandardFunction::Eq => by_rows(alloc, &Equal, left, right, count)?,
        StandardFunction::Ne => by_rows(alloc, &Unequal, left, right, count)?,
        StandardFunction::Lt => by_rows(alloc, &Below, left, right, count)?,
        StandardFunction::Le => by_rows(alloc, &AtMost, left, right, count)?,
        StandardFunction::Gt => by_rows(alloc, &Above, left, right, count)?,
        StandardFunction::Ge => by_rows(alloc, &AtLeast, left, right, count)?,
        _ => return Ok(None),
    };
    Ok(Some(numbers))
}
