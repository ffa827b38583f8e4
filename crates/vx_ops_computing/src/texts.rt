//! Tests of the texts of a column against one constant text, each a type of its own: so a loop over the column is made for each of them.

ghost use Rattle.std.specs.Prelude.{◌≡◌, ℕ, ◌<◌, ◌^◌, [], length, slice_index, slice_index_or, All, IfOk, IfSome};
ghost use Rattle.vx_rows_values.specs.Values.{text};
ghost use Rattle.vx_functions.specs.Standard.{meaning};
ghost use Rattle.vx_rows_views.specs.Seen.{seen_positions};
ghost use Rattle.vx_ops_computing.specs.Applied.{AreNumbersOf};
ghost use Rattle.vx_ops_computing.specs.Operands.{operand_at, IsFor};
ghost use Rattle.vx_ops_computing.specs.Tested.{AreTested};

use crate::operands::Operand;
use crate::pairs::truth;
use std::alloc::{AllocError, Global};
use vx_functions::StandardFunction;
use vx_rows::Texts;
use vx_rows_values::Cell;
use vx_rows_views::PositionsRef;

/// A test of a text. What it says of a text depends on nothing else.
pub trait TextTest {
    ghost use Rattle.std.specs.Prelude.{◌≡◌, ℕ, List, Bool};

    ghost says: { Self → List ℕ → Bool };

    /// Whether a text passes.
    fn passes(&self, text: &str) -> bool
        ensures { result ≡ says self.now text.now };
}

/// Whether a text begins with this one.
#[derive(Clone, Copy)]
pub struct Begins<'a> {
    pub front: &'a str,
}

impl TextTest for Begins<'_> {
    ghost use Rattle.vx_functions.specs.Texts.{begins};

    ghost says = { λ s text. begins s.front.now text };

    fn passes(&self, text: &str) -> bool {
        text.starts_with(self.front)
    }
}

/// Whether this text stands in a text.
#[derive(Clone, Copy)]
pub struct Holds<'a> {
    pub part: &'a str,
}

impl TextTest for Holds<'_> {
    ghost use Rattle.vx_functions.specs.Texts.{stands_in};

    ghost says = { λ s text. stands_in s.part.now text };

    fn passes(&self, text: &str) -> bool {
        text.contains(self.part)
    }
}

/// Whether a text is this one.
#[derive(Clone, Copy)]
pub struct Same<'a> {
    pub other: &'a str,
}

impl TextTest for Same<'_> {
    ghost use Rattle.std.specs.Ordering.{nat_cmp, is_eq};
    ghost use Rattle.std.specs.Cmp.Lexicographic.{slice_cmp};

    ghost says = { λ s text. is_eq (slice_cmp nat_cmp text s.other.now) };

    fn passes(&self, text: &str) -> bool {
        text.cmp(self.other).is_eq()
    }
}

/// Whether a text is another one than this.
#[derive(Clone, Copy)]
pub struct Other<'a> {
    pub other: &'a str,
}

impl TextTest for Other<'_> {
    ghost use Rattle.std.specs.Ordering.{nat_cmp, is_ne};
    ghost use Rattle.std.specs.Cmp.Lexicographic.{slice_cmp};

    ghost says = { λ s text. is_ne (slice_cmp nat_cmp text s.other.now) };

    fn passes(&self, text: &str) -> bool {
        text.cmp(self.other).is_ne()
    }
}

// Position k.
fn position_at(at: PositionsRef<'_>, k: usize) -> usize
    requires there { k < length (seen_positions at) }
    requires fits { slice_index (seen_positions at) k < 2 ^ 64 }
    ensures { result ≡ slice_index (seen_positions at.entry) k }
{
    match at {
        PositionsRef::Range(from, _) => from + k,
        PositionsRef::Narrow(positions) => positions[k] as usize,
        PositionsRef::Wide(positions) => positions[k],
    }
}

// Puts for each position whether its text passes: 1 or 0.
fn fill_tested<T: TextTest>(test: &T, texts: &Texts, at: PositionsRef<'_>, numbers: &mut [i64])
    requires long { length (seen_positions at) ≡ length numbers.old }
    requires near { (k : ℕ) → k < length numbers.old → slice_index (seen_positions at) k < length texts.now }
    ensures { AreTested (T.says test.now) (λ k. text (slice_index_or texts.now (slice_index (seen_positions at.entry) k) [])) (length numbers.old) numbers.new }
{
    // no position is above this
    let _count = texts.len();
    for k in 0..numbers.len() {
        numbers[k] = truth(test.passes(texts.get(position_at(at, k))));
    }
}

// For each of `count` positions whether its text passes: 1 or 0.
fn tested_at<T: TextTest>(
    alloc: Global,
    test: &T,
    texts: &Texts,
    at: PositionsRef<'_>,
    count: usize,
) -> Result<Vec<i64>, AllocError>
    requires long { length (seen_positions at) ≡ count }
    requires near { (k : ℕ) → k < count → slice_index (seen_positions at) k < length texts.now }
    ensures { IfOk result (λ v. AreTested (T.says test.now) (λ k. text (slice_index_or texts.now (slice_index (seen_positions at.entry) k) [])) count v.items) }
{
    let mut numbers = Vec::new(alloc);
    numbers.resize(count, 0)?;
    fill_tested(test, texts, at, numbers.as_mut_slice());
    Ok(numbers)
}

// For each of `count` rows whether the text of an operand passes, 1 or 0, where it has texts that lie in a column.
fn tested_by_column<T: TextTest>(
    alloc: Global,
    test: &T,
    operand: &Operand<'_>,
    count: usize,
) -> Result<Option<Vec<i64>>, AllocError>
    requires { IsFor count operand.now }
    ensures { IfOk result (λ o. IfSome o (λ v. AreTested (T.says test.now) (operand_at operand.now) count v.items)) }
{
    match operand {
        Operand::Lying(chunk, column) => match chunk.texts(*column) {
            Some((texts, at)) => Ok(Some(tested_at(alloc, test, texts, at, count)?)),
            None => Ok(None),
        },
        Operand::Texts(table) => match table.texts(0) {
            Some(texts) => {
                let at = PositionsRef::Range(0, count);
                Ok(Some(tested_at(alloc, test, texts, at, count)?))
            }
            None => Ok(None),
        },
        _ => Ok(None),
    }
}

/// What a function answers for each of `count` rows, where it tests the texts of a column against a constant one.
pub fn tested(
    alloc: Global,
    function: StandardFunction,
    operands: &[Operand<'_>],
    count: usize,
) -> Result<Option<Vec<i64>>, AllocError>
    requires { All (IsFor count) operands.now }
    ensures { IfOk result (λ o. IfSome o (λ v. AreNumbersOf (meaning function) operands.now count v.items)) }
{
    let [operand, constant] = operands else {
        return Ok(None);
    };
    let Operand::Same(Cell::Text(other)) = constant else {
        return Ok(None);
    };
    match function {
        StandardFunction::StartsWith => tested_by_column(
            alloc,
            &Begins { front: *other },
            operand,
            count,
        ),
        StandardFunction::Contains => tested_by_column(
            alloc,
            &Holds { part: *other },
            operand,
            count,
        ),
        StandardFunction::Eq => tested_by_column(alloc, &Same { other: *other }, operand, count),
        StandardFunction::Ne => tested_by_column(alloc, &Other { other: *other }, operand, count),
        _ => Ok(None),
    }
}
