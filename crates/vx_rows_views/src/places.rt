//! The places of numbers that pass a test.

ghost use Rattle.std.specs.Prelude.{◌≡◌, ℕ, ◌+◌, ◌<◌, ◌++◌, ◌∷◌, [], cond, pos, true, length, map, slice_index_or, All, IfOk, IfSome, IfNone, OnOk};
ghost use Rattle.vx_rows_values.specs.Values.{num};
ghost use Rattle.vx_rows.specs.Lists.{each_below};
ghost use Rattle.vx_rows.specs.Numbers.{seen_numbers};
ghost use Rattle.vx_rows_views.specs.Selected.{of_number, places_of};

use crate::positions::Position;
use std::alloc::{AllocError, Global};
use vx_rows::{Numbers, NumbersRef};

/// A test of a number. What it says of a number depends on nothing else.
pub trait NumberTest {
    ghost use Rattle.std.specs.Prelude.{◌≡◌, ℤ, Bool};

    ghost says: { Self → ℤ → Bool };

    /// Whether a number passes.
    fn passes(&self, number: &i64) -> bool
        ensures { result ≡ says self.now number.now };
}

// The `count` numbers at the positions from `from` on.
pub(crate) fn part_of(numbers: &Numbers, from: usize, count: usize) -> NumbersRef<'_>
    requires { (k : ℕ) → k < count → from + k < length numbers.now }
    ensures { map num (seen_numbers result) ≡ map (λ q. num (slice_index_or numbers.now q (pos 0))) (each_below count (λ k. from + k)) }
{
    if count == 0 {
        return NumbersRef::Narrow(&[]);
    }
    match numbers.view() {
        NumbersRef::Narrow(narrow) => NumbersRef::Narrow(&narrow[from..from + count]),
        NumbersRef::Wide(wide) => NumbersRef::Wide(&wide[from..from + count]),
    }
}

/// Adds a place, if it passes.
pub fn push_place_if(places: &mut Vec<usize>, place: usize, passes: bool) -> Result<(), AllocError>
    ensures { OnOk result (places.new.items ≡ places.old.items ++ cond passes (place ∷ []) []) }
{
    if passes {
        places.push(place)?;
    }
    Ok(())
}

/// A number as a column keeps it: in 32 bits, or in 64.
trait Number: Copy {
    ghost use Rattle.std.specs.Prelude.{◌≡◌, ℤ};

    ghost value: { Self → ℤ };

    /// The number in 64 bits.
    fn number(self) -> i64
        ensures { result ≡ value self };
}

impl Number for i32 {
    ghost value = { λ n. n };

    fn number(self) -> i64 {
        self as i64
    }
}

impl Number for i64 {
    ghost value = { λ n. n };

    fn number(self) -> i64 {
        self
    }
}

// How many numbers pass. The loop has no branch that depends on a number, so it is done for several numbers at once.
fn count_passing<N: Number, T: NumberTest>(numbers: &[N], test: &T) -> usize
    ensures { result ≡ length (places_of (of_number (T.says test.now)) (map (λ n. num (N.value n)) numbers.now)) }
{
    let mut count = 0;
    for i in 0..numbers.len() {
        let number = numbers[i].number();
        count += test.passes(&number) as usize;
    }
    count
}

// Puts the places of the numbers that pass. Each place is written, and stays where its number passes: so there is no branch that depends
// on a number.
fn fill_passing<N: Number, T: NumberTest>(numbers: &[N], test: &T, places: &mut [usize])
    requires { length places.old ≡ length (places_of (of_number (T.says test.now)) (map (λ n. num (N.value n)) numbers.now)) }
    ensures { places.new ≡ places_of (of_number (T.says test.now)) (map (λ n. num (N.value n)) numbers.now) }
{
    let mut found = 0;
    let mut i = 0;
    while found < places.len() {
        let number = numbers[i].number();
        places[found] = i;
        found += test.passes(&number) as usize;
        i += 1;
    }
}

// The places of numbers that pass, or none where all do.
fn passing<N: Number, T: NumberTest>(
    alloc: Global,
    numbers: &[N],
    test: &T,
) -> Result<Option<Vec<usize>>, AllocError>
    ensures some { IfOk result (λ o. IfSome o (λ v. v.items ≡ places_of (of_number (T.says test.now)) (map (λ n. num (N.value n)) numbers.now))) }
    ensures all { IfOk result (λ o. IfNone o (All (λ v. of_number (T.says test.now) v ≡ true) (map (λ n. num (N.value n)) numbers.now))) }
{
    let count = count_passing(numbers, test);
    if count == numbers.len() {
        return Ok(None);
    }
    let mut places = Vec::new(alloc);
    places.resize(count, 0)?;
    fill_passing(numbers, test, places.as_mut_slice());
    Ok(Some(places))
}

// The places of numbers that pass, or none where all do.
pub(crate) fn places_in<T: NumberTest>(
    alloc: Global,
    numbers: NumbersRef<'_>,
    test: &T,
) -> Result<Option<Vec<usize>>, AllocError>
    ensures some { IfOk result (λ o. IfSome o (λ v. v.items ≡ places_of (of_number (T.says test.now)) (map num (seen_numbers numbers.entry)))) }
    ensures all { IfOk result (λ o. IfNone o (All (λ v. of_number (T.says test.now) v ≡ true) (map num (seen_numbers numbers.entry)))) }
{
    match numbers {
        NumbersRef::Narrow(narrow) => passing(alloc, narrow, test),
        NumbersRef::Wide(wide) => passing(alloc, wide, test),
    }
}

// How many positions have a number that passes.
fn count_passing_at<N: Number, P: Position, T: NumberTest>(
    numbers: &[N],
    positions: &[P],
    test: &T,
) -> usize
    requires { All (λ p. P.place p < length numbers.now) positions.now }
    ensures { result ≡ length (places_of (λ p. T.says test.now (slice_index_or (map (λ n. N.value n) numbers.now) (P.place p) (pos 0))) positions.now) }
{
    let mut count = 0;
    for i in 0..positions.len() {
        let number = numbers[positions[i].place()].number();
        count += test.passes(&number) as usize;
    }
    count
}

// Puts the places of the positions whose numbers pass.
fn fill_passing_at<N: Number, P: Position, T: NumberTest>(
    numbers: &[N],
    positions: &[P],
    test: &T,
    places: &mut [usize],
)
    requires there { All (λ p. P.place p < length numbers.now) positions.now }
    requires count { length places.old ≡ length (places_of (λ p. T.says test.now (slice_index_or (map (λ n. N.value n) numbers.now) (P.place p) (pos 0))) positions.now) }
    ensures { places.new ≡ places_of (λ p. T.says test.now (slice_index_or (map (λ n. N.value n) numbers.now) (P.place p) (pos 0))) positions.now }
{
    let mut found = 0;
    let mut i = 0;
    while found < places.len() {
        let number = numbers[positions[i].place()].number();
        places[found] = i;
        found += test.passes(&number) as usize;
        i += 1;
    }
}

// The places of positions whose numbers pass, or none where all do.
fn passing_at<N: Number, P: Position, T: NumberTest>(
    alloc: Global,
    numbers: &[N],
    positions: &[P],
    test: &T,
) -> Result<Option<Vec<usize>>, AllocError>
    requires { All (λ p. P.place p < length numbers.now) positions.now }
    ensures some { IfOk result (λ o. IfSome o (λ v. v.items ≡ places_of (λ p. T.says test.now (slice_index_or (map (λ n. N.value n) numbers.now) (P.place p) (pos 0))) positions.now)) }
    ensures all { IfOk result (λ o. IfNone o (All (λ p. T.says test.now (slice_index_or (map (λ n. N.value n) numbers.now) (P.place p) (pos 0)) ≡ true) positions.now)) }
{
    let count = count_passing_at(numbers, positions, test);
    if count == positions.len() {
        return Ok(None);
    }
    let mut places = Vec::new(alloc);
    places.resize(count, 0)?;
    fill_passing_at(numbers, positions, test, places.as_mut_slice());
    Ok(Some(places))
}

// The places of positions whose numbers pass, or none where all do.
pub(crate) fn places_at<P: Position, T: NumberTest>(
    alloc: Global,
    numbers: &Numbers,
    positions: &[P],
    test: &T,
) -> Result<Option<Vec<usize>>, AllocError>
    requires { All (λ p. P.place p < length numbers.now) positions.now }
    ensures some { IfOk result (λ o. IfSome o (λ v. v.items ≡ places_of (of_number (T.says test.now)) (map (λ p. num (slice_index_or numbers.now (P.place p) (pos 0))) positions.now))) }
    ensures all { IfOk result (λ o. IfNone o (All (λ v. of_number (T.says test.now) v ≡ true) (map (λ p. num (slice_index_or numbers.now (P.place p) (pos 0))) positions.now))) }
{
    match numbers.view() {
        NumbersRef::Narrow(narrow) => passing_at(alloc, narrow, positions, test),
        NumbersRef::Wide(wide) => passing_at(alloc, wide, positions, test),
    }
}
