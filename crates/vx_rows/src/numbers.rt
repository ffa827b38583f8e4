//! Numbers that take 4 bytes each while all of them fit 32 bits, and 8 bytes each from then on.

ghost use Rattle.std.specs.Prelude.{◌≡◌, ℕ, true, ◌<◌, ◌≤◌, ◌++◌, ◌∷◌, [], length, take, pos, slice_index_or, slice_range, OnOk, OnErr, IfOk, IfSome};
ghost use Rattle.vx_rows_values.specs.Types.{fits_64};
ghost use Rattle.vx_rows.specs.View.{ArePositions};
ghost use Rattle.vx_rows.specs.Numbers.{kept_numbers, seen_numbers, numbers_at, KeepsNumbers};

use std::alloc::{AllocError, Global};
use std::marker::Model;

// The numbers, as wide as they are kept.
#[derive(Drop)]
enum NumberWidth {
    Narrow(Vec<i32>),
    Wide(Vec<i64>),
}

/// What a loop goes over: numbers of 32 bits, or of 64.
#[derive(Clone, Copy)]
pub enum NumbersRef<'a> {
    Narrow(&'a [i32]),
    Wide(&'a [i64]),
}

/// Numbers that take 4 bytes each while all of them fit 32 bits. From the first that does not, each takes 8 bytes, also once
/// that one is gone.
pub struct Numbers {
    width: NumberWidth,
}

// By hand, so that the drop is made and proved here once, and not again in each crate that drops one.
impl Drop for Numbers {
    fn drop(self) {
        let Numbers { width: _ } = self;
    }
}

impl Model for Numbers {
    ghost use Rattle.std.specs.Prelude.{List, ℤ};

    ghost Value = { List ℤ };

    ghost use Rattle.vx_rows.specs.Numbers.{kept_numbers};

    ghost view = { λ n. kept_numbers n.width };
}

// A number in 32 bits, where it fits.
fn narrowed(n: i64) -> Option<i32>
    ensures { IfSome result (λ m. m ≡ n) }
{
    if n < i32::MIN as i64 || n > i32::MAX as i64 {
        return None;
    }
    Some(n as i32)
}

// The same numbers in 64 bits.
fn widened(numbers: &Vec<i32>) -> Result<Vec<i64>, AllocError>
    ensures { IfOk result (λ v. v.items ≡ numbers.now.items) }
{
    let mut wide = Vec::with_capacity(*numbers.allocator(), numbers.capacity())?;
    push_widened(&mut wide, numbers.as_slice())?;
    Ok(wide)
}

// Adds numbers of 32 bits to those of 64.
fn push_widened(wide: &mut Vec<i64>, numbers: &[i32]) -> Result<(), AllocError>
    ensures front { KeepsNumbers wide.old.items wide.new.items }
    ensures ok { OnOk result (wide.new.items ≡ wide.old.items ++ numbers.now) }
{
    wide.reserve(numbers.len())?;
    for n in numbers {
        wide.push(*n as i64)?;
    }
    Ok(())
}

// Adds the numbers at some positions, as narrow as they are.
fn push_narrow_at(
    narrow: &mut Vec<i32>,
    numbers: &[i32],
    positions: &[usize],
) -> Result<(), AllocError>
    requires { ArePositions (length numbers.now) positions.now }
    ensures front { KeepsNumbers narrow.old.items narrow.new.items }
    ensures ok { OnOk result (narrow.new.items ≡ narrow.old.items ++ numbers_at numbers.now positions.now) }
{
    narrow.reserve(positions.len())?;
    for i in positions {
        narrow.push(numbers[*i])?;
    }
    Ok(())
}

// Adds the numbers of 64 bits at some positions.
fn push_wide_at(wide: &mut Vec<i64>, numbers: &[i64], positions: &[usize]) -> Result<(), AllocError>
    requires { ArePositions (length numbers.now) positions.now }
    ensures front { KeepsNumbers wide.old.items wide.new.items }
    ensures ok { OnOk result (wide.new.items ≡ wide.old.items ++ numbers_at numbers.now positions.now) }
{
    wide.reserve(positions.len())?;
    for i in positions {
        wide.push(numbers[*i])?;
    }
    Ok(())
}

// Adds the numbers of 32 bits at some positions to those of 64.
fn push_widened_at(
    wide: &mut Vec<i64>,
    numbers: &[i32],
    positions: &[usize],
) -> Result<(), AllocError>
    requires { ArePositions (length numbers.now) positions.now }
    ensures front { KeepsNumbers wide.old.items wide.new.items }
    ensures ok { OnOk result (wide.new.items ≡ wide.old.items ++ numbers_at numbers.now positions.now) }
{
    wide.reserve(positions.len())?;
    for i in positions {
        wide.push(numbers[*i] as i64)?;
    }
    Ok(())
}

// Reads each number, and does nothing with it: so it is known that each has 64 bits.
fn read_all(numbers: &[i64])
    ensures { (k : ℕ) → k < length numbers.now → fits_64 (slice_index_or numbers.now k (pos 0)) ≡ true }
{
    for i in 0..numbers.len() {
        let _number = numbers[i];
    }
}

impl NumberWidth {
    // How many numbers there are.
    fn len(&self) -> usize
        ensures { result ≡ length (kept_numbers self.now) }
    {
        match self {
            NumberWidth::Narrow(v) => v.len(),
            NumberWidth::Wide(v) => v.len(),
        }
    }

    // The number at a position.
    fn get(&self, i: usize) -> i64
        requires { i < length (kept_numbers self.now) }
        ensures { result ≡ slice_index_or (kept_numbers self.now) i (pos 0) }
    {
        match self {
            NumberWidth::Narrow(v) => v[i] as i64,
            NumberWidth::Wide(v) => v[i],
        }
    }

    // The numbers where they lie.
    fn seen(&self) -> NumbersRef<'_>
        ensures { seen_numbers result ≡ kept_numbers self.now }
    {
        match self {
            NumberWidth::Narrow(v) => NumbersRef::Narrow(v.as_slice()),
            NumberWidth::Wide(v) => NumbersRef::Wide(v.as_slice()),
        }
    }

    // Keeps the first `at`, or all if there are fewer.
    fn truncate(&mut self, at: usize)
        ensures { kept_numbers self.new ≡ take at (kept_numbers self.old) }
    {
        match self {
            NumberWidth::Narrow(v) => v.truncate(at),
            NumberWidth::Wide(v) => v.truncate(at),
        }
    }

    // Reserves room for `additional` more numbers.
    fn reserve(&mut self, additional: usize) -> Result<(), AllocError>
        ensures { kept_numbers self.new ≡ kept_numbers self.old }
    {
        match self {
            NumberWidth::Narrow(v) => v.reserve(additional),
            NumberWidth::Wide(v) => v.reserve(additional),
        }
    }

    // Gives back the memory in which no number lies.
    fn shrink(&mut self)
        ensures { kept_numbers self.new ≡ kept_numbers self.old }
    {
        match self {
            NumberWidth::Narrow(v) => v.shrink_to_fit(),
            NumberWidth::Wide(v) => v.shrink_to_fit(),
        }
    }

    // Adds a number.
    #[inline(always)]
    fn push(&mut self, n: i64) -> Result<(), AllocError>
        ensures ok { OnOk result (kept_numbers self.new ≡ kept_numbers self.old ++ n ∷ []) }
        ensures err { OnErr result (kept_numbers self.new ≡ kept_numbers self.old) }
    {
        match self {
            NumberWidth::Wide(v) => v.push(n)?,
            NumberWidth::Narrow(v) => match narrowed(n) {
                Some(small) => v.push(small)?,
                None => self.add_wide(&[n])?,
            },
        }
        Ok(())
    }

    // Adds numbers of 32 bits.
    fn add_narrow(&mut self, numbers: &[i32]) -> Result<(), AllocError>
        ensures front { KeepsNumbers (kept_numbers self.old) (kept_numbers self.new) }
        ensures ok { OnOk result (kept_numbers self.new ≡ kept_numbers self.old ++ numbers.now) }
    {
        match self {
            NumberWidth::Narrow(v) => v.extend_from_slice(numbers),
            NumberWidth::Wide(v) => push_widened(v, numbers),
        }
    }

    // Adds numbers of 64 bits. From then on each number takes 8 bytes.
    fn add_wide(&mut self, numbers: &[i64]) -> Result<(), AllocError>
        ensures ok { OnOk result (kept_numbers self.new ≡ kept_numbers self.old ++ numbers.now) }
        ensures err { OnErr result (kept_numbers self.new ≡ kept_numbers self.old) }
    {
        match self {
            NumberWidth::Wide(v) => v.extend_from_slice(numbers),
            NumberWidth::Narrow(v) => {
                let mut wide = widened(v)?;
                wide.extend_from_slice(numbers)?;
                *self = NumberWidth::Wide(wide);
                Ok(())
            }
        }
    }

    // Adds the numbers of 32 bits at some positions.
    fn add_narrow_at(&mut self, numbers: &[i32], positions: &[usize]) -> Result<(), AllocError>
        requires { ArePositions (length numbers.now) positions.now }
        ensures front { KeepsNumbers (kept_numbers self.old) (kept_numbers self.new) }
        ensures ok { OnOk result (kept_numbers self.new ≡ kept_numbers self.old ++ numbers_at numbers.now positions.now) }
    {
        match self {
            NumberWidth::Narrow(v) => push_narrow_at(v, numbers, positions),
            NumberWidth::Wide(v) => push_widened_at(v, numbers, positions),
        }
    }

    // Adds the numbers of 64 bits at some positions. From then on each number takes 8 bytes.
    fn add_wide_at(&mut self, numbers: &[i64], positions: &[usize]) -> Result<(), AllocError>
        requires { ArePositions (length numbers.now) positions.now }
        ensures front { KeepsNumbers (kept_numbers self.old) (kept_numbers self.new) }
        ensures ok { OnOk result (kept_numbers self.new ≡ kept_numbers self.old ++ numbers_at numbers.now positions.now) }
    {
        match self {
            NumberWidth::Wide(v) => push_wide_at(v, numbers, positions),
            NumberWidth::Narrow(v) => {
                let mut wide = widened(v)?;
                push_wide_at(&mut wide, numbers, positions)?;
                *self = NumberWidth::Wide(wide);
                Ok(())
            }
        }
    }
}

impl Numbers {
    /// No numbers.
    pub(crate) fn new(alloc: Global) -> Numbers
        ensures { result ≡ [] }
    {
        Numbers {
            width: NumberWidth::Narrow(Vec::new(alloc)),
        }
    }

    /// These numbers, each of which takes 8 bytes.
    pub(crate) fn of(numbers: Vec<i64>) -> Numbers
        ensures same { result ≡ numbers.items }
        ensures held { (k : ℕ) → k < length numbers.items → fits_64 (slice_index_or numbers.items k (pos 0)) ≡ true }
    {
        read_all(numbers.as_slice());
        Numbers {
            width: NumberWidth::Wide(numbers),
        }
    }

    /// How many numbers there are.
    pub fn len(&self) -> usize
        ensures { result ≡ length self.now }
    {
        self.width.len()
    }

    /// The number at a position.
    pub fn get(&self, i: usize) -> i64
        requires { i < length self.now }
        ensures { result ≡ slice_index_or self.now i (pos 0) }
    {
        self.width.get(i)
    }

    /// The numbers where they lie, for a loop that asks once how wide they are.
    pub fn view(&self) -> NumbersRef<'_>
        ensures { seen_numbers result ≡ self.now }
    {
        self.width.seen()
    }

    /// Keeps the first `at`, or all if there are fewer. The capacity stays.
    pub(crate) fn truncate(&mut self, at: usize)
        ensures { self.new ≡ take at self.old }
    {
        self.width.truncate(at);
    }

    /// Reserves room for `additional` more numbers.
    pub(crate) fn reserve(&mut self, additional: usize) -> Result<(), AllocError>
        ensures { self.new ≡ self.old }
    {
        self.width.reserve(additional)
    }

    /// Gives back the memory in which no number lies.
    pub(crate) fn shrink(&mut self)
        ensures { self.new ≡ self.old }
    {
        self.width.shrink();
    }

    /// Adds a number.
    #[inline(always)]
    pub(crate) fn push(&mut self, n: i64) -> Result<(), AllocError>
        ensures ok { OnOk result (self.new ≡ self.old ++ n ∷ []) }
        ensures err { OnErr result (self.new ≡ self.old) }
    {
        self.width.push(n)
    }

    /// Adds those of another from `from` up to `to`. After an `Err` some of them may have come.
    pub(crate) fn add_range(
        &mut self,
        other: &Numbers,
        from: usize,
        to: usize,
    ) -> Result<(), AllocError>
        requires order { from ≤ to }
        requires there { to ≤ length other.now }
        ensures front { KeepsNumbers self.old self.new }
        ensures ok { OnOk result (self.new ≡ self.old ++ slice_range other.now from to) }
    {
        match other.view() {
            NumbersRef::Narrow(numbers) => self.width.add_narrow(&numbers[from..to]),
            NumbersRef::Wide(numbers) => self.width.add_wide(&numbers[from..to]),
        }
    }

    /// Adds those of another at some positions, in their order. After an `Err` some of them may have come.
    pub(crate) fn add_at(&mut self, other: &Numbers, positions: &[usize]) -> Result<(), AllocError>
        requires { ArePositions (length other.now) positions.now }
        ensures front { KeepsNumbers self.old self.new }
        ensures ok { OnOk result (self.new ≡ self.old ++ numbers_at other.now positions.now) }
    {
        match other.view() {
            NumbersRef::Narrow(numbers) => self.width.add_narrow_at(numbers, positions),
            NumbersRef::Wide(numbers) => self.width.add_wide_at(numbers, positions),
        }
    }
}
