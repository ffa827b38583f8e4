//! Loops over two columns of numbers, of which one may be the same number for each row.

ghost use Rattle.std.specs.Prelude.{◌≡◌, ℕ, ◌<◌, length, Some, pos, slice_index_or, IfOk, IfErr, IfSome, IfNone};
ghost use Rattle.vx_ops_computing.specs.Applied.{PairOverflows, ArePaired};
ghost use Rattle.vx_ops_computing.specs.Fault.{Blames};

use crate::fault::ComputeFault;
use crate::pairs::NumberPair;
use std::alloc::Global;

/// Numbers, one for each row.
pub trait NumberSource {
    ghost use Rattle.std.specs.Prelude.{◌≡◌, ℕ, ℤ};

    ghost number_at: { Self → ℕ → ℤ };

    ghost HasNumber: { Self → ℕ → Type 0 };

    /// The number for row k.
    fn number(&self, k: usize) -> i64
        requires { HasNumber self.now k }
        ensures { result ≡ number_at self.now k };
}

/// The same number for each row.
#[derive(Clone, Copy)]
pub struct Constant {
    pub number: i64,
}

impl NumberSource for Constant {
    ghost number_at = { λ s k. s.number };

    ghost HasNumber = { λ s k. Unit {0} };

    fn number(&self, _k: usize) -> i64 {
        self.number
    }
}

/// The numbers of a list.
#[derive(Clone, Copy)]
pub struct Listed<'a> {
    pub numbers: &'a [i64],
}

impl NumberSource for Listed<'_> {
    ghost use Rattle.std.specs.Prelude.{◌<◌, length, pos, slice_index_or};

    ghost number_at = { λ s k. slice_index_or s.numbers.now k (pos 0) };

    ghost HasNumber = { λ s k. k < length s.numbers.now };

    fn number(&self, k: usize) -> i64 {
        self.numbers[k]
    }
}

/// The numbers of a list, of 32 bits each.
#[derive(Clone, Copy)]
pub struct Narrow<'a> {
    pub numbers: &'a [i32],
}

impl NumberSource for Narrow<'_> {
    ghost use Rattle.std.specs.Prelude.{◌<◌, length, pos, slice_index_or};

    ghost number_at = { λ s k. slice_index_or s.numbers.now k (pos 0) };

    ghost HasNumber = { λ s k. k < length s.numbers.now };

    fn number(&self, k: usize) -> i64 {
        i64::from(self.numbers[k])
    }
}

// Puts what a function answers of two numbers, row by row, as far as it does not overflow: the first row for which it does.
fn fill<F: NumberPair, L: NumberSource, R: NumberSource>(
    function: &F,
    left: &L,
    right: &R,
    numbers: &mut [i64],
) -> Option<usize>
    requires left { (k : ℕ) → k < length numbers.old → L.HasNumber left.now k }
    requires right { (k : ℕ) → k < length numbers.old → R.HasNumber right.now k }
    ensures some { IfSome result (λ k. (k < length numbers.old) × (F.says function.now (L.number_at left.now k) (R.number_at right.now k) ≡ None)) }
    ensures none { IfNone result (ArePaired (F.says function.now) (L.number_at left.now) (R.number_at right.now) (length numbers.old) numbers.new) }
{
    for k in 0..numbers.len() {
        match function.of(left.number(k), right.number(k)) {
            Some(number) => numbers[k] = number,
            None => return Some(k),
        }
    }
    None
}

/// What a function answers of two numbers for each of `count` rows.
pub fn filled<F: NumberPair, L: NumberSource, R: NumberSource>(
    alloc: Global,
    function: &F,
    left: &L,
    right: &R,
    count: usize,
) -> Result<Vec<i64>, ComputeFault>
    requires left { (k : ℕ) → k < count → L.HasNumber left.now k }
    requires right { (k : ℕ) → k < count → R.HasNumber right.now k }
    ensures numbers { IfOk result (λ v. ArePaired (F.says function.now) (L.number_at left.now) (R.number_at right.now) count v.items) }
    ensures fault { IfErr result (Blames (PairOverflows (F.says function.now) (L.number_at left.now) (R.number_at right.now) count)) }
{
    let mut numbers = Vec::new(alloc);
    numbers.resize(count, 0)?;
    match fill(function, left, right, numbers.as_mut_slice()) {
        Some(_) => Err(ComputeFault::Overflow),
        None => Ok(numbers),
    }
}
