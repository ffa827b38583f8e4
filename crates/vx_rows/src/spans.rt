//! The first two equal numbers, where all of them are near each other.

ghost use Rattle.std.specs.Prelude.{◌≡◌, ◌≢◌, ◌<◌, ◌≤◌, ◌^◌, ◌+ℤ◌, ◌≤ℤ◌, ◌<ℤ◌, pos, ℕ, length, IfOk, IfSome, IfNone};
ghost use Rattle.vx_rows.specs.Numbers.{number_at, AreNear, AreFirstEqual, IsFirstRepeat, Differ};

use crate::numbers::Numbers;
use std::alloc::{AllocError, Global};

// How many numbers may lie between the least and the greatest, for each number that there is.
const SPREAD: usize = 8;

/// From which number on the numbers are, and how many numbers there are from it to the greatest.
#[derive(Clone, Copy)]
pub(crate) struct Span {
    low: i64,
    width: usize,
}

/// The range of the first `count` numbers, where it is at most 8 times as wide as they are many.
pub(crate) fn span_of(numbers: &Numbers, count: usize) -> Option<Span>
    requires { count ≤ length numbers.now }
    ensures near { IfSome result (λ r. AreNear numbers.now count r.low r.width) }
    ensures width { IfSome result (λ r. r.width ≤ 2 ^ 63) }
{
    let mut low = i64::MAX;
    let mut high = i64::MIN;
    for i in 0..count {
        let number = numbers.get(i);
        low = low.min(number);
        high = high.max(number);
    }
    let above = usize::try_from(high.checked_sub(low)?).ok()?;
    if above > count.saturating_mul(SPREAD) {
        return None;
    }
    Some(Span {
        low,
        width: above + 1,
    })
}

impl Span {
    // How far above the least number a number is.
    fn place(self, number: i64) -> usize
        requires above { self.low ≤ℤ number }
        requires below { number <ℤ (self.low +ℤ pos self.width) }
        requires width { self.width ≤ 2 ^ 63 }
        ensures near { result < self.width }
        ensures there { number ≡ self.low +ℤ pos result }
    {
        (number - self.low) as usize
    }
}

// The first position whose number stands at an earlier one too.
fn first_repeat(
    alloc: Global,
    numbers: &Numbers,
    count: usize,
    span: Span,
) -> Result<Option<usize>, AllocError>
    requires there { count ≤ length numbers.now }
    requires near { AreNear numbers.now count span.low span.width }
    requires width { span.width ≤ 2 ^ 63 }
    ensures none { IfOk result (λ o. IfNone o (Differ numbers.now count)) }
    ensures some { IfOk result (λ o. IfSome o (λ i. IsFirstRepeat numbers.now i)) }
    ensures below { IfOk result (λ o. IfSome o (λ i. i < count)) }
{
    let mut seen = vec![in alloc; false; span.width]?;
    for i in 0..count {
        let at = span.place(numbers.get(i));
        if seen[at] {
            return Ok(Some(i));
        }
        seen[at] = true;
    }
    Ok(None)
}

// The first position with the number at this one.
fn first_place(numbers: &Numbers, second: usize) -> usize
    requires { second < length numbers.now }
    ensures equal { number_at numbers.now second ≡ number_at numbers.now result }
    ensures least { (k : ℕ) → k < result → number_at numbers.now second ≢ number_at numbers.now k }
{
    let number = numbers.get(second);
    for i in 0..second {
        if numbers.get(i) == number {
            return i;
        }
    }
    second
}

/// The first two equal numbers, as (earlier, second), by a mark for each number of the range.
pub(crate) fn first_equal(
    alloc: Global,
    numbers: &Numbers,
    count: usize,
    span: Span,
) -> Result<Option<(usize, usize)>, AllocError>
    requires there { count ≤ length numbers.now }
    requires near { AreNear numbers.now count span.low span.width }
    requires width { span.width ≤ 2 ^ 63 }
    ensures { IfOk result (λ o. AreFirstEqual numbers.now count o) }
{
    match first_repeat(alloc, numbers, count, span)? {
        None => Ok(None),
        Some(second) => Ok(Some((first_place(numbers, second), second))),
    }
}
