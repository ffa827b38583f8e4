//! Words, numbers and times in columns.

ghost use Rattle.std.specs.Prelude.{◌≡◌, ◌++◌, ◌∷◌, [], ◌+◌, ◌<◌, string_bytes, replicate, decimal, OnOk};
ghost use Rattle.volcano_stats.specs.Columns.{at_left, at_right, column, thousandths, milliseconds, microseconds};

use itoa::Buffer;
use std::alloc::AllocError;

/// Adds a number.
pub fn push_number(text: &mut String, number: u64) -> Result<(), AllocError>
    ensures { OnOk result (string_bytes text.new ≡ string_bytes text.old ++ decimal number) }
{
    let mut digits = Buffer::new();
    text.push_str(digits.format(number))
}

// Adds `count` spaces.
fn push_spaces(text: &mut String, count: usize) -> Result<(), AllocError>
    ensures { OnOk result (string_bytes text.new ≡ string_bytes text.old ++ replicate count 32) }
{
    for _i in 0..count {
        text.push_str(" ")?;
    }
    Ok(())
}

/// Adds `word` at the left of a column of `width` places.
pub fn push_left(text: &mut String, width: usize, word: &str) -> Result<(), AllocError>
    ensures { OnOk result (string_bytes text.new ≡ string_bytes text.old ++ at_left width word.now) }
{
    text.push_str(word)?;
    push_spaces(text, width.saturating_sub(word.len()))
}

/// Adds `word` at the right of a column of `width` places.
pub fn push_right(text: &mut String, width: usize, word: &str) -> Result<(), AllocError>
    ensures { OnOk result (string_bytes text.new ≡ string_bytes text.old ++ at_right width word.now) }
{
    push_spaces(text, width.saturating_sub(word.len()))?;
    text.push_str(word)
}

/// Adds a number at the right of a column.
pub fn push_aligned(text: &mut String, width: usize, number: u64) -> Result<(), AllocError>
    ensures { OnOk result (string_bytes text.new ≡ string_bytes text.old ++ at_right width (decimal number)) }
{
    let mut digits = Buffer::new();
    push_right(text, width, digits.format(number))
}

/// Adds a number at the right of a column, behind a space.
#[tactic(auto, unfolding(crate::specs::Columns::column))]
pub fn push_column(text: &mut String, width: usize, number: u64) -> Result<(), AllocError>
    ensures { OnOk result (string_bytes text.new ≡ string_bytes text.old ++ column width number) }
{
    text.push_str(" ")?;
    push_aligned(text, width, number)
}

// A digit.
fn digit(n: u64) -> u8
    requires { n < 10 }
    ensures { result ≡ 48 + n }
{
    b'0' + n as u8
}

/// A point and the three digits of a number below 1000.
pub fn thousandths(n: u64) -> [u8; 4]
    requires { n < 1000 }
    ensures { result ≡ thousandths n }
{
    [b'.', digit(n / 100), digit(n / 10 % 10), digit(n % 10)]
}

// Adds a digit.
fn push_digit(text: &mut String, n: u64) -> Result<(), AllocError>
    requires { n < 10 }
    ensures { OnOk result (string_bytes text.new ≡ string_bytes text.old ++ ((48 + n) ∷ [])) }
{
    text.push(digit(n) as char)
}

// Adds a point and the three digits of a number below 1000.
fn push_thousandths(text: &mut String, n: u64) -> Result<(), AllocError>
    requires { n < 1000 }
    ensures { OnOk result (string_bytes text.new ≡ string_bytes text.old ++ thousandths n) }
{
    text.push_str(".")?;
    push_digit(text, n / 100)?;
    push_digit(text, n / 10 % 10)?;
    push_digit(text, n % 10)
}

/// Adds `time`, in microseconds, as milliseconds with three digits behind the point, or a dash for `None`.
pub fn push_milliseconds(text: &mut String, time: Option<u64>) -> Result<(), AllocError>
    ensures { OnOk result (string_bytes text.new ≡ string_bytes text.old ++ milliseconds time) }
{
    match time {
        Some(n) => {
            push_aligned(text, 10, n / 1000)?;
            push_thousandths(text, n % 1000)
        }
        None => push_right(text, 14, "-"),
    }
}

/// Adds `time`, in microseconds, as a JSON value: `null` for `None`.
pub fn push_microseconds(text: &mut String, time: Option<u64>) -> Result<(), AllocError>
    ensures { OnOk result (string_bytes text.new ≡ string_bytes text.old ++ microseconds time) }
{
    match time {
        Some(n) => push_number(text, n),
        None => text.push_str("null"),
    }
}
