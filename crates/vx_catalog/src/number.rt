//! Numbers in a field.

ghost use Rattle.std.specs.Prelude.{◌≡◌, ◌<◌, ◌≤◌, ◌^◌, length, SomeIff, pos, neg_ℤ};
ghost use Rattle.std.specs.Str.Parse.{IsNumeral, digits_value};
ghost use Rattle.vx_catalog.specs.Number.{number_of};

// The greatest number that another digit may follow: ten times a greater one is over 2^63.
const MAX_FRONT: u64 = (1 << 63) / 10;

// The value of one or more digits, where it is 2^63 at most.
fn magnitude(digits: &[u8]) -> Option<u64>
    ensures { SomeIff result (IsNumeral 10 digits.now × (digits_value 10 digits.now ≤ 2 ^ 63)) (digits_value 10 digits.now) }
{
    if digits.is_empty() {
        return None;
    }
    let mut value = 0u64;
    for byte in digits {
        if !byte.is_ascii_digit() || value > MAX_FRONT {
            return None;
        }
        value = value * 10 + u64::from(*byte - b'0');
    }
    if value <= 1 << 63 { Some(value) } else { None }
}

// The number that digits behind no sign or a plus write, where it has 64 signed bits.
fn positive(digits: &[u8]) -> Option<i64>
    ensures { SomeIff result (IsNumeral 10 digits.now × (digits_value 10 digits.now < 2 ^ 63)) (pos (digits_value 10 digits.now)) }
{
    let value = magnitude(digits)?;
    i64::try_from(value).ok()
}

// The number that digits behind a minus write, where it has 64 signed bits.
fn negative(digits: &[u8]) -> Option<i64>
    ensures { SomeIff result (IsNumeral 10 digits.now × (digits_value 10 digits.now ≤ 2 ^ 63)) (neg_ℤ (pos (digits_value 10 digits.now))) }
{
    let value = magnitude(digits)?;
    0i64.checked_sub_unsigned(value)
}

// The number that 1 to 18 digits write: it has 64 signed bits, so no digit needs a test of the value before it.
fn short(digits: &[u8]) -> Option<i64>
    requires { length digits.now ≤ 18 }
    ensures { SomeIff result (IsNumeral 10 digits.now) (pos (digits_value 10 digits.now)) }
{
    if digits.is_empty() {
        return None;
    }
    let mut value = 0u64;
    for byte in digits {
        if !byte.is_ascii_digit() {
            return None;
        }
        value = value * 10 + u64::from(*byte - b'0');
    }
    Some(value as i64)
}

// An optional sign and digits, where the value has 64 signed bits.
fn signed(field: &[u8]) -> Option<i64>
    ensures { result ≡ number_of field.now }
{
    let sign = *field.first()?;
    match sign {
        b'-' => negative(&field[1..]),
        b'+' => positive(&field[1..]),
        _ => positive(field),
    }
}

/// An optional sign and digits, where the value has 64 signed bits. A few digits without a sign, as most fields are, are tried first.
#[tactic(auto, using(crate::proofs::NumberFacts::few_digits))]
pub fn number_of(field: &[u8]) -> Option<i64>
    ensures { result ≡ number_of field.now }
{
    if field.len() <= 18 {
        if let Some(number) = short(field) {
            return Some(number);
        }
    }
    signed(field)
}
