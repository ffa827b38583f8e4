//! Functions of numbers.

ghost use Rattle.std.specs.Prelude.{◌≡◌};
ghost use Rattle.vx_functions.specs.Numbers.{add, sub, mul, neg, div, rest, truth, holds};

/// The sum. None is an overflow.
pub fn add(x: i64, y: i64) -> Option<i64>
    ensures { result ≡ add x y }
{
    x.checked_add(y)
}

/// The difference. None is an overflow.
pub fn sub(x: i64, y: i64) -> Option<i64>
    ensures { result ≡ sub x y }
{
    x.checked_sub(y)
}

/// The product. None is an overflow.
pub fn mul(x: i64, y: i64) -> Option<i64>
    ensures { result ≡ mul x y }
{
    x.checked_mul(y)
}

/// The number with the other sign. None is an overflow.
pub fn neg(x: i64) -> Option<i64>
    ensures { result ≡ neg x }
{
    x.checked_neg()
}

/// The quotient, rounded toward zero. None is an overflow: that of the least number by -1, or of any by 0.
pub fn div(x: i64, y: i64) -> Option<i64>
    ensures { result ≡ div x y }
{
    x.checked_div(y)
}

/// What a division that rounds toward zero leaves. None is a division by 0; of the least number by -1, it leaves 0.
pub fn remainder(x: i64, y: i64) -> Option<i64>
    ensures { result ≡ rest x y }
{
    if y == -1 {
        return Some(0);
    }
    x.checked_rem(y)
}

/// 1 for what holds, 0 for what does not.
pub fn truth(holds: bool) -> i64
    ensures { result ≡ truth holds }
{
    if holds { 1 } else { 0 }
}

/// Whether a number holds: it is not 0.
pub fn holds(x: i64) -> bool
    ensures { result ≡ holds x }
{
    x != 0
}
