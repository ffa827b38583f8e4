//! Functions of two numbers, each a type of its own: so a loop over columns is made for each of them.

ghost use Rattle.std.specs.Prelude.{◌≡◌};
ghost use Rattle.vx_functions.specs.Numbers.{truth, holds};

/// A function of two numbers. What it answers depends on nothing else.
pub trait NumberPair {
    ghost use Rattle.std.specs.Prelude.{◌≡◌, ℤ, Option};

    ghost says: { Self → ℤ → ℤ → Option ℤ };

    /// What it answers. None is an overflow.
    fn of(&self, x: i64, y: i64) -> Option<i64>
        ensures { result ≡ says self.now x y };
}

/// 1 for what holds, 0 for what does not.
pub fn truth(holds: bool) -> i64
    ensures { result ≡ truth holds }
{
    if holds { 1 } else { 0 }
}

/// Whether a number holds: it is not 0.
pub fn holds(x: i64) -> bool
    ensures { result ≡ holds x }
{
    x != 0
}

/// The sum.
pub struct Sum;

impl NumberPair for Sum {
    ghost use Rattle.vx_functions.specs.Standard.{of_numbers};
    ghost use Rattle.vx_functions.specs.declared.standard.StandardFunction.TheVariants as function;

    ghost says = { λ s x y. of_numbers function.Add x y };

    fn of(&self, x: i64, y: i64) -> Option<i64> {
        x.checked_add(y)
    }
}

/// The difference.
pub struct Difference;

impl NumberPair for Difference {
    ghost use Rattle.vx_functions.specs.Standard.{of_numbers};
    ghost use Rattle.vx_functions.specs.declared.standard.StandardFunction.TheVariants as function;

    ghost says = { λ s x y. of_numbers function.Sub x y };

    fn of(&self, x: i64, y: i64) -> Option<i64> {
        x.checked_sub(y)
    }
}

/// The product.
pub struct Product;

impl NumberPair for Product {
    ghost use Rattle.vx_functions.specs.Standard.{of_numbers};
    ghost use Rattle.vx_functions.specs.declared.standard.StandardFunction.TheVariants as function;

    ghost says = { λ s x y. of_numbers function.Mul x y };

    fn of(&self, x: i64, y: i64) -> Option<i64> {
        x.checked_mul(y)
    }
}

/// Whether both numbers hold.
pub struct Both;

impl NumberPair for Both {
    ghost use Rattle.vx_functions.specs.Standard.{of_numbers};
    ghost use Rattle.vx_functions.specs.declared.standard.StandardFunction.TheVariants as function;

    ghost says = { λ s x y. of_numbers function.And x y };

    fn of(&self, x: i64, y: i64) -> Option<i64> {
        Some(truth(holds(x) && holds(y)))
    }
}

/// Whether one of the numbers holds.
pub struct Either;

impl NumberPair for Either {
    ghost use Rattle.vx_functions.specs.Standard.{of_numbers};
    ghost use Rattle.vx_functions.specs.declared.standard.StandardFunction.TheVariants as function;

    ghost says = { λ s x y. of_numbers function.Or x y };

    fn of(&self, x: i64, y: i64) -> Option<i64> {
        Some(truth(holds(x) || holds(y)))
    }
}

/// Whether the numbers are equal.
pub struct Equal;

impl NumberPair for Equal {
    ghost use Rattle.vx_functions.specs.Standard.{of_numbers};
    ghost use Rattle.vx_functions.specs.declared.standard.StandardFunction.TheVariants as function;

    ghost says = { λ s x y. of_numbers function.Eq x y };

    fn of(&self, x: i64, y: i64) -> Option<i64> {
        Some(truth(x.cmp(&y).is_eq()))
    }
}

/// Whether they are not.
pub struct Unequal;

impl NumberPair for Unequal {
    ghost use Rattle.vx_functions.specs.Standard.{of_numbers};
    ghost use Rattle.vx_functions.specs.declared.standard.StandardFunction.TheVariants as function;

    ghost says = { λ s x y. of_numbers function.Ne x y };

    fn of(&self, x: i64, y: i64) -> Option<i64> {
        Some(truth(x.cmp(&y).is_ne()))
    }
}

/// Whether the first one is less.
pub struct Below;

impl NumberPair for Below {
    ghost use Rattle.vx_functions.specs.Standard.{of_numbers};
    ghost use Rattle.vx_functions.specs.declared.standard.StandardFunction.TheVariants as function;

    ghost says = { λ s x y. of_numbers function.Lt x y };

    fn of(&self, x: i64, y: i64) -> Option<i64> {
        Some(truth(x.cmp(&y).is_lt()))
    }
}

/// Whether the first one is not more.
pub struct AtMost;

impl NumberPair for AtMost {
    ghost use Rattle.vx_functions.specs.Standard.{of_numbers};
    ghost use Rattle.vx_functions.specs.declared.standard.StandardFunction.TheVariants as function;

    ghost says = { λ s x y. of_numbers function.Le x y };

    fn of(&self, x: i64, y: i64) -> Option<i64> {
        Some(truth(x.cmp(&y).is_le()))
    }
}

/// Whether the first one is more.
pub struct Above;

impl NumberPair for Above {
    ghost use Rattle.vx_functions.specs.Standard.{of_numbers};
    ghost use Rattle.vx_functions.specs.declared.standard.StandardFunction.TheVariants as function;

    ghost says = { λ s x y. of_numbers function.Gt x y };

    fn of(&self, x: i64, y: i64) -> Option<i64> {
        Some(truth(x.cmp(&y).is_gt()))
    }
}

/// Whether the first one is not less.
pub struct AtLeast;

impl NumberPair for AtLeast {
    ghost use Rattle.vx_functions.specs.Standard.{of_numbers};
    ghost use Rattle.vx_functions.specs.declared.standard.StandardFunction.TheVariants as function;

    ghost says = { λ s x y. of_numbers function.Ge x y };

    fn of(&self, x: i64, y: i64) -> Option<i64> {
        Some(truth(x.cmp(&y).is_ge()))
    }
}

/// The quotient, rounded toward zero.
pub struct Quotient;

impl NumberPair for Quotient {
    ghost use Rattle.vx_functions.specs.Standard.{of_numbers};
    ghost use Rattle.vx_functions.specs.declared.standard.StandardFunction.TheVariants as function;

    ghost says = { λ s x y. of_numbers function.Div x y };

    fn of(&self, x: i64, y: i64) -> Option<i64> {
        x.checked_div(y)
    }
}

/// What that division leaves.
pub struct Remainder;

impl NumberPair for Remainder {
    ghost use Rattle.vx_functions.specs.Standard.{of_numbers};
    ghost use Rattle.vx_functions.specs.declared.standard.StandardFunction.TheVariants as function;

    ghost says = { λ s x y. of_numbers function.Mod x y };

    fn of(&self, x: i64, y: i64) -> Option<i64> {
        if y == -1 {
            return Some(0);
        }
        x.checked_rem(y)
    }
}
