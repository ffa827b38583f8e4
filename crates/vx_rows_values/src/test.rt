//! How a condition compares its sides.

ghost use Rattle.std.specs.Prelude.{◌≡◌};
ghost use Rattle.vx_rows_values.specs.Test.{test_text};
ghost use Rattle.vx_rows_values.specs.ValueView.{test_of};

/// A comparison of two values of one type: numbers by size, texts by their bytes.
#[derive(Clone, Copy, PartialEq, Eq)]
pub enum Test {
    Equal,
    Unequal,
    Below,
    AtMost,
    Above,
    AtLeast,
}

impl Test {
    /// The text that says it in a condition.
    pub fn text(self) -> &'static str
        ensures { result.now ≡ test_text (test_of self) }
    {
        match self {
            Test::Equal => "=",
            Test::Unequal => "<>",
            Test::Below => "<",
            Test::AtMost => "<=",
            Test::Above => ">",
            Test::AtLeast => ">=",
        }
    }
}
