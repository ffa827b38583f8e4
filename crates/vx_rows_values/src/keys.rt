//! The law of keys.

ghost use Rattle.vx_rows_values.specs.Keys.{KeyLaw};

/// The law of keys: rows have a key where no row agrees with a later one, and there is a clash where one does.
/// It does nothing.
pub fn keys_are_tested()
    ensures { KeyLaw }
{}
