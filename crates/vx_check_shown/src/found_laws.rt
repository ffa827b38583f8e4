//! What claims that are found are good for.

ghost use Rattle.vx_check_shown.specs.FoundLaws.{KeyedIsGood, FoundIsGood};

/// Keys that are found at all nodes are typed, and are all that are shown over those of the inputs.
pub fn keyed_is_good()
    ensures { KeyedIsGood }
{}

/// Parts and orders that are found at all nodes are typed, and with all keys they tell the most.
pub fn found_is_good()
    ensures { FoundIsGood }
{}
