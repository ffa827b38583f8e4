//! What holds of the parts that nodes show.

ghost use Rattle.vx_check_shown.specs.PartLaws.{PartShown, PartTellsTheMost, PartIsClaimless, PartIsTyped};

/// The part that a node shows of those that its inputs claim passes the test of its part, tells each one that does, does not
/// depend on what else is claimed, and may be claimed.
pub fn shown_part_tells_the_most()
    ensures shown { PartShown }
    ensures most { PartTellsTheMost }
    ensures claimless { PartIsClaimless }
    ensures typed { PartIsTyped }
{}
