//! What the claims that are found are good for.

ghost use Rattle.vx_check_annotate.specs.Accepted.{FoundIsAccepted};

/// Where some claims that keep those of a plan are accepted, those that are found are, if fewer than 16 keys are found at each
/// node. So a limit is refused only if no claims make its input's order total.
pub fn found_is_accepted()
    ensures { FoundIsAccepted }
{}
