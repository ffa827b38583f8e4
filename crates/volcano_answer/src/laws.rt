//! What a status says of a bundle.

ghost use Rattle.volcano_answer.specs.Case.{CaseIsRefusedBySetup};

/// A bundle whose catalog and plan are sound and accepted, and whose tables load, is refused with status 3 only by its setup.
pub fn case_is_refused_by_setup()
    ensures { CaseIsRefusedBySetup }
{}
