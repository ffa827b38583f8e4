//! What the lines in groups are.

ghost use Rattle.vx_check_causes.specs.Once.{OnceLaw};

/// In groups each failure has its line once, where each cause that is named is that of one failure.
pub fn each_failure_has_one_line()
    ensures { OnceLaw }
{}
