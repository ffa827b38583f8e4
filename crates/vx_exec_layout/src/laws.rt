//! The law of plans under other functions: the layout of a run does not depend on them.

ghost use Rattle.vx_exec_layout.specs.UnderLaws.{LayoutStays};

/// Whatever functions a plan has, its workers are the same, and so is the bound of its rounds.
pub fn layout_stays()
    ensures { LayoutStays }
{}
