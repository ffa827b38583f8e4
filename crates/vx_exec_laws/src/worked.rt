//! Worked plans, judged and evaluated by the definitions alone.

ghost use Rattle.vx_exec_laws.specs.Worked.{WorkedPhases};
ghost use Rattle.vx_exec_laws.specs.WorkedFunctions.{WorkedFunctions};
ghost use Rattle.vx_exec_laws.specs.WorkedLimits.{WorkedLimits};
ghost use Rattle.vx_exec_laws.specs.WorkedRows.{AreAccepted, AreRefused, HaveForms, HaveSerialRows};

/// These plans are accepted.
pub fn worked_plans_are_accepted()
    ensures { AreAccepted }
{}

/// These are refused, each at its node by its first failing test.
pub fn worked_plans_are_refused()
    ensures { AreRefused }
{}

/// These are the rows that they mean, or the node at which they overflow.
pub fn worked_plans_have_rows()
    ensures { HaveSerialRows }
{}

/// Which of these plans and ranges are typed, and what keys, clashes, round robin, morsels and range routes come to, as worked by hand.
pub fn worked_forms_compute()
    ensures { HaveForms }
{}

/// Groupings in two steps and exchanges that take one producer after the other: what is accepted of them, what is refused, and what they mean.
pub fn worked_plans_compute()
    ensures { WorkedPhases }
{}

/// Limits, semi joins and anti joins: what is accepted of them, what is refused, and what they mean.
pub fn worked_limits_compute()
    ensures { WorkedLimits }
{}

/// Functions in projections and conditions: what is accepted of them, what is refused, and what they mean.
pub fn worked_functions_compute()
    ensures { WorkedFunctions }
{}
