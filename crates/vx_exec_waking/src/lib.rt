//! Why no worker of a run by threads sleeps for ever: a small machine of workers, rings and parkers, and its laws.
#![tactic(auto)]

ghost use Rattle.vx_exec_waking.specs.Waking.{EachDutyIsNeeded, FullHasGathered, NobodyIsLeft, SomeCrewEnds};

/// A law: where each worker has ended or sleeps without a token, all have ended. Whatever the order of the threads, whoever fails, and to whomever
/// memory is refused.
pub fn nobody_sleeps_for_ever()
    ensures { NobodyIsLeft }
{}

/// A law: a worker that sleeps since it found a ring full has emptied its own rings, or memory was refused to it.
pub fn full_has_gathered()
    ensures { FullHasGathered }
{}

/// A law: a crew that leaves out one of its three duties may sleep for ever.
pub fn each_duty_is_needed()
    ensures { EachDutyIsNeeded }
{}

/// A law: a crew that keeps all three can come to its end.
pub fn some_crew_ends()
    ensures { SomeCrewEnds }
{}
