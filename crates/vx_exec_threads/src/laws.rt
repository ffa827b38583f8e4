//! What all that the threads of a run gave back says together.

ghost use Rattle.vx_exec_threads.specs.Joined.{JoinedIsLinked};
ghost use Rattle.vx_exec_threads.specs.Paired.{PairedStays};

/// A law: what went through reunited rings and was drawn from closed decks links the traces of all workers as the plan
/// says. No order of events is asked for.
pub fn joined_run_is_linked()
    ensures { JoinedIsLinked }
{}

/// A law: the ends that came back are those of the rings that they were made for.
pub fn joined_ends_are_paired()
    ensures { PairedStays }
{}
