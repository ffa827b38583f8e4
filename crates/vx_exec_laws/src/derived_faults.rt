//! The laws of runs that were cut short by a fault, by the rule table with what is known of columns: each is the contract of a function with an empty body.

ghost use Rattle.vx_exec_laws.specs.DerivedFaults.{NoOrderFaultDerived, NoStranger, NumberedOrdersDerived, NumberedOverflowsDerived, OverflowIsRealDerived, RowsSoFarMeet};

/// The rows that a worker has given so far meet the facts of its node, also where workers were cut short.
pub fn rows_so_far_meet_their_facts()
    ensures { RowsSoFarMeet }
{}

/// An overflow that a run answers is one of the data, also where other workers were cut short.
pub fn overflow_of_a_derived_run_is_real()
    ensures { OverflowIsRealDerived }
{}

/// The same from traces by the workers' numbers.
pub fn numbered_overflows_are_real()
    ensures { NumberedOverflowsDerived }
{}

/// Whatever is claimed, no worker ends with a packet that isn't its own.
pub fn no_stranger_in_a_run()
    ensures { NoStranger }
{}

/// No worker of a plan that the table allows ends with rows that fall, or with a packet that isn't its own.
pub fn no_order_fault_in_a_derived_run()
    ensures { NoOrderFaultDerived }
{}

/// The same from traces by the workers' numbers.
pub fn no_numbered_order_fault()
    ensures { NumberedOrdersDerived }
{}
