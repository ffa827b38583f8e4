//! What the traces of all workers say together.

ghost use Rattle.vx_exec_laws.specs.AnyFunctions.{AnyFunctions};
ghost use Rattle.vx_exec_laws.specs.Dispatch.{HandsDispatched};
ghost use Rattle.vx_exec_laws.specs.Faults.{ErasedOverflows, NoOrderFault, NumberedFaultsAreReal, OverflowIsReal};
ghost use Rattle.vx_exec_laws.specs.Layout.{FlatIsRun, NumberedIsFit, NumberedRunDelivers};
ghost use Rattle.vx_exec_laws.specs.Samples.{FailedRun, SampleRun};
ghost use Rattle.vx_exec_laws.specs.RunOf.{WellRunDelivers, WellRunGives, WellRuns};

/// Where all workers are well, what those at the top made are streams of a run.
pub fn well_traces_are_a_run()
    ensures { WellRuns }
{}

/// And the rows gathered at the root are its stream.
pub fn well_run_gives_its_stream()
    ensures { WellRunGives }
{}

/// A run of which all workers are well delivers the rows of the plan without its exchanges.
pub fn well_run_delivers()
    ensures { WellRunDelivers }
{}

/// An overflow that a run answers is one of the data, also where other workers were cut short.
pub fn overflow_of_a_run_is_real()
    ensures { OverflowIsReal }
{}

/// Traces by the workers' numbers are traces by fragments.
pub fn flat_run_is_a_run()
    ensures { FlatIsRun }
{}

/// In a numbered plan that is allowed, each scan's number gives its relation.
pub fn numbered_plan_is_fit()
    ensures { NumberedIsFit }
{}

/// No worker of an allowed plan ends with rows that fall, or with a packet that isn't its own.
pub fn no_order_fault_in_a_run()
    ensures { NoOrderFault }
{}

/// What the laws ask of traces can be met.
pub fn sample_run_is_met()
    ensures { SampleRun }
{}

/// The plan without its exchanges overflows where the plan does.
pub fn erased_plan_overflows_alike()
    ensures { ErasedOverflows }
{}

/// And what they ask of a run that fails.
pub fn failed_run_is_met()
    ensures { FailedRun }
{}

/// What a deck's closing promises of a list of hands is what the laws ask of seats.
pub fn hands_are_dispatched()
    ensures { HandsDispatched }
{}

/// The headline, from traces by the workers' numbers.
pub fn numbered_run_delivers()
    ensures { NumberedRunDelivers }
{}

/// An overflow that a run answers is real, and no order fault comes, from traces by the workers' numbers.
pub fn numbered_faults_are_real()
    ensures { NumberedFaultsAreReal }
{}

/// Under any functions a run of an accepted plan delivers the rows of the plan under these functions, and its faults are real.
pub fn any_functions_are_run()
    ensures { AnyFunctions }
{}
