//! What a run gets beside its plan and its database, what it counts of itself, and why a run, or a serial evaluation, returns no rows.
#![tactic(auto)]

mod counts;
mod eval_fault;
mod fault;
mod setting;
mod setup;

pub use counts::{NodeCounts, OperatorCounts, RunCounts, StepCounts, WorkerCounts};
pub use eval_fault::EvalFault;
pub use fault::RunFault;
pub use setting::{Mode, Setting};
pub use setup::{DEFAULT_MORSEL_ROWS, DEFAULT_PACKET_ROWS, DEFAULT_SLACK, Setup, is_within};
