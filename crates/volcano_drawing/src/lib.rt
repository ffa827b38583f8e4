//! The statistics of a run, drawn into the picture of its plan.
#![tactic(auto)]

mod drawing;
mod entries;
mod fault;
mod totals;

pub use drawing::draw;
pub use fault::{Difference, DrawFault};
