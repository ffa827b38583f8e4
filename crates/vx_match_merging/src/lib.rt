//! The merge join: two inputs that are in order on their columns. The serial evaluator and the workers have their rows from it.
#![tactic(auto)]

mod key_run;
mod merging;
mod numbers;
mod side_by_side;

pub use merging::{MergeFault, MergeNeed, MergeRows, merge_join};
pub use side_by_side::push_beside;
