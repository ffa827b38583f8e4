//! Groups and their aggregates. The serial evaluator and the workers have their rows from them.
#![tactic(auto)]

mod column;
mod fault;
mod fold;
mod folds;
mod grouping;
mod operands;
mod sum;

pub use fault::GroupFault;
pub use grouping::{Grouping, grouped};
pub use sum::{SumIsFull, WideSum};
