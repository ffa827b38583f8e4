//! Columns and conditions that are computed by functions, a chunk at a time: each function goes over whole columns.
#![tactic(auto)]

mod answers;
mod applying;
mod blocks;
mod columns;
mod expressions;
mod fault;
mod filtering;
mod intervals;
mod loops;
mod masks;
mod numbers;
mod operands;
mod pairs;
mod projecting;
mod texts;

pub use fault::ComputeFault;
pub use filtering::filtered;
pub use projecting::projected;
