//! What operators make of rows: the kernels that match no rows, which the serial evaluator and the parallel operators share.
#![tactic(auto)]

mod cells;
mod chunks;
mod pairs;
mod projection;

pub use cells::cell_or_zero;
pub use chunks::{chosen, kept, kept_both, sorted_chunks};
pub use pairs::{left_columns, right_columns};
pub use projection::{kept_columns, types_at};
