//! Which failures of a plan come of others below them, and the lines of all failures in that order.
#![tactic(auto)]

mod below;
mod claiming;
mod finding;
mod given;
mod laws;
mod reporting;

pub use finding::causes;
pub use laws::each_failure_has_one_line;
pub use reporting::report;
