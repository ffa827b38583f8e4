//! All nodes of a plan at which a claim does not follow, where the checker says the first one, and what follows there.
#![tactic(auto)]

mod derived;
mod failing;
mod failure;
mod finding;
mod grouping;
mod lines;
mod named;
mod shown;

pub use failing::failures;
pub use failure::Failure;
pub use finding::node_numbered;
pub use grouping::{grouped_lines, ungrouped_lines_are_in_order};
pub use shown::shown_claim;
