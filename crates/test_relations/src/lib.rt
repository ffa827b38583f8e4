//! Plans that the checker accepts, and relations with the rows of texts, for tests.
//!
//! It stands in a crate of its own, with no test in it, so that it is proved once for all the crates of tests above it.
#![tactic(auto)]

mod plans;
mod queries;
mod rows;

pub use plans::accepted;
pub use queries::{generated, generated_database, plan_of_query};
pub use rows::fill;
