//! Tables of a number and a text, rows as text, cases as lines of text, and a route of keys, for tests.
//!
//! It stands in a crate of its own, with no test in it, so that it is proved once for all the crates of tests above it.
#![tactic(auto)]

mod lines;
mod routers;
mod tables;

pub use lines::{parts, three_numbers};
pub use routers::ToFirst;
pub use tables::{TYPES, show_cell, shown, table};
