//! Bundles: a catalog, a plan, the texts of its tables and how to run it, in one JSON value.
#![tactic(auto)]

mod bundle;
mod command;

pub use bundle::{Bundle, bundle_in, value_of_text};
pub use command::Command;
