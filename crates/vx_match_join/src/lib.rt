//! Joins by hashing: the right rows by their keys, and left rows that probe them. The serial evaluator and the workers have their rows from it.
#![tactic(auto)]

mod build_rows;
mod conditions;
mod join;
mod key_places;
mod match_build;

pub use join::{Build, hash_join};
pub use match_build::{MatchBuild, Matching, semi_join};
