//! Operators that match rows on keys, as sources that do not hold their inputs.
#![tactic(auto)]

mod distinct;
mod group;
mod hash_join;
mod merge_join;
mod semi_join;

pub use distinct::{Distinct, FirstRows};
pub use group::{Group, KeyedGroups};
pub use hash_join::{HashJoin, HashJoining};
pub use merge_join::MergeJoin;
pub use semi_join::{SemiJoin, SemiJoining};
