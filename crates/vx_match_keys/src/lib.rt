//! The keys that rows have in some columns: each key once, with its number, and the rows whose key is new. Joins, groups and distinct rows
//! stand on them.
#![tactic(auto)]

mod column_keys;
mod columns;
mod composite_keys;
mod direct_keys;
mod hashed_keys;
mod int_keys;
mod key_hashes;
mod key_matches;
mod keys;
mod rising;
mod row_keys;
mod seen;
mod text_keys;

pub use columns::IntColumn;
pub use keys::Keys;
pub use rising::{compare_rows, rises};
pub use seen::Seen;
