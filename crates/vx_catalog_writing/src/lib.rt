//! The text of rows, made by several threads: each makes the lines of rows that follow one another.
#![tactic(auto)]

mod blocks;
mod lines;
mod text;
mod write;

pub use text::Text;
pub use write::{WriteShares, format_in_shares, format_in_threads};
