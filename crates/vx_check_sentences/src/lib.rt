//! A refusal of the checker in sentences: what a node claims, what is there instead, and what would help.
#![tactic(auto)]

mod claimed;
mod explaining;
mod followed;
mod help;
mod help_claims;
mod help_words;
mod open;
mod second_table;
mod sentences;
mod shown;
mod told;
mod words;

pub use explaining::explanation;
pub use sentences::Explanation;
