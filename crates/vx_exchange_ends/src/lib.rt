//! What the ends of an exchange owe: the trait of a sending end, what it ships, and whose turn it is among several inputs.
#![tactic(auto)]

mod in_turn;
pub mod laws;
mod sends;

pub use in_turn::{MayEnd, next_open, next_unset};
pub use sends::Sends;
