//! Morsels of a relation, dealt out by number.
#![tactic(auto)]

mod deck;
mod draw;
mod hand;
pub mod laws;

pub use deck::Deck;
pub use draw::Draw;
pub use hand::Hand;
