//! A deck of numbers that threads draw from at once.
#![tactic(auto)]

mod draw;
mod rule;
mod shared;

pub use draw::DeckDraw;
pub use shared::{DeckSeat, SharedDeck};
