//! What the threads of a run gave back, put together: the ends of its rings, its decks with their seats, its workers, and what the run comes to.
#![tactic(auto)]

mod assembling;
mod closing;
mod pairs;
mod plans;
mod seats;
mod taking;

pub use assembling::assemble;
