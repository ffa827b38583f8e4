//! What is told how far a run has come, and what is known of that.
#![tactic(auto)]

mod board;
mod watch;

pub use board::Board;
pub use watch::{CountsRows, Unwatched, Watch};
