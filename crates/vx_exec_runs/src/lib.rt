//! The seam between a program and what runs its plans: how a run ends, what it promises, and a trait for that which runs them.
#![tactic(auto)]

mod laws;
mod outcome;
mod runs;

pub use laws::setup_stays;
pub use outcome::RunOutcome;
pub use runs::{MAX_ROUNDS, Runs};
