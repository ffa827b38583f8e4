//! The rings between the workers of a plan, the seats of its shared scans and the hands of its other ones, made before
//! the first step.
#![tactic(auto)]

mod making;
mod rings;
mod scans;
mod share;
mod wiring;

pub use wiring::{Wiring, wiring_of};
