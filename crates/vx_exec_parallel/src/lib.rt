//! Runs of plans whose workers are threads, and the engine of this repository: its runs by rounds and by threads.
#![tactic(auto)]

mod engine;
mod members;
mod places;
mod run;

pub use engine::Engine;
pub use run::{Threading, run_threads};
