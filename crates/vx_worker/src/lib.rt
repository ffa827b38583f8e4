//! Workers: the operators of a fragment at one place.
#![tactic(auto)]

mod intake;
pub mod tree;
mod wires;
mod wish;
mod worker;

pub use intake::ExchangeInput;
pub use tree::Tree;
pub use wires::{Morsels, Wires};
pub use wish::Wish;
pub use worker::{StepOutcome, Worker, WorkerOutcome};
