//! Workers in threads: what a thread holds of what a run shares, its loop, and what all that came back says together.
#![tactic(auto)]

mod deck_place;
mod drawer;
mod ends;
mod inlet;
mod laws;
mod run;
mod waking;
mod wires;

pub use deck_place::DeckPlace;
pub use drawer::{Dealer, Drawer};
pub use ends::Ends;
pub use inlet::Inlet;
pub use laws::{joined_ends_are_paired, joined_run_is_linked};
pub use run::{Free, Gate, WorkerPlace, run_to_end};
pub use wires::ThreadWires;
