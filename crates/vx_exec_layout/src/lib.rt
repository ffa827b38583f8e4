//! The layout of a run: which workers its fragments have, between which of them its exchanges lie, and which of them read
//! its scans.
#![tactic(auto)]

mod laws;
mod layout;
mod needed;
mod span;
mod worker_groups;

pub use laws::layout_stays;
pub use layout::Layout;
pub use needed::rounds_needed;
pub use span::{ExchangeSpan, NodeSpan, ScanSpan};
pub use worker_groups::workers_of;
