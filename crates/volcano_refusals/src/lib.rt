//! All reasons why the program returns no text, and the status of each.
#![tactic(auto)]

mod refusal;
mod statuses;

pub use refusal::{Refusal, report};
pub use statuses::status;
