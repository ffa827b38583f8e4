//! The workers of a run in threads of their own: they start together or not at all, and each gives back what it held.
#![tactic(auto)]

mod crew;
mod member;
mod promise;
mod shared;
mod start;
mod starting;

pub use crew::{begin_all, join_all, run_in_threads};
pub use member::{CrewMember, Joined};
pub use promise::JoinPromise;
pub use shared::Shared;
pub use start::Start;
pub use starting::{begin, work};
