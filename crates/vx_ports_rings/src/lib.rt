//! Rings of packets: ports whose two ends may move to threads of their own.
#![tactic(auto)]

mod ends;
mod ring;

pub use ends::{reunite, ring_pair};
pub use ring::{RingIn, RingOut};
