//! Packets and the ports that they go through.
#![tactic(auto)]

pub mod laws;
mod link;
mod packet;
mod port;

pub use link::Link;
pub use packet::{Body, Packet, StreamEnd};
pub use port::{InPort, OutPort, Put};
