//! Bytes in and out, over the system, files and memory, each with what is known of it.
#![tactic(auto)]

mod bytes;
mod memory;
mod store;

pub use bytes::{Broken, ByteIn, ByteOut, ReadFault, Real, read_all, write_all};
pub use memory::{MemoryIn, MemoryOut};
pub use store::{Disk, Store};
