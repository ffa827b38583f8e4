//! Room for the lists by which rows are dealt.

use std::alloc::Global;

/// Room that a sender keeps from batch to batch, so that mostly nothing is allocated; what stands in it means nothing between them.
#[derive(Drop)]
pub struct Scratch {
    /// The consumer of each row.
    pub consumers: Vec<u32>,
    /// For each consumer the places of its rows.
    pub places: Vec<Vec<usize>>,
    /// All places, those of the first consumer first.
    pub all: Vec<usize>,
}

impl Scratch {
    /// Room that is not allocated yet.
    pub fn new(alloc: Global) -> Scratch {
        Scratch {
            consumers: Vec::new(alloc),
            places: Vec::new(alloc),
            all: Vec::new(alloc),
        }
    }
}
