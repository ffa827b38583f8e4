//! What a node is to the workers of a run.

/// An exchange, and the workers at its two sides.
#[derive(Clone, Copy, PartialEq, Eq)]
pub struct ExchangeSpan {
    /// The number of the node.
    pub number: u32,
    /// The number of the first producer among all workers.
    pub below: usize,
    /// How many producers it has.
    pub producers: u32,
    /// The number of the first consumer among all workers.
    pub above: usize,
    /// How many consumers it has.
    pub consumers: u32,
}

/// A scan, and the workers that read it.
#[derive(Clone, Copy, PartialEq, Eq)]
pub struct ScanSpan {
    /// The number of the node.
    pub number: u32,
    /// The number of its relation in the catalog.
    pub relation: usize,
    /// The workers share the rows, or else each has all of them.
    pub is_shared: bool,
    /// The number of its first worker among all workers.
    pub first: usize,
    /// How many workers read it.
    pub workers: u32,
}

/// What a node is to the workers of a run. An inner node has its input from the same worker.
#[derive(Clone, Copy, PartialEq, Eq)]
pub enum NodeSpan {
    Inner,
    Exchange(ExchangeSpan),
    Scan(ScanSpan),
}
