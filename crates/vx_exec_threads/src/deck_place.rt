//! Whose morsels a deck deals, and to whom.

/// The scan whose morsels a deck deals out, and the workers that hold its seats.
#[derive(Clone, Copy, PartialEq, Eq)]
pub struct DeckPlace {
    /// The node number of the scan.
    pub scan: u32,
    /// The number of its first worker among all workers of the run.
    pub first: usize,
    /// How many workers it has.
    pub workers: u32,
}
