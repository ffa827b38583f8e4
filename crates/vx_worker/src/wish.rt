//! What the tree of a fragment wants before its next turn.

/// What the leaf wants at which the walk from the top ends, where each operator says which of its inputs it wants.
#[derive(Clone, Copy, PartialEq, Eq)]
pub enum Wish {
    /// Nothing from outside.
    Nothing,
    /// The rows of a morsel, for the scan with this number.
    Morsel(u32),
    /// A packet, for the exchange with this number, of the producer at this place.
    Packet(u32, u32),
}
