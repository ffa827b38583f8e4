//! Which part of a claim is spoken of.

/// One of the three parts of a claim.
#[derive(Clone, Copy)]
pub enum Told {
    Part,
    Order,
    Keys,
}
