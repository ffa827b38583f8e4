//! What goes between an operator and those around it in one turn.

use crate::fault::Fault;
use vx_ports::Packet;
use vx_rows_views::Rows;

/// What a source wants before its next turn.
#[derive(Clone, Copy, Debug, PartialEq, Eq)]
pub enum Want {
    /// Nothing: it has ended or failed, or still holds rows.
    Nothing,
    /// The rows of a morsel.
    Morsel,
    /// What its left, or only, input returns.
    Left,
    /// What its right input returns.
    Right,
    /// A packet of the producer at this place.
    Packet(u32),
}

/// What a source returns for one turn.
#[derive(Drop)]
pub enum Polled {
    /// Some rows: at least one.
    Gave(Rows),
    /// Nothing yet.
    Waiting,
    /// All rows were returned. Every later turn returns it again.
    End,
    /// The source failed. It comes again after it came.
    Fault(Fault),
}

/// What a source gets for a turn: what it wants. A morsel counts as an input.
#[derive(Drop)]
pub enum Got {
    /// It wanted nothing.
    Nothing,
    /// What the input returned for one turn, or a morsel.
    Input(Polled),
    /// A packet, or none where none has come yet.
    Packet(Option<Packet>),
}
