//! Orders, which are read where they stand.

ghost use Rattle.std.specs.Prelude.{◌≡◌, ◌<◌, Some, length, slice_get};
ghost use Rattle.vx_check_rules.specs.Rules.{is_front};
ghost use Rattle.vx_check_rules.specs.Seen.{order_seen};

use crate::columns::ColumnsSeen;
use vx_rows_values::OrderEntry;

/// An order as it stands; or that in which a join by merging has to have the rows of one of its inputs: by its pairs, and
/// of each pair whether its columns fall.
#[derive(Clone, Copy)]
pub enum OrderSeen<'p> {
    Listed(&'p [OrderEntry]),
    Lefts(&'p [(usize, usize)], &'p [bool]),
    Rights(&'p [(usize, usize)], &'p [bool]),
}

impl OrderSeen<'_> {
    /// How many entries it has.
    pub fn len(self) -> usize
        ensures { result ≡ length (order_seen self.entry) }
    {
        match self {
            OrderSeen::Listed(order) => order.len(),
            OrderSeen::Lefts(on, falls) => on.len().min(falls.len()),
            OrderSeen::Rights(on, falls) => on.len().min(falls.len()),
        }
    }

    /// The entry at this place.
    pub fn at(self, place: usize) -> OrderEntry
        requires { place < length (order_seen self) }
        ensures { slice_get (order_seen self.entry) place ≡ Some result }
    {
        match self {
            OrderSeen::Listed(order) => order[place],
            OrderSeen::Lefts(on, falls) => OrderEntry {
                column: ColumnsSeen::Lefts(on).at(place),
                falling: falls[place],
            },
            OrderSeen::Rights(on, falls) => OrderEntry {
                column: ColumnsSeen::Rights(on).at(place),
                falling: falls[place],
            },
        }
    }

    /// Whether it begins the other order.
    pub fn begin(self, order: &[OrderEntry]) -> bool
        ensures { result ≡ is_front (order_seen self.entry) order.now }
    {
        if order.len() < self.len() {
            return false;
        }
        for i in 0..self.len() {
            if !self.at(i).is_same(order[i]) {
                return false;
            }
        }
        true
    }
}
