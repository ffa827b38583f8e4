//! Lists of columns, which are read where they stand.

ghost use Rattle.std.specs.Prelude.{◌≡◌, ◌<◌, length, slice_index_or};
ghost use Rattle.vx_check_rules.specs.Rules.{numbers_eq};
ghost use Rattle.vx_check_rules.specs.Seen.{columns_seen};

use vx_rows_values::OrderEntry;

/// The columns of a list, those of an order, those of one input in the pairs of a join, or the first ones.
#[derive(Clone, Copy)]
pub enum ColumnsSeen<'p> {
    Listed(&'p [usize]),
    Ordered(&'p [OrderEntry]),
    Lefts(&'p [(usize, usize)]),
    Rights(&'p [(usize, usize)]),
    /// The columns from 0 up to this number.
    First(usize),
}

impl ColumnsSeen<'_> {
    /// How many they are.
    #[tactic(auto, using(crate::proofs::ColumnFacts::first_length))]
    pub fn len(self) -> usize
        ensures { result ≡ length (columns_seen self.entry) }
    {
        match self {
            ColumnsSeen::Listed(columns) => columns.len(),
            ColumnsSeen::Ordered(order) => order.len(),
            ColumnsSeen::Lefts(on) | ColumnsSeen::Rights(on) => on.len(),
            ColumnsSeen::First(count) => count,
        }
    }

    /// The column at this place.
    pub fn at(self, place: usize) -> usize
        requires { place < length (columns_seen self) }
        ensures { result ≡ slice_index_or (columns_seen self.entry) place 0 }
    {
        match self {
            ColumnsSeen::Listed(columns) => columns[place],
            ColumnsSeen::Ordered(order) => order[place].column,
            ColumnsSeen::Lefts(on) => on[place].0,
            ColumnsSeen::Rights(on) => on[place].1,
            ColumnsSeen::First(_) => place,
        }
    }
}

/// The same columns in the same order.
pub fn are_same(xs: &[usize], ys: &[usize]) -> bool
    ensures { result ≡ numbers_eq xs.now ys.now }
{
    xs == ys
}
