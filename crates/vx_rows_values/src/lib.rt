//! Values of rows and their types, how a condition compares two of them, ranges of them, and the limits of all that is read and run. The definitions
//! on lists of rows, which have nothing to do with how rows are kept, are here too: order, bags and keys. And so is the seed by which keys are hashed.
#![tactic(auto)]

mod key_seed;
mod keys;
pub mod limits;
mod order;
mod range;
mod test;
mod value;

pub use key_seed::KeySeed;
pub use keys::keys_are_tested;
pub use order::{OrderEntry, in_directions, order_columns, rising};
pub use range::{NamedRange, copied_ranges};
pub use test::Test;
pub use value::{Cell, ColType, Value, compare_cells, copied_values};
