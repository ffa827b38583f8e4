//! Rows that are shared and seen through positions: to cut, pick, join or append them copies no cell.
//!
//! A table is never written again once it is shared. A part says which of its rows are seen, and in which order:
//! a range of positions, or a list of them, which other parts may share. A chunk lays parts of equally many rows side
//! by side, and says for each column in which part it lies. Rows are chunks one behind the other.
//!
//! ```text
//!   Rows    chunk 0, chunk 1, chunk 2 ..         one behind the other
//!                            |
//!   Chunk          fields:  name   city   price         (part, column of it)
//!                          (0,0)  (1,2)   (0,1)
//!                            |       \      |
//!   Parts           part 0 --+--------\-----+   part 1
//!                   at [7, 2, 9]       \------- at 4 .. 7
//!                      |                           |
//!   Tables          Arc<Rows>                   Arc<Rows>
//!
//!   The row 1 of this chunk: the name and the price of row 2 of the first table, and the city of row 5 of the second.
//! ```
//!
//! What a caller sees of each of them is the same as of a table: the types of the columns, and a list of rows.
#![tactic(auto)]

mod chunk;
mod copied;
mod laws;
mod marks;
mod places;
mod positions;
mod rows;
mod table_rows;

pub use chunk::Chunk;
pub use laws::places_are_a_filter;
pub use places::{NumberTest, push_place_if};
pub use positions::{Position, Positions, PositionsRef, are_counted_from};
pub use rows::Rows;
pub use table_rows::TableRows;
