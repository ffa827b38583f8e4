//! Rows kept by columns and seen as a list of rows, sorted and tested for keys.
#![tactic(auto)]

mod clash;
mod column;
mod numbers;
mod open;
mod parts;
mod row;
mod sorting;
mod spans;
mod table;
mod texts;
mod writes;

pub use numbers::{Numbers, NumbersRef};
pub use open::OpenRows;
pub use row::Row;
pub use sorting::compare_on;
pub use table::{Table, put_key};
pub use texts::Texts;
