//! Relations loaded by several threads: a text is cut at line feeds, and its pieces are read side by side.
#![tactic(auto)]

mod buffer;
mod cuts;
mod first_line;
mod load;
mod pieces;
mod rounds;
mod text;

pub use load::{load_in_shares, load_in_threads};
pub use rounds::ReadShares;
