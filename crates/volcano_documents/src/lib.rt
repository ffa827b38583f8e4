//! Where a JSON text departs from its form: for messages to people, after a text was refused.
//!
//! It decides nothing. The readers say what is refused; this finds in the text what they stumbled over.
#![tactic(auto)]

mod faults;
mod members;
mod misfits;
mod names;
mod near;
mod places;
mod scan;
mod shapes;
mod steps;
mod syntax;
mod wording;
mod words;

pub use faults::{Document, DocumentFault, find_fault};
pub use names::{NamePlace, find_name};
pub use near::nearest_word;
pub use places::Position;
pub use steps::{Step, position_of};
