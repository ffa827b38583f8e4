//! A plan drawn from its document: a line for each node, with marks at some of them. It needs no catalog, so that plans whose names are not found are drawn too.
#![tactic(auto)]

mod describe;
mod drawing;
mod marking;
mod words;

pub use drawing::plan_lines;
pub use marking::{lines_around, lines_around_have_the_node, marked_lines};
