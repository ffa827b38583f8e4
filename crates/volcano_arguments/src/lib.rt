//! Command-line arguments: what they ask for, and the help that they bring.
#![tactic(auto)]

mod asked;
mod command_line;

pub use asked::{Asked, ErrorForm, ManySources, Request, RunArguments, Sources, asked_for};
