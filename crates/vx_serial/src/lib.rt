//! Plans without exchanges, evaluated node by node: each input is taken to its end before the node above it.
#![tactic(auto)]

mod evaluation;
mod exchanges;
mod operators;

pub use evaluation::eval;
