//! What the workers of a run are made of: an operator of each kind, which counts what passes through it, and the destinations of a
//! fragment's rows.
#![tactic(auto)]

mod counting;
mod destination;
mod kind;
mod of_node;
mod operator;

pub use destination::Destination;
pub use kind::OperatorKind;
pub use of_node::{binary_operator, consumer_operator, unary_operator};
pub use operator::Operator;
