//! Plans as JSON documents: read, with the first refusal of what is none, and written.
#![tactic(auto)]

mod document;
mod fault;
mod forms;
mod json;
mod look;
mod operands;
mod operators;
mod plan;
mod reading;

pub use document::Plan;
pub use fault::PlanFault;
pub use json::{claim_text, to_json};
pub use plan::{
    NamedAggregate, NamedBinary, NamedClaim, NamedCondition, NamedEntry, NamedFilter,
    NamedFunction, NamedKind, NamedOperand, NamedOutput, NamedPart, NamedScan, NamedSide,
    NamedUnary, Node,
};
