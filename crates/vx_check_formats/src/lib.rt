//! A checked plan for other tools: as JSON for programs, and as a graph that Graphviz draws for people.
#![tactic(auto)]

mod columns;
mod dot;
mod facts;
mod json;
mod label;
mod totals;
mod words;

pub use dot::{explain_dot, explain_dot_with};
pub use json::{explain_json, op_word};
pub use totals::NodeTotals;
