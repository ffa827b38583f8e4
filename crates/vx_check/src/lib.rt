//! The checker: the rule table over an optimizer's notes, and what it says of a plan.
#![tactic(auto)]

mod accepted;
mod describe;
mod explaining;
mod words;

pub use accepted::accepted_text;
pub use describe::{column_names, description};
pub use explaining::explain;
pub use vx_check_rules::{CheckedPlan, Refused, Rule, check};
pub use words::{name_at, push_between, push_name, push_order, push_part, push_size, range_name};
