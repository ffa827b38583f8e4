//! Plans with the claims that the rule table shows: the most telling ones, at each node.
#![tactic(auto)]

mod annotating;
mod asked;
mod fault;
mod formed;
mod found_plan;
mod keeping;
mod laws;
mod naming;
mod possible;
mod rewriting;
mod staying;
mod verdict;

pub use annotating::annotate;
pub use asked::asking;
pub use fault::AnnotateFault;
pub use laws::found_is_accepted;
