//! What the checker answers of a plan that it refuses.

use crate::rule::Rule;
use std::fmt::{self, Debug, Formatter};
use thiserror::Error;
use vx_plan_nodes::TypedPlan;

/// A plan that is refused: the first node in post-order that does not show its note, and the first test that fails
/// there. The plan is returned as it was.
#[derive(Drop, Error)]
#[error("{rule} node={node}")]
pub struct Refused {
    pub node: u32,
    pub rule: Rule,
    pub plan: TypedPlan,
}

// Without the plan, which may have thousands of nodes.
impl Debug for Refused {
    fn fmt<W: fmt::Write>(&self, f: &mut Formatter<W>) -> fmt::Result {
        f.debug_struct("Refused")
            .field("node", &self.node)
            .field("rule", &self.rule)
            .finish_non_exhaustive()
    }
}
