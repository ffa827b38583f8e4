//! What does not follow at a node.

use vx_check_rules::Rule;

/// A node with the first of its tests that fails.
#[derive(Clone, Copy)]
pub struct Failure {
    pub node: u32,
    pub rule: Rule,
}
