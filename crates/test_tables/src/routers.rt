//! Routes of keys.

use vx_plan_nodes::Router;
use vx_rows_values::Value;

/// Sends every key to consumer 0.
#[derive(Drop)]
pub struct ToFirst;

impl Router for ToFirst {
    ghost route_of = { λ _ _ _ _. 0 };

    ghost in_range = { λ r name key n some. some };

    fn route(&self, _name: &str, _key: &[Value], _n: u32) -> u32 {
        0
    }
}
