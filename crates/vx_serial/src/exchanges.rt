//! Exchanges in a plan.

ghost use Rattle.std.specs.Prelude.{◌≡◌};
ghost use Rattle.vx_plan_nodes.specs.Outline.{plan_of};
ghost use Rattle.vx_serial.specs.Evaluated.{first_exchange};

use vx_plan_nodes::TypedNode;

/// The number of the first exchange in preorder.
pub fn first_exchange(node: &TypedNode) -> Option<u32>
    ensures { result ≡ first_exchange (plan_of node.now) }
{
    match node {
        TypedNode::Scan(_, _) => None,
        TypedNode::Unary(_, _, input) => first_exchange(input),
        TypedNode::Binary(_, _, left, right) => {
            if let Some(number) = first_exchange(left) {
                return Some(number);
            }
            first_exchange(right)
        }
        TypedNode::Exchange(head, _, _) => Some(head.number),
    }
}
