//! Which nodes lie below others, by their numbers.

ghost use Rattle.std.specs.Prelude.{◌≡◌};
ghost use Rattle.vx_plan_nodes.specs.Outline.{plan_of};
ghost use Rattle.vx_check_causes.specs.Below.{last_number};
ghost use Rattle.vx_check_causes.specs.Causes.{first_below};

use vx_plan_nodes::TypedNode;

// The number of the last of a node and those below it.
fn last_number(node: &TypedNode) -> u32
    ensures { result ≡ last_number (plan_of node.now) }
{
    match node {
        TypedNode::Scan(head, _) => head.number,
        TypedNode::Unary(_, _, input) | TypedNode::Exchange(_, _, input) => last_number(input),
        TypedNode::Binary(_, _, _, right) => last_number(right),
    }
}

/// The first of the nodes with these numbers that lies below a node.
pub fn first_below(numbers: &[u32], node: &TypedNode) -> Option<u32>
    ensures { result ≡ first_below numbers.now (plan_of node.now) }
{
    let own = node.head().number;
    let last = last_number(node);
    for number in numbers {
        if own < *number && *number <= last {
            return Some(*number);
        }
    }
    None
}
