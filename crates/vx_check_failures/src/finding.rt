//! A node by its number.

ghost use Rattle.std.specs.Prelude.{◌≡◌, option_map};
ghost use Rattle.vx_plan_nodes.specs.Outline.{outline_of};
ghost use Rattle.vx_check_failures.specs.Lines.{if_numbered, node_numbered};

use vx_plan_nodes::TypedNode;

// The node, if it has this number.
fn if_numbered(node: &TypedNode, number: u32) -> Option<&TypedNode>
    ensures { option_map (λ n. outline_of n.now) result ≡ if_numbered number (outline_of node.now) }
{
    if node.head().number == number {
        Some(node)
    } else {
        None
    }
}

/// The node with this number, the one given or one below it.
pub fn node_numbered(node: &TypedNode, number: u32) -> Option<&TypedNode>
    ensures { option_map (λ n. outline_of n.now) result ≡ node_numbered number (outline_of node.now) }
{
    if let Some(found) = if_numbered(node, number) {
        return Some(found);
    }
    match node {
        TypedNode::Scan(_, _) => None,
        TypedNode::Unary(_, _, input) => node_numbered(input, number),
        TypedNode::Binary(_, _, left, right) => match node_numbered(left, number) {
            Some(found) => Some(found),
            None => node_numbered(right, number),
        },
        TypedNode::Exchange(_, _, input) => node_numbered(input, number),
    }
}
