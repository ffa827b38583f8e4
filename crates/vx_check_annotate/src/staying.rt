//! Whether the keys of a plan are those of another one.

ghost use Rattle.std.specs.Prelude.{◌≡◌, map};
ghost use Rattle.vx_plan_nodes.specs.Plan.{claim};
ghost use Rattle.vx_plan_nodes.specs.Outline.{plan_of};
ghost use Rattle.vx_check_rules.specs.Rules.{numbers_eq};
ghost use Rattle.vx_check_annotate.specs.Deriving.{lists_eq, keys_stay};

use vx_plan_nodes::TypedNode;

fn are_same(columns: &[usize], others: &[usize]) -> bool
    ensures { result ≡ numbers_eq columns.now others.now }
{
    match columns {
        [] => match others {
            [] => true,
            [_, ..] => false,
        },
        [column, columns @ ..] => match others {
            [] => false,
            [other, others @ ..] => column == other && are_same(columns, others),
        },
    }
}

fn are_same_lists(keys: &[Vec<usize>], others: &[Vec<usize>]) -> bool
    ensures { result ≡ lists_eq (map (λ k. k.items) keys.now) (map (λ k. k.items) others.now) }
{
    match keys {
        [] => match others {
            [] => true,
            [_, ..] => false,
        },
        [key, keys @ ..] => match others {
            [] => false,
            [other, others @ ..] => {
                are_same(key.as_slice(), other.as_slice()) && are_same_lists(keys, others)
            }
        },
    }
}

fn has_same_keys(node: &TypedNode, other: &TypedNode) -> bool
    ensures { result ≡ lists_eq (claim (plan_of node.now)).keys (claim (plan_of other.now)).keys }
{
    are_same_lists(
        node.head().claim.keys.as_slice(),
        other.head().claim.keys.as_slice(),
    )
}

/// Whether the nodes of two plans claim the same keys.
pub fn do_keys_stay(node: &TypedNode, other: &TypedNode) -> bool
    ensures { result ≡ keys_stay (plan_of node.now) (plan_of other.now) }
{
    match (node, other) {
        (TypedNode::Scan(_, _), TypedNode::Scan(_, _)) => has_same_keys(node, other),
        (TypedNode::Unary(_, _, input), TypedNode::Unary(_, _, below)) => {
            has_same_keys(node, other) && do_keys_stay(input, below)
        }
        (TypedNode::Binary(_, _, left, right), TypedNode::Binary(_, _, first, second)) => {
            has_same_keys(node, other) && do_keys_stay(left, first) && do_keys_stay(right, second)
        }
        (TypedNode::Exchange(_, _, input), TypedNode::Exchange(_, _, below)) => {
            has_same_keys(node, other) && do_keys_stay(input, below)
        }
        _ => false,
    }
}
