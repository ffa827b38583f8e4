//! Where in a plan's document a node is: its path of members from the root.

ghost use Rattle.std.specs.Prelude.{◌≡◌, ◌≤◌, ◌+◌, Some, IfOk, IfSome, string_bytes, codes, true};
ghost use Rattle.vx_plan_json.specs.Document.{tree_of, tree_nodes};
ghost use Rattle.vx_plan_json.specs.PlanView.{document_of};
ghost use Rattle.volcano_locations.specs.Paths.{path_at};
ghost use Rattle.vx_rows_values.specs.Limits.{max_nodes};

use std::alloc::{AllocError, Global};
use vx_plan_json::{NamedKind, Node, Plan};

// How many nodes there are from a node down.
fn count_nodes(node: &Node) -> u32
    requires { tree_nodes (tree_of node.now) ≤ max_nodes }
    ensures { result ≡ tree_nodes (tree_of node.now) }
{
    match node {
        Node::Scan(_, _) => 1,
        Node::Unary(_, _, input) => 1 + count_nodes(input),
        Node::Binary(_, _, left, right) => 1 + count_nodes(left) + count_nodes(right),
        Node::Exchange(_, _, _, input) => 1 + count_nodes(input),
    }
}

// Puts the steps from a node to the one with this number, which counts from it in preorder, behind a path. Whether there is
// such a node.
#[tactic(auto, using(crate::proofs::PathFacts::path_here))]
fn push_steps(node: &Node, number: u32, path: &mut String) -> Result<bool, AllocError>
    requires { tree_nodes (tree_of node.now) ≤ max_nodes }
    ensures { IfOk result (λ found. found ≡ true → path_at (tree_of node.now) number (string_bytes path.old) ≡ Some (string_bytes path.new)) }
{
    if number == 0 {
        return Ok(true);
    }
    match node {
        Node::Scan(_, _) => Ok(false),
        Node::Unary(_, _, input) => {
            path.push_str(".input")?;
            push_steps(input, number - 1, path)
        }
        Node::Binary(_, _, left, right) => {
            let before = count_nodes(left);
            if number - 1 < before {
                path.push_str(".left")?;
                return push_steps(left, number - 1, path);
            }
            path.push_str(".right")?;
            push_steps(right, number - 1 - before, path)
        }
        Node::Exchange(_, _, _, input) => {
            path.push_str(".input")?;
            push_steps(input, number - 1, path)
        }
    }
}

/// The path from `root` to the node of a plan with this number, if there is one.
pub fn node_path(alloc: Global, plan: &Plan, number: u32) -> Result<Option<String>, AllocError>
    ensures { IfOk result (λ o. IfSome o (λ path. path_at (document_of plan.now).root number (codes "root") ≡ Some (string_bytes path))) }
{
    let mut path = String::from_str(alloc, "root")?;
    if push_steps(plan.root(), number, &mut path)? {
        Ok(Some(path))
    } else {
        Ok(None)
    }
}

// Whether a node names a size itself.
fn names_size(node: &Node, name: &str) -> bool {
    match node {
        Node::Scan(_, scan) => scan.size.as_str() == name,
        Node::Unary(_, _, _) | Node::Binary(_, _, _, _) => false,
        Node::Exchange(_, kind, _, _) => match kind {
            NamedKind::Hash { size, .. } => size.as_str() == name,
            NamedKind::Range { size, .. } => size.as_str() == name,
            NamedKind::Round(size) | NamedKind::Broadcast(size) => size.as_str() == name,
            NamedKind::Gather | NamedKind::Concat => false,
        },
    }
}

// The number of the first node from this one down that names a size, where this one has the number `number`.
fn size_user(node: &Node, number: u32, name: &str) -> Option<u32>
    requires { number + tree_nodes (tree_of node.now) ≤ max_nodes }
{
    if names_size(node, name) {
        return Some(number);
    }
    match node {
        Node::Scan(_, _) => None,
        Node::Unary(_, _, input) => size_user(input, number + 1, name),
        Node::Binary(_, _, left, right) => match size_user(left, number + 1, name) {
            Some(found) => Some(found),
            None => size_user(right, number + 1 + count_nodes(left), name),
        },
        Node::Exchange(_, _, _, input) => size_user(input, number + 1, name),
    }
}

/// The path to where a plan says a size that is refused: to the declared sizes, if the name is among them, or else to the first
/// node that names it.
pub fn size_path(alloc: Global, plan: &Plan, name: &str) -> Result<Option<String>, AllocError> {
    for declared in plan.sizes() {
        if declared.as_str() == name {
            return Ok(Some(String::from_str(alloc, "document.sizes")?));
        }
    }
    match size_user(plan.root(), 0, name) {
        Some(number) => node_path(alloc, plan, number),
        None => Ok(None),
    }
}
