//! The lines of a plan.

ghost use Rattle.std.specs.Prelude.{◌≡◌, ◌++◌, map, length, string_bytes, codes, decimal, OnOk, IfOk};
ghost use Rattle.vx_plan_json.specs.Document.{claim_form, tree_of, tree_nodes};
ghost use Rattle.vx_plan_json.specs.PlanView.{document_of};
ghost use Rattle.vx_plan_drawing.specs.Description.{claim, claim_text, size_name};
ghost use Rattle.vx_plan_drawing.specs.Drawing.{node_line, tree_lines, lines_of};

use crate::describe::{push_description, size_name};
use crate::words::push_claim;
use itoa::Buffer;
use std::alloc::{AllocError, Global};
use vx_plan_json::{NamedClaim, Node, Plan};

// The claim of a node.
fn claim_of(node: &Node) -> &NamedClaim
    ensures { claim_form result.now ≡ claim (tree_of node.now) }
{
    match node {
        Node::Scan(claim, _) => claim,
        Node::Unary(claim, _, _) => claim,
        Node::Binary(claim, _, _, _) => claim,
        Node::Exchange(claim, _, _, _) => claim,
    }
}

// Adds the margin and the number that a line begins with.
fn push_number(text: &mut String, margin: &str, number: usize) -> Result<(), AllocError>
    ensures { OnOk result (string_bytes text.new ≡ string_bytes text.old ++ (margin.now ++ (codes "#" ++ (decimal number ++ codes " ")))) }
{
    let mut digits = Buffer::new();
    text.push_str(margin)?;
    text.push_str("#")?;
    text.push_str(digits.format(number))?;
    text.push_str(" ")
}

// Adds the node's size and its claim, with which a line ends.
fn push_notes(text: &mut String, node: &Node) -> Result<(), AllocError>
    ensures { OnOk result (string_bytes text.new ≡ string_bytes text.old ++ (codes " size=" ++ (size_name (tree_of node.now) ++ claim_text (claim (tree_of node.now))))) }
{
    text.push_str(" size=")?;
    text.push_str(size_name(node))?;
    push_claim(text, claim_of(node))
}

// The line of a node with this number, behind its margin.
fn node_line(alloc: Global, margin: &str, number: usize, node: &Node) -> Result<String, AllocError>
    ensures { IfOk result (λ s. string_bytes s ≡ node_line margin.now number (tree_of node.now)) }
{
    let mut text = String::new(alloc);
    push_number(&mut text, margin, number)?;
    push_description(alloc, &mut text, node)?;
    push_notes(&mut text, node)?;
    Ok(text)
}

// Puts the line of the node, and then those of the nodes below it, behind the others. The node's number is how many lines there are.
fn put_lines(
    alloc: Global,
    lines: &mut Vec<String>,
    margin: &str,
    node: &Node,
) -> Result<(), AllocError>
    ensures { OnOk result (map string_bytes lines.new.items ≡ map string_bytes lines.old.items ++ tree_lines margin.now (length lines.old.items) (tree_of node.now)) }
{
    let number = lines.len();
    lines.push(node_line(alloc, margin, number, node)?)?;
    let mut wider = String::from_str(alloc, margin)?;
    wider.push_str("  ")?;
    match node {
        Node::Scan(_, _) => Ok(()),
        Node::Unary(_, _, input) => put_lines(alloc, lines, wider.as_str(), input),
        Node::Binary(_, _, left, right) => {
            put_lines(alloc, lines, wider.as_str(), left)?;
            put_lines(alloc, lines, wider.as_str(), right)
        }
        Node::Exchange(_, _, _, input) => put_lines(alloc, lines, wider.as_str(), input),
    }
}

/// The lines of a plan, one for each node in preorder, as `explain` prints them of a plan that is accepted, without line ends.
pub fn plan_lines(alloc: Global, plan: &Plan) -> Result<Vec<String>, AllocError>
    ensures lines { IfOk result (λ v. map string_bytes v.items ≡ lines_of (document_of plan.now).root) }
    ensures count { IfOk result (λ v. length v.items ≡ tree_nodes (document_of plan.now).root) }
{
    let mut lines = Vec::new(alloc);
    put_lines(alloc, &mut lines, "", plan.root())?;
    Ok(lines)
}
