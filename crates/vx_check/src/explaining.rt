//! The text that explains a plan.

ghost use Rattle.std.specs.Prelude.{◌≡◌, ◌++◌, string_bytes, codes, decimal, OnOk, IfOk};
ghost use Rattle.vx_plan_nodes.specs.Plan.{size};
ghost use Rattle.vx_plan_nodes.specs.Outline.{outline_of, plan_of, columns, top};
ghost use Rattle.vx_plan_nodes.specs.TypedView.{names_in, resolved_of};
ghost use Rattle.vx_check.specs.Explain.{size_text, claim_text, line_text, lines, ending_text};
ghost use Rattle.vx_check_rules.specs.CheckedView.{typed_plan};
ghost use Rattle.vx_check.specs.PlanText.{plan_text};

use crate::describe::{column_names, push_description};
use crate::words::{push_claim, push_size};
use itoa::Buffer;
use std::alloc::{AllocError, Global};
use vx_check_rules::CheckedPlan;
use vx_plan_nodes::{TypedNode, TypedPlan};

// Adds the margin and the number that a line begins with.
fn push_number(text: &mut String, margin: &str, number: u32) -> Result<(), AllocError>
    ensures { OnOk result (string_bytes text.new ≡ string_bytes text.old ++ (margin.now ++ (codes "#" ++ (decimal number ++ codes " ")))) }
{
    let mut digits = Buffer::new();
    text.push_str(margin)?;
    text.push_str("#")?;
    text.push_str(digits.format(number))?;
    text.push_str(" ")
}

// Adds the node's size and its claim, with which a line ends.
fn push_notes(text: &mut String, plan: &TypedPlan, node: &TypedNode) -> Result<(), AllocError>
    ensures { OnOk result (string_bytes text.new ≡ string_bytes text.old ++ (codes " size=" ++ (size_text (names_in plan.now) (size (plan_of node.now)) ++ (claim_text (names_in plan.now) (columns (outline_of node.now)).names (top (outline_of node.now)).claim ++ codes "\n")))) }
{
    text.push_str(" size=")?;
    push_size(text, plan, node.size())?;
    push_claim(text, plan, column_names(node), &node.head().claim)?;
    text.push_str("\n")
}

// Adds the node's line, behind its margin.
fn push_line(
    alloc: Global,
    text: &mut String,
    plan: &TypedPlan,
    margin: &str,
    node: &TypedNode,
) -> Result<(), AllocError>
    ensures { OnOk result (string_bytes text.new ≡ string_bytes text.old ++ line_text (names_in plan.now) margin.now (outline_of node.now)) }
{
    push_number(text, margin, node.head().number)?;
    push_description(alloc, text, plan, node)?;
    push_notes(text, plan, node)
}

// Adds the line of the node, and then those of the nodes below it.
fn push_lines(
    alloc: Global,
    text: &mut String,
    plan: &TypedPlan,
    margin: &str,
    node: &TypedNode,
) -> Result<(), AllocError>
    ensures { OnOk result (string_bytes text.new ≡ string_bytes text.old ++ lines (names_in plan.now) margin.now (outline_of node.now)) }
{
    push_line(alloc, text, plan, margin, node)?;
    let mut wider = String::from_str(alloc, margin)?;
    wider.push_str("  ")?;
    match node {
        TypedNode::Scan(_, _) => Ok(()),
        TypedNode::Unary(_, _, input) => push_lines(alloc, text, plan, wider.as_str(), input),
        TypedNode::Binary(_, _, left, right) => {
            push_lines(alloc, text, plan, wider.as_str(), left)?;
            push_lines(alloc, text, plan, wider.as_str(), right)
        }
        TypedNode::Exchange(_, _, input) => push_lines(alloc, text, plan, wider.as_str(), input),
    }
}

// Whether the plan is total, and whether it asks for what is known of columns.
fn push_ending(text: &mut String, plan: &TypedPlan) -> Result<(), AllocError>
    ensures { OnOk result (string_bytes text.new ≡ string_bytes text.old ++ ending_text (resolved_of plan.now).total (resolved_of plan.now).derives) }
{
    text.push_str(if plan.is_total() {
        "total\n"
    } else {
        "not total\n"
    })?;
    if plan.derives() {
        text.push_str("derive\n")?;
    }
    Ok(())
}

/// The text that explains a plan: a line for each node in preorder with what it does, its size and its note, then
/// whether the plan is total, and `derive` if it asks for what is known of columns.
pub fn explain(alloc: Global, checked: &CheckedPlan) -> Result<String, AllocError>
    ensures { IfOk result (λ s. string_bytes s ≡ plan_text (typed_plan checked.now)) }
{
    let plan = checked.plan();
    let mut text = String::new(alloc);
    push_lines(alloc, &mut text, plan, "", plan.root())?;
    push_ending(&mut text, plan)?;
    Ok(text)
}
