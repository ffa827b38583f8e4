//! A checked plan as a graph in the language of Graphviz.

ghost use Rattle.std.specs.Prelude.{◌≡◌, ◌++◌, [], string_bytes, codes, decimal, OnOk, IfOk};
ghost use Rattle.vx_plan_nodes.specs.Plan.{size};
ghost use Rattle.vx_plan_nodes.specs.Outline.{outline_of, plan_of, top};
ghost use Rattle.vx_plan_nodes.specs.TypedView.{names_in, resolved_of};
ghost use Rattle.vx_check.specs.Explain.{size_text};
ghost use Rattle.vx_check_rules.specs.CheckedView.{typed_plan};
ghost use Rattle.vx_check_formats.specs.Label.{label_of};
ghost use Rattle.vx_check_formats.specs.Dot.{box_name, caption, captioned, look, box, boxes, frame_head, size_label, frame, frames, part_inside, sent_inside, arrow, arrows, result_box, ending, drawing, plan_dot};

use crate::label::{push_insides, push_label};
use crate::totals::{NodeTotals, push_exchange_lines, push_node_line, totals_at};
use itoa::Buffer;
use std::alloc::{AllocError, Global};
use vx_check::{column_names, description, push_part, push_size};
use vx_check_rules::CheckedPlan;
use vx_plan_nodes::{TypedNode, TypedPlan};

fn push_decimal(text: &mut String, number: u32) -> Result<(), AllocError>
    ensures { OnOk result (string_bytes text.new ≡ string_bytes text.old ++ decimal number) }
{
    let mut digits = Buffer::new();
    text.push_str(digits.format(number))
}

// Adds the name of the box of the node with this number.
fn push_box_name(text: &mut String, number: u32) -> Result<(), AllocError>
    ensures { OnOk result (string_bytes text.new ≡ string_bytes text.old ++ box_name number) }
{
    text.push_str("n")?;
    push_decimal(text, number)
}

// The node's number and what it does.
fn caption(alloc: Global, plan: &TypedPlan, node: &TypedNode) -> Result<String, AllocError>
    ensures { IfOk result (λ s. string_bytes s ≡ caption (names_in plan.now) (outline_of node.now)) }
{
    let mut words = String::from_str(alloc, "#")?;
    push_decimal(&mut words, node.head().number)?;
    words.push_str(" ")?;
    words.push_str(description(alloc, plan, node)?.as_str())?;
    Ok(words)
}

// Adds a label that has the node's number and what it does, and below it what was counted there.
fn push_captioned(
    alloc: Global,
    text: &mut String,
    plan: &TypedPlan,
    counts: &[NodeTotals],
    node: &TypedNode,
) -> Result<(), AllocError>
    ensures { OnOk result (string_bytes text.new ≡ string_bytes text.old ++ captioned (names_in plan.now) counts.now (outline_of node.now)) }
{
    text.push_str("label=\"")?;
    push_insides(text, caption(alloc, plan, node)?.as_str())?;
    push_node_line(text, totals_at(counts, node.head().number))?;
    text.push_str("\"")
}

// Adds how a node's box looks. An exchange is a point, since its caption stands at the arrow that leads to it.
fn push_look(
    alloc: Global,
    text: &mut String,
    plan: &TypedPlan,
    counts: &[NodeTotals],
    node: &TypedNode,
) -> Result<(), AllocError>
    ensures { OnOk result (string_bytes text.new ≡ string_bytes text.old ++ look (names_in plan.now) counts.now (outline_of node.now)) }
{
    match node {
        TypedNode::Scan(_, _) => push_captioned(alloc, text, plan, counts, node),
        TypedNode::Unary(_, _, _) => push_captioned(alloc, text, plan, counts, node),
        TypedNode::Binary(_, _, _, _) => push_captioned(alloc, text, plan, counts, node),
        TypedNode::Exchange(_, _, _) => text.push_str("shape=point"),
    }
}

fn push_box(
    alloc: Global,
    text: &mut String,
    plan: &TypedPlan,
    counts: &[NodeTotals],
    node: &TypedNode,
) -> Result<(), AllocError>
    ensures { OnOk result (string_bytes text.new ≡ string_bytes text.old ++ box (names_in plan.now) counts.now (outline_of node.now)) }
{
    text.push_str("    ")?;
    push_box_name(text, node.head().number)?;
    text.push_str(" [")?;
    push_look(alloc, text, plan, counts, node)?;
    text.push_str("];\n")
}

// Adds the boxes of a fragment from this node down: an exchange is its lowest.
fn push_boxes(
    alloc: Global,
    text: &mut String,
    plan: &TypedPlan,
    counts: &[NodeTotals],
    node: &TypedNode,
) -> Result<(), AllocError>
    ensures { OnOk result (string_bytes text.new ≡ string_bytes text.old ++ boxes (names_in plan.now) counts.now (outline_of node.now)) }
{
    push_box(alloc, text, plan, counts, node)?;
    match node {
        TypedNode::Scan(_, _) => Ok(()),
        TypedNode::Unary(_, _, input) => push_boxes(alloc, text, plan, counts, input),
        TypedNode::Binary(_, _, left, right) => {
            push_boxes(alloc, text, plan, counts, left)?;
            push_boxes(alloc, text, plan, counts, right)
        }
        TypedNode::Exchange(_, _, _) => Ok(()),
    }
}

// Adds how the frame begins whose top node has this number.
#[tactic(auto, unfolding(crate::specs::Dot::frame_head))]
fn push_frame_head(text: &mut String, number: u32) -> Result<(), AllocError>
    ensures { OnOk result (string_bytes text.new ≡ string_bytes text.old ++ frame_head number) }
{
    text.push_str("  subgraph cluster_")?;
    push_decimal(text, number)?;
    text.push_str(" {\n")
}

// The name of the size of the group of workers that runs the node.
fn size_name(alloc: Global, plan: &TypedPlan, node: &TypedNode) -> Result<String, AllocError>
    ensures { IfOk result (λ s. string_bytes s ≡ size_text (names_in plan.now) (size (plan_of node.now))) }
{
    let mut name = String::new(alloc);
    push_size(&mut name, plan, node.size())?;
    Ok(name)
}

// Adds the size of the group of workers that runs the node.
#[tactic(auto, unfolding(crate::specs::Dot::size_label))]
fn push_size_label(
    alloc: Global,
    text: &mut String,
    plan: &TypedPlan,
    node: &TypedNode,
) -> Result<(), AllocError>
    ensures { OnOk result (string_bytes text.new ≡ string_bytes text.old ++ size_label (names_in plan.now) (outline_of node.now)) }
{
    text.push_str("    ")?;
    push_label(text, size_name(alloc, plan, node)?.as_str())?;
    text.push_str(";\n")
}

// Adds the frame of the fragment that has this node at its top.
#[tactic(auto, unfolding(crate::specs::Dot::frame))]
fn push_frame(
    alloc: Global,
    text: &mut String,
    plan: &TypedPlan,
    counts: &[NodeTotals],
    node: &TypedNode,
) -> Result<(), AllocError>
    ensures { OnOk result (string_bytes text.new ≡ string_bytes text.old ++ frame (names_in plan.now) counts.now (outline_of node.now)) }
{
    push_frame_head(text, node.head().number)?;
    push_size_label(alloc, text, plan, node)?;
    push_boxes(alloc, text, plan, counts, node)?;
    text.push_str("  }\n")
}

// Adds the frames of the fragments below this node's: below each exchange begins another.
fn push_frames(
    alloc: Global,
    text: &mut String,
    plan: &TypedPlan,
    counts: &[NodeTotals],
    node: &TypedNode,
) -> Result<(), AllocError>
    ensures { OnOk result (string_bytes text.new ≡ string_bytes text.old ++ frames (names_in plan.now) counts.now (outline_of node.now)) }
{
    match node {
        TypedNode::Scan(_, _) => Ok(()),
        TypedNode::Unary(_, _, input) => push_frames(alloc, text, plan, counts, input),
        TypedNode::Binary(_, _, left, right) => {
            push_frames(alloc, text, plan, counts, left)?;
            push_frames(alloc, text, plan, counts, right)
        }
        TypedNode::Exchange(_, _, input) => {
            push_frame(alloc, text, plan, counts, input)?;
            push_frames(alloc, text, plan, counts, input)
        }
    }
}

// Adds what stands at the arrow from a node: how its rows lie.
fn push_part_inside(
    alloc: Global,
    text: &mut String,
    plan: &TypedPlan,
    node: &TypedNode,
) -> Result<(), AllocError>
    ensures { OnOk result (string_bytes text.new ≡ string_bytes text.old ++ part_inside (names_in plan.now) (outline_of node.now)) }
{
    let mut words = String::new(alloc);
    push_part(
        &mut words,
        plan,
        column_names(node),
        &node.head().claim.part,
    )?;
    push_insides(text, words.as_str())
}

// What stands at the arrow from a node.
fn part_inside(alloc: Global, plan: &TypedPlan, node: &TypedNode) -> Result<String, AllocError>
    ensures { IfOk result (λ s. string_bytes s ≡ part_inside (names_in plan.now) (outline_of node.now)) }
{
    let mut inside = String::new(alloc);
    push_part_inside(alloc, &mut inside, plan, node)?;
    Ok(inside)
}

// What stands at the arrow from a node to an exchange: also how the exchange sends, and what was counted at both.
fn sent_inside(
    alloc: Global,
    plan: &TypedPlan,
    counts: &[NodeTotals],
    from: &TypedNode,
    to: &TypedNode,
) -> Result<String, AllocError>
    ensures { IfOk result (λ s. string_bytes s ≡ sent_inside (names_in plan.now) counts.now (outline_of from.now) (outline_of to.now)) }
{
    let mut inside = part_inside(alloc, plan, from)?;
    inside.push_str("\\n")?;
    push_insides(&mut inside, caption(alloc, plan, to)?.as_str())?;
    push_exchange_lines(
        &mut inside,
        totals_at(counts, from.head().number),
        totals_at(counts, to.head().number),
    )?;
    Ok(inside)
}

// Adds an arrow between two boxes, with this inside of its label.
#[tactic(auto, unfolding(crate::specs::Dot::arrow))]
fn push_arrow(text: &mut String, from: u32, to: &str, inside: &str) -> Result<(), AllocError>
    ensures { OnOk result (string_bytes text.new ≡ string_bytes text.old ++ arrow from to.now inside.now) }
{
    text.push_str("  ")?;
    push_box_name(text, from)?;
    text.push_str(" -> ")?;
    text.push_str(to)?;
    text.push_str(" [label=\"")?;
    text.push_str(inside)?;
    text.push_str("\"];\n")
}

// Adds an arrow from a node to a box.
fn push_part_arrow(
    alloc: Global,
    text: &mut String,
    plan: &TypedPlan,
    from: &TypedNode,
    to: &str,
) -> Result<(), AllocError>
    ensures { OnOk result (string_bytes text.new ≡ string_bytes text.old ++ arrow (top (outline_of from.now)).number to.now (part_inside (names_in plan.now) (outline_of from.now))) }
{
    let inside = part_inside(alloc, plan, from)?;
    push_arrow(text, from.head().number, to, inside.as_str())
}

// The name of a node's box.
fn box_name(alloc: Global, node: &TypedNode) -> Result<String, AllocError>
    ensures { IfOk result (λ s. string_bytes s ≡ box_name (top (outline_of node.now)).number) }
{
    let mut name = String::new(alloc);
    push_box_name(&mut name, node.head().number)?;
    Ok(name)
}

// Adds the arrow from an input of the node to the node.
fn push_input_arrow(
    alloc: Global,
    text: &mut String,
    plan: &TypedPlan,
    from: &TypedNode,
    to: &TypedNode,
) -> Result<(), AllocError>
    ensures { OnOk result (string_bytes text.new ≡ string_bytes text.old ++ arrow (top (outline_of from.now)).number (box_name (top (outline_of to.now)).number) (part_inside (names_in plan.now) (outline_of from.now))) }
{
    push_part_arrow(alloc, text, plan, from, box_name(alloc, to)?.as_str())
}

// Adds the arrow from its input to an exchange.
fn push_sent_arrow(
    alloc: Global,
    text: &mut String,
    plan: &TypedPlan,
    counts: &[NodeTotals],
    from: &TypedNode,
    to: &TypedNode,
) -> Result<(), AllocError>
    ensures { OnOk result (string_bytes text.new ≡ string_bytes text.old ++ arrow (top (outline_of from.now)).number (box_name (top (outline_of to.now)).number) (sent_inside (names_in plan.now) counts.now (outline_of from.now) (outline_of to.now))) }
{
    let inside = sent_inside(alloc, plan, counts, from, to)?;
    let name = box_name(alloc, to)?;
    push_arrow(text, from.head().number, name.as_str(), inside.as_str())
}

fn push_arrows(
    alloc: Global,
    text: &mut String,
    plan: &TypedPlan,
    counts: &[NodeTotals],
    node: &TypedNode,
) -> Result<(), AllocError>
    ensures { OnOk result (string_bytes text.new ≡ string_bytes text.old ++ arrows (names_in plan.now) counts.now (outline_of node.now)) }
{
    match node {
        TypedNode::Scan(_, _) => Ok(()),
        TypedNode::Unary(_, _, input) => {
            push_input_arrow(alloc, text, plan, input, node)?;
            push_arrows(alloc, text, plan, counts, input)
        }
        TypedNode::Binary(_, _, left, right) => {
            push_input_arrow(alloc, text, plan, left, node)?;
            push_input_arrow(alloc, text, plan, right, node)?;
            push_arrows(alloc, text, plan, counts, left)?;
            push_arrows(alloc, text, plan, counts, right)
        }
        TypedNode::Exchange(_, _, input) => {
            push_sent_arrow(alloc, text, plan, counts, input, node)?;
            push_arrows(alloc, text, plan, counts, input)
        }
    }
}

// Adds the result, outside of every frame.
fn push_result_box(text: &mut String, is_total: bool) -> Result<(), AllocError>
    ensures { OnOk result (string_bytes text.new ≡ string_bytes text.old ++ result_box is_total) }
{
    if is_total {
        text.push_str("  result [shape=plaintext, label=\"total\"];\n")
    } else {
        text.push_str("  result [shape=plaintext, label=\"not total\"];\n")
    }
}

#[tactic(auto, unfolding(crate::specs::Dot::ending))]
fn push_ending(alloc: Global, text: &mut String, plan: &TypedPlan) -> Result<(), AllocError>
    ensures { OnOk result (string_bytes text.new ≡ string_bytes text.old ++ ending (names_in plan.now) (resolved_of plan.now).total (resolved_of plan.now).root) }
{
    push_result_box(text, plan.is_total())?;
    push_part_arrow(alloc, text, plan, plan.root(), "result")?;
    text.push_str("}\n")
}

// Adds all frames and arrows of the plan with this node at its top.
#[tactic(auto, unfolding(crate::specs::Dot::drawing))]
fn push_drawing(
    alloc: Global,
    text: &mut String,
    plan: &TypedPlan,
    counts: &[NodeTotals],
    root: &TypedNode,
) -> Result<(), AllocError>
    ensures { OnOk result (string_bytes text.new ≡ string_bytes text.old ++ drawing (names_in plan.now) counts.now (outline_of root.now)) }
{
    push_frame(alloc, text, plan, counts, root)?;
    push_frames(alloc, text, plan, counts, root)?;
    push_arrows(alloc, text, plan, counts, root)
}

fn plan_dot(alloc: Global, plan: &TypedPlan, counts: &[NodeTotals]) -> Result<String, AllocError>
    ensures { IfOk result (λ s. string_bytes s ≡ plan_dot plan.now counts.now) }
{
    let mut text = String::from_str(
        alloc,
        "digraph plan {\n  rankdir=BT;\n  labeljust=l;\n  node [shape=box];\n",
    )?;
    push_drawing(alloc, &mut text, plan, counts, plan.root())?;
    push_ending(alloc, &mut text, plan)?;
    Ok(text)
}

/// The plan as a graph that Graphviz draws: a frame for each fragment, which is what lies between exchanges, with its
/// size; a box for each operator; and an arrow for each stream of rows, with its part and the exchange that it goes
/// through.
pub fn explain_dot(alloc: Global, checked: &CheckedPlan) -> Result<String, AllocError>
    ensures { IfOk result (λ s. string_bytes s ≡ plan_dot (typed_plan checked.now) []) }
{
    plan_dot(alloc, checked.plan(), &[])
}

/// The same graph with what was counted in a run of the plan, by the numbers of the nodes: in the box of each operator, and
/// of an exchange at the arrow that leads to it.
pub fn explain_dot_with(
    alloc: Global,
    checked: &CheckedPlan,
    counts: &[NodeTotals],
) -> Result<String, AllocError>
    ensures { IfOk result (λ s. string_bytes s ≡ plan_dot (typed_plan checked.now) counts.now) }
{
    plan_dot(alloc, checked.plan(), counts)
}
