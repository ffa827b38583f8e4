//! Words of a sentence about a node: its number, what it does, lists of columns, what it claims.

ghost use Rattle.std.specs.Prelude.{◌≡◌, ◌++◌, map, string_bytes, OnOk, codes, false};
ghost use Rattle.vx_plan_nodes.specs.Outline.{claim_of, outline_of};
ghost use Rattle.vx_plan_nodes.specs.TypedView.{names_in};
ghost use Rattle.vx_check.specs.Explain.{name_at, separated, list_text};
ghost use Rattle.vx_check_sentences.specs.Words.{node_text, doing_text, order_words, keys_words, told_text, input_text, inputs_text};

use crate::told::Told;
use itoa::Buffer;
use std::alloc::{AllocError, Global};
use vx_check::{column_names, description, push_between, push_name, push_order, push_part};
use vx_plan_nodes::{Claim, Name, TypedNode, TypedPlan};
use vx_rows_values::OrderEntry;

/// Adds the number of a node.
pub fn push_node(text: &mut String, node: &TypedNode) -> Result<(), AllocError>
    ensures { OnOk result (string_bytes text.new ≡ string_bytes text.old ++ node_text (outline_of node.now)) }
{
    let mut digits = Buffer::new();
    text.push_str("node ")?;
    text.push_str(digits.format(node.head().number))
}

/// Adds a node with what it does.
pub fn push_doing(
    alloc: Global,
    text: &mut String,
    plan: &TypedPlan,
    node: &TypedNode,
) -> Result<(), AllocError>
    ensures { OnOk result (string_bytes text.new ≡ string_bytes text.old ++ doing_text (names_in plan.now) (outline_of node.now)) }
{
    push_node(text, node)?;
    text.push_str(" (")?;
    text.push_str(description(alloc, plan, node)?.as_str())?;
    text.push_str(")")
}

fn push_names(text: &mut String, names: &[Name], columns: &[usize]) -> Result<(), AllocError>
    ensures { OnOk result (string_bytes text.new ≡ string_bytes text.old ++ separated (codes ",") false (map (name_at names.now) columns.now)) }
{
    for (i, column) in columns.iter().enumerate() {
        push_between(text, ",", i > 0)?;
        push_name(text, names, *column)?;
    }
    Ok(())
}

/// Adds columns by their names, in brackets.
pub fn push_list(text: &mut String, names: &[Name], columns: &[usize]) -> Result<(), AllocError>
    ensures { OnOk result (string_bytes text.new ≡ string_bytes text.old ++ list_text names.now columns.now) }
{
    text.push_str("[")?;
    push_names(text, names, columns)?;
    text.push_str("]")
}

fn push_lists(text: &mut String, names: &[Name], keys: &[Vec<usize>]) -> Result<(), AllocError>
    ensures { OnOk result (string_bytes text.new ≡ string_bytes text.old ++ separated (codes ";") false (map (list_text names.now) (map (λ k. k.items) keys.now))) }
{
    for (i, key) in keys.iter().enumerate() {
        push_between(text, ";", i > 0)?;
        push_list(text, names, key.as_slice())?;
    }
    Ok(())
}

/// Adds an order.
pub fn push_order_words(
    text: &mut String,
    names: &[Name],
    order: &[OrderEntry],
) -> Result<(), AllocError>
    ensures { OnOk result (string_bytes text.new ≡ string_bytes text.old ++ order_words names.now order.now) }
{
    if order.is_empty() {
        return text.push_str("no order");
    }
    text.push_str("the order ")?;
    push_order(text, names, order)
}

/// Adds keys.
pub fn push_keys(text: &mut String, names: &[Name], keys: &[Vec<usize>]) -> Result<(), AllocError>
    ensures { OnOk result (string_bytes text.new ≡ string_bytes text.old ++ keys_words names.now (map (λ k. k.items) keys.now)) }
{
    if keys.is_empty() {
        return text.push_str("no key");
    }
    text.push_str("the keys ")?;
    push_lists(text, names, keys)
}

/// Adds a part of a claim on an output whose columns have these names.
pub fn push_told(
    text: &mut String,
    plan: &TypedPlan,
    told: Told,
    names: &[Name],
    claim: &Claim,
) -> Result<(), AllocError>
    ensures { OnOk result (string_bytes text.new ≡ string_bytes text.old ++ told_text told (names_in plan.now) names.now (claim_of claim.now)) }
{
    match told {
        Told::Part => {
            text.push_str("the part ")?;
            push_part(text, plan, names, &claim.part)
        }
        Told::Order => push_order_words(text, names, claim.order.as_slice()),
        Told::Keys => push_keys(text, names, claim.keys.as_slice()),
    }
}

/// Adds what an input of a node claims, behind a word for it.
#[tactic(auto, unfolding(crate::specs::Words::input_text))]
pub fn push_input(
    text: &mut String,
    plan: &TypedPlan,
    told: Told,
    word: &str,
    input: &TypedNode,
) -> Result<(), AllocError>
    ensures { OnOk result (string_bytes text.new ≡ string_bytes text.old ++ input_text told (names_in plan.now) word.now (outline_of input.now)) }
{
    text.push_str(word)?;
    push_node(text, input)?;
    text.push_str(", claims ")?;
    push_told(text, plan, told, column_names(input), &input.head().claim)
}

// Adds what two inputs claim.
fn push_both(
    text: &mut String,
    plan: &TypedPlan,
    told: Told,
    left: &TypedNode,
    right: &TypedNode,
) -> Result<(), AllocError>
    ensures { OnOk result (string_bytes text.new ≡ string_bytes text.old ++ (input_text told (names_in plan.now) (codes "its left input, ") (outline_of left.now) ++ input_text told (names_in plan.now) (codes ", and its right input, ") (outline_of right.now))) }
{
    push_input(text, plan, told, "its left input, ", left)?;
    push_input(text, plan, told, ", and its right input, ", right)
}

/// Adds what the inputs of a node claim.
pub fn push_inputs(
    text: &mut String,
    plan: &TypedPlan,
    told: Told,
    node: &TypedNode,
) -> Result<(), AllocError>
    ensures { OnOk result (string_bytes text.new ≡ string_bytes text.old ++ inputs_text told (names_in plan.now) (outline_of node.now)) }
{
    match node {
        TypedNode::Scan(_, _) => Ok(()),
        TypedNode::Unary(_, _, input) => push_input(text, plan, told, "its input, ", input),
        TypedNode::Binary(_, _, left, right) => push_both(text, plan, told, left, right),
        TypedNode::Exchange(_, _, input) => push_input(text, plan, told, "its input, ", input),
    }
}
