//! What is there in place of what a refused node claims or needs.

ghost use Rattle.std.specs.Prelude.{◌≡◌, ◌++◌, option_map, string_bytes, OnOk, IfOk, codes};
ghost use Rattle.vx_plan_nodes.specs.Plan.{size};
ghost use Rattle.vx_plan_nodes.specs.Outline.{claim_of, columns, top, outline_of, plan_of};
ghost use Rattle.vx_plan_nodes.specs.TypedView.{names_in};
ghost use Rattle.vx_check_rules.specs.RuleView.{rule_of};
ghost use Rattle.vx_check_sentences.specs.Shown.{size_of_text, input_size, sizes_text, order_lacks, first_rows_lack, first_rows_text, shown_text};

use crate::followed::{push_all_lacks, push_followed};
use crate::told::Told;
use crate::words::{push_input, push_inputs, push_node};
use std::alloc::{AllocError, Global};
use vx_check::{column_names, push_size};
use vx_check_rules::Rule;
use vx_plan_nodes::{Claim, Size, TypedNode, TypedPlan};
use vx_rows_values::order_columns;

fn push_size_of(text: &mut String, plan: &TypedPlan, node: &TypedNode) -> Result<(), AllocError>
    ensures { OnOk result (string_bytes text.new ≡ string_bytes text.old ++ size_of_text (names_in plan.now) (outline_of node.now)) }
{
    push_size(text, plan, node.size())
}

#[tactic(auto, unfolding(crate::specs::Shown::input_size))]
fn push_input_size(
    text: &mut String,
    plan: &TypedPlan,
    word: &str,
    input: &TypedNode,
) -> Result<(), AllocError>
    ensures { OnOk result (string_bytes text.new ≡ string_bytes text.old ++ input_size (names_in plan.now) word.now (outline_of input.now)) }
{
    text.push_str(word)?;
    push_node(text, input)?;
    text.push_str(", has the size ")?;
    push_size_of(text, plan, input)
}

// Adds the sizes of two inputs.
fn push_both_sizes(
    text: &mut String,
    plan: &TypedPlan,
    left: &TypedNode,
    right: &TypedNode,
) -> Result<(), AllocError>
    ensures { OnOk result (string_bytes text.new ≡ string_bytes text.old ++ (input_size (names_in plan.now) (codes "its left input, ") (outline_of left.now) ++ input_size (names_in plan.now) (codes ", and its right input, ") (outline_of right.now))) }
{
    push_input_size(text, plan, "its left input, ", left)?;
    push_input_size(text, plan, ", and its right input, ", right)
}

fn push_sizes(text: &mut String, plan: &TypedPlan, node: &TypedNode) -> Result<(), AllocError>
    ensures { OnOk result (string_bytes text.new ≡ string_bytes text.old ++ sizes_text (names_in plan.now) (outline_of node.now)) }
{
    match node {
        TypedNode::Scan(_, _) => Ok(()),
        TypedNode::Unary(_, _, _) => Ok(()),
        TypedNode::Binary(_, _, left, right) => push_both_sizes(text, plan, left, right),
        TypedNode::Exchange(_, _, _) => Ok(()),
    }
}

fn push_own_size(text: &mut String, plan: &TypedPlan, node: &TypedNode) -> Result<(), AllocError>
    ensures { OnOk result (string_bytes text.new ≡ string_bytes text.old ++ (codes "it has the size " ++ size_of_text (names_in plan.now) (outline_of node.now))) }
{
    text.push_str("it has the size ")?;
    push_size_of(text, plan, node)
}

// Adds what the order of a node lacks to be total.
#[tactic(auto, unfolding(crate::specs::Shown::order_lacks))]
fn push_lacking(alloc: Global, text: &mut String, node: &TypedNode) -> Result<(), AllocError>
    ensures { OnOk result (string_bytes text.new ≡ string_bytes text.old ++ order_lacks (outline_of node.now)) }
{
    let claim = &node.head().claim;
    let columns = order_columns(alloc, claim.order.as_slice())?;
    push_all_lacks(
        alloc,
        text,
        column_names(node),
        columns.as_slice(),
        claim.keys.as_slice(),
    )
}

// Adds what the input of a limit lacks: one worker, or else an order that is total.
fn push_first_rows_lack(
    alloc: Global,
    text: &mut String,
    plan: &TypedPlan,
    input: &TypedNode,
) -> Result<(), AllocError>
    ensures { OnOk result (string_bytes text.new ≡ string_bytes text.old ++ first_rows_lack (size (plan_of input.now)) (names_in plan.now) (outline_of input.now)) }
{
    match input.size() {
        Size::Group(_) => push_input_size(text, plan, "its input, ", input),
        Size::One => {
            push_input(text, plan, Told::Order, "its input, ", input)?;
            text.push_str(": ")?;
            push_lacking(alloc, text, input)
        }
    }
}

fn push_first_rows(
    alloc: Global,
    text: &mut String,
    plan: &TypedPlan,
    node: &TypedNode,
) -> Result<(), AllocError>
    ensures { OnOk result (string_bytes text.new ≡ string_bytes text.old ++ first_rows_text (names_in plan.now) (outline_of node.now)) }
{
    match node {
        TypedNode::Scan(_, _) => Ok(()),
        TypedNode::Unary(_, _, input) => push_first_rows_lack(alloc, text, plan, input),
        TypedNode::Binary(_, _, _, _) => Ok(()),
        TypedNode::Exchange(_, _, _) => Ok(()),
    }
}

fn push_shown(
    alloc: Global,
    text: &mut String,
    plan: &TypedPlan,
    node: &TypedNode,
    rule: Rule,
    claim: &Option<Claim>,
) -> Result<(), AllocError>
    ensures { OnOk result (string_bytes text.new ≡ string_bytes text.old ++ shown_text (names_in plan.now) (rule_of rule) (outline_of node.now) (option_map claim_of claim.now)) }
{
    match rule {
        Rule::SizeMismatch => push_sizes(text, plan, node),
        Rule::RootNotOne => push_own_size(text, plan, node),
        Rule::PartNotShown => push_followed(alloc, text, plan, Told::Part, node, claim),
        Rule::InputsNotMatched => push_inputs(text, plan, Told::Part, node),
        Rule::ReplicatedInput => push_inputs(text, plan, Told::Part, node),
        Rule::OrderNotShown => push_followed(alloc, text, plan, Told::Order, node, claim),
        Rule::OrderNeeded => push_inputs(text, plan, Told::Order, node),
        Rule::KeyNotShown => push_followed(alloc, text, plan, Told::Keys, node, claim),
        Rule::TotalNotShown => push_lacking(alloc, text, node),
        Rule::FirstRowsOpen => push_first_rows(alloc, text, plan, node),
    }
}

/// What is there at a node that the rule refuses, where this claim is shown.
pub fn shown(
    alloc: Global,
    plan: &TypedPlan,
    node: &TypedNode,
    rule: Rule,
    claim: &Option<Claim>,
) -> Result<String, AllocError>
    ensures { IfOk result (λ s. string_bytes s ≡ shown_text (names_in plan.now) (rule_of rule) (outline_of node.now) (option_map claim_of claim.now)) }
{
    let mut text = String::new(alloc);
    push_shown(alloc, &mut text, plan, node, rule, claim)?;
    Ok(text)
}
