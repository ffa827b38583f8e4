//! What a node that is refused claims or does.

ghost use Rattle.std.specs.Prelude.{◌≡◌, ◌++◌, map, string_bytes, OnOk, IfOk, codes, false};
ghost use Rattle.vx_plan_nodes.specs.Outline.{part_of, unary_of, binary_of, outline_of, columns, top};
ghost use Rattle.vx_plan_nodes.specs.TypedView.{names_in};
ghost use Rattle.vx_check.specs.Explain.{name_at, separated, list_text};
ghost use Rattle.vx_check_rules.specs.Refusal.{size_mismatch, part_not_shown, inputs_not_matched, replicated_input, order_needed, first_rows_open};
ghost use Rattle.vx_check_rules.specs.RuleView.{rule_of};
ghost use Rattle.vx_check_rules.specs.Seen.{order_seen};
ghost use Rattle.vx_plan_nodes.specs.Plan.{by_merging};
ghost use Rattle.vx_check_sentences.specs.Words.{node_text, doing_text, order_words, keys_words};
ghost use Rattle.vx_check_sentences.specs.Claimed.{part_words, equal_needed, unary_needs, binary_needs, needs_text, join_orders, binary_orders, orders_text, claimed_text};

use crate::words::{push_doing, push_keys, push_list, push_node, push_order_words};
use std::alloc::{AllocError, Global};
use vx_check::{column_names, push_between, push_name, push_order, push_part};
use vx_check_rules::{OrderSeen, Rule};
use vx_plan_nodes::{Binary, Name, Part, Projected, TypedNode, TypedPlan, Unary};
use vx_rows_values::OrderEntry;

// Adds a part that is claimed.
fn push_part_words(
    text: &mut String,
    plan: &TypedPlan,
    names: &[Name],
    part: &Part,
) -> Result<(), AllocError>
    ensures { OnOk result (string_bytes text.new ≡ string_bytes text.old ++ part_words (names_in plan.now) names.now (part_of part.now)) }
{
    match part {
        Part::One => text.push_str("all rows at one worker (one)"),
        Part::Any => text.push_str("each row at one worker, whichever (any)"),
        Part::All => text.push_str("all rows at every worker (all)"),
        Part::Routed(_, _) => {
            text.push_str("to be routed by ")?;
            push_part(text, plan, names, part)
        }
    }
}

// Adds the kept columns by their names.
fn push_kept(text: &mut String, names: &[Name], kept: &[Projected]) -> Result<(), AllocError>
    ensures { OnOk result (string_bytes text.new ≡ string_bytes text.old ++ separated (codes ",") false (map (name_at names.now) (map (λ k. k.column) kept.now))) }
{
    for (i, output) in kept.iter().enumerate() {
        push_between(text, ",", i > 0)?;
        push_name(text, names, output.column)?;
    }
    Ok(())
}

// Adds them in brackets.
fn push_kept_list(text: &mut String, names: &[Name], kept: &[Projected]) -> Result<(), AllocError>
    ensures { OnOk result (string_bytes text.new ≡ string_bytes text.old ++ list_text names.now (map (λ k. k.column) kept.now)) }
{
    text.push_str("[")?;
    push_kept(text, names, kept)?;
    text.push_str("]")
}

// Adds that rows have to be together that are equal in the kept columns.
fn push_kept_needed(text: &mut String, names: &[Name], kept: &[Projected]) -> Result<(), AllocError>
    ensures { OnOk result (string_bytes text.new ≡ string_bytes text.old ++ equal_needed names.now (map (λ k. k.column) kept.now)) }
{
    if kept.is_empty() {
        return text.push_str(" needs all rows at one worker");
    }
    text.push_str(" needs rows that are equal in ")?;
    push_kept_list(text, names, kept)?;
    text.push_str(" at one worker")
}

// The same of these columns.
fn push_equal_needed(text: &mut String, names: &[Name], columns: &[usize]) -> Result<(), AllocError>
    ensures { OnOk result (string_bytes text.new ≡ string_bytes text.old ++ equal_needed names.now columns.now) }
{
    if columns.is_empty() {
        return text.push_str(" needs all rows at one worker");
    }
    text.push_str(" needs rows that are equal in ")?;
    push_list(text, names, columns)?;
    text.push_str(" at one worker")
}

fn push_unary_needs(text: &mut String, names: &[Name], operator: &Unary) -> Result<(), AllocError>
    ensures { OnOk result (string_bytes text.new ≡ string_bytes text.old ++ unary_needs names.now (unary_of operator.now)) }
{
    match operator {
        Unary::Select(_) => Ok(()),
        Unary::Project(_) => Ok(()),
        Unary::Distinct(kept) => push_kept_needed(text, names, kept.as_slice()),
        Unary::Sort(_, _) => Ok(()),
        Unary::Group(_, by, _) => push_equal_needed(text, names, by.as_slice()),
        Unary::Limit(_) => Ok(()),
    }
}

fn push_binary_needs(text: &mut String, operator: &Binary) -> Result<(), AllocError>
    ensures { OnOk result (string_bytes text.new ≡ string_bytes text.old ++ binary_needs (binary_of operator.now)) }
{
    match operator {
        Binary::Union => text.push_str(
            " needs of both inputs each row once, or of both all rows at every worker",
        ),
        Binary::HashJoin(_) => text.push_str(" needs rows that match at one worker"),
        Binary::MergeJoin(_, _) => text.push_str(" needs rows that match at one worker"),
        Binary::SemiJoin(_, _) | Binary::AntiJoin(_, _) => text.push_str(
            " needs rows that match at one worker, or all rows of its right input at every worker",
        ),
    }
}

// Adds which rows an operator needs at one worker.
fn push_needs(text: &mut String, node: &TypedNode) -> Result<(), AllocError>
    ensures { OnOk result (string_bytes text.new ≡ string_bytes text.old ++ needs_text (outline_of node.now)) }
{
    match node {
        TypedNode::Scan(_, _) => Ok(()),
        TypedNode::Unary(_, operator, input) => {
            push_unary_needs(text, column_names(input), operator)
        }
        TypedNode::Binary(_, operator, _, _) => push_binary_needs(text, operator),
        TypedNode::Exchange(_, _, _) => Ok(()),
    }
}

/// The order in which a merge join has to have the rows of an input, entry by entry.
pub(crate) fn listed(alloc: Global, order: OrderSeen<'_>) -> Result<Vec<OrderEntry>, AllocError>
    ensures { IfOk result (λ v. v.items ≡ order_seen order.entry) }
{
    let mut entries = Vec::new(alloc);
    for place in 0..order.len() {
        entries.push(order.at(place))?;
    }
    Ok(entries)
}

// Adds the orders that a merge join needs.
fn push_join_orders(
    alloc: Global,
    text: &mut String,
    lefts: &[Name],
    rights: &[Name],
    on: &[(usize, usize)],
    falls: &[bool],
) -> Result<(), AllocError>
    ensures { OnOk result (string_bytes text.new ≡ string_bytes text.old ++ join_orders lefts.now rights.now (by_merging falls.now) on.now) }
{
    let left = listed(alloc, OrderSeen::Lefts(on, falls))?;
    let right = listed(alloc, OrderSeen::Rights(on, falls))?;
    text.push_str(" needs its inputs sorted on ")?;
    push_order(text, lefts, left.as_slice())?;
    text.push_str(" and on ")?;
    push_order(text, rights, right.as_slice())
}

fn push_binary_orders(
    alloc: Global,
    text: &mut String,
    lefts: &[Name],
    rights: &[Name],
    operator: &Binary,
) -> Result<(), AllocError>
    ensures { OnOk result (string_bytes text.new ≡ string_bytes text.old ++ binary_orders lefts.now rights.now (binary_of operator.now)) }
{
    match operator {
        Binary::Union => Ok(()),
        Binary::HashJoin(_) => Ok(()),
        Binary::SemiJoin(_, _) | Binary::AntiJoin(_, _) => Ok(()),
        Binary::MergeJoin(on, falls) => {
            push_join_orders(alloc, text, lefts, rights, on.as_slice(), falls.as_slice())
        }
    }
}

// Adds the orders that a node needs of its inputs.
fn push_orders(alloc: Global, text: &mut String, node: &TypedNode) -> Result<(), AllocError>
    ensures { OnOk result (string_bytes text.new ≡ string_bytes text.old ++ orders_text (outline_of node.now)) }
{
    match node {
        TypedNode::Scan(_, _) => Ok(()),
        TypedNode::Unary(_, _, _) => Ok(()),
        TypedNode::Binary(_, operator, left, right) => {
            push_binary_orders(
                alloc,
                text,
                column_names(left),
                column_names(right),
                operator,
            )
        }
        TypedNode::Exchange(_, exchange, input) => {
            text.push_str(" needs its input sorted on ")?;
            push_order(text, column_names(input), exchange.merge.as_slice())
        }
    }
}

// ---- the sentence of each rule

fn push_size_mismatch(
    alloc: Global,
    text: &mut String,
    plan: &TypedPlan,
    node: &TypedNode,
) -> Result<(), AllocError>
    ensures { OnOk result (string_bytes text.new ≡ string_bytes text.old ++ claimed_text (names_in plan.now) size_mismatch (outline_of node.now)) }
{
    push_doing(alloc, text, plan, node)?;
    text.push_str(" needs both inputs at the same workers")
}

fn push_root_not_one(text: &mut String, node: &TypedNode) -> Result<(), AllocError>
    ensures { OnOk result (string_bytes text.new ≡ string_bytes text.old ++ (node_text (outline_of node.now) ++ codes ", the root, has to be at one worker")) }
{
    push_node(text, node)?;
    text.push_str(", the root, has to be at one worker")
}

fn push_part_not_shown(
    text: &mut String,
    plan: &TypedPlan,
    node: &TypedNode,
) -> Result<(), AllocError>
    ensures { OnOk result (string_bytes text.new ≡ string_bytes text.old ++ claimed_text (names_in plan.now) part_not_shown (outline_of node.now)) }
{
    push_node(text, node)?;
    text.push_str(" claims ")?;
    push_part_words(text, plan, column_names(node), &node.head().claim.part)
}

fn push_inputs_not_matched(
    alloc: Global,
    text: &mut String,
    plan: &TypedPlan,
    node: &TypedNode,
) -> Result<(), AllocError>
    ensures { OnOk result (string_bytes text.new ≡ string_bytes text.old ++ claimed_text (names_in plan.now) inputs_not_matched (outline_of node.now)) }
{
    push_doing(alloc, text, plan, node)?;
    push_needs(text, node)
}

fn push_replicated_input(
    alloc: Global,
    text: &mut String,
    plan: &TypedPlan,
    node: &TypedNode,
) -> Result<(), AllocError>
    ensures { OnOk result (string_bytes text.new ≡ string_bytes text.old ++ claimed_text (names_in plan.now) replicated_input (outline_of node.now)) }
{
    push_doing(alloc, text, plan, node)?;
    text.push_str(" needs each row of its input once")
}

fn push_order_not_shown(text: &mut String, node: &TypedNode) -> Result<(), AllocError>
    ensures { OnOk result (string_bytes text.new ≡ string_bytes text.old ++ (node_text (outline_of node.now) ++ (codes " claims " ++ order_words (columns (outline_of node.now)).names (top (outline_of node.now)).claim.order))) }
{
    push_node(text, node)?;
    text.push_str(" claims ")?;
    push_order_words(text, column_names(node), node.head().claim.order.as_slice())
}

fn push_order_needed(
    alloc: Global,
    text: &mut String,
    plan: &TypedPlan,
    node: &TypedNode,
) -> Result<(), AllocError>
    ensures { OnOk result (string_bytes text.new ≡ string_bytes text.old ++ claimed_text (names_in plan.now) order_needed (outline_of node.now)) }
{
    push_doing(alloc, text, plan, node)?;
    push_orders(alloc, text, node)
}

fn push_key_not_shown(text: &mut String, node: &TypedNode) -> Result<(), AllocError>
    ensures { OnOk result (string_bytes text.new ≡ string_bytes text.old ++ (node_text (outline_of node.now) ++ (codes " claims " ++ keys_words (columns (outline_of node.now)).names (top (outline_of node.now)).claim.keys))) }
{
    push_node(text, node)?;
    text.push_str(" claims ")?;
    push_keys(text, column_names(node), node.head().claim.keys.as_slice())
}

fn push_total_not_shown(text: &mut String, node: &TypedNode) -> Result<(), AllocError>
    ensures { OnOk result (string_bytes text.new ≡ string_bytes text.old ++ (codes "the plan says that its order is total, and " ++ (node_text (outline_of node.now) ++ (codes " claims " ++ order_words (columns (outline_of node.now)).names (top (outline_of node.now)).claim.order)))) }
{
    text.push_str("the plan says that its order is total, and ")?;
    push_order_not_shown(text, node)
}

fn push_first_rows_open(
    alloc: Global,
    text: &mut String,
    plan: &TypedPlan,
    node: &TypedNode,
) -> Result<(), AllocError>
    ensures { OnOk result (string_bytes text.new ≡ string_bytes text.old ++ claimed_text (names_in plan.now) first_rows_open (outline_of node.now)) }
{
    push_doing(alloc, text, plan, node)?;
    text.push_str(" needs all rows of its input at one worker, in an order that is total")
}

fn push_claimed(
    alloc: Global,
    text: &mut String,
    plan: &TypedPlan,
    node: &TypedNode,
    rule: Rule,
) -> Result<(), AllocError>
    ensures { OnOk result (string_bytes text.new ≡ string_bytes text.old ++ claimed_text (names_in plan.now) (rule_of rule) (outline_of node.now)) }
{
    match rule {
        Rule::SizeMismatch => push_size_mismatch(alloc, text, plan, node),
        Rule::RootNotOne => push_root_not_one(text, node),
        Rule::PartNotShown => push_part_not_shown(text, plan, node),
        Rule::InputsNotMatched => push_inputs_not_matched(alloc, text, plan, node),
        Rule::ReplicatedInput => push_replicated_input(alloc, text, plan, node),
        Rule::OrderNotShown => push_order_not_shown(text, node),
        Rule::OrderNeeded => push_order_needed(alloc, text, plan, node),
        Rule::KeyNotShown => push_key_not_shown(text, node),
        Rule::TotalNotShown => push_total_not_shown(text, node),
        Rule::FirstRowsOpen => push_first_rows_open(alloc, text, plan, node),
    }
}

/// What the node claims or does, where the rule refuses it.
pub fn claimed(
    alloc: Global,
    plan: &TypedPlan,
    node: &TypedNode,
    rule: Rule,
) -> Result<String, AllocError>
    ensures { IfOk result (λ s. string_bytes s ≡ claimed_text (names_in plan.now) (rule_of rule) (outline_of node.now)) }
{
    let mut text = String::new(alloc);
    push_claimed(alloc, &mut text, plan, node, rule)?;
    Ok(text)
}
