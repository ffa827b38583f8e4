//! What would help where the checker refuses a node. These texts are for people alone, and no clause says them.

ghost use Rattle.std.specs.Prelude.{List, OnOk};
ghost use Rattle.vx_catalog_relations.specs.Relation.{Relation};
ghost use Rattle.vx_plan_nodes.specs.Outline.{plan_of};
ghost use Rattle.vx_check_rules.specs.TableView.{Judges};
ghost use Rattle.vx_check_failures.specs.FailureView.{IsTableOf, IsNodeOf};

use crate::claimed::listed;
use crate::followed::missing;
use crate::help_claims::{push_key_help, push_order_help, push_part_help};
use crate::help_words::{push_json_order, push_json_part};
use crate::open::is_open;
use crate::second_table::passes_second;
use crate::words::{push_list, push_node};
use std::alloc::{AllocError, Global};
use vx_check::{column_names, push_between, push_name, push_order, push_size};
use vx_check_failures::shown_claim;
use vx_check_rules::{OrderSeen, Rule, Table, claimed_part, gives, is_same_equally, seen};
use vx_plan::first_columns;
use vx_plan_nodes::{Binary, Claim, Name, Part, Size, TypedNode, TypedPlan, Unary};
use vx_rows_values::{OrderEntry, order_columns};

// ---- sizes

// Adds an exchange that sends to this size.
fn push_sender(text: &mut String, plan: &TypedPlan, size: Size) -> Result<(), AllocError> {
    match size {
        Size::One => text.push_str("a gather"),
        Size::Group(_) => {
            text.push_str("an exchange to the size ")?;
            push_size(text, plan, size)
        }
    }
}

fn push_same_size(text: &mut String, plan: &TypedPlan, node: &TypedNode) -> Result<(), AllocError> {
    let TypedNode::Binary(_, _, left, right) = node else {
        return Ok(());
    };
    text.push_str("put ")?;
    push_sender(text, plan, left.size())?;
    text.push_str(" above ")?;
    push_node(text, right)?;
    text.push_str(", or ")?;
    push_sender(text, plan, right.size())?;
    text.push_str(" above ")?;
    push_node(text, left)
}

fn push_gather(text: &mut String, node: &TypedNode) -> Result<(), AllocError> {
    text.push_str("put a gather above it")?;
    let order = node.head().claim.order.as_slice();
    if order.is_empty() {
        return Ok(());
    }
    text.push_str(", which keeps the order if it merges on ")?;
    push_order(text, column_names(node), order)
}

// ---- which rows meet

// Adds how rows meet that are equal in these columns.
fn push_meeting(text: &mut String, names: &[Name], columns: &[usize]) -> Result<(), AllocError> {
    if columns.is_empty() {
        return text.push_str("put a gather below it");
    }
    text.push_str("put a hash exchange on ")?;
    push_list(text, names, columns)?;
    text.push_str(" below it, or a gather")
}

fn push_unary_meeting(
    alloc: Global,
    text: &mut String,
    names: &[Name],
    operator: &Unary,
) -> Result<(), AllocError> {
    match operator {
        Unary::Distinct(kept) => {
            let columns: Vec<usize> = kept.as_slice().iter().map(|k| k.column).collect(alloc)?;
            push_meeting(text, names, columns.as_slice())
        }
        Unary::Group(_, by, _) => push_meeting(text, names, by.as_slice()),
        Unary::Select(_) | Unary::Project(_) | Unary::Sort(_, _) | Unary::Limit(_) => Ok(()),
    }
}

// Adds how the rows of two inputs meet that match on these pairs.
fn push_pairs_meeting(
    text: &mut String,
    lefts: &[Name],
    rights: &[Name],
    on: &[(usize, usize)],
) -> Result<(), AllocError> {
    text.push_str("route both sides by one hash on ")?;
    for (i, pair) in on.iter().enumerate() {
        push_between(text, " and ", i > 0)?;
        push_name(text, lefts, pair.0)?;
        text.push_str(" = ")?;
        push_name(text, rights, pair.1)?;
    }
    Ok(())
}

// The same, or which side may be broadcast in place of that.
fn push_join_meeting(
    text: &mut String,
    left: &TypedNode,
    right: &TypedNode,
    on: &[(usize, usize)],
    side: &str,
) -> Result<(), AllocError> {
    push_pairs_meeting(text, column_names(left), column_names(right), on)?;
    text.push_str(", or broadcast ")?;
    text.push_str(side)
}

// Adds how two inputs come to lie alike, of which the first has all rows at every worker.
fn push_alike(text: &mut String, whole: &TypedNode, other: &TypedNode) -> Result<(), AllocError> {
    text.push_str("scan shared, not whole, and broadcast nothing from ")?;
    push_node(text, whole)?;
    text.push_str(" down, or broadcast ")?;
    push_node(text, other)?;
    text.push_str(" too")
}

fn push_union_meeting(
    text: &mut String,
    left: &TypedNode,
    right: &TypedNode,
) -> Result<(), AllocError> {
    match &left.head().claim.part {
        Part::All => push_alike(text, left, right),
        _ => push_alike(text, right, left),
    }
}

fn push_binary_meeting(
    text: &mut String,
    operator: &Binary,
    left: &TypedNode,
    right: &TypedNode,
) -> Result<(), AllocError> {
    match operator {
        Binary::Union => push_union_meeting(text, left, right),
        Binary::HashJoin(on) | Binary::MergeJoin(on, _) => {
            push_join_meeting(text, left, right, on.as_slice(), "one side")
        }
        Binary::SemiJoin(on, _) | Binary::AntiJoin(on, _) => {
            push_join_meeting(text, left, right, on.as_slice(), "the right side")
        }
    }
}

// Whether the part that a node claims tells this one, by the second table also on equal columns.
fn tells(table: &Table<'_>, node: &TypedNode, part: &Part) -> bool
    requires { (catalog : List Relation) × Judges catalog table.now (plan_of node.now) }
{
    let claimed = claimed_part(node);
    if gives(claimed, part) {
        return true;
    }
    match table {
        Table::First => false,
        Table::Second(known) => is_same_equally(known.facts_of(node), seen(claimed), seen(part)),
    }
}

// Adds that a part which follows at an input is to be claimed there, unless it is.
fn push_unclaimed(
    alloc: Global,
    text: &mut String,
    plan: &TypedPlan,
    table: &mut Table<'_>,
    input: &TypedNode,
) -> Result<(), AllocError>
    requires node { IsNodeOf plan.now input.now }
    requires table { IsTableOf table.old plan.now }
    ensures { OnOk result (IsTableOf table.new plan.now) }
{
    let Some(claim) = shown_claim(alloc, plan.catalog(), table, input)? else {
        return Ok(());
    };
    if tells(table, input, &claim.part) {
        return Ok(());
    }
    text.push_str("claim \"part\": ")?;
    push_json_part(alloc, text, plan, column_names(input), &claim.part)?;
    text.push_str(" at ")?;
    push_node(text, input)?;
    text.push_str(", where it follows; or ")
}

// Adds how rows meet that an operator needs at one worker.
fn push_match(
    alloc: Global,
    text: &mut String,
    plan: &TypedPlan,
    table: &mut Table<'_>,
    node: &TypedNode,
) -> Result<(), AllocError>
    requires node { IsNodeOf plan.now node.now }
    requires table { IsTableOf table.old plan.now }
{
    match node {
        TypedNode::Unary(_, operator, input) => {
            push_unclaimed(alloc, text, plan, table, input)?;
            push_unary_meeting(alloc, text, column_names(input), operator)
        }
        TypedNode::Binary(_, operator, left, right) => {
            push_unclaimed(alloc, text, plan, table, left)?;
            push_unclaimed(alloc, text, plan, table, right)?;
            push_binary_meeting(text, operator, left, right)
        }
        TypedNode::Scan(_, _) | TypedNode::Exchange(_, _, _) => Ok(()),
    }
}

// Adds how each row is there once, where an exchange sends it on.
fn push_once(text: &mut String, node: &TypedNode) -> Result<(), AllocError> {
    let TypedNode::Exchange(_, _, input) = node else {
        return Ok(());
    };
    match &input.head().claim.part {
        Part::All => text.push_str("scan shared, not whole, and broadcast nothing from ")?,
        _ => text.push_str("claim \"part\": \"any\" at ")?,
    }
    push_node(text, input)?;
    match &input.head().claim.part {
        Part::All => text.push_str(" down"),
        _ => text.push_str(", if it holds there"),
    }
}

// ---- orders

// Adds how an input comes to have the order, unless it claims it already.
fn push_sorted(
    alloc: Global,
    text: &mut String,
    input: &TypedNode,
    needed: &[OrderEntry],
) -> Result<(), AllocError> {
    let claimed = input.head().claim.order.as_slice();
    if OrderSeen::Listed(needed).begin(claimed) {
        return Ok(());
    }
    let is_later = !text.is_empty();
    push_between(text, "; ", is_later)?;
    text.push_str("claim \"order\": ")?;
    push_json_order(alloc, text, column_names(input), needed)?;
    text.push_str(" at ")?;
    push_node(text, input)?;
    text.push_str(match input {
        TypedNode::Exchange(_, _, _) => " and let it merge on that, or sort above it",
        _ => " if it holds there, or sort above it",
    })?;
    if is_open(input) {
        text.push_str(" with \"phase\": \"partial\"")?;
    }
    Ok(())
}

fn push_join_sorted(
    alloc: Global,
    text: &mut String,
    left: &TypedNode,
    right: &TypedNode,
    on: &[(usize, usize)],
    falls: &[bool],
) -> Result<(), AllocError> {
    let lefts = listed(alloc, OrderSeen::Lefts(on, falls))?;
    let rights = listed(alloc, OrderSeen::Rights(on, falls))?;
    push_sorted(alloc, text, left, lefts.as_slice())?;
    push_sorted(alloc, text, right, rights.as_slice())
}

fn push_orders(alloc: Global, text: &mut String, node: &TypedNode) -> Result<(), AllocError> {
    match node {
        TypedNode::Binary(_, Binary::MergeJoin(on, falls), left, right) => {
            push_join_sorted(alloc, text, left, right, on.as_slice(), falls.as_slice())
        }
        TypedNode::Exchange(_, exchange, input) => {
            push_sorted(alloc, text, input, exchange.merge.as_slice())
        }
        _ => Ok(()),
    }
}

// The order, with the columns behind it, rising, that it lacks of the first key, or of all columns where there is none.
fn longer_order(alloc: Global, claim: &Claim, width: usize) -> Result<Vec<OrderEntry>, AllocError> {
    let order = claim.order.as_slice();
    let columns = order_columns(alloc, order)?;
    let lacking = match claim.keys.first() {
        Some(key) => missing(alloc, columns.as_slice(), key.as_slice())?,
        None => missing(
            alloc,
            columns.as_slice(),
            first_columns(alloc, width)?.as_slice(),
        )?,
    };
    let mut longer = Vec::from_slice(alloc, order)?;
    for column in lacking.as_slice() {
        longer.push(OrderEntry::rising(*column))?;
    }
    Ok(longer)
}

fn push_total(alloc: Global, text: &mut String, node: &TypedNode) -> Result<(), AllocError> {
    let names = column_names(node);
    let longer = longer_order(alloc, &node.head().claim, names.len())?;
    text.push_str("sort on ")?;
    push_order(text, names, longer.as_slice())?;
    text.push_str(
        " and claim that order, claim a key whose columns are all in the order, or leave out \"total\"",
    )
}

// Adds how rows come to one worker in this order.
fn push_gathered(
    text: &mut String,
    names: &[Name],
    order: &[OrderEntry],
) -> Result<(), AllocError> {
    text.push_str("put a gather below it that merges on ")?;
    push_order(text, names, order)?;
    text.push_str(", over rows that are sorted so, or a gather and above that a sort")
}

// Adds how an input of one worker comes to have an order that is total.
fn push_longer(
    text: &mut String,
    input: &TypedNode,
    longer: &[OrderEntry],
) -> Result<(), AllocError> {
    text.push_str("sort below it on ")?;
    push_order(text, column_names(input), longer)?;
    text.push_str(" and claim that order, or claim at ")?;
    push_node(text, input)?;
    text.push_str(" a key whose columns are all in the order, if it holds there")
}

// Adds how it comes to be known which rows are the first of a limit.
fn push_first_rows(alloc: Global, text: &mut String, node: &TypedNode) -> Result<(), AllocError> {
    let TypedNode::Unary(_, _, input) = node else {
        return Ok(());
    };
    let names = column_names(input);
    let longer = longer_order(alloc, &input.head().claim, names.len())?;
    match input.size() {
        Size::One => push_longer(text, input, longer.as_slice()),
        Size::Group(_) => push_gathered(text, names, longer.as_slice()),
    }
}

// ---- by the rule

fn push_help(
    alloc: Global,
    text: &mut String,
    plan: &TypedPlan,
    table: &mut Table<'_>,
    node: &TypedNode,
    rule: Rule,
    claim: &Option<Claim>,
) -> Result<(), AllocError>
    requires node { IsNodeOf plan.now node.now }
    requires table { IsTableOf table.old plan.now }
{
    match rule {
        Rule::SizeMismatch => push_same_size(text, plan, node),
        Rule::RootNotOne => push_gather(text, node),
        Rule::PartNotShown => push_part_help(alloc, text, plan, node, claim),
        Rule::InputsNotMatched => push_match(alloc, text, plan, table, node),
        Rule::ReplicatedInput => push_once(text, node),
        Rule::OrderNotShown => push_order_help(alloc, text, node, claim),
        Rule::OrderNeeded => push_orders(alloc, text, node),
        Rule::KeyNotShown => push_key_help(alloc, text, node, claim),
        Rule::TotalNotShown => push_total(alloc, text, node),
        Rule::FirstRowsOpen => push_first_rows(alloc, text, node),
    }
}

// The cure that is to make the plan ask for what is known of columns, before the others.
fn with_deriving(alloc: Global, others: String) -> Result<String, AllocError> {
    let mut text = String::new(alloc);
    text.push_str("it follows from what is known of columns: put \"derive\": true into the plan")?;
    if !others.is_empty() {
        text.push_str("; or ")?;
        text.push_str(others.as_str())?;
    }
    Ok(text)
}

/// What would help where the rule refuses the node, and this claim is shown there.
pub fn help(
    alloc: Global,
    plan: &TypedPlan,
    table: &mut Table<'_>,
    node: &TypedNode,
    rule: Rule,
    claim: &Option<Claim>,
) -> Result<String, AllocError>
    requires node { IsNodeOf plan.now node.now }
    requires table { IsTableOf table.old plan.now }
{
    let mut text = String::new(alloc);
    push_help(alloc, &mut text, plan, table, node, rule, claim)?;
    if passes_second(alloc, plan, node, rule)? {
        return with_deriving(alloc, text);
    }
    Ok(text)
}
