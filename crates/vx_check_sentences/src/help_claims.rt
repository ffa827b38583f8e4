//! What would help where a part, an order or a key is claimed that does not follow.

use crate::help_words::{push_json_keys, push_json_order, push_json_part};
use crate::open::is_open;
use crate::words::{push_list, push_node};
use std::alloc::{AllocError, Global};
use vx_check::{column_names, push_order};
use vx_plan_nodes::{
    Binary, Claim, Name, Part, Phase, Route, SortPhase, TypedNode, TypedPlan, Unary,
};

// Adds the exchange that makes a part.
fn push_maker(text: &mut String, names: &[Name], part: &Part) -> Result<(), AllocError> {
    match part {
        Part::One => text.push_str("put a gather"),
        Part::Any => text.push_str("put a round exchange"),
        Part::All => text.push_str("put a broadcast"),
        Part::Routed(Route::Hash(_), columns) => {
            text.push_str("put a hash exchange on ")?;
            push_list(text, names, columns.as_slice())
        }
        Part::Routed(Route::Range(_), columns) => {
            text.push_str("put a range exchange on ")?;
            push_list(text, names, columns.as_slice())
        }
    }
}

// Where such an exchange goes, beside this node.
fn place(node: &TypedNode) -> &'static str {
    match node {
        TypedNode::Scan(_, _) => " above it",
        TypedNode::Unary(_, _, _) | TypedNode::Binary(_, _, _, _) => " below it",
        TypedNode::Exchange(_, _, _) => " in its place",
    }
}

/// Adds what would help where the claimed part does not follow, but this claim.
pub fn push_part_help(
    alloc: Global,
    text: &mut String,
    plan: &TypedPlan,
    node: &TypedNode,
    claim: &Option<Claim>,
) -> Result<(), AllocError> {
    let names = column_names(node);
    if let Some(claim) = claim {
        text.push_str("claim \"part\": ")?;
        push_json_part(alloc, text, plan, names, &claim.part)?;
        text.push_str(" here")?;
        if let Part::All = claim.part {
            return text.push_str(": each worker has all rows");
        }
        text.push_str(", or ")?;
    }
    push_maker(text, names, &node.head().claim.part)?;
    text.push_str(place(node))
}

// Adds what to do to have the order.
fn push_sorting(text: &mut String, node: &TypedNode) -> Result<(), AllocError> {
    let word = match node {
        TypedNode::Scan(_, _) | TypedNode::Binary(_, _, _, _) => ", or sort above it on ",
        TypedNode::Unary(_, Unary::Sort(SortPhase::Plain, _), _) => ", or sort here on ",
        TypedNode::Unary(_, Unary::Sort(SortPhase::Partial, _), _) => {
            ", or sort here, if the group is by these, on "
        }
        TypedNode::Unary(_, Unary::Limit(_), _) => ", or sort above it on ",
        TypedNode::Unary(_, _, _) => ", or sort below it on ",
        TypedNode::Exchange(_, _, _) => ", or merge here, over an input that is sorted so, on ",
    };
    text.push_str(word)?;
    push_order(text, column_names(node), node.head().claim.order.as_slice())
}

/// Adds what would help where the claimed order does not follow, but this claim.
pub fn push_order_help(
    alloc: Global,
    text: &mut String,
    node: &TypedNode,
    claim: &Option<Claim>,
) -> Result<(), AllocError> {
    match claim {
        Some(claim) if !claim.order.is_empty() => {
            text.push_str("claim \"order\": ")?;
            push_json_order(alloc, text, column_names(node), claim.order.as_slice())?;
            text.push_str(" here")?;
        }
        _ => text.push_str("claim no order here")?,
    }
    push_sorting(text, node)
}

// Adds that the key may be claimed at an input.
fn push_key_below(text: &mut String, input: &TypedNode) -> Result<(), AllocError> {
    if is_open(input) {
        return text.push_str(": parts of groups have none, the final group above has");
    }
    text.push_str(", or claim the key at ")?;
    push_node(text, input)?;
    text.push_str(" too, if it holds there")
}

// Adds how a node comes to have a key.
fn push_keying(text: &mut String, node: &TypedNode) -> Result<(), AllocError> {
    match node {
        TypedNode::Scan(_, _) => text.push_str(", or declare the key in the catalog"),
        TypedNode::Unary(_, Unary::Group(Phase::Partial, _, _), _) => {
            text.push_str(": a partial group has none, its final group has")
        }
        TypedNode::Unary(_, Unary::Sort(SortPhase::Partial, _), _) => {
            text.push_str(": a partial sort has none, the final group above it has")
        }
        TypedNode::Unary(_, Unary::Group(_, _, _), _) => text.push_str(
            ", or a key with more columns",
        ),
        TypedNode::Unary(_, Unary::Distinct(_), _) => Ok(()),
        TypedNode::Unary(_, _, input) => push_key_below(text, input),
        TypedNode::Binary(_, Binary::Union, _, _) => {
            text.push_str(": none follows from a union, one does from a distinct above it")
        }
        TypedNode::Binary(_, Binary::SemiJoin(_, _) | Binary::AntiJoin(_, _), left, _) => {
            push_key_below(text, left)
        }
        TypedNode::Binary(_, _, _, _) => text.push_str(", or claim more keys of its inputs"),
        TypedNode::Exchange(_, _, input) => push_key_below(text, input),
    }
}

/// Adds what would help where a claimed key does not follow, but this claim.
pub fn push_key_help(
    alloc: Global,
    text: &mut String,
    node: &TypedNode,
    claim: &Option<Claim>,
) -> Result<(), AllocError> {
    match claim {
        Some(claim) if !claim.keys.is_empty() => {
            text.push_str("claim \"keys\": ")?;
            push_json_keys(alloc, text, column_names(node), claim.keys.as_slice())?;
            text.push_str(" here")?;
        }
        _ => text.push_str("claim no key here")?,
    }
    push_keying(text, node)
}
