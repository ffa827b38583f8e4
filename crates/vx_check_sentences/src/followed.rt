//! What follows at a node in place of what it claims.

ghost use Rattle.std.specs.Prelude.{◌≡◌, ◌++◌, map, length, option_map, string_bytes, OnOk, IfOk, codes};
ghost use Rattle.vx_plan_nodes.specs.Outline.{claim_of, outline_of};
ghost use Rattle.vx_plan_nodes.specs.TypedView.{names_in};
ghost use Rattle.vx_plan_nodes.specs.Phases.{first_columns};
ghost use Rattle.vx_check.specs.Explain.{list_text, description};
ghost use Rattle.vx_check_rules.specs.Rules.{contains};
ghost use Rattle.vx_check_sentences.specs.Shown.{claim_json, claim_follows, follows_text, source_text, followed_text, missing, lacks_text, keys_lack, all_lacks};
ghost use Rattle.vx_check_sentences.specs.Words.{inputs_text};

use crate::told::Told;
use crate::words::{push_inputs, push_list, push_told};
use std::alloc::{AllocError, Global};
use vx_check::{column_names, description};
use vx_plan::{first_columns, named_claim};
use vx_plan_json::claim_text;
use vx_plan_nodes::{Claim, Name, TypedNode, TypedPlan};

// Adds a claim as a plan document writes it.
fn push_claim_json(
    alloc: Global,
    text: &mut String,
    plan: &TypedPlan,
    names: &[Name],
    claim: &Claim,
) -> Result<(), AllocError>
    ensures { OnOk result (string_bytes text.new ≡ string_bytes text.old ++ claim_json (names_in plan.now) names.now (claim_of claim.now)) }
{
    let named = named_claim(alloc, plan.ranges(), names, claim)?;
    text.push_str(claim_text(alloc, &named)?.as_str())
}

// Adds a claim that follows.
fn push_claim_follows(
    alloc: Global,
    text: &mut String,
    plan: &TypedPlan,
    told: Told,
    names: &[Name],
    claim: &Claim,
) -> Result<(), AllocError>
    ensures { OnOk result (string_bytes text.new ≡ string_bytes text.old ++ claim_follows told (names_in plan.now) names.now (claim_of claim.now)) }
{
    text.push_str("; what follows here: ")?;
    push_told(text, plan, told, names, claim)?;
    text.push_str(", as a claim: ")?;
    push_claim_json(alloc, text, plan, names, claim)
}

// Adds the claim that follows, if there is one.
fn push_follows(
    alloc: Global,
    text: &mut String,
    plan: &TypedPlan,
    told: Told,
    names: &[Name],
    claim: &Option<Claim>,
) -> Result<(), AllocError>
    ensures { OnOk result (string_bytes text.new ≡ string_bytes text.old ++ follows_text told (names_in plan.now) names.now (option_map claim_of claim.now)) }
{
    let Some(claim) = claim else {
        return text.push_str("; nothing follows here");
    };
    push_claim_follows(alloc, text, plan, told, names, claim)
}

// Adds what a node does, and what its inputs claim.
fn push_moving(
    alloc: Global,
    text: &mut String,
    plan: &TypedPlan,
    told: Told,
    node: &TypedNode,
) -> Result<(), AllocError>
    ensures { OnOk result (string_bytes text.new ≡ string_bytes text.old ++ (codes "it is " ++ (description (names_in plan.now) (outline_of node.now) ++ (codes ", and " ++ inputs_text told (names_in plan.now) (outline_of node.now))))) }
{
    text.push_str("it is ")?;
    text.push_str(description(alloc, plan, node)?.as_str())?;
    text.push_str(", and ")?;
    push_inputs(text, plan, told, node)
}

// Adds what it follows from.
fn push_source(
    alloc: Global,
    text: &mut String,
    plan: &TypedPlan,
    told: Told,
    node: &TypedNode,
) -> Result<(), AllocError>
    ensures { OnOk result (string_bytes text.new ≡ string_bytes text.old ++ source_text told (names_in plan.now) (outline_of node.now)) }
{
    match node {
        TypedNode::Scan(_, _) => {
            text.push_str("it is ")?;
            text.push_str(description(alloc, plan, node)?.as_str())
        }
        TypedNode::Unary(_, _, _) => push_inputs(text, plan, told, node),
        TypedNode::Binary(_, _, _, _) => push_inputs(text, plan, told, node),
        TypedNode::Exchange(_, _, _) => push_moving(alloc, text, plan, told, node),
    }
}

/// Adds what follows at a node, and from what.
pub fn push_followed(
    alloc: Global,
    text: &mut String,
    plan: &TypedPlan,
    told: Told,
    node: &TypedNode,
    claim: &Option<Claim>,
) -> Result<(), AllocError>
    ensures { OnOk result (string_bytes text.new ≡ string_bytes text.old ++ followed_text told (names_in plan.now) (outline_of node.now) (option_map claim_of claim.now)) }
{
    push_source(alloc, text, plan, told, node)?;
    push_follows(alloc, text, plan, told, column_names(node), claim)
}

// Whether the column is in the order.
fn is_in(order: &[usize], column: usize) -> bool
    ensures { result ≡ contains order.now column }
{
    order.iter().any(|c| column == *c)
}

/// The columns that are not in the order.
pub fn missing(alloc: Global, order: &[usize], columns: &[usize]) -> Result<Vec<usize>, AllocError>
    ensures { IfOk result (λ v. v.items ≡ missing order.now columns.now) }
{
    let mut list = Vec::new(alloc);
    for column in columns {
        if !is_in(order, *column) {
            list.push(*column)?;
        }
    }
    Ok(list)
}

// Adds those of these columns that are not in the order.
fn push_missing(
    alloc: Global,
    text: &mut String,
    names: &[Name],
    order: &[usize],
    columns: &[usize],
) -> Result<(), AllocError>
    ensures { OnOk result (string_bytes text.new ≡ string_bytes text.old ++ list_text names.now (missing order.now columns.now)) }
{
    let lacking = missing(alloc, order, columns)?;
    push_list(text, names, lacking.as_slice())
}

// Adds those of a key.
fn push_lacks(
    alloc: Global,
    text: &mut String,
    names: &[Name],
    order: &[usize],
    key: &[usize],
) -> Result<(), AllocError>
    ensures { OnOk result (string_bytes text.new ≡ string_bytes text.old ++ lacks_text names.now order.now key.now) }
{
    text.push_str(", ")?;
    push_missing(alloc, text, names, order, key)?;
    text.push_str(" of the key ")?;
    push_list(text, names, key)
}

// Adds those of each of these keys.
fn push_keys_lack(
    alloc: Global,
    text: &mut String,
    names: &[Name],
    order: &[usize],
    keys: &[Vec<usize>],
) -> Result<(), AllocError>
    ensures { OnOk result (string_bytes text.new ≡ string_bytes text.old ++ keys_lack names.now order.now (map (λ k. k.items) keys.now)) }
{
    for key in keys {
        push_lacks(alloc, text, names, order, key.as_slice())?;
    }
    Ok(())
}

// Adds those of all columns.
fn push_all_missing(
    alloc: Global,
    text: &mut String,
    names: &[Name],
    order: &[usize],
) -> Result<(), AllocError>
    ensures { OnOk result (string_bytes text.new ≡ string_bytes text.old ++ list_text names.now (missing order.now (first_columns (length names.now)))) }
{
    let all = first_columns(alloc, names.len())?;
    push_missing(alloc, text, names, order, all.as_slice())
}

/// Adds what the order lacks of all columns, and of each key.
pub fn push_all_lacks(
    alloc: Global,
    text: &mut String,
    names: &[Name],
    order: &[usize],
    keys: &[Vec<usize>],
) -> Result<(), AllocError>
    ensures { OnOk result (string_bytes text.new ≡ string_bytes text.old ++ all_lacks names.now order.now (map (λ k. k.items) keys.now)) }
{
    text.push_str("it lacks ")?;
    push_all_missing(alloc, text, names, order)?;
    text.push_str(" of all columns")?;
    push_keys_lack(alloc, text, names, order, keys)
}
