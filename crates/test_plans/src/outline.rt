//! Typed plans in a few words.

use std::alloc::{AllocError, Global};
use vx_plan_nodes::{Binary, Head, Phase, SortPhase, TypedNode, TypedPlan, Unary};
use vx_rows_values::ColType;

fn unary_name(unary: &Unary) -> &'static str {
    match unary {
        Unary::Select(_) => "select",
        Unary::Project(_) => "project",
        Unary::Distinct(_) => "distinct",
        Unary::Sort(SortPhase::Plain, _) => "sort",
        Unary::Sort(SortPhase::Partial, _) => "partial-sort",
        Unary::Group(Phase::Plain, _, _) => "group",
        Unary::Group(Phase::Partial, _, _) => "partial-group",
        Unary::Group(Phase::Final, _, _) => "final-group",
        Unary::Limit(_) => "limit",
    }
}

fn binary_name(binary: &Binary) -> &'static str {
    match binary {
        Binary::Union => "union",
        Binary::HashJoin(_) | Binary::MergeJoin(_, _) => "join",
        Binary::SemiJoin(_, _) => "semi-join",
        Binary::AntiJoin(_, _) => "anti-join",
    }
}

/// The numbers and operators of a tree, as `0 sort(1 scan)`.
pub fn outline(alloc: Global, node: &TypedNode) -> Result<String, AllocError> {
    let number = node.head().number;
    match node {
        TypedNode::Scan(_, _) => format!(in alloc; "{number} scan"),
        TypedNode::Unary(_, unary, input) => {
            let name = unary_name(unary);
            let below = outline(alloc, input)?;
            format!(in alloc; "{number} {name}({below})")
        }
        TypedNode::Binary(_, binary, left, right) => {
            let name = binary_name(binary);
            let first = outline(alloc, left)?;
            let second = outline(alloc, right)?;
            format!(in alloc; "{number} {name}({first},{second})")
        }
        TypedNode::Exchange(_, _, input) => {
            let below = outline(alloc, input)?;
            format!(in alloc; "{number} exchange({below})")
        }
    }
}

fn type_name(kind: ColType) -> &'static str {
    match kind {
        ColType::Int => "int",
        ColType::Text => "text",
    }
}

/// The names and types of the output columns, and whether the plan is total, as `id int; k text; total`.
pub fn columns(alloc: Global, plan: &TypedPlan) -> Result<String, AllocError> {
    let columns = &plan.root().head().columns;
    let mut text = String::new(alloc);
    for (name, kind) in columns.names.iter().zip(columns.types.iter()) {
        name.push_to(&mut text)?;
        text.push_str(" ")?;
        text.push_str(type_name(*kind))?;
        text.push_str("; ")?;
    }
    text.push_str(if plan.is_total() {
        "total"
    } else {
        "not total"
    })?;
    Ok(text)
}

/// Whether the root claims an order or a key.
pub fn is_claimed(head: &Head) -> bool {
    !head.claim.order.is_empty() || !head.claim.keys.is_empty()
}
