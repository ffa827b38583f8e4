//! The line of a failure.

ghost use Rattle.std.specs.Prelude.{◌≡◌, ◌++◌, option_map, string_bytes, OnOk, IfSome};
ghost use Rattle.vx_plan_nodes.specs.Outline.{columns, claim_of, outline_of};
ghost use Rattle.vx_plan_nodes.specs.TypedView.{names_in, resolved_of};
ghost use Rattle.vx_check_failures.specs.Lines.{claim_text, shown_text};
ghost use Rattle.vx_check_failures.specs.Grouped.{cause_text, caused_line};
ghost use Rattle.vx_check_failures.specs.FailureView.{failure_is, IsTableOf, IsNodeOf};

use crate::failure::Failure;
use crate::finding::node_numbered;
use crate::shown::shown_claim;
use itoa::Buffer;
use std::alloc::{AllocError, Global};
use vx_check_rules::Table;
use vx_plan::named_claim;
use vx_plan_json::claim_text;
use vx_plan_nodes::{Claim, Name, TypedNode, TypedPlan};

// Adds a claim over columns with these names, if there is one.
fn push_claim(
    alloc: Global,
    text: &mut String,
    plan: &TypedPlan,
    names: &[Name],
    claim: Option<Claim>,
) -> Result<(), AllocError>
    ensures { OnOk result (string_bytes text.new ≡ string_bytes text.old ++ claim_text (names_in plan.now) names.now (option_map claim_of claim)) }
{
    let Some(claim) = claim else {
        return Ok(());
    };
    let named = named_claim(alloc, plan.ranges(), names, &claim)?;
    text.push_str(" shown=")?;
    text.push_str(claim_text(alloc, &named)?.as_str())
}

// The names of the columns of a node's output.
fn column_names(node: &TypedNode) -> &[Name]
    ensures { result.now ≡ (columns (outline_of node.now)).names }
{
    node.head().columns.names.as_slice()
}

// Adds the claim that is shown at a node, if there are both.
fn push_shown(
    alloc: Global,
    text: &mut String,
    plan: &TypedPlan,
    table: &mut Table<'_>,
    node: Option<&TypedNode>,
) -> Result<(), AllocError>
    requires node { IfSome node (λ n. IsNodeOf plan.now n.now) }
    requires table { IsTableOf table.old plan.now }
    ensures text { OnOk result (string_bytes text.new ≡ string_bytes text.old ++ shown_text (resolved_of plan.now).derives (names_in plan.now) (option_map (λ n. outline_of n.now) node.entry)) }
    ensures table { OnOk result (IsTableOf table.new plan.now) }
{
    let Some(node) = node else {
        return Ok(());
    };
    let claim = shown_claim(alloc, plan.catalog(), table, node)?;
    push_claim(alloc, text, plan, column_names(node), claim)
}

// Adds the node of the failure that one comes of, if it comes of one.
fn push_cause(text: &mut String, cause: Option<u32>) -> Result<(), AllocError>
    ensures { OnOk result (string_bytes text.new ≡ string_bytes text.old ++ cause_text cause) }
{
    let Some(node) = cause else {
        return Ok(());
    };
    let mut digits = Buffer::new();
    text.push_str(" cause=")?;
    text.push_str(digits.format(node))
}

/// Adds the line of a failure that comes of one at another node, or of none, as the program reports a plan that is refused.
pub fn push_line(
    alloc: Global,
    text: &mut String,
    plan: &TypedPlan,
    table: &mut Table<'_>,
    failure: Failure,
    cause: Option<u32>,
) -> Result<(), AllocError>
    requires { IsTableOf table.old plan.now }
    ensures text { OnOk result (string_bytes text.new ≡ string_bytes text.old ++ caused_line (resolved_of plan.now) (failure_is failure) cause) }
    ensures table { OnOk result (IsTableOf table.new plan.now) }
{
    let mut digits = Buffer::new();
    text.push_str("volcano: ")?;
    text.push_str(failure.rule.text())?;
    text.push_str(" node=")?;
    text.push_str(digits.format(failure.node))?;
    push_cause(text, cause)?;
    let node = node_numbered(plan.root(), failure.node);
    push_shown(alloc, text, plan, table, node)?;
    text.push_str("\n")
}
