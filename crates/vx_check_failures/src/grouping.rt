//! The lines of failures in groups: that of a cause, and behind it those of the failures that come of it.

ghost use Rattle.std.specs.Prelude.{◌≡◌, ◌++◌, map, cond, [], length, string_bytes, OnOk, IfOk};
ghost use Rattle.vx_plan_nodes.specs.TypedView.{resolved_of};
ghost use Rattle.vx_check_failures.specs.Grouped.{caused_line, comes_of, lines_behind, group_of, grouped_lines, UngroupedLaw};
ghost use Rattle.vx_check_failures.specs.FailureView.{failure_is, IsTableOf};

use crate::failure::Failure;
use crate::lines::push_line;
use std::alloc::{AllocError, Global};
use vx_check_rules::{Table, table_of};
use vx_plan_nodes::TypedPlan;

// Whether a failure with this cause comes of the one at this node.
fn comes_of(node: u32, cause: Option<u32>) -> bool
    ensures { result ≡ comes_of node cause }
{
    match cause {
        None => false,
        Some(other) => other == node,
    }
}

// Adds the line of a failure, if it comes of the one at this node.
fn push_if_behind(
    alloc: Global,
    text: &mut String,
    plan: &TypedPlan,
    table: &mut Table<'_>,
    node: u32,
    failure: Failure,
    cause: Option<u32>,
) -> Result<(), AllocError>
    requires { IsTableOf table.old plan.now }
    ensures text { OnOk result (string_bytes text.new ≡ string_bytes text.old ++ cond (comes_of node cause) (caused_line (resolved_of plan.now) (failure_is failure) cause) []) }
    ensures table { OnOk result (IsTableOf table.new plan.now) }
{
    if comes_of(node, cause) {
        push_line(alloc, text, plan, table, failure, cause)
    } else {
        Ok(())
    }
}

// Adds the lines of those failures that come of the one at this node.
fn push_behind(
    alloc: Global,
    text: &mut String,
    plan: &TypedPlan,
    table: &mut Table<'_>,
    node: u32,
    failures: &[Failure],
    causes: &[Option<u32>],
) -> Result<(), AllocError>
    requires causes { length causes.now ≡ length failures.now }
    requires table { IsTableOf table.old plan.now }
    ensures text { OnOk result (string_bytes text.new ≡ string_bytes text.old ++ lines_behind (resolved_of plan.now) node (map failure_is failures.now) causes.now) }
    ensures table { OnOk result (IsTableOf table.new plan.now) }
{
    for place in 0..failures.len() {
        push_if_behind(
            alloc,
            text,
            plan,
            table,
            node,
            failures[place],
            causes[place],
        )?;
    }
    Ok(())
}

// Adds the line of a failure without a cause, and behind it those of the failures that come of it.
fn push_group(
    alloc: Global,
    text: &mut String,
    plan: &TypedPlan,
    table: &mut Table<'_>,
    failures: &[Failure],
    causes: &[Option<u32>],
    failure: Failure,
    cause: Option<u32>,
) -> Result<(), AllocError>
    requires causes { length causes.now ≡ length failures.now }
    requires table { IsTableOf table.old plan.now }
    ensures text { OnOk result (string_bytes text.new ≡ string_bytes text.old ++ group_of (resolved_of plan.now) (map failure_is failures.now) causes.now (failure_is failure) cause) }
    ensures table { OnOk result (IsTableOf table.new plan.now) }
{
    if cause.is_some() {
        return Ok(());
    }
    push_line(alloc, text, plan, table, failure, cause)?;
    push_behind(alloc, text, plan, table, failure.node, failures, causes)
}

/// The lines of failures, of which each has the node of its cause at the same place of the second list, or none there if it
/// is a cause: each cause in order, and behind it in order those that come of it, with its node.
pub fn grouped_lines(
    alloc: Global,
    plan: &TypedPlan,
    failures: &[Failure],
    causes: &[Option<u32>],
) -> Result<String, AllocError>
    requires { length causes.now ≡ length failures.now }
    ensures { IfOk result (λ s. string_bytes s ≡ grouped_lines (resolved_of plan.now) (map failure_is failures.now) causes.now) }
{
    let mut table = table_of(alloc, plan)?;
    let mut text = String::new(alloc);
    for place in 0..failures.len() {
        push_group(
            alloc,
            &mut text,
            plan,
            &mut table,
            failures,
            causes,
            failures[place],
            causes[place],
        )?;
    }
    Ok(text)
}

/// Where no failure has a cause, each has its line, in order.
pub fn ungrouped_lines_are_in_order()
    ensures { UngroupedLaw }
{}
