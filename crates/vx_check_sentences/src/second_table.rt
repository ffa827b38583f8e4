//! Whether a test that refuses a node would pass if the plan asked for what is known of columns.

ghost use Rattle.std.specs.Prelude.{◌≡◌, false, OnOk};
ghost use Rattle.vx_plan_nodes.specs.Outline.{plan_of};
ghost use Rattle.vx_plan_nodes.specs.TypedView.{names_in};
ghost use Rattle.vx_check_rules.specs.TableView.{Judges};
ghost use Rattle.vx_check_failures.specs.FailureView.{IsNodeOf};

use std::alloc::{AllocError, Global};
use vx_check_rules::{Rule, Table, failure_at, root_failure};
use vx_plan_facts::known_columns;
use vx_plan_nodes::{TypedNode, TypedPlan};
use vx_rows_values::limits::MAX_KEYS;

// Whether each node, from this one down, claims no more keys than a plan that derives may.
fn claims_few_keys(node: &TypedNode) -> bool {
    if MAX_KEYS < node.head().claim.keys.len() {
        return false;
    }
    match node {
        TypedNode::Scan(_, _) => true,
        TypedNode::Unary(_, _, input) | TypedNode::Exchange(_, _, input) => claims_few_keys(input),
        TypedNode::Binary(_, _, left, right) => claims_few_keys(left) && claims_few_keys(right),
    }
}

// Whether the rule is what refuses the node by this table, as one node or as the root.
fn refuses(plan: &TypedPlan, table: &mut Table<'_>, node: &TypedNode, rule: Rule) -> bool
    requires node { IsNodeOf plan.now node.now }
    requires judges { Judges (names_in plan.now).catalog table.old (plan_of node.now) }
{
    let first = match rule {
        Rule::RootNotOne | Rule::TotalNotShown => root_failure(true, table, node),
        _ => failure_at(plan.catalog(), table, node),
    };
    first == Some(rule)
}

/// Whether the rule refuses the node by the table of claims alone, for which the plan asks, and would not by the one that
/// asks also what is known of columns.
pub fn passes_second(
    alloc: Global,
    plan: &TypedPlan,
    node: &TypedNode,
    rule: Rule,
) -> Result<bool, AllocError>
    requires { IsNodeOf plan.now node.now }
{
    if plan.derives() || !claims_few_keys(plan.root()) {
        return Ok(false);
    }
    if !refuses(plan, &mut Table::First, node, rule) {
        return Ok(false);
    }
    let mut second = Table::Second(known_columns(alloc, plan)?);
    Ok(!refuses(plan, &mut second, node, rule))
}
