//! Which failures of a plan come of others below them.

ghost use Rattle.std.specs.Prelude.{◌≡◌, [], map, option_map, None, OnOk, IfOk, length};
ghost use Rattle.vx_plan_nodes.specs.Outline.{outline_of};
ghost use Rattle.vx_plan_nodes.specs.TypedView.{resolved_of};
ghost use Rattle.vx_plan_json.specs.PlanView.{document_of};
ghost use Rattle.vx_check_failures.specs.FailureView.{failure_is};
ghost use Rattle.vx_check_rules.specs.RuleView.{rule_of};
ghost use Rattle.vx_check_causes.specs.Causes.{cause_at, cause_of, with_cause, causes_of, AreCauses, NamesCauses};

use crate::below::first_below;
use crate::claiming::annotated;
use crate::given::goes_away;
use std::alloc::{AllocError, Global};
use vx_catalog_relations::Catalog;
use vx_check_failures::{Failure, node_numbered};
use vx_check_rules::Rule;
use vx_plan_json::Plan;
use vx_plan_nodes::{TypedNode, TypedPlan};

// The cause of a failure of this rule at a node, where these are the nodes of the causes before it, and the second node is the
// same one in the plan with the claims that follow.
fn cause_at(
    is_total: bool,
    rule: Rule,
    causes: &[u32],
    node: Option<&TypedNode>,
    claimed: Option<&TypedNode>,
) -> Option<u32>
    ensures { result ≡ cause_at is_total (rule_of rule) causes.now (option_map (λ n. outline_of n.now) node.entry) (option_map (λ n. outline_of n.now) claimed.entry) }
{
    let node = node?;
    let claimed = claimed?;
    if goes_away(is_total, &claimed.head().claim, rule, node) {
        first_below(causes, node)
    } else {
        None
    }
}

// The cause of a failure of a plan.
fn cause_of(plan: &TypedPlan, claimed: &TypedPlan, causes: &[u32], failure: Failure) -> Option<u32>
    ensures { result ≡ cause_of (resolved_of plan.now) (resolved_of claimed.now) causes.now (failure_is failure) }
{
    let node = node_numbered(plan.root(), failure.node);
    let new = node_numbered(claimed.root(), failure.node);
    cause_at(claimed.is_total(), failure.rule, causes, node, new)
}

// Puts the node of a failure behind those of the causes, if it has no cause.
fn put_cause(causes: &mut Vec<u32>, node: u32, cause: Option<u32>) -> Result<(), AllocError>
    ensures { OnOk result (causes.new.items ≡ with_cause causes.old.items node cause) }
{
    if cause.is_none() {
        causes.push(node)?;
    }
    Ok(())
}

// The causes of failures of a plan, by the claims that follow.
fn causes_by(
    alloc: Global,
    plan: &TypedPlan,
    claimed: &TypedPlan,
    failures: &[Failure],
) -> Result<Vec<Option<u32>>, AllocError>
    ensures { IfOk result (λ v. v.items ≡ causes_of (resolved_of plan.now) (resolved_of claimed.now) (map failure_is failures.now)) }
{
    let mut causes = Vec::new(alloc);
    let mut found = Vec::new(alloc);
    for failure in failures {
        let cause = cause_of(plan, claimed, causes.as_slice(), *failure);
        put_cause(&mut causes, failure.node, cause)?;
        found.push(cause)?;
    }
    Ok(found)
}

// No cause for each failure.
fn no_causes(alloc: Global, failures: &[Failure]) -> Result<Vec<Option<u32>>, AllocError>
    ensures { IfOk result (λ v. v.items ≡ map (λ f. None) failures.now) }
{
    failures.iter().map(|_| None).collect(alloc)
}

/// Of each failure of a plan, in their order, the node of the failure that it comes of, if it comes of one: the first one
/// below it that comes of no other, if the failure goes away over the claims that follow below. Where the plan gets no
/// claims, no failure has a cause.
pub fn causes(
    alloc: Global,
    catalog: &Catalog,
    plan: Plan,
    typed: &TypedPlan,
    failures: &[Failure],
) -> Result<Vec<Option<u32>>, AllocError>
    ensures count { IfOk result (λ v. length v.items ≡ length failures.now) }
    ensures causes { IfOk result (λ v. AreCauses catalog.now (document_of plan) (resolved_of typed.now) (map failure_is failures.now) v.items) }
    ensures named { IfOk result (λ v. NamesCauses (resolved_of typed.now).root [] (map failure_is failures.now) v.items) }
{
    match annotated(alloc, catalog, plan)? {
        Some(claimed) => causes_by(alloc, typed, &claimed, failures),
        None => no_causes(alloc, failures),
    }
}
