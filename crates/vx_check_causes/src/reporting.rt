//! What is said of the nodes of a plan that fail.

ghost use Rattle.std.specs.Prelude.{IfOk};
ghost use Rattle.vx_plan_json.specs.PlanView.{document_of};
ghost use Rattle.vx_check_causes.specs.ReportView.{IsReport};

use crate::finding::causes;
use std::alloc::{AllocError, Global};
use vx_catalog_relations::Catalog;
use vx_check_failures::{failures, grouped_lines};
use vx_plan_json::Plan;
use vx_plan_nodes::TypedPlan;

/// A line for each node that fails of the typed plan of a plan, as the program reports one that is refused, with the claim that the rule table
/// shows there in place of the node's own; nothing where none fails. A failure that comes of another stands behind it.
pub fn report(
    alloc: Global,
    catalog: &Catalog,
    plan: Plan,
    typed: &TypedPlan,
) -> Result<Option<String>, AllocError>
    ensures { IfOk result (IsReport catalog.now (document_of plan) typed.now) }
{
    let failures = failures(alloc, typed)?;
    if failures.is_empty() {
        return Ok(None);
    }
    let causes = causes(alloc, catalog, plan, typed, failures.as_slice())?;
    let lines = grouped_lines(alloc, typed, failures.as_slice(), causes.as_slice())?;
    Ok(Some(lines))
}
