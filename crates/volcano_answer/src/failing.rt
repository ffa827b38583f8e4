//! Checks of all nodes of a plan.

ghost use Rattle.std.specs.Prelude.{IfOk};
ghost use Rattle.vx_plan_nodes.specs.TypedView.{resolved_of};
ghost use Rattle.vx_plan_json.specs.PlanView.{document_of};
ghost use Rattle.volcano_answer.specs.VerdictView.{IsVerdict};

use std::alloc::{AllocError, Global};
use vx_catalog_relations::Catalog;
use vx_check::accepted_text;
use vx_check_causes::report;
use vx_plan_json::Plan;
use vx_plan_nodes::TypedPlan;

/// What the checker says of all nodes of a plan.
#[derive(Drop)]
pub enum Findings {
    /// Each note follows. With the text that says so.
    Accepted(Vec<u8>),
    /// A line for each node that fails, those that fail because of another behind that one.
    Failing(String),
}

/// What the checker says of all nodes of a plan, the typed plan of this document over the catalog.
pub fn verdict_on(
    alloc: Global,
    catalog: &Catalog,
    document: Plan,
    plan: &TypedPlan,
) -> Result<Findings, AllocError>
    ensures { IfOk result (IsVerdict catalog.now (document_of document) (resolved_of plan.now)) }
{
    match report(alloc, catalog, document, plan)? {
        None => Ok(Findings::Accepted(accepted_text(alloc, plan.is_total())?)),
        Some(lines) => Ok(Findings::Failing(lines)),
    }
}
