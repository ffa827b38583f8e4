//! The plan of a document over a catalog that is judged and run.

ghost use Rattle.std.specs.Prelude.{◌≡◌};
ghost use Rattle.vx_plan_json.specs.Fault.{Gives};
ghost use Rattle.vx_plan_json.specs.PlanView.{document_of};
ghost use Rattle.vx_plan_nodes.specs.TypedView.{resolved_of};
ghost use Rattle.vx_check_directions.specs.Planned.{planned};

use crate::directing::direct;
use std::alloc::Global;
use vx_catalog_relations::Catalog;
use vx_plan::resolve;
use vx_plan_json::{Plan, PlanFault};
use vx_plan_nodes::TypedPlan;

/// The typed plan of a plan over a catalog that is judged and run: as it resolves, with its joins by merging in the directions
/// that its claims ask for. It is refused where it does not resolve.
pub fn planned(alloc: Global, plan: &Plan, catalog: &Catalog) -> Result<TypedPlan, PlanFault>
    ensures { Gives resolved_of result (planned (document_of plan.now) catalog.now) }
{
    let typed = resolve(alloc, plan, catalog)?;
    Ok(direct(alloc, typed)?)
}
