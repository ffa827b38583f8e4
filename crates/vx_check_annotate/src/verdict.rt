//! What the checker answers of a plan.

ghost use Rattle.std.specs.Prelude.{◌≡◌, true, false, is_none, IfOk};
ghost use Rattle.vx_plan_json.specs.PlanView.{document_of};
ghost use Rattle.vx_plan_nodes.specs.TypedView.{resolved_of};
ghost use Rattle.vx_check_annotate.specs.Verdict.{refusal_in, is_accepted, is_accepted_by_claims};

use std::alloc::{AllocError, Global};
use vx_catalog_relations::Catalog;
use vx_check_directions::direct;
use vx_check_rules::{CheckFault, check};
use vx_plan::resolve;
use vx_plan_json::{Plan, PlanFault};
use vx_plan_nodes::TypedPlan;

fn is_allowed(alloc: Global, typed: TypedPlan) -> Result<bool, AllocError>
    ensures { IfOk result (λ b. b ≡ is_none (refusal_in (resolved_of typed))) }
{
    match check(alloc, direct(alloc, typed)?) {
        Ok(_) => Ok(true),
        Err(CheckFault::Refused(_)) => Ok(false),
        Err(CheckFault::NoMemory(e)) => Err(e),
    }
}

/// Whether the plan fits the catalog and the rule table that it asks for shows all of its claims.
pub fn is_accepted(alloc: Global, catalog: &Catalog, plan: &Plan) -> Result<bool, AllocError>
    ensures { IfOk result (λ b. b ≡ is_accepted catalog.now (document_of plan.now)) }
{
    match resolve(alloc, plan, catalog) {
        Ok(typed) => is_allowed(alloc, typed),
        Err(PlanFault::NoMemory) => Err(AllocError),
        Err(_) => Ok(false),
    }
}

/// Whether the plan fits the catalog and the table of claims alone shows all of its claims, where it is not accepted if it
/// asks for what is known of its columns.
pub fn is_accepted_by_claims(
    alloc: Global,
    catalog: &Catalog,
    plan: &Plan,
) -> Result<bool, AllocError>
    requires { (document_of plan.now).derives ≡ true → is_accepted catalog.now (document_of plan.now) ≡ false }
    ensures { IfOk result (λ b. b ≡ is_accepted_by_claims catalog.now (document_of plan.now)) }
{
    let _relations = catalog.len();
    if plan.derives() {
        return Ok(false);
    }
    is_accepted(alloc, catalog, plan)
}
