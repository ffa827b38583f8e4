//! Whether claims that are found keep what an accepted plan claims, and a plan whose own claims are put back.

ghost use Rattle.std.specs.Prelude.{◌≡◌, true, Ok, IfOk};
ghost use Rattle.vx_plan_nodes.specs.TypedView.{resolved_of};
ghost use Rattle.vx_plan_json.specs.Document.{Document};
ghost use Rattle.vx_plan_json.specs.PlanView.{document_of};
ghost use Rattle.vx_plan.specs.Resolve.{resolved};
ghost use Rattle.vx_check_annotate.specs.Verdict.{is_accepted};
ghost use Rattle.vx_check_annotate.specs.Telling.{TellsDerived};
ghost use Rattle.vx_check_annotate.specs.Deriving.{IsGiven};

use crate::naming::Naming;
use crate::rewriting::claimed_plan;
use std::alloc::{AllocError, Global};
use vx_catalog_relations::Catalog;
use vx_check_keeping::does_tell;
use vx_plan::resolve;
use vx_plan_json::Plan;
use vx_plan_nodes::TypedPlan;

/// The typed plan of a plan that is accepted.
pub fn accepted_plan(alloc: Global, catalog: &Catalog, plan: &Plan) -> Result<TypedPlan, AllocError>
    requires { is_accepted catalog.now (document_of plan.now) ≡ true }
    ensures { IfOk result (λ t. resolved (document_of plan.now) catalog.now ≡ Ok (resolved_of t)) }
{
    match resolve(alloc, plan, catalog) {
        Ok(typed) => Ok(typed),
        Err(_) => Err(AllocError),
    }
}

/// Whether an accepted plan claims at least as much as the typed plan of one that differs in claims alone, and is total
/// where that one is.
pub fn claims_as_much(
    alloc: Global,
    catalog: &Catalog,
    plan: &Plan,
    given: &TypedPlan,
) -> Result<bool, AllocError>
    requires accepted { is_accepted catalog.now (document_of plan.now) ≡ true }
    requires given { (d : Document) × IsGiven catalog.now d (document_of plan.now) (resolved_of given.now) }
    ensures { (d : Document) → IsGiven catalog.now d (document_of plan.now) (resolved_of given.now) → IfOk result (λ b. b ≡ true → TellsDerived catalog.now (document_of plan.now) d) }
{
    let _relations = catalog.len();
    let typed = accepted_plan(alloc, catalog, plan)?;
    if given.is_total() && !typed.is_total() {
        return Ok(false);
    }
    does_tell(alloc, &typed, given)
}

/// The plan with the claims of the typed plan of one that differs in claims alone.
pub fn restored(
    alloc: Global,
    catalog: &Catalog,
    plan: Plan,
    given: &TypedPlan,
) -> Result<Plan, AllocError>
    requires { (d : Document) × IsGiven catalog.now d (document_of plan) (resolved_of given.now) }
    ensures { (d : Document) → IsGiven catalog.now d (document_of plan) (resolved_of given.now) → IfOk result (λ p. document_of p ≡ d) }
{
    let _relations = catalog.len();
    let naming = Naming {
        ranges: given.ranges(),
    };
    let named = naming.own_claims(alloc, given.root())?;
    Ok(claimed_plan(alloc, named, given.is_total(), plan))
}
