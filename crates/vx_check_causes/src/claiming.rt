//! The plan with the claims that follow at each node.

ghost use Rattle.std.specs.Prelude.{◌≡◌, true, Ok, IfOk, MatchOption};
ghost use Rattle.vx_plan_nodes.specs.TypedView.{resolved_of};
ghost use Rattle.vx_plan_json.specs.PlanView.{document_of};
ghost use Rattle.vx_plan.specs.Resolve.{resolved};
ghost use Rattle.vx_check_annotate.specs.Verdict.{is_accepted};
ghost use Rattle.vx_check_causes.specs.Causes.{is_memory, IsAnnotated, HasNoClaims};

use std::alloc::{AllocError, Global};
use vx_catalog_relations::Catalog;
use vx_check_annotate::{AnnotateFault, annotate};
use vx_plan::resolve;
use vx_plan_json::{Plan, PlanFault};
use vx_plan_nodes::TypedPlan;

// Whether memory ran out.
fn is_memory(fault: &AnnotateFault) -> bool
    ensures { result ≡ is_memory fault.now }
{
    match fault {
        AnnotateFault::Plan(fault) => match fault {
            PlanFault::NoMemory => true,
            _ => false,
        },
        AnnotateFault::Rule { .. } => false,
    }
}

// The typed plan of a plan that is accepted.
fn resolved_again(alloc: Global, catalog: &Catalog, plan: &Plan) -> Result<TypedPlan, AllocError>
    requires { is_accepted catalog.now (document_of plan.now) ≡ true }
    ensures { IfOk result (λ t. resolved (document_of plan.now) catalog.now ≡ Ok (resolved_of t)) }
{
    match resolve(alloc, plan, catalog) {
        Ok(typed) => Ok(typed),
        Err(_) => Err(AllocError),
    }
}

/// The plan with the claims that follow at each node, by the rule table that it asks for, if it gets any.
pub fn annotated(
    alloc: Global,
    catalog: &Catalog,
    plan: Plan,
) -> Result<Option<TypedPlan>, AllocError>
    ensures { IfOk result (λ o. MatchOption o (HasNoClaims catalog.now (document_of plan)) (λ t. IsAnnotated catalog.now (document_of plan) (resolved_of t))) }
{
    match annotate(alloc, catalog, plan) {
        Ok(claimed) => {
            let typed = resolved_again(alloc, catalog, &claimed)?;
            Ok(Some(typed))
        }
        Err(fault) => {
            if is_memory(&fault) {
                return Err(AllocError);
            }
            Ok(None)
        }
    }
}
