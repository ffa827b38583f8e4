//! A plan with the claims that the rule table shows.

ghost use Rattle.std.specs.Prelude.{◌≡◌, ◌⊎◌, true, false, IfOk, IfErr};
ghost use Rattle.vx_plan_nodes.specs.TypedView.{resolved_of};
ghost use Rattle.vx_plan_json.specs.Fault.{Fails};
ghost use Rattle.vx_plan_json.specs.PlanView.{document_of};
ghost use Rattle.vx_plan.specs.Resolve.{resolved};
ghost use Rattle.vx_check_annotate.specs.Unclaimed.{unclaimed};
ghost use Rattle.vx_check_annotate.specs.Verdict.{is_accepted, is_accepted_by_claims};
ghost use Rattle.vx_check_annotate.specs.Telling.{tells, TellsDerived};
ghost use Rattle.vx_check_annotate.specs.Hinted.{IsHinted};
ghost use Rattle.vx_check_annotate.specs.Strongest.{TellsTheMost, TellsTheMostDerived};
ghost use Rattle.vx_check_annotate.specs.Fault.{IsReason};

use crate::fault::AnnotateFault;
use crate::found_plan::{Judged, derived, judge};
use crate::keeping::{accepted_plan, claims_as_much, restored};
use crate::naming::Naming;
use crate::possible::possible;
use crate::rewriting::claimed_plan;
use crate::verdict::{is_accepted, is_accepted_by_claims};
use std::alloc::{AllocError, Global};
use vx_catalog_relations::Catalog;
use vx_check_options::found_claims;
use vx_plan::resolve;
use vx_plan_json::{Plan, PlanFault};
use vx_plan_nodes::TypedPlan;

// The plan whose claims are kept, and its typed plan: the plan as it is, if it is accepted by claims alone, else without
// its claims.
fn hinted(alloc: Global, catalog: &Catalog, plan: Plan) -> Result<(TypedPlan, Plan), PlanFault>
    requires { (document_of plan).derives ≡ true → is_accepted catalog.now (document_of plan) ≡ false }
    ensures hinted { IfOk result (λ r. IsHinted catalog.now (document_of plan) (resolved_of r.0)) }
    ensures same { IfOk result (λ r. unclaimed (document_of r.1) ≡ unclaimed (document_of plan)) }
    ensures fault { IfErr result (λ e. Fails e (resolved (unclaimed (document_of plan)) catalog.now)) }
{
    let _relations = catalog.len();
    if is_accepted_by_claims(alloc, catalog, &plan)? {
        let typed = accepted_plan(alloc, catalog, &plan)?;
        return Ok((typed, plan));
    }
    let bare = claimed_plan(alloc, Vec::new(alloc), false, plan);
    let typed = resolve(alloc, &bare, catalog)?;
    Ok((typed, bare))
}

// The plan with its claims, and whether it is total, replaced by what the table of claims alone shows.
fn annotated_by_claims(alloc: Global, catalog: &Catalog, plan: Plan) -> Result<Plan, AnnotateFault>
    requires { (document_of plan).derives ≡ false }
    ensures same { IfOk result (λ p. unclaimed (document_of p) ≡ unclaimed (document_of plan)) }
    ensures accepted { IfOk result (λ p. is_accepted_by_claims catalog.now (document_of p) ≡ true) }
    ensures telling { is_accepted_by_claims catalog.now (document_of plan) ≡ true → IfOk result (λ p. tells (document_of p) (document_of plan) ≡ true) }
    ensures strongest { IfOk result (λ p. TellsTheMost catalog.now (document_of p)) }
    ensures refused { IfErr result (λ e. IsReason catalog.now (document_of plan) e) }
{
    let _relations = catalog.len();
    let (typed, kept) = hinted(alloc, catalog, plan)?;
    let typed = possible(alloc, typed)?;
    let (claims, is_total) = found_claims(alloc, typed.catalog(), typed.root())?;
    let naming = Naming {
        ranges: typed.ranges(),
    };
    let named = naming.named_claims(alloc, claims, typed.root())?;
    let found = claimed_plan(alloc, named, is_total, kept);
    let Judged { plan, refusal } = judge(alloc, catalog, found)?;
    match refusal {
        None => Ok(plan),
        Some((node, rule)) => Err(AnnotateFault::Rule { node, rule }),
    }
}

// The plan with the claims that the second table shows, where it is not accepted with its own.
fn annotated_anew(alloc: Global, catalog: &Catalog, plan: Plan) -> Result<Plan, AnnotateFault>
    requires derives { (document_of plan).derives ≡ true }
    requires refused { is_accepted catalog.now (document_of plan) ≡ false }
    ensures same { IfOk result (λ p. unclaimed (document_of p) ≡ unclaimed (document_of plan)) }
    ensures accepted { IfOk result (λ p. is_accepted catalog.now (document_of p) ≡ true) }
    ensures derived { IfOk result (λ p. TellsTheMostDerived catalog.now (document_of p)) }
    ensures refused { IfErr result (λ e. IsReason catalog.now (document_of plan) e) }
{
    let Judged { plan, refusal } = derived(alloc, catalog, plan)?;
    match refusal {
        None => Ok(plan),
        Some((node, rule)) => Err(AnnotateFault::Rule { node, rule }),
    }
}

// The same of an accepted plan, which stays as it is where those claims are not accepted, or do not tell all that it claims.
fn annotated_again(alloc: Global, catalog: &Catalog, plan: Plan) -> Result<Plan, PlanFault>
    requires { is_accepted catalog.now (document_of plan) ≡ true }
    ensures same { IfOk result (λ p. unclaimed (document_of p) ≡ unclaimed (document_of plan)) }
    ensures accepted { IfOk result (λ p. is_accepted catalog.now (document_of p) ≡ true) }
    ensures telling { IfOk result (λ p. TellsDerived catalog.now (document_of p) (document_of plan)) }
    ensures derived { IfOk result (λ p. TellsTheMostDerived catalog.now (document_of p) ⊎ (document_of p ≡ document_of plan)) }
    ensures fault { IfErr result (λ e. Fails e (resolved (unclaimed (document_of plan)) catalog.now)) }
{
    let given = accepted_plan(alloc, catalog, &plan)?;
    let Judged { plan, refusal } = derived(alloc, catalog, plan)?;
    if refusal.is_none() && claims_as_much(alloc, catalog, &plan, &given)? {
        return Ok(plan);
    }
    Ok(restored(alloc, catalog, plan, &given)?)
}

// The claims of a plan that asks for what is known of its columns.
fn annotated_by_facts(alloc: Global, catalog: &Catalog, plan: Plan) -> Result<Plan, AnnotateFault>
    requires { (document_of plan).derives ≡ true }
    ensures same { IfOk result (λ p. unclaimed (document_of p) ≡ unclaimed (document_of plan)) }
    ensures accepted { IfOk result (λ p. is_accepted catalog.now (document_of p) ≡ true) }
    ensures telling { is_accepted catalog.now (document_of plan) ≡ true → IfOk result (λ p. TellsDerived catalog.now (document_of p) (document_of plan)) }
    ensures derived { IfOk result (λ p. TellsTheMostDerived catalog.now (document_of p) ⊎ ((document_of p ≡ document_of plan) × (is_accepted catalog.now (document_of plan) ≡ true))) }
    ensures refused { IfErr result (λ e. IsReason catalog.now (document_of plan) e) }
{
    let is_accepted = is_accepted(alloc, catalog, &plan)?;
    if is_accepted {
        return Ok(annotated_again(alloc, catalog, plan)?);
    }
    annotated_anew(alloc, catalog, plan)
}

/// The plan with its claims, and whether it is total, replaced by what a rule table shows: at each node a part that tells the
/// most, the longest order, and the minimal keys, 16 at most; and total where the root's order is. The refusal is the first one
/// of the plan without claims, or else a node that keeps it from being accepted.
///
/// A plan that is judged by claims alone gets what the table of claims shows: parts with which the operators above them fit, and
/// the first 16 keys. What it claims is kept, if it is accepted: each of its claims is told by the new one. It is refused at the
/// first node that no claims can save, or that is a limit whose first rows those claims leave open.
///
/// A plan that asks for what is known of its columns gets what the table of columns shows, over the inputs' claims, also by
/// equal columns and by what is determined. If it is accepted, and those claims are not or do not tell all that it claims, it
/// stays as it is. It is refused where it is not accepted and that table refuses those claims.
pub fn annotate(alloc: Global, catalog: &Catalog, plan: Plan) -> Result<Plan, AnnotateFault>
    ensures same { IfOk result (λ p. unclaimed (document_of p) ≡ unclaimed (document_of plan)) }
    ensures accepted { IfOk result (λ p. is_accepted catalog.now (document_of p) ≡ true) }
    ensures telling { (document_of plan).derives ≡ false → is_accepted catalog.now (document_of plan) ≡ true → IfOk result (λ p. tells (document_of p) (document_of plan) ≡ true) }
    ensures telling_derived { (document_of plan).derives ≡ true → is_accepted catalog.now (document_of plan) ≡ true → IfOk result (λ p. TellsDerived catalog.now (document_of p) (document_of plan)) }
    ensures strongest { (document_of plan).derives ≡ false → IfOk result (λ p. TellsTheMost catalog.now (document_of p)) }
    ensures derived { (document_of plan).derives ≡ true
        → IfOk result (λ p. TellsTheMostDerived catalog.now (document_of p) ⊎ ((document_of p ≡ document_of plan) × (is_accepted catalog.now (document_of plan) ≡ true))) }
    ensures refused { IfErr result (λ e. IsReason catalog.now (document_of plan) e) }
{
    let _relations = catalog.len();
    if plan.derives() {
        return annotated_by_facts(alloc, catalog, plan);
    }
    annotated_by_claims(alloc, catalog, plan)
}
