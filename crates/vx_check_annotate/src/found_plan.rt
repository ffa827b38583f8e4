//! A plan with the claims that the second rule table shows, by what is known of columns.

ghost use Rattle.std.specs.Prelude.{◌≡◌, true, Ok, option_map, IfOk, IfErr};
ghost use Rattle.vx_plan_nodes.specs.Plan as nodes;
ghost use Rattle.vx_plan_nodes.specs.Names.{TypedPlanView};
ghost use Rattle.vx_plan_nodes.specs.TypedView.{resolved_of};
ghost use Rattle.vx_plan_json.specs.Document.{Document};
ghost use Rattle.vx_plan_json.specs.Fault.{Fails};
ghost use Rattle.vx_plan_json.specs.PlanView.{document_of};
ghost use Rattle.vx_plan.specs.Resolve.{resolved};
ghost use Rattle.vx_check_rules.specs.RuleView.{refusal_of};
ghost use Rattle.vx_check_annotate.specs.Unclaimed.{unclaimed};
ghost use Rattle.vx_check_annotate.specs.Verdict.{refusal_in, refused};
ghost use Rattle.vx_check_annotate.specs.Strongest.{TellsTheMostDerived};
ghost use Rattle.vx_check_annotate.specs.Deriving.{AreClaimsFor, IsWritten, HasPlan, HasKeys};

use crate::naming::Naming;
use crate::rewriting::claimed_plan;
use crate::staying::do_keys_stay;
use std::alloc::{AllocError, Global};
use vx_catalog_relations::Catalog;
use vx_check_directions::direct;
use vx_check_rules::{CheckFault, Rule, check};
use vx_check_shown::{found_claims, keyed_claims};
use vx_plan::resolve;
use vx_plan_json::{Plan, PlanFault};
use vx_plan_nodes::{Claim, TypedPlan};
use vx_rows_values::limits::MAX_NODES;

// A plan, and the typed plan that it resolves to.
#[derive(Drop)]
struct Resolved {
    typed: TypedPlan,
    plan: Plan,
}

// The plan with these claims of its nodes in place of its own, and said to be total or not.
fn written(
    alloc: Global,
    catalog: &Catalog,
    typed: &TypedPlan,
    plan: Plan,
    claims: Vec<Claim>,
    is_total: bool,
) -> Result<Resolved, AllocError>
    requires resolves { resolved (document_of plan) catalog.now ≡ Ok (resolved_of typed.now) }
    requires claims { (x : nodes.Plan) × AreClaimsFor (resolved_of typed.now) claims.items x }
    ensures same { IfOk result (λ r. unclaimed (document_of r.plan) ≡ unclaimed (document_of plan)) }
    ensures written { (x : nodes.Plan) → AreClaimsFor (resolved_of typed.now) claims.items x → IfOk result (λ r. IsWritten catalog.now (document_of r.plan) is_total x (resolved_of r.typed)) }
{
    let _relations = catalog.len();
    let naming = Naming {
        ranges: typed.ranges(),
    };
    let named = naming.named_claims(alloc, claims, typed.root())?;
    let plan = claimed_plan(alloc, named, is_total, plan);
    match resolve(alloc, &plan, catalog) {
        Ok(typed) => Ok(Resolved { typed, plan }),
        Err(_) => Err(AllocError),
    }
}

// A plan with keys, and whether they are those of the plan over which they were found.
#[derive(Drop)]
struct Round {
    found: Resolved,
    is_settled: bool,
}

// The plan with the keys that are shown over those that it claims, and no other claims.
fn keyed(alloc: Global, catalog: &Catalog, given: Resolved) -> Result<Round, AllocError>
    requires { (d : Document) × HasPlan catalog.now d (document_of given.plan) (resolved_of given.typed) }
    ensures { (d : Document) → HasPlan catalog.now d (document_of given.plan) (resolved_of given.typed)
        → IfOk result (λ r. HasKeys catalog.now d (document_of r.found.plan) (resolved_of r.found.typed)) }
{
    let _relations = catalog.len();
    let Resolved { typed, plan } = given;
    let claims = keyed_claims(alloc, &typed)?;
    let found = written(alloc, catalog, &typed, plan, claims, false)?;
    let is_settled = do_keys_stay(typed.root(), found.typed.root());
    Ok(Round { found, is_settled })
}

// The same again, until the keys stay as they are, but only so many times.
fn settled(
    alloc: Global,
    catalog: &Catalog,
    rounds: u32,
    given: Round,
) -> Result<Resolved, AllocError>
    requires { (d : Document) × HasKeys catalog.now d (document_of given.found.plan) (resolved_of given.found.typed) }
    ensures { (d : Document) → HasKeys catalog.now d (document_of given.found.plan) (resolved_of given.found.typed)
        → IfOk result (λ r. HasKeys catalog.now d (document_of r.plan) (resolved_of r.typed)) }
{
    let Round { found, is_settled } = given;
    if is_settled || rounds == 0 {
        return Ok(found);
    }
    let next = keyed(alloc, catalog, found)?;
    settled(alloc, catalog, rounds - 1, next)
}

// The plan with all keys that are shown, and no other claims. A key of a node may become shorter by keys that were found
// below it, so that the keys are found again, but no more often than a plan can have nodes.
fn keyed_plan(alloc: Global, catalog: &Catalog, plan: Plan) -> Result<Resolved, PlanFault>
    ensures keys { IfOk result (λ r. HasKeys catalog.now (document_of plan) (document_of r.plan) (resolved_of r.typed)) }
    ensures fault { IfErr result (λ e. Fails e (resolved (unclaimed (document_of plan)) catalog.now)) }
{
    let _relations = catalog.len();
    let plan = claimed_plan(alloc, Vec::new(alloc), false, plan);
    let typed = resolve(alloc, &plan, catalog)?;
    let first = keyed(alloc, catalog, Resolved { typed, plan })?;
    Ok(settled(alloc, catalog, MAX_NODES, first)?)
}

// What the checker refuses of a typed plan, if anything.
fn refusal(alloc: Global, typed: TypedPlan) -> Result<Option<(u32, Rule)>, AllocError>
    ensures { IfOk result (λ o. option_map refusal_of o ≡ refusal_in (resolved_of typed)) }
{
    match check(alloc, direct(alloc, typed)?) {
        Ok(_) => Ok(None),
        Err(CheckFault::Refused(refused)) => Ok(Some((refused.node, refused.rule))),
        Err(CheckFault::NoMemory(e)) => Err(e),
    }
}

/// A plan with claims that were found, and what the checker refuses of it, if anything.
#[derive(Drop)]
pub struct Judged {
    pub plan: Plan,
    pub refusal: Option<(u32, Rule)>,
}

/// What the checker refuses of a plan that fits the catalog, if anything.
pub fn judge(alloc: Global, catalog: &Catalog, plan: Plan) -> Result<Judged, AllocError>
    requires { (p : TypedPlanView) × (resolved (document_of plan) catalog.now ≡ Ok p) }
    ensures plan { IfOk result (λ r. document_of r.plan ≡ document_of plan) }
    ensures refusal { IfOk result (λ r. option_map refusal_of r.refusal ≡ refused catalog.now (document_of plan)) }
{
    match resolve(alloc, &plan, catalog) {
        Ok(typed) => {
            let refusal = refusal(alloc, typed)?;
            Ok(Judged { plan, refusal })
        }
        Err(_) => Err(AllocError),
    }
}

/// The plan with its claims, and whether it is total, replaced by what the second rule table shows, whether or not the table
/// then accepts it.
pub fn derived(alloc: Global, catalog: &Catalog, plan: Plan) -> Result<Judged, PlanFault>
    ensures same { IfOk result (λ r. unclaimed (document_of r.plan) ≡ unclaimed (document_of plan)) }
    ensures strongest { IfOk result (λ r. TellsTheMostDerived catalog.now (document_of r.plan)) }
    ensures refusal { IfOk result (λ r. option_map refusal_of r.refusal ≡ refused catalog.now (document_of r.plan)) }
    ensures fault { IfErr result (λ e. Fails e (resolved (unclaimed (document_of plan)) catalog.now)) }
{
    let _relations = catalog.len();
    let Resolved { typed, plan } = keyed_plan(alloc, catalog, plan)?;
    let (claims, is_total) = found_claims(alloc, &typed)?;
    let Resolved { typed, plan } = written(alloc, catalog, &typed, plan, claims, is_total)?;
    let refusal = refusal(alloc, typed)?;
    Ok(Judged { plan, refusal })
}
