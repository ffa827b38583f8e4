//! What is said of a plan whose total order does not follow.

use crate::checks::fitted;
use crate::fault::PlaceFault;
use crate::files::{catalog_at, plan_at};
use crate::with_input::WithInput;
use std::alloc::Global;
use vx_catalog_bytes::Store;
use vx_catalog_relations::Catalog;
use vx_check_annotate::{AnnotateFault, annotate, asking};
use vx_check_rules::Rule;
use vx_check_sentences::explanation;
use vx_plan_json::{Plan, PlanFault};

// The plan, which asks for what is known of its columns where that is said.
fn asking_if(alloc: Global, derive: bool, plan: Plan) -> Plan {
    if derive {
        return asking(alloc, plan);
    }
    plan
}

// The plan with the claims that follow, if there is one.
fn annotated(alloc: Global, catalog: &Catalog, plan: Plan) -> Result<Option<Plan>, PlaceFault> {
    match annotate(alloc, catalog, plan) {
        Ok(plan) => Ok(Some(plan)),
        Err(AnnotateFault::Plan(PlanFault::NoMemory)) => Err(PlaceFault::NoMemory),
        Err(_) => Ok(None),
    }
}

// Why the root of a plan with the claims that follow has no total order.
fn why_not_total(
    alloc: Global,
    catalog: &Catalog,
    plan: &Plan,
) -> Result<Option<String>, PlaceFault> {
    let Some(typed) = fitted(alloc, plan, catalog)? else {
        return Ok(None);
    };
    match explanation(alloc, &typed, 0, Rule::TotalNotShown)? {
        Some(said) => Ok(Some(said.shown)),
        None => Ok(None),
    }
}

/// Why the plan at one path over the catalog at the other has no total order, if it says that it has one and none follows with the
/// claims that do, also by what is known of columns where that is said.
pub fn dropped_total<F: Store>(
    alloc: Global,
    files: &F,
    input: Option<&[u8]>,
    catalog: &str,
    plan: &str,
    derive: bool,
) -> Result<Option<String>, PlaceFault> {
    let files = WithInput { files, input };
    let Some(catalog) = catalog_at(alloc, &files, catalog)? else {
        return Ok(None);
    };
    let Some(plan) = plan_at(alloc, &files, plan)? else {
        return Ok(None);
    };
    if !plan.is_total() {
        return Ok(None);
    }
    let asking = asking_if(alloc, derive, plan);
    match annotated(alloc, &catalog, asking)? {
        Some(plan) if !plan.is_total() => why_not_total(alloc, &catalog, &plan),
        _ => Ok(None),
    }
}
