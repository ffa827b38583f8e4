//! Plans over a catalog.

use std::alloc::Global;
use std::test::Fail;
use vx_catalog_relations::Catalog;
use vx_check_rules::{CheckedPlan, check};
use vx_plan::resolve;
use vx_plan_json::Plan;

/// The plan of a text over a catalog, as the checker accepts it.
pub fn accepted(alloc: Global, catalog: &Catalog, text: &str) -> Result<CheckedPlan, Fail> {
    let plan = Plan::read(alloc, text.as_bytes())?;
    match check(alloc, resolve(alloc, &plan, catalog)?) {
        Ok(plan) => Ok(plan),
        Err(_) => Err(Fail::new("the plan is accepted")),
    }
}
