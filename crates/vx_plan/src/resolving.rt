//! A plan over a catalog: sizes, then ranges, then nodes in post-order.

ghost use Rattle.std.specs.Prelude.{◌≡◌, map, string_bytes};
ghost use Rattle.vx_plan_json.specs.Fault.{Gives};
ghost use Rattle.vx_rows_values.specs.Ranges.{range_form};
ghost use Rattle.vx_plan_json.specs.PlanView.{document_of};
ghost use Rattle.vx_plan.specs.Resolve.{is_bad_size, test_sizes, test_ranges, resolved};
ghost use Rattle.vx_plan_nodes.specs.TypedView.{resolved_of};
ghost use Rattle.vx_plan.specs.Exact.{PlanLaw};

use crate::columns::copied_names;
use crate::fits::is_range;
use crate::lookup::{Declared, has_name};
use crate::nodes::typed_in;
use std::alloc::{AllocFailed, Global};
use std::collections::BTreeSet;
use vx_catalog_relations::Catalog;
use vx_plan_json::{Plan, PlanFault};
use vx_plan_nodes::TypedPlan;
use vx_rows_values::limits::MAX_SIZE_NAMES;
use vx_rows_values::{NamedRange, copied_ranges};

fn is_bad_size(before: &[String], name: &str) -> bool
    ensures { result ≡ is_bad_size (map string_bytes before.now) name.now }
{
    before.len() >= MAX_SIZE_NAMES || name == "one" || has_name(before, name)
}

// No size name is `one`, stands twice or is the 17th.
#[tactic(auto, unfolding(crate::specs::Resolve::test_sizes), using(crate::proofs::TestFacts::test_steps))]
fn test_sizes(alloc: Global, sizes: &[String]) -> Result<(), PlanFault>
    ensures { Gives (λ _. tt) result (test_sizes (map string_bytes sizes.now)) }
{
    for i in 0..sizes.len() {
        let name = sizes[i].as_str();
        if is_bad_size(&sizes[..i], name) {
            return Err(PlanFault::BadSize {
                name: String::from_str(alloc, name)?,
            });
        }
    }
    Ok(())
}

// No range stands twice or has bad bounds.
#[tactic(auto, unfolding(crate::specs::Resolve::test_ranges), using(crate::proofs::TestFacts::test_steps))]
fn test_ranges(alloc: Global, ranges: &[NamedRange]) -> Result<(), PlanFault>
    ensures { Gives (λ _. tt) result (test_ranges (map range_form ranges.now)) }
{
    let mut seen = BTreeSet::new(alloc);
    for i in 0..ranges.len() {
        let range = &ranges[i];
        let is_new = seen.insert(range.name.as_str())?;
        if !is_new || !is_range(range.bounds.as_slice()) {
            return Err(PlanFault::BadRange {
                name: String::from_str(alloc, range.name.as_str())?,
            });
        }
    }
    Ok(())
}

/// The typed plan of a plan over a catalog: column positions, types, and preorder numbers of nodes, the left input
/// before the right one. The refusal is the first: the sizes' `BadSize`, the ranges' `BadRange`, then the nodes in
/// post-order. At a node `PhaseMismatch` comes first: of a final group over no partial one, or over a partial sort on a column that
/// the partial one does not group by; of a partial group from which no way up through exchanges and partial sorts alone leads to a
/// final one; and of a partial sort that stands on no such way. Then the tests of its operator come before those of its claim,
/// each in the order `UnknownRelation`, `BadSize`, `UnknownRange`, `UnknownColumn`, `DuplicateColumn`, `TooWide`, `TypeMismatch`.
#[tactic(auto, unfolding(crate::specs::Resolve::resolved))]
pub fn resolve(alloc: Global, plan: &Plan, catalog: &Catalog) -> Result<TypedPlan, PlanFault>
    ensures { Gives resolved_of result (resolved (document_of plan.now) catalog.now) }
{
    let declared = Declared {
        catalog,
        ranges: plan.ranges(),
        sizes: plan.sizes(),
    };
    test_sizes(alloc, declared.sizes)?;
    test_ranges(alloc, declared.ranges)?;
    let (root, _) = typed_in(alloc, &declared, false, 0, plan.root())?;
    let _relations = catalog.len();
    let own = catalog.share()?;
    let sizes = copied_names(alloc, declared.sizes)?;
    let ranges = copied_ranges(alloc, declared.ranges)?;
    let (total, derives) = (plan.is_total(), plan.derives());
    Ok(TypedPlan::new(own, sizes, ranges, total, derives, root))
}

/// The law of resolving: a plan resolves to a typed plan exactly where the typed plan is over the catalog, typed and well named, and
/// the plan is what the typed one says with names in place of positions. It does nothing.
pub fn plans_are_resolved_exactly()
    ensures { PlanLaw }
{}
