//! The plan that is judged and run.

ghost use Rattle.std.specs.Prelude.{◌≡◌, IfOk};
ghost use Rattle.vx_plan_nodes.specs.TypedView.{resolved_of};
ghost use Rattle.vx_check_directions.specs.Directed.{directed_view};

use crate::finding::all_falls;
use crate::turning::turn;
use std::alloc::{AllocError, Global};
use vx_plan_nodes::{TypedParts, TypedPlan};

/// The plan whose joins by merging compare in the directions that the claimed orders of their inputs ask for, in place of those
/// that it has. Of each pair that is the direction of the left column, or else of the right one; a column that earlier ones
/// determine asks for none, if the plan asks for what is known of its columns. A pair for which neither asks rises.
pub fn direct(alloc: Global, plan: TypedPlan) -> Result<TypedPlan, AllocError>
    ensures { IfOk result (λ p. resolved_of p ≡ directed_view (resolved_of plan)) }
{
    let falls = all_falls(alloc, &plan)?;
    let parts = plan.into_parts();
    let TypedParts {
        catalog,
        sizes,
        ranges,
        total,
        derives,
        root,
    } = parts;
    let mut root = root;
    turn(alloc, falls.as_slice(), &mut root)?;
    Ok(TypedPlan::new(catalog, sizes, ranges, total, derives, root))
}
