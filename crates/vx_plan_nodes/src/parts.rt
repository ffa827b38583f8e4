//! Parts in memory of their own.

ghost use Rattle.std.specs.Prelude.{◌≡◌, IfOk};
ghost use Rattle.vx_plan_nodes.specs.Plan.{routed};
ghost use Rattle.vx_plan_nodes.specs.Outline.{route_of, part_of, kind_of};
ghost use Rattle.vx_plan_nodes.specs.Parts.{kind_part};

use crate::typed::{ExchangeKind, Part, Route};
use std::alloc::{AllocError, Global};

fn copied_route(alloc: Global, route: &Route) -> Result<Route, AllocError>
    ensures { IfOk result (λ r. route_of r ≡ route_of route.now) }
{
    match route {
        Route::Hash(name) => Ok(Route::Hash(String::from_str(alloc, name.as_str())?)),
        Route::Range(range) => Ok(Route::Range(*range)),
    }
}

/// A part that is routed so, on these columns.
pub fn routed_part(alloc: Global, route: &Route, columns: Vec<usize>) -> Result<Part, AllocError>
    ensures { IfOk result (λ p. part_of p ≡ routed (route_of route.now) columns.items) }
{
    Ok(Part::Routed(copied_route(alloc, route)?, columns))
}

/// The same part in memory of its own.
pub fn copied_part(alloc: Global, part: &Part) -> Result<Part, AllocError>
    ensures { IfOk result (λ p. part_of p ≡ part_of part.now) }
{
    match part {
        Part::One => Ok(Part::One),
        Part::Any => Ok(Part::Any),
        Part::All => Ok(Part::All),
        Part::Routed(route, columns) => routed_part(
            alloc,
            route,
            Vec::from_slice(alloc, columns.as_slice())?,
        ),
    }
}

/// The part that an exchange of this kind shows.
pub fn kind_part(alloc: Global, kind: &ExchangeKind) -> Result<Part, AllocError>
    ensures { IfOk result (λ p. part_of p ≡ kind_part (kind_of kind.now)) }
{
    match kind {
        ExchangeKind::Route(_, route, columns) => routed_part(
            alloc,
            route,
            Vec::from_slice(alloc, columns.as_slice())?,
        ),
        ExchangeKind::Round(_) => Ok(Part::Any),
        ExchangeKind::Broadcast(_) => Ok(Part::All),
        ExchangeKind::Gather | ExchangeKind::Concat => Ok(Part::One),
    }
}
