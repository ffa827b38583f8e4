//! How the exchanges of each kind deal their rows.

ghost use Rattle.std.specs.Prelude.{◌≡◌, true, IfOk};
ghost use Rattle.vx_plan_nodes.specs.Outline.{kind_of, route_of};
ghost use Rattle.vx_plan_nodes.specs.Typed.{is_kind, is_routed};
ghost use Rattle.vx_plan_nodes.specs.TypedView.{scope};
ghost use Rattle.vx_exchange.specs.Lanes.{kind_of as kind_dealt, bounds_of};
ghost use Rattle.vx_exchange.specs.Routed.{key_route, key_columns, key_bounds};
ghost use Rattle.vx_exec.specs.Bounds.{route_bounds, kind_bounds};

use crate::job::Job;
use std::alloc::{AllocError, Global};
use vx_exchange::{Deal, KeyRoute, Ranges};
use vx_plan_nodes::{ExchangeKind, Route};
use vx_rows_values::{ColType, copied_values};

impl<F: Copy> Job<'_, F> {
    // The route of rows of these types by their values in some columns.
    fn key_route(
        &self,
        alloc: Global,
        types: &[ColType],
        route: &Route,
        columns: &[usize],
    ) -> Result<KeyRoute, AllocError>
        requires { is_routed (scope self.now.plan.now) types.now (route_of route.now) columns.now ≡ true }
        ensures route { IfOk result (λ r. key_route r ≡ route_of route.now) }
        ensures columns { IfOk result (λ r. key_columns r ≡ columns.now) }
        ensures bounds { IfOk result (λ r. key_bounds r ≡ route_bounds (scope self.now.plan.now).ranges (route_of route.now)) }
    {
        match route {
            Route::Hash(name) => {
                let name = String::from_str(alloc, name.as_str())?;
                let columns = Vec::from_slice(alloc, columns)?;
                Ok(KeyRoute::Hash(name, columns))
            }
            Route::Range(number) => {
                let range = &self.plan().ranges()[*number];
                let bounds = copied_values(alloc, range.bounds.as_slice())?;
                Ok(KeyRoute::Range(*number, Ranges::new(bounds), columns[0]))
            }
        }
    }

    /// How the producers of an exchange of this kind deal rows of these types.
    pub fn deal_of(
        &self,
        alloc: Global,
        types: &[ColType],
        kind: &ExchangeKind,
    ) -> Result<Deal, AllocError>
        requires { is_kind (scope self.now.plan.now) types.now (kind_of kind.now) ≡ true }
        ensures kind { IfOk result (λ d. kind_dealt d ≡ kind_of kind.now) }
        ensures bounds { IfOk result (λ d. bounds_of d ≡ kind_bounds (scope self.now.plan.now).ranges (kind_of kind.now)) }
    {
        match kind {
            ExchangeKind::Route(size, route, columns) => {
                let route = self.key_route(alloc, types, route, columns.as_slice())?;
                Ok(Deal::Route(*size, route))
            }
            ExchangeKind::Round(size) => Ok(Deal::Round(*size)),
            ExchangeKind::Broadcast(size) => Ok(Deal::Broadcast(*size)),
            ExchangeKind::Gather => Ok(Deal::Gather),
            ExchangeKind::Concat => Ok(Deal::Concat),
        }
    }
}
