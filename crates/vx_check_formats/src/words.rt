//! Words of routes, for other tools.

ghost use Rattle.std.specs.Prelude.{◌≡◌};
ghost use Rattle.vx_plan_nodes.specs.Outline.{route_of};
ghost use Rattle.vx_plan_nodes.specs.TypedView.{names_in};
ghost use Rattle.vx_check_formats.specs.Json.{route_word, route_name};

use vx_check::range_name;
use vx_plan_nodes::{Route, TypedPlan};

/// Whether a route hashes or goes by a range, in a word.
pub fn route_word(route: &Route) -> &str
    ensures { result.now ≡ route_word (route_of route.now) }
{
    match route {
        Route::Hash(_) => "hash",
        Route::Range(_) => "range",
    }
}

/// The name of a route.
pub fn route_name<'a>(plan: &'a TypedPlan, route: &'a Route) -> &'a str
    ensures { result.now ≡ route_name (names_in plan.now) (route_of route.now) }
{
    match route {
        Route::Hash(name) => name.as_str(),
        Route::Range(range) => range_name(plan, *range),
    }
}
