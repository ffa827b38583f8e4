//! The directions in which joins by merging compare: those that the claimed orders of their inputs ask for.
#![tactic(auto)]

mod asking;
mod directing;
mod finding;
mod planning;
mod turning;

ghost use Rattle.vx_check_directions.specs.Directed.{DirectedIsAccepted};

pub use directing::direct;
pub use planning::planned;

/// Whatever directions the joins by merging of a plan are given: if its rule table accepts it so, it accepts it with those that
/// its claims ask for.
pub fn directed_is_accepted()
    ensures { DirectedIsAccepted }
{}
