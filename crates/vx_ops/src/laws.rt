//! What the promises of sources come to, by the definitions alone.

ghost use Rattle.vx_ops.specs.Strangers.{StrangerLaw};

/// A source that runs and gets a packet which is not for its port returns Stranger in that turn, and no row.
pub fn strangers_are_refused()
    ensures { StrangerLaw }
{}
