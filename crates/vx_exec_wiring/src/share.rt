//! What one worker is given.

ghost use Rattle.std.specs.Prelude.{◌<◌, length, OnOk};
ghost use Rattle.vx_exec_wiring.specs.Giving.{GainsDrawer, GainsInlet, GivesAt, holds_of};

use std::alloc::AllocError;
use vx_exec_threads::{Drawer, Inlet};
use vx_ports_rings::RingOut;

/// The ends, seats and hands that a worker was given so far.
#[derive(Drop)]
pub struct Share {
    pub outs: Vec<RingOut>,
    /// The number of its first consumer among all workers.
    pub consumers: usize,
    pub ins: Vec<Inlet>,
    pub draws: Vec<Drawer>,
}

/// Gives a worker one more drawer, behind the others.
pub fn give_drawer(shares: &mut Vec<Share>, worker: usize, drawer: Drawer) -> Result<(), AllocError>
    requires { worker < length shares.old.items }
    ensures { OnOk result (GivesAt (GainsDrawer drawer) (holds_of shares.old.items) worker (holds_of shares.new.items)) }
{
    shares[worker].draws.push(drawer)?;
    Ok(())
}

/// Gives a worker one more inlet, behind the others.
pub fn give_inlet(shares: &mut Vec<Share>, worker: usize, inlet: Inlet) -> Result<(), AllocError>
    requires { worker < length shares.old.items }
    ensures { OnOk result (GivesAt (GainsInlet inlet) (holds_of shares.old.items) worker (holds_of shares.new.items)) }
{
    shares[worker].ins.push(inlet)?;
    Ok(())
}
