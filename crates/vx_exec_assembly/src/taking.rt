//! What threads gave back, taken apart.

ghost use Rattle.std.specs.Prelude.{◌≡◌, ◌++◌, ◌∷◌, [], map, IfOk, OnOk};
ghost use Rattle.vx_exec_assembly.specs.Parts.{worker_in, outs_in, ins_in, drawers_in};

use std::alloc::{AllocError, Global};
use vx_exec_spawn::Joined;
use vx_exec_threads::{Drawer, Inlet};
use vx_ports_rings::RingOut;
use vx_worker::Worker;

/// What the threads of a run gave back, each by its worker's number.
#[derive(Drop)]
pub struct ThreadResults<O, S> {
    /// The workers.
    pub workers: Vec<Worker<O, S>>,
    /// The ends of the rings to each worker's consumers.
    pub outs: Vec<Vec<RingOut>>,
    /// The ends of the rings from its producers.
    pub ins: Vec<Vec<Inlet>>,
    /// What gave it the morsels of its scans.
    pub draws: Vec<Vec<Drawer>>,
}

// Takes apart what one thread more gave back.
fn add_one<O: Drop, S: Drop>(
    parts: &mut ThreadResults<O, S>,
    one: Joined<O, S>,
) -> Result<(), AllocError>
    ensures workers { OnOk result (parts.new.workers.items ≡ parts.old.workers.items ++ worker_in one ∷ []) }
    ensures outs { OnOk result (parts.new.outs.items ≡ parts.old.outs.items ++ outs_in one ∷ []) }
    ensures ins { OnOk result (parts.new.ins.items ≡ parts.old.ins.items ++ ins_in one ∷ []) }
    ensures draws { OnOk result (parts.new.draws.items ≡ parts.old.draws.items ++ drawers_in one ∷ []) }
{
    let Joined { worker, ends } = one;
    let lists = ends.into_lists();
    parts.workers.push(worker)?;
    parts.outs.push(lists.0)?;
    parts.ins.push(lists.1)?;
    parts.draws.push(lists.2)?;
    Ok(())
}

/// Takes apart what each thread gave back.
pub fn take_apart<O: Drop, S: Drop>(
    alloc: Global,
    joined: Vec<Joined<O, S>>,
) -> Result<ThreadResults<O, S>, AllocError>
    ensures workers { IfOk result (λ t. t.workers.items ≡ map worker_in joined.items) }
    ensures outs { IfOk result (λ t. t.outs.items ≡ map outs_in joined.items) }
    ensures ins { IfOk result (λ t. t.ins.items ≡ map ins_in joined.items) }
    ensures draws { IfOk result (λ t. t.draws.items ≡ map drawers_in joined.items) }
{
    let mut parts = ThreadResults {
        workers: Vec::new(alloc),
        outs: Vec::new(alloc),
        ins: Vec::new(alloc),
        draws: Vec::new(alloc),
    };
    for one in joined {
        add_one(&mut parts, one)?;
    }
    Ok(parts)
}
