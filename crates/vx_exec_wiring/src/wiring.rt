//! What the threads of a plan's workers hold before the first step.

ghost use Rattle.std.specs.Prelude.{◌≡◌, ◌≤◌, ℕ, length, map, slice_index_or, IfOk};
ghost use Rattle.std.specs.List.{All};
ghost use Rattle.vx_rows_values.specs.Limits.{max_rows, max_slack};
ghost use Rattle.vx_plan_nodes.specs.Plan.{Plan};
ghost use Rattle.vx_plan_nodes.specs.Workers.{IsWithin};
ghost use Rattle.vx_exec_layout.specs.Layout.{spans_of};
ghost use Rattle.vx_exec_layout.specs.Order.{AreInOrder};
ghost use Rattle.vx_worker.specs.Fragment.{RunModel};
ghost use Rattle.vx_worker.specs.Morsels.{morsel_count};
ghost use Rattle.vx_exec_threads.specs.Carrying.{hold_of};
ghost use Rattle.vx_exec_threads.specs.Drawers.{Sits};
ghost use Rattle.vx_exec_threads.specs.Wired.{IsWired};
ghost use Rattle.vx_exec_threads.specs.declared.ends.Ends.{Ends as TheEnds};
ghost use Rattle.vx_exec_wiring.specs.Giving.{holds_of};

use crate::making::Making;
use crate::share::Share;
use std::alloc::{AllocError, Global};
use vx_exec_layout::Layout;
use vx_exec_threads::{DeckPlace, Ends};
use vx_morsel_decks::SharedDeck;

/// What the threads of a plan's workers hold before the first step.
#[derive(Drop)]
pub struct Wiring {
    /// What each worker holds, by its number.
    pub ends: Vec<Ends>,
    /// The decks of the shared scans, in the order of the scans' numbers.
    pub decks: Vec<SharedDeck>,
    /// Whose each deck is.
    pub places: Vec<DeckPlace>,
}

// What each worker was given, as the ends of its thread.
fn ends_of(alloc: Global, shares: Vec<Share>) -> Result<Vec<Ends>, AllocError>
    ensures { IfOk result (λ ends. map hold_of ends.items ≡ holds_of shares.items) }
{
    let mut ends = Vec::with_capacity(alloc, shares.len())?;
    for share in shares {
        ends.push(Ends::new(share.outs, share.consumers, share.ins, share.draws))?;
    }
    Ok(ends)
}

/// One ring of `slack` packets for each producer and consumer of each exchange, one deck for each shared scan with a
/// seat for each of its workers, and a hand for each worker of any other scan. `morsels` has how many morsels each
/// relation has; past its end a relation has none. The workers' numbers are those of the layout.
pub fn wiring_of(
    alloc: Global,
    layout: &Layout,
    morsels: &[u64],
    slack: u32,
) -> Result<Wiring, AllocError>
    requires small { All (λ m. m ≤ max_rows) morsels.now }
    requires slack { IsWithin 1 max_slack slack }
    requires ordered { AreInOrder 0 1 layout.now.spans.items }
    ensures wired { (S : RunModel) (p : Plan) → layout.now.spans.items ≡ spans_of S.sizes p 0 1
        → ((r : ℕ) → slice_index_or morsels.now r 0 ≡ morsel_count S.morsel (length (S.db r)))
        → IfOk result (λ w. IsWired S p w.decks.items w.places.items (map hold_of w.ends.items)) }
    ensures sits { IfOk result (λ w. All (λ (e : TheEnds). All (Sits w.decks.items) e.draws.items) w.ends.items) }
{
    let making = Making::of(alloc, morsels, slack, layout.spans())?;
    let Making {
        shares,
        decks,
        places,
    } = making;
    Ok(Wiring {
        ends: ends_of(alloc, shares)?,
        decks,
        places,
    })
}
