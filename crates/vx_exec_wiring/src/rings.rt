//! The rings of one producer.

ghost use Rattle.std.specs.Prelude.{◌≤◌, ◌+◌, length, IfOk};
ghost use Rattle.vx_rows_values.specs.Limits.{max_slack};
ghost use Rattle.vx_plan_nodes.specs.Workers.{IsWithin};
ghost use Rattle.vx_exec_wiring.specs.Giving.{MakesRings, holds_of};

use crate::share::{Share, give_inlet};
use std::alloc::{AllocError, Global};
use vx_exec_layout::ExchangeSpan;
use vx_exec_threads::Inlet;
use vx_ports_rings::{RingOut, ring_pair};

/// Makes a ring from the producer at place `from` of an exchange to each of its consumers. The producer itself comes
/// behind all workers that there are. Its ends are returned.
pub fn rings_of(
    alloc: Global,
    shares: &mut Vec<Share>,
    exchange: ExchangeSpan,
    from: u32,
    slack: u32,
) -> Result<Vec<RingOut>, AllocError>
    requires there { exchange.above + exchange.consumers ≤ length shares.old.items }
    requires slack { IsWithin 1 max_slack slack }
    ensures { IfOk result (λ outs. MakesRings exchange from (holds_of shares.old.items) exchange.consumers outs.items (holds_of shares.new.items)) }
{
    let producer = shares.len();
    let mut outs = Vec::new(alloc);
    for place in 0..exchange.consumers {
        let pair = ring_pair(alloc, slack)?;
        let (out, ring) = pair;
        let inlet = Inlet::new(alloc, exchange.number, from, producer, ring);
        outs.push(out)?;
        give_inlet(shares, exchange.above + place as usize, inlet)?;
    }
    Ok(outs)
}
