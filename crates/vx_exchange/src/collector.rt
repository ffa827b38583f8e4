//! The end of the root's fragment: its rows are kept.

use std::alloc::{AllocError, Global};
use vx_exchange_ends::Sends;
use vx_ops::Polled;
use vx_plan_nodes::Router;
use vx_ports::Packet;
use vx_rows_values::ColType;
use vx_rows_views::Rows;

/// The rows that the top of the root's fragment returns, in order. It returns no packet.
#[derive(Drop)]
pub struct Collector {
    rows: Rows,
    takes_more: bool,
}

impl Collector {
    ghost use Rattle.std.specs.Prelude.{◌≡◌, ℕ, [], IfOk, true};
    ghost use Rattle.vx_plan_nodes.specs.Routes.{Routing};
    ghost use Rattle.vx_ops.specs.Ledger.{fresh};
    ghost use Rattle.vx_exchange_ends.specs.Tasks.{keep, keeps};
    ghost use Rattle.vx_exchange.specs.Collector.{CollectorStands, collector_task, collector_post, collector_is_open, collector_held};

    /// No rows yet, of these types.
    pub fn new(alloc: Global, types: &[ColType]) -> Result<Collector, AllocError>
        ensures stands { IfOk result (λ s. (goes : Routing) → CollectorStands s goes fresh (λ _. [])) }
        ensures post { IfOk result (λ s. collector_post s ≡ keeps types.now) }
        ensures open { IfOk result (λ s. collector_is_open s ≡ true) }
        ensures fresh { IfOk result (λ s. (j : ℕ) → collector_held s j ≡ 0) }
    {
        let rows = Rows::new(alloc, types)?;
        Ok(Collector {
            rows,
            takes_more: true,
        })
    }

    /// All rows that came.
    pub fn into_rows(self) -> Rows
        ensures rows { collector_task self ≡ keep result.rows }
        ensures types { collector_post self ≡ keeps result.types }
    {
        self.rows
    }
}

impl Sends for Collector {
    ghost use Rattle.vx_exchange.specs.Collector.{CollectorStands, collector_task, collector_post, collector_bounds, collector_is_open, collector_has_closed, collector_held, collector_unclosed, collector_held_for, collector_few_closings, collector_open_first, collector_begun, collector_at_post, collector_streams};

    ghost Stands = { CollectorStands };

    ghost task = { collector_task };

    ghost post = { collector_post };

    ghost bounds = { collector_bounds };

    ghost is_open = { collector_is_open };

    ghost has_closed = { collector_has_closed };

    ghost held = { collector_held };

    ghost unclosed = { collector_unclosed };

    ghost held_for = { collector_held_for };

    ghost few_closings = { collector_few_closings };

    ghost open_first = { collector_open_first };

    ghost begun = { collector_begun };

    ghost at_post = { collector_at_post };

    ghost streams = { collector_streams };

    fn accept<R: Router>(&mut self, _router: &R, polled: Polled) -> Result<(), AllocError> {
        match polled {
            Polled::Gave(rows) => {
                if let Err(refused) = self.rows.append(rows) {
                    self.takes_more = false;
                    return Err(refused);
                }
                return Ok(());
            }
            Polled::Waiting => return Ok(()),
            Polled::End => {
                self.takes_more = false;
                return Ok(());
            }
            Polled::Fault(_) => {
                self.takes_more = false;
                return Ok(());
            }
        }
    }

    fn next(&mut self) -> Option<(u32, Packet)> {
        None
    }
}
