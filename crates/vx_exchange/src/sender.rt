//! Sending ends of exchanges: what all kinds share.

ghost use Rattle.std.specs.Prelude.{◌≡◌, ◌<◌, ◌^◌, length, true};
ghost use Rattle.vx_rows.specs.View.{AreColumns};
ghost use Rattle.vx_exchange.specs.Lanes.{AreNumbered, ways_of, ship_of, serves, columns_of, may_close, are_idle, IdleBefore, ClosedBefore};
ghost use Rattle.vx_rows_values.specs.Limits.{max_packet_rows};

use crate::deal::{Deal, deal_rows};
use crate::lane::Lane;
use crate::lanes::{clear_lanes, close_next, finish_lanes, make_lanes, next_packet};
use crate::places::turn;
use crate::scratch::Scratch;
use std::alloc::{AllocError, Global};
use vx_exchange_ends::Sends;
use vx_ops::Polled;
use vx_plan_nodes::Router;
use vx_ports::{Packet, StreamEnd};
use vx_rows_values::ColType;

/// What a sending end is about.
#[derive(Clone, Copy)]
pub enum SenderState {
    /// It accepts rows.
    Open,
    /// All rows came: their packets are returned, and then Last.
    Ending,
    /// A fault came, or memory ran out: what waited was dropped, and Fault is returned.
    Failing,
}

/// Calls: `new (accept next*)*`, with no `accept` after the end, a fault or an `Err`.
///
/// The sending end of an exchange at one of its producers (Graefe's exchange, its producer half). It deals the rows that come to its lanes,
/// one for each consumer, and returns their packets; then Last for each consumer, or Fault. The rows of a round robin are counted from its
/// first one on, over all calls: `next` is the consumer whose turn it is. No packet waits in the lanes before `first_waiting`, and those
/// before `first_open` have returned their closing packets, so that no search for the next packet looks at them again.
pub struct Sender {
    alloc: Global,
    lanes: Vec<Lane>,
    deal: Deal,
    next: u32,
    first_waiting: usize,
    first_open: usize,
    stage: SenderState,
    scratch: Scratch,
    ghost numbered: { AreNumbered deal (ways_of lanes.items) },
    ghost served: { serves deal (length lanes.items) ≡ true },
    ghost few: { length lanes.items < 2 ^ 32 },
    ghost turns: { next < length lanes.items },
    ghost columns: { AreColumns (length (ship_of deal (ways_of lanes.items)).types) (columns_of deal) },
    ghost idle: { may_close stage lanes.items ≡ true → are_idle lanes.items ≡ true },
    ghost idle_before: { IdleBefore first_waiting lanes.items },
    ghost closed_before: { ClosedBefore first_open lanes.items },
}

impl Drop for Sender {
    fn drop(self) {
        let Sender {
            alloc: _,
            lanes: _,
            deal: _,
            next: _,
            first_waiting: _,
            first_open: _,
            stage: _,
            scratch: _,
        } = self;
    }
}

impl Sender {
    ghost use Rattle.std.specs.Prelude.{◌≤◌, ◌+◌, ℕ, List, [], IfOk, OnOk};
    ghost use Rattle.vx_plan_nodes.specs.Routes.{Routing};
    ghost use Rattle.vx_ports.specs.Packets.{PacketView};
    ghost use Rattle.vx_ops.specs.Ledger.{fresh, Stream};
    ghost use Rattle.vx_ops.specs.Turn.{heard, GivesRows};
    ghost use Rattle.vx_exchange_ends.specs.Tasks.{sends_by_ship};
    ghost use Rattle.vx_exchange_ends.specs.Sending.{RoutesAs, is_open_after};
    ghost use Rattle.vx_ops.specs.Turn.{rows_in};
    ghost use Rattle.vx_exchange.specs.Lanes.{kind_of, bounds_of, SameLanes};
    ghost use Rattle.vx_exchange.specs.Queued.{sender_held};
    ghost use Rattle.vx_exchange.specs.Sender.{SenderStands, sender_ship, sender_post, sender_bounds, sender_is_open};

    /// The sending end of the exchange with node number `exchange`, at producer `place`, for `consumers` consumers.
    /// Its packets have up to `size` rows of `types`, where `size` is 1 to 4,096. A gather and a concat have one consumer, other kinds one or more.
    pub fn new(
        alloc: Global,
        exchange: u32,
        place: u32,
        consumers: u32,
        size: usize,
        types: &[ColType],
        deal: Deal,
    ) -> Result<Sender, AllocError>
        requires served { serves deal consumers ≡ true }
        requires columns { AreColumns (length types.now) (columns_of deal) }
        requires some { 1 ≤ size }
        requires few { size ≤ max_packet_rows }
        ensures stands { IfOk result (λ s. (goes : Routing) → SenderStands s goes fresh (λ _. [])) }
        ensures post { IfOk result (λ s. sender_post s
            ≡ sends_by_ship (record { exchange = exchange; place = place; consumers = consumers; types = types.now; kind = kind_of deal; size = size })) }
        ensures bounds { IfOk result (λ s. sender_bounds s ≡ bounds_of deal) }
        ensures open { IfOk result (λ s. sender_is_open s ≡ true) }
        ensures fresh { IfOk result (λ s. (j : ℕ) → sender_held s j ≡ 0) }
    {
        let lanes = make_lanes(alloc, exchange, place, consumers, size, types)?;
        Ok(Sender {
            alloc,
            lanes,
            deal,
            next: 0,
            first_waiting: 0,
            first_open: 0,
            stage: SenderState::Open,
            scratch: Scratch::new(alloc),
        })
    }

    // Drops what waits: Fault comes next.
    fn fail(&mut self)
        ensures stage { self.new.stage ≡ SenderState.Failing }
        ensures none { (j : ℕ) → sender_held self.new j ≡ 0 }
        ensures deal { self.new.deal ≡ self.old.deal }
        ensures same { SameLanes self.old.lanes.items self.new.lanes.items }
    {
        clear_lanes(&mut self.lanes);
        self.stage = SenderState::Failing;
    }

    // Accepts what the fragment's top returned.
    fn take<R: Router>(&mut self, router: &R, polled: Polled) -> Result<(), AllocError>
        requires open { sender_is_open self.old ≡ true }
        requires typed { GivesRows (sender_ship self.old).types polled }
        ensures ok { OnOk result ((goes : Routing) → RoutesAs (sender_post self.old) (sender_bounds self.old) (R.route_of router.now) goes
            → (a : Stream) (g : ℕ → List PacketView) → SenderStands self.old goes a g → SenderStands self.new goes (heard a polled) g) }
        ensures open { OnOk result (sender_is_open self.new ≡ is_open_after polled) }
        ensures held { OnOk result ((j : ℕ) → sender_held self.new j ≤ sender_held self.old j + rows_in polled) }
        ensures deal { self.new.deal ≡ self.old.deal }
        ensures same { SameLanes self.old.lanes.items self.new.lanes.items }
    {
        match polled {
            Polled::Gave(rows) => {
                let count = rows.len();
                self.first_waiting = 0;
                deal_rows(
                    self.alloc,
                    &self.deal,
                    self.next,
                    &mut self.lanes,
                    &mut self.scratch,
                    router,
                    rows,
                )?;
                self.next = turn(self.next, count, self.lanes.len() as u32);
                return Ok(());
            }
            Polled::Waiting => return Ok(()),
            Polled::End => {
                self.first_waiting = 0;
                finish_lanes(&mut self.lanes)?;
                self.stage = SenderState::Ending;
                return Ok(());
            }
            Polled::Fault(_) => {
                self.fail();
                return Ok(());
            }
        }
    }
}

impl Sends for Sender {
    ghost use Rattle.vx_exchange.specs.Sender.{SenderStands, sender_task, sender_post, sender_bounds, sender_is_open, sender_has_closed, sender_open_first, sender_begun, sender_at_post, sender_streams};
    ghost use Rattle.vx_exchange.specs.Queued.{sender_held, sender_unclosed, sender_held_for, sender_few_closings};

    ghost Stands = { SenderStands };

    ghost task = { sender_task };

    ghost post = { sender_post };

    ghost bounds = { sender_bounds };

    ghost is_open = { sender_is_open };

    ghost has_closed = { sender_has_closed };

    ghost held = { sender_held };

    ghost unclosed = { sender_unclosed };

    ghost held_for = { sender_held_for };

    ghost few_closings = { sender_few_closings };

    ghost open_first = { sender_open_first };

    ghost begun = { sender_begun };

    ghost at_post = { sender_at_post };

    ghost streams = { sender_streams };

    fn accept<R: Router>(&mut self, router: &R, polled: Polled) -> Result<(), AllocError> {
        match self.take(router, polled) {
            Ok(()) => return Ok(()),
            Err(refused) => {
                self.fail();
                return Err(refused);
            }
        }
    }

    fn next(&mut self) -> Option<(u32, Packet)> {
        match self.stage {
            SenderState::Open => return next_packet(&mut self.lanes, &mut self.first_waiting),
            SenderState::Ending => {
                if let Some((to, packet)) = next_packet(&mut self.lanes, &mut self.first_waiting) {
                    return Some((to, packet));
                }
                return close_next(&mut self.lanes, &mut self.first_open, StreamEnd::Last);
            }
            SenderState::Failing => {
                return close_next(&mut self.lanes, &mut self.first_open, StreamEnd::Fault);
            }
        }
    }
}
