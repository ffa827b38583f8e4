//! What one thread holds of what a run shares.

use crate::drawer::Drawer;
use crate::inlet::Inlet;
use crate::waking::Unwoken;
use std::alloc::AllocError;
use std::thread::Parker;
use vx_morsel_decks::SharedDeck;
use vx_ports::{OutPort, Packet, Put};
use vx_ports_rings::RingOut;

/// The ends of the rings to each consumer, by place, and from each producer; and what gives the morsels of each scan.
#[derive(Drop)]
pub struct Ends {
    outs: Vec<RingOut>,
    // The number of the first consumer among all workers.
    consumers: usize,
    // Those that have packets and sleep, for all that this thread knows.
    unwoken: Unwoken,
    ins: Vec<Inlet>,
    // Where the inlets of the exchange begin that was last taken from: those of one exchange stand together, in order.
    first: usize,
    draws: Vec<Drawer>,
}

impl Ends {
    ghost use Rattle.std.specs.Prelude.{◌≡◌, ◌≢◌, ◌<◌, ◌↔◌, ℕ, true, false, Some, length, slice_get, slice_index_or};
    ghost use Rattle.std.specs.Prelude.{IfOk, OnErr, IfSome, IfNone};
    ghost use Rattle.std.specs.List.{All};
    ghost use Rattle.vx_worker.specs.Trace.{idle, drew_one, took_one};
    ghost use Rattle.vx_worker.specs.Wiring.{PutGives};
    ghost use Rattle.vx_ports_rings.specs.Never.{IsNeverNoMemory};
    ghost use Rattle.vx_exec_threads.specs.declared.inlet.Inlet.{Inlet};
    ghost use Rattle.vx_exec_threads.specs.declared.drawer.Drawer.{Drawer};
    ghost use Rattle.vx_exec_threads.specs.Inlets.{IsGathered, is_way};
    ghost use Rattle.vx_exec_threads.specs.Gathering.{QueuesStay, FillsAt, FillsOne};
    ghost use Rattle.vx_exec_threads.specs.Waking.{NoneNoted, NotesPut};
    ghost use Rattle.vx_ports.specs.Packets.{closes};
    ghost use Rattle.vx_exec_threads.specs.Drawers.{Sits, IsSeat};
    ghost use Rattle.vx_exec_threads.specs.Holds.{IsApart};
    ghost use Rattle.vx_exec_threads.specs.Carrying.{Does, IsFullAt, hold_of};

    /// Of one worker. Its consumers are the workers from the one with number `consumers` on.
    pub fn new(outs: Vec<RingOut>, consumers: usize, ins: Vec<Inlet>, draws: Vec<Drawer>) -> Ends
        ensures outs { result.outs.items ≡ outs.items }
        ensures ins { result.ins.items ≡ ins.items }
        ensures draws { result.draws.items ≡ draws.items }
    {
        Ends {
            outs,
            consumers,
            unwoken: Unwoken::new(),
            ins,
            first: 0,
            draws,
        }
    }

    // Whether the inlet from a producer stands at this place.
    fn is_at(&self, place: usize, exchange: u32, from: u32) -> bool
        ensures { result ≡ true → (place < length self.now.ins.items)
            × ((d : Inlet) → is_way (slice_index_or self.now.ins.items place d) exchange from ≡ true) }
    {
        place < self.ins.len() && self.ins[place].is_from(exchange, from)
    }

    /// The ends of the rings to each consumer and from each producer, and what gives the morsels of each scan.
    pub fn into_lists(self) -> (Vec<RingOut>, Vec<Inlet>, Vec<Drawer>)
        ensures outs { result.0 ≡ self.outs }
        ensures ins { result.1 ≡ self.ins }
        ensures draws { result.2 ≡ self.draws }
    {
        let Ends {
            outs,
            ins,
            draws,
            ..
        } = self;
        (outs, ins, draws)
    }

    // Where the inlet from a producer stands. It is looked for where the last one lets expect it, and then everywhere.
    fn inlet_of(&self, exchange: u32, from: u32) -> Option<usize>
        ensures some { IfSome result (λ k. (k < length self.now.ins.items)
            × ((d : Inlet) → is_way (slice_index_or self.now.ins.items k d) exchange from ≡ true)) }
        ensures none { IfNone result (All (λ (e : Inlet). is_way e exchange from ≡ false) self.now.ins.items) }
    {
        let likely = self.first.saturating_add(from as usize);
        if self.is_at(likely, exchange, from) {
            return Some(likely);
        }
        for k in 0..self.ins.len() {
            if self.ins[k].is_from(exchange, from) {
                return Some(k);
            }
        }
        None
    }

    // Where the morsels of a scan come from.
    fn drawer_of(&self, scan: u32) -> Option<usize>
        ensures some { IfSome result (λ k. (k < length self.now.draws.items)
            × ((d : Drawer) → (slice_index_or self.now.draws.items k d).scan ≡ scan)) }
        ensures none { IfNone result (All (λ (x : Drawer). x.scan ≡ scan → ⊥) self.now.draws.items) }
    {
        for k in 0..self.draws.len() {
            if self.draws[k].is_for(scan) {
                return Some(k);
            }
        }
        None
    }

    /// Takes the next packet of a producer, from the queue or the ring. A producer whose ring was emptied is woken.
    pub fn take(&mut self, exchange: u32, from: u32, parkers: &[Parker]) -> Option<Packet>
        ensures does { Does self.old (took_one exchange from result) self.new }
        ensures draws { self.new.draws ≡ self.old.draws }
    {
        match self.inlet_of(exchange, from) {
            None => return None,
            Some(k) => {
                self.first = k.saturating_sub(from as usize);
                return self.ins[k].take(parkers);
            }
        }
    }

    /// Puts a packet to a consumer, which is woken now or later. Full comes where there is no such consumer, and after the port was
    /// closed, too.
    pub fn put(&mut self, to: u32, packet: Packet, parkers: &[Parker]) -> Put
        ensures gives { PutGives Does IsFullAt self.old self.new to packet result }
        ensures never_no_memory { IsNeverNoMemory result }
        ensures draws { self.new.draws ≡ self.old.draws }
        ensures notes { NotesPut to result (closes packet.content ≡ true) self.old.unwoken self.new.unwoken }
    {
        let place = to as usize;
        if place >= self.outs.len() || self.outs[place].is_closed() {
            return Put::Full(packet);
        }
        let rows = packet.row_count();
        let closes = packet.is_closing();
        let answer = self.outs[place].put(packet);
        self.unwoken
            .note(place, &answer, rows, closes, parkers, self.consumers);
        answer
    }

    /// Wakes the consumers that have packets which they were not woken for, as before this worker waits.
    pub fn wake_consumers(&mut self, parkers: &[Parker])
        ensures does { Does self.old idle self.new }
        ensures draws { self.new.draws ≡ self.old.draws }
        ensures ins { self.new.ins ≡ self.old.ins }
        ensures woken { NoneNoted self.new.unwoken }
    {
        self.unwoken.wake_all(parkers, self.consumers);
    }

    /// Draws the next morsel of a scan.
    pub fn draw(&mut self, scan: u32, decks: &Vec<SharedDeck>) -> Option<u64>
        requires { All (Sits decks.now.items) self.old.draws.items }
        ensures does { Does self.old (drew_one scan result) self.new }
        ensures sits { All (Sits decks.now.items) self.new.draws.items }
    {
        match self.drawer_of(scan) {
            None => return None,
            Some(k) => return self.draws[k].draw(decks),
        }
    }

    /// From how many producers it takes, of all its exchanges.
    pub fn inlets(&self) -> usize
        ensures { result ≡ length self.now.ins.items }
    {
        self.ins.len()
    }

    /// How many scans it draws morsels of.
    pub fn scans(&self) -> usize
        ensures { result ≡ length self.now.draws.items }
    {
        self.draws.len()
    }

    /// Whether the workers of a scan share a deck.
    pub fn is_shared(&self, scan: u32) -> bool
        ensures { IsApart (hold_of self.now) → (k : ℕ) (x : Drawer) → slice_get self.now.draws.items k ≡ Some x
            → x.scan ≡ scan → (result ≡ true) ↔ IsSeat x.dealer }
    {
        match self.drawer_of(scan) {
            None => false,
            Some(k) => self.draws[k].is_shared(),
        }
    }

    // Moves what waits in one ring to its queue, and returns whether anything did.
    fn gather_at(&mut self, place: usize, parkers: &[Parker]) -> Result<bool, AllocError>
        ensures does { Does self.old idle self.new }
        ensures draws { self.new.draws ≡ self.old.draws }
        ensures count { length self.new.ins.items ≡ length self.old.ins.items }
        ensures here { IfOk result (λ _. (e : Inlet) → slice_get self.new.ins.items place ≡ Some e → IsGathered e) }
        ensures others { (k : ℕ) → k ≢ place → slice_get self.new.ins.items k ≡ slice_get self.old.ins.items k }
        ensures still { IfOk result (λ moved. moved ≡ false → QueuesStay self.old.ins.items self.new.ins.items) }
        ensures filled { OnErr result (FillsAt place self.old.ins.items self.new.ins.items) }
        ensures unwoken { self.new.unwoken ≡ self.old.unwoken }
    {
        if place >= self.ins.len() {
            return Ok(false);
        }
        self.ins[place].gather(parkers)
    }

    /// Moves what waits in the rings to the worker's own queues, in their order, and returns whether anything did. Where
    /// memory for a queue is refused, the rings behind it stay as they are. The producers are woken whose rings were full.
    pub fn gather(&mut self, parkers: &[Parker]) -> Result<bool, AllocError>
        ensures does { Does self.old idle self.new }
        ensures draws { self.new.draws ≡ self.old.draws }
        ensures gathered { IfOk result (λ _. All IsGathered self.new.ins.items) }
        ensures still { IfOk result (λ moved. moved ≡ false → QueuesStay self.old.ins.items self.new.ins.items) }
        ensures filled { OnErr result (FillsOne self.old.ins.items self.new.ins.items) }
        ensures unwoken { self.new.unwoken ≡ self.old.unwoken }
    {
        let mut moved = false;
        for place in 0..self.ins.len() {
            moved |= self.gather_at(place, parkers)?;
        }
        Ok(moved)
    }
}
