//! Where a worker takes what one producer sends it.

use crate::waking::wake;
use std::alloc::{AllocError, Global};
use std::collections::VecDeque;
use std::thread::Parker;
use vx_ports::{InPort, Packet};
use vx_ports_rings::{RingIn, RingOut, reunite};

/// Calls: `(gather | take)*`.
///
/// The consumer's end of a ring, and the packets that were taken from the ring before a step asked for them.
#[derive(Drop)]
pub struct Inlet {
    exchange: u32,
    from: u32,
    // The producer's number among all workers.
    producer: usize,
    ring: RingIn,
    queue: VecDeque<Packet>,
}

impl Inlet {
    ghost use Rattle.std.specs.Prelude.{◌≡◌, ◌+◌, ◌≤◌, true, false, [], length, IfOk, OnErr, IfSome, IfNone};
    ghost use Rattle.std.specs.VecDeque.{deque_len, deque_capacity};
    ghost use Rattle.vx_exec_threads.specs.Gathering.{IsFilled};
    ghost use Rattle.vx_exec_threads.specs.Inlets.{FindsNoneIn, IsGathered, KeepsIn, SameInlet, TakesIn, is_way};
    ghost use Rattle.vx_ports.specs.Packets.{Flows};
    ghost use Rattle.vx_ports_rings.specs.Ends.{IsRing, SameOut, put_to, taken_from, seen_by, TakesFromRing, FindsNone};

    // The most packets that one call of `gather` takes from the ring: as many as the largest ring has places.
    const MOST: usize = 1024;

    /// An inlet with an empty queue, from the producer at place `from` of the exchange with this node number, which is
    /// the worker with number `producer` of the run.
    pub fn new(alloc: Global, exchange: u32, from: u32, producer: usize, ring: RingIn) -> Inlet
        ensures way { (result.exchange ≡ exchange) × (result.from ≡ from) }
        ensures ring { result.ring ≡ ring }
        ensures empty { result.queue.items ≡ [] }
    {
        Inlet {
            exchange,
            from,
            producer,
            ring,
            queue: VecDeque::new(alloc),
        }
    }

    /// Whether it comes from this producer of this exchange.
    pub fn is_from(&self, exchange: u32, from: u32) -> bool
        ensures { result ≡ is_way self.now exchange from }
    {
        self.exchange == exchange && self.from == from
    }

    // Wakes the producer once all packets were taken that were seen to wait, since it may have found the ring full.
    fn wake_producer(&self, parkers: &[Parker]) {
        if self.ring.seen() == 0 {
            wake(parkers, self.producer);
        }
    }

    // Takes the next packet of the ring. Its producer is woken, if it was the last that was seen to wait.
    fn pop(&mut self, parkers: &[Parker]) -> Option<Packet>
        ensures some { IfSome result (λ p. TakesFromRing self.old.ring p self.new.ring) }
        ensures none { IfNone result (FindsNone self.old.ring self.new.ring) }
        ensures queue { self.new.queue ≡ self.old.queue }
        ensures way { (self.new.exchange ≡ self.old.exchange) × (self.new.from ≡ self.old.from) }
    {
        let packet = self.ring.take()?;
        self.wake_producer(parkers);
        Some(packet)
    }

    // Moves one packet from the ring to the queue, if one waits; returns whether one did. Where there is no room for it
    // in the queue, it stays in the ring.
    fn look(&mut self, parkers: &[Parker]) -> Result<bool, AllocError>
        ensures keeps { KeepsIn self.old self.new }
        ensures moved { IfOk result (λ b. b ≡ true → length self.new.queue.items ≡ length self.old.queue.items + 1) }
        ensures none { IfOk result (λ b. b ≡ false → seen_by self.new.ring ≡ []) }
        ensures still { IfOk result (λ b. b ≡ false → self.new.queue.items ≡ self.old.queue.items) }
        ensures filled { OnErr result (IsFilled self.old self.new) }
        ensures places { deque_capacity self.old.queue ≤ deque_capacity self.new.queue }
    {
        self.queue.reserve(1)?;
        match self.pop(parkers) {
            None => return Ok(false),
            Some(packet) => {
                let Ok(()) = self.queue.push_back(packet) else {
                    unreachable!()
                };
                return Ok(true);
            }
        }
    }

    // Moves the packets that are seen to wait in the ring to the queue, as far as there is memory for them: so their producer has all places
    // of the ring again, after one look, and is woken once.
    fn empty_ring(&mut self, parkers: &[Parker])
        ensures { KeepsIn self.old self.new }
    {
        for _ in 0..self.ring.seen() {
            let Ok(true) = self.look(parkers) else {
                return;
            };
        }
    }

    /// Moves what waits in the ring to the queue, and returns whether anything did. Where memory for the queue is
    /// refused, what is left stays in the ring. The producer is woken once all that was seen to wait was moved.
    pub fn gather(&mut self, parkers: &[Parker]) -> Result<bool, AllocError>
        ensures keeps { KeepsIn self.old self.new }
        ensures gathered { IfOk result (λ _. IsGathered self.new) }
        ensures still { IfOk result (λ moved. moved ≡ false → self.new.queue.items ≡ self.old.queue.items) }
        ensures filled { OnErr result (IsFilled self.old self.new) }
    {
        for moved in 0..Inlet::MOST {
            if !self.look(parkers)? {
                return Ok(moved > 0);
            }
        }
        Ok(true)
    }

    /// The next packet: of the queue, and where that is empty of the ring, from which the others go to the queue then. Where memory for them is
    /// refused, they stay in the ring.
    pub fn take(&mut self, parkers: &[Parker]) -> Option<Packet>
        ensures some { IfSome result (λ p. TakesIn self.old p self.new) }
        ensures none { IfNone result (FindsNoneIn self.old self.new) }
    {
        if let Some(packet) = self.queue.pop_front() {
            return Some(packet);
        }
        let packet = self.pop(parkers)?;
        self.empty_ring(parkers);
        Some(packet)
    }

    /// Brings the ring's two ends together, once no thread holds either: then what was put flowed to what was taken.
    pub fn reunite_with(&mut self, out: &mut RingOut)
        requires { IsRing out.old self.old.ring }
        ensures out { (put_to out.new ≡ put_to out.old) × SameOut out.old out.new }
        ensures same { SameInlet self.old self.new }
        ensures taken { taken_from self.new.ring ≡ taken_from self.old.ring }
        ensures flows { Flows (put_to out.new) (taken_from self.new.ring) }
    {
        reunite(out, &mut self.ring);
    }
}
