//! The two ends of a ring of packets.

ghost use Rattle.std.specs.Prelude.{◌≡◌, true};
ghost use Rattle.rtrb.specs.Ring.{sent};
ghost use Rattle.vx_ports.specs.Packets.{is_closed, is_stream};

use rtrb::{Consumer, Producer, PushError, RingBuffer};
use std::alloc::{AllocError, Global};
use vx_ports::{InPort, OutPort, Packet, Put};

/// Calls: `put*`, and none after that of a packet that closes the port.
///
/// The end of a ring that puts. A put waits for no thread: a ring without room returns the packet.
#[derive(Drop)]
pub struct RingOut {
    producer: Producer<Packet>,
    closed: bool,
    ghost closed_is: { closed ≡ is_closed (sent producer) },
    pub ghost stream: { is_stream (sent producer) ≡ true },
}

/// Calls: `take*`.
///
/// The end of a ring that takes. A take waits for no thread: a ring without packets returns none.
#[derive(Drop)]
pub struct RingIn {
    consumer: Consumer<Packet>,
}

impl RingOut {
    ghost use Rattle.std.specs.Prelude.{◌≡◌, ◌≤◌, ◌+◌, ◌++◌, [], length, IfOk};
    ghost use Rattle.vx_ports.specs.Packets.{Flows};
    ghost use Rattle.vx_ports_rings.specs.Ends.{IsRing, SameOut, SameIn, put_to, taken_from, seen_by, room_of, slack_of};

    // Two ends that no packet went through.
    pub(crate) fn pair(alloc: Global, slack: usize) -> Result<(RingOut, RingIn), AllocError>
        ensures ring { IfOk result (λ r. IsRing r.0 r.1) }
        ensures fresh { IfOk result (λ r. (put_to r.0 ≡ []) × (taken_from r.1 ≡ [])) }
        ensures room { IfOk result (λ r. (slack_of r.0 ≡ slack) × (room_of r.0 ≡ slack)) }
    {
        let (producer, consumer) = RingBuffer::new(alloc, slack)?;
        Ok((
            RingOut {
                producer,
                closed: false,
            },
            RingIn { consumer },
        ))
    }

    // Each end looks at what the other did.
    pub(crate) fn reunite(&mut self, input: &mut RingIn)
        requires { IsRing self.old input.old }
        ensures out { (put_to self.new ≡ put_to self.old) × SameOut self.old self.new }
        ensures taken { (taken_from input.new ≡ taken_from input.old) × SameIn input.old input.new }
        ensures flows { Flows (put_to self.new) (taken_from input.new) }
        ensures seen { taken_from input.new ++ seen_by input.new ≡ put_to self.new }
        ensures room { slack_of self.new + length (taken_from input.new) ≤ room_of self.new + length (put_to self.new) }
    {
        let _free = self.producer.slots_beside(&mut input.consumer);
        let _waiting = input.consumer.slots_beside(&mut self.producer);
    }
}

impl RingIn {
    ghost use Rattle.std.specs.Prelude.{◌≡◌, length};
    ghost use Rattle.vx_ports_rings.specs.Ends.{seen_by};

    /// How many packets wait, as this end last saw it: there may be more by now. It looks at nothing that the other end writes.
    pub fn seen(&self) -> usize
        ensures { result ≡ length (seen_by self.now) }
    {
        self.consumer.cached_slots()
    }
}

impl OutPort for RingOut {
    ghost use Rattle.std.specs.Prelude.{◌≡◌, ◌<◌, false};
    ghost use Rattle.vx_ports.specs.Packets.{is_closed};
    ghost use Rattle.vx_ports.specs.Puts.{PutOutcome, IsDone};
    ghost use Rattle.vx_ports_rings.specs.Never.{IsNeverNoMemory};
    ghost use Rattle.vx_ports_rings.specs.Ends.{PutsInRing, FindsFull, put_to, room_of};

    ghost closed = { λ o. is_closed (put_to o) };

    ghost Puts = { PutsInRing };

    ghost Stays = { FindsFull };

    fn put(&mut self, packet: Packet) -> Put
        requires { is_closed (put_to self.old) ≡ false }
        ensures outcome { PutOutcome packet result (PutsInRing self.old packet self.new) (FindsFull self.old self.new) }
        ensures never_no_memory { IsNeverNoMemory result }
        ensures has_room { 0 < room_of self.old → IsDone result }
    {
        let closes = packet.is_closing();
        match self.producer.push(packet) {
            Ok(()) => {
                self.closed = closes;
                Put::Done
            }
            Err(PushError::Full(packet)) => Put::Full(packet),
        }
    }

    fn is_closed(&self) -> bool {
        self.closed
    }
}

impl InPort for RingIn {
    ghost use Rattle.std.specs.Prelude.{◌<◌, length, IfSome, IfNone, IsSome};
    ghost use Rattle.vx_ports_rings.specs.Ends.{TakesFromRing, FindsNone, seen_by};

    ghost Takes = { TakesFromRing };

    ghost Looks = { FindsNone };

    fn take(&mut self) -> Option<Packet>
        ensures some { IfSome result (λ p. TakesFromRing self.old p self.new) }
        ensures none { IfNone result (FindsNone self.old self.new) }
        ensures seen { 0 < length (seen_by self.old) → IsSome result }
    {
        match self.consumer.pop() {
            Ok(packet) => Some(packet),
            Err(_) => None,
        }
    }
}
