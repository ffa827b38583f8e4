//! A queue in memory that is both ends of a port.

use crate::packet::Packet;
use crate::port::{InPort, OutPort, Put};
use std::alloc::{AllocError, Global};
use std::collections::VecDeque;
use std::marker::Model;

/// Calls: `new (put | take)*`, with no `put` after that of a packet that closes it.
///
/// A queue of packets between a producer and a consumer that take turns in one thread. It is never full: what waits in it is bounded by memory alone. It keeps room
/// for the packet that closes it, so that a stream can always be ended.
pub struct Link {
    queue: VecDeque<Packet>,
    closed: bool,
}

impl Drop for Link {
    fn drop(self) {
        let Link {
            queue: _,
            closed: _,
        } = self;
    }
}

impl Model for Link {
    ghost use Rattle.vx_ports.specs.LinkView.{LinkView, HasPlace};
    ghost use Rattle.std.specs.VecDeque.{deque_len, deque_capacity};

    ghost Value = { LinkView };

    ghost view = { λ l. record { queue = l.queue.items; closed = l.closed } };

    ghost invariant = { λ l. HasPlace l.closed (deque_len l.queue) (deque_capacity l.queue) };
}

impl Link {
    ghost use Rattle.std.specs.Prelude.{◌≡◌, [], IfOk, false};

    /// An open queue without packets.
    pub fn new(alloc: Global) -> Result<Link, AllocError>
        ensures { IfOk result (λ l. l ≡ record { queue = []; closed = false }) }
    {
        Ok(Link {
            queue: VecDeque::with_capacity(alloc, 1)?,
            closed: false,
        })
    }
}

impl OutPort for Link {
    ghost use Rattle.std.specs.Prelude.{◌≡◌, false, true};
    ghost use Rattle.vx_ports.specs.Packets.{closes};
    ghost use Rattle.vx_ports.specs.Puts.{PutOutcome, IsDone, IsNeverFull};
    ghost use Rattle.vx_ports.specs.LinkView.{PutsOnLine};

    ghost closed = { λ l. l.closed };

    ghost Puts = { PutsOnLine };

    ghost Stays = { λ a b. b ≡ a };

    fn put(&mut self, packet: Packet) -> Put
        requires { self.old.closed ≡ false }
        ensures outcome { PutOutcome packet result (PutsOnLine self.old packet self.new) (self.new ≡ self.old) }
        ensures never_full { IsNeverFull result }
        ensures closing { closes packet.content ≡ true → IsDone result }
    {
        let closes = packet.is_closing();
        if !closes && self.queue.reserve(2).is_err() {
            return Put::NoMemory(packet);
        }
        match self.queue.push_back(packet) {
            Ok(()) => {
                self.closed = closes;
                Put::Done
            }
            Err(refused) => Put::NoMemory(refused.value),
        }
    }

    fn is_closed(&self) -> bool {
        self.closed
    }
}

impl InPort for Link {
    ghost use Rattle.std.specs.Prelude.{◌≡◌, []};
    ghost use Rattle.vx_ports.specs.LinkView.{TakesFromLine};

    ghost Takes = { TakesFromLine };

    ghost Looks = { λ a b. (b ≡ a) × (a.queue ≡ []) };

    fn take(&mut self) -> Option<Packet> {
        self.queue.pop_front()
    }
}
