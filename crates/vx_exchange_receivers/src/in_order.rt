//! The consumer end of an exchange that gives its producers' rows one producer after the other.

ghost use Rattle.std.specs.Prelude.{◌<◌};

use crate::place::ReceiverPlace;
use vx_ops::{Code, Fault, Got, Polled, Source, StreamState, Want};
use vx_ports::{Body, Packet, StreamEnd};
use vx_rows_values::ColType;

/// Calls: `new (wants turn)*`.
///
/// The consumer end of an exchange at one of its places: it returns all rows of producer 0, then those of producer 1, and so on.
///
/// It asks one producer until this has ended, and then the next. What the others send meanwhile waits at their ports.
pub struct InOrderReceiver {
    port: ReceiverPlace,
    producers: u32,
    next: u32,
    over: StreamState,
    ghost next_in_range: { next < producers },
}

impl Drop for InOrderReceiver {
    fn drop(self) {
        let InOrderReceiver {
            port: _,
            producers: _,
            next: _,
            over: _,
        } = self;
    }
}

impl InOrderReceiver {
    ghost use Rattle.std.specs.Prelude.{◌≡◌, ◌≤◌, [], true, Some};
    ghost use Rattle.vx_ports.specs.Packets.{PacketView, last};
    ghost use Rattle.vx_ops.specs.Ledger.{Ledger, receive, IsFor};
    ghost use Rattle.vx_ops.specs.Turn.{after, fresh_ledger, GivesRows, Coming, with_rows, Pays};
    ghost use Rattle.vx_ops.specs.declared.fault.StreamState.TheVariants.{Running};
    ghost use Rattle.vx_ops.specs.declared.turn.Got.TheVariants as got_of;
    ghost use Rattle.vx_ops.specs.Starts.{Starts};
    ghost use Rattle.vx_exchange_receivers.specs.InOrder.{InOrderStands, in_order_end, in_order_op, in_order_types, in_order_want, in_order_most, in_order_meaning};

    /// A consumer end at a place of an exchange, by its node number, for this many producers of rows of these types: at least one. Nothing came yet.
    pub fn new(exchange: u32, place: u32, producers: u32, types: Vec<ColType>) -> InOrderReceiver
        requires some { 1 ≤ producers }
        ensures stands { InOrderStands result fresh_ledger }
        ensures op { in_order_op result ≡ receive (record { exchange = exchange; place = place; producers = producers; types = types.items; merge = []; in_order = true }) }
        ensures types { in_order_types result ≡ record { left = types.items; right = types.items; out = types.items } }
        ensures starts { Starts (in_order_meaning result) }
    {
        InOrderReceiver {
            port: ReceiverPlace {
                exchange,
                place,
                types,
            },
            producers,
            next: 0,
            over: StreamState::Running,
        }
    }

    // Fails.
    fn fail(&mut self, fault: Fault) -> Polled
        ensures over { self.new.over ≡ StreamState.Failed fault }
        ensures result { result ≡ Polled.Fault fault }
        ensures port { self.new.port ≡ self.old.port }
        ensures producers { self.new.producers ≡ self.old.producers }
        ensures next { self.new.next ≡ self.old.next }
    {
        self.over = StreamState::Failed(fault);
        Polled::Fault(fault)
    }

    // Notes that the producer that is next has ended, and goes on to the next one, if there is one.
    fn end_producer(&mut self) -> Polled
        requires { self.old.over ≡ Running }
        ensures stands { (l : Ledger) (packet : PacketView) → IsFor (in_order_end self.old) self.old.next packet → packet.content ≡ last → InOrderStands self.old l
            → InOrderStands self.new (after l (in_order_want self.old) (got_of.Packet (Some packet)) result) }
        ensures gives { GivesRows (in_order_types self.old).out result }
        ensures pays { (c : Coming) → Pays 0 (in_order_most self.old c) 0 (in_order_most self.new c) 0 result }
        ensures op { in_order_op self.new ≡ in_order_op self.old }
        ensures types { in_order_types self.new ≡ in_order_types self.old }
    {
        if self.next + 1 < self.producers {
            self.next += 1;
            return Polled::Waiting;
        }
        self.over = StreamState::Ended;
        Polled::End
    }

    // Tests a packet from the producer that is next, and returns what it brings.
    fn take_packet(&mut self, packet: Packet) -> Polled
        requires { self.old.over ≡ Running }
        ensures stands { (l : Ledger) → InOrderStands self.old l
            → InOrderStands self.new (after l (in_order_want self.old) (got_of.Packet (Some packet)) result) }
        ensures gives { GivesRows (in_order_types self.old).out result }
        ensures pays { (c : Coming) → Pays 0 (in_order_most self.old (with_rows (in_order_want self.old) (got_of.Packet (Some packet)) c)) 0 (in_order_most self.new c) 0 result }
        ensures op { in_order_op self.new ≡ in_order_op self.old }
        ensures types { in_order_types self.new ≡ in_order_types self.old }
    {
        if !self.port.expects(self.next, &packet) {
            return self.fail(Fault::Own {
                code: Code::Stranger,
                node: self.port.exchange,
            });
        }
        match packet.into_body() {
            Body::Rows(rows) => Polled::Gave(rows),
            Body::End(StreamEnd::Last) => self.end_producer(),
            Body::End(StreamEnd::Fault) => self.fail(Fault::Passed),
        }
    }
}

impl Source for InOrderReceiver {
    ghost use Rattle.std.proofs.Common.{le_refl};
    ghost use Rattle.vx_exchange_receivers.specs.InOrder.{InOrderStands, in_order_op, in_order_types, in_order_want, in_order_most, in_order_abides, in_order-grows};

    ghost Stands = { InOrderStands };

    ghost op = { in_order_op };

    ghost types = { in_order_types };

    ghost want = { in_order_want };

    ghost most = { in_order_most };

    // It always wants a packet.
    ghost idle = { λ s c. 0 };

    ghost abides = { in_order_abides };

    ghost most_grows = { in_order-grows };

    ghost idle_grows = { λ s a b h. le_refl 0 };

    fn wants(&self) -> Want {
        match self.over {
            StreamState::Running => Want::Packet(self.next),
            _ => Want::Nothing,
        }
    }

    fn turn(&mut self, got: Got) -> Polled {
        match self.over {
            StreamState::Ended => Polled::End,
            StreamState::Failed(f) => Polled::Fault(f),
            StreamState::Running => match got {
                Got::Packet(Some(packet)) => self.take_packet(packet),
                _ => Polled::Waiting,
            },
        }
    }
}
