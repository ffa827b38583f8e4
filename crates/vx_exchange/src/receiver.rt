//! Consumer ends of exchanges.

ghost use Rattle.std.specs.Prelude.{◌≡◌, ◌≤◌, ◌<◌, ◌+◌, Some, IfOk, true, false, vec_len, IsTrue, ◌↔◌};
ghost use Rattle.vx_exchange_ends.specs.InTurn.{IsInTurn};
ghost use Rattle.vx_rows_values.specs.Limits.{max_group_workers};

use std::alloc::{AllocError, Global};
use vx_exchange_ends::next_unset;
use vx_ops::{Code, Fault, Got, Polled, Source, StreamState, Want};
use vx_ports::{Body, Packet, StreamEnd};
use vx_rows_values::ColType;

/// Calls: `new (wants turn)*`.
///
/// The consumer end of an exchange at one of its places: it returns the rows of its producers' packets as they come.
///
/// It asks the producers that have not ended in turn, for one packet each time.
pub struct Receiver {
    exchange: u32,
    place: u32,
    types: Vec<ColType>,
    ended: Vec<bool>,
    next: usize,
    over: StreamState,
    ghost next_in_range: { next < vec_len ended },
    ghost few: { vec_len ended ≤ max_group_workers },
}

impl Drop for Receiver {
    fn drop(self) {
        let Receiver {
            exchange: _,
            place: _,
            types: _,
            ended: _,
            next: _,
            over: _,
        } = self;
    }
}

impl Receiver {
    ghost use Rattle.vx_ports.specs.Packets.{PacketView, last, FitsContent};
    ghost use Rattle.vx_ops.specs.Ledger.{Ledger, receive, IsFor};
    ghost use Rattle.vx_ops.specs.Turn.{after, fresh_ledger, GivesRows, Coming, with_rows, Pays};
    ghost use Rattle.vx_ops.specs.Starts.{StartsWithin};
    ghost use Rattle.vx_ops.specs.declared.turn.Got.TheVariants as got;
    ghost use Rattle.vx_exchange.specs.Receiver.{ReceiverStands, receiver_op, receiver_types, receiver_want, receiver_most, receiver_end, unmerged_end, ChangesNext};

    /// A consumer end at a place of an exchange, by its node number, for this many producers of rows of these types: 1 to 64. Nothing came yet.
    pub fn new(
        alloc: Global,
        exchange: u32,
        place: u32,
        producers: u32,
        types: Vec<ColType>,
    ) -> Result<Receiver, AllocError>
        requires some { 1 ≤ producers }
        requires few { producers ≤ max_group_workers }
        ensures stands { IfOk result (λ r. ReceiverStands r fresh_ledger) }
        ensures op { IfOk result (λ r. receiver_op r ≡ receive (unmerged_end exchange place producers types.items)) }
        ensures types { IfOk result (λ r. receiver_types r ≡ record { left = types.items; right = types.items; out = types.items }) }
        ensures starts { IfOk result (λ r. StartsWithin (receiver_op r) (receiver_most r) (λ c. 0)) }
    {
        let ended = vec![in alloc; false; producers as usize]?;
        Ok(Receiver {
            exchange,
            place,
            types,
            ended,
            next: 0,
            over: StreamState::Running,
        })
    }

    // Goes on to the next producer that has not ended.
    fn move_on(&mut self)
        ensures { ChangesNext self.old self.new }
    {
        if let Some(i) = next_unset(self.ended.as_slice(), self.next + 1) {
            self.next = i;
        }
    }

    // Whether a packet is one of this exchange, from the producer that is next to this place, with rows of these types.
    fn is_expected(&self, packet: &Packet) -> bool
        ensures ours { IsTrue result ↔ IsFor (receiver_end self.now) self.now.next packet.now }
        ensures fit { IsTrue result → FitsContent packet.now.types packet.now.content }
    {
        packet.exchange() == self.exchange
            && packet.from() == self.next as u32
            && packet.to() == self.place
            && packet.types() == self.types.as_slice()
    }

    // Notes that the producer that is next has ended, and goes on to the next one, if there is one.
    fn end_producer(&mut self) -> Polled
        requires { self.old.over ≡ StreamState.Running }
        ensures stands { (l : Ledger) (packet : PacketView) → IsFor (receiver_end self.old) self.old.next packet → packet.content ≡ last → ReceiverStands self.old l
            → ReceiverStands self.new (after l (receiver_want self.old) (got.Packet (Some packet)) result) }
        ensures in_turn { self.new.over ≡ StreamState.Running → IsInTurn (self.old.next + 1) self.new.ended.items self.new.next }
        ensures gives { GivesRows self.old.types.items result }
        ensures pays { (c : Coming) → Pays 0 (receiver_most self.old c) 0 (receiver_most self.new c) 0 result }
        ensures op { receiver_op self.new ≡ receiver_op self.old }
    {
        self.ended[self.next] = true;
        match next_unset(self.ended.as_slice(), self.next + 1) {
            Some(i) => {
                self.next = i;
                return Polled::Waiting;
            }
            None => {
                self.over = StreamState::Ended;
                return Polled::End;
            }
        }
    }

    // Tests a packet from the producer that is next, and returns what it brings.
    fn take_packet(&mut self, packet: Packet) -> Polled
        requires { self.old.over ≡ StreamState.Running }
        ensures stands { (l : Ledger) → ReceiverStands self.old l
            → ReceiverStands self.new (after l (receiver_want self.old) (got.Packet (Some packet)) result) }
        ensures in_turn { self.new.over ≡ StreamState.Running → IsInTurn (self.old.next + 1) self.new.ended.items self.new.next }
        ensures gives { GivesRows self.old.types.items result }
        ensures pays { (c : Coming) → Pays 0 (receiver_most self.old (with_rows (receiver_want self.old) (got.Packet (Some packet)) c)) 0 (receiver_most self.new c) 0 result }
        ensures op { receiver_op self.new ≡ receiver_op self.old }
    {
        if !self.is_expected(&packet) {
            let stranger = Fault::Own {
                code: Code::Stranger,
                node: self.exchange,
            };
            self.over = StreamState::Failed(stranger);
            return Polled::Fault(stranger);
        }
        match packet.into_body() {
            Body::Rows(rows) => {
                self.move_on();
                return Polled::Gave(rows);
            }
            Body::End(StreamEnd::Last) => return self.end_producer(),
            Body::End(StreamEnd::Fault) => {
                self.over = StreamState::Failed(Fault::Passed);
                return Polled::Fault(Fault::Passed);
            }
        }
    }
}

impl Source for Receiver {
    ghost use Rattle.vx_ops.specs.Ledger.{Ledger};
    ghost use Rattle.std.proofs.Common.{le_refl};
    ghost use Rattle.vx_ops.specs.Turn.{Fits, GotTyped, GivesRows, after, Again, Coming, with_rows, own_turn, Pays};
    ghost use Rattle.vx_exchange.specs.Receiver.{ReceiverStands, receiver_op, receiver_types, receiver_want, receiver_most, receiver_abides, receiver-grows};

    ghost Stands = { ReceiverStands };

    ghost op = { receiver_op };

    ghost types = { receiver_types };

    ghost want = { receiver_want };

    ghost most = { receiver_most };

    // It always wants a packet.
    ghost idle = { λ s c. 0 };

    ghost abides = { receiver_abides };

    ghost most_grows = { receiver-grows };

    ghost idle_grows = { λ s a b h. le_refl 0 };

    fn wants(&self) -> Want {
        match self.over {
            StreamState::Running => Want::Packet(self.next as u32),
            _ => Want::Nothing,
        }
    }

    fn turn(&mut self, got: Got) -> Polled
        requires fits { Fits (receiver_want self.old) got }
        requires typed { GotTyped (receiver_types self.old) (receiver_want self.old) got }
        ensures stands { (l : Ledger) → ReceiverStands self.old l → ReceiverStands self.new (after l (receiver_want self.old) got result) }
        ensures again { (l : Ledger) → ReceiverStands self.old l → Again l.gave.over result }
        ensures gives { GivesRows (receiver_types self.old).out result }
        ensures pays { (c : Coming) → Pays (own_turn got) (receiver_most self.old (with_rows (receiver_want self.old) got c)) 0 (receiver_most self.new c) 0 result }
        ensures op { receiver_op self.new ≡ receiver_op self.old }
        ensures types { receiver_types self.new ≡ receiver_types self.old }
        ensures in_turn { self.new.over ≡ StreamState.Running → IsInTurn (self.old.next + 1) self.new.ended.items self.new.next }
    {
        match self.over {
            StreamState::Ended => Polled::End,
            StreamState::Failed(f) => Polled::Fault(f),
            StreamState::Running => match got {
                Got::Packet(Some(packet)) => self.take_packet(packet),
                _ => {
                    self.move_on();
                    Polled::Waiting
                }
            },
        }
    }
}
