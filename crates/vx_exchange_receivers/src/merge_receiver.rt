//! The consumer end of an exchange whose producers' streams are sorted (Graefe's merging exchange).

ghost use Rattle.std.specs.Prelude.{◌≡◌, ◌≤◌, length};
ghost use Rattle.vx_rows_values.specs.Limits.{max_group_workers};
ghost use Rattle.vx_rows_values.specs.Order.{order_columns};

use crate::merge::StreamMerge;
use crate::place::ReceiverPlace;
use std::alloc::{AllocError, Global};
use vx_ops::{Code, Fault, Got, Polled, Source, StreamState, Want};
use vx_ports::{Body, Packet, StreamEnd};
use vx_rows_values::{ColType, OrderEntry};
use vx_rows_views::Rows;

/// Calls: `new (wants turn)*`.
///
/// The consumer end of an exchange at one of its places: it returns the rows of its producers, each of which sends sorted
/// rows, merged in the same order, the rows of the lower producer first among equals.
///
/// It asks a producer that has not ended and of which no row is at hand, until there is none, and then returns the least rows
/// a batch at a time.
pub struct MergeReceiver {
    port: ReceiverPlace,
    kernel: StreamMerge,
    over: StreamState,
    ghost same_types: { kernel.types ≡ port.types.items },
    ghost few: { length kernel.heads ≤ max_group_workers },
}

impl Drop for MergeReceiver {
    fn drop(self) {
        let MergeReceiver {
            port: _,
            kernel: _,
            over: _,
        } = self;
    }
}

impl MergeReceiver {
    ghost use Rattle.std.specs.Prelude.{◌≡◌, ◌≤◌, ◌<◌, length, false, Some, None, IfOk};
    ghost use Rattle.vx_rows.specs.View.{AreColumns};
    ghost use Rattle.vx_ports.specs.Packets.{PacketView, brings};
    ghost use Rattle.vx_ops.specs.Ledger.{Ledger, receive, IsFor};
    ghost use Rattle.vx_ops.specs.Turn.{Fits, after, gives, fresh_ledger, GivesRows, Coming, with_more, with_rows, own_turn, Pays};
    ghost use Rattle.vx_ops.specs.declared.fault.StreamState.TheVariants.{Running};
    ghost use Rattle.vx_ops.specs.declared.turn.Got.TheVariants as got_of;
    ghost use Rattle.vx_ops.specs.declared.turn.Want.TheVariants as want_of;
    ghost use Rattle.vx_ops.specs.Starts.{Starts};
    ghost use Rattle.vx_exchange_receivers.specs.MergeReceiver.{MergeReceiverStands, merge_end, merge_receiver_op, merge_receiver_types, merge_receiver_want, merge_receiver_most, merge_receiver_meaning};

    /// A consumer end at a place of an exchange, by its node number, for this many producers of rows of these types, each of
    /// which sends them in the order `merge`: 1 to 64. Nothing came yet.
    pub fn new(
        alloc: Global,
        exchange: u32,
        place: u32,
        producers: u32,
        types: Vec<ColType>,
        merge: Vec<OrderEntry>,
    ) -> Result<MergeReceiver, AllocError>
        requires some { 1 ≤ producers }
        requires few { producers ≤ max_group_workers }
        requires columns { AreColumns (length types.items) (order_columns merge.items) }
        ensures stands { IfOk result (λ r. MergeReceiverStands r fresh_ledger) }
        ensures op { IfOk result (λ r. merge_receiver_op r ≡ receive (record { exchange = exchange; place = place; producers = producers; types = types.items; merge = merge.items; in_order = false })) }
        ensures types { IfOk result (λ r. merge_receiver_types r ≡ record { left = types.items; right = types.items; out = types.items }) }
        ensures starts { IfOk result (λ r. Starts (merge_receiver_meaning r)) }
    {
        let kernel = StreamMerge::new(alloc, producers as usize, merge, types.as_slice())?;
        Ok(MergeReceiver {
            port: ReceiverPlace {
                exchange,
                place,
                types,
            },
            kernel,
            over: StreamState::Running,
        })
    }

    // Fails by a fault of its own.
    fn fail_by(&mut self, code: Code) -> Polled
        ensures over { self.new.over ≡ StreamState.Failed (Fault.Own code self.old.port.exchange) }
        ensures result { result ≡ Polled.Fault (Fault.Own code self.old.port.exchange) }
        ensures port { self.new.port ≡ self.old.port }
        ensures kernel { self.new.kernel ≡ self.old.kernel }
    {
        let fault = Fault::Own {
            code,
            node: self.port.exchange,
        };
        self.over = StreamState::Failed(fault);
        Polled::Fault(fault)
    }

    // Tests a packet from the producer that lacks a row, and takes what it brings.
    fn take_packet(&mut self, from: usize, packet: Packet) -> Polled
        requires running { self.old.over ≡ Running }
        requires missing { self.old.kernel.missing ≡ Some from }
        requires few { from < length self.old.kernel.heads }
        ensures stands { (l : Ledger) → MergeReceiverStands self.old l → MergeReceiverStands self.new (after l (want_of.Packet from) (got_of.Packet (Some packet)) result) }
        ensures gives { GivesRows (merge_receiver_types self.old).out result }
        ensures pays { (c : Coming) → Pays 0 (merge_receiver_most self.old (with_rows (want_of.Packet from) (got_of.Packet (Some packet)) c)) 0 (merge_receiver_most self.new c) 0 result }
        ensures op { merge_receiver_op self.new ≡ merge_receiver_op self.old }
        ensures types { merge_receiver_types self.new ≡ merge_receiver_types self.old }
    {
        if !self.port.expects(from as u32, &packet) {
            return self.fail_by(Code::Stranger);
        }
        match packet.into_body() {
            Body::Rows(rows) => self.take_rows(from, rows),
            Body::End(StreamEnd::Last) => {
                self.kernel.end(from);
                Polled::Waiting
            }
            Body::End(StreamEnd::Fault) => {
                self.over = StreamState::Failed(Fault::Passed);
                Polled::Fault(Fault::Passed)
            }
        }
    }

    // Takes the rows of a packet from the producer that lacks a row.
    fn take_rows(&mut self, from: usize, rows: Rows) -> Polled
        requires running { self.old.over ≡ Running }
        requires missing { self.old.kernel.missing ≡ Some from }
        requires few { from < length self.old.kernel.heads }
        requires types { rows.types ≡ self.old.port.types.items }
        requires some { 1 ≤ length rows.rows }
        ensures stands { (l : Ledger) (packet : PacketView) → IsFor (merge_end self.old) from packet → packet.content ≡ brings rows.rows → MergeReceiverStands self.old l
            → MergeReceiverStands self.new (after l (want_of.Packet from) (got_of.Packet (Some packet)) result) }
        ensures gives { GivesRows (merge_receiver_types self.old).out result }
        ensures pays { (c : Coming) → Pays 0 (merge_receiver_most self.old (record c { packets = with_more from (length rows.rows) c.packets })) 0 (merge_receiver_most self.new c) 0 result }
        ensures op { merge_receiver_op self.new ≡ merge_receiver_op self.old }
        ensures types { merge_receiver_types self.new ≡ merge_receiver_types self.old }
    {
        match self.kernel.put(from, rows) {
            Ok(true) => Polled::Waiting,
            Ok(false) => self.fail_by(Code::Unsorted),
            Err(_) => self.fail_by(Code::NoMemory),
        }
    }

    // Returns the least rows at hand, where no producer lacks one.
    fn give(&mut self) -> Polled
        requires running { self.old.over ≡ Running }
        requires missing { self.old.kernel.missing ≡ None }
        ensures stands { (l : Ledger) → MergeReceiverStands self.old l → MergeReceiverStands self.new (gives l result) }
        ensures gives { GivesRows (merge_receiver_types self.old).out result }
        ensures pays { (c : Coming) → Pays 1 (merge_receiver_most self.old c) 0 (merge_receiver_most self.new c) 0 result }
        ensures op { merge_receiver_op self.new ≡ merge_receiver_op self.old }
        ensures types { merge_receiver_types self.new ≡ merge_receiver_types self.old }
    {
        match self.kernel.give() {
            Ok(rows) => {
                if rows.is_empty() {
                    self.over = StreamState::Ended;
                    return Polled::End;
                }
                Polled::Gave(rows)
            }
            Err(_) => self.fail_by(Code::NoMemory),
        }
    }

    // One turn while it runs.
    fn go_on(&mut self, got: Got) -> Polled
        requires running { self.old.over ≡ Running }
        requires fits { Fits (merge_receiver_want self.old) got }
        ensures stands { (l : Ledger) → MergeReceiverStands self.old l → MergeReceiverStands self.new (after l (merge_receiver_want self.old) got result) }
        ensures gives { GivesRows (merge_receiver_types self.old).out result }
        ensures pays { (c : Coming) → Pays (own_turn got) (merge_receiver_most self.old (with_rows (merge_receiver_want self.old) got c)) 0 (merge_receiver_most self.new c) 0 result }
        ensures op { merge_receiver_op self.new ≡ merge_receiver_op self.old }
        ensures types { merge_receiver_types self.new ≡ merge_receiver_types self.old }
    {
        let Some(from) = self.kernel.missing() else {
            return self.give();
        };
        match got {
            Got::Packet(Some(packet)) => self.take_packet(from, packet),
            _ => Polled::Waiting,
        }
    }
}

impl Source for MergeReceiver {
    ghost use Rattle.std.proofs.Common.{le_refl};
    ghost use Rattle.vx_exchange_receivers.specs.MergeReceiver.{MergeReceiverStands, merge_receiver_op, merge_receiver_types, merge_receiver_want, merge_receiver_most, merge_receiver_abides, merge_receiver-grows};

    ghost Stands = { MergeReceiverStands };

    ghost op = { merge_receiver_op };

    ghost types = { merge_receiver_types };

    ghost want = { merge_receiver_want };

    ghost most = { merge_receiver_most };

    // Where it wants nothing it returns rows, or that it is over.
    ghost idle = { λ s c. 0 };

    ghost abides = { merge_receiver_abides };

    ghost most_grows = { merge_receiver-grows };

    ghost idle_grows = { λ s a b h. le_refl 0 };

    fn wants(&self) -> Want {
        match self.over {
            StreamState::Running => match self.kernel.missing() {
                Some(from) => Want::Packet(from as u32),
                None => Want::Nothing,
            },
            _ => Want::Nothing,
        }
    }

    fn turn(&mut self, got: Got) -> Polled {
        match self.over {
            StreamState::Ended => Polled::End,
            StreamState::Failed(f) => Polled::Fault(f),
            StreamState::Running => self.go_on(got),
        }
    }
}
