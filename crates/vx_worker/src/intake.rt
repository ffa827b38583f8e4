//! What a worker reads, and which of its inputs have ended.

use crate::wires::{Morsels, Wires};
use crate::wish::Wish;
use std::alloc::{AllocError, Global};
use vx_exchange_ends::{MayEnd, next_open};
use vx_ops::{Got, Polled};
use vx_ports::Packet;

/// A producer of an exchange from which a worker takes.
#[derive(Clone, Copy, PartialEq, Eq)]
pub struct ExchangeInput {
    exchange: u32,
    from: u32,
    is_closed: bool,
}

impl ExchangeInput {
    ghost use Rattle.std.specs.Prelude.{◌≡◌};
    ghost use Rattle.vx_worker.specs.Intake.{fresh_input, marked};

    /// The producer at this place of the exchange with this node number, from which nothing was taken.
    pub fn new(exchange: u32, from: u32) -> ExchangeInput
        ensures { result ≡ fresh_input exchange from }
    {
        ExchangeInput {
            exchange,
            from,
            is_closed: false,
        }
    }

    // Marks it as closed, where it is this producer.
    fn mark(&mut self, exchange: u32, from: u32)
        ensures { self.new ≡ marked exchange from self.old }
    {
        if self.exchange == exchange && self.from == from {
            self.is_closed = true;
        }
    }
}

impl MayEnd for ExchangeInput {
    ghost ended = { λ i. i.is_closed };

    fn has_ended(&self) -> bool {
        self.is_closed
    }
}

/// The producers from which a worker takes, and the scans whose end it met.
#[derive(Drop)]
pub struct Intake {
    inputs: Vec<ExchangeInput>,
    finished: Vec<u32>,
    next: usize,
}

/// What a worker found that takes and drops.
#[derive(Clone, Copy, PartialEq, Eq)]
pub enum Drained {
    /// A packet, which was dropped.
    Dropped,
    /// No packet at the producer that was asked.
    Nothing,
    /// Each producer's stream was taken to its end before.
    All,
}

impl Intake {
    ghost use Rattle.std.specs.Prelude.{◌≡◌, ℕ, List, map, IfOk, Some};
    ghost use Rattle.std.specs.List.{All};
    ghost use Rattle.vx_rows_values.specs.Values.{Row};
    ghost use Rattle.vx_rows_values.specs.declared.value.ColType.{ColType};
    ghost use Rattle.vx_ports.specs.Packets.{closes};
    ghost use Rattle.vx_worker.specs.Trace.{Event, Trace, added, empty_trace, took_one};
    ghost use Rattle.vx_worker.specs.Answering.{DrainFinds};
    ghost use Rattle.vx_worker.specs.Wishes.{WishFits, WishTyped};
    ghost use Rattle.vx_worker.specs.Intake.{source_of, sources_of, IsFresh, marked, BringsSome, IntakeStands, IsDrained, Fetches, Drains};

    /// Nothing was read yet.
    pub fn new(alloc: Global, inputs: Vec<ExchangeInput>) -> Intake
        requires { All IsFresh inputs.items }
        ensures sources { sources_of result ≡ map source_of inputs.items }
        ensures stands { IntakeStands result empty_trace }
    {
        Intake {
            inputs,
            finished: Vec::new(alloc),
            next: 0,
        }
    }

    /// Gets what a tree wishes, by one draw or one take at most. A morsel is lost where memory runs out.
    pub fn fetch<G: Morsels, W: Wires>(
        &mut self,
        wish: Wish,
        morsels: &G,
        wires: &mut W,
    ) -> Result<Got, AllocError>
        ensures fits { IfOk result (WishFits wish) }
        ensures typed { IfOk result (WishTyped (G.types_of morsels.now) wish) }
        ensures fetches { (e : Event) × W.Does wires.old e wires.new × Fetches (G.morsel_of morsels.now) self.old self.new wish result e }
    {
        match wish {
            Wish::Nothing => Ok(Got::Nothing),
            Wish::Morsel(scan) => self.draw(scan, morsels, wires),
            Wish::Packet(exchange, from) => self.take(exchange, from, wires),
        }
    }

    // A morsel, or the end once that was met.
    fn draw<G: Morsels, W: Wires>(
        &mut self,
        scan: u32,
        morsels: &G,
        wires: &mut W,
    ) -> Result<Got, AllocError>
        ensures fits { IfOk result (WishFits (Wish.Morsel scan)) }
        ensures typed { IfOk result (WishTyped (G.types_of morsels.now) (Wish.Morsel scan)) }
        ensures fetches { (e : Event) × W.Does wires.old e wires.new × Fetches (G.morsel_of morsels.now) self.old self.new (Wish.Morsel scan) result e }
    {
        if self.finished.contains(&scan) {
            return Ok(Got::Input(Polled::End));
        }
        match wires.draw(scan)? {
            None => {
                self.finished.push(scan)?;
                Ok(Got::Input(Polled::End))
            }
            Some(number) => {
                let rows = morsels.morsel(scan, number)?;
                if rows.len() == 0 {
                    return Ok(Got::Input(Polled::Waiting));
                }
                Ok(Got::Input(Polled::Gave(rows)))
            }
        }
    }

    // A packet, if one has come. Its producer is marked where the packet closes.
    fn take<W: Wires>(&mut self, exchange: u32, from: u32, wires: &mut W) -> Result<Got, AllocError>
        ensures fits { IfOk result (WishFits (Wish.Packet exchange from)) }
        ensures typed { (m : ℕ → List ColType) → IfOk result (WishTyped m (Wish.Packet exchange from)) }
        ensures fetches { (morsel : ℕ → ℕ → List Row) → (e : Event) × W.Does wires.old e wires.new × Fetches morsel self.old self.new (Wish.Packet exchange from) result e }
    {
        match wires.take(exchange, from)? {
            None => Ok(Got::Packet(None)),
            Some(packet) => {
                self.note(exchange, from, &packet);
                Ok(Got::Packet(Some(packet)))
            }
        }
    }

    // Notes what a producer sent: it is marked where that closes its stream.
    fn note(&mut self, exchange: u32, from: u32, packet: &Packet)
        ensures sources { sources_of self.new ≡ sources_of self.old }
        ensures scans { self.new.finished.items ≡ self.old.finished.items }
        ensures stands { (t : Trace) → IntakeStands self.old t → IntakeStands self.new (added t (took_one exchange from (Some packet.now))) }
        ensures brings { BringsSome (Some packet.now) }
    {
        // One that does not close has rows, which fit these.
        let _types = packet.types();
        if packet.is_closing() {
            self.mark(exchange, from);
        }
    }

    // Marks a producer as closed.
    fn mark(&mut self, exchange: u32, from: u32)
        ensures marks { self.new.inputs.items ≡ map (marked exchange from) self.old.inputs.items }
        ensures scans { self.new.finished.items ≡ self.old.finished.items }
    {
        for place in 0..self.inputs.len() {
            self.inputs[place].mark(exchange, from);
        }
    }

    /// Takes from the next producer that has not closed, and drops what came. Memory that is refused counts as nothing.
    pub fn drain<W: Wires>(&mut self, wires: &mut W) -> Drained
        ensures drains { (e : Event) × W.Does wires.old e wires.new × Drains self.old self.new e × DrainFinds (W.LacksMemory wires.old) self.old result e }
        ensures all { result ≡ Drained.All → (t : Trace) → IntakeStands self.new t → IsDrained (sources_of self.new) t }
    {
        let Some(place) = next_open(self.inputs.as_slice(), self.next) else {
            return Drained::All;
        };
        let ExchangeInput { exchange, from, .. } = self.inputs[place];
        self.next = place + 1;
        match wires.take(exchange, from) {
            Err(_) => return Drained::Nothing,
            Ok(None) => return Drained::Nothing,
            Ok(Some(packet)) => {
                self.note(exchange, from, &packet);
                return Drained::Dropped;
            }
        }
    }
}
