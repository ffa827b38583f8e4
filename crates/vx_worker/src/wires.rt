//! What a worker is connected to, and what it works on.

use std::alloc::AllocError;
use vx_ports::{Packet, Put};
use vx_rows_views::Rows;

/// The decks, inward ports and outward ports of one worker. Each call draws, takes or puts at most once, and nothing where it refuses.
pub trait Wires {
    ghost use Rattle.std.specs.Prelude.{ℕ, IfOk, OnErr};
    ghost use Rattle.vx_worker.specs.Trace.{Event, idle as idling, drew_one, took_one};
    ghost use Rattle.vx_worker.specs.Wiring.{PutGives};

    // That this event leads from one state to another.
    ghost Does: { Self → Event → Self → Type 0 };

    // That the port to a consumer is full in this state: it takes no packet.
    ghost IsFull: { Self → ℕ → Type 0 };

    // That memory may be refused to a draw or a take in this state.
    ghost LacksMemory: { Self → Type 0 };

    /// Draws the next morsel of the scan with this number, or none at its end.
    fn draw(&mut self, scan: u32) -> Result<Option<u64>, AllocError>
        ensures ok { IfOk result (λ d. Does self.old (drew_one scan d) self.new) }
        ensures err { OnErr result (Does self.old idling self.new) }
        ensures memory { OnErr result (LacksMemory self.old) };

    /// Takes the next packet of an exchange from a producer, if one has come.
    fn take(&mut self, exchange: u32, from: u32) -> Result<Option<Packet>, AllocError>
        ensures ok { IfOk result (λ p. Does self.old (took_one exchange from p) self.new) }
        ensures err { OnErr result (Does self.old idling self.new) }
        ensures memory { OnErr result (LacksMemory self.old) };

    /// Puts a packet to a consumer.
    fn put(&mut self, to: u32, packet: Packet) -> Put
        ensures { PutGives Does IsFull self.old self.new to packet result };

    // Doing nothing is allowed.
    ghost idle: { (w : Self) → Does w idling w };
}

/// The morsels that a fragment's scans read.
pub trait Morsels {
    ghost use Rattle.std.specs.Prelude.{◌≡◌, ℕ, List, IfOk};
    ghost use Rattle.vx_rows_values.specs.declared.value.ColType.{ColType};
    ghost use Rattle.vx_rows_values.specs.Values.{Row};

    // The rows of a scan's morsel.
    ghost morsel_of: { Self → ℕ → ℕ → List Row };

    // The types of a scan's rows.
    ghost types_of: { Self → ℕ → List ColType };

    /// A morsel of the scan with this node number.
    fn morsel(&self, scan: u32, number: u64) -> Result<Rows, AllocError>
        ensures rows { IfOk result (λ r. r.rows ≡ morsel_of self.now scan number) }
        ensures types { IfOk result (λ r. r.types ≡ types_of self.now scan) };
}
