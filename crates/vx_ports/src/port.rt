//! The two ends of what carries packets from one producer to one consumer (Graefe's ports).

use crate::packet::Packet;

/// What came of a packet that was put.
#[derive(Drop)]
pub enum Put {
    /// It is on its way.
    Done,
    /// The port is full (as many packets wait as its slack): the packet is returned, and may be put again later.
    Full(Packet),
    /// Out of memory: the packet is returned. A `Link` never returns one that closes it.
    NoMemory(Packet),
}

/// Calls: `put*`, and none after that of a packet that closes the port.
///
/// The end of a producer: packets are put, and none after the one that closes it.
pub trait OutPort {
    ghost use Rattle.std.specs.Prelude.{◌≡◌, false, Bool};
    ghost use Rattle.vx_ports.specs.Packets.{PacketView};
    ghost use Rattle.vx_ports.specs.Puts.{PutOutcome};

    // Whether Last or Fault was put.
    ghost closed: { Self → Bool };

    // What a put of this packet does to the port.
    ghost Puts: { Self → PacketView → Self → Type 0 };

    // What a put that fails does.
    ghost Stays: { Self → Self → Type 0 };

    /// Puts a packet behind those that were put before.
    fn put(&mut self, packet: Packet) -> Put
        requires { closed self.old ≡ false }
        ensures { PutOutcome packet result (Puts self.old packet self.new) (Stays self.old self.new) };

    /// Whether Last or Fault was put.
    fn is_closed(&self) -> bool
        ensures { result ≡ closed self.now };
}

/// Calls: `take*`.
///
/// The end of a consumer: packets come out in the order in which they went in.
pub trait InPort {
    ghost use Rattle.std.specs.Prelude.{IfSome, IfNone};
    ghost use Rattle.vx_ports.specs.Packets.{PacketView};

    // What a take of this packet does to the port.
    ghost Takes: { Self → PacketView → Self → Type 0 };

    // What a take that finds nothing does.
    ghost Looks: { Self → Self → Type 0 };

    /// Takes the next packet. None means that none waits now, not that none will come: a stream ends by its closing packet alone.
    fn take(&mut self) -> Option<Packet>
        ensures some { IfSome result (λ p. Takes self.old p self.new) }
        ensures none { IfNone result (Looks self.old self.new) };
}
