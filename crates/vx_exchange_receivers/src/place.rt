//! The place of an exchange at which a consumer end takes packets.

ghost use Rattle.std.specs.Prelude.{◌↔◌, ℕ, List, Bool, IsTrue};
ghost use Rattle.vx_rows_values.specs.declared.order.OrderEntry.{OrderEntry};
ghost use Rattle.vx_ports.specs.Packets.{FitsContent};
ghost use Rattle.vx_ops.specs.Ledger.{IsFor};
ghost use Rattle.vx_exchange_receivers.specs.Ends.{end_at};

use vx_ports::Packet;
use vx_rows_values::ColType;

// A place of an exchange, by its node number, and the types of the rows that come there.
pub(crate) struct ReceiverPlace {
    pub exchange: u32,
    pub place: u32,
    pub types: Vec<ColType>,
}

impl Drop for ReceiverPlace {
    fn drop(self) {
        let ReceiverPlace {
            exchange: _,
            place: _,
            types: _,
        } = self;
    }
}

impl ReceiverPlace {
    // Whether a packet is one of this exchange, from this producer to this place, with rows of these types.
    pub(crate) fn expects(&self, from: u32, packet: &Packet) -> bool
        ensures ours { (producers : ℕ) (merge : List OrderEntry) (in_order : Bool) → (IsTrue result ↔ IsFor (end_at self.now producers merge in_order) from packet.now) }
        ensures fit { IsTrue result → FitsContent packet.now.types packet.now.content }
    {
        packet.exchange() == self.exchange
            && packet.from() == from
            && packet.to() == self.place
            && packet.types() == self.types.as_slice()
    }
}
