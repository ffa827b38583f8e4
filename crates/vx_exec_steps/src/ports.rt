//! The queues of one producer.

use std::alloc::{AllocError, Global};
use std::marker::Model;
use vx_ports::{InPort, Link, OutPort, Packet, Put};

/// The queues of a worker that sends, by the place of the consumer.
pub struct Ports {
    links: Vec<Link>,
}

impl Drop for Ports {
    fn drop(self) {
        let Ports { links: _ } = self;
    }
}

impl Model for Ports {
    ghost use Rattle.std.specs.Prelude.{List};
    ghost use Rattle.vx_ports.specs.LinkView.{LinkView};

    ghost Value = { List LinkView };

    ghost view = { λ p. p.links.items };
}

impl Ports {
    ghost use Rattle.std.specs.Prelude.{◌≡◌, [], false, length, IfOk};
    ghost use Rattle.std.specs.List.{All};
    ghost use Rattle.vx_exec_steps.specs.Queues.{PortPuts, PortTakes};

    /// An empty queue to each of `consumers` consumers.
    pub fn new(alloc: Global, consumers: usize) -> Result<Ports, AllocError>
        ensures count { IfOk result (λ p. length p ≡ consumers) }
        ensures empty { IfOk result (λ p. All (λ l. l ≡ record { queue = []; closed = false }) p) }
    {
        let mut links = Vec::new(alloc);
        for _ in 0..consumers {
            links.push(Link::new(alloc)?)?;
        }
        Ok(Ports { links })
    }

    /// Puts a packet to a consumer. Full comes where there is no such consumer, and after the port was closed.
    pub fn put(&mut self, to: usize, packet: Packet) -> Put
        ensures { PortPuts self.old to packet result self.new }
    {
        if to >= self.links.len() || self.links[to].is_closed() {
            return Put::Full(packet);
        }
        self.links[to].put(packet)
    }

    /// The next packet for a consumer, if one has come.
    pub fn take(&mut self, consumer: usize) -> Option<Packet>
        ensures { PortTakes self.old consumer result self.new }
    {
        if consumer >= self.links.len() {
            return None;
        }
        self.links[consumer].take()
    }
}
