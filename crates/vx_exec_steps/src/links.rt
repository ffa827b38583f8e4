//! All queues, decks and hands of a run, as one worker sees them at a time.

use crate::ports::Ports;
use crate::station::Station;
use std::alloc::AllocError;
use std::marker::Model;
use vx_ports::{Packet, Put};
use vx_worker::Wires;

/// All that the workers of a run share, as the worker sees it whose turn it is. A worker of another fragment draws and takes nothing; an empty queue
/// and a scan that is over are no faults. Only a row packet is refused for memory.
pub struct Links {
    sends: Vec<u32>,
    stations: Vec<Station>,
    ports: Vec<Ports>,
    turn: usize,
}

impl Drop for Links {
    fn drop(self) {
        let Links {
            sends: _,
            stations: _,
            ports: _,
            turn: _,
        } = self;
    }
}

impl Model for Links {
    ghost use Rattle.vx_exec_steps.specs.LinksView.{LinksView};

    ghost Value = { LinksView };

    ghost view = { λ w. record { sends = w.sends.items; stations = w.stations.items; queues = w.ports.items; turn = w.turn } };
}

impl Links {
    ghost use Rattle.std.specs.Prelude.{◌≡◌};
    ghost use Rattle.vx_exec_steps.specs.LinksView.{FindsWay};

    /// By worker: the number of the exchange that it sends to, and its queues (the root's worker has none, and any number will do). By node
    /// number: what stands there. The first worker's turn comes first.
    pub fn new(sends: Vec<u32>, stations: Vec<Station>, ports: Vec<Ports>) -> Links
        ensures { result ≡ record { sends = sends.items; stations = stations.items; queues = ports.items; turn = 0 } }
    {
        Links {
            sends,
            stations,
            ports,
            turn: 0,
        }
    }

    /// From now on these are the wires of the worker with this number.
    pub fn serve(&mut self, worker: usize)
        ensures { self.new ≡ record { sends = self.old.sends; stations = self.old.stations; queues = self.old.queues; turn = worker } }
    {
        self.turn = worker;
    }

    // The number of the producer at a place of an exchange, and the place of the worker whose turn it is among the consumers.
    fn way(&self, exchange: u32, from: u32) -> Option<(usize, usize)>
        ensures { FindsWay self.now exchange from result }
    {
        let x = exchange as usize;
        if x >= self.stations.len() {
            return None;
        }
        match &self.stations[x] {
            Station::Exchange { below, above } => {
                let below = *below;
                let above = *above;
                let i = from as usize;
                if self.turn < above || below >= self.sends.len() || i >= self.sends.len() - below {
                    return None;
                }
                let producer = below + i;
                if self.sends[producer] != exchange || producer >= self.ports.len() {
                    return None;
                }
                return Some((producer, self.turn - above));
            }
            _ => return None,
        }
    }
}

impl Wires for Links {
    ghost use Rattle.vx_exec_steps.specs.LinksView.{Does, PortIsClosed};
    ghost use Rattle.vx_exec_steps.specs.LinksView.{stays};

    ghost Does = { Does };

    ghost IsFull = { PortIsClosed };

    ghost LacksMemory = { λ _. ⊥ };

    ghost idle = { stays };

    fn draw(&mut self, scan: u32) -> Result<Option<u64>, AllocError> {
        let k = scan as usize;
        if k >= self.stations.len() {
            return Ok(None);
        }
        Ok(self.stations[k].draw(self.turn))
    }

    fn take(&mut self, exchange: u32, from: u32) -> Result<Option<Packet>, AllocError> {
        match self.way(exchange, from) {
            None => return Ok(None),
            Some((producer, consumer)) => match self.ports[producer].take(consumer) {
                None => return Ok(None),
                Some(packet) => return Ok(Some(packet)),
            },
        }
    }

    #[tactic(auto, using(crate::proofs::BoardSteps::closed_beyond, crate::proofs::BoardSteps::closed_here))]
    fn put(&mut self, to: u32, packet: Packet) -> Put {
        if self.turn >= self.ports.len() {
            return Put::Full(packet);
        }
        self.ports[self.turn].put(to as usize, packet)
    }
}
