//! The wires of a worker in a thread of its own.

ghost use Rattle.std.specs.List.{All};
ghost use Rattle.vx_exec_threads.specs.Drawers.{Sits};

use crate::ends::Ends;
use std::alloc::AllocError;
use std::thread::Parker;
use vx_morsel_decks::SharedDeck;
use vx_ports::{Packet, Put};
use vx_worker::Wires;

// Whether there was room for the worker's own queues.
#[derive(Clone, Copy, PartialEq, Eq)]
enum Room {
    /// So far.
    There,
    /// Memory was refused, and the worker does not know of it yet.
    Refused,
    /// It was reported to the worker, which fails: nothing is taken early any more, so that it is reported once.
    Reported,
}

/// Calls: `new`, then steps of a worker over it, and `gather` and `noted` between them, then `into_ends`.
///
/// What one thread holds, the decks of the run, and what each worker of the run sleeps on, by its number.
#[derive(Drop)]
pub struct ThreadWires<'d> {
    ends: Ends,
    decks: &'d Vec<SharedDeck>,
    parkers: &'d [Parker],
    room: Room,
    noted: Option<Option<u64>>,
    pub ghost sits: { All (Sits decks.now.items) ends.draws.items },
}

impl<'d> ThreadWires<'d> {
    ghost use Rattle.std.specs.Prelude.{◌≡◌, ◌⊎◌, false, length, OnErr};
    ghost use Rattle.vx_worker.specs.Trace.{idle};
    ghost use Rattle.vx_exec_threads.specs.Gathering.{QueuesStay, FillsOne};
    ghost use Rattle.vx_exec_threads.specs.Waking.{NoneNoted};
    ghost use Rattle.vx_exec_threads.specs.declared.wires.Room.TheVariants as Room;
    ghost use Rattle.vx_exec_threads.specs.Inlets.{IsGathered};
    ghost use Rattle.vx_exec_threads.specs.Carrying.{Does};

    /// Of a worker whose seats are of these decks.
    pub fn new(ends: Ends, decks: &'d Vec<SharedDeck>, parkers: &'d [Parker]) -> ThreadWires<'d>
        requires { All (Sits decks.now.items) ends.draws.items }
        ensures { result.ends ≡ ends }
    {
        ThreadWires {
            ends,
            decks,
            parkers,
            room: Room::There,
            noted: None,
        }
    }

    /// Does what is to be done before the worker waits: it wakes the consumers that have packets, and takes early what waits in the rings,
    /// until memory is refused: the next call of the worker reports that. Returns whether a packet was taken, or memory refused just now: the
    /// worker's next step may move then.
    pub fn gather(&mut self) -> bool
        ensures does { Does self.old.ends idle self.new.ends }
        ensures gathered { self.new.room ≡ Room.There → All IsGathered self.new.ends.ins.items }
        ensures still { result ≡ false → QueuesStay self.old.ends.ins.items self.new.ends.ins.items }
        ensures refused { self.new.room ≡ Room.Refused → (self.old.room ≡ Room.Refused) ⊎ FillsOne self.old.ends.ins.items self.new.ends.ins.items }
        ensures reported { self.new.room ≡ Room.Reported → self.old.room ≡ Room.Reported }
        ensures woken { NoneNoted self.new.ends.unwoken }
    {
        self.ends.wake_consumers(self.parkers);
        match self.room {
            Room::There => match self.ends.gather(self.parkers) {
                Ok(moved) => return moved,
                Err(_) => {
                    self.room = Room::Refused;
                    return true;
                }
            },
            Room::Refused | Room::Reported => return false,
        }
    }

    /// Takes the last draw from a shared scan, if there was one since the previous call. `Some(None)`: the deck was empty.
    pub fn noted(&mut self) -> Option<Option<u64>>
        ensures ends { self.new.ends ≡ self.old.ends }
        ensures noted { result ≡ self.old.noted }
    {
        self.noted.take()
    }

    /// From how many producers the worker takes.
    pub fn inlets(&self) -> usize
        ensures { result ≡ length self.now.ends.ins.items }
    {
        self.ends.inlets()
    }

    /// What the worker with this number sleeps on, if there is one.
    pub fn parker(&self, worker: usize) -> Option<&'d Parker> {
        self.parkers.get(worker)
    }

    /// The ends, for whoever joins the thread.
    pub fn into_ends(self) -> Ends
        ensures { result ≡ self.entry.ends }
    {
        let ThreadWires { ends, .. } = self;
        ends
    }

    // Reports once that memory was refused.
    fn report(&mut self) -> Result<(), AllocError>
        ensures ends { self.new.ends ≡ self.old.ends }
        ensures does { Does self.old.ends idle self.new.ends }
        ensures reported { OnErr result (self.old.room ≡ Room.Refused) }
    {
        match self.room {
            Room::Refused => {
                self.room = Room::Reported;
                return Err(AllocError);
            }
            Room::There | Room::Reported => return Ok(()),
        }
    }
}

impl<'d> Wires for ThreadWires<'d> {
    ghost use Rattle.std.specs.Prelude.{◌≡◌};
    ghost use Rattle.vx_exec_threads.specs.declared.wires.Room.TheVariants as Room;
    ghost use Rattle.vx_exec_threads.specs.Carrying.{Does, IsFullAt};
    ghost use Rattle.vx_exec_threads.specs.Idle.{stays};

    ghost Does = { λ a e b. Does a.ends e b.ends };

    ghost IsFull = { λ a to. IsFullAt a.ends to };

    ghost LacksMemory = { λ a. a.room ≡ Room.Refused };

    ghost idle = { stays };

    fn draw(&mut self, scan: u32) -> Result<Option<u64>, AllocError> {
        self.report()?;
        let drawn = self.ends.draw(scan, self.decks);
        if self.ends.is_shared(scan) {
            self.noted = Some(drawn);
        }
        Ok(drawn)
    }

    fn take(&mut self, exchange: u32, from: u32) -> Result<Option<Packet>, AllocError> {
        self.report()?;
        Ok(self.ends.take(exchange, from, self.parkers))
    }

    fn put(&mut self, to: u32, packet: Packet) -> Put {
        if packet.is_closing() {
            return self.ends.put(to, packet, self.parkers);
        }
        match self.report() {
            Ok(()) => return self.ends.put(to, packet, self.parkers),
            Err(_) => return Put::NoMemory(packet),
        }
    }
}
