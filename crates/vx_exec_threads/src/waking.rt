//! Waking the workers at the other ends of rings.
//!
//! To wake a worker that sleeps is a call of the system, which takes longer than to pass a small packet on. So not every packet wakes its
//! consumer, and not every place that becomes free wakes the producer. A producer wakes its consumers once some small packets or a large one
//! wait for them, when it closes a ring, and before it waits itself. A consumer that looks into a ring takes all that waits there
//! and then wakes the producer once, and before it waits itself it does so with all its rings. So no worker sleeps on while its partner waits too.

use std::thread::Parker;
use vx_ports::Put;

/// Wakes the worker with this number, or keeps it from its next sleep. A number that no worker has wakes none.
pub fn wake(parkers: &[Parker], worker: usize) {
    if let Some(parker) = parkers.get(worker) {
        parker.unpark();
    }
}

// Consumers are woken once `PACKETS` packets wait for each of them,
const PACKETS: usize = 4;

// or `ROWS` rows, which takes longer to work through than to wake the one that does it.
const ROWS: usize = 1024;

// There are no more consumers than this.
const MOST: usize = 64;

/// The consumers that were put packets since they were last woken, by their places, and how many packets these are, of how many rows.
#[derive(Clone, Copy, PartialEq, Eq)]
pub struct Unwoken {
    // A bit for each place, the lowest one for the first.
    places: u64,
    consumers: usize,
    packets: usize,
    rows: usize,
}

impl Unwoken {
    ghost use Rattle.std.specs.Prelude.{◌<◌, ℕ, ◌≡◌, true};
    ghost use Rattle.vx_exec_threads.specs.Waking.{IsNoted, NoneNoted, NotesPut};

    /// No consumer.
    pub fn new() -> Unwoken
        ensures { NoneNoted result }
    {
        Unwoken {
            places: 0,
            consumers: 0,
            packets: 0,
            rows: 0,
        }
    }

    // Adds a packet of `rows` rows for the consumer at `place`.
    fn add(&mut self, place: usize, rows: usize)
        requires { place < 64 }
        ensures noted { IsNoted self.new place }
        ensures keeps { (k : ℕ) → IsNoted self.old k → IsNoted self.new k }
    {
        self.packets = self.packets.saturating_add(1);
        self.rows = self.rows.saturating_add(rows);
        let bit = 1u64 << place as u32;
        if self.places & bit == 0 {
            self.places |= bit;
            self.consumers = self.consumers.saturating_add(1);
        }
    }

    // Whether enough waits for them.
    fn is_due(&self) -> bool {
        self.packets >= self.consumers.saturating_mul(PACKETS)
            || self.rows >= self.consumers.saturating_mul(ROWS)
    }

    /// Notes the `answer` to a put of a packet of `rows` rows to the consumer at `place`. If enough waits by now, or the packet closed the
    /// ring, all consumers with packets are woken. `first` is the number of the first consumer among all workers.
    pub fn note(
        &mut self,
        place: usize,
        answer: &Put,
        rows: usize,
        closes: bool,
        parkers: &[Parker],
        first: usize,
    )
        ensures { NotesPut place answer.now (closes ≡ true) self.old self.new }
    {
        if !matches!(answer, Put::Done) {
            return;
        }
        if place >= MOST {
            wake(parkers, first.saturating_add(place));
            return;
        }
        self.add(place, rows);
        if closes || self.is_due() {
            self.wake_all(parkers, first);
        }
    }

    /// Wakes the consumers with packets, and forgets them.
    pub fn wake_all(&mut self, parkers: &[Parker], first: usize)
        ensures { NoneNoted self.new }
    {
        if self.places == 0 {
            return;
        }
        for place in 0..MOST {
            if self.places >> place as u32 & 1 == 1 {
                wake(parkers, first.saturating_add(place));
            }
        }
        *self = Unwoken::new();
    }
}
