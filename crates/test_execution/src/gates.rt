//! A gate that holds a thread up until another one has drawn, and that counts draws.

use std::alloc::{AllocError, Global};
use std::sync::atomic::{AtomicU64, Ordering};
use std::thread;
use vx_exec_threads::Gate;

// How often a thread that is held up looks whether it may go on, before it goes on anyway.
const LOOKS: u32 = 1_000_000;

// Counts, by any threads at once.
#[derive(Drop)]
struct Counter {
    word: AtomicU64,
}

impl Counter {
    // From zero on.
    fn new() -> Counter {
        Counter {
            word: AtomicU64::new(0),
        }
    }

    // Counts one more, and returns whether it is the first.
    fn add(&self) -> bool {
        self.word.fetch_add(1, Ordering::SeqCst) == 0
    }

    // How many it has counted.
    fn count(&self) -> u64 {
        self.word.load(Ordering::SeqCst)
    }

    // Leaves the processor to other threads until something was counted; returns whether anything was.
    fn wait(&self) -> bool {
        for _ in 0..LOOKS {
            if self.count() > 0 {
                return true;
            }
            thread::yield_now();
        }
        false
    }
}

// A fragment, and the place of one of its workers.
type Spot = (u32, u32);

// The number of a fragment and of a place that no plan has.
const NONE: u32 = u32::MAX;

// The worker of a text such as `2.0`: fragment 2, place 0.
fn spot_of(text: &str) -> Spot {
    let (fragment, place) = text.split_once('.').unwrap_or(("", ""));
    (
        fragment.parse::<u32>().unwrap_or(NONE),
        place.parse::<u32>().unwrap_or(NONE),
    )
}

/// Holds a worker up after its first draw until another one has drawn, and counts all draws.
#[derive(Drop)]
pub struct Watch {
    held: Spot,
    awaited: Spot,
    // Whether the other one is held up in the same way.
    is_mutual: bool,
    // Whether the other one is waited for until it found that nothing is left.
    until_end: bool,
    numbers: Counter,
    ends: Counter,
    draws_of_held: Counter,
    // Draws of the other one that may end the wait.
    draws_of_awaited: Counter,
    // How often one that was held up saw that the other had drawn.
    meetings: Counter,
    // Numbers that were drawn after the other one had found that nothing is left, by the one that waited for that.
    late: Counter,
}

impl Watch {
    /// Two workers are `spots`, as `1.0 1.1`. By the word `held` the first waits for the second, by `both` each for the other, and by `until` the first until
    /// the second finds that nothing is left. Where there are no spots, no one waits.
    pub fn of(word: &str, spots: &str) -> Watch {
        let (held, awaited) = spots.split_once(' ').unwrap_or(("", ""));
        Watch {
            held: spot_of(held),
            awaited: spot_of(awaited),
            is_mutual: word == "both",
            until_end: word == "until",
            numbers: Counter::new(),
            ends: Counter::new(),
            draws_of_held: Counter::new(),
            draws_of_awaited: Counter::new(),
            meetings: Counter::new(),
            late: Counter::new(),
        }
    }

    /// How many numbers were drawn, how often nothing was left, how many of those that were held up went on since the other had drawn, and how many
    /// numbers came too late.
    pub fn said(&self, alloc: Global) -> Result<String, AllocError> {
        format!(in alloc;
            "{} {} {} {}",
            self.numbers.count(),
            self.ends.count(),
            self.meetings.count(),
            self.late.count()
        )
    }

    // Notes that one more was held up no longer than until the other's draw.
    fn note(&self, has_met: bool) {
        if has_met {
            self.meetings.add();
        }
    }

    // The worker that is held up drew a number, or found that nothing is left.
    fn after_held(&self, is_number: bool) {
        if self.draws_of_held.add() {
            self.note(self.draws_of_awaited.wait());
        } else if self.until_end && is_number {
            self.late.add();
        }
    }

    // The worker that is waited for drew a number, or found that nothing is left.
    fn after_awaited(&self, is_number: bool) {
        if self.until_end && is_number {
            return;
        }
        if self.draws_of_awaited.add() && self.is_mutual {
            self.note(self.draws_of_held.wait());
        }
    }
}

impl Gate for Watch {
    fn after_draw(&self, fragment: u32, place: u32, drawn: Option<u64>) {
        let is_number = drawn.is_some();
        if is_number {
            self.numbers.add();
        } else {
            self.ends.add();
        }
        let spot = (fragment, place);
        if spot == self.held {
            self.after_held(is_number);
        }
        if spot == self.awaited {
            self.after_awaited(is_number);
        }
    }
}
