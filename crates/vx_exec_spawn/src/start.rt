//! What the threads of a run wait on: the barrier until the last of them was started, and then each for its partners.

use std::alloc::{AllocError, Global};
use std::sync::Wait;
use std::sync::atomic::{AtomicU64, Ordering};
use std::thread::Parker;

/// Calls: `new`, then `wait` or `wait_for_partner` by each thread, and by the thread that starts them `go` or `cancel`, once.
///
/// Whether the workers may take their first steps; and what each of them sleeps on while it cannot move.
#[derive(Drop)]
pub struct Start {
    word: AtomicU64,
    // By worker number.
    parkers: Vec<Parker>,
}

impl Start {
    // It is not known yet.
    const UNKNOWN: u64 = 0;

    // All threads were started.
    const STARTED: u64 = 1;

    // Some thread could not be started.
    const CANCELLED: u64 = 2;

    /// A barrier that is closed, for `workers` workers.
    pub fn new(alloc: Global, workers: usize) -> Result<Start, AllocError> {
        let mut parkers = Vec::with_capacity(alloc, workers)?;
        for _ in 0..workers {
            parkers.push(Parker::new())?;
        }
        Ok(Start {
            word: AtomicU64::new(Start::UNKNOWN),
            parkers,
        })
    }

    /// What each worker sleeps on, by its number.
    pub fn parkers(&self) -> &[Parker] {
        self.parkers.as_slice()
    }

    /// Lets all threads go. Those that wait for a partner sleep on until one wakes them.
    pub fn go(&self) {
        self.set(Start::STARTED);
    }

    /// Lets all threads end before their first step.
    pub fn cancel(&self) {
        self.set(Start::CANCELLED);
        for parker in &self.parkers {
            parker.unpark();
        }
    }

    // A thread that waits sleeps only while the word is that of a closed barrier, so none sleeps on after this.
    fn set(&self, word: u64) {
        self.word.store(word, Ordering::SeqCst);
        self.word.wake_all();
    }

    /// Sleeps until it is known whether the run was started; returns whether it was.
    pub fn wait<T: Wait>(&self, rt: &T) -> bool {
        'looks: for _ in rt.forever() {
            let word = self.word.load(Ordering::SeqCst);
            if word != Start::UNKNOWN {
                return word == Start::STARTED;
            }
            self.word.park(rt, 0);
        }
        unreachable!()
    }

    /// As `wait`, for a worker that can do nothing before another sent it a packet: it sleeps until it is woken for one, or the run was
    /// cancelled. So the processors are left to those that begin.
    pub fn wait_for_partner<T: Wait>(&self, rt: &T, worker: usize) -> bool {
        let Some(parker) = self.parkers.get(worker) else {
            return self.wait(rt);
        };
        'looks: for _ in rt.forever() {
            let word = self.word.load(Ordering::SeqCst);
            if word != Start::UNKNOWN {
                return word == Start::STARTED;
            }
            parker.park(rt);
        }
        unreachable!()
    }
}
