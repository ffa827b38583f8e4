//! How far a run by threads has come, as its threads know it.

use std::sync::Wait;
use std::sync::atomic::{AtomicU64, Ordering};
use std::time::Duration;

/// Calls: `new`; then by threads of workers `post`, and `leave` once each; and by the thread that waits for them `wait` and `rows`.
///
/// How many workers of a run have ended, and how many rows its root has given.
#[derive(Drop)]
pub struct Board {
    workers: u64,
    ended: AtomicU64,
    rows: AtomicU64,
}

impl Board {
    /// Of a run of so many workers, of which none has taken a step.
    pub fn new(workers: usize) -> Board {
        Board {
            workers: workers as u64,
            ended: AtomicU64::new(0),
            rows: AtomicU64::new(0),
        }
    }

    /// The root has given so many rows.
    pub fn post(&self, rows: u64) {
        self.rows.store(rows, Ordering::SeqCst);
    }

    /// One more worker has ended.
    pub fn leave(&self) {
        self.ended.fetch_add(1, Ordering::SeqCst);
        self.ended.wake_all();
    }

    /// How many rows the root has given.
    pub fn rows(&self) -> u64 {
        self.rows.load(Ordering::SeqCst)
    }

    /// Sleeps until another worker ends, or for some time at most. Returns whether all have ended.
    pub fn wait<T: Wait>(&self, rt: &T, most: Duration) -> bool {
        let ended = self.ended.load(Ordering::SeqCst);
        if ended < self.workers {
            let word = u32::try_from(ended).unwrap_or(u32::MAX);
            self.ended.park_timeout(rt, word, most);
        }
        self.ended.load(Ordering::SeqCst) >= self.workers
    }
}
