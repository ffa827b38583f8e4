//! The morsels of one scan, dealt out to its workers (Leis's dispatcher, for workers that step in turn).

ghost use Rattle.vx_rows_values.specs.Limits.{max_rows};

use std::alloc::{AllocError, Global};
use std::marker::Model;
use vx_morsel::{Deck, Draw, Hand};

/// A shared scan: one deck for all its workers.
#[derive(Drop)]
pub struct SharedScan {
    first: usize,
    workers: usize,
    deck: Deck,
}

impl Model for SharedScan {
    ghost use Rattle.vx_exec_steps.specs.Scans.{SharedState};

    ghost Value = { SharedState };

    ghost view = { λ s. record { first = s.first; workers = s.workers; deck = s.deck } };
}

impl SharedScan {
    ghost use Rattle.std.specs.Prelude.{◌≡◌, ◌≤◌};
    ghost use Rattle.vx_exec_steps.specs.Scans.{SharedDraws};

    /// The scan of `workers` workers, numbered from `first` on, which share `morsels` morsels, at most 100,000,000.
    pub fn new(first: usize, workers: usize, morsels: u64) -> SharedScan
        requires { morsels ≤ max_rows }
        ensures { result ≡ record { first = first; workers = workers; deck = record { morsels = morsels; next = 0 } } }
    {
        SharedScan {
            first,
            workers,
            deck: Deck::new(morsels),
        }
    }

    /// The next morsel for a worker; a worker of another fragment gets none.
    pub fn draw(&mut self, worker: usize) -> Option<u64>
        ensures { SharedDraws self.old worker result self.new }
    {
        if worker < self.first || worker - self.first >= self.workers {
            return None;
        }
        self.deck.draw()
    }
}

/// A whole scan: each of its workers reads all morsels, by a hand of its own.
#[derive(Drop)]
pub struct WholeScan {
    first: usize,
    hands: Vec<Hand>,
}

impl Model for WholeScan {
    ghost use Rattle.vx_exec_steps.specs.Scans.{WholeState};

    ghost Value = { WholeState };

    ghost view = { λ s. record { first = s.first; hands = s.hands.items } };
}

impl WholeScan {
    ghost use Rattle.std.specs.Prelude.{◌≡◌, ◌≤◌, IfOk};
    ghost use Rattle.vx_rows.specs.Lists.{each_below};
    ghost use Rattle.vx_exec_steps.specs.Scans.{WholeDraws, full_hand};

    /// The scan of `workers` workers, numbered from `first` on, each with a hand of all `morsels` morsels, at most 100,000,000.
    pub fn new(
        alloc: Global,
        first: usize,
        workers: usize,
        morsels: u64,
    ) -> Result<WholeScan, AllocError>
        requires { morsels ≤ max_rows }
        ensures { IfOk result (λ s. s ≡ record { first = first; hands = each_below workers (λ _. full_hand morsels) }) }
    {
        let mut hands = Vec::new(alloc);
        for _ in 0..workers {
            hands.push(Hand::new(0, 1, morsels))?;
        }
        Ok(WholeScan { first, hands })
    }

    /// The next morsel for a worker; a worker of another fragment gets none.
    pub fn draw(&mut self, worker: usize) -> Option<u64>
        ensures { WholeDraws self.old worker result self.new }
    {
        if worker < self.first || worker - self.first >= self.hands.len() {
            return None;
        }
        self.hands[worker - self.first].draw()
    }
}
