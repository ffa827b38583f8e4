//! One deck for all workers of a scan, drawn from in turn.

ghost use Rattle.vx_rows_values.specs.Limits.{max_rows};

use crate::draw::Draw;
use std::marker::Model;

/// Calls: `new draw*`.
///
/// Deals out 0, 1, 2, and so on, below `morsels`.
#[derive(Drop)]
pub struct Deck {
    morsels: u64,
    next: u64,
}

impl Model for Deck {
    ghost use Rattle.vx_morsel.specs.Hands.{DeckState, IsDeck};

    ghost Value = { DeckState };

    ghost view = { λ d. record { morsels = d.morsels; next = d.next } };

    ghost invariant = { λ d. IsDeck d.morsels d.next };
}

impl Deck {
    ghost use Rattle.std.specs.Prelude.{◌≡◌, ◌≤◌};

    /// A deck that has dealt out nothing, of at most 100,000,000 morsels.
    pub fn new(morsels: u64) -> Deck
        requires { morsels ≤ max_rows }
        ensures { result ≡ record { morsels = morsels; next = 0 } }
    {
        Deck { morsels, next: 0 }
    }
}

impl Draw for Deck {
    ghost use Rattle.vx_morsel.specs.Hands.{DeckDraws};

    ghost Draws = { DeckDraws };

    fn draw(&mut self) -> Option<u64> {
        if self.next >= self.morsels {
            return None;
        }
        let number = self.next;
        self.next = number + 1;
        Some(number)
    }
}
