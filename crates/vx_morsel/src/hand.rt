//! Strided numbers for one worker.

ghost use Rattle.vx_rows_values.specs.Limits.{max_group_workers, max_rows};

use crate::draw::Draw;
use std::marker::Model;

/// Calls: `new draw*`.
///
/// Deals out `place`, `place + size`, and so on, below `morsels`.
#[derive(Drop)]
pub struct Hand {
    place: u64,
    size: u64,
    morsels: u64,
    next: u64,
}

impl Model for Hand {
    ghost use Rattle.vx_morsel.specs.Hands.{HandState, IsSmall};

    ghost Value = { HandState };

    ghost view = { λ h. record { place = h.place; size = h.size; morsels = h.morsels; next = h.next } };

    ghost invariant = { λ h. IsSmall h.size h.morsels };
}

impl Hand {
    ghost use Rattle.std.specs.Prelude.{◌≡◌, ◌<◌, ◌≤◌};

    /// A hand that has dealt out nothing: for one of `size` places, 1 to 64, of a scan with at most 100,000,000 morsels.
    pub fn new(place: u64, size: u64, morsels: u64) -> Hand
        requires in_range { place < size }
        requires few { size ≤ max_group_workers }
        requires small { morsels ≤ max_rows }
        ensures { result ≡ record { place = place; size = size; morsels = morsels; next = place } }
    {
        Hand {
            place,
            size,
            morsels,
            next: place,
        }
    }
}

impl Draw for Hand {
    ghost use Rattle.vx_morsel.specs.Hands.{HandDraws};

    ghost Draws = { HandDraws };

    fn draw(&mut self) -> Option<u64> {
        if self.next >= self.morsels {
            return None;
        }
        let number = self.next;
        self.next = number + self.size;
        Some(number)
    }
}
