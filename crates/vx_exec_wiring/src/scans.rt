//! Seats and hands for the workers of one scan.

ghost use Rattle.std.specs.Prelude.{◌≤◌, ◌+◌, length, OnOk};
ghost use Rattle.std.specs.List.{All};
ghost use Rattle.vx_rows_values.specs.Limits.{max_rows};
ghost use Rattle.vx_morsel_decks.specs.Seats.{DeckView, IsNewSeat};
ghost use Rattle.vx_exec_wiring.specs.Giving.{GainsHand, GainsSeat, GivesEach, holds_of};

use crate::share::{Share, give_drawer};
use std::alloc::AllocError;
use vx_exec_layout::ScanSpan;
use vx_exec_threads::{Dealer, Drawer};
use vx_morsel::Hand;
use vx_morsel_decks::DeckSeat;

/// Gives each worker of a scan a hand with all its morsels.
pub fn deal_hands(shares: &mut Vec<Share>, scan: ScanSpan, morsels: u64) -> Result<(), AllocError>
    requires there { scan.first + scan.workers ≤ length shares.old.items }
    requires small { morsels ≤ max_rows }
    ensures { OnOk result (GivesEach (GainsHand scan.number morsels) (holds_of shares.old.items) scan.first scan.workers (holds_of shares.new.items)) }
{
    for place in 0..scan.workers {
        let hand = Hand::new(0, 1, morsels);
        let drawer = Drawer::new(scan.number, Dealer::Hand(hand));
        give_drawer(shares, scan.first + place as usize, drawer)?;
    }
    Ok(())
}

/// Gives the seats of a deck, which has this number among all decks, to the workers of its scan.
pub fn give_seats(
    shares: &mut Vec<Share>,
    scan: ScanSpan,
    deck: usize,
    seats: Vec<DeckSeat>,
) -> Result<(), AllocError>
    requires there { scan.first + length seats.items ≤ length shares.old.items }
    ensures { OnOk result ((d : DeckView) → All (IsNewSeat d) seats.items
        → GivesEach (GainsSeat scan.number deck d) (holds_of shares.old.items) scan.first (length seats.items) (holds_of shares.new.items)) }
{
    let mut place = 0;
    for seat in seats {
        let drawer = Drawer::new(scan.number, Dealer::Seat(deck, seat));
        give_drawer(shares, scan.first + place, drawer)?;
        place += 1;
    }
    Ok(())
}
