//! The decks of a run, one after the other.

ghost use Rattle.std.specs.Prelude.{◌≡◌, ◌≢◌, length, IfOk, OnOk};
ghost use Rattle.vx_exec_assembly.specs.Closing.{SeatedIn, AllSeatedIn, ClosedIn, AllClosed, AreApartDraws};
ghost use Rattle.vx_exec_assembly.specs.SeatsTaken.{Remains};

use crate::seats::take_seats;
use std::alloc::{AllocError, Global};
use vx_exec_threads::{DeckPlace, Drawer};
use vx_morsel_decks::SharedDeck;

// Closes the deck with this number, with the seats of all workers of its scan.
fn close_deck(
    alloc: Global,
    draws: &mut Vec<Vec<Drawer>>,
    number: usize,
    deck: SharedDeck,
    place: &DeckPlace,
) -> Result<(), AllocError>
    requires seated { SeatedIn draws.old.items number deck place.now }
    requires apart { AreApartDraws draws.old.items }
    ensures closed { OnOk result (ClosedIn draws.old.items number deck place.now) }
    ensures remains { OnOk result (Remains (λ a k. k ≢ number) draws.old.items draws.new.items) }
{
    let seats = take_seats(alloc, draws, number, place)?;
    deck.close(seats);
    Ok(())
}

/// Closes the decks of a run, with the seats that its workers held. `places` has the scan of each deck.
pub fn close_decks(
    alloc: Global,
    decks: Vec<SharedDeck>,
    places: &[DeckPlace],
    draws: Vec<Vec<Drawer>>,
) -> Result<(), AllocError>
    requires many { length places.now ≡ length decks.items }
    requires seated { AllSeatedIn decks.items places.now draws.items }
    requires apart { AreApartDraws draws.items }
    ensures { IfOk result (λ _. AllClosed decks.items places.now draws.items) }
{
    let mut draws = draws;
    for (number, deck) in decks.into_iter().enumerate() {
        close_deck(alloc, &mut draws, number, deck, &places[number])?;
    }
    Ok(())
}
