//! A seat of a shared deck as what deals out morsels.

ghost use Rattle.vx_morsel_decks.specs.Seats.{IsSeatOf};

use crate::shared::{DeckSeat, SharedDeck};
use vx_morsel::Draw;

/// Calls: `with draw* into_seat`.
///
/// Draws from a shared deck for one of its seats.
#[derive(Drop)]
pub struct DeckDraw<'d> {
    deck: &'d SharedDeck,
    seat: DeckSeat,
    pub ghost sits: { IsSeatOf deck.now seat },
}

impl<'d> DeckDraw<'d> {
    ghost use Rattle.std.specs.Prelude.{◌≡◌};

    /// Takes a seat of the deck.
    pub fn with(deck: &'d SharedDeck, seat: DeckSeat) -> DeckDraw<'d>
        requires { IsSeatOf deck.now seat }
        ensures { (result.deck.now ≡ deck.now) × (result.seat ≡ seat) }
    {
        DeckDraw { deck, seat }
    }

    /// Returns the seat, which knows what it drew.
    pub fn into_seat(self) -> DeckSeat
        ensures { result ≡ self.entry.seat }
    {
        let DeckDraw { deck: _, seat } = self;
        seat
    }
}

impl<'d> Draw for DeckDraw<'d> {
    ghost use Rattle.std.specs.Prelude.{◌≡◌};
    ghost use Rattle.vx_morsel_decks.specs.Seats.{SeatDraws};

    ghost Draws = { λ a o b. (b.deck.now ≡ a.deck.now) × SeatDraws a.deck.now a.seat o b.seat };

    fn draw(&mut self) -> Option<u64> {
        self.deck.draw(&mut self.seat)
    }
}
