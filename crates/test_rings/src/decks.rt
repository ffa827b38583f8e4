//! Numbers that the seats of a deck draw, in one thread.

ghost use Rattle.std.specs.Prelude.{◌≡◌, All, length};
ghost use Rattle.vx_morsel_decks.specs.Seats.{IsSeatOf};

use std::alloc::{AllocError, Global};
use vx_morsel::Draw;
use vx_morsel_decks::{DeckDraw, DeckSeat, SharedDeck};

// Adds to `told` what was `drawn`.
fn push_drawn(told: &mut String, drawn: Option<u64>) -> Result<(), AllocError> {
    match drawn {
        Some(number) => write!(told, " {number}"),
        None => told.push_str(" none"),
    }
}

// What the seat at this `place` draws: none where there is no such seat.
fn draw_at(deck: &SharedDeck, seats: &mut Vec<DeckSeat>, place: usize) -> Option<u64>
    requires { All (IsSeatOf deck.now) seats.old.items }
    ensures seats { All (IsSeatOf deck.now) seats.new.items }
    ensures length { length seats.new.items ≡ length seats.old.items }
{
    if place >= seats.len() {
        return None;
    }
    deck.draw(&mut seats[place])
}

// What the seats draw whose places are these `words`, one after the other, and how many numbers the deck then says were drawn.
fn drawn_in_turn(
    alloc: Global,
    deck: SharedDeck,
    mut seats: Vec<DeckSeat>,
    words: &str,
) -> Option<String>
    requires seats { All (IsSeatOf deck) seats.items }
    requires all { length seats.items ≡ deck.seats }
{
    let mut told = String::new(alloc);
    for word in words.split_whitespace() {
        let place = word.parse::<usize>().ok()?;
        push_drawn(&mut told, draw_at(&deck, &mut seats, place)).ok()?;
    }
    let drawn = deck.close(seats);
    write!(&mut told, " of {drawn}").ok()?;
    Some(told)
}

/// What seats draw from a deck of so many `numbers`, which has so many `seats`: 1 to 64. The `words` are their places in turn.
pub fn drawn(alloc: Global, numbers: u32, seats: u32, words: &str) -> Option<String> {
    if seats < 1 || seats > 64 || numbers > 1_000_000 {
        return None;
    }
    match SharedDeck::new(alloc, u64::from(numbers), seats) {
        Ok((deck, seats)) => drawn_in_turn(alloc, deck, seats, words),
        Err(_) => None,
    }
}

/// What the one seat of a deck of one number draws: twice by itself, and once by the deck.
pub fn drawn_alone(alloc: Global) -> Option<String> {
    let Ok((deck, mut seats)) = SharedDeck::new(alloc, 1, 1) else {
        return None;
    };
    let seat = seats.pop()?;
    let mut told = String::new(alloc);
    let mut draws = DeckDraw::with(&deck, seat);
    push_drawn(&mut told, draws.draw()).ok()?;
    push_drawn(&mut told, draws.draw()).ok()?;
    let mut seat = draws.into_seat();
    push_drawn(&mut told, deck.draw(&mut seat)).ok()?;
    Some(told)
}
