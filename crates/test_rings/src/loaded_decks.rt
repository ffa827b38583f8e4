//! A deck that seats draw from at once, each in a thread of its own.

ghost use Rattle.vx_morsel_decks.specs.Seats.{IsSeatOf};

use std::alloc::{AllocError, Global};
use std::thread;
use std::thread::Threads;
use vx_morsel_decks::{DeckSeat, SharedDeck};

// Draws until the seat meets the end, or has drawn `most` numbers. If it `yields`, other threads go on after each.
fn draw_all(
    deck: &SharedDeck,
    mut seat: DeckSeat,
    alloc: Global,
    most: u32,
    yields: bool,
) -> Result<Vec<u64>, AllocError>
    requires { IsSeatOf deck.now seat }
{
    let mut drawn = Vec::new(alloc);
    for _ in 0..most {
        let Some(number) = deck.draw(&mut seat) else {
            break;
        };
        drawn.push(number)?;
        if yields {
            thread::yield_now();
        }
    }
    Ok(drawn)
}

// Counts the numbers that one seat has `drawn` into `times`.
fn count(drawn: &[u64], times: &mut [u8]) {
    for number in drawn {
        if let Some(count) = times.get_mut(*number as usize) {
            *count = count.saturating_add(1);
        }
    }
}

/// How many numbers are drawn from a deck of so many `numbers` by so many `seats`, 1 to 64, and how many of the deck's numbers are drawn just
/// once. Each seat draws at most `most`. None where memory or a thread was refused.
pub fn dealt<R: Threads + Sync>(
    rt: &R,
    alloc: Global,
    numbers: u32,
    seats: u32,
    most: u32,
    yields: bool,
) -> Option<String> {
    if seats < 1 || seats > 64 || numbers > 1_000_000 {
        return None;
    }
    let Ok((deck, seats)) = SharedDeck::new(alloc, u64::from(numbers), seats) else {
        return None;
    };
    let results = thread::map_vec(
        rt,
        seats,
        &|seat: DeckSeat| draw_all(&deck, seat, alloc, most, yields),
    )
    .ok()?;
    let mut times = vec![in alloc; 0u8; numbers as usize].ok()?;
    let mut total = 0usize;
    for result in results {
        let drawn = result.ok()?;
        total = total.saturating_add(drawn.len());
        count(drawn.as_slice(), times.as_mut_slice());
    }
    let once = times.iter().filter(|count| **count == 1).count();
    format!(in alloc; "{total} numbers, {once} once").ok()
}
