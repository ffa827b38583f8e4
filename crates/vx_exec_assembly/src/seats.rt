//! The seats that the workers of a run hold.

ghost use Rattle.std.specs.Prelude.{◌≡◌, ◌≢◌, ◌<◌, ◌⊎◌, length, IfOk, OnOk, IfSome, IfNone, slice_index_or};
ghost use Rattle.std.specs.List.{All};
ghost use Rattle.vx_morsel_decks.specs.Seats.{SeatView};
ghost use Rattle.vx_exec_threads.specs.declared.drawer.Drawer.{Drawer as ADrawer};
ghost use Rattle.vx_exec_threads.specs.declared.drawer.Dealer.TheVariants as dealer;
ghost use Rattle.vx_exec_assembly.specs.Closing.{DrawIn, AreApartDraws};
ghost use Rattle.vx_exec_assembly.specs.SeatsTaken.{SeatAt, AreHeld, HeldIn, Remains};

use std::alloc::{AllocError, Global};
use vx_exec_threads::{Dealer, DeckPlace, Drawer};
use vx_morsel_decks::DeckSeat;

// Where a worker's drawer for a scan stands.
fn place_of(draws: &[Drawer], scan: u32) -> Option<usize>
    ensures some { IfSome result (λ k. (k < length draws.now) × ((d : ADrawer) → (slice_index_or draws.now k d).scan ≡ scan)) }
    ensures none { IfNone result (All (λ (x : ADrawer). x.scan ≡ scan → ⊥) draws.now) }
{
    for k in 0..draws.len() {
        if draws[k].is_for(scan) {
            return Some(k);
        }
    }
    None
}

// Takes the seat of the deck with this number, which a worker has at a place.
fn take_at(draws: &mut Vec<Vec<Drawer>>, number: usize, worker: usize, place: usize) -> DeckSeat
    requires { (s : SeatView) × SeatAt draws.old.items worker place number s }
    ensures seat { SeatAt draws.old.items worker place number result }
    ensures remains { Remains (λ a k. (a ≢ worker) ⊎ (k ≢ number)) draws.old.items draws.new.items }
{
    let Dealer::Seat(at, seat) = draws[worker][place].take_dealer() else {
        unreachable!()
    };
    prove!(at == number);
    seat
}

// Takes the seat of the deck with this number, which a worker has for a scan.
fn take_seat(draws: &mut Vec<Vec<Drawer>>, number: usize, worker: usize, scan: u32) -> DeckSeat
    requires held { (s : SeatView) × DrawIn draws.old.items worker scan (dealer.Seat number s) }
    requires apart { AreApartDraws draws.old.items }
    ensures seat { DrawIn draws.old.items worker scan (dealer.Seat number result) }
    ensures remains { Remains (λ a k. (a ≢ worker) ⊎ (k ≢ number)) draws.old.items draws.new.items }
{
    let Some(place) = place_of(draws[worker].as_slice(), scan) else {
        unreachable!()
    };
    take_at(draws, number, worker, place)
}

/// Takes the seats of the deck with this number, by the places of its scan's workers.
pub fn take_seats(
    alloc: Global,
    draws: &mut Vec<Vec<Drawer>>,
    number: usize,
    place: &DeckPlace,
) -> Result<Vec<DeckSeat>, AllocError>
    requires held { AreHeld draws.old.items number place.now }
    requires apart { AreApartDraws draws.old.items }
    ensures count { IfOk result (λ v. length v.items ≡ place.now.workers) }
    ensures seats { IfOk result (λ v. HeldIn draws.old.items number place.now v.items) }
    ensures remains { OnOk result (Remains (λ a k. k ≢ number) draws.old.items draws.new.items) }
{
    let mut seats = Vec::with_capacity(alloc, place.workers as usize)?;
    for w in 0..place.workers {
        seats.push(take_seat(draws, number, place.first + w as usize, place.scan))?;
    }
    Ok(seats)
}
