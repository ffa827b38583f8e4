//! A deck that threads draw from at once.

ghost use Rattle.vx_rows_values.specs.Limits.{max_group_workers, max_rows};

use crate::rule::{Account, Deals, DeckRule, DeckSize, Gathers, Try};
use atomic_table::{Seat, Table};
use std::alloc::{AllocError, Global};
use std::marker::Model;

/// Calls: `new draw* close`, with `draw` from any threads at once.
///
/// Deals out 0, 1, 2, and so on, below `morsels`, to the seats that were made with it. No lock is taken: a draw is one
/// atomic addition.
#[derive(Drop)]
pub struct SharedDeck {
    table: Table<u8, Account, DeckSize, DeckRule, Global>,
    size: DeckSize,
}

/// The right to draw from one deck. It knows, for contracts alone, which numbers it drew.
#[derive(Drop)]
pub struct DeckSeat {
    seat: Seat<u8, Account>,
    ended: bool,
}

impl Model for SharedDeck {
    ghost use Rattle.std.specs.Prelude.{◌≡◌, ◌+◌, ◌^◌, ◌<◌, ◌≤◌};
    ghost use Rattle.vx_morsel_decks.specs.Seats.{DeckView};

    ghost Value = { DeckView };

    ghost view = { λ d. record { name = d.table.shared.table_id; morsels = d.size.morsels; seats = d.size.seats } };

    ghost invariant = { λ d. (d.table.shared.table_id.words ≡ 1) × (d.table.shared.table_id.slots ≡ 0) × (d.table.shared.key ≡ d.size) × (1 ≤ d.size.seats) × (d.size.morsels + d.size.seats < 2 ^ 63) };
}

impl Model for DeckSeat {
    ghost use Rattle.std.specs.Prelude.{◌≡◌, []};
    ghost use Rattle.vx_morsel_decks.specs.Rule.{first_seat, one_seat};
    ghost use Rattle.vx_morsel_decks.specs.Seats.{SeatView};

    ghost Value = { SeatView };

    ghost view = { λ s. record { name = s.seat.table_id; morsels = s.seat.me.0.morsels; drew = first_seat s.seat.me.0.seats } };

    ghost invariant = { λ s. (s.seat.me.1 ≡ []) × (s.seat.me.0 ≡ one_seat s.seat.me.0.morsels (first_seat s.seat.me.0.seats)) × (s.ended ≡ (first_seat s.seat.me.0.seats).met_end) };
}

impl SharedDeck {
    ghost use Rattle.std.specs.Prelude.{◌≡◌, ◌≤◌, length, IfOk, All};
    ghost use Rattle.vx_morsel.specs.Draws.{DealtOut};
    ghost use Rattle.vx_morsel_decks.specs.Seats.{IsNewSeat, IsSeatOf, SeatDraws, draws_in};

    /// A deck of at most 100,000,000 numbers, and its 1 to 64 seats.
    pub fn new(
        alloc: Global,
        morsels: u64,
        seats: u32,
    ) -> Result<(SharedDeck, Vec<DeckSeat>), AllocError>
        requires few { (1 ≤ seats) × (seats ≤ max_group_workers) }
        requires small { morsels ≤ max_rows }
        ensures deck { IfOk result (λ r. (r.0.morsels ≡ morsels) × (r.0.seats ≡ seats)) }
        ensures seats { IfOk result (λ r. All (IsNewSeat r.0) r.1.items × (length r.1.items ≡ seats)) }
    {
        let mut all = Vec::with_capacity(alloc, seats as usize)?;
        let size = DeckSize {
            morsels,
            seats: seats as u64,
        };
        let (table, mut seat) = Table::of_words(alloc, &[0], &size)?;
        'deal: for _ in 1..seats {
            let one = table.shared.split_seat::<Deals>(&mut seat);
            all.push(DeckSeat::of(one))?;
        }
        all.push(DeckSeat::of(seat))?;
        Ok((SharedDeck { table, size }, all))
    }

    /// The next number, by one atomic addition, or none at the end. A seat that was given none makes no further step.
    pub fn draw(&self, seat: &mut DeckSeat) -> Option<u64>
        requires { IsSeatOf self.now seat.old }
        ensures { SeatDraws self.now seat.old result seat.new }
    {
        if seat.ended {
            return None;
        }
        let found = self.table.shared.fetch_add::<Try>(&mut seat.seat, 0, 1);
        if found < self.size.morsels {
            return Some(found);
        }
        seat.ended = true;
        None
    }

    /// Ends the deck, given all of its seats, and says how many numbers were drawn.
    pub fn close(self, seats: Vec<DeckSeat>) -> u64
        requires seats { All (IsSeatOf self) seats.items }
        requires all { length seats.items ≡ self.seats }
        ensures { DealtOut self.morsels result (draws_in seats.items) }
    {
        let SharedDeck { table, size } = self;
        let mut rest = seats.into_iter();
        let Some(first) = rest.next() else {
            unreachable!()
        };
        let mut all = first.into_seat();
        for next in rest {
            let seat = next.into_seat();
            table.shared.join_seat::<Gathers>(&mut all, seat);
        }
        let closed = table.close_with(all);
        let tries = closed.word(0);
        closed.free();
        tries.min(size.morsels)
    }
}

impl DeckSeat {
    ghost use Rattle.std.specs.Prelude.{◌≡◌, []};
    ghost use Rattle.vx_morsel_decks.specs.Rule.{no_draws, one_seat};

    fn of(seat: Seat<u8, Account>) -> DeckSeat
        requires { (seat.me.1 ≡ []) × (seat.me.0 ≡ one_seat seat.me.0.morsels no_draws) }
        ensures { result ≡ record { name = seat.table_id; morsels = seat.me.0.morsels; drew = no_draws } }
    {
        DeckSeat { seat, ended: false }
    }

    fn into_seat(self) -> Seat<u8, Account>
        ensures { (result.table_id ≡ self.name) × (result.me.1 ≡ []) × (result.me.0 ≡ one_seat self.morsels self.drew) }
    {
        let DeckSeat { seat, ended: _ } = self;
        seat
    }
}
