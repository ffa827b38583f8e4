//! What gives a worker the morsels of a scan.

use std::mem;
use vx_morsel::{Draw, Hand};
use vx_morsel_decks::{DeckSeat, SharedDeck};

/// Where the morsels come from.
#[derive(Drop)]
pub enum Dealer {
    /// A seat of the deck with this number, which the scan's workers share.
    Seat(usize, DeckSeat),
    /// A hand of the worker's own.
    Hand(Hand),
}

impl Dealer {
    ghost use Rattle.std.specs.Prelude.{◌≡◌};
    ghost use Rattle.vx_morsel.specs.Draws.{Draws};
    ghost use Rattle.vx_worker.specs.Trace.{drawn};
    ghost use Rattle.vx_exec_threads.specs.Drawers.{SitsAt, SameDealer, DealsAs};

    // The next number, or none at the end.
    fn draw(&mut self, decks: &Vec<SharedDeck>) -> Option<u64>
        requires { SitsAt decks.now.items self.old }
        ensures same { SameDealer self.old self.new }
        ensures deals { (d : Draws) → DealsAs self.old d → DealsAs self.new (drawn d result) }
    {
        match self {
            Dealer::Seat(deck, seat) => {
                let deck = *deck;
                return decks[deck].draw(seat);
            }
            Dealer::Hand(hand) => return hand.draw(),
        }
    }
}

/// Calls: `draw* take_dealer`.
///
/// The morsels of the scan with this node number.
#[derive(Drop)]
pub struct Drawer {
    scan: u32,
    dealer: Dealer,
}

impl Drawer {
    ghost use Rattle.std.specs.Prelude.{◌≡◌, ◌↔◌, true};
    ghost use Rattle.vx_exec_threads.specs.Drawers.{Sits, Dealt, IsSeat};

    /// For a scan, from a seat or a hand.
    pub fn new(scan: u32, dealer: Dealer) -> Drawer
        ensures scan { result.scan ≡ scan }
        ensures dealer { result.dealer ≡ dealer }
    {
        Drawer { scan, dealer }
    }

    /// Whether it is for this scan.
    pub fn is_for(&self, scan: u32) -> bool
        ensures { (result ≡ true) ↔ (self.now.scan ≡ scan) }
    {
        self.scan == scan
    }

    /// Whether the scan's workers share a deck.
    pub fn is_shared(&self) -> bool
        ensures { (result ≡ true) ↔ IsSeat self.now.dealer }
    {
        matches!(&self.dealer, Dealer::Seat(_, _))
    }

    /// The next number, or none at the end.
    pub fn draw(&mut self, decks: &Vec<SharedDeck>) -> Option<u64>
        requires { Sits decks.now.items self.old }
        ensures { Dealt self.old result self.new }
    {
        self.dealer.draw(decks)
    }

    /// Takes out what gives the morsels; a hand without morsels is left in its place.
    pub fn take_dealer(&mut self) -> Dealer
        ensures taken { result ≡ self.old.dealer }
        ensures scan { self.new.scan ≡ self.old.scan }
    {
        mem::replace(&mut self.dealer, Dealer::Hand(Hand::new(0, 1, 0)))
    }
}
