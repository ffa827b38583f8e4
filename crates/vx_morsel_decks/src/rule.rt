//! What a shared deck keeps between any two steps of its seats. No value of `Account` or `Drawn` is made: they are
//! what proofs say of a seat.

use atomic_table::{Join, Play, Split, TableRule};
use std::collections::LinkedList;
use std::marker::Model;

/// What one seat drew, and whether it met the end.
pub struct Drawn {
    numbers: LinkedList<u64>,
    met_end: bool,
}

impl Model for Drawn {
    ghost use Rattle.vx_morsel.specs.Draws.{Draws};

    ghost Value = { Draws };

    ghost view = { λ d. record { numbers = d.numbers; met_end = d.met_end } };
}

/// What is known of the seats that one token of the table speaks for.
pub struct Account {
    pub morsels: u64,
    pub seats: LinkedList<Drawn>,
}

/// How many numbers a deck deals, and to how many seats.
#[derive(Clone, Copy)]
pub struct DeckSize {
    pub morsels: u64,
    pub seats: u64,
}

/// The rule of a deck: its one word counts the tries to draw.
pub struct DeckRule;

impl TableRule<u8, Account, DeckSize> for DeckRule {
    ghost use Rattle.vx_morsel_decks.specs.Rule.{Holds, first_account};

    ghost holds = { λ size s. Holds size s };

    ghost first = { first_account };
}

/// A try to draw.
pub struct Try;

impl Play<u8, Account> for Try {
    ghost use Rattle.vx_morsel_decks.specs.Rule.{Tells};

    ghost then = { λ step me n after. Tells me n after };
}

/// One seat is cut off.
pub struct Deals;

impl Split<Account> for Deals {
    ghost use Rattle.vx_morsel_decks.specs.Rule.{left_of, right_of};

    ghost left = { left_of };

    ghost right = { right_of };
}

/// The seats of two tokens come together.
pub struct Gathers;

impl Join<Account> for Gathers {
    ghost use Rattle.vx_morsel_decks.specs.Rule.{both_of, spent_account};

    ghost both = { both_of };

    ghost spent = { spent_account };
}
