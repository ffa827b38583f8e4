//! Consumer ends and sorts, turn by turn.

ghost use Rattle.std.specs.Prelude.{◌≡◌, [], ◌∷◌, IfSome};
ghost use Rattle.vx_rows_values.specs.declared.value.ColType.TheVariants as kind;
ghost use Rattle.vx_ops.specs.Turn.{GivesRows};

use crate::rows::rows_of;
use std::alloc::{AllocError, Global};
use test_tables::shown;
use vx_exchange::Receiver;
use vx_ops::{Code, Fault, Got, Polled, Sort, Source, Want};
use vx_plan_nodes::SortPhase;
use vx_ports::{Packet, StreamEnd};
use vx_rows_values::{ColType, OrderEntry};
use vx_rows_views::Rows;

// The node of a sort.
const SORT_NODE: u32 = 5;

/// A `fault` as text: `passed`, or its code and its node.
pub fn text_of_fault(alloc: Global, fault: Fault) -> Result<String, AllocError> {
    match fault {
        Fault::Passed => String::from_str(alloc, "passed"),
        Fault::Own { code, node } => {
            let word = match code {
                Code::Overflow => "overflow",
                Code::NoMemory => "memory",
                Code::Unsorted => "unsorted",
                Code::Stranger => "stranger",
            };
            format!(in alloc; "{word}({node})")
        }
    }
}

/// The numbers of `rows` as text, a semicolon behind each.
pub fn text_of_rows(alloc: Global, rows: &Rows) -> Result<String, AllocError> {
    shown(alloc, &rows.gathered(alloc)?)
}

// What a source `answered` in a turn, as text.
fn text_of_answer(alloc: Global, answered: Polled) -> Result<String, AllocError> {
    match answered {
        Polled::Gave(rows) => text_of_rows(alloc, &rows),
        Polled::Waiting => String::from_str(alloc, "waiting"),
        Polled::End => String::from_str(alloc, "end"),
        Polled::Fault(fault) => text_of_fault(alloc, fault),
    }
}

// The packet of a `word` as `3/0/4/0-1`: the node of its exchange, its producer, its consumer, and its rows, `last` or `fault`.
fn packet_of(alloc: Global, word: &str) -> Option<Packet> {
    let mut parts = word.split('/');
    let exchange = parts.next()?.parse::<u32>().ok()?;
    let from = parts.next()?.parse::<u32>().ok()?;
    let to = parts.next()?.parse::<u32>().ok()?;
    let content = parts.next()?;
    let ending = match content {
        "last" => StreamEnd::Last,
        "fault" => StreamEnd::Fault,
        rows => return Some(Packet::of_rows(exchange, from, to, rows_of(alloc, rows)?)),
    };
    match Rows::new(alloc, &[ColType::Int]) {
        Ok(none) => Some(Packet::closing(exchange, from, to, ending, none)),
        Err(_) => None,
    }
}

// What an input answers by a `word`: nothing yet for `-`, its end, a fault that was passed on, or rows.
fn input_of(alloc: Global, word: &str) -> Option<Polled>
    ensures { IfSome result (GivesRows (kind.Int ∷ [])) }
{
    match word {
        "-" => Some(Polled::Waiting),
        "end" => Some(Polled::End),
        "fault" => Some(Polled::Fault(Fault::Passed)),
        rows => Some(Polled::Gave(rows_of(alloc, rows)?)),
    }
}

// Makes one turn of `source`, which gets what a `word` says, where `-` is nothing. It adds to `told` what was wanted, and returns the answer.
fn take_turn<S: Source>(
    alloc: Global,
    source: &mut S,
    word: &str,
    told: &mut String,
) -> Option<Polled>
    requires { (S.types source.old).left ≡ kind.Int ∷ [] }
    ensures { S.types source.new ≡ S.types source.old }
{
    match source.wants() {
        Want::Nothing => {
            told.push_str(" -:").ok()?;
            Some(source.turn(Got::Nothing))
        }
        Want::Left => {
            told.push_str(" left:").ok()?;
            let input = input_of(alloc, word)?;
            Some(source.turn(Got::Input(input)))
        }
        Want::Packet(from) => {
            write!(told, " {from}:").ok()?;
            let packet = match word {
                "-" => None,
                word => Some(packet_of(alloc, word)?),
            };
            Some(source.turn(Got::Packet(packet)))
        }
        Want::Morsel | Want::Right => None,
    }
}

// What `source` wants and answers in a turn for each word of `words`. None where a word cannot be read, or memory ran out.
fn turns_of<S: Source>(alloc: Global, source: &mut S, words: &str) -> Option<String>
    requires { (S.types source.old).left ≡ kind.Int ∷ [] }
{
    let mut told = String::new(alloc);
    for word in words.split_whitespace() {
        let answered = take_turn(alloc, source, word, &mut told)?;
        let text = text_of_answer(alloc, answered).ok()?;
        told.push_str(text.as_str()).ok()?;
    }
    Some(told)
}

/// The turns of a consumer end at the place `place` of the exchange `exchange`, with so many `producers`: 1 to 64.
pub fn received(
    alloc: Global,
    exchange: u32,
    place: u32,
    producers: u32,
    words: &str,
) -> Option<String> {
    if producers < 1 || producers > 64 {
        return None;
    }
    let Ok(types) = Vec::from_slice(alloc, &[ColType::Int]) else {
        return None;
    };
    let Ok(mut receiver) = Receiver::new(alloc, exchange, place, producers, types) else {
        return None;
    };
    turns_of(alloc, &mut receiver, words)
}

/// The turns of a sort of rows of one number, rising or falling.
pub fn sorted(alloc: Global, falling: bool, words: &str) -> Option<String> {
    let Ok(order) = Vec::from_slice(alloc, &[OrderEntry { column: 0, falling }]) else {
        return None;
    };
    let Ok(mut sort) = Sort::new(alloc, SORT_NODE, SortPhase::Plain, order, &[ColType::Int]) else {
        return None;
    };
    turns_of(alloc, &mut sort, words)
}
