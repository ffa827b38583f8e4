//! What is answered to what a case makes and asks, as texts.
//!
//! `ring 2:` is a ring of two places in one thread. Its words are steps: `row1` puts the packet of rows with the number 1, `last7` the one with
//! the number 7 that closes the stream, `take` takes what waits, `look` asks whether the ring is half free, and `meet` brings both ends together.
//! `deck 4 2:` is a deck of four numbers with two seats, and its words are the seats that draw; the answer ends with how many numbers were
//! drawn. `seat` is the one seat of a deck of one number, which draws by itself.
//!
//! By threads, `pair` passes a closing packet on, `row 100000` passes so many packets on in a row of four threads, and `rushing 1000 4 2000` has
//! each of four seats draw up to 2,000 numbers of a deck of 1,000. In `yielding` each seat lets others go on after a number.

use crate::decks::{drawn, drawn_alone};
use crate::loaded_decks::dealt;
use crate::loaded_rings;
use crate::pairs::passed;
use crate::rings::stepped;
use std::alloc::Global;
use std::sync::{Arc, Wait};
use std::thread::Threads;
use test_tables::three_numbers;
use vx_rows::Table;

// What comes of so many `packets` that go through a row of four threads.
fn handed_on<R: Threads + Wait + Sync>(
    rt: &R,
    alloc: Global,
    base: &Arc<Table>,
    packets: u32,
) -> Option<String> {
    let seen = loaded_rings::run(rt, alloc, base, packets)?;
    let (packets, rows, wrong) = (seen.packets, seen.rows, seen.wrong);
    format!(in alloc; "{packets} packets of {rows} rows, {wrong} wrong").ok()
}

/// What is answered to `given`. None where it cannot be read, or memory or a thread was refused.
pub fn answer_to<R: Threads + Wait + Sync>(
    rt: &R,
    alloc: Global,
    base: &Arc<Table>,
    given: &str,
) -> Option<String> {
    let (head, words) = given.split_once(':').unwrap_or((given, ""));
    let (what, numbers) = head.split_once(' ').unwrap_or((head, ""));
    match what {
        "ring" => stepped(alloc, base, numbers.parse::<u32>().ok()?, words),
        "deck" => {
            let (count, seats) = numbers.split_once(' ')?;
            let count = count.parse::<u32>().ok()?;
            drawn(alloc, count, seats.parse::<u32>().ok()?, words)
        }
        "seat" => drawn_alone(alloc),
        "pair" => String::from_str(alloc, passed(rt, alloc)?).ok(),
        "row" => handed_on(rt, alloc, base, numbers.parse::<u32>().ok()?),
        "yielding" | "rushing" => {
            let (count, seats, most) = three_numbers(numbers)?;
            dealt(rt, alloc, count, seats, most, what == "yielding")
        }
        _ => None,
    }
}
