//! A ring in one thread, step by step.

ghost use Rattle.vx_ports_rings.specs.Ends.{IsRing, SameIn, SameOut};

use crate::packets::{closing, packet};
use std::alloc::{AllocError, Global};
use std::sync::Arc;
use vx_ports::{InPort, OutPort, Packet, Put};
use vx_ports_rings::{RingIn, RingOut, reunite, ring_pair};
use vx_rows::Table;

// The packet of a `word`, as `row2`, or as `last7` for one that closes the stream.
fn packet_of(alloc: Global, base: &Arc<Table>, word: &str) -> Option<Packet> {
    if let Some(number) = word.strip_prefix("last") {
        return closing(alloc, number.parse::<u32>().ok()?);
    }
    let number = word.strip_prefix("row")?;
    packet(alloc, base, number.parse::<u32>().ok()?)
}

// Puts a packet, and adds to `told` what came of it.
fn put(out: &mut RingOut, packet: Packet, told: &mut String) -> Result<(), AllocError>
    ensures { SameOut out.old out.new }
{
    if out.is_closed() {
        return told.push_str(" closed");
    }
    match out.put(packet) {
        Put::Done => told.push_str(" done"),
        Put::Full(packet) => write!(told, " full({})", packet.exchange()),
        Put::NoMemory(packet) => write!(told, " memory({})", packet.exchange()),
    }
}

// Takes what waits, and adds its number to `told`.
fn take(input: &mut RingIn, told: &mut String) -> Result<(), AllocError>
    ensures { SameIn input.old input.new }
{
    match input.take() {
        Some(packet) => write!(told, " {}", packet.exchange()),
        None => told.push_str(" none"),
    }
}

// Adds to `told` how many packets were seen to wait.
fn look(input: &RingIn, told: &mut String) -> Result<(), AllocError> {
    write!(told, " seen({})", input.seen())
}

// Makes the step of a `word`, and adds to `told` what came of it.
fn make_step(
    alloc: Global,
    base: &Arc<Table>,
    out: &mut RingOut,
    input: &mut RingIn,
    word: &str,
    told: &mut String,
) -> Option<()>
    requires { IsRing out.old input.old }
    ensures { IsRing out.new input.new }
{
    match word {
        "take" => take(input, told).ok(),
        "meet" => {
            reunite(out, input);
            told.push_str(" met").ok()
        }
        "look" => look(input, told).ok(),
        word => put(out, packet_of(alloc, base, word)?, told).ok(),
    }
}

/// What comes of each step of `words` on a ring with `slack` places: 1 to 1,024. None where it cannot be read, or memory ran out.
pub fn stepped(alloc: Global, base: &Arc<Table>, slack: u32, words: &str) -> Option<String> {
    if slack < 1 || slack > 1_024 {
        return None;
    }
    let Ok((mut out, mut input)) = ring_pair(alloc, slack) else {
        return None;
    };
    let mut told = String::new(alloc);
    for word in words.split_whitespace() {
        make_step(alloc, base, &mut out, &mut input, word, &mut told)?;
    }
    Some(told)
}
