//! A row of four threads, each of which hands packets on to the next through a ring.

use crate::packets::{closing, is_it, packet};
use std::alloc::Global;
use std::sync::atomic::{AtomicU64, Ordering};
use std::sync::{Arc, Wait};
use std::thread;
use std::thread::Threads;
use vx_ports::{Body, InPort, OutPort, Packet, Put};
use vx_ports_rings::{RingIn, RingOut, ring_pair};
use vx_rows::Table;

/// What the last thread saw, and how many packets were not those that were to come.
#[derive(Clone, Copy)]
pub struct Seen {
    pub packets: u32,
    pub rows: u64,
    pub wrong: u32,
}

// Yields to other threads. None where the run was given up.
fn wait(given_up: &AtomicU64) -> Option<()> {
    if given_up.load(Ordering::SeqCst) != 0 {
        return None;
    }
    thread::yield_now();
    Some(())
}

// Puts a packet, again while the ring is full.
fn put(rt: &impl Wait, given_up: &AtomicU64, out: &mut RingOut, mut packet: Packet) -> Option<()> {
    for _ in rt.forever() {
        if out.is_closed() {
            return None;
        }
        match out.put(packet) {
            Put::Done => return Some(()),
            Put::Full(back) => packet = back,
            Put::NoMemory(back) => packet = back,
        }
        wait(given_up)?;
    }
    None
}

// Takes the next packet, once one waits.
fn take(rt: &impl Wait, given_up: &AtomicU64, input: &mut RingIn) -> Option<Packet> {
    for _ in rt.forever() {
        if let Some(packet) = input.take() {
            return Some(packet);
        }
        wait(given_up)?;
    }
    None
}

// Puts `packets` packets, and closes the stream.
fn produce(
    rt: &impl Wait,
    alloc: Global,
    given_up: &AtomicU64,
    base: &Arc<Table>,
    packets: u32,
    mut out: RingOut,
) -> Option<()> {
    for number in 0..packets {
        let packet = packet(alloc, base, number)?;
        put(rt, given_up, &mut out, packet)?;
    }
    put(rt, given_up, &mut out, closing(alloc, packets)?)
}

// Hands on each packet, up to the one that closes the stream.
fn relay(rt: &impl Wait, given_up: &AtomicU64, mut input: RingIn, mut out: RingOut) -> Option<()> {
    for _ in rt.forever() {
        let packet = take(rt, given_up, &mut input)?;
        let closes = packet.is_closing();
        put(rt, given_up, &mut out, packet)?;
        if closes {
            return Some(());
        }
    }
    None
}

// Takes each packet, up to the one that closes the stream.
fn consume(rt: &impl Wait, given_up: &AtomicU64, mut input: RingIn) -> Option<Seen> {
    let mut seen = Seen {
        packets: 0,
        rows: 0,
        wrong: 0,
    };
    for _ in rt.forever() {
        let packet = take(rt, given_up, &mut input)?;
        let exchange = packet.exchange();
        let Body::Rows(rows) = packet.into_body() else {
            return Some(seen);
        };
        if !is_it(&rows, exchange, seen.packets) {
            seen.wrong = seen.wrong.saturating_add(1);
        }
        seen.packets = seen.packets.saturating_add(1);
        seen.rows = seen.rows.saturating_add(rows.len() as u64);
    }
    None
}

/// Sends `packets` packets through rings of 1, 2 and 1,024 places. None where memory or a thread was refused.
pub fn run<R: Threads + Wait + Sync>(
    rt: &R,
    alloc: Global,
    base: &Arc<Table>,
    packets: u32,
) -> Option<Seen> {
    let (first_out, first_in) = ring_pair(alloc, 1).ok()?;
    let (second_out, second_in) = ring_pair(alloc, 2).ok()?;
    let (third_out, third_in) = ring_pair(alloc, 1_024).ok()?;
    let given_up = AtomicU64::new(0);
    let given_up = &given_up;
    thread::scope(thread::scope_env(), rt, |scope| -> Option<Seen> {
        let first = scope.spawn(move || produce(rt, alloc, given_up, base, packets, first_out));
        let second = scope.spawn(move || relay(rt, given_up, first_in, second_out));
        let third = scope.spawn(move || relay(rt, given_up, second_in, third_out));
        let fourth = scope.spawn(move || consume(rt, given_up, third_in));
        let (Ok(_first), Ok(_second), Ok(_third), Ok(fourth)) = (first, second, third, fourth)
        else {
            given_up.store(1, Ordering::SeqCst);
            return None;
        };
        fourth.join(rt)
    })
}
