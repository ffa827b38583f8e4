//! The two ends of a ring in a thread each.

ghost use Rattle.vx_ports.specs.Packets.{Flows};
ghost use Rattle.vx_ports_rings.specs.Ends.{IsRing, SameIn, SameOut, put_to, taken_from};

use crate::packets::closing;
use std::alloc::Global;
use std::thread;
use std::thread::Threads;
use vx_ports::{InPort, OutPort, Packet};
use vx_ports_rings::{RingIn, RingOut, reunite, ring_pair};

// Puts the closing packet, if the port is open.
fn put_last(mut out: RingOut, packet: Packet) -> RingOut
    ensures { SameOut out result }
{
    if !out.is_closed() {
        let _put = out.put(packet);
    }
    out
}

// Takes what waits.
fn take_one(mut input: RingIn) -> RingIn
    ensures { SameIn input result }
{
    let _packet = input.take();
    input
}

// The two ends in a thread each: what came out is a prefix of what went in.
fn pass_on<R: Threads + Sync>(
    rt: &R,
    out: RingOut,
    input: RingIn,
    packet: Packet,
) -> (RingOut, RingIn)
    requires { IsRing out input }
    ensures { Flows (put_to result.0) (taken_from result.1) }
{
    let (mut out, mut input) = thread::join(
        rt,
        move || -> RingOut
            ensures { SameOut out result }
        { put_last(out, packet) },
        move || -> RingIn
            ensures { SameIn input result }
        { take_one(input) },
    );
    reunite(&mut out, &mut input);
    (out, input)
}

/// Whether a ring is closed by a packet that went through it from one thread to another.
pub fn passed<R: Threads + Sync>(rt: &R, alloc: Global) -> Option<&'static str> {
    let last = closing(alloc, 0)?;
    let Ok((out, input)) = ring_pair(alloc, 1) else {
        return None;
    };
    let (out, _input) = pass_on(rt, out, input, last);
    Some(if out.is_closed() { "closed" } else { "open" })
}
