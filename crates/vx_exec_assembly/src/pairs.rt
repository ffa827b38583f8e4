//! The rings of one exchange, pair by pair.

ghost use Rattle.std.specs.Prelude.{◌≡◌, ◌<◌, ◌≤◌, ◌+◌, ◌^◌, ℕ, true, false, length, IfSome, IfNone, slice_index_or};
ghost use Rattle.std.specs.List.{All};
ghost use Rattle.vx_exec_threads.specs.Inlets.{is_way};
ghost use Rattle.vx_exec_threads.specs.Joined.{FlowsThrough};
ghost use Rattle.vx_exec_threads.specs.Paired.{IsRingOf};
ghost use Rattle.vx_exec_threads.specs.declared.inlet.Inlet.{Inlet as AnInlet};
ghost use Rattle.vx_exec_assembly.specs.Pairs.{RingAt, Reunited};
ghost use Rattle.vx_exec_assembly.specs.Plans.{AreApart, PairIn};
ghost use Rattle.vx_rows_values.specs.Limits.{max_group_workers};

use vx_exec_threads::Inlet;
use vx_ports_rings::RingOut;

// Where the inlet from a producer of an exchange stands.
fn place_of(inlets: &[Inlet], exchange: u32, from: u32) -> Option<usize>
    ensures some { IfSome result (λ k. (k < length inlets.now)
        × ((d : AnInlet) → is_way (slice_index_or inlets.now k d) exchange from ≡ true)) }
    ensures none { IfNone result (All (λ (e : AnInlet). is_way e exchange from ≡ false) inlets.now) }
{
    for k in 0..inlets.len() {
        if inlets[k].is_from(exchange, from) {
            return Some(k);
        }
    }
    None
}

// Brings one ring's ends together: the one that worker `putter` has to the consumer at place `to`, and the one that
// worker `taker` has at place `place`.
fn reunite_at(
    outs: &mut Vec<Vec<RingOut>>,
    ins: &mut Vec<Vec<Inlet>>,
    putter: usize,
    to: usize,
    taker: usize,
    place: usize,
)
    requires { RingAt IsRingOf outs.old.items ins.old.items putter to taker place }
    ensures reunited { Reunited outs.old.items ins.old.items outs.new.items ins.new.items }
    ensures flows { RingAt FlowsThrough outs.old.items ins.old.items putter to taker place }
{
    let out = &mut outs[putter][to];
    ins[taker][place].reunite_with(out);
}

/// Brings one ring's ends together: the one that worker `putter` has to the consumer at place `to`, and the one that
/// worker `taker` has from the producer at place `from` of an exchange.
pub fn reunite_pair(
    outs: &mut Vec<Vec<RingOut>>,
    ins: &mut Vec<Vec<Inlet>>,
    putter: usize,
    to: usize,
    taker: usize,
    exchange: u32,
    from: u32,
)
    requires ring { PairIn IsRingOf outs.old.items ins.old.items putter to taker exchange from }
    requires apart { AreApart ins.old.items }
    ensures reunited { Reunited outs.old.items ins.old.items outs.new.items ins.new.items }
    ensures flows { PairIn FlowsThrough outs.old.items ins.old.items putter to taker exchange from }
{
    let Some(place) = place_of(ins[taker].as_slice(), exchange, from) else {
        unreachable!()
    };
    reunite_at(outs, ins, putter, to, taker, place);
}

/// Brings the ends of all rings of one producer together, which is worker `putter`, at place `from` of an exchange. Its
/// consumers are the workers from `above` on.
pub fn reunite_producer(
    outs: &mut Vec<Vec<RingOut>>,
    ins: &mut Vec<Vec<Inlet>>,
    putter: usize,
    above: usize,
    consumers: usize,
    exchange: u32,
    from: u32,
)
    requires small { (above < 2 ^ 32) × (consumers ≤ max_group_workers) }
    requires rings { (j : ℕ) → j < consumers → PairIn IsRingOf outs.old.items ins.old.items putter j (above + j) exchange from }
    requires apart { AreApart ins.old.items }
    ensures reunited { Reunited outs.old.items ins.old.items outs.new.items ins.new.items }
    ensures flows { (j : ℕ) → j < consumers → PairIn FlowsThrough outs.old.items ins.old.items putter j (above + j) exchange from }
{
    for place in 0..consumers {
        reunite_pair(outs, ins, putter, place, above + place, exchange, from);
    }
}

/// Brings the ends of all rings of an exchange together. Its producers are the workers from `below` on, its consumers
/// those from `above` on.
pub fn reunite_exchange(
    outs: &mut Vec<Vec<RingOut>>,
    ins: &mut Vec<Vec<Inlet>>,
    exchange: u32,
    below: usize,
    producers: u32,
    above: usize,
    consumers: usize,
)
    requires small { (below < 2 ^ 32) × (producers ≤ max_group_workers) × (above < 2 ^ 32) × (consumers ≤ max_group_workers) }
    requires rings { (i j : ℕ) → i < producers → j < consumers → PairIn IsRingOf outs.old.items ins.old.items (below + i) j (above + j) exchange i }
    requires apart { AreApart ins.old.items }
    ensures reunited { Reunited outs.old.items ins.old.items outs.new.items ins.new.items }
    ensures flows { (i j : ℕ) → i < producers → j < consumers → PairIn FlowsThrough outs.old.items ins.old.items (below + i) j (above + j) exchange i }
{
    for place in 0..producers {
        reunite_producer(
            outs,
            ins,
            below + place as usize,
            above,
            consumers,
            exchange,
            place,
        );
    }
}
