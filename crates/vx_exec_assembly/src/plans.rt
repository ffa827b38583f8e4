//! The rings of a whole plan.

ghost use Rattle.std.specs.List.{All};
ghost use Rattle.vx_exec_threads.specs.Joined.{FlowsThrough};
ghost use Rattle.vx_exec_threads.specs.Paired.{IsRingOf};
ghost use Rattle.vx_exec_assembly.specs.Pairs.{Reunited};
ghost use Rattle.vx_exec_assembly.specs.Plans.{AreApart};
ghost use Rattle.vx_exec_assembly.specs.Spans.{IsSmall, IsSpanned};

use crate::pairs::reunite_exchange;
use vx_exec_layout::NodeSpan;
use vx_exec_threads::Inlet;
use vx_ports_rings::RingOut;

// Brings the ends of the rings of a node together, if it is an exchange.
fn reunite_span(outs: &mut Vec<Vec<RingOut>>, ins: &mut Vec<Vec<Inlet>>, span: NodeSpan)
    requires small { IsSmall span }
    requires rings { IsSpanned IsRingOf outs.old.items ins.old.items span }
    requires apart { AreApart ins.old.items }
    ensures reunited { Reunited outs.old.items ins.old.items outs.new.items ins.new.items }
    ensures flows { IsSpanned FlowsThrough outs.old.items ins.old.items span }
{
    match span {
        NodeSpan::Exchange(at) => reunite_exchange(
            outs,
            ins,
            at.number,
            at.below,
            at.producers,
            at.above,
            at.consumers as usize,
        ),
        NodeSpan::Inner => {}
        NodeSpan::Scan(_) => {}
    }
}

/// Brings the ends of the rings of all of these nodes together, by worker number.
pub fn reunite_spans(outs: &mut Vec<Vec<RingOut>>, ins: &mut Vec<Vec<Inlet>>, spans: &[NodeSpan])
    requires small { All IsSmall spans.now }
    requires rings { All (IsSpanned IsRingOf outs.old.items ins.old.items) spans.now }
    requires apart { AreApart ins.old.items }
    ensures reunited { Reunited outs.old.items ins.old.items outs.new.items ins.new.items }
    ensures flows { All (IsSpanned FlowsThrough outs.old.items ins.old.items) spans.now }
{
    for k in 0..spans.len() {
        reunite_span(outs, ins, spans[k]);
    }
}
