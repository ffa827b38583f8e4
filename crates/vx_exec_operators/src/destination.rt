//! Where the rows of a fragment's top go.

use std::alloc::AllocError;
use vx_exchange::{Collector, Sender};
use vx_exchange_ends::Sends;
use vx_ops::Polled;
use vx_plan_nodes::Router;
use vx_ports::Packet;

/// Through the sending end of an exchange, or, at the root, to the rows of the answer.
#[derive(Drop)]
pub enum Destination {
    Send(Sender),
    Collect(Collector),
}

impl Sends for Destination {
    ghost use Rattle.vx_exec_operators.specs.Destination.{DestinationStands, task_of, post_of, bounds_of, is_open, has_closed, held_in, unclosed_in, held_for, few_closings, open_first, begun, at_post, streams};

    ghost Stands = { DestinationStands };

    ghost task = { task_of };

    ghost post = { post_of };

    ghost bounds = { bounds_of };

    ghost is_open = { is_open };

    ghost has_closed = { has_closed };

    ghost held = { held_in };

    ghost unclosed = { unclosed_in };

    ghost held_for = { held_for };

    ghost few_closings = { few_closings };

    ghost open_first = { open_first };

    ghost begun = { begun };

    ghost at_post = { at_post };

    ghost streams = { streams };

    fn accept<R: Router>(&mut self, router: &R, polled: Polled) -> Result<(), AllocError> {
        match self {
            Destination::Send(sender) => sender.accept(router, polled),
            Destination::Collect(collector) => collector.accept(router, polled),
        }
    }

    fn next(&mut self) -> Option<(u32, Packet)> {
        match self {
            Destination::Send(sender) => sender.next(),
            Destination::Collect(collector) => collector.next(),
        }
    }
}
