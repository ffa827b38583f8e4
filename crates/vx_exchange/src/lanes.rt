//! The lanes of a sending end, one for each consumer.

ghost use Rattle.std.specs.Prelude.{◌≡◌, ◌≤◌, ◌<◌, ◌^◌, [], length, true, false, IfOk, OnOk, IfSome, IfNone};
ghost use Rattle.std.specs.List.{All};
ghost use Rattle.vx_ports.specs.Seen.{ending_content};
ghost use Rattle.vx_exchange.specs.Lanes.{AreFresh, SameLanes, Finishes, GivesPacket, GivesClosing, IdleBefore, ClosedBefore};
ghost use Rattle.vx_rows_values.specs.Limits.{max_packet_rows};

use crate::lane::Lane;
use std::alloc::{AllocError, Global};
use vx_ports::{Packet, StreamEnd};
use vx_rows_values::ColType;

/// Makes a lane for each of the `consumers` consumers of an exchange.
/// Its packets have up to `size` rows of `types`, where `size` is 1 to 4,096.
pub fn make_lanes(
    alloc: Global,
    exchange: u32,
    place: u32,
    consumers: u32,
    size: usize,
    types: &[ColType],
) -> Result<Vec<Lane>, AllocError>
    requires some { 1 ≤ size }
    requires few { size ≤ max_packet_rows }
    ensures { IfOk result (λ v. AreFresh consumers (λ j. record { exchange = exchange; place = place; consumer = j; types = types.now; size = size }) v.items) }
{
    let mut lanes = Vec::new(alloc);
    for consumer in 0..consumers {
        let lane = Lane::new(alloc, exchange, place, consumer, size, types)?;
        lanes.push(lane)?;
    }
    Ok(lanes)
}

/// Makes a packet of the rows at hand of each lane, if there are any.
pub fn finish_lanes(lanes: &mut Vec<Lane>) -> Result<(), AllocError>
    requires { All (λ o. o.closed ≡ false) lanes.old.items }
    ensures ok { OnOk result (Finishes lanes.old.items lanes.new.items) }
    ensures none { OnOk result (All (λ o. o.current ≡ []) lanes.new.items) }
    ensures same { SameLanes lanes.old.items lanes.new.items }
{
    for consumer in 0..lanes.len() {
        lanes[consumer].finish()?;
    }
    Ok(())
}

/// Drops all that the lanes hold.
pub fn clear_lanes(lanes: &mut Vec<Lane>)
    ensures idle { All (λ o. o.ready ≡ []) lanes.new.items }
    ensures none { All (λ o. o.current ≡ []) lanes.new.items }
    ensures same { SameLanes lanes.old.items lanes.new.items }
{
    for consumer in 0..lanes.len() {
        lanes[consumer].clear();
    }
}

/// The next packet of rows that waits, of the first lane that has one. None waits in the lanes before the lane `first`: the search begins there.
/// Afterwards `first` is the lane where it ended.
pub fn next_packet(lanes: &mut Vec<Lane>, first: &mut usize) -> Option<(u32, Packet)>
    requires few { length lanes.old.items < 2 ^ 32 }
    requires before { IdleBefore first.old lanes.old.items }
    ensures some { IfSome result (λ x. GivesPacket lanes.old.items lanes.new.items x.0 x.1) }
    ensures none { IfNone result (All (λ o. o.ready ≡ []) lanes.old.items) }
    ensures same { IfNone result (lanes.new.items ≡ lanes.old.items) }
    ensures before { IdleBefore first.new lanes.new.items }
{
    for consumer in *first..lanes.len() {
        if let Some(packet) = lanes[consumer].next_packet() {
            *first = consumer;
            return Some((consumer as u32, packet));
        }
    }
    *first = lanes.len();
    None
}

/// The closing packet of the first lane that has not returned it. The lanes before the lane `first` have: the search begins there.
/// Afterwards `first` is the lane where it ended.
pub fn close_next(
    lanes: &mut Vec<Lane>,
    first: &mut usize,
    ending: StreamEnd,
) -> Option<(u32, Packet)>
    requires few { length lanes.old.items < 2 ^ 32 }
    requires idle { All (λ o. o.ready ≡ []) lanes.old.items }
    requires before { ClosedBefore first.old lanes.old.items }
    ensures some { IfSome result (λ x. GivesClosing (ending_content ending) lanes.old.items lanes.new.items x.0 x.1) }
    ensures none { IfNone result (All (λ o. o.closed ≡ true) lanes.old.items) }
    ensures same { IfNone result (lanes.new.items ≡ lanes.old.items) }
    ensures before { ClosedBefore first.new lanes.new.items }
{
    for consumer in *first..lanes.len() {
        if let Some(packet) = lanes[consumer].close(ending) {
            *first = consumer;
            return Some((consumer as u32, packet));
        }
    }
    *first = lanes.len();
    None
}
