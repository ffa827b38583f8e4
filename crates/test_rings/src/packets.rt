//! Packets whose rows follow from their numbers. A packet has its number as that of its exchange.

use std::alloc::{AllocError, Global};
use std::sync::Arc;
use vx_ports::{Packet, StreamEnd};
use vx_rows::Table;
use vx_rows_values::limits::MAX_PACKET_ROWS;
use vx_rows_values::{Cell, ColType, Value};
use vx_rows_views::Rows;

/// The numbers 0, 1, and so on, as many as a packet may have rows.
pub fn numbers(alloc: Global) -> Result<Arc<Table>, AllocError> {
    let mut table = Table::new(alloc, &[ColType::Int])?;
    for n in 0..4_096i64 {
        table.push(&[Value::Int(n)])?;
    }
    Ok(Arc::new(alloc, table)?)
}

// How many rows the packet with this `number` has: each of 1 to 4,096 comes once in 4,096 packets.
fn size_of(number: u32) -> usize {
    (number.wrapping_mul(1_657) % 4_096) as usize + 1
}

/// The packet with this `number`: the last `size_of(number)` rows of `base`.
pub fn packet(alloc: Global, base: &Arc<Table>, number: u32) -> Option<Packet> {
    let from = base.len().checked_sub(size_of(number))?;
    let rows = Rows::of(alloc, base, from, base.len()).ok()?;
    if rows.is_empty() || rows.len() > MAX_PACKET_ROWS as usize {
        return None;
    }
    Some(Packet::of_rows(number, 0, 0, rows))
}

/// The packet with this `number` that closes a stream.
pub fn closing(alloc: Global, number: u32) -> Option<Packet> {
    match Rows::new(alloc, &[ColType::Int]) {
        Ok(none) => Some(Packet::closing(number, 0, 0, StreamEnd::Last, none)),
        Err(_) => None,
    }
}

/// Whether these are the rows of the packet with this `number`, which came from the exchange `exchange`.
pub fn is_it(rows: &Rows, exchange: u32, number: u32) -> bool {
    if exchange != number || rows.len() != size_of(number) || rows.types().len() != 1 {
        return false;
    }
    let Some(last) = rows.len().checked_sub(1) else {
        return false;
    };
    matches!(rows.cell(last, 0), Cell::Int(4_095))
}
