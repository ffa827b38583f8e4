//! Orders of rows: columns, each rising or falling.

ghost use Rattle.std.specs.Prelude.{◌≡◌, false, map, IfOk};
ghost use Rattle.vx_rows_values.specs.Order.{entry_eq, rising, order_columns, in_directions, compare_values};
ghost use Rattle.vx_rows_values.specs.ValueView.{cell_val};

use crate::value::{Cell, compare_cells};
use std::alloc::{AllocError, Global};
use std::cmp::Ordering;

/// A column of an order, counted from 0, and its direction: falling, the greatest value comes first.
#[derive(Clone, Copy, PartialEq, Eq, Default)]
pub struct OrderEntry {
    pub column: usize,
    pub falling: bool,
}

impl OrderEntry {
    /// The column, rising.
    pub fn rising(column: usize) -> OrderEntry
        ensures { result ≡ record { column = column; falling = false } }
    {
        OrderEntry {
            column,
            falling: false,
        }
    }

    /// Whether the other is the same column in the same direction.
    pub fn is_same(self, other: OrderEntry) -> bool
        ensures { result ≡ entry_eq self other }
    {
        self.column == other.column && self.falling == other.falling
    }

    /// How two rows compare in this column, which have these values there.
    pub fn compare(self, a: Cell<'_>, b: Cell<'_>) -> Ordering
        ensures { result ≡ compare_values self.falling (cell_val a.entry) (cell_val b.entry) }
    {
        if self.falling {
            compare_cells(b, a)
        } else {
            compare_cells(a, b)
        }
    }
}

/// These columns, all of them rising.
pub fn rising(alloc: Global, columns: &[usize]) -> Result<Vec<OrderEntry>, AllocError>
    ensures { IfOk result (λ v. v.items ≡ map (λ c. record { column = c; falling = false }) columns.now) }
{
    let mut order = Vec::new(alloc);
    for column in columns {
        order.push(OrderEntry::rising(*column))?;
    }
    Ok(order)
}

/// The columns of an order.
pub fn order_columns(alloc: Global, order: &[OrderEntry]) -> Result<Vec<usize>, AllocError>
    ensures { IfOk result (λ v. v.items ≡ map (λ e. e.column) order.now) }
{
    let mut columns = Vec::new(alloc);
    for entry in order {
        columns.push(entry.column)?;
    }
    Ok(columns)
}

/// These columns in these directions.
#[tactic(auto, using(crate::proofs::DirectionFacts::direction_steps))]
pub fn in_directions(
    alloc: Global,
    columns: &[usize],
    falls: &[bool],
) -> Result<Vec<OrderEntry>, AllocError>
    ensures { IfOk result (λ v. v.items ≡ in_directions columns.now falls.now) }
{
    let mut order = Vec::new(alloc);
    for i in 0..columns.len().min(falls.len()) {
        order.push(OrderEntry {
            column: columns[i],
            falling: falls[i],
        })?;
    }
    Ok(order)
}
