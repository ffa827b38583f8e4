//! Where columns of an input stand in an output, by how an operator copies them.

ghost use Rattle.std.specs.Prelude.{◌≡◌, ◌++◌, is_some, OnOk};
ghost use Rattle.vx_plan_nodes.specs.DescribeView.{copying_of};
ghost use Rattle.vx_check_rules.specs.Behaviour.{places, front_places, front_order};
ghost use Rattle.vx_check_rules.specs.Seen.{columns_seen};

use crate::columns::ColumnsSeen;
use std::alloc::AllocError;
use vx_plan_nodes::Copying;
use vx_rows_values::OrderEntry;

/// Whether each of these columns has a place.
pub fn have_places(copying: Copying<'_>, columns: ColumnsSeen<'_>) -> bool
    ensures { result ≡ is_some (places (copying_of copying.entry) (columns_seen columns.entry)) }
{
    for i in 0..columns.len() {
        if copying.place(columns.at(i)).is_none() {
            return false;
        }
    }
    true
}

/// Puts the places of these columns behind the others, up to the first column that has none.
pub fn put_places(
    found: &mut Vec<usize>,
    copying: Copying<'_>,
    columns: ColumnsSeen<'_>,
) -> Result<(), AllocError>
    ensures { OnOk result (found.new.items ≡ found.old.items ++ front_places (copying_of copying.entry) (columns_seen columns.entry)) }
{
    for i in 0..columns.len() {
        let Some(place) = copying.place(columns.at(i)) else {
            return Ok(());
        };
        found.push(place)?;
    }
    Ok(())
}

/// Puts the order of the places of these columns behind the other entries, up to the first column that has none. Each keeps
/// its direction.
pub fn put_order(
    found: &mut Vec<OrderEntry>,
    copying: Copying<'_>,
    order: &[OrderEntry],
) -> Result<(), AllocError>
    ensures { OnOk result (found.new.items ≡ found.old.items ++ front_order (copying_of copying.entry) order.now) }
{
    for entry in order {
        let Some(column) = copying.place(entry.column) else {
            return Ok(());
        };
        found.push(OrderEntry {
            column,
            falling: entry.falling,
        })?;
    }
    Ok(())
}
