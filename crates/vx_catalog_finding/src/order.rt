//! The order in which rows stand.

ghost use Rattle.std.specs.Prelude.{◌≡◌, ◌<◌, ◌++◌, ◌∷◌, [], length, IfOk, IfSome};
ghost use Rattle.vx_rows_values.specs.Order.{sorted, order_columns};
ghost use Rattle.vx_rows.specs.View.{AreColumns};
ghost use Rattle.vx_catalog_finding.specs.Found.{entry_of, next_entry, order_in};

use std::alloc::{AllocError, Global};
use vx_rows::Table;
use vx_rows_values::OrderEntry;

// Whether the rows are sorted with this entry behind the order.
#[tactic(auto, using(crate::proofs::OrderFacts::columns_longer))]
fn is_sorted_with(
    alloc: Global,
    rows: &Table,
    order: &[OrderEntry],
    entry: OrderEntry,
) -> Result<bool, AllocError>
    requires order { AreColumns (length rows.now.types) (order_columns order.now) }
    requires column { entry.column < length rows.now.types }
    ensures { IfOk result (λ b. b ≡ sorted (order.now ++ entry ∷ []) rows.now.rows) }
{
    let mut longer = Vec::from_slice(alloc, order)?;
    longer.push(entry)?;
    Ok(rows.is_sorted(longer.as_slice()))
}

// The entry of a column that sorts the rows which are equal on the order, rising or falling. A column that does both has the same
// value in all of them.
fn entry_of(
    alloc: Global,
    rows: &Table,
    order: &[OrderEntry],
    column: usize,
) -> Result<Option<OrderEntry>, AllocError>
    requires order { AreColumns (length rows.now.types) (order_columns order.now) }
    requires column { column < length rows.now.types }
    ensures { IfOk result (λ o. o ≡ entry_of order.now rows.now.rows column) }
{
    let rising = OrderEntry::rising(column);
    let falling = OrderEntry {
        column,
        falling: true,
    };
    let rises = is_sorted_with(alloc, rows, order, rising)?;
    let falls = is_sorted_with(alloc, rows, order, falling)?;
    match (rises, falls) {
        (true, false) => Ok(Some(rising)),
        (false, true) => Ok(Some(falling)),
        _ => Ok(None),
    }
}

// The entry of the first column that has one.
#[tactic(auto, using(crate::proofs::OrderFacts::order_steps))]
fn next_entry(
    alloc: Global,
    rows: &Table,
    order: &[OrderEntry],
) -> Result<Option<OrderEntry>, AllocError>
    requires { AreColumns (length rows.now.types) (order_columns order.now) }
    ensures entry { IfOk result (λ o. o ≡ next_entry order.now rows.now.rows (length rows.now.types)) }
    ensures column { IfOk result (λ o. IfSome o (λ e. e.column < length rows.now.types)) }
{
    for column in 0..rows.types().len() {
        if let Some(entry) = entry_of(alloc, rows, order, column)? {
            return Ok(Some(entry));
        }
    }
    Ok(None)
}

/// The order in which rows stand: the first column by which they are sorted and that has several values, behind it the first that so
/// sorts those which are equal on the columns before it, and so on.
#[tactic(auto, using(crate::proofs::OrderFacts::order_steps))]
pub fn order_of(alloc: Global, rows: &Table) -> Result<Vec<OrderEntry>, AllocError>
    ensures { IfOk result (λ v. v.items ≡ order_in (length rows.now.types) rows.now.rows) }
{
    let mut order = Vec::new(alloc);
    for _used in 0..rows.types().len() {
        match next_entry(alloc, rows, order.as_slice())? {
            Some(entry) => order.push(entry)?,
            None => return Ok(order),
        }
    }
    Ok(order)
}
