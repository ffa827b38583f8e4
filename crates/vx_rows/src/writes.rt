//! Writes to all columns of rows. A write at `at` leaves the first `at` rows and what stands in the columns before,
//! and drops the rest: where it fails these rows still stand.

ghost use Rattle.std.specs.Prelude.{◌≡◌, ℕ, ◌+◌, ◌-◌, ◌<◌, ◌≤◌, ◌∷◌, [], length, map, take, true, slice_index, OnOk, IfOk};
ghost use Rattle.std.specs.List.{list_all};
ghost use Rattle.vx_rows_values.specs.ValueView.{val_of, cell_val};
ghost use Rattle.vx_rows.specs.View.{ArePositions};
ghost use Rattle.vx_rows_values.specs.Types.{type_of, type_at, is_held};
ghost use Rattle.vx_rows.specs.Columns.{column_type, size, entry, row_of, AreLong, KeepRows, Fills};

use crate::column::Column;
use std::alloc::{AllocError, Global};
use vx_rows_values::{Cell, ColType, Value};

/// Puts a value into a column, past the first `at` rows.
#[inline(always)]
pub fn put_cell(
    columns: &mut Vec<Column>,
    j: usize,
    at: usize,
    cell: Cell<'_>,
) -> Result<(), AllocError>
    requires column { j < length columns.old.items }
    requires long { AreLong at columns.old.items }
    requires kind { type_at (map column_type columns.old.items) j ≡ type_of (cell_val cell) }
    ensures rows { KeepRows at columns.old.items columns.new.items }
    ensures before { take j columns.new.items ≡ take j columns.old.items }
    ensures held { is_held (cell_val cell.entry) ≡ true }
    ensures ok { OnOk result (Fills at 1 j (j + 1) columns.old.items columns.new.items (λ _. cell_val cell.entry ∷ [])) }
{
    let column = &mut columns[j];
    column.put(at, cell)
}

/// Puts a part of another column into a column, past the first `at` rows.
pub fn put_part(
    columns: &mut Vec<Column>,
    j: usize,
    at: usize,
    other: &Column,
    from: usize,
    to: usize,
) -> Result<(), AllocError>
    requires column { j < length columns.old.items }
    requires long { AreLong at columns.old.items }
    requires kind { type_at (map column_type columns.old.items) j ≡ column_type other.now }
    requires order { from ≤ to }
    requires there { to ≤ size other.now }
    ensures rows { KeepRows at columns.old.items columns.new.items }
    ensures ok { OnOk result (Fills at (to - from) j (j + 1) columns.old.items columns.new.items (λ k. entry other.now (from + k) ∷ [])) }
{
    let column = &mut columns[j];
    column.put_range(at, other, from, to)
}

/// Puts rows of other columns into these.
pub fn put_rows(
    columns: &mut Vec<Column>,
    at: usize,
    others: &Vec<Column>,
    from: usize,
    to: usize,
) -> Result<(), AllocError>
    requires room { length others.now.items ≤ length columns.old.items }
    requires long { AreLong at columns.old.items }
    requires order { from ≤ to }
    requires there { AreLong to others.now.items }
    requires kinds { (k : ℕ) → k < length others.now.items
        → type_at (map column_type columns.old.items) k ≡ type_at (map column_type others.now.items) k }
    ensures rows { KeepRows at columns.old.items columns.new.items }
    ensures ok { OnOk result (Fills at (to - from) 0 (length others.now.items) columns.old.items columns.new.items (λ k. row_of others.now.items (from + k))) }
{
    for j in 0..others.len() {
        put_part(columns, j, at, &others[j], from, to)?;
    }
    Ok(())
}

/// Puts values into these columns.
pub fn put_values(columns: &mut Vec<Column>, at: usize, values: &[Value]) -> Result<(), AllocError>
    requires room { length values.now ≤ length columns.old.items }
    requires long { AreLong at columns.old.items }
    requires kinds { (k : ℕ) → k < length values.now
        → type_at (map column_type columns.old.items) k ≡ type_at (map type_of (map val_of values.now)) k }
    ensures rows { KeepRows at columns.old.items columns.new.items }
    ensures held { OnOk result (list_all is_held (map val_of values.now) ≡ true) }
    ensures ok { OnOk result (Fills at 1 0 (length values.now) columns.old.items columns.new.items (λ _. map val_of values.now)) }
{
    for j in 0..values.len() {
        put_cell(columns, j, at, values[j].cell())?;
    }
    Ok(())
}

/// Puts borrowed values into these columns.
pub fn put_cells(columns: &mut Vec<Column>, at: usize, cells: &[Cell<'_>]) -> Result<(), AllocError>
    requires room { length cells.now ≤ length columns.old.items }
    requires long { AreLong at columns.old.items }
    requires kinds { (k : ℕ) → k < length cells.now
        → type_at (map column_type columns.old.items) k ≡ type_at (map type_of (map cell_val cells.now)) k }
    ensures rows { KeepRows at columns.old.items columns.new.items }
    ensures held { OnOk result (list_all is_held (map cell_val cells.now) ≡ true) }
    ensures ok { OnOk result (Fills at 1 0 (length cells.now) columns.old.items columns.new.items (λ _. map cell_val cells.now)) }
{
    for j in 0..cells.len() {
        put_cell(columns, j, at, cells[j])?;
    }
    Ok(())
}

/// Puts some values of another column into a column, past the first `at` rows.
pub fn put_part_at(
    columns: &mut Vec<Column>,
    j: usize,
    at: usize,
    other: &Column,
    positions: &[usize],
) -> Result<(), AllocError>
    requires column { j < length columns.old.items }
    requires long { AreLong at columns.old.items }
    requires kind { type_at (map column_type columns.old.items) j ≡ column_type other.now }
    requires there { ArePositions (size other.now) positions.now }
    ensures rows { KeepRows at columns.old.items columns.new.items }
    ensures ok { OnOk result (Fills at (length positions.now) j (j + 1) columns.old.items columns.new.items (λ k. entry other.now (slice_index positions.now k) ∷ [])) }
{
    let column = &mut columns[j];
    column.put_at(at, other, positions)
}

/// Puts rows of other columns, those at some positions, into these columns from `first` on.
pub fn put_rows_at(
    columns: &mut Vec<Column>,
    first: usize,
    at: usize,
    others: &Vec<Column>,
    positions: &[usize],
) -> Result<(), AllocError>
    requires room { first + length others.now.items ≤ length columns.old.items }
    requires long { AreLong at columns.old.items }
    requires there { (k : ℕ) → k < length others.now.items → ArePositions (slice_index (map size others.now.items) k) positions.now }
    requires kinds { (k : ℕ) → k < length others.now.items
        → type_at (map column_type columns.old.items) (first + k) ≡ type_at (map column_type others.now.items) k }
    ensures rows { KeepRows at columns.old.items columns.new.items }
    ensures ok { OnOk result (Fills at (length positions.now) first (first + length others.now.items) columns.old.items columns.new.items (λ k. row_of others.now.items (slice_index positions.now k))) }
{
    for j in 0..others.len() {
        put_part_at(columns, first + j, at, &others[j], positions)?;
    }
    Ok(())
}

/// Reserves room in column `j` for `additional` rows past the first `at`.
pub fn reserve_part(
    columns: &mut Vec<Column>,
    j: usize,
    at: usize,
    additional: usize,
) -> Result<(), AllocError>
    requires column { j < length columns.old.items }
    requires long { AreLong at columns.old.items }
    ensures { KeepRows at columns.old.items columns.new.items }
{
    let column = &mut columns[j];
    column.reserve(at, additional)
}

/// Reserves room in each column for `additional` rows past the first `at`.
pub fn reserve_rows(
    columns: &mut Vec<Column>,
    at: usize,
    additional: usize,
) -> Result<(), AllocError>
    requires { AreLong at columns.old.items }
    ensures { KeepRows at columns.old.items columns.new.items }
{
    for j in 0..columns.len() {
        reserve_part(columns, j, at, additional)?;
    }
    Ok(())
}

// Reserves room in column `j` for `times` times as many more values as it has.
fn reserve_part_times(columns: &mut Vec<Column>, j: usize, times: usize) -> Result<(), AllocError>
    requires { j < length columns.old.items }
    ensures { columns.new.items ≡ columns.old.items }
{
    let column = &mut columns[j];
    column.reserve_times(times)
}

/// Reserves room in each column for `times` times as many more values as it has.
pub fn reserve_times(columns: &mut Vec<Column>, times: usize) -> Result<(), AllocError>
    ensures { columns.new.items ≡ columns.old.items }
{
    for j in 0..columns.len() {
        reserve_part_times(columns, j, times)?;
    }
    Ok(())
}

// Gives back the memory of column `j` in which no value lies.
fn shrink_part(columns: &mut Vec<Column>, j: usize)
    requires { j < length columns.old.items }
    ensures { columns.new.items ≡ columns.old.items }
{
    let column = &mut columns[j];
    column.shrink();
}

/// Gives back the memory of columns in which no value lies.
pub fn shrink_columns(columns: &mut Vec<Column>)
    ensures { columns.new.items ≡ columns.old.items }
{
    for j in 0..columns.len() {
        shrink_part(columns, j);
    }
}

/// Columns of these types, with no values.
pub fn empty_columns(alloc: Global, types: &[ColType]) -> Result<Vec<Column>, AllocError>
    ensures { IfOk result (λ v. map column_type v.items ≡ types.now) }
{
    let mut columns = Vec::new(alloc);
    for kind in types {
        columns.push(Column::new(alloc, *kind)?)?;
    }
    Ok(columns)
}
