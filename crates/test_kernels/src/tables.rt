//! Tables and rows of a number and a text, and rows as text.

ghost use Rattle.std.specs.Prelude.{◌≡◌, ◌<◌, [], ◌∷◌, length, IfOk};
ghost use Rattle.std.specs.Arc.{arc_value};
ghost use Rattle.vx_rows_values.specs.declared.value.ColType.TheVariants as kind;

use crate::case::bounds;
use anyhow::{Context, Error};
use std::alloc::{AllocError, Global};
use std::sync::Arc;
use test_tables::{TYPES, show_cell, shown};
use vx_rows::Table;
use vx_rows_values::Cell;
use vx_rows_views::{Chunk, Rows};

// Adds the row of an entry, as `7 b`: a number, a space and a text.
fn add(rows: &mut Table, entry: &str) -> Result<(), Error>
    requires { rows.old.types ≡ kind.Int ∷ kind.Text ∷ [] }
    ensures { rows.new.types ≡ kind.Int ∷ kind.Text ∷ [] }
{
    let (number, text) = entry.split_once(' ').context("a row has no text")?;
    let number = number.parse::<i64>().ok().context("a row has no number")?;
    rows.push_cells(&[Cell::Int(number), Cell::Text(text)])?;
    Ok(())
}

/// The rows of a text as `7 b;-5 ;`, with a semicolon behind each. Where a chunk ends there may be a `/` before a row.
pub fn table_of(alloc: Global, text: &str) -> Result<Table, Error>
    ensures { IfOk result (λ t. t.types ≡ kind.Int ∷ kind.Text ∷ []) }
{
    let mut rows = Table::new(alloc, TYPES.as_slice())?;
    for entry in text.split_terminator(';') {
        add(&mut rows, entry.trim_start_matches('/'))?;
    }
    Ok(rows)
}

/// The rows of a table between two bounds, as far as there are such.
pub fn part_of(alloc: Global, base: &Arc<Table>, numbers: &[usize]) -> Result<Chunk, AllocError>
    ensures { IfOk result (λ c. c.types ≡ (arc_value base.now).types) }
{
    let (from, to) = bounds(numbers, base.len());
    Chunk::of(alloc, base, from, to)
}

/// The rows of a text in chunks, which a `/` parts: `1 a;2 b;//3 c;` has a chunk of two rows, one of none and one of one row.
/// All are seen in one table.
pub fn rows_of(alloc: Global, text: &str) -> Result<Rows, Error>
    ensures { IfOk result (λ r. r.types ≡ kind.Int ∷ kind.Text ∷ []) }
{
    let base = Arc::new(alloc, table_of(alloc, text)?)?;
    let mut rows = Rows::new(alloc, TYPES.as_slice())?;
    let mut from = 0usize;
    for part in text.split('/') {
        let to = from.saturating_add(part.split_terminator(';').count());
        rows.push(part_of(alloc, &base, &[from, to])?)?;
        from = to;
    }
    Ok(rows)
}

// Adds the values of a row with a space between them, and a semicolon.
fn show_row(text: &mut String, rows: &Rows, i: usize) -> Result<(), AllocError>
    requires { i < length rows.now.rows }
{
    for column in 0..rows.types().len() {
        if column > 0 {
            text.push(' ')?;
        }
        show_cell(text, rows.cell(i, column))?;
    }
    text.push(';')
}

// The rows as text, read cell by cell.
fn cells(alloc: Global, rows: &Rows) -> Result<String, AllocError> {
    let mut text = String::new(alloc);
    for i in 0..rows.len() {
        show_row(&mut text, rows, i)?;
    }
    Ok(text)
}

/// The rows as text, read cell by cell, and what they are gathered into where that differs. Of no rows it says how many columns
/// they have.
pub fn shown_rows(alloc: Global, rows: &Rows) -> Result<String, AllocError> {
    let read = cells(alloc, rows)?;
    let gathered = shown(alloc, &rows.gathered(alloc)?)?;
    if read.as_str() != gathered.as_str() {
        return format!(in alloc; "{read} and gathered {gathered}");
    }
    if rows.is_empty() {
        return format!(in alloc; "no rows of {} columns{read}", rows.types().len());
    }
    Ok(read)
}
