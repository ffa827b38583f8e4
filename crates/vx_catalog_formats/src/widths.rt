//! How wide the columns of a table are.

ghost use Rattle.std.specs.Prelude.{◌≡◌, ◌<◌, length, fold, map, string_bytes, IfOk, OnOk};
ghost use Rattle.vx_rows_values.specs.Values.{text};
ghost use Rattle.vx_rows.specs.View.{row};
ghost use Rattle.vx_rows_views.specs.Chunks.{all_rows};
ghost use Rattle.vx_catalog_formats.specs.Table.{cell_width, widened, widths_of};

use crate::cells::fill_cell;
use std::alloc::{AllocError, Global};
use vx_rows_values::Cell;
use vx_rows_views::{Chunk, Rows};

// How wide names are.
fn name_widths(alloc: Global, names: &[String], cell: &mut String) -> Result<Vec<usize>, AllocError>
    ensures { IfOk result (λ v. v.items ≡ map (λ name. cell_width (text name)) (map string_bytes names.now)) }
{
    let mut widths = Vec::with_capacity(alloc, names.len())?;
    for name in names {
        let width = fill_cell(cell, Cell::Text(name.as_str()))?;
        widths.push(width)?;
    }
    Ok(widths)
}

// Makes each column as wide as the value of a row needs it.
fn widen(widths: &mut [usize], cell: &mut String, chunk: &Chunk, i: usize) -> Result<(), AllocError>
    requires { i < length chunk.now.rows }
    ensures { OnOk result (widths.new ≡ widened widths.old (row chunk.now i)) }
{
    for column in 0..widths.len().min(chunk.types().len()) {
        let width = fill_cell(cell, chunk.cell(i, column))?;
        widths[column] = widths[column].max(width);
    }
    Ok(())
}

// Makes each column as wide as the values of a chunk need it.
fn widen_for(widths: &mut [usize], cell: &mut String, chunk: &Chunk) -> Result<(), AllocError>
    ensures { OnOk result (widths.new ≡ fold widened widths.old chunk.now.rows) }
{
    for i in 0..chunk.len() {
        widen(widths, cell, chunk, i)?;
    }
    Ok(())
}

// Makes each column as wide as the values of these chunks need it.
fn widen_for_all(
    widths: &mut [usize],
    cell: &mut String,
    chunks: &[Chunk],
) -> Result<(), AllocError>
    ensures { OnOk result (widths.new ≡ fold widened widths.old (all_rows chunks.now)) }
{
    for i in 0..chunks.len() {
        widen_for(widths, cell, &chunks[i])?;
    }
    Ok(())
}

/// How wide each column is: as the widest of its name and its values. `cell` is overwritten.
pub fn widths_of(
    alloc: Global,
    names: &[String],
    rows: &Rows,
    cell: &mut String,
) -> Result<Vec<usize>, AllocError>
    ensures { IfOk result (λ v. v.items ≡ widths_of (map string_bytes names.now) rows.now.rows) }
{
    let mut widths = name_widths(alloc, names, cell)?;
    widen_for_all(widths.as_mut_slice(), cell, rows.chunks())?;
    Ok(widths)
}
