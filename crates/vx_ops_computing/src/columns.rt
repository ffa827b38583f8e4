//! Columns of their own for the values of an operand.

ghost use Rattle.std.specs.Prelude.{◌≡◌, ◌∷◌, [], map, IfOk, OnOk};
ghost use Rattle.vx_rows_values.specs.Types.{type_of};
ghost use Rattle.vx_rows_values.specs.ValueView.{cell_val};
ghost use Rattle.vx_ops_computing.specs.Columns.{IsColumn};
ghost use Rattle.vx_ops_computing.specs.Operands.{operand_at, operand_type, IsFor};

use crate::operands::Operand;
use std::alloc::{AllocError, Global};
use std::sync::Arc;
use vx_rows::{OpenRows, Table};
use vx_rows_values::Cell;
use vx_rows_views::Chunk;

// All rows of a table, as a chunk.
fn chunk_of(alloc: Global, table: Table) -> Result<Chunk, AllocError>
    ensures { IfOk result (λ c. c ≡ table) }
{
    let count = table.len();
    let base = Arc::new(alloc, table)?;
    Ok(Chunk::of(alloc, &base, 0, count)?)
}

// So many rows of one value, the same in each.
fn repeated(alloc: Global, cell: Cell<'_>, count: usize) -> Result<Table, AllocError>
    ensures types { IfOk result (λ t. t.types ≡ type_of (cell_val cell.entry) ∷ []) }
    ensures rows { IfOk result (λ t. IsColumn (λ k. cell_val cell.entry) count t.rows) }
{
    let mut rows = OpenRows::new(alloc, &[cell.col_type()])?;
    for _k in 0..count {
        rows.push_cell(cell)?;
        rows.end_row()?;
    }
    Ok(rows.into_rows())
}

/// The values of an operand for `count` rows, as a column of a chunk. A column of the rows is not copied.
pub fn column_of(alloc: Global, operand: Operand<'_>, count: usize) -> Result<Chunk, AllocError>
    requires { IsFor count operand }
    ensures types { IfOk result (λ c. c.types ≡ operand_type operand.entry ∷ []) }
    ensures rows { IfOk result (λ c. IsColumn (operand_at operand.entry) count c.rows) }
{
    match operand {
        Operand::Same(cell) => chunk_of(alloc, repeated(alloc, cell, count)?),
        Operand::Lying(chunk, column) => chunk.share(alloc)?.project(alloc, &[column]),
        Operand::Numbers(numbers) => chunk_of(alloc, Table::of_numbers(alloc, numbers)?),
        Operand::Texts(texts) => chunk_of(alloc, texts),
    }
}
