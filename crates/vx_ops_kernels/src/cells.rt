//! Access to cells without a condition on the column.

ghost use Rattle.std.specs.Prelude.{◌≡◌, ◌<◌, length};
ghost use Rattle.vx_rows_values.specs.Values.{value_at};
ghost use Rattle.vx_rows_values.specs.ValueView.{cell_val};
ghost use Rattle.vx_rows.specs.View.{row};

use vx_rows_values::Cell;
use vx_rows_views::Chunk;

/// The value of row i of a chunk at a column, and the number 0 where there is no such column, as the definitions have it.
pub fn cell_or_zero(chunk: &Chunk, i: usize, column: usize) -> Cell<'_>
    requires { i < length chunk.now.rows }
    ensures { cell_val result ≡ value_at (row chunk.now i) column }
{
    if column < chunk.types().len() {
        return chunk.cell(i, column);
    }
    Cell::Int(0)
}
