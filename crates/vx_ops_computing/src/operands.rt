//! What an operand of a function is for the rows of a chunk.

ghost use Rattle.std.specs.Prelude.{◌≡◌};
ghost use Rattle.vx_rows_values.specs.ValueView.{cell_val};
ghost use Rattle.vx_ops_computing.specs.Operands.{operand_at, IsThere};

use vx_rows::Table;
use vx_rows_values::Cell;
use vx_rows_views::Chunk;

/// The values of an expression for the rows of a chunk.
#[derive(Drop)]
pub enum Operand<'a> {
    /// The same value for each row.
    Same(Cell<'a>),
    /// Those in a column of the chunk, where they lie.
    Lying(&'a Chunk, usize),
    /// Numbers that were computed, one for each row.
    Numbers(Vec<i64>),
    /// Texts that were computed: the one column of a table.
    Texts(Table),
}

impl<'a> Operand<'a> {
    /// The value for row k.
    pub fn cell(&self, k: usize) -> Cell<'_>
        requires { IsThere k self.now }
        ensures { cell_val result ≡ operand_at self.now k }
    {
        match self {
            Operand::Same(cell) => *cell,
            Operand::Lying(chunk, column) => chunk.cell(k, *column),
            Operand::Numbers(numbers) => Cell::Int(numbers[k]),
            Operand::Texts(texts) => texts.cell(k, 0),
        }
    }
}
