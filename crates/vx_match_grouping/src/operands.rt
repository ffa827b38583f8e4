//! The values that aggregates take from the rows of a chunk, read where they lie.

ghost use Rattle.std.specs.Prelude.{◌≡◌, ◌<◌, ◌∷◌, [], length, map, true, IfOk};
ghost use Rattle.vx_rows_values.specs.Values.{num, pick, value_at};
ghost use Rattle.vx_rows_values.specs.ValueView.{val_of, cell_val};
ghost use Rattle.vx_rows.specs.View.{row};
ghost use Rattle.vx_match_keys.specs.Columns.{number_key};
ghost use Rattle.vx_match_grouping.specs.Groups.{number_of};

use std::alloc::{AllocError, Global};
use vx_match_keys::IntColumn;
use vx_ops_kernels::cell_or_zero;
use vx_rows_values::{Cell, Value};
use vx_rows_views::Chunk;

/// Puts the numbers of a column into a list, whatever stood there, and returns whether there is such a column with numbers.
pub(crate) fn read_numbers(
    chunk: &Chunk,
    column: usize,
    numbers: &mut Vec<i64>,
) -> Result<bool, AllocError>
    ensures { IfOk result (λ b. b ≡ true → map number_key numbers.new.items ≡ map (pick (column ∷ [])) chunk.now.rows) }
{
    if column >= chunk.types().len() {
        return Ok(false);
    }
    let Some(view) = IntColumn::of(chunk, &[column]) else {
        return Ok(false);
    };
    numbers.resize(chunk.len(), 0)?;
    view.read(0, numbers.as_mut_slice());
    Ok(true)
}

/// A column of a chunk that has numbers. They were read once, in one loop for each way in which a column may lie, so that no
/// aggregate asks that of each row.
#[derive(Clone, Copy)]
pub(crate) struct NumberOperand<'a> {
    pub chunk: &'a Chunk,
    pub column: usize,
    pub numbers: &'a [i64],
    ghost same: { map number_key numbers.now ≡ map (pick (column ∷ [])) chunk.now.rows },
}

impl<'a> NumberOperand<'a> {
    /// The number of row i.
    #[inline(always)]
    pub fn get(&self, i: usize) -> i64
        requires { i < length self.now.chunk.now.rows }
        ensures { num result ≡ value_at (row self.now.chunk.now i) self.now.column }
    {
        self.numbers[i]
    }
}

/// A column of a chunk, of whatever type. Where there is no such column, each value is the number 0, as the definitions have it.
#[derive(Clone, Copy)]
pub(crate) struct CellOperand<'a> {
    pub chunk: &'a Chunk,
    pub column: usize,
}

impl<'a> CellOperand<'a> {
    /// The value of row i.
    pub fn get(&self, i: usize) -> Cell<'_>
        requires { i < length self.now.chunk.now.rows }
        ensures { cell_val result ≡ value_at (row self.now.chunk.now i) self.now.column }
    {
        cell_or_zero(self.chunk, i, self.column)
    }

    /// That value, with a text of its own.
    pub fn value(&self, alloc: Global, i: usize) -> Result<Value, AllocError>
        requires { i < length self.now.chunk.now.rows }
        ensures { IfOk result (λ v. val_of v ≡ value_at (row self.now.chunk.now i) self.now.column) }
    {
        self.get(i).to_value(alloc)
    }

    /// The number of that value, and of a text 0, as the definitions have it.
    pub fn number(&self, i: usize) -> i64
        requires { i < length self.now.chunk.now.rows }
        ensures { result ≡ number_of (value_at (row self.now.chunk.now i) self.now.column) }
    {
        match self.get(i) {
            Cell::Int(n) => n,
            Cell::Text(_) => 0,
        }
    }
}
