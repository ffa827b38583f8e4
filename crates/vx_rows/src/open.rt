//! Rows that get one value after another.

ghost use Rattle.std.specs.Prelude.{◌≡◌, ◌<◌, ◌++◌, ◌∷◌, [], length, OnOk, OnErr, IfOk};
ghost use Rattle.std.specs.List.{AllByRecursion};
ghost use Rattle.vx_rows_values.specs.ValueView.{cell_val};
ghost use Rattle.vx_rows_values.specs.Types.{type_of, type_at, Fits};

use crate::column::Column;
use crate::table::Table;
use crate::writes::{empty_columns, put_cell, reserve_times, shrink_columns};
use std::alloc::{AllocError, Global};
use std::marker::Model;
use vx_rows_values::{Cell, ColType};

/// Calls: `new (push_cell* end_row)* push_cell* into_rows`, with as many `push_cell` before each `end_row` as there are columns.
///
/// Rows, and the first values of one more row, which gets one value after another.
///
/// No list of a row's values is made: each value goes into its column at once.
#[derive(Drop)]
pub struct OpenRows {
    types: Vec<ColType>,
    columns: Vec<Column>,
    count: usize,
    filled: usize,
}

impl Model for OpenRows {
    ghost use Rattle.vx_rows.specs.Open.{Opened, front_of, AreOpen};
    ghost use Rattle.vx_rows.specs.Columns.{rows_of};

    ghost Value = { Opened };

    ghost view = { λ r. record { types = r.types.items; rows = rows_of r.count r.columns.items; front = front_of r.filled r.count r.columns.items } };

    ghost invariant = { λ r. AreOpen r.types.items r.count r.filled r.columns.items };
}

impl OpenRows {
    /// No rows, of these types, and no value of the next one.
    pub fn new(alloc: Global, types: &[ColType]) -> Result<OpenRows, AllocError>
        ensures types { IfOk result (λ r. r.types ≡ types.now) }
        ensures rows { IfOk result (λ r. r.rows ≡ []) }
        ensures front { IfOk result (λ r. r.front ≡ []) }
    {
        let columns = empty_columns(alloc, types)?;
        Ok(OpenRows {
            types: Vec::from_slice(alloc, types)?,
            columns,
            count: 0,
            filled: 0,
        })
    }

    /// The types of the columns.
    pub fn types(&self) -> &[ColType]
        ensures { result.now ≡ self.now.types }
    {
        self.types.as_slice()
    }

    /// How many whole rows there are.
    pub fn len(&self) -> usize
        ensures { result ≡ length self.now.rows }
    {
        self.count
    }

    /// Adds a value to the row that is being filled. After an `Err` nothing has changed.
    #[inline(always)]
    pub fn push_cell(&mut self, cell: Cell<'_>) -> Result<(), AllocError>
        requires room { length self.old.front < length self.old.types }
        requires kind { type_of (cell_val cell) ≡ type_at self.old.types (length self.old.front) }
        ensures types { self.new.types ≡ self.old.types }
        ensures rows { self.new.rows ≡ self.old.rows }
        ensures ok { OnOk result (self.new.front ≡ self.old.front ++ cell_val cell.entry ∷ []) }
        ensures err { OnErr result (self.new.front ≡ self.old.front) }
    {
        put_cell(&mut self.columns, self.filled, self.count, cell)?;
        self.filled += 1;
        Ok(())
    }

    /// Ends the row that is being filled, once it has a value of each column. It fails if there are too many rows to
    /// count, and then nothing has changed.
    pub fn end_row(&mut self) -> Result<(), AllocError>
        requires { length self.old.front ≡ length self.old.types }
        ensures types { self.new.types ≡ self.old.types }
        ensures rows { OnOk result (self.new.rows ≡ self.old.rows ++ self.old.front ∷ []) }
        ensures front { OnOk result (self.new.front ≡ []) }
        ensures err { OnErr result (self.new ≡ self.old) }
    {
        let Some(count) = self.count.checked_add(1) else {
            return Err(AllocError);
        };
        self.count = count;
        self.filled = 0;
        Ok(())
    }

    /// Reserves room for `times` times as many more rows as there are, whose texts are as long.
    pub fn reserve_times(&mut self, times: usize) -> Result<(), AllocError>
        ensures { self.new ≡ self.old }
    {
        reserve_times(&mut self.columns, times)
    }

    /// Gives back the memory in which no value lies.
    pub fn shrink(&mut self)
        ensures { self.new ≡ self.old }
    {
        shrink_columns(&mut self.columns);
    }

    /// The whole rows. A row that was not ended is dropped.
    pub fn into_rows(self) -> Table
        ensures types { result.types ≡ self.types }
        ensures rows { result.rows ≡ self.rows }
        ensures fit { AllByRecursion (Fits result.types) result.rows }
    {
        Table::of_columns(self.types, self.columns, self.count)
    }
}
