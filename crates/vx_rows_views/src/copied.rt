//! Rows of a chunk copied into a table.

ghost use Rattle.std.specs.Prelude.{◌≡◌, ◌<◌, ◌++◌, ◌∷◌, [], length, OnOk, OnErr, IfOk};
ghost use Rattle.vx_rows.specs.View.{row};

use crate::chunk::Chunk;
use std::alloc::{AllocError, Global};
use vx_rows::{OpenRows, Table};

impl Chunk {
    /// Adds copies of the rows behind those of a table. After an `Err` these are as before.
    pub fn copy_onto(&self, alloc: Global, rows: &mut Table) -> Result<(), AllocError>
        requires { self.now.types ≡ rows.old.types }
        ensures types { rows.new.types ≡ rows.old.types }
        ensures ok { OnOk result (rows.new.rows ≡ rows.old.rows ++ self.now.rows) }
        ensures err { OnErr result (rows.new.rows ≡ rows.old.rows) }
    {
        if let Some(part) = self.only_part() {
            return part.copy_onto(alloc, rows);
        }
        let copied = self.copied(alloc)?;
        rows.append_range(&copied, 0, copied.len())
    }

    // Adds a copy of row i to rows that are filled cell by cell.
    fn push_row(&self, filling: &mut OpenRows, i: usize) -> Result<(), AllocError>
        requires types { filling.old.types ≡ self.now.types }
        requires front { filling.old.front ≡ [] }
        requires there { i < length self.now.rows }
        ensures types { filling.new.types ≡ filling.old.types }
        ensures rows { OnOk result (filling.new.rows ≡ filling.old.rows ++ row self.now i ∷ []) }
        ensures front { OnOk result (filling.new.front ≡ []) }
    {
        for column in 0..self.types().len() {
            filling.push_cell(self.cell(i, column))?;
        }
        filling.end_row()
    }

    // The rows as a table, cell by cell.
    fn copied(&self, alloc: Global) -> Result<Table, AllocError>
        ensures { IfOk result (λ r. r ≡ self.now) }
    {
        let mut filling = OpenRows::new(alloc, self.types())?;
        for i in 0..self.len() {
            self.push_row(&mut filling, i)?;
        }
        Ok(filling.into_rows())
    }
}
