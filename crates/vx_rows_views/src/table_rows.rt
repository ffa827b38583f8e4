//! Rows of one table that is shared.

ghost use Rattle.std.specs.Prelude.{◌≡◌, ◌+◌, ◌<◌, ◌≤◌, ◌++◌, true, length, map, slice_range, All, IfOk, IfSome, IfNone, OnOk, OnErr};
ghost use Rattle.std.specs.Arc.{arc_value};
ghost use Rattle.vx_rows_values.specs.declared.value.ColType.TheVariants as kind;
ghost use Rattle.vx_rows_values.specs.Values.{value_at};
ghost use Rattle.vx_rows_values.specs.ValueView.{cell_val};
ghost use Rattle.vx_rows_values.specs.Types.{type_at};
ghost use Rattle.vx_rows.specs.View.{row, ArePositions};
ghost use Rattle.vx_rows.specs.Lists.{each_below};
ghost use Rattle.vx_rows_views.specs.Selected.{of_number, places_of, AreNumbers, AreTexts};
ghost use Rattle.vx_rows_views.specs.Seen.{seen_positions};

use crate::places::{NumberTest, part_of, places_at, places_in};
use crate::positions::{Positions, PositionsRef, widened};
use std::alloc::{AllocError, Global};
use std::marker::Model;
use std::sync::Arc;
use vx_rows::{Numbers, Table, Texts};
use vx_rows_values::{Cell, ColType};

/// Rows of one table that is shared, by their positions.
pub struct TableRows {
    base: Arc<Table>,
    at: Positions,
}

impl Drop for TableRows {
    fn drop(self) {
        let TableRows { base: _, at: _ } = self;
    }
}

impl Model for TableRows {
    ghost use Rattle.std.specs.Prelude.{map, length};
    ghost use Rattle.std.specs.Arc.{arc_value};
    ghost use Rattle.vx_rows.specs.View.{RowsView, row, ArePositions};

    ghost Value = { RowsView };

    ghost view = { λ p. record { types = (arc_value p.base).types; rows = map (row (arc_value p.base)) p.at } };

    ghost invariant = { λ p. ArePositions (length (arc_value p.base).rows) p.at };
}

impl TableRows {
    /// The rows of a table from `from` up to `to`.
    pub fn of(base: &Arc<Table>, from: usize, to: usize) -> Result<TableRows, AllocError>
        requires order { from ≤ to }
        requires there { to ≤ length (arc_value base.now).rows }
        ensures types { IfOk result (λ p. p.types ≡ (arc_value base.now).types) }
        ensures rows { IfOk result (λ p. p.rows ≡ slice_range (arc_value base.now).rows from to) }
    {
        let base = Arc::try_clone(base)?;
        let at = Positions::range(from, to - from);
        Ok(TableRows { base, at })
    }

    /// How many rows there are.
    pub fn len(&self) -> usize
        ensures { result ≡ length self.now.rows }
    {
        self.at.len()
    }

    /// The types of the columns.
    pub fn types(&self) -> &[ColType]
        ensures { result.now ≡ self.now.types }
    {
        self.base.types()
    }

    /// The value of a row in a column.
    pub fn cell(&self, i: usize, column: usize) -> Cell<'_>
        requires row { i < length self.now.rows }
        requires column { column < length self.now.types }
        ensures { cell_val result ≡ value_at (row self.now i) column }
    {
        self.base.cell(self.at.get(i), column)
    }

    /// The rows from `from` up to `to`.
    pub fn slice(&self, from: usize, to: usize) -> Result<TableRows, AllocError>
        requires order { from ≤ to }
        requires there { to ≤ length self.now.rows }
        ensures types { IfOk result (λ p. p.types ≡ self.now.types) }
        ensures rows { IfOk result (λ p. p.rows ≡ slice_range self.now.rows from to) }
    {
        let base = Arc::try_clone(&self.base)?;
        let at = self.at.slice(from, to)?;
        Ok(TableRows { base, at })
    }

    /// The rows at some places, in their order.
    pub fn at(&self, alloc: Global, places: &[usize]) -> Result<TableRows, AllocError>
        requires { ArePositions (length self.now.rows) places.now }
        ensures types { IfOk result (λ p. p.types ≡ self.now.types) }
        ensures rows { IfOk result (λ p. p.rows ≡ map (row self.now) places.now) }
    {
        let base = Arc::try_clone(&self.base)?;
        let at = self.at.at(alloc, places)?;
        Ok(TableRows { base, at })
    }

    /// The places of the rows whose number in a column passes a test, or none where that of each row does.
    pub fn places_where<T: NumberTest>(
        &self,
        alloc: Global,
        column: usize,
        test: &T,
    ) -> Result<Option<Vec<usize>>, AllocError>
        requires column { column < length self.now.types }
        requires number { type_at self.now.types column ≡ kind.Int }
        ensures some { IfOk result (λ o. IfSome o (λ v. v.items ≡ places_of (λ r. of_number (T.says test.now) (value_at r column)) self.now.rows)) }
        ensures all { IfOk result (λ o. IfNone o (All (λ r. of_number (T.says test.now) (value_at r column) ≡ true) self.now.rows)) }
    {
        let Some(numbers) = self.base.numbers(column) else {
            unreachable!()
        };
        match self.at.seen() {
            PositionsRef::Range(from, count) => {
                let part = part_of(numbers, from, count);
                places_in(alloc, part, test)
            }
            PositionsRef::Narrow(positions) => places_at(alloc, numbers, positions, test),
            PositionsRef::Wide(positions) => places_at(alloc, numbers, positions, test),
        }
    }

    /// The numbers of a column of the table, and the positions in them of the rows, where it has numbers.
    pub fn numbers(&self, column: usize) -> Option<(&Numbers, PositionsRef<'_>)>
        requires { column < length self.now.types }
        ensures kind { IfSome result (λ _. type_at self.now.types column ≡ kind.Int) }
        ensures none { IfNone result (type_at self.now.types column ≡ kind.Text) }
        ensures values { IfSome result (λ r. AreNumbers r.0.now (seen_positions r.1) column self.now.rows) }
    {
        let numbers = self.base.numbers(column)?;
        Some((numbers, self.at.seen()))
    }

    /// The texts of a column of the table, and the positions in them of the rows, where it has texts.
    pub fn texts(&self, column: usize) -> Option<(&Texts, PositionsRef<'_>)>
        requires { column < length self.now.types }
        ensures kind { IfSome result (λ _. type_at self.now.types column ≡ kind.Text) }
        ensures none { IfNone result (type_at self.now.types column ≡ kind.Int) }
        ensures values { IfSome result (λ r. AreTexts r.0.now (seen_positions r.1) column self.now.rows) }
    {
        let texts = self.base.texts(column)?;
        Some((texts, self.at.seen()))
    }

    /// Adds copies of the rows behind those of a table.
    pub fn copy_onto(&self, alloc: Global, rows: &mut Table) -> Result<(), AllocError>
        requires { self.now.types ≡ rows.old.types }
        ensures types { rows.new.types ≡ rows.old.types }
        ensures ok { OnOk result (rows.new.rows ≡ rows.old.rows ++ self.now.rows) }
        ensures err { OnErr result (rows.new.rows ≡ rows.old.rows) }
    {
        match self.at.seen() {
            PositionsRef::Range(from, count) => append_part(rows, &*self.base, from, count),
            PositionsRef::Narrow(positions) => append_narrow(alloc, rows, &*self.base, positions),
            PositionsRef::Wide(positions) => rows.append_rows_at(&*self.base, positions),
        }
    }
}

// Adds `count` rows of `other`, from position `from` on.
fn append_part(rows: &mut Table, other: &Table, from: usize, count: usize) -> Result<(), AllocError>
    requires types { other.now.types ≡ rows.old.types }
    requires there { ArePositions (length other.now.rows) (each_below count (λ k. from + k)) }
    ensures types { rows.new.types ≡ rows.old.types }
    ensures ok { OnOk result (rows.new.rows ≡ rows.old.rows ++ map (row other.now) (each_below count (λ k. from + k))) }
    ensures err { OnErr result (rows.new.rows ≡ rows.old.rows) }
{
    if count == 0 {
        return Ok(());
    }
    let Some(to) = from.checked_add(count) else {
        return Err(AllocError);
    };
    rows.append_range(other, from, to)
}

// Adds the rows of another table at positions of 32 bits.
fn append_narrow(
    alloc: Global,
    rows: &mut Table,
    other: &Table,
    positions: &[u32],
) -> Result<(), AllocError>
    requires types { other.now.types ≡ rows.old.types }
    requires there { ArePositions (length other.now.rows) positions.now }
    ensures types { rows.new.types ≡ rows.old.types }
    ensures ok { OnOk result (rows.new.rows ≡ rows.old.rows ++ map (row other.now) positions.now) }
    ensures err { OnErr result (rows.new.rows ≡ rows.old.rows) }
{
    let wide = widened(alloc, positions)?;
    rows.append_rows_at(other, wide.as_slice())
}
