//! Rows that fit one list of types, kept by columns.

ghost use Rattle.std.specs.Prelude.{◌≡◌, ◌↔◌, ℕ, ◌+◌, ◌-◌, ◌<◌, ◌≤◌, ◌++◌, ◌∷◌, [], length, max, map, take, slice_range, OnOk, OnErr, IfOk, IsTrue};
ghost use Rattle.std.specs.List.{AllByRecursion};
ghost use Rattle.vx_rows_values.specs.Values.{pick, value_at};
ghost use Rattle.vx_rows_values.specs.ValueView.{val_of, cell_val};
ghost use Rattle.vx_rows.specs.View.{HasTypes, row, AreColumns, ArePositions};
ghost use Rattle.vx_rows_values.specs.Types.{type_at, Fits};
ghost use Rattle.vx_rows.specs.Columns.{column_type, size, entry, rows_of, AreRows};
ghost use Rattle.vx_rows_values.specs.declared.value.ColType.TheVariants as kind;
ghost use Rattle.vx_rows_values.specs.Values.{num};

use crate::column::Column;
use crate::numbers::Numbers;
use crate::texts::Texts;
use crate::writes::{empty_columns, put_cells, put_rows, put_rows_at, put_values, reserve_rows};
use std::alloc::{AllocError, Global};
use std::marker::Model;
use std::mem;
use vx_rows_values::{Cell, ColType, Value};

/// Makes value j of a key that of a cell, or adds it behind all others. A text of the key keeps its capacity. After an `Err` the key is arbitrary.
pub fn put_key(
    alloc: Global,
    key: &mut Vec<Value>,
    j: usize,
    cell: Cell<'_>,
) -> Result<(), AllocError>
    requires { j ≤ length key.old.items }
    ensures ok { OnOk result (take (j + 1) (map val_of key.new.items) ≡ take j (map val_of key.old.items) ++ cell_val cell.entry ∷ []) }
    ensures long { OnOk result (j < length key.new.items) }
    ensures bound { length key.new.items ≤ max (length key.old.items) (j + 1) }
{
    if j < key.len() {
        let value = &mut key[j];
        value.set(alloc, cell)
    } else {
        let value = cell.to_value(alloc)?;
        key.push(value)?;
        Ok(())
    }
}

/// Rows that fit one list of types, kept by columns.
///
/// After a call that ran out of memory a column may hold more values than there are rows.
pub struct Table {
    types: Vec<ColType>,
    pub(crate) columns: Vec<Column>,
    pub(crate) count: usize,
}

// By hand, so that the drops of its parts are made and proved here once, and not again in each crate that drops one.
impl Drop for Table {
    fn drop(self) {
        let Table {
            types: _,
            columns: _,
            count: _,
        } = self;
    }
}

impl Model for Table {
    ghost use Rattle.vx_rows.specs.View.{RowsView};
    ghost use Rattle.vx_rows.specs.Columns.{rows_of, AreRows};

    ghost Value = { RowsView };

    ghost view = { λ r. record { types = r.types.items; rows = rows_of r.count r.columns.items } };

    ghost invariant = { λ r. AreRows r.types.items r.count r.columns.items };
}

impl Table {
    /// No rows, of these types.
    pub fn new(alloc: Global, types: &[ColType]) -> Result<Table, AllocError>
        ensures types { IfOk result (λ r. r.types ≡ types.now) }
        ensures rows { IfOk result (λ r. r.rows ≡ []) }
    {
        let columns = empty_columns(alloc, types)?;
        Ok(Table {
            types: Vec::from_slice(alloc, types)?,
            columns,
            count: 0,
        })
    }

    /// The first `count` rows of columns of these types.
    pub(crate) fn of_columns(types: Vec<ColType>, columns: Vec<Column>, count: usize) -> Table
        requires { AreRows types.items count columns.items }
        ensures types { result.types ≡ types.items }
        ensures rows { result.rows ≡ rows_of count columns.items }
    {
        Table {
            types,
            columns,
            count,
        }
    }

    /// Rows of one number each, these in order.
    pub fn of_numbers(alloc: Global, numbers: Vec<i64>) -> Result<Table, AllocError>
        ensures types { IfOk result (λ r. r.types ≡ kind.Int ∷ []) }
        ensures rows { IfOk result (λ r. r.rows ≡ map (λ z. num z ∷ []) numbers.items) }
    {
        let count = numbers.len();
        let types = Vec::from_slice(alloc, &[ColType::Int])?;
        let mut columns = Vec::new(alloc);
        columns.push(Column::Int(Numbers::of(numbers)))?;
        Ok(Table::of_columns(types, columns, count))
    }

    /// How many rows there are.
    pub fn len(&self) -> usize
        ensures { result ≡ length self.now.rows }
    {
        self.count
    }

    /// The types of the columns, which each row fits.
    pub fn types(&self) -> &[ColType]
        ensures types { result.now ≡ self.now.types }
        ensures fit { AllByRecursion (Fits self.now.types) self.now.rows }
    {
        self.types.as_slice()
    }

    /// How many rows there are, all of which fit the types: `len` does not say so much.
    pub(crate) fn count_fitting(&self) -> usize
        ensures count { result ≡ length self.now.rows }
        ensures fit { AllByRecursion (Fits self.now.types) self.now.rows }
    {
        self.count
    }

    /// The values of a column, that of row i at position i. More may follow the last row's.
    pub(crate) fn column(&self, j: usize) -> &Column
        requires { j < length self.now.types }
        ensures kind { column_type result.now ≡ type_at self.now.types j }
        ensures long { length self.now.rows ≤ size result.now }
        ensures values { (k : ℕ) → k < length self.now.rows → entry result.now k ≡ value_at (row self.now k) j }
    {
        &self.columns[j]
    }

    /// Whether a row of these values fits the types.
    pub fn fits(&self, values: &[Value]) -> bool
        ensures { IsTrue result ↔ Fits self.now.types (map val_of values.now) }
    {
        let n = self.types.len();
        if values.len() != n {
            return false;
        }
        for j in 0..n {
            let cell = values[j].cell();
            if !cell.is_of(self.types[j]) {
                return false;
            }
        }
        true
    }

    /// The value of a row in a column.
    pub fn cell(&self, i: usize, column: usize) -> Cell<'_>
        requires row { i < length self.now.rows }
        requires column { column < length self.now.types }
        ensures { cell_val result ≡ value_at (row self.now i) column }
    {
        self.columns[column].get(i)
    }

    /// Makes a key of these columns of row i. Texts of the key keep their capacity. After an `Err` the key is arbitrary.
    pub fn read_key(
        &self,
        alloc: Global,
        i: usize,
        cols: &[usize],
        key: &mut Vec<Value>,
    ) -> Result<(), AllocError>
        requires row { i < length self.now.rows }
        requires columns { AreColumns (length self.now.types) cols.now }
        ensures { OnOk result (map val_of key.new.items ≡ pick cols.now (row self.now i)) }
    {
        key.truncate(cols.len());
        for j in 0..cols.len() {
            put_key(alloc, key, j, self.cell(i, cols[j]))?;
        }
        Ok(())
    }

    /// Keeps the first `n` rows, or all if there are fewer. The capacity stays.
    pub fn truncate(&mut self, n: usize)
        ensures types { self.new.types ≡ self.old.types }
        ensures rows { self.new.rows ≡ take n self.old.rows }
    {
        if n < self.count {
            self.count = n;
        }
    }

    /// Adds the rows of others from `from` up to `to`.
    pub fn append_range(&mut self, other: &Table, from: usize, to: usize) -> Result<(), AllocError>
        requires same_types { other.now.types ≡ self.old.types }
        requires order { from ≤ to }
        requires there { to ≤ length other.now.rows }
        ensures types { self.new.types ≡ self.old.types }
        ensures ok { OnOk result (self.new.rows ≡ self.old.rows ++ slice_range other.now.rows from to) }
        ensures err { OnErr result (self.new.rows ≡ self.old.rows) }
    {
        let Some(count) = self.count.checked_add(to - from) else {
            return Err(AllocError);
        };
        put_rows(&mut self.columns, self.count, &other.columns, from, to)?;
        self.count = count;
        Ok(())
    }

    /// Adds a row of these values.
    pub fn push(&mut self, values: &[Value]) -> Result<(), AllocError>
        requires { HasTypes self.old.types (map val_of values.now) }
        ensures types { self.new.types ≡ self.old.types }
        ensures ok { OnOk result (self.new.rows ≡ self.old.rows ++ map val_of values.now ∷ []) }
        ensures err { OnErr result (self.new.rows ≡ self.old.rows) }
    {
        let Some(count) = self.count.checked_add(1) else {
            return Err(AllocError);
        };
        put_values(&mut self.columns, self.count, values)?;
        self.count = count;
        Ok(())
    }

    /// Adds a row of these borrowed values.
    pub fn push_cells(&mut self, cells: &[Cell<'_>]) -> Result<(), AllocError>
        requires { HasTypes self.old.types (map cell_val cells.now) }
        ensures types { self.new.types ≡ self.old.types }
        ensures ok { OnOk result (self.new.rows ≡ self.old.rows ++ map cell_val cells.now ∷ []) }
        ensures err { OnErr result (self.new.rows ≡ self.old.rows) }
    {
        let Some(count) = self.count.checked_add(1) else {
            return Err(AllocError);
        };
        put_cells(&mut self.columns, self.count, cells)?;
        self.count = count;
        Ok(())
    }

    /// Adds the rows of others at some positions, in their order, column by column.
    pub fn append_rows_at(&mut self, other: &Table, positions: &[usize]) -> Result<(), AllocError>
        requires same_types { other.now.types ≡ self.old.types }
        requires there { ArePositions (length other.now.rows) positions.now }
        ensures types { self.new.types ≡ self.old.types }
        ensures ok { OnOk result (self.new.rows ≡ self.old.rows ++ map (row other.now) positions.now) }
        ensures err { OnErr result (self.new.rows ≡ self.old.rows) }
    {
        let Some(count) = self.count.checked_add(positions.len()) else {
            return Err(AllocError);
        };
        put_rows_at(&mut self.columns, 0, self.count, &other.columns, positions)?;
        self.count = count;
        Ok(())
    }

    /// Reserves room for `additional` more rows, but not for the bytes of their texts.
    pub fn reserve(&mut self, additional: usize) -> Result<(), AllocError>
        ensures { self.new ≡ self.old }
    {
        reserve_rows(&mut self.columns, self.count, additional)
    }

    /// The same rows once more.
    pub fn copy(&self, alloc: Global) -> Result<Table, AllocError>
        ensures { IfOk result (λ r. r ≡ self.now) }
    {
        let mut rows = Table::new(alloc, self.types())?;
        rows.append_range(self, 0, self.len())?;
        Ok(rows)
    }

    /// Moves all rows out, and leaves none, of the same types.
    pub fn take(&mut self, alloc: Global) -> Result<Table, AllocError>
        ensures types { self.new.types ≡ self.old.types }
        ensures ok { IfOk result (λ r. r ≡ self.old) }
        ensures none { OnOk result (self.new.rows ≡ []) }
        ensures err { OnErr result (self.new.rows ≡ self.old.rows) }
    {
        let empty = Table::new(alloc, self.types())?;
        Ok(mem::replace(self, empty))
    }
}

// The values of a column where they lie, for loops over one column.
impl Table {
    ghost use Rattle.std.specs.Prelude.{ℕ, pos, slice_index_or, IfSome, IfNone};
    ghost use Rattle.vx_rows_values.specs.Values.{text};

    /// The numbers of a column, that of row i at position i, where it has numbers. More may follow the last row's.
    pub fn numbers(&self, column: usize) -> Option<&Numbers>
        requires { column < length self.now.types }
        ensures some { IfSome result (λ _. type_at self.now.types column ≡ kind.Int) }
        ensures none { IfNone result (type_at self.now.types column ≡ kind.Text) }
        ensures long { IfSome result (λ v. length self.now.rows ≤ length v.now) }
        ensures values { IfSome result (λ v. (k : ℕ) → k < length self.now.rows → value_at (row self.now k) column ≡ num (slice_index_or v.now k (pos 0))) }
    {
        self.columns[column].numbers()
    }

    /// The texts of a column, that of row i at position i, where it has texts. More may follow the last row's.
    pub fn texts(&self, column: usize) -> Option<&Texts>
        requires { column < length self.now.types }
        ensures some { IfSome result (λ _. type_at self.now.types column ≡ kind.Text) }
        ensures none { IfNone result (type_at self.now.types column ≡ kind.Int) }
        ensures long { IfSome result (λ t. length self.now.rows ≤ length t.now) }
        ensures values { IfSome result (λ t. (k : ℕ) → k < length self.now.rows → value_at (row self.now k) column ≡ text (slice_index_or t.now k [])) }
    {
        self.columns[column].texts()
    }
}
