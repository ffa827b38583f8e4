//! All rows of several tables behind those of one. Each column is written by a thread of its own.

ghost use Rattle.std.specs.Prelude.{◌≡◌, ℕ, List, ◌+◌, ◌<◌, ◌≤◌, ◌++◌, length, map, true, slice_index_or, All, IfSome, OnOk, OnErr};
ghost use Rattle.std.specs.List.{AllByRecursion};
ghost use Rattle.vx_rows_values.specs.Types.{type_at, Fits};
ghost use Rattle.vx_rows_values.specs.declared.value.ColType.{ColType};
ghost use Rattle.vx_rows.specs.declared.column.Column.{Column as ColumnView};
ghost use Rattle.vx_rows.specs.Columns.{column_type, size, AreLong, KeepsFront};
ghost use Rattle.vx_rows.specs.Parts.{rows_of_all, HaveTypes, HasParts};

use crate::column::Column;
use crate::table::Table;
use std::alloc::AllocError;
use std::thread;
use std::thread::Threads;

// Leaves the first `at` values of a column, and adds those of column `j` of these tables.
fn add_parts(column: &mut Column, at: usize, parts: &[Table], j: usize) -> Result<(), AllocError>
    requires room { at ≤ size column.old }
    requires there { All (λ t. j < length t.types) parts.now }
    requires kinds { All (λ t. type_at t.types j ≡ column_type column.old) parts.now }
    ensures front { KeepsFront at column.old column.new }
    ensures ok { OnOk result (HasParts at j parts.now column.new) }
{
    let mut end = at;
    for i in 0..parts.len() {
        let part = &parts[i];
        column.put_range(end, part.column(j), 0, part.len())?;
        end = column.len();
    }
    Ok(())
}

// The same, for a thread, which returns nothing. If memory runs out, the first `at` values alone are left.
fn grow(column: &mut Column, at: usize, parts: &[Table], j: usize)
    requires room { at ≤ size column.old }
    requires there { All (λ t. j < length t.types) parts.now }
    requires kinds { All (λ t. type_at t.types j ≡ column_type column.old) parts.now }
    ensures front { KeepsFront at column.old column.new }
    ensures all { at + length (rows_of_all parts.now) ≤ size column.new → HasParts at j parts.now column.new }
{
    if add_parts(column, at, parts, j).is_err() {
        column.truncate(at);
    }
}

// The same of all columns, each in a thread of its own.
fn grow_all<R: Threads + Sync>(rt: &R, columns: &mut [Column], at: usize, parts: &[Table])
    requires long { AreLong at columns.old }
    requires same_types { HaveTypes (map column_type columns.old) parts.now }
    ensures many { length columns.new ≡ length columns.old }
    ensures front { (j : ℕ) (d : ColumnView) → j < length columns.old → KeepsFront at (slice_index_or columns.old j d) (slice_index_or columns.new j d) }
    ensures all { (j : ℕ) (d : ColumnView) → j < length columns.old
        → at + length (rows_of_all parts.now) ≤ size (slice_index_or columns.new j d) → HasParts at j parts.now (slice_index_or columns.new j d) }
{
    let threads = columns.len().max(1);
    thread::for_each_mut(
        rt,
        columns,
        threads,
        &|j: usize, column: &mut Column|
            requires room { at ≤ size column.old }
            requires there { All (λ t. j < length t.types) parts.now }
            requires kinds { All (λ t. type_at t.types j ≡ column_type column.old) parts.now }
            ensures front { KeepsFront at column.old column.new }
            ensures all { at + length (rows_of_all parts.entry.now) ≤ size column.new → HasParts at j parts.entry.now column.new }
        { grow(column, at, parts, j) },
    );
}

// How many rows there are, with those of these tables behind the first `at`.
fn count_with(at: usize, parts: &[Table]) -> Option<usize>
    ensures count { IfSome result (λ n. n ≡ at + length (rows_of_all parts.now)) }
    ensures fit { IfSome result (λ _. (types : List ColType) → HaveTypes types parts.now → AllByRecursion (Fits types) (rows_of_all parts.now)) }
{
    let mut count = at;
    for part in parts {
        count = count.checked_add(part.count_fitting())?;
    }
    Some(count)
}

// Whether each of `columns` has at least `count` values.
fn are_long(columns: &[Column], count: usize) -> bool
    ensures { result ≡ true → AreLong count columns.now }
{
    for column in columns {
        if column.len() < count {
            return false;
        }
    }
    true
}

impl Table {
    /// Adds all rows of these tables, one table behind the other. Each column is written by a thread of its own.
    pub fn append_all<R: Threads + Sync>(
        &mut self,
        rt: &R,
        parts: &[Table],
    ) -> Result<(), AllocError>
        requires same_types { HaveTypes self.old.types parts.now }
        ensures types { self.new.types ≡ self.old.types }
        ensures ok { OnOk result (self.new.rows ≡ self.old.rows ++ rows_of_all parts.now) }
        ensures err { OnErr result (self.new.rows ≡ self.old.rows) }
    {
        let Some(count) = count_with(self.count, parts) else {
            return Err(AllocError);
        };
        grow_all(rt, self.columns.as_mut_slice(), self.count, parts);
        if !are_long(self.columns.as_slice(), count) {
            return Err(AllocError);
        }
        self.count = count;
        Ok(())
    }
}
