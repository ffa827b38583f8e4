//! The values of one column.

ghost use Rattle.std.specs.Prelude.{◌≡◌, ℕ, ◌+◌, ◌-◌, ◌<◌, ◌≤◌, [], length, pos, slice_index, slice_index_or, true, OnOk, IfOk};
ghost use Rattle.vx_rows_values.specs.ValueView.{cell_val};
ghost use Rattle.vx_rows.specs.View.{ArePositions};
ghost use Rattle.vx_rows_values.specs.Types.{type_of, is_held};
ghost use Rattle.vx_rows.specs.Columns.{column_type, size, entry, KeepsFront};
ghost use Rattle.std.specs.Prelude.{IfSome, IfNone};
ghost use Rattle.vx_rows_values.specs.declared.value.ColType.TheVariants as kind;
ghost use Rattle.vx_rows_values.specs.Values.{num, text};

use crate::numbers::Numbers;
use crate::texts::Texts;
use std::alloc::{AllocError, Global};
use vx_rows_values::{Cell, ColType};

/// The values of a column, all of one type.
#[derive(Drop)]
pub enum Column {
    Int(Numbers),
    Text(Texts),
}

impl Column {
    /// A column without values.
    pub fn new(alloc: Global, kind: ColType) -> Result<Column, AllocError>
        ensures kind { IfOk result (λ c. column_type c ≡ kind) }
        ensures empty { IfOk result (λ c. size c ≡ 0) }
    {
        match kind {
            ColType::Int => Ok(Column::Int(Numbers::new(alloc))),
            ColType::Text => Ok(Column::Text(Texts::new(alloc)?)),
        }
    }

    /// The value at position i.
    pub fn get(&self, i: usize) -> Cell<'_>
        requires { i < size self.now }
        ensures { cell_val result ≡ entry self.now i }
    {
        match self {
            Column::Int(v) => Cell::Int(v.get(i)),
            Column::Text(t) => Cell::Text(t.get(i)),
        }
    }

    /// How many values there are.
    pub fn len(&self) -> usize
        ensures { result ≡ size self.now }
    {
        match self {
            Column::Int(v) => v.len(),
            Column::Text(t) => t.len(),
        }
    }

    /// Keeps the first `at` values.
    pub fn truncate(&mut self, at: usize)
        requires { at ≤ size self.old }
        ensures front { KeepsFront at self.old self.new }
        ensures long { size self.new ≡ at }
    {
        match self {
            Column::Int(v) => v.truncate(at),
            Column::Text(t) => t.truncate(at),
        }
    }

    /// The values, where they are numbers.
    pub fn numbers(&self) -> Option<&Numbers>
        ensures some { IfSome result (λ _. column_type self.now ≡ kind.Int) }
        ensures none { IfNone result (column_type self.now ≡ kind.Text) }
        ensures long { IfSome result (λ v. length v.now ≡ size self.now) }
        ensures values { IfSome result (λ v. (k : ℕ) → entry self.now k ≡ num (slice_index_or v.now k (pos 0))) }
    {
        match self {
            Column::Int(v) => Some(v),
            Column::Text(_) => None,
        }
    }

    /// The values, where they are texts.
    pub fn texts(&self) -> Option<&Texts>
        ensures some { IfSome result (λ _. column_type self.now ≡ kind.Text) }
        ensures none { IfNone result (column_type self.now ≡ kind.Int) }
        ensures long { IfSome result (λ t. length t.now ≡ size self.now) }
        ensures values { IfSome result (λ t. (k : ℕ) → entry self.now k ≡ text (slice_index_or t.now k [])) }
    {
        match self {
            Column::Int(_) => None,
            Column::Text(t) => Some(t),
        }
    }

    /// Leaves the first `at` values, and adds one.
    #[inline(always)]
    pub fn put(&mut self, at: usize, cell: Cell<'_>) -> Result<(), AllocError>
        requires room { at ≤ size self.old }
        requires kind { type_of (cell_val cell) ≡ column_type self.old }
        ensures held { is_held (cell_val cell.entry) ≡ true }
        ensures front { KeepsFront at self.old self.new }
        ensures ok { OnOk result (entry self.new at ≡ cell_val cell.entry) }
        ensures ok_long { OnOk result (size self.new ≡ at + 1) }
    {
        match (self, cell) {
            (Column::Int(v), Cell::Int(n)) => {
                v.truncate(at);
                v.push(n)
            }
            (Column::Text(t), Cell::Text(s)) => t.put(at, s),
            _ => unreachable!(),
        }
    }

    /// Leaves the first `at` values, and adds those of another column from `from` up to `to`.
    pub fn put_range(
        &mut self,
        at: usize,
        other: &Column,
        from: usize,
        to: usize,
    ) -> Result<(), AllocError>
        requires room { at ≤ size self.old }
        requires kind { column_type other.now ≡ column_type self.old }
        requires order { from ≤ to }
        requires there { to ≤ size other.now }
        ensures front { KeepsFront at self.old self.new }
        ensures ok { OnOk result ((k : ℕ) → k < to - from → entry self.new (at + k) ≡ entry other.now (from + k)) }
        ensures ok_long { OnOk result (size self.new ≡ at + (to - from)) }
    {
        match (self, other) {
            (Column::Int(v), Column::Int(w)) => {
                v.truncate(at);
                v.add_range(w, from, to)
            }
            (Column::Text(t), Column::Text(u)) => t.put_range(at, u, from, to),
            _ => unreachable!(),
        }
    }

    /// Leaves the first `at` values, and adds those of another column at some positions, in their order.
    pub fn put_at(
        &mut self,
        at: usize,
        other: &Column,
        positions: &[usize],
    ) -> Result<(), AllocError>
        requires room { at ≤ size self.old }
        requires kind { column_type other.now ≡ column_type self.old }
        requires there { ArePositions (size other.now) positions.now }
        ensures front { KeepsFront at self.old self.new }
        ensures ok { OnOk result ((k : ℕ) → k < length positions.now → entry self.new (at + k) ≡ entry other.now (slice_index positions.now k)) }
        ensures ok_long { OnOk result (at + length positions.now ≤ size self.new) }
    {
        match (self, other) {
            (Column::Int(v), Column::Int(w)) => {
                v.truncate(at);
                v.add_at(w, positions)
            }
            (Column::Text(t), Column::Text(u)) => {
                t.reserve(positions.len())?;
                t.put_at(at, u, positions)
            }
            _ => unreachable!(),
        }
    }

    /// Keeps the first `at` values and reserves room for `additional` more. It reserves none for the bytes of texts.
    pub fn reserve(&mut self, at: usize, additional: usize) -> Result<(), AllocError>
        requires { at ≤ size self.old }
        ensures { KeepsFront at self.old self.new }
    {
        match self {
            Column::Int(v) => {
                v.truncate(at);
                v.reserve(additional)
            }
            Column::Text(t) => t.reserve(additional),
        }
    }

    /// Reserves room for `times` times as many more values as there are.
    pub fn reserve_times(&mut self, times: usize) -> Result<(), AllocError>
        ensures { self.new ≡ self.old }
    {
        match self {
            Column::Int(v) => v.reserve(v.len().saturating_mul(times)),
            Column::Text(t) => t.reserve_times(times),
        }
    }

    /// Gives back the memory in which no value lies.
    pub fn shrink(&mut self)
        ensures { self.new ≡ self.old }
    {
        match self {
            Column::Int(v) => v.shrink(),
            Column::Text(t) => t.shrink(),
        }
    }
}
