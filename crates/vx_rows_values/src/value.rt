//! One value of a row.

ghost use Rattle.std.specs.Prelude.{◌≡◌, ◌↔◌, true, map, IfOk, OnOk, IsTrue};
ghost use Rattle.std.specs.Str.{is_utf8};
ghost use Rattle.vx_rows_values.specs.Values.{val_cmp, text as text_val};
ghost use Rattle.vx_rows_values.specs.ValueView.{val_of, cell_val};
ghost use Rattle.vx_rows_values.specs.Types.{type_of, is_held};

use std::alloc::{AllocError, Global};
use std::cmp::Ordering;

/// What a column holds.
#[derive(Clone, Copy, PartialEq, Eq)]
pub enum ColType {
    /// Signed numbers of 64 bits.
    Int,
    /// Texts in UTF-8.
    Text,
}

/// A number or a text that is owned: a constant, or part of a key.
#[derive(Drop)]
pub enum Value {
    /// A number.
    Int(i64),
    /// A text.
    Text(String),
}

/// A number or a text that is borrowed from where it lies, as from a column.
#[derive(Clone, Copy)]
pub enum Cell<'a> {
    /// A number.
    Int(i64),
    /// A text.
    Text(&'a str),
}

impl Value {
    /// The value, borrowed.
    pub fn cell(&self) -> Cell<'_>
        ensures same { cell_val result ≡ val_of self.now }
        ensures held { is_held (val_of self.now) ≡ true }
    {
        match self {
            Value::Int(n) => Cell::Int(*n),
            Value::Text(s) => Cell::Text(s.as_str()),
        }
    }

    /// The same value, with a text of its own.
    pub fn copy(&self, alloc: Global) -> Result<Value, AllocError>
        ensures { IfOk result (λ v. val_of v ≡ val_of self.now) }
    {
        self.cell().to_value(alloc)
    }

    /// Becomes the value of a cell. A text keeps its capacity. After an `Err` it is an arbitrary value.
    pub fn set(&mut self, alloc: Global, cell: Cell<'_>) -> Result<(), AllocError>
        ensures { OnOk result (val_of self.new ≡ cell_val cell.entry) }
    {
        if let (Value::Text(s), Cell::Text(t)) = (&mut *self, cell) {
            s.clear();
            return s.push_str(t);
        }
        *self = cell.to_value(alloc)?;
        Ok(())
    }
}

/// Copies of values, in their order.
pub fn copied_values(alloc: Global, values: &[Value]) -> Result<Vec<Value>, AllocError>
    ensures { IfOk result (λ v. map val_of v.items ≡ map val_of values.now) }
{
    let mut copies = Vec::new(alloc);
    for value in values {
        copies.push(value.copy(alloc)?)?;
    }
    Ok(copies)
}

// A text of its own, as a value.
fn text_value(alloc: Global, text: &str) -> Result<Value, AllocError>
    ensures same { IfOk result (λ v. val_of v ≡ text_val text.now) }
    ensures held { is_utf8 text.now ≡ true }
{
    Ok(Value::Text(String::from_str(alloc, text)?))
}

impl Cell<'_> {
    /// The value, with a text of its own.
    pub fn to_value(self, alloc: Global) -> Result<Value, AllocError>
        ensures same { IfOk result (λ v. val_of v ≡ cell_val self.entry) }
        ensures held { is_held (cell_val self.entry) ≡ true }
    {
        match self {
            Cell::Int(n) => Ok(Value::Int(n)),
            Cell::Text(s) => text_value(alloc, s),
        }
    }

    /// Whether this is a value of a type.
    pub fn is_of(self, kind: ColType) -> bool
        ensures { IsTrue result ↔ (type_of (cell_val self.entry) ≡ kind) }
    {
        match (self, kind) {
            (Cell::Int(_), ColType::Int) => true,
            (Cell::Text(_), ColType::Text) => true,
            (Cell::Int(_), ColType::Text) => false,
            (Cell::Text(_), ColType::Int) => false,
        }
    }

    /// The type of the value.
    pub fn col_type(self) -> ColType
        ensures { result ≡ type_of (cell_val self.entry) }
    {
        match self {
            Cell::Int(_) => ColType::Int,
            Cell::Text(_) => ColType::Text,
        }
    }
}

/// Numbers by size, texts by their bytes.
pub fn compare_cells(a: Cell<'_>, b: Cell<'_>) -> Ordering
    ensures { result ≡ val_cmp (cell_val a.entry) (cell_val b.entry) }
{
    match (a, b) {
        (Cell::Int(m), Cell::Int(n)) => m.cmp(&n),
        (Cell::Int(_), Cell::Text(_)) => Ordering::Less,
        (Cell::Text(_), Cell::Int(_)) => Ordering::Greater,
        (Cell::Text(s), Cell::Text(t)) => s.as_bytes().cmp(t.as_bytes()),
    }
}
