//! One row of its own, as the key of a map.

ghost use Rattle.std.specs.Prelude.{◌≡◌, ◌<◌, ◌++◌, ◌∷◌, [], length, map, fold, OnOk, OnErr, IfOk};
ghost use Rattle.std.proofs.Common.{ap};
ghost use Rattle.std.specs.Ordering.{is_eq};
ghost use Rattle.std.specs.Cmp.{partial_equiv_from_equiv};
ghost use Rattle.vx_rows_values.specs.Values.{val_cmp, row_eq, value_at, pick};
ghost use Rattle.vx_rows_values.specs.ValueView.{val_of, cell_val};
ghost use Rattle.vx_rows.specs.View.{row, AreColumns};
ghost use Rattle.vx_rows.specs.Hashing.{val_feed, row_feed};
ghost use Rattle.vx_rows_values.specs.Equality.{row_eq-laws, row_eq-same};

use crate::table::Table;
use std::alloc::{AllocError, Global};
use std::hash::{Hash, Hasher};
use std::marker::Model;
use vx_rows_values::{Cell, Value};

/// The values of one row, owned: for constants and for the keys of maps, never for data that is sent on.
///
/// Rows are equal where their values are. As a scratch key a row is refilled by `read`, and copied only where a map
/// keeps it.
#[derive(Drop)]
pub struct Row {
    values: Vec<Value>,
    alloc: Global,
}

impl Model for Row {
    ghost use Rattle.std.specs.Prelude.{List, map};
    ghost use Rattle.vx_rows_values.specs.Values.{Val};
    ghost use Rattle.vx_rows_values.specs.ValueView.{val_of};

    ghost Value = { List Val };

    ghost view = { λ r. map val_of r.values.items };
}

impl PartialEq for Row {
    ghost eq = { row_eq };

    ghost laws = { partial_equiv_from_equiv row_eq-laws };

    fn eq(&self, other: &Row) -> bool {
        if self.values.len() != other.values.len() {
            return false;
        }
        for i in 0..self.values.len() {
            if !equal_values(&self.values[i], &other.values[i]) {
                return false;
            }
        }
        true
    }
}

impl Eq for Row {
    ghost laws = { row_eq-laws };
}

impl Hash for Row {
    ghost hash_input = { row_feed };

    ghost respects_eq = { λ x y h. ap row_feed (row_eq-same x y h) };

    fn hash<H: Hasher>(&self, state: &mut H) {
        for value in &self.values {
            feed_value(value, state);
        }
    }
}

impl Row {
    /// A row of no values.
    pub fn new(alloc: Global) -> Row
        ensures { result ≡ [] }
    {
        Row {
            values: Vec::new(alloc),
            alloc,
        }
    }

    /// How many values there are.
    pub fn len(&self) -> usize
        ensures { result ≡ length self.now }
    {
        self.values.len()
    }

    /// The values, as an argument of `Table::push`.
    pub fn values(&self) -> &[Value]
        ensures { map val_of result.now ≡ self.now }
    {
        self.values.as_slice()
    }

    /// The value in a column.
    pub fn cell(&self, column: usize) -> Cell<'_>
        requires { column < length self.now }
        ensures { cell_val result ≡ value_at self.now column }
    {
        self.values[column].cell()
    }

    /// Adds a value at the end.
    pub fn push(&mut self, value: Value) -> Result<(), AllocError>
        ensures ok { OnOk result (self.new ≡ self.old ++ val_of value ∷ []) }
        ensures err { OnErr result (self.new ≡ self.old) }
    {
        self.values.push(value)?;
        Ok(())
    }

    /// Becomes the values of row `i` of `rows` in the columns `cols`. Numbers need no memory once there is room for `cols.len()`
    /// values, and texts keep their capacity. After an `Err` the values are arbitrary.
    pub fn read(&mut self, rows: &Table, i: usize, cols: &[usize]) -> Result<(), AllocError>
        requires row { i < length rows.now.rows }
        requires columns { AreColumns (length rows.now.types) cols.now }
        ensures { OnOk result (self.new ≡ pick cols.now (row rows.now i)) }
    {
        rows.read_key(self.alloc, i, cols, &mut self.values)
    }

    /// The same values once more.
    pub fn copy(&self) -> Result<Row, AllocError>
        ensures { IfOk result (λ r. r ≡ self.now) }
    {
        let mut values = Vec::with_capacity(self.alloc, self.values.len())?;
        for value in &self.values {
            values.push(value.cell().to_value(self.alloc)?)?;
        }
        Ok(Row {
            values,
            alloc: self.alloc,
        })
    }
}

// Whether two values are one.
fn equal_values(a: &Value, b: &Value) -> bool
    ensures { result ≡ is_eq (val_cmp (val_of a.now) (val_of b.now)) }
{
    match (a, b) {
        (Value::Int(x), Value::Int(y)) => x == y,
        (Value::Text(x), Value::Text(y)) => x.as_bytes().cmp(y.as_bytes()).is_eq(),
        _ => false,
    }
}

// Feeds a value to a hasher.
fn feed_value<H: Hasher>(value: &Value, state: &mut H)
    ensures { state.new ≡ fold H.write state.old (val_feed (val_of value.now)) }
{
    match value {
        Value::Int(x) => x.hash(state),
        Value::Text(x) => x.hash(state),
    }
}
