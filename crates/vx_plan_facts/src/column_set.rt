//! Sets of columns.

ghost use Rattle.std.specs.Prelude.{◌≡◌, ◌<◌, ◌||◌, ◌==◌, ℕ, nat_lt, true, false, not};
ghost use Rattle.std.specs.List.{list_all};
ghost use Rattle.vx_rows_values.specs.Limits.{max_columns};
ghost use Rattle.vx_rows_values.specs.Order.{order_columns};
ghost use Rattle.vx_plan_facts.specs.Following.{set_of};

use vx_rows_values::OrderEntry;
use vx_rows_values::limits::MAX_COLUMNS;

/// A set of columns of a node, of those below the limit.
#[derive(Clone, Copy)]
pub struct ColumnSet {
    // A bit for each column.
    held: u64,
}

impl ColumnSet {
    ghost use Rattle.vx_plan_facts.specs.ColumnSetView.{set_of_columns};

    /// No column.
    pub fn new() -> ColumnSet
        ensures { (c : ℕ) → set_of_columns result c ≡ false }
    {
        ColumnSet { held: 0 }
    }

    /// These columns, of which those past the limit are left out.
    pub fn of(columns: &[usize]) -> ColumnSet
        ensures { (c : ℕ) → c < max_columns → set_of_columns result c ≡ set_of columns.now c }
    {
        let mut set = ColumnSet::new();
        for column in columns {
            set.put(*column);
        }
        set
    }

    /// The columns of an order, of which those past the limit are left out.
    pub fn of_order(order: &[OrderEntry]) -> ColumnSet
        ensures { (c : ℕ) → c < max_columns → set_of_columns result c ≡ set_of (order_columns order.now) c }
    {
        let mut set = ColumnSet::new();
        for entry in order {
            set.put(entry.column);
        }
        set
    }

    /// So many first columns.
    pub fn first(width: usize) -> ColumnSet
        ensures { (c : ℕ) → c < max_columns → set_of_columns result c ≡ nat_lt c width }
    {
        let mut set = ColumnSet::new();
        for column in 0..width {
            set.put(column);
        }
        set
    }

    /// Whether the column is one of them.
    pub fn contains(&self, column: usize) -> bool
        ensures { result ≡ set_of_columns self.now column }
    {
        column < MAX_COLUMNS && self.held >> column & 1 == 1
    }

    /// Whether all of these columns are among them.
    pub fn contains_all(&self, columns: &[usize]) -> bool
        ensures { result ≡ list_all (set_of_columns self.now) columns.now }
    {
        columns.iter().all(|column| self.contains(*column))
    }

    /// Whether each of them is one of the others.
    pub fn is_within(&self, others: &ColumnSet) -> bool
        ensures all { result ≡ true → (c : ℕ) → set_of_columns self.now c ≡ true → set_of_columns others.now c ≡ true }
        ensures one { result ≡ false → (c : ℕ) × (c < max_columns) × (set_of_columns self.now c ≡ true) × (set_of_columns others.now c ≡ false) }
    {
        self.held & others.held == self.held
    }

    /// Puts a column in, if it is not past the limit.
    pub fn put(&mut self, column: usize)
        ensures { (c : ℕ) → c < max_columns → set_of_columns self.new c ≡ (set_of_columns self.old c || (c == column)) }
    {
        if column < MAX_COLUMNS {
            self.held |= 1 << column;
        }
    }

    /// Puts the others in.
    pub fn put_all(&mut self, others: &ColumnSet)
        ensures { (c : ℕ) → c < max_columns → set_of_columns self.new c ≡ (set_of_columns self.old c || set_of_columns others.now c) }
    {
        self.held |= others.held;
    }

    /// Puts a column in, and says whether it is a new one.
    pub fn insert(&mut self, column: usize) -> bool
        requires { column < max_columns }
        ensures new { result ≡ not (set_of_columns self.old column) }
        ensures held { (c : ℕ) → c < max_columns → set_of_columns self.new c ≡ (set_of_columns self.old c || (c == column)) }
    {
        let is_new = !self.contains(column);
        self.put(column);
        is_new
    }
}
