//! The equal and the fixed columns of a node.

ghost use Rattle.std.specs.Prelude.{◌≡◌, ℕ, ◌<◌, ◌≤◌, ◌==◌, not, map, length, slice_index, IfOk};
ghost use Rattle.std.specs.List.{filter, list_any};
ghost use Rattle.vx_rows_values.specs.ValueView.{val_of};
ghost use Rattle.vx_rows_values.specs.Lists.{is_some_list};
ghost use Rattle.vx_plan_nodes.specs.Phases.{first_columns};
ghost use Rattle.vx_plan_facts.specs.Equal.{Equality};
ghost use Rattle.vx_plan_facts.specs.Fixed.{Values, has_value};
ghost use Rattle.vx_plan_facts.specs.Facts.{NamesFirsts, Keeps, values_of, each_once};

use crate::values::{is_among, is_beside};
use std::alloc::{AllocError, Global};
use vx_rows_values::Value;

/// A column that has a value in every row.
#[derive(Clone, Copy)]
pub struct FixedColumn<'p> {
    pub column: usize,
    /// The value, which a comparison or a projection of the plan has.
    pub value: &'p Value,
}

/// Which columns of a node are equal in every row, and which have one value there. Equal columns are a class. A column that
/// has two values stands where no row comes.
pub struct ColumnFacts<'p> {
    // For each column the first one of its class.
    pub(crate) firsts: Vec<usize>,
    // The values of these first ones, each once.
    pub(crate) fixed: Vec<FixedColumn<'p>>,
    pub(crate) ghost named: { NamesFirsts firsts.items },
}

impl Drop for ColumnFacts<'_> {
    fn drop(self) {
        let ColumnFacts {
            firsts: _,
            fixed: _,
        } = self;
    }
}

// The columns that have the same first column as this one.
fn class_in(alloc: Global, firsts: &[usize], column: usize) -> Result<Vec<usize>, AllocError>
    requires { column < length firsts.now }
    ensures { IfOk result (λ v. v.items ≡ filter (λ d. slice_index firsts.now column == slice_index firsts.now d) (first_columns (length firsts.now))) }
{
    let mut class = Vec::new(alloc);
    for other in 0..firsts.len() {
        if firsts[column] == firsts[other] {
            class.push(other)?;
        }
    }
    Ok(class)
}

impl<'p> ColumnFacts<'p> {
    ghost use Rattle.vx_plan_facts.specs.FactsView.{facts_of, width_of};

    /// How many columns the node has.
    pub fn width(&self) -> usize
        ensures { result ≡ width_of self.now }
    {
        self.firsts.len()
    }

    /// The first column that is equal to this one.
    pub fn first_of(&self, column: usize) -> usize
        requires { column < width_of self.now }
        ensures first { result ≡ slice_index (facts_of self.now).firsts column }
        ensures before { result ≤ column }
        ensures least { (w : ℕ) (e : Equality) (f : Values) → Keeps w e f (facts_of self.now) → (result == column) ≡ not (list_any (λ d. e d column) (first_columns column)) }
    {
        self.firsts[column]
    }

    /// Whether two columns are equal.
    pub fn are_equal(&self, a: usize, b: usize) -> bool
        requires a { a < width_of self.now }
        requires b { b < width_of self.now }
        ensures firsts { result ≡ (slice_index (facts_of self.now).firsts a == slice_index (facts_of self.now).firsts b) }
        ensures equal { (w : ℕ) (e : Equality) (f : Values) → Keeps w e f (facts_of self.now) → result ≡ e a b }
    {
        self.firsts[a] == self.firsts[b]
    }

    /// Whether the column has this value.
    pub fn has_value(&self, column: usize, value: &Value) -> bool
        requires { column < width_of self.now }
        ensures kept { result ≡ has_value (values_of (facts_of self.now) column) (val_of value.now) }
        ensures value { (w : ℕ) (e : Equality) (f : Values) → Keeps w e f (facts_of self.now) → result ≡ has_value (f column) (val_of value.now) }
    {
        is_among(self.fixed.as_slice(), self.firsts[column], value)
    }

    /// The values of a column, each once, in the order in which the plan names them.
    pub fn values(&self, alloc: Global, column: usize) -> Result<Vec<&'p Value>, AllocError>
        requires { column < width_of self.now }
        ensures kept { IfOk result (λ v. map (λ u. val_of u.now) v.items ≡ values_of (facts_of self.now) column) }
        ensures values { (w : ℕ) (e : Equality) (f : Values) → Keeps w e f (facts_of self.now) → IfOk result (λ v. map (λ u. val_of u.now) v.items ≡ each_once (f column)) }
    {
        let first = self.firsts[column];
        let mut values = Vec::new(alloc);
        for each in self.fixed.as_slice() {
            if each.column == first {
                values.push(each.value)?;
            }
        }
        Ok(values)
    }

    /// Whether the column has a value.
    pub fn is_fixed(&self, column: usize) -> bool
        requires { column < width_of self.now }
        ensures kept { result ≡ is_some_list (values_of (facts_of self.now) column) }
        ensures fixed { (w : ℕ) (e : Equality) (f : Values) → Keeps w e f (facts_of self.now) → result ≡ is_some_list (f column) }
    {
        is_beside(self.fixed.as_slice(), self.firsts[column])
    }

    /// The columns that are equal to this one, itself among them, from the left.
    pub fn class_of(&self, alloc: Global, column: usize) -> Result<Vec<usize>, AllocError>
        requires { column < width_of self.now }
        ensures { (w : ℕ) (e : Equality) (f : Values) → Keeps w e f (facts_of self.now) → IfOk result (λ v. v.items ≡ filter (e column) (first_columns w)) }
    {
        class_in(alloc, self.firsts.as_slice(), column)
    }

    /// The same facts, in memory of their own.
    pub fn copy(&self, alloc: Global) -> Result<ColumnFacts<'p>, AllocError>
        ensures { IfOk result (λ k. facts_of k ≡ facts_of self.now) }
    {
        let firsts = Vec::from_slice(alloc, self.firsts.as_slice())?;
        let fixed = Vec::from_slice(alloc, self.fixed.as_slice())?;
        Ok(ColumnFacts { firsts, fixed })
    }
}
