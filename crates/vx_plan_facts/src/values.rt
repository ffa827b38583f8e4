//! Lists of columns with their values.

ghost use Rattle.std.specs.Prelude.{◌≡◌, ◌<◌, ◌++◌, map, filter, IfOk, OnOk};
ghost use Rattle.std.specs.Ordering.{is_eq};
ghost use Rattle.vx_rows_values.specs.Values.{val_cmp};
ghost use Rattle.vx_rows_values.specs.Lists.{is_some_list};
ghost use Rattle.vx_rows_values.specs.ValueView.{val_of};
ghost use Rattle.vx_plan_nodes.specs.Outline.{condition_of, filter_of};
ghost use Rattle.vx_plan_facts.specs.Fixed.{has_value};
ghost use Rattle.vx_plan_facts.specs.Facts.{values_in, values_of};
ghost use Rattle.vx_plan_facts.specs.FactsView.{fixed_of, facts_of, width_of};
ghost use Rattle.vx_plan_facts.specs.Listing.{beside, common, with_fixed, with_all, named_value, named_by, named_values};

use crate::facts::{ColumnFacts, FixedColumn};
use std::alloc::{AllocError, Global};
use vx_plan_nodes::{Condition, Filter, Side};
use vx_rows_values::{Test, Value, compare_cells};

fn are_same(value: &Value, other: &Value) -> bool
    ensures { result ≡ is_eq (val_cmp (val_of value.now) (val_of other.now)) }
{
    compare_cells(value.cell(), other.cell()).is_eq()
}

/// Whether a value stands beside the column.
pub fn is_beside(fixed: &[FixedColumn<'_>], column: usize) -> bool
    ensures { result ≡ is_some_list (values_in (map fixed_of fixed.now) column) }
{
    for each in fixed {
        if each.column == column {
            return true;
        }
    }
    false
}

/// Whether the value stands beside the column.
pub fn is_among(fixed: &[FixedColumn<'_>], column: usize, value: &Value) -> bool
    ensures { result ≡ has_value (values_in (map fixed_of fixed.now) column) (val_of value.now) }
{
    for each in fixed {
        if each.column == column && are_same(each.value, value) {
            return true;
        }
    }
    false
}

// Adds a value, if it does not stand beside the column.
fn add_value<'p>(
    fixed: &mut Vec<FixedColumn<'p>>,
    column: usize,
    value: &'p Value,
) -> Result<(), AllocError>
    ensures { OnOk result (map fixed_of fixed.new.items ≡ with_fixed (map fixed_of fixed.old.items) column (val_of value.now)) }
{
    if !is_among(fixed.as_slice(), column, value) {
        fixed.push(FixedColumn { column, value })?;
    }
    Ok(())
}

/// Adds the values that stand beside the column `from` in another list to those of a column, each that is not there.
pub fn add_values<'p>(
    fixed: &mut Vec<FixedColumn<'p>>,
    column: usize,
    given: &[FixedColumn<'p>],
    from: usize,
) -> Result<(), AllocError>
    ensures { OnOk result (map fixed_of fixed.new.items ≡ with_all (map fixed_of fixed.old.items) column (values_in (map fixed_of given.now) from)) }
{
    for each in given {
        if each.column == from {
            add_value(fixed, column, each.value)?;
        }
    }
    Ok(())
}

// Puts the values that stand beside the column `from` in another list behind the others, beside a column.
fn put_values<'p>(
    fixed: &mut Vec<FixedColumn<'p>>,
    column: usize,
    given: &[FixedColumn<'p>],
    from: usize,
) -> Result<(), AllocError>
    ensures { OnOk result (map fixed_of fixed.new.items ≡ map fixed_of fixed.old.items ++ beside column (values_in (map fixed_of given.now) from)) }
{
    for each in given {
        if each.column == from {
            fixed.push(FixedColumn {
                column,
                value: each.value,
            })?;
        }
    }
    Ok(())
}

/// Puts the values of a column of a node behind the others, beside a column.
pub fn put_column<'p>(
    fixed: &mut Vec<FixedColumn<'p>>,
    column: usize,
    below: &ColumnFacts<'p>,
    from: usize,
) -> Result<(), AllocError>
    requires { from < width_of below.now }
    ensures { OnOk result (map fixed_of fixed.new.items ≡ map fixed_of fixed.old.items ++ beside column (values_of (facts_of below.now) from)) }
{
    put_values(fixed, column, below.fixed.as_slice(), below.firsts[from])
}

// Puts the values that stand beside the column `from` in one list, and beside the column `other` in another one, behind
// the rest, beside a column.
fn put_common<'p>(
    fixed: &mut Vec<FixedColumn<'p>>,
    column: usize,
    given: &[FixedColumn<'p>],
    from: usize,
    others: &[FixedColumn<'_>],
    other: usize,
) -> Result<(), AllocError>
    ensures { OnOk result (map fixed_of fixed.new.items ≡ map fixed_of fixed.old.items
        ++ beside column (filter (has_value (values_in (map fixed_of others.now) other)) (values_in (map fixed_of given.now) from))) }
{
    for each in given {
        if each.column == from && is_among(others, other, each.value) {
            fixed.push(FixedColumn {
                column,
                value: each.value,
            })?;
        }
    }
    Ok(())
}

/// Puts the values that a column has in two nodes behind the others, beside it.
pub fn put_both<'p>(
    fixed: &mut Vec<FixedColumn<'p>>,
    column: usize,
    left: &ColumnFacts<'p>,
    right: &ColumnFacts<'_>,
) -> Result<(), AllocError>
    requires left { column < width_of left.now }
    requires right { column < width_of right.now }
    ensures { OnOk result (map fixed_of fixed.new.items ≡ map fixed_of fixed.old.items ++ beside column (common (facts_of left.now) (facts_of right.now) column)) }
{
    let lefts = left.fixed.as_slice();
    let rights = right.fixed.as_slice();
    put_common(
        fixed,
        column,
        lefts,
        left.firsts[column],
        rights,
        right.firsts[column],
    )
}

// Puts the value that a condition names behind the others, beside its column.
fn put_named<'p>(
    fixed: &mut Vec<FixedColumn<'p>>,
    condition: &'p Condition,
) -> Result<(), AllocError>
    ensures { OnOk result (map fixed_of fixed.new.items ≡ map fixed_of fixed.old.items
        ++ named_value (condition_of condition.now).left (condition_of condition.now).test (condition_of condition.now).right) }
{
    if let (Test::Equal, Side::Constant(value)) = (condition.test, &condition.right) {
        fixed.push(FixedColumn {
            column: condition.left,
            value,
        })?;
    }
    Ok(())
}

// Puts the value behind the others that a comparison names.
fn put_named_by<'p>(fixed: &mut Vec<FixedColumn<'p>>, filter: &'p Filter) -> Result<(), AllocError>
    ensures { OnOk result (map fixed_of fixed.new.items ≡ map fixed_of fixed.old.items ++ named_by (filter_of filter.now)) }
{
    match filter {
        Filter::Compared(condition) => put_named(fixed, condition),
        Filter::Computed(_) => Ok(()),
    }
}

/// The values that comparisons say columns have.
pub fn named_values<'p>(
    alloc: Global,
    filters: &'p [Filter],
) -> Result<Vec<FixedColumn<'p>>, AllocError>
    ensures { IfOk result (λ v. map fixed_of v.items ≡ named_values (map filter_of filters.now)) }
{
    let mut fixed = Vec::new(alloc);
    for filter in filters {
        put_named_by(&mut fixed, filter)?;
    }
    Ok(fixed)
}
