//! The columns of a projection: copies, and constants.

ghost use Rattle.std.specs.Prelude.{◌≡◌, ◌++◌, true, map, length, Some, IfOk, OnOk};
ghost use Rattle.std.specs.List.{list_all};
ghost use Rattle.vx_plan_nodes.specs.Plan.{made_by, project};
ghost use Rattle.vx_plan_nodes.specs.Outline.{expression_of, entry_of};
ghost use Rattle.vx_plan_facts.specs.Facts.{AreAfter};
ghost use Rattle.vx_plan_facts.specs.FactsView.{fixed_of, facts_of, width_of};
ghost use Rattle.vx_plan_facts.specs.Fixed.{constant_value, constants};
ghost use Rattle.vx_plan_facts.specs.Listing.{beside, listed};
ghost use Rattle.vx_plan_facts.specs.Naming.{entry_within};

use crate::carrying::carried;
use crate::facts::{ColumnFacts, FixedColumn};
use std::alloc::{AllocError, Global};
use vx_plan_nodes::{Copying, Entry, Expression};

// Puts the value behind the others that the expression of a column is, if it is one.
fn put_value<'p>(
    fixed: &mut Vec<FixedColumn<'p>>,
    column: usize,
    expression: &'p Expression,
) -> Result<(), AllocError>
    ensures { OnOk result (map fixed_of fixed.new.items ≡ map fixed_of fixed.old.items ++ beside column (constant_value (Some (made_by (expression_of expression.now))))) }
{
    if let Expression::Value(value) = expression {
        fixed.push(FixedColumn { column, value })?;
    }
    Ok(())
}

// Puts the value of a column of the output behind the others, if its entry is a constant.
fn put_constant<'p>(
    fixed: &mut Vec<FixedColumn<'p>>,
    column: usize,
    entry: &'p Entry,
) -> Result<(), AllocError>
    ensures { OnOk result (map fixed_of fixed.new.items ≡ map fixed_of fixed.old.items ++ beside column (constant_value (Some (entry_of entry.now)))) }
{
    match entry {
        Entry::Kept(_) => Ok(()),
        Entry::Made(expression) => put_value(fixed, column, expression),
    }
}

// Puts the constants behind the others, each beside its column of the output.
fn put_constants<'p>(
    fixed: &mut Vec<FixedColumn<'p>>,
    entries: &'p [Entry],
) -> Result<(), AllocError>
    ensures { OnOk result (map fixed_of fixed.new.items ≡ map fixed_of fixed.old.items ++ listed (length entries.now) (constants (map entry_of entries.now))) }
{
    for column in 0..entries.len() {
        put_constant(fixed, column, &entries[column])?;
    }
    Ok(())
}

/// The columns of a projection.
pub fn projected<'p>(
    alloc: Global,
    entries: &'p [Entry],
    below: &ColumnFacts<'p>,
) -> Result<ColumnFacts<'p>, AllocError>
    requires { list_all (entry_within (width_of below.now)) (map entry_of entries.now) ≡ true }
    ensures { IfOk result (λ k. AreAfter (project (map entry_of entries.now)) (facts_of below.now) (facts_of k)) }
{
    let mut own = carried(alloc, Copying::Entries(entries), entries.len(), below)?;
    put_constants(&mut own.fixed, entries)?;
    Ok(own)
}
