//! Values of equal columns, and what a selection says.

ghost use Rattle.std.specs.Prelude.{◌≡◌, ◌++◌, true, map, length, IfOk, OnOk};
ghost use Rattle.std.specs.List.{list_all};
ghost use Rattle.vx_plan_nodes.specs.Plan.{select};
ghost use Rattle.vx_plan_nodes.specs.Outline.{filter_of};
ghost use Rattle.vx_plan_facts.specs.Facts.{values_of, AreAfter};
ghost use Rattle.vx_plan_facts.specs.FactsView.{fixed_of, facts_of, width_of};
ghost use Rattle.vx_plan_facts.specs.Naming.{filter_within};
ghost use Rattle.vx_plan_facts.specs.Listing.{listed, shared};

use crate::classes::merge_conditions;
use crate::facts::{ColumnFacts, FixedColumn};
use crate::values::{add_values, named_values, put_column};
use std::alloc::{AllocError, Global};
use vx_plan_nodes::Filter;

/// The values of all columns of each class, beside its first column, each once. These are those of each column.
pub fn shared<'p>(
    alloc: Global,
    firsts: &[usize],
    given: &[FixedColumn<'p>],
) -> Result<Vec<FixedColumn<'p>>, AllocError>
    ensures { IfOk result (λ v. map fixed_of v.items ≡ shared firsts.now (map fixed_of given.now) (length firsts.now)) }
{
    let mut fixed = Vec::new(alloc);
    for column in 0..firsts.len() {
        add_values(&mut fixed, firsts[column], given, column)?;
    }
    Ok(fixed)
}

// Puts the values of each column behind the others.
fn put_all<'p>(fixed: &mut Vec<FixedColumn<'p>>, below: &ColumnFacts<'p>) -> Result<(), AllocError>
    ensures { OnOk result (map fixed_of fixed.new.items ≡ map fixed_of fixed.old.items ++ listed (width_of below.now) (values_of (facts_of below.now))) }
{
    for column in 0..below.firsts.len() {
        put_column(fixed, column, below, column)?;
    }
    Ok(())
}

/// The columns of a selection.
pub fn selected<'p>(
    alloc: Global,
    filters: &'p [Filter],
    below: &ColumnFacts<'p>,
) -> Result<ColumnFacts<'p>, AllocError>
    requires { list_all (filter_within (width_of below.now)) (map filter_of filters.now) ≡ true }
    ensures { IfOk result (λ k. AreAfter (select (map filter_of filters.now)) (facts_of below.now) (facts_of k)) }
{
    let mut firsts = Vec::from_slice(alloc, below.firsts.as_slice())?;
    merge_conditions(&mut firsts, filters);
    let mut given = named_values(alloc, filters)?;
    put_all(&mut given, below)?;
    let fixed = shared(alloc, firsts.as_slice(), given.as_slice())?;
    Ok(ColumnFacts { firsts, fixed })
}
