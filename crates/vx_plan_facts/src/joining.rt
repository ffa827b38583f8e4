//! The columns of joins.

ghost use Rattle.std.specs.Prelude.{◌≡◌, ◌+◌, ◌<◌, ◌++◌, true, map, length, IfOk, OnOk};
ghost use Rattle.std.specs.List.{list_all};
ghost use Rattle.vx_plan_nodes.specs.Plan.{JoinMethod, join};
ghost use Rattle.vx_plan_facts.specs.Facts.{NamesFirsts, AreAfterBoth};
ghost use Rattle.vx_plan_facts.specs.FactsView.{fixed_of, facts_of, width_of};
ghost use Rattle.vx_plan_facts.specs.Naming.{pair_within};
ghost use Rattle.vx_plan_facts.specs.Listing.{beside, listed, side_by_side};

use crate::classes::merge_pairs;
use crate::facts::{ColumnFacts, FixedColumn};
use crate::sharing::shared;
use crate::values::put_column;
use std::alloc::{AllocError, Global};

// The first columns of a left input, and behind them those of a right one.
fn both_firsts(alloc: Global, left: &[usize], right: &[usize]) -> Result<Vec<usize>, AllocError>
    requires { NamesFirsts right.now }
    ensures { IfOk result (λ v. v.items ≡ left.now ++ map (λ c. length left.now + c) right.now) }
{
    let mut firsts = Vec::from_slice(alloc, left)?;
    for first in right {
        firsts.push(left.len() + *first)?;
    }
    Ok(firsts)
}

// Puts the values of a column of a join, before its pairs, behind the others.
fn put_side<'p>(
    fixed: &mut Vec<FixedColumn<'p>>,
    left: &ColumnFacts<'p>,
    right: &ColumnFacts<'p>,
    column: usize,
) -> Result<(), AllocError>
    requires { column < width_of left.now + width_of right.now }
    ensures { OnOk result (map fixed_of fixed.new.items ≡ map fixed_of fixed.old.items ++ beside column (side_by_side (width_of left.now) (facts_of left.now) (facts_of right.now) column)) }
{
    let behind = left.firsts.len();
    if column < behind {
        put_column(fixed, column, left, column)
    } else {
        put_column(fixed, column, right, column - behind)
    }
}

// The values of the columns of both inputs.
fn both_values<'p>(
    alloc: Global,
    left: &ColumnFacts<'p>,
    right: &ColumnFacts<'p>,
) -> Result<Vec<FixedColumn<'p>>, AllocError>
    ensures { IfOk result (λ v. map fixed_of v.items ≡ listed (width_of left.now + width_of right.now) (side_by_side (width_of left.now) (facts_of left.now) (facts_of right.now))) }
{
    let mut fixed = Vec::new(alloc);
    for column in 0..left.firsts.len() + right.firsts.len() {
        put_side(&mut fixed, left, right, column)?;
    }
    Ok(fixed)
}

/// The columns of a join on these pairs.
pub fn joined<'p>(
    alloc: Global,
    on: &[(usize, usize)],
    left: &ColumnFacts<'p>,
    right: &ColumnFacts<'p>,
) -> Result<ColumnFacts<'p>, AllocError>
    requires { list_all (pair_within (width_of left.now) (width_of right.now)) on.now ≡ true }
    ensures { IfOk result (λ k. (method : JoinMethod) → AreAfterBoth (join method on.now) (facts_of left.now) (facts_of right.now) (facts_of k)) }
{
    let lefts = left.firsts.as_slice();
    let rights = right.firsts.as_slice();
    let mut firsts = both_firsts(alloc, lefts, rights)?;
    merge_pairs(&mut firsts, lefts.len(), rights.len(), on);
    let given = both_values(alloc, left, right)?;
    let fixed = shared(alloc, firsts.as_slice(), given.as_slice())?;
    Ok(ColumnFacts { firsts, fixed })
}
