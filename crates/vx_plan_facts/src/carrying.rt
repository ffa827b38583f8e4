//! Copies of columns, and rows side by side.

ghost use Rattle.std.specs.Prelude.{◌≡◌, ℕ, ◌<◌, ◌++◌, true, map, length, IfOk, OnOk};
ghost use Rattle.vx_plan_nodes.specs.Describe.{source};
ghost use Rattle.vx_plan_nodes.specs.DescribeView.{copying_of};
ghost use Rattle.vx_plan_nodes.specs.Plan.{union};
ghost use Rattle.vx_plan_facts.specs.Facts.{AreAfterBoth, AreCarried};
ghost use Rattle.vx_plan_facts.specs.FactsView.{fixed_of, facts_of, width_of};
ghost use Rattle.vx_plan_facts.specs.Labels.{copy_label, copy_labels, both_labels, source_within};
ghost use Rattle.vx_plan_facts.specs.Listing.{beside, listed, of_firsts, copied, common};

use crate::facts::{ColumnFacts, FixedColumn};
use crate::labels::{Label, firsts_of};
use crate::values::{put_both, put_column};
use std::alloc::{AllocError, Global};
use vx_plan_nodes::Copying;

fn copy_label(firsts: &[usize], column: usize, source: Option<usize>) -> Label
    requires { source_within (length firsts.now) source ≡ true }
    ensures { result ≡ copy_label firsts.now column source }
{
    match source {
        Some(source) => (0, firsts[source]),
        None => (1, column),
    }
}

// What so many copied columns are equal by.
fn copy_labels(
    alloc: Global,
    firsts: &[usize],
    copying: Copying<'_>,
    width: usize,
) -> Result<Vec<Label>, AllocError>
    requires { (c : ℕ) → source_within (length firsts.now) (source (copying_of copying) c) ≡ true }
    ensures { IfOk result (λ v. v.items ≡ copy_labels firsts.now (copying_of copying.entry) width) }
{
    let mut labels = Vec::new(alloc);
    for column in 0..width {
        labels.push(copy_label(firsts, column, copying.source(column)))?;
    }
    Ok(labels)
}

// What columns are equal by that have to be equal in two inputs.
fn both_labels(alloc: Global, firsts: &[usize], others: &[usize]) -> Result<Vec<Label>, AllocError>
    requires { length others.now ≡ length firsts.now }
    ensures { IfOk result (λ v. v.items ≡ both_labels firsts.now others.now) }
{
    let mut labels = Vec::new(alloc);
    for column in 0..firsts.len() {
        labels.push((firsts[column], others[column]))?;
    }
    Ok(labels)
}

// Puts the values of the column of which this one is a copy behind the others.
fn put_copied<'p>(
    fixed: &mut Vec<FixedColumn<'p>>,
    below: &ColumnFacts<'p>,
    copying: Copying<'_>,
    column: usize,
) -> Result<(), AllocError>
    requires { source_within (width_of below.now) (source (copying_of copying) column) ≡ true }
    ensures { OnOk result (map fixed_of fixed.new.items ≡ map fixed_of fixed.old.items ++ beside column (copied (facts_of below.now) (copying_of copying.entry) column)) }
{
    if let Some(source) = copying.source(column) {
        put_column(fixed, column, below, source)?;
    }
    Ok(())
}

// The values of the copies, beside the first columns of their classes.
fn copied_values<'p>(
    alloc: Global,
    firsts: &[usize],
    copying: Copying<'_>,
    below: &ColumnFacts<'p>,
) -> Result<Vec<FixedColumn<'p>>, AllocError>
    requires { (c : ℕ) → source_within (width_of below.now) (source (copying_of copying) c) ≡ true }
    ensures { IfOk result (λ v. map fixed_of v.items ≡ listed (length firsts.now) (of_firsts firsts.now (copied (facts_of below.now) (copying_of copying.entry)))) }
{
    let mut fixed = Vec::new(alloc);
    for column in 0..firsts.len() {
        if firsts[column] == column {
            put_copied(&mut fixed, below, copying, column)?;
        }
    }
    Ok(fixed)
}

/// So many columns, of which some are copies.
pub fn carried<'p>(
    alloc: Global,
    copying: Copying<'_>,
    width: usize,
    below: &ColumnFacts<'p>,
) -> Result<ColumnFacts<'p>, AllocError>
    requires { (c : ℕ) → source_within (width_of below.now) (source (copying_of copying) c) ≡ true }
    ensures { IfOk result (λ k. AreCarried (copying_of copying.entry) width (facts_of below.now) (facts_of k)) }
{
    let labels = copy_labels(alloc, below.firsts.as_slice(), copying, width)?;
    let firsts = firsts_of(alloc, labels.as_slice())?;
    let fixed = copied_values(alloc, firsts.as_slice(), copying, below)?;
    Ok(ColumnFacts { firsts, fixed })
}

// The values that columns have in both inputs, beside the first columns of their classes.
fn common_values<'p>(
    alloc: Global,
    firsts: &[usize],
    left: &ColumnFacts<'p>,
    right: &ColumnFacts<'_>,
) -> Result<Vec<FixedColumn<'p>>, AllocError>
    requires left { width_of left.now ≡ length firsts.now }
    requires right { width_of right.now ≡ length firsts.now }
    ensures { IfOk result (λ v. map fixed_of v.items ≡ listed (length firsts.now) (of_firsts firsts.now (common (facts_of left.now) (facts_of right.now)))) }
{
    let mut fixed = Vec::new(alloc);
    for column in 0..firsts.len() {
        if firsts[column] == column {
            put_both(&mut fixed, column, left, right)?;
        }
    }
    Ok(fixed)
}

/// The columns of a union.
pub fn united<'p>(
    alloc: Global,
    left: &ColumnFacts<'p>,
    right: &ColumnFacts<'_>,
) -> Result<ColumnFacts<'p>, AllocError>
    requires { width_of right.now ≡ width_of left.now }
    ensures { IfOk result (λ k. AreAfterBoth union (facts_of left.now) (facts_of right.now) (facts_of k)) }
{
    let labels = both_labels(alloc, left.firsts.as_slice(), right.firsts.as_slice())?;
    let firsts = firsts_of(alloc, labels.as_slice())?;
    let fixed = common_values(alloc, firsts.as_slice(), left, right)?;
    Ok(ColumnFacts { firsts, fixed })
}
