//! Columns that are equal in every row: two of them, lists, and pairs of a join.

ghost use Rattle.std.specs.Prelude.{◌≡◌};
ghost use Rattle.std.specs.List.{list_any};
ghost use Rattle.vx_plan_nodes.specs.DescribeView.{kept_columns};
ghost use Rattle.vx_plan_facts.specs.Determined.{column_in};
ghost use Rattle.vx_plan_facts.specs.Following.{equal_lists};
ghost use Rattle.vx_check_rules.specs.Derived.{within_equally, has_pair_equally, all_pairs_equally};
ghost use Rattle.vx_check_rules.specs.DerivedView.{equality_of};

use vx_plan_facts::ColumnFacts;
use vx_plan_nodes::KeptColumns;

/// Whether both columns are there and are equal.
pub fn are_equal(facts: &ColumnFacts<'_>, column: usize, other: usize) -> bool
    ensures { result ≡ equality_of facts.now column other }
{
    column < facts.width() && other < facts.width() && facts.are_equal(column, other)
}

/// Whether the lists are equally long, and each column is equal to the one at its place.
pub fn are_equal_lists(facts: &ColumnFacts<'_>, columns: &[usize], others: &[usize]) -> bool
    ensures { result ≡ equal_lists (equality_of facts.now) columns.now others.now }
{
    if columns.len() != others.len() {
        return false;
    }
    for (i, column) in columns.iter().enumerate() {
        if !are_equal(facts, *column, others[i]) {
            return false;
        }
    }
    true
}

/// Whether the other column is there and is equal to this one.
pub fn is_equal_to(facts: &ColumnFacts<'_>, column: usize, other: Option<usize>) -> bool
    ensures own { result ≡ column_in (equality_of facts.now column) other }
    ensures others { result ≡ column_in (λ y. equality_of facts.now y column) other }
{
    match other {
        Some(other) => are_equal(facts, column, other),
        None => false,
    }
}

// Whether the column is equal to a kept one.
fn is_kept_equally(facts: &ColumnFacts<'_>, kept: KeptColumns<'_>, column: usize) -> bool
    ensures { result ≡ list_any (equality_of facts.now column) (kept_columns kept.entry) }
{
    for i in 0..kept.len() {
        if is_equal_to(facts, column, kept.get(i)) {
            return true;
        }
    }
    false
}

/// Whether each of the columns is equal to a kept one.
pub fn are_kept_equally(facts: &ColumnFacts<'_>, kept: KeptColumns<'_>, columns: &[usize]) -> bool
    ensures { result ≡ within_equally (equality_of facts.now) columns.now (kept_columns kept.entry) }
{
    for column in columns {
        if !is_kept_equally(facts, kept, *column) {
            return false;
        }
    }
    true
}

// Whether the columns are equal to those of one of the pairs, a left one and a right one.
fn is_pair_equally(
    left: &ColumnFacts<'_>,
    right: &ColumnFacts<'_>,
    on: &[(usize, usize)],
    column: usize,
    other: usize,
) -> bool
    ensures { result ≡ has_pair_equally (equality_of left.now) (equality_of right.now) on.now column other }
{
    for pair in on {
        if are_equal(left, column, pair.0) && are_equal(right, other, pair.1) {
            return true;
        }
    }
    false
}

/// Whether the lists are equally long, and each column is paired so with the one at its place.
pub fn are_pairs_equally(
    left: &ColumnFacts<'_>,
    right: &ColumnFacts<'_>,
    on: &[(usize, usize)],
    lefts: &[usize],
    rights: &[usize],
) -> bool
    ensures { result ≡ all_pairs_equally (equality_of left.now) (equality_of right.now) on.now lefts.now rights.now }
{
    if lefts.len() != rights.len() {
        return false;
    }
    for (i, column) in lefts.iter().enumerate() {
        if !is_pair_equally(left, right, on, *column, rights[i]) {
            return false;
        }
    }
    true
}
