//! Routed parts, up to equal columns.

ghost use Rattle.std.specs.Prelude.{◌≡◌, ◌&&◌, option_map};
ghost use Rattle.vx_plan_nodes.specs.Describe.{source};
ghost use Rattle.vx_plan_nodes.specs.DescribeView.{copying_of, kept_columns};
ghost use Rattle.vx_plan_facts.specs.FactsView.{width_of};
ghost use Rattle.vx_plan_facts.specs.Determined.{column_in};
ghost use Rattle.vx_check_rules.specs.Derived.{part_matches, routed_alike_equally, stands_for, stand_for, routed_as};
ghost use Rattle.vx_check_rules.specs.DerivedView.{equality_of, meet_equally};
ghost use Rattle.vx_check_rules.specs.WayView.{part_seen};

use crate::equal::{are_equal, are_equal_lists, are_kept_equally, are_pairs_equally, is_equal_to};
use crate::parts::{PartSeen, is_same_route};
use vx_plan_facts::ColumnFacts;
use vx_plan_nodes::{Copying, KeptColumns};

/// Whether both parts are routed by one route, on columns that are equal one by one.
pub fn is_same_equally(facts: &ColumnFacts<'_>, part: PartSeen<'_>, wanted: PartSeen<'_>) -> bool
    ensures { result ≡ part_matches (equality_of facts.now) (part_seen part.entry) (part_seen wanted.entry) }
{
    match (part, wanted) {
        (PartSeen::Routed(route, columns), PartSeen::Routed(other, others)) => {
            is_same_route(route, other) && are_equal_lists(facts, columns, others)
        }
        _ => false,
    }
}

/// Whether rows that have to meet in kept columns, if in any, are routed on columns that are equal to some of these.
pub fn do_meet_equally(
    facts: &ColumnFacts<'_>,
    meets: Option<KeptColumns<'_>>,
    part: PartSeen<'_>,
) -> bool
    ensures { result ≡ meet_equally (equality_of facts.now) (option_map kept_columns meets.entry) (part_seen part.entry) }
{
    match (meets, part) {
        (Some(kept), PartSeen::Routed(_, columns)) => are_kept_equally(facts, kept, columns),
        _ => false,
    }
}

/// Whether a left and a right part are routed by one route, on columns that are equal to those that the pairs name.
pub fn are_alike_equally(
    left: &ColumnFacts<'_>,
    right: &ColumnFacts<'_>,
    on: &[(usize, usize)],
    lefts: PartSeen<'_>,
    rights: PartSeen<'_>,
) -> bool
    ensures { result ≡ routed_alike_equally (equality_of left.now) (equality_of right.now) on.now (part_seen lefts.entry) (part_seen rights.entry) }
{
    match (lefts, rights) {
        (PartSeen::Routed(route, columns), PartSeen::Routed(other, others)) => {
            is_same_route(route, other) && are_pairs_equally(left, right, on, columns, others)
        }
        _ => false,
    }
}

// Whether this output column is equal to one, and is a copy of an input column that is equal to another.
fn stands_between(
    copying: Copying<'_>,
    input: &ColumnFacts<'_>,
    output: &ColumnFacts<'_>,
    between: usize,
    column: usize,
    other: usize,
) -> bool
    ensures { result ≡ (equality_of output.now between column && column_in (λ y. equality_of input.now y other) (source (copying_of copying.entry) between)) }
{
    are_equal(output, between, column) && is_equal_to(input, other, copying.source(between))
}

// Whether an output column stands for an input column.
fn stands_for(
    copying: Copying<'_>,
    input: &ColumnFacts<'_>,
    output: &ColumnFacts<'_>,
    column: usize,
    other: usize,
) -> bool
    ensures { result ≡ stands_for (width_of output.now) (copying_of copying.entry) (equality_of input.now) (equality_of output.now) column other }
{
    for between in 0..output.width() {
        if stands_between(copying, input, output, between, column, other) {
            return true;
        }
    }
    false
}

// Whether the lists are equally long, and each output column stands for the input column at its place.
fn stand_for(
    copying: Copying<'_>,
    input: &ColumnFacts<'_>,
    output: &ColumnFacts<'_>,
    columns: &[usize],
    others: &[usize],
) -> bool
    ensures { result ≡ stand_for (width_of output.now) (copying_of copying.entry) (equality_of input.now) (equality_of output.now) columns.now others.now }
{
    if columns.len() != others.len() {
        return false;
    }
    for (i, column) in columns.iter().enumerate() {
        if !stands_for(copying, input, output, *column, others[i]) {
            return false;
        }
    }
    true
}

/// Whether a part of an output is routed as this one of an input, on columns that stand for those that this is routed on.
pub fn is_routed_as(
    copying: Copying<'_>,
    input: &ColumnFacts<'_>,
    output: &ColumnFacts<'_>,
    part: PartSeen<'_>,
    wanted: PartSeen<'_>,
) -> bool
    ensures { result ≡ routed_as (width_of output.now) (copying_of copying.entry) (equality_of input.now) (equality_of output.now) (part_seen part.entry) (part_seen wanted.entry) }
{
    match (part, wanted) {
        (PartSeen::Routed(route, inputs), PartSeen::Routed(other, columns)) => {
            is_same_route(route, other) && stand_for(copying, input, output, columns, inputs)
        }
        _ => false,
    }
}
