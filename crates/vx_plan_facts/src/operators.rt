//! The columns of a node, from those of its inputs.

ghost use Rattle.std.specs.Prelude.{◌≡◌, ◌+◌, [], true, IfOk};
ghost use Rattle.vx_plan_nodes.specs.Outline.{unary_of, binary_of};
ghost use Rattle.vx_plan_facts.specs.Equal.{each_itself};
ghost use Rattle.vx_plan_facts.specs.Facts.{Keeps, AreAfter, AreAfterBoth};
ghost use Rattle.vx_plan_facts.specs.FactsView.{facts_of, width_of};
ghost use Rattle.vx_plan_facts.specs.Naming.{names_within, both_within};

use crate::carrying::{carried, united};
use crate::classes::each_itself;
use crate::facts::ColumnFacts;
use crate::joining::joined;
use crate::projecting::projected;
use crate::sharing::selected;
use std::alloc::{AllocError, Global};
use vx_plan_nodes::{Binary, Unary};

/// The columns of a scan, of which nothing is known.
pub fn of_scan<'p>(alloc: Global, width: usize) -> Result<ColumnFacts<'p>, AllocError>
    ensures { IfOk result (λ k. Keeps width each_itself (λ c. []) (facts_of k)) }
{
    Ok(ColumnFacts {
        firsts: each_itself(alloc, width)?,
        fixed: Vec::new(alloc),
    })
}

/// The columns of an operator over an input with these columns.
pub fn after_unary<'p>(
    alloc: Global,
    operator: &'p Unary,
    below: &ColumnFacts<'p>,
) -> Result<ColumnFacts<'p>, AllocError>
    requires { names_within (width_of below.now) (unary_of operator.now) ≡ true }
    ensures { IfOk result (λ k. AreAfter (unary_of operator.now) (facts_of below.now) (facts_of k)) }
{
    let copying = operator.described().copying;
    match operator {
        Unary::Select(filters) => selected(alloc, filters.as_slice(), below),
        Unary::Project(entries) => projected(alloc, entries.as_slice(), below),
        Unary::Distinct(kept) => carried(alloc, copying, kept.len(), below),
        Unary::Sort(_, _) | Unary::Limit(_) => below.copy(alloc),
        Unary::Group(_, by, aggregates) => {
            carried(alloc, copying, by.len() + aggregates.len(), below)
        }
    }
}

/// The columns of an operator over two inputs with these columns.
pub fn of_both<'p>(
    alloc: Global,
    operator: &Binary,
    left: &ColumnFacts<'p>,
    right: &ColumnFacts<'p>,
) -> Result<ColumnFacts<'p>, AllocError>
    requires { both_within (width_of left.now) (width_of right.now) (binary_of operator.now) ≡ true }
    ensures { IfOk result (λ k. AreAfterBoth (binary_of operator.now) (facts_of left.now) (facts_of right.now) (facts_of k)) }
{
    match operator {
        Binary::Union => united(alloc, left, right),
        Binary::HashJoin(on) | Binary::MergeJoin(on, _) => joined(
            alloc,
            on.as_slice(),
            left,
            right,
        ),
        Binary::SemiJoin(_, _) | Binary::AntiJoin(_, _) => left.copy(alloc),
    }
}
