//! The inputs of a node that say which columns are determined, and their columns for those of the node.

ghost use Rattle.std.specs.Prelude.{◌≡◌, ◌<◌, ◌&&◌, ◌||◌, ℕ, nat_lt, map, option_map};
ghost use Rattle.vx_rows_values.specs.Limits.{max_columns};
ghost use Rattle.vx_catalog_relations.specs.Relation.{Relation};
ghost use Rattle.vx_plan_nodes.specs.Describe.{source};
ghost use Rattle.vx_plan_nodes.specs.Outline.{plan_of};
ghost use Rattle.vx_plan_facts.specs.Facts.{AreNumbered};
ghost use Rattle.vx_plan_facts.specs.Determined.{sources_in, column_in, is_copy_of};
ghost use Rattle.vx_plan_facts.specs.FactsView.{facts_of};
ghost use Rattle.vx_plan_facts.specs.ColumnSetView.{set_of_columns};
ghost use Rattle.vx_plan_facts.specs.Asking.{left_input, right_input};
ghost use Rattle.vx_plan_facts.specs.AskingView.{copies_of, input_of};

use crate::column_set::ColumnSet;
use crate::copies::{Copies, Input};
use crate::facts::ColumnFacts;
use vx_plan_nodes::{Binary, Copying, TypedNode};

/// The left and the right input that a node asks. A union asks neither, and a semi or an anti join its left one alone.
pub fn inputs<'p>(
    node: &'p TypedNode,
    facts: &[ColumnFacts<'_>],
) -> (Option<Input<'p>>, Option<Input<'p>>)
    requires { (catalog : ℕ → Relation) × AreNumbered catalog (map facts_of facts.now) (plan_of node.now) }
    ensures left { (catalog : ℕ → Relation) → AreNumbered catalog (map facts_of facts.now) (plan_of node.now) → option_map input_of result.0 ≡ left_input catalog (plan_of node.now) }
    ensures right { (catalog : ℕ → Relation) → AreNumbered catalog (map facts_of facts.now) (plan_of node.now) → option_map input_of result.1 ≡ right_input catalog (plan_of node.now) }
{
    match node {
        TypedNode::Scan(_, _) | TypedNode::Binary(_, Binary::Union, _, _) => (None, None),
        TypedNode::Unary(_, operator, input) => {
            let copies = Copies::Of(operator.described().copying);
            (
                Some(Input {
                    copies,
                    node: input,
                }),
                None,
            )
        }
        TypedNode::Binary(_, Binary::SemiJoin(_, _) | Binary::AntiJoin(_, _), input, _)
        | TypedNode::Exchange(_, _, input) => {
            let copies = Copies::Of(Copying::WholeRows);
            (
                Some(Input {
                    copies,
                    node: input,
                }),
                None,
            )
        }
        TypedNode::Binary(_, _, left, right) => {
            let behind = facts[left.head().number as usize].width();
            let lefts = Input {
                copies: Copies::Left(behind),
                node: left,
            };
            let rights = Input {
                copies: Copies::Right(behind),
                node: right,
            };
            (Some(lefts), Some(rights))
        }
    }
}

// Puts the input column in that a column of the set is a copy of.
fn put_source(copies: Copies<'_>, column: usize, set: &ColumnSet, asked: &mut ColumnSet)
    ensures { (x : ℕ) → x < max_columns → set_of_columns asked.new x ≡ (set_of_columns asked.old x || (set_of_columns set.now column && is_copy_of x (source (copies_of copies.entry) column))) }
{
    if set.contains(column)
        && let Some(source) = copies.source(column)
    {
        asked.put(source);
    }
}

/// The columns of an input of which columns of the set are copies.
pub fn sources(copies: Copies<'_>, width: usize, set: &ColumnSet) -> ColumnSet
    ensures { (x : ℕ) → x < max_columns → set_of_columns result x ≡ sources_in width (copies_of copies.entry) (set_of_columns set.now) x }
{
    let mut asked = ColumnSet::new();
    for column in 0..width {
        put_source(copies, column, set, &mut asked);
    }
    asked
}

// Whether the column is a copy of one of the answer.
fn is_answered(copies: Copies<'_>, answer: &ColumnSet, column: usize) -> bool
    ensures { result ≡ column_in (set_of_columns answer.now) (source (copies_of copies.entry) column) }
{
    match copies.source(column) {
        Some(source) => answer.contains(source),
        None => false,
    }
}

/// Puts the copies of the columns of an answer in.
pub fn put_copies(copies: Copies<'_>, width: usize, answer: &ColumnSet, found: &mut ColumnSet)
    ensures { (c : ℕ) → c < max_columns → set_of_columns found.new c ≡ (set_of_columns found.old c || (nat_lt c width && column_in (set_of_columns answer.now) (source (copies_of copies.entry) c))) }
{
    for column in 0..width {
        if is_answered(copies, answer, column) {
            found.put(column);
        }
    }
}
