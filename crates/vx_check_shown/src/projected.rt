//! Columns of a projection's output that stand for those of its input's keys.

ghost use Rattle.std.specs.Prelude.{◌≡◌, ℕ, ◌<◌, true, map, IfOk, IfSome, OnOk};
ghost use Rattle.std.specs.List.{list_all};
ghost use Rattle.vx_catalog_relations.specs.Relation.{Relation};
ghost use Rattle.vx_catalog_relations.specs.Catalog.{all_below};
ghost use Rattle.vx_plan_nodes.specs.Describe.{described};
ghost use Rattle.vx_plan_nodes.specs.DescribeView.{copying_of};
ghost use Rattle.vx_plan_nodes.specs.Outline.{unary_of, plan_of};
ghost use Rattle.vx_plan_nodes.specs.Types.{width};
ghost use Rattle.vx_plan_facts.specs.KnownView.{IsKnownOf};
ghost use Rattle.vx_check_rules.specs.KnownNode.{AreCopiesOf};

use std::alloc::{AllocError, Global};
use vx_check_options::Lists;
use vx_check_rules::copy_of;
use vx_plan_facts::KnownColumns;
use vx_plan_nodes::{Copying, TypedNode, Unary};

// Of so many output columns the first that stands for this input column, if there is one.
fn stand_in(
    copying: Copying<'_>,
    outputs: usize,
    input: &TypedNode,
    known: &KnownColumns<'_>,
    column: usize,
) -> Option<usize>
    requires { (catalog : ℕ → Relation) × AreCopiesOf catalog known.now (plan_of input.now) outputs (copying_of copying) }
    ensures { IfSome result (λ d. d < outputs) }
{
    if column >= known.facts_of(input).width() {
        return None;
    }
    copy_of(copying, outputs, input, known, column)
}

// Puts the columns that stand for those of the key behind the lists that are there, if each has one.
fn put_stand_ins(
    alloc: Global,
    found: &mut Lists,
    copying: Copying<'_>,
    outputs: usize,
    input: &TypedNode,
    known: &KnownColumns<'_>,
    key: &[usize],
) -> Result<(), AllocError>
    requires { (catalog : ℕ → Relation) × AreCopiesOf catalog known.now (plan_of input.now) outputs (copying_of copying) }
    ensures { OnOk result (list_all (all_below outputs) (map (λ k. k.items) found.old.items) ≡ true → list_all (all_below outputs) (map (λ k. k.items) found.new.items) ≡ true) }
{
    let mut columns = Vec::new(alloc);
    for column in key {
        match stand_in(copying, outputs, input, known, *column) {
            Some(column) => columns.push(column)?,
            None => return Ok(()),
        }
    }
    found.push(columns)?;
    Ok(())
}

// The same for each of these keys.
fn all_stand_ins(
    alloc: Global,
    copying: Copying<'_>,
    outputs: usize,
    input: &TypedNode,
    known: &KnownColumns<'_>,
    keys: &[Vec<usize>],
) -> Result<Lists, AllocError>
    requires { (catalog : ℕ → Relation) × AreCopiesOf catalog known.now (plan_of input.now) outputs (copying_of copying) }
    ensures { IfOk result (λ v. list_all (all_below outputs) (map (λ k. k.items) v.items) ≡ true) }
{
    let mut found = Vec::new(alloc);
    for key in keys {
        put_stand_ins(
            alloc,
            &mut found,
            copying,
            outputs,
            input,
            known,
            key.as_slice(),
        )?;
    }
    Ok(found)
}

// Of a projection, for each of these keys of its input.
fn stand_ins_over(
    alloc: Global,
    operator: &Unary,
    outputs: usize,
    input: &TypedNode,
    known: &KnownColumns<'_>,
    keys: &[Vec<usize>],
) -> Result<Lists, AllocError>
    requires { (catalog : ℕ → Relation) × AreCopiesOf catalog known.now (plan_of input.now) outputs (described (unary_of operator.now)).copying }
    ensures { IfOk result (λ v. list_all (all_below outputs) (map (λ k. k.items) v.items) ≡ true) }
{
    match operator {
        Unary::Project(_) => {
            let copying = operator.described().copying;
            all_stand_ins(alloc, copying, outputs, input, known, keys)
        }
        Unary::Select(_) => Ok(Vec::new(alloc)),
        Unary::Distinct(_) => Ok(Vec::new(alloc)),
        Unary::Sort(_, _) => Ok(Vec::new(alloc)),
        Unary::Group(_, _, _) => Ok(Vec::new(alloc)),
        Unary::Limit(_) => Ok(Vec::new(alloc)),
    }
}

/// Of each of these keys of a projection's input the output columns that stand for its columns, if each has one. At other
/// nodes there are none.
pub(crate) fn key_stand_ins(
    alloc: Global,
    node: &TypedNode,
    known: &KnownColumns<'_>,
    keys: &[Vec<usize>],
) -> Result<Lists, AllocError>
    requires { (catalog : ℕ → Relation) × IsKnownOf catalog known.now (plan_of node.now) }
    ensures { IfOk result (λ v. (catalog : ℕ → Relation) → IsKnownOf catalog known.now (plan_of node.now) → list_all (all_below (width catalog (plan_of node.now))) (map (λ k. k.items) v.items) ≡ true) }
{
    let outputs = known.facts_of(node).width();
    match node {
        TypedNode::Unary(_, operator, input) => stand_ins_over(
            alloc, operator, outputs, input, known, keys,
        ),
        TypedNode::Scan(_, _) => Ok(Vec::new(alloc)),
        TypedNode::Binary(_, _, _, _) => Ok(Vec::new(alloc)),
        TypedNode::Exchange(_, _, _) => Ok(Vec::new(alloc)),
    }
}
