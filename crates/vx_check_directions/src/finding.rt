//! The directions of all joins by merging of a plan.

ghost use Rattle.std.specs.Prelude.{◌≡◌, ◌++◌, ℕ, List, map, IfOk, OnOk};
ghost use Rattle.vx_catalog_relations.specs.Relation.{Relation};
ghost use Rattle.vx_catalog_relations.specs.Catalog.{relation_at};
ghost use Rattle.vx_plan_nodes.specs.Outline.{binary_of, plan_of};
ghost use Rattle.vx_plan_nodes.specs.TypedView.{scope, plan as whole_plan, resolved_of};
ghost use Rattle.vx_check_rules.specs.TableView.{derives, Judges, StaysTable};
ghost use Rattle.vx_check_directions.specs.Turned.{falls_at, chosen};
ghost use Rattle.vx_check_directions.specs.Directed.{agreed_on, agreed, falls_of};
ghost use Rattle.vx_check_directions.specs.Finding.{AreMerged, StaysBoth};

use crate::asking::asks;
use std::alloc::{AllocError, Global};
use vx_check_rules::{ColumnsSeen, Table, table_of};
use vx_plan_nodes::{Binary, TypedNode, TypedPlan};

// The direction of a pair: the left column's, or else the right one's; it rises where neither asks for one.
fn agreed_on(left: Option<bool>, right: Option<bool>) -> bool
    ensures { result ≡ agreed_on left right }
{
    left.or(right).unwrap_or(false)
}

// Those of all pairs.
fn agreed(
    alloc: Global,
    lefts: &[Option<bool>],
    rights: &[Option<bool>],
) -> Result<Vec<bool>, AllocError>
    ensures { IfOk result (λ v. v.items ≡ agreed lefts.now rights.now) }
{
    let mut falls = Vec::new(alloc);
    for place in 0..lefts.len().min(rights.len()) {
        falls.push(agreed_on(lefts[place], rights[place]))?;
    }
    Ok(falls)
}

// The directions that two inputs ask for; none of an operator that does not merge.
fn falls_at(
    alloc: Global,
    table: &mut Table<'_>,
    operator: &Binary,
    left: &TypedNode,
    right: &TypedNode,
) -> Result<Vec<bool>, AllocError>
    requires { (catalog : List Relation) × AreMerged catalog table.old (binary_of operator.now) (plan_of left.now) (plan_of right.now) }
    ensures falls { (catalog : List Relation) → AreMerged catalog table.old (binary_of operator.now) (plan_of left.now) (plan_of right.now)
        → IfOk result (λ v. v.items ≡ falls_at (falls_of (derives table.old) (relation_at catalog)) (binary_of operator.now) (plan_of left.now) (plan_of right.now)) }
    ensures stays { OnOk result (StaysBoth table.old table.new (plan_of left.now) (plan_of right.now)) }
{
    match operator {
        Binary::MergeJoin(on, _) => {
            let on = on.as_slice();
            let lefts = asks(alloc, table, left, ColumnsSeen::Lefts(on))?;
            let rights = asks(alloc, table, right, ColumnsSeen::Rights(on))?;
            agreed(alloc, lefts.as_slice(), rights.as_slice())
        }
        _ => Ok(Vec::new(alloc)),
    }
}

// Puts the directions at a node and at those below it behind the others, in preorder; none at one that does not merge.
fn put_falls(
    alloc: Global,
    table: &mut Table<'_>,
    falls: &mut Vec<Vec<bool>>,
    node: &TypedNode,
) -> Result<(), AllocError>
    requires { (catalog : List Relation) × Judges catalog table.old (plan_of node.now) }
    ensures put { (catalog : List Relation) → Judges catalog table.old (plan_of node.now)
        → OnOk result (map (λ v. v.items) falls.new.items ≡ map (λ v. v.items) falls.old.items ++ chosen (falls_of (derives table.old) (relation_at catalog)) (plan_of node.now)) }
    ensures stays { OnOk result (StaysTable table.old table.new (plan_of node.now)) }
{
    match node {
        TypedNode::Scan(_, _) => falls.push(Vec::new(alloc))?,
        TypedNode::Unary(_, _, input) => {
            falls.push(Vec::new(alloc))?;
            put_falls(alloc, table, falls, input)?;
        }
        TypedNode::Exchange(_, _, input) => {
            falls.push(Vec::new(alloc))?;
            put_falls(alloc, table, falls, input)?;
        }
        TypedNode::Binary(_, operator, left, right) => {
            let here = falls_at(alloc, table, operator, left, right)?;
            falls.push(here)?;
            put_falls(alloc, table, falls, left)?;
            put_falls(alloc, table, falls, right)?;
        }
    }
    Ok(())
}

/// For each node of a plan, by its number, the directions in which it compares if it is a join by merging.
pub fn all_falls(alloc: Global, plan: &TypedPlan) -> Result<Vec<Vec<bool>>, AllocError>
    ensures { IfOk result (λ v. map (λ v. v.items) v.items ≡ chosen (falls_of (resolved_of plan.now).derives (relation_at (scope plan.now).catalog)) (whole_plan plan.now)) }
{
    let mut table = table_of(alloc, plan)?;
    let mut falls = Vec::new(alloc);
    put_falls(alloc, &mut table, &mut falls, plan.root())?;
    Ok(falls)
}
