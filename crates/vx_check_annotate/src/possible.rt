//! Plans whose joins by merging compare in the only directions that accepted claims could ask for.

ghost use Rattle.std.specs.Prelude.{◌≡◌, ◌++◌, map, drop, IfOk, OnOk};
ghost use Rattle.vx_catalog_relations.specs.Catalog.{relation_at};
ghost use Rattle.vx_plan_nodes.specs.Outline.{binary_of, outline_of, plan_of};
ghost use Rattle.vx_plan_nodes.specs.Outputs.{HasOutputs};
ghost use Rattle.vx_plan_nodes.specs.TypedView.{resolved_of};
ghost use Rattle.vx_check_options.specs.Options.{places_at};
ghost use Rattle.vx_check_options.specs.OptionsView.{IsAbsent};
ghost use Rattle.vx_check_directions.specs.Turned.{turned_outline};
ghost use Rattle.vx_check_annotate.specs.Possible.{rising_entry, may_stand, possible_falls, possible_operator, possible_choice, possible_view};

use std::alloc::{AllocError, Global};
use vx_catalog_relations::Catalog;
use vx_check_options::{Options, absent, has_entry, options_at};
use vx_plan_nodes::{Binary, TypedNode, TypedParts, TypedPlan};
use vx_rows_values::OrderEntry;

// Whether a column may stand at the first of these places, rising.
fn may_rise(choices: &[Vec<OrderEntry>], column: usize) -> bool
    ensures { result ≡ may_stand (map (λ v. v.items) choices.now) (rising_entry column) }
{
    match choices {
        [] => false,
        [entries, ..] => {
            let entry = OrderEntry {
                column,
                falling: false,
            };
            has_entry(entries.as_slice(), entry)
        }
    }
}

// The places behind the first one.
fn behind(choices: &[Vec<OrderEntry>]) -> &[Vec<OrderEntry>]
    ensures { map (λ v. v.items) result.now ≡ drop 1 (map (λ v. v.items) choices.now) }
{
    match choices {
        [] => choices,
        [_, rest @ ..] => rest,
    }
}

// Puts behind the others for each pair whether it falls: where its columns cannot both rise at their place.
fn put_falls(
    falls: &mut Vec<bool>,
    on: &[(usize, usize)],
    lefts: &[Vec<OrderEntry>],
    rights: &[Vec<OrderEntry>],
) -> Result<(), AllocError>
    ensures { OnOk result (falls.new.items ≡ falls.old.items ++ possible_falls (map (λ v. v.items) lefts.now) (map (λ v. v.items) rights.now) on.now) }
{
    match on {
        [] => Ok(()),
        [(left, right), rest @ ..] => {
            let can_rise = may_rise(lefts, *left) && may_rise(rights, *right);
            falls.push(!can_rise)?;
            put_falls(falls, rest, behind(lefts), behind(rights))
        }
    }
}

// Gives an operator over these inputs the directions that they leave it.
fn turn_operator(
    alloc: Global,
    catalog: &Catalog,
    none: &Options,
    operator: &mut Binary,
    left: &TypedNode,
    right: &TypedNode,
) -> Result<(), AllocError>
    requires none { IsAbsent none.now }
    requires left { HasOutputs (relation_at catalog.now) (outline_of left.now) }
    requires right { HasOutputs (relation_at catalog.now) (outline_of right.now) }
    ensures { OnOk result (binary_of operator.new ≡ possible_operator (places_at (relation_at catalog.now) (plan_of left.now)) (places_at (relation_at catalog.now) (plan_of right.now)) (binary_of operator.old)) }
{
    if let Binary::MergeJoin(on, falls) = operator {
        let lefts = options_at(alloc, catalog, none, left)?;
        let rights = options_at(alloc, catalog, none, right)?;
        let mut found = Vec::new(alloc);
        put_falls(
            &mut found,
            on.as_slice(),
            lefts.choices.as_slice(),
            rights.choices.as_slice(),
        )?;
        *falls = found;
    }
    Ok(())
}

// Gives the joins by merging from this node downwards their directions, from the inputs upwards.
fn turn(
    alloc: Global,
    catalog: &Catalog,
    none: &Options,
    node: &mut TypedNode,
) -> Result<(), AllocError>
    requires none { IsAbsent none.now }
    requires outputs { HasOutputs (relation_at catalog.now) (outline_of node.old) }
    ensures { OnOk result (outline_of node.new ≡ turned_outline (possible_choice (relation_at catalog.now)) (outline_of node.old)) }
{
    match node {
        TypedNode::Scan(_, _) => Ok(()),
        TypedNode::Unary(_, _, input) => turn(alloc, catalog, none, input),
        TypedNode::Binary(_, operator, left, right) => {
            turn(alloc, catalog, none, left)?;
            turn(alloc, catalog, none, right)?;
            turn_operator(alloc, catalog, none, operator, left, right)
        }
        TypedNode::Exchange(_, _, input) => turn(alloc, catalog, none, input),
    }
}

/// The plan whose joins by merging compare in the only directions that accepted claims could ask for.
pub fn possible(alloc: Global, typed: TypedPlan) -> Result<TypedPlan, AllocError>
    ensures { IfOk result (λ r. resolved_of r ≡ possible_view (resolved_of typed)) }
{
    let TypedParts {
        catalog,
        sizes,
        ranges,
        total,
        derives,
        root,
    } = typed.into_parts();
    let mut root = root;
    let none = absent(alloc)?;
    turn(alloc, &catalog, &none, &mut root)?;
    Ok(TypedPlan::new(catalog, sizes, ranges, total, derives, root))
}
