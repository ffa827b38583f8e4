//! Other directions for the joins by merging of a plan.

ghost use Rattle.std.specs.Prelude.{◌≡◌, [], map, slice_index_or, OnOk};
ghost use Rattle.vx_plan_nodes.specs.Outline.{binary_of, outline_of};
ghost use Rattle.vx_check_directions.specs.Turned.{in_falls, placed};

use std::alloc::{AllocError, Global};
use vx_plan_nodes::{Binary, TypedNode};

// Those of the node with this number.
fn falls_at(falls: &[Vec<bool>], number: usize) -> &[bool]
    ensures { result.now ≡ slice_index_or (map (λ v. v.items) falls.now) number [] }
{
    match falls.get(number) {
        Some(falls) => falls.as_slice(),
        None => &[],
    }
}

// Gives an operator these directions, if it is a join by merging.
fn turn_operator(alloc: Global, falls: &[bool], operator: &mut Binary) -> Result<(), AllocError>
    ensures { OnOk result (binary_of operator.new ≡ in_falls falls.now (binary_of operator.old)) }
{
    if let Binary::MergeJoin(_, old) = operator {
        *old = Vec::from_slice(alloc, falls)?;
    }
    Ok(())
}

/// Gives the nodes from this one downwards these directions, by their numbers.
pub fn turn(alloc: Global, falls: &[Vec<bool>], node: &mut TypedNode) -> Result<(), AllocError>
    ensures { OnOk result (outline_of node.new ≡ placed (λ n. slice_index_or (map (λ v. v.items) falls.now) n []) (outline_of node.old)) }
{
    match node {
        TypedNode::Scan(_, _) => {}
        TypedNode::Unary(_, _, input) => turn(alloc, falls, input)?,
        TypedNode::Exchange(_, _, input) => turn(alloc, falls, input)?,
        TypedNode::Binary(head, operator, left, right) => {
            turn_operator(alloc, falls_at(falls, head.number as usize), operator)?;
            turn(alloc, falls, left)?;
            turn(alloc, falls, right)?;
        }
    }
    Ok(())
}
