//! The operators of a fragment, for the worker at a place.

ghost use Rattle.std.specs.Prelude.{IfOk};
ghost use Rattle.vx_plan_nodes.specs.Outline.{outline_of, plan_of};
ghost use Rattle.vx_exec.specs.Crew.{IsOperatorOf, IsTreeOf};
ghost use Rattle.vx_exec.specs.Part.{IsPartOf};

use crate::job::Job;
use std::alloc::{AllocError, Global};
use vx_exec_operators::{
    Operator, OperatorKind, binary_operator, consumer_operator, unary_operator,
};
use vx_ops::Scan;
use vx_plan_nodes::{PlanFunctions, TypedNode, output_types};
use vx_worker::Tree;

// The operator of a node, to which nothing came.
fn operator_of<F: PlanFunctions + Copy>(
    alloc: Global,
    job: &Job<'_, F>,
    node: &TypedNode,
    place: u32,
) -> Result<Operator<F>, AllocError>
    requires { IsPartOf F.PlanFunctions job.now (outline_of node.now) }
    ensures { IfOk result (IsOperatorOf F.PlanFunctions job.now place (plan_of node.now)) }
{
    match node {
        TypedNode::Scan(head, _) => {
            let types = Vec::from_slice(alloc, output_types(node))?;
            let scan = Scan::new(types);
            Ok(Operator::of(head.number, OperatorKind::Scan(scan)))
        }
        TypedNode::Unary(head, unary, input) => {
            let seed = job.seed();
            unary_operator(
                alloc,
                job.functions(),
                seed,
                head.number,
                unary,
                output_types(input),
            )
        }
        TypedNode::Binary(head, binary, left, right) => {
            let seed = job.seed();
            let left = output_types(left);
            let right = output_types(right);
            binary_operator(alloc, seed, head.number, binary, left, right)
        }
        TypedNode::Exchange(head, exchange, input) => {
            let types = Vec::from_slice(alloc, output_types(node))?;
            let producers = job.workers(input.size());
            consumer_operator(alloc, head.number, exchange, place, producers, types)
        }
    }
}

/// The operators of a node's fragment, to which nothing came.
pub fn tree_of<F: PlanFunctions + Copy>(
    alloc: Global,
    job: &Job<'_, F>,
    node: &TypedNode,
    place: u32,
) -> Result<Tree<Operator<F>>, AllocError>
    requires { IsPartOf F.PlanFunctions job.now (outline_of node.now) }
    ensures { IfOk result (IsTreeOf F.PlanFunctions job.now place (plan_of node.now)) }
{
    let operator = operator_of(alloc, job, node, place)?;
    match node {
        TypedNode::Scan(head, _) => Ok(Tree::Leaf(head.number, operator)),
        TypedNode::Exchange(head, _, _) => Ok(Tree::Leaf(head.number, operator)),
        TypedNode::Unary(_, _, input) => {
            let below = tree_of(alloc, job, input, place)?;
            Ok(Tree::One(operator, Box::new(alloc, below)?))
        }
        TypedNode::Binary(_, _, left, right) => {
            let left = Box::new(alloc, tree_of(alloc, job, left, place)?)?;
            let right = Box::new(alloc, tree_of(alloc, job, right, place)?)?;
            Ok(Tree::Two(operator, left, right))
        }
    }
}
