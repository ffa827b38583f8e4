//! What a statement asks of the nodes of a plan: how it calls them, and which relations they scan.

ghost use Rattle.std.specs.Prelude.{◌≡◌, ◌++◌, ◌==◌, OnOk};
ghost use Rattle.vx_plan_nodes.specs.Outline.{outline_of, top_of, columns};
ghost use Rattle.vx_check_sql.specs.Words.{alias};
ghost use Rattle.vx_check_sql.specs.Blocks.{maker};
ghost use Rattle.vx_check_sql.specs.Statement.{scanned, times};

use crate::words::Alias;
use std::alloc::AllocError;
use vx_plan_nodes::{Head, Name, TypedNode};

/// The names of the columns of a node's output.
pub fn column_names(node: &TypedNode) -> &[Name]
    ensures { result.now ≡ (columns (outline_of node.now)).names }
{
    node.head().columns.names.as_slice()
}

/// The alias of a node.
pub fn named_by(underscores: usize, head: &Head) -> Alias
    ensures { result ≡ alias underscores (top_of head.now).number }
{
    Alias {
        underscores,
        node: head.number,
    }
}

/// The alias of the node whose rows these are: an exchange gives those of the node below it.
pub fn maker(underscores: usize, node: &TypedNode) -> Alias
    ensures { result ≡ maker underscores (outline_of node.now) }
{
    match node {
        TypedNode::Scan(head, _) => named_by(underscores, head),
        TypedNode::Unary(head, _, _) => named_by(underscores, head),
        TypedNode::Binary(head, _, _, _) => named_by(underscores, head),
        TypedNode::Exchange(_, _, input) => maker(underscores, input),
    }
}

/// Adds the numbers of the relations that the node and those below it scan.
pub fn push_scanned(list: &mut Vec<usize>, node: &TypedNode) -> Result<(), AllocError>
    ensures { OnOk result (list.new.items ≡ list.old.items ++ scanned (outline_of node.now)) }
{
    match node {
        TypedNode::Scan(_, scan) => {
            list.push(scan.relation)?;
            Ok(())
        }
        TypedNode::Unary(_, _, input) => push_scanned(list, input),
        TypedNode::Binary(_, _, left, right) => {
            push_scanned(list, left)?;
            push_scanned(list, right)
        }
        TypedNode::Exchange(_, _, input) => push_scanned(list, input),
    }
}

/// Whether this relation stands just once among those that are scanned.
pub fn is_once(relation: usize, scanned: &[usize]) -> bool
    ensures { result ≡ (times relation scanned.now == 1) }
{
    let mut count: usize = 0;
    for other in scanned {
        if *other == relation {
            count += 1;
        }
    }
    count == 1
}
