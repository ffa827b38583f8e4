//! The nodes of a plan over a catalog: numbered in preorder, tested in post-order.

ghost use Rattle.std.specs.Prelude.{◌≡◌, ◌+◌, ◌<◌, ◌^◌, IfOk};
ghost use Rattle.vx_plan_json.specs.Fault.{Gives};
ghost use Rattle.vx_plan_json.specs.Document.{claim_form, scan_form, unary_form, binary_form, kind_form, tree_of, tree_nodes};
ghost use Rattle.vx_plan_nodes.specs.Outline.{outline_of};
ghost use Rattle.vx_plan.specs.Resolve.{under_final, scan_typed, unary_typed, binary_typed, exchange_typed, typed_in};
ghost use Rattle.vx_plan.specs.Named.{names_of};

use crate::binary_nodes::{Joint, binary_shape};
use crate::claims::with_claim;
use crate::columns::{columns, scanned};
use crate::exchange_nodes::{exchange_shape, find_relation};
use crate::lookup::{Declared, find_size};
use crate::unary_nodes::{UnaryShape, unary_shape};
use std::alloc::Global;
use std::sync::Arc;
use vx_catalog_json::OrderText;
use vx_plan_json::{NamedBinary, NamedClaim, NamedKind, NamedScan, NamedUnary, Node, PlanFault};
use vx_plan_nodes::{ScanNode, TypedNode};

#[tactic(auto, unfolding(crate::specs::Resolve::scan_typed))]
fn scan_typed(
    alloc: Global,
    declared: &Declared<'_>,
    node: u32,
    claim: &NamedClaim,
    scan: &NamedScan,
) -> Result<TypedNode, PlanFault>
    ensures { Gives outline_of result (scan_typed (names_of declared.now) node (claim_form claim.now) (scan_form scan.now)) }
{
    let relation = find_relation(alloc, declared, node, scan.relation.as_str())?;
    let size = find_size(alloc, declared, scan.size.as_str())?;
    let columns = scanned(alloc, declared.catalog.get(relation), scan.prefix.as_str())?;
    let head = with_claim(alloc, declared, node, columns, claim)?;
    let prefix = String::from_str(alloc, scan.prefix.as_str())?;
    Ok(TypedNode::Scan(
        head,
        ScanNode {
            relation,
            shared: scan.shared,
            size,
            prefix,
        },
    ))
}

#[tactic(auto, unfolding(crate::specs::Resolve::unary_typed))]
fn unary_typed(
    alloc: Global,
    declared: &Declared<'_>,
    under: bool,
    node: u32,
    claim: &NamedClaim,
    unary: &NamedUnary,
    input: TypedNode,
) -> Result<TypedNode, PlanFault>
    ensures { Gives outline_of result (unary_typed (names_of declared.now) under node (claim_form claim.now) (unary_form unary.now) (outline_of input)) }
{
    let shape = unary_shape(alloc, under, node, &input, unary)?;
    let UnaryShape { unary, columns } = shape;
    let head = with_claim(alloc, declared, node, columns, claim)?;
    Ok(TypedNode::Unary(head, unary, Box::new(alloc, input)?))
}

#[tactic(auto, unfolding(crate::specs::Resolve::binary_typed))]
fn binary_typed(
    alloc: Global,
    declared: &Declared<'_>,
    node: u32,
    claim: &NamedClaim,
    binary: &NamedBinary,
    left: TypedNode,
    right: TypedNode,
) -> Result<TypedNode, PlanFault>
    ensures { Gives outline_of result (binary_typed (names_of declared.now) node (claim_form claim.now) (binary_form binary.now) (outline_of left) (outline_of right)) }
{
    let joint = binary_shape(alloc, node, columns(&left), columns(&right), binary)?;
    let Joint { binary, columns } = joint;
    let head = with_claim(alloc, declared, node, columns, claim)?;
    Ok(TypedNode::Binary(
        head,
        binary,
        Box::new(alloc, left)?,
        Box::new(alloc, right)?,
    ))
}

#[tactic(auto, unfolding(crate::specs::Resolve::exchange_typed))]
fn exchange_typed(
    alloc: Global,
    declared: &Declared<'_>,
    node: u32,
    claim: &NamedClaim,
    kind: &NamedKind,
    merge: &[OrderText],
    input: TypedNode,
) -> Result<TypedNode, PlanFault>
    ensures { Gives outline_of result (exchange_typed (names_of declared.now) node (claim_form claim.now) (kind_form kind.now) merge.now (outline_of input)) }
{
    let exchange = exchange_shape(alloc, declared, node, columns(&input), kind, merge)?;
    let output = Arc::try_clone(columns(&input))?;
    let head = with_claim(alloc, declared, node, output, claim)?;
    Ok(TypedNode::Exchange(head, exchange, Box::new(alloc, input)?))
}

// Whether the way up from the input of an operator reaches a final group, where the flag says it of the operator itself.
fn under_final(under: bool, unary: &NamedUnary) -> bool
    ensures { result ≡ under_final under (unary_form unary.now) }
{
    match unary {
        NamedUnary::FinalGroup => true,
        NamedUnary::PartialSort(_) => under,
        _ => false,
    }
}

/// The typed nodes of a tree whose top has this number, and the number after its last. The flag says whether the way up from
/// here through exchanges and partial sorts alone reaches a final group.
#[tactic(auto, unfolding(crate::specs::Resolve::typed_in))]
pub fn typed_in(
    alloc: Global,
    declared: &Declared<'_>,
    under: bool,
    number: u32,
    tree: &Node,
) -> Result<(TypedNode, u32), PlanFault>
    requires { number + tree_nodes (tree_of tree.now) < 2 ^ 32 }
    ensures value { Gives (λ r. (outline_of r.0, r.1)) result (typed_in (names_of declared.now) under number (tree_of tree.now)) }
    ensures count { IfOk result (λ r. r.1 ≡ number + tree_nodes (tree_of tree.now)) }
{
    match tree {
        Node::Scan(claim, scan) => {
            let node = scan_typed(alloc, declared, number, claim, scan)?;
            Ok((node, number + 1))
        }
        Node::Unary(claim, unary, input) => {
            let reached = under_final(under, unary);
            let (below, next) = typed_in(alloc, declared, reached, number + 1, input)?;
            let node = unary_typed(alloc, declared, under, number, claim, unary, below)?;
            Ok((node, next))
        }
        Node::Binary(claim, binary, left, right) => {
            let (first, between) = typed_in(alloc, declared, false, number + 1, left)?;
            let (second, next) = typed_in(alloc, declared, false, between, right)?;
            let node = binary_typed(alloc, declared, number, claim, binary, first, second)?;
            Ok((node, next))
        }
        Node::Exchange(claim, kind, merge, input) => {
            let (below, next) = typed_in(alloc, declared, under, number + 1, input)?;
            let merge = merge.as_slice();
            let node = exchange_typed(alloc, declared, number, claim, kind, merge, below)?;
            Ok((node, next))
        }
    }
}
