//! A typed plan without its exchanges: a group in two phases becomes one, below the sorts between the two.

ghost use Rattle.std.specs.Prelude.{◌≡◌, ◌+◌, ◌<◌, ◌≤◌, ◌^◌, false, string_bytes, IfOk, IfErr};
ghost use Rattle.vx_plan_nodes.specs.Numbering.{nodes};
ghost use Rattle.vx_plan_nodes.specs.Erase.{nodes_left, at_once, erase};
ghost use Rattle.vx_plan_nodes.specs.Phases.{is_final};
ghost use Rattle.vx_plan_nodes.specs.Erased.{erased_top, erased_from};
ghost use Rattle.vx_plan_nodes.specs.Outline.{top_of, unary_of, renamed_of, binary_of, outline_of, plan_of};
ghost use Rattle.vx_plan_nodes.specs.TypedView.{names_in, plan, resolved_of};

use crate::columns::copied_names;
use std::alloc::{AllocError, Global};
use std::sync::Arc;
use vx_plan_json::PlanFault;
use vx_plan_nodes::{
    Binary, Claim, Head, Part, Phase, ScanNode, Size, SortPhase, TypedNode, TypedPlan, Unary,
    copied_conditions, copied_entries, copied_filters,
};
use vx_rows_values::copied_ranges;

fn is_final(unary: &Unary) -> bool
    ensures { result ≡ is_final (unary_of unary.now) }
{
    matches!(unary, Unary::Group(Phase::Final, _, _))
}

// A copy, of a group one in a single phase, and of a sort one of whole rows.
fn copied_unary(alloc: Global, unary: &Unary) -> Result<Unary, AllocError>
    ensures op { IfOk result (λ u. unary_of u ≡ at_once (unary_of unary.now)) }
    ensures renamed { IfOk result (λ u. renamed_of u ≡ renamed_of unary.now) }
{
    match unary {
        Unary::Select(filters) => Ok(Unary::Select(copied_filters(alloc, filters.as_slice())?)),
        Unary::Project(entries) => Ok(Unary::Project(copied_entries(alloc, entries.as_slice())?)),
        Unary::Distinct(kept) => Ok(Unary::Distinct(Vec::from_slice(alloc, kept.as_slice())?)),
        Unary::Sort(_, order) => {
            let order = Vec::from_slice(alloc, order.as_slice())?;
            Ok(Unary::Sort(SortPhase::Plain, order))
        }
        Unary::Group(_, by, aggregates) => {
            let keys = Vec::from_slice(alloc, by.as_slice())?;
            let found = Vec::from_slice(alloc, aggregates.as_slice())?;
            Ok(Unary::Group(Phase::Plain, keys, found))
        }
        Unary::Limit(rows) => Ok(Unary::Limit(*rows)),
    }
}

fn copied_binary(alloc: Global, binary: &Binary) -> Result<Binary, AllocError>
    ensures { IfOk result (λ b. binary_of b ≡ binary_of binary.now) }
{
    match binary {
        Binary::Union => Ok(Binary::Union),
        Binary::HashJoin(on) => Ok(Binary::HashJoin(Vec::from_slice(alloc, on.as_slice())?)),
        Binary::MergeJoin(on, falls) => {
            let pairs = Vec::from_slice(alloc, on.as_slice())?;
            let falls = Vec::from_slice(alloc, falls.as_slice())?;
            Ok(Binary::MergeJoin(pairs, falls))
        }
        Binary::SemiJoin(on, conditions) => {
            let pairs = Vec::from_slice(alloc, on.as_slice())?;
            let conditions = copied_conditions(alloc, conditions.as_slice())?;
            Ok(Binary::SemiJoin(pairs, conditions))
        }
        Binary::AntiJoin(on, conditions) => {
            let pairs = Vec::from_slice(alloc, on.as_slice())?;
            let conditions = copied_conditions(alloc, conditions.as_slice())?;
            Ok(Binary::AntiJoin(pairs, conditions))
        }
    }
}

// A node's number and output, with the claim of one stream without order and keys.
fn erased_head(alloc: Global, number: u32, head: &Head) -> Result<Head, AllocError>
    ensures { IfOk result (λ h. top_of h ≡ erased_top number (top_of head.now)) }
{
    Ok(Head {
        number,
        claim: Claim {
            part: Part::One,
            order: Vec::new(alloc),
            keys: Vec::new(alloc),
        },
        columns: Arc::try_clone(&head.columns)?,
    })
}

fn erased_scan(alloc: Global, scan: &ScanNode) -> Result<ScanNode, AllocError>
    ensures { IfOk result (λ s. (s.relation ≡ scan.now.relation) × (s.shared ≡ false) × (s.size ≡ Size.One) × (string_bytes s.prefix ≡ string_bytes scan.now.prefix)) }
{
    Ok(ScanNode {
        relation: scan.relation,
        shared: false,
        size: Size::One,
        prefix: String::from_str(alloc, scan.prefix.as_str())?,
    })
}

// What is left of an input, numbered from here, and the number after its last node.
#[cycle(nodes)]
fn erased_input(
    alloc: Global,
    number: u32,
    node: &TypedNode,
) -> Result<(Box<TypedNode>, u32), AllocError>
    requires { number + nodes (plan_of node.now) < 2 ^ 32 }
    ensures value { IfOk result (λ r. outline_of r.0.value ≡ erased_from number (outline_of node.now)) }
    ensures next { IfOk result (λ r. r.1 ≡ number + nodes_left (plan_of node.now)) }
    ensures bound { IfOk result (λ r. r.1 ≤ number + nodes (plan_of node.now)) }
{
    let (below, next) = erased_from(alloc, number, node)?;
    Ok((Box::new(alloc, below)?, next))
}

// The nodes that are neither exchanges nor final groups, numbered in preorder from here, and the number after the last.
#[cycle(nodes)]
fn erased_from(alloc: Global, number: u32, node: &TypedNode) -> Result<(TypedNode, u32), AllocError>
    requires { number + nodes (plan_of node.now) < 2 ^ 32 }
    ensures value { IfOk result (λ r. outline_of r.0 ≡ erased_from number (outline_of node.now)) }
    ensures next { IfOk result (λ r. r.1 ≡ number + nodes_left (plan_of node.now)) }
    ensures bound { IfOk result (λ r. r.1 ≤ number + nodes (plan_of node.now)) }
{
    match node {
        TypedNode::Scan(head, scan) => {
            let head = erased_head(alloc, number, head)?;
            let scan = erased_scan(alloc, scan)?;
            Ok((TypedNode::Scan(head, scan), number + 1))
        }
        TypedNode::Unary(_, unary, input) if is_final(unary) => erased_from(alloc, number, input),
        TypedNode::Unary(head, unary, input) => {
            let head = erased_head(alloc, number, head)?;
            let unary = copied_unary(alloc, unary)?;
            let (below, next) = erased_input(alloc, number + 1, input)?;
            Ok((TypedNode::Unary(head, unary, below), next))
        }
        TypedNode::Binary(head, binary, left, right) => {
            let head = erased_head(alloc, number, head)?;
            let binary = copied_binary(alloc, binary)?;
            let (first, between) = erased_input(alloc, number + 1, left)?;
            let (second, next) = erased_input(alloc, between, right)?;
            Ok((TypedNode::Binary(head, binary, first, second), next))
        }
        TypedNode::Exchange(_, _, input) => erased_from(alloc, number, input),
    }
}

/// The plan with every exchange replaced by its input, every group in two phases made one over the input of its partial, below the sorts between the two, every scan whole and of one worker, every claim one stream
/// without order and keys, and neither total nor asking for what is known of columns. Nodes are numbered anew; declared sizes and ranges stay.
pub fn erase(alloc: Global, typed: &TypedPlan) -> Result<TypedPlan, PlanFault>
    ensures plan { IfOk result (λ p. plan p ≡ erase (plan typed.now)) }
    ensures names { IfOk result (λ p. names_in p ≡ names_in typed.now) }
    ensures outline { IfOk result (λ p. (resolved_of p).root ≡ erased_from 0 (resolved_of typed.now).root) }
    ensures total { IfOk result (λ p. (resolved_of p).total ≡ false) }
    ensures derives { IfOk result (λ p. (resolved_of p).derives ≡ false) }
    ensures memory { IfErr result (λ e. e ≡ PlanFault.NoMemory) }
{
    let (root, _) = erased_from(alloc, 0, typed.root())?;
    let catalog = typed.catalog().share()?;
    let sizes = copied_names(alloc, typed.sizes())?;
    let ranges = copied_ranges(alloc, typed.ranges())?;
    Ok(TypedPlan::new(catalog, sizes, ranges, false, false, root))
}
