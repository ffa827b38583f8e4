//! The part that a node shows, by what is known of columns, where its inputs have these parts.

ghost use Rattle.std.specs.Prelude.{◌≡◌, ◌<◌, ◌&&◌, ℕ, true, not, List, [], cond, option_map, IfOk};
ghost use Rattle.vx_catalog_relations.specs.Relation.{Relation};
ghost use Rattle.vx_catalog_relations.specs.Catalog.{relation_at, all_below};
ghost use Rattle.vx_plan_nodes.specs.Plan.{any, all};
ghost use Rattle.vx_plan_nodes.specs.Types.{width, part_columns};
ghost use Rattle.vx_plan_nodes.specs.Parts.{kind_part};
ghost use Rattle.vx_plan_nodes.specs.Outline.{part_of, route_of, kind_of, plan_of};
ghost use Rattle.vx_plan_nodes.specs.Describe.{Copying as Copies, described_both};
ghost use Rattle.vx_plan_nodes.specs.DescribeView.{copying_of, described_both_of};
ghost use Rattle.vx_plan_facts.specs.Equal.{equal_at};
ghost use Rattle.vx_plan_facts.specs.FactsView.{width_of};
ghost use Rattle.vx_plan_facts.specs.KnownView.{IsKnownOf};
ghost use Rattle.vx_check_rules.specs.Behaviour.{routed_at};
ghost use Rattle.vx_check_rules.specs.Rules.{contains};
ghost use Rattle.vx_check_rules.specs.DerivedView.{equality_of};
ghost use Rattle.vx_check_rules.specs.KnownNode.{AreCopiesOf};
ghost use Rattle.vx_check_shown.specs.ShownPart.{stand_in, stand_ins, part_carried, common_column, common_columns, is_all, routed_in_common, part_of_union, part_of_join, part_of_both, free_equal, apart, part_apart, part_over, shown_part};
ghost use Rattle.vx_check_shown.specs.PartView.{IsCopied, AreBeside, AreBothCopied, AreInputParts};

use std::alloc::{AllocError, Global};
use vx_check_rules::{are_equal, copy_of, has_one_worker, is_same_route};
use vx_plan_facts::{ColumnFacts, KnownColumns};
use vx_plan_nodes::{
    Copying, DescribedBoth, ExchangeKind, Meeting, Part, Route, TypedNode, copied_part,
    output_types, routed_part,
};

// An input of a node, and the part that it has.
#[derive(Clone, Copy)]
struct Input<'p> {
    node: &'p TypedNode,
    part: &'p Part,
}

// The input with this part.
fn with_part<'p>(node: &'p TypedNode, part: &'p Part) -> Input<'p>
    ensures node { result.node.now ≡ node.now }
    ensures part { result.part.now ≡ part.now }
{
    Input { node, part }
}

// Where a column of an input stands in an output of so many columns: at its own place, or else at the first copy of an
// equal one.
fn stand_in(
    copying: Copying<'_>,
    outputs: usize,
    input: &TypedNode,
    known: &KnownColumns<'_>,
    column: usize,
) -> Option<usize>
    requires { (catalog : ℕ → Relation) × AreCopiesOf catalog known.now (plan_of input.now) outputs (copying_of copying) × (column < width catalog (plan_of input.now)) }
    ensures { (catalog : ℕ → Relation) → AreCopiesOf catalog known.now (plan_of input.now) outputs (copying_of copying.entry) → column < width catalog (plan_of input.now)
        → result ≡ stand_in outputs (copying_of copying.entry) (equal_at catalog (plan_of input.now)) column }
{
    match copying.place(column) {
        Some(place) if place < outputs => Some(place),
        _ => copy_of(copying, outputs, input, known, column),
    }
}

// Where these columns stand, if each does.
fn stand_ins(
    alloc: Global,
    copying: Copying<'_>,
    outputs: usize,
    input: &TypedNode,
    known: &KnownColumns<'_>,
    columns: &[usize],
) -> Result<Option<Vec<usize>>, AllocError>
    requires { (catalog : ℕ → Relation) × AreCopiesOf catalog known.now (plan_of input.now) outputs (copying_of copying) × (all_below (width catalog (plan_of input.now)) columns.now ≡ true) }
    ensures { (catalog : ℕ → Relation) → AreCopiesOf catalog known.now (plan_of input.now) outputs (copying_of copying.entry) → all_below (width catalog (plan_of input.now)) columns.now ≡ true
        → IfOk result (λ o. option_map (λ v. v.items) o ≡ stand_ins outputs (copying_of copying.entry) (equal_at catalog (plan_of input.now)) columns.now) }
{
    let mut found = Vec::new(alloc);
    for column in columns {
        let Some(place) = stand_in(copying, outputs, input, known, *column) else {
            return Ok(None);
        };
        found.push(place)?;
    }
    Ok(Some(found))
}

// A part that is routed on these columns, any part where there are none.
fn routed_at(alloc: Global, route: &Route, columns: Option<Vec<usize>>) -> Result<Part, AllocError>
    ensures { IfOk result (λ p. part_of p ≡ routed_at (route_of route.now) (option_map (λ v. v.items) columns)) }
{
    match columns {
        Some(columns) => routed_part(alloc, route, columns),
        None => Ok(Part::Any),
    }
}

// A part of an input, on the columns that stand for its own.
fn part_carried(
    alloc: Global,
    copying: Copying<'_>,
    outputs: usize,
    known: &KnownColumns<'_>,
    input: Input<'_>,
) -> Result<Part, AllocError>
    requires { (catalog : ℕ → Relation) × IsCopied catalog known.now (plan_of input.node.now) outputs (copying_of copying) (part_of input.part.now) }
    ensures { (catalog : ℕ → Relation) → IsCopied catalog known.now (plan_of input.entry.node.now) outputs (copying_of copying.entry) (part_of input.entry.part.now)
        → IfOk result (λ q. part_of q ≡ part_carried outputs (copying_of copying.entry) (equal_at catalog (plan_of input.entry.node.now)) (part_of input.entry.part.now)) }
{
    match input.part {
        Part::Routed(route, columns) => {
            let columns = columns.as_slice();
            let places = stand_ins(alloc, copying, outputs, input.node, known, columns)?;
            routed_at(alloc, route, places)
        }
        Part::One | Part::Any | Part::All => copied_part(alloc, input.part),
    }
}

// Whether a column is equal to this left column and to this right one.
fn is_common(
    left: &ColumnFacts<'_>,
    right: &ColumnFacts<'_>,
    column: usize,
    other: usize,
    common: usize,
) -> bool
    ensures { result ≡ (equality_of left.now column common && equality_of right.now other common) }
{
    are_equal(left, column, common) && are_equal(right, other, common)
}

// Of so many columns the first one that is equal to this left column and to this right one.
fn common_column(
    left: &ColumnFacts<'_>,
    right: &ColumnFacts<'_>,
    outputs: usize,
    column: usize,
    other: usize,
) -> Option<usize>
    ensures { result ≡ common_column outputs (equality_of left.now) (equality_of right.now) column other }
{
    for common in 0..outputs {
        if is_common(left, right, column, other, common) {
            return Some(common);
        }
    }
    None
}

// Such a column for each place of two lists, if they are equally long and there is one for each.
fn common_columns(
    alloc: Global,
    left: &ColumnFacts<'_>,
    right: &ColumnFacts<'_>,
    outputs: usize,
    columns: &[usize],
    others: &[usize],
) -> Result<Option<Vec<usize>>, AllocError>
    ensures { IfOk result (λ o. option_map (λ v. v.items) o ≡ common_columns outputs (equality_of left.now) (equality_of right.now) columns.now others.now) }
{
    if columns.len() != others.len() {
        return Ok(None);
    }
    let mut found = Vec::new(alloc);
    for (i, column) in columns.iter().enumerate() {
        let Some(common) = common_column(left, right, outputs, *column, others[i]) else {
            return Ok(None);
        };
        found.push(common)?;
    }
    Ok(Some(found))
}

// The part of rows side by side, one of whose inputs has not all rows on each worker.
fn routed_in_common(
    alloc: Global,
    left: &ColumnFacts<'_>,
    right: &ColumnFacts<'_>,
    outputs: usize,
    part: &Part,
    other: &Part,
) -> Result<Part, AllocError>
    ensures { IfOk result (λ q. part_of q ≡ routed_in_common outputs (equality_of left.now) (equality_of right.now) (part_of part.now) (part_of other.now)) }
{
    match (part, other) {
        (Part::Routed(route, columns), Part::Routed(second, others))
            if is_same_route(route, second) => {
            let common = common_columns(
                alloc,
                left,
                right,
                outputs,
                columns.as_slice(),
                others.as_slice(),
            )?;
            routed_at(alloc, route, common)
        }
        _ => Ok(Part::Any),
    }
}

fn is_all(part: &Part) -> bool
    ensures { result ≡ is_all (part_of part.now) }
{
    matches!(part, Part::All)
}

// Whether both parts are all rows.
fn are_all(part: &Part, other: &Part) -> bool
    ensures { result ≡ (is_all (part_of part.now) && is_all (part_of other.now)) }
{
    is_all(part) && is_all(other)
}

// The part of rows side by side.
fn part_of_union(
    alloc: Global,
    outputs: usize,
    known: &KnownColumns<'_>,
    left: Input<'_>,
    right: Input<'_>,
) -> Result<Part, AllocError>
    requires { (catalog : ℕ → Relation) × AreBeside catalog known.now (plan_of left.node.now) (plan_of right.node.now) outputs (part_of left.part.now) (part_of right.part.now) }
    ensures { (catalog : ℕ → Relation) → AreBeside catalog known.now (plan_of left.entry.node.now) (plan_of right.entry.node.now) outputs (part_of left.entry.part.now) (part_of right.entry.part.now)
        → IfOk result (λ q. part_of q ≡ part_of_union outputs (equal_at catalog (plan_of left.entry.node.now)) (equal_at catalog (plan_of right.entry.node.now)) (part_of left.entry.part.now) (part_of right.entry.part.now)) }
{
    if are_all(left.part, right.part) {
        return Ok(Part::All);
    }
    let lefts = known.facts_of(left.node);
    let rights = known.facts_of(right.node);
    routed_in_common(alloc, lefts, rights, outputs, left.part, right.part)
}

// The part of joined rows.
fn part_of_join(
    alloc: Global,
    described: DescribedBoth<'_>,
    outputs: usize,
    known: &KnownColumns<'_>,
    left: Input<'_>,
    right: Input<'_>,
) -> Result<Part, AllocError>
    requires { (catalog : ℕ → Relation) × AreBothCopied catalog known.now (plan_of left.node.now) (plan_of right.node.now) outputs (described_both_of described) (part_of left.part.now) (part_of right.part.now) }
    ensures { (catalog : ℕ → Relation) → AreBothCopied catalog known.now (plan_of left.entry.node.now) (plan_of right.entry.node.now) outputs (described_both_of described.entry) (part_of left.entry.part.now) (part_of right.entry.part.now)
        → IfOk result (λ q. part_of q ≡ part_of_join outputs (copying_of described.entry.left) (copying_of described.entry.right) (equal_at catalog (plan_of left.entry.node.now)) (equal_at catalog (plan_of right.entry.node.now))
        (part_of left.entry.part.now) (part_of right.entry.part.now)) }
{
    if is_all(left.part) && !is_all(right.part) {
        return part_carried(alloc, described.right, outputs, known, right);
    }
    part_carried(alloc, described.left, outputs, known, left)
}

// The part of an operator over these two inputs.
fn part_of_both(
    alloc: Global,
    described: DescribedBoth<'_>,
    outputs: usize,
    known: &KnownColumns<'_>,
    left: Input<'_>,
    right: Input<'_>,
) -> Result<Part, AllocError>
    requires { (catalog : ℕ → Relation) × AreBothCopied catalog known.now (plan_of left.node.now) (plan_of right.node.now) outputs (described_both_of described) (part_of left.part.now) (part_of right.part.now) }
    ensures { (catalog : ℕ → Relation) → AreBothCopied catalog known.now (plan_of left.entry.node.now) (plan_of right.entry.node.now) outputs (described_both_of described.entry) (part_of left.entry.part.now) (part_of right.entry.part.now)
        → IfOk result (λ q. part_of q ≡ part_of_both outputs (described_both_of described.entry).meeting (described_both_of described.entry) (equal_at catalog (plan_of left.entry.node.now)) (equal_at catalog (plan_of right.entry.node.now))
        (part_of left.entry.part.now) (part_of right.entry.part.now)) }
{
    match described.meeting {
        Meeting::SideBySide => part_of_union(alloc, outputs, known, left, right),
        Meeting::PairedOn(_) => part_of_join(alloc, described, outputs, known, left, right),
        Meeting::MatchedOn(_) => part_carried(alloc, described.left, outputs, known, left),
    }
}

// The part of a scan.
fn part_scanned(is_shared: bool) -> Part
    ensures { part_of result ≡ cond is_shared any all }
{
    if is_shared { Part::Any } else { Part::All }
}

fn is_taken(taken: &[usize], column: usize) -> bool
    ensures { result ≡ contains taken.now column }
{
    taken.contains(&column)
}

// Whether another column is equal to this one and not among those taken.
fn is_free(facts: &ColumnFacts<'_>, taken: &[usize], column: usize, other: usize) -> bool
    ensures { result ≡ (equality_of facts.now column other && not (contains taken.now other)) }
{
    are_equal(facts, column, other) && !is_taken(taken, other)
}

// This column, if it is not among those taken, or else the first one of the node that is equal to it and is not.
fn free_equal(facts: &ColumnFacts<'_>, taken: &[usize], column: usize) -> Option<usize>
    ensures { result ≡ free_equal (width_of facts.now) (equality_of facts.now) taken.now column }
{
    if !is_taken(taken, column) {
        return Some(column);
    }
    for other in 0..facts.width() {
        if is_free(facts, taken, column, other) {
            return Some(other);
        }
    }
    None
}

// Such columns in place of these, if each has one that no other one has.
fn apart(
    alloc: Global,
    facts: &ColumnFacts<'_>,
    columns: &[usize],
) -> Result<Option<Vec<usize>>, AllocError>
    ensures { IfOk result (λ o. option_map (λ v. v.items) o ≡ apart (width_of facts.now) (equality_of facts.now) [] columns.now) }
{
    let mut taken = Vec::new(alloc);
    for column in columns {
        let Some(other) = free_equal(facts, taken.as_slice(), *column) else {
            return Ok(None);
        };
        taken.push(other)?;
    }
    Ok(Some(taken))
}

// The part on equal columns, none of them twice.
fn part_apart(alloc: Global, facts: &ColumnFacts<'_>, part: Part) -> Result<Part, AllocError>
    ensures { IfOk result (λ q. part_of q ≡ part_apart (width_of facts.now) (equality_of facts.now) (part_of part)) }
{
    match part {
        Part::Routed(route, columns) => {
            let columns = apart(alloc, facts, columns.as_slice())?;
            routed_at(alloc, &route, columns)
        }
        Part::One => Ok(Part::One),
        Part::Any => Ok(Part::Any),
        Part::All => Ok(Part::All),
    }
}

// The part that an exchange of this kind makes.
fn part_sent(alloc: Global, kind: &ExchangeKind) -> Result<Part, AllocError>
    ensures { IfOk result (λ q. part_of q ≡ kind_part (kind_of kind.now)) }
{
    match kind {
        ExchangeKind::Route(_, route, columns) => {
            routed_part(alloc, route, Vec::from_slice(alloc, columns.as_slice())?)
        }
        ExchangeKind::Round(_) => Ok(Part::Any),
        ExchangeKind::Broadcast(_) => Ok(Part::All),
        ExchangeKind::Gather | ExchangeKind::Concat => Ok(Part::One),
    }
}

// The part of a node on several workers; columns may be named twice.
fn part_over(
    alloc: Global,
    node: &TypedNode,
    known: &KnownColumns<'_>,
    left: &Part,
    right: &Part,
) -> Result<Part, AllocError>
    requires { (catalog : List Relation) × AreInputParts catalog known.now node.now (part_of left.now) (part_of right.now) }
    ensures { (catalog : List Relation) → AreInputParts catalog known.now node.now (part_of left.now) (part_of right.now)
        → IfOk result (λ q. part_of q ≡ part_over (relation_at catalog) (plan_of node.now) (part_of left.now) (part_of right.now)) }
{
    let outputs = known.facts_of(node).width();
    match node {
        TypedNode::Scan(_, scan) => Ok(part_scanned(scan.shared)),
        TypedNode::Unary(_, operator, input) => {
            let copying = operator.described().copying;
            part_carried(alloc, copying, outputs, known, with_part(input, left))
        }
        TypedNode::Binary(_, operator, first, second) => {
            let described = operator.described(output_types(first));
            let lefts = with_part(first, left);
            let rights = with_part(second, right);
            part_of_both(alloc, described, outputs, known, lefts, rights)
        }
        TypedNode::Exchange(_, exchange, _) => part_sent(alloc, &exchange.kind),
    }
}

/// The part that a node shows where its inputs have these: that of one worker, or what tells the most of several. A node with
/// fewer inputs looks at the first one alone, or at none.
pub fn shown_part(
    alloc: Global,
    node: &TypedNode,
    known: &KnownColumns<'_>,
    left: &Part,
    right: &Part,
) -> Result<Part, AllocError>
    requires { (catalog : List Relation) × AreInputParts catalog known.now node.now (part_of left.now) (part_of right.now) }
    ensures { (catalog : List Relation) → AreInputParts catalog known.now node.now (part_of left.now) (part_of right.now)
        → IfOk result (λ q. part_of q ≡ shown_part (relation_at catalog) (plan_of node.now) (part_of left.now) (part_of right.now)) }
{
    if has_one_worker(node) {
        return Ok(Part::One);
    }
    let part = part_over(alloc, node, known, left, right)?;
    part_apart(alloc, known.facts_of(node), part)
}
