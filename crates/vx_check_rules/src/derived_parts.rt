//! The second table's tests of parts: those of the first one, or what follows from them by equal columns.

ghost use Rattle.std.specs.Prelude.{◌≡◌, ℕ, List};
ghost use Rattle.vx_catalog_relations.specs.Relation.{Relation};
ghost use Rattle.vx_catalog_relations.specs.Catalog.{relation_at};
ghost use Rattle.vx_plan_nodes.specs.Plan.{claim};
ghost use Rattle.vx_plan_nodes.specs.Outline.{outline_of, plan_of};
ghost use Rattle.vx_plan_nodes.specs.Outputs.{HasOutputs};
ghost use Rattle.vx_plan_nodes.specs.DescribeView.{copying_of, meeting_of, described_both_of};
ghost use Rattle.vx_plan_facts.specs.Facts.{AreFactsOf};
ghost use Rattle.vx_plan_facts.specs.FactsView.{facts_of, width_of};
ghost use Rattle.vx_plan_facts.specs.KnownView.{IsKnownOf};
ghost use Rattle.vx_check_rules.specs.Behaviour.{own};
ghost use Rattle.vx_check_rules.specs.Derived.{inputs_match_derived, part_derived, part_shown_derived};
ghost use Rattle.vx_check_rules.specs.DerivedView.{equality_of, meet_both_equally, meets_derived, join_part, kept_part, both_part};
ghost use Rattle.vx_check_rules.specs.KnownNode.{IsKnownTyped};
ghost use Rattle.vx_check_rules.specs.WayView.{part_seen, had_of};

use crate::inputs::do_inputs_match;
use crate::nodes::claimed_part;
use crate::parts::{PartSeen, seen};
use crate::routed::{are_alike_equally, do_meet_equally, is_routed_as, is_same_equally};
use crate::shown::is_part_shown;
use crate::ways::{Had, claimed, made};
use vx_plan_facts::{ColumnFacts, KnownColumns};
use vx_plan_nodes::{Copying, DescribedBoth, Meeting, Part, TypedNode, output_types};

// An input of a node: the part that it has, and what is known of its columns.
#[derive(Clone, Copy)]
struct KnownInput<'k, 'p> {
    had: Had<'k>,
    facts: &'k ColumnFacts<'p>,
}

// The input with the part that it claims, and what is known of its columns.
fn known_input<'k, 'p>(known: &'k KnownColumns<'p>, input: &'k TypedNode) -> KnownInput<'k, 'p>
    requires { (catalog : ℕ → Relation) × IsKnownOf catalog known.now (plan_of input.now) }
    ensures had { had_of result.had ≡ own (plan_of input.now) }
    ensures facts { (catalog : ℕ → Relation) → IsKnownOf catalog known.now (plan_of input.now) → AreFactsOf catalog (plan_of input.now) (facts_of result.facts.now) }
{
    KnownInput {
        had: claimed(input),
        facts: known.facts_of(input),
    }
}

// Whether rows of both inputs that have to meet, if they have, do by equal columns.
fn do_both_meet(meeting: Meeting<'_>, left: KnownInput<'_, '_>, right: KnownInput<'_, '_>) -> bool
    ensures { result ≡ meet_both_equally (equality_of left.entry.facts.now) (equality_of right.entry.facts.now) (meeting_of meeting.entry) (had_of left.entry.had).1 (had_of right.entry.had).1 }
{
    match meeting {
        Meeting::PairedOn(on) | Meeting::MatchedOn(on) => are_alike_equally(
            left.facts,
            right.facts,
            on,
            left.had.part,
            right.had.part,
        ),
        Meeting::SideBySide => false,
    }
}

// Whether the inputs' rows that have to meet do by equal columns.
fn do_rows_meet(node: &TypedNode, known: &KnownColumns<'_>) -> bool
    requires { (catalog : ℕ → Relation) × IsKnownOf catalog known.now (plan_of node.now) }
    ensures { (catalog : List Relation) → IsKnownTyped catalog known.now (plan_of node.now)
        → result ≡ meets_derived (relation_at catalog) (plan_of node.now) }
{
    match node {
        TypedNode::Unary(_, operator, input) => do_meet_equally(
            known.facts_of(input),
            operator.described().meets,
            seen(claimed_part(input)),
        ),
        TypedNode::Binary(_, operator, left, right) => do_both_meet(
            operator.described(output_types(left)).meeting,
            known_input(known, left),
            known_input(known, right),
        ),
        TypedNode::Scan(_, _) | TypedNode::Exchange(_, _, _) => false,
    }
}

/// Whether the inputs' parts are those that the operator needs, or its rows meet by equal columns: K4.
pub fn do_inputs_match_derived(node: &TypedNode, known: &KnownColumns<'_>) -> bool
    requires { (catalog : ℕ → Relation) × IsKnownOf catalog known.now (plan_of node.now) }
    ensures { (catalog : List Relation) → IsKnownTyped catalog known.now (plan_of node.now) → HasOutputs (relation_at catalog) (outline_of node.now)
        → result ≡ inputs_match_derived (relation_at catalog) (plan_of node.now) }
{
    do_inputs_match(node) || do_rows_meet(node, known)
}

// Whether a join of these inputs has the part.
fn is_part_of_join(
    on: &[(usize, usize)],
    described: DescribedBoth<'_>,
    left: KnownInput<'_, '_>,
    right: KnownInput<'_, '_>,
    output: &ColumnFacts<'_>,
    wanted: PartSeen<'_>,
) -> bool
    ensures { result ≡ join_part (width_of output.now) (copying_of described.entry.left) (copying_of described.entry.right) (equality_of left.entry.facts.now) (equality_of right.entry.facts.now) (equality_of output.now)
        on.now (had_of left.entry.had) (had_of right.entry.had) (part_seen wanted.entry) }
{
    let are_alike = are_alike_equally(left.facts, right.facts, on, left.had.part, right.had.part);
    (matches!(wanted, PartSeen::Any) && are_alike)
        || ((right.had.has(&Part::All) || are_alike)
            && is_routed_as(described.left, left.facts, output, left.had.part, wanted))
        || ((left.had.has(&Part::All) || are_alike)
            && is_routed_as(described.right, right.facts, output, right.had.part, wanted))
}

// Whether left rows that are kept as they meet right ones have the part.
fn is_part_of_kept(
    on: &[(usize, usize)],
    copying: Copying<'_>,
    left: KnownInput<'_, '_>,
    right: KnownInput<'_, '_>,
    output: &ColumnFacts<'_>,
    wanted: PartSeen<'_>,
) -> bool
    ensures { result ≡ kept_part (width_of output.now) (copying_of copying.entry) (equality_of left.entry.facts.now) (equality_of right.entry.facts.now) (equality_of output.now)
        on.now (had_of left.entry.had) (had_of right.entry.had) (part_seen wanted.entry) }
{
    let are_alike = are_alike_equally(left.facts, right.facts, on, left.had.part, right.had.part);
    (matches!(wanted, PartSeen::Any) && are_alike)
        || ((right.had.has(&Part::All) || are_alike)
            && is_routed_as(copying, left.facts, output, left.had.part, wanted))
}

// Whether an operator over these two inputs has the part: where rows stand side by side one that both inputs have.
fn is_part_of_both(
    described: DescribedBoth<'_>,
    left: KnownInput<'_, '_>,
    right: KnownInput<'_, '_>,
    output: &ColumnFacts<'_>,
    wanted: PartSeen<'_>,
) -> bool
    ensures { result ≡ both_part (width_of output.now) (described_both_of described.entry).meeting (described_both_of described.entry) (equality_of left.entry.facts.now) (equality_of right.entry.facts.now)
        (equality_of output.now) (had_of left.entry.had) (had_of right.entry.had) (part_seen wanted.entry) }
{
    match described.meeting {
        Meeting::PairedOn(on) => is_part_of_join(on, described, left, right, output, wanted),
        Meeting::MatchedOn(on) => is_part_of_kept(on, described.left, left, right, output, wanted),
        Meeting::SideBySide => {
            is_same_equally(left.facts, left.had.part, wanted)
                && is_same_equally(right.facts, right.had.part, wanted)
        }
    }
}

// Whether the node's claimed part follows by equal columns.
fn is_part_derived(node: &TypedNode, known: &KnownColumns<'_>) -> bool
    requires { (catalog : ℕ → Relation) × IsKnownOf catalog known.now (plan_of node.now) }
    ensures { (catalog : List Relation) → IsKnownTyped catalog known.now (plan_of node.now) → HasOutputs (relation_at catalog) (outline_of node.now)
        → result ≡ part_derived (relation_at catalog) (plan_of node.now) (claim (plan_of node.now)).part }
{
    let wanted = seen(claimed_part(node));
    match node {
        TypedNode::Scan(_, _) => false,
        TypedNode::Unary(_, operator, input) => is_routed_as(
            operator.described().copying,
            known.facts_of(input),
            known.facts_of(node),
            seen(claimed_part(input)),
            wanted,
        ),
        TypedNode::Binary(_, operator, left, right) => is_part_of_both(
            operator.described(output_types(left)),
            known_input(known, left),
            known_input(known, right),
            known.facts_of(node),
            wanted,
        ),
        TypedNode::Exchange(_, exchange, input) => {
            is_same_equally(known.facts_of(input), made(&exchange.kind), wanted)
        }
    }
}

/// Whether the node's claimed part is shown, or follows by equal columns: K3.
pub fn is_part_shown_derived(node: &TypedNode, known: &KnownColumns<'_>) -> bool
    requires { (catalog : ℕ → Relation) × IsKnownOf catalog known.now (plan_of node.now) }
    ensures { (catalog : List Relation) → IsKnownTyped catalog known.now (plan_of node.now) → HasOutputs (relation_at catalog) (outline_of node.now)
        → result ≡ part_shown_derived (relation_at catalog) (plan_of node.now) }
{
    is_part_shown(node) || is_part_derived(node, known)
}
