//! Orders that follow from those of the table, by what is known of columns.

ghost use Rattle.std.specs.Prelude.{◌≡◌, ℕ, ◌<◌, ◌≤◌, ◌||◌, true, List, length, drop};
ghost use Rattle.vx_rows_values.specs.Limits.{max_columns};
ghost use Rattle.vx_rows_values.specs.Order.{order_columns};
ghost use Rattle.vx_catalog_relations.specs.Relation.{Relation};
ghost use Rattle.vx_catalog_relations.specs.Catalog.{relation_at, all_below};
ghost use Rattle.vx_plan_nodes.specs.Describe.{Copying};
ghost use Rattle.vx_plan_nodes.specs.DescribeView.{copying_of, order_after_of};
ghost use Rattle.vx_plan_nodes.specs.Outline.{binary_of, plan_of};
ghost use Rattle.vx_plan_nodes.specs.Outputs.{HasOutputs};
ghost use Rattle.vx_plan_nodes.specs.Plan.{Plan, claim};
ghost use Rattle.vx_plan_nodes.specs.Types.{width};
ghost use Rattle.vx_plan_facts.specs.Asking.{Reaches};
ghost use Rattle.vx_plan_facts.specs.ColumnSetView.{set_of_columns};
ghost use Rattle.vx_plan_facts.specs.Determined.{determined};
ghost use Rattle.vx_plan_facts.specs.Equal.{equal_at};
ghost use Rattle.vx_plan_facts.specs.Following.{equal_entries, short, order_follows, total_follows};
ghost use Rattle.vx_plan_facts.specs.KnownView.{IsKnownOf};
ghost use Rattle.vx_check_rules.specs.Derived.{order_given_derived, needed_follows};
ghost use Rattle.vx_check_rules.specs.KnownNode.{IsKnownTyped, AreOrdersOf, AreJoined, pairs_follow, StaysKnown};
ghost use Rattle.vx_check_rules.specs.Passed.{past, first_passes};
ghost use Rattle.vx_check_rules.specs.Rules.{is_total_order};
ghost use Rattle.vx_check_rules.specs.Seen.{order_seen};

use crate::nodes::{claimed_keys, claimed_order, claimed_part, has_one_worker};
use crate::order_seen::OrderSeen;
use crate::orders::{is_order_given, is_order_shown, is_order_total};
use vx_catalog_relations::Catalog;
use vx_plan_facts::{ColumnSet, KnownColumns};
use vx_plan_nodes::{Binary, Copying, Described, ExchangeKind, OrderAfter, Part, Route, TypedNode};
use vx_rows_values::OrderEntry;

// The first place from this one on whose column is not in the set, or the end.
fn first_left(order: OrderSeen<'_>, from: usize, set: &ColumnSet) -> usize
    requires { from ≤ length (order_seen order) }
    ensures within { result ≤ length (order_seen order.entry) }
    ensures past { drop result (order_seen order.entry) ≡ past (set_of_columns set.now) (drop from (order_seen order.entry)) }
{
    for place in from..order.len() {
        if !set.contains(order.at(place).column) {
            return place;
        }
    }
    order.len()
}

/// Whether two columns of a node are equal.
pub(crate) fn are_equal(node: &TypedNode, known: &KnownColumns<'_>, a: usize, b: usize) -> bool
    requires { (catalog : ℕ → Relation) × IsKnownOf catalog known.now (plan_of node.now) × (a < width catalog (plan_of node.now)) × (b < width catalog (plan_of node.now)) }
    ensures { (catalog : ℕ → Relation) → IsKnownOf catalog known.now (plan_of node.now) → a < width catalog (plan_of node.now) → b < width catalog (plan_of node.now)
        → result ≡ equal_at catalog (plan_of node.now) a b }
{
    known.facts_of(node).are_equal(a, b)
}

// Whether two entries are of equal columns, in the same direction.
fn are_alike(
    node: &TypedNode,
    known: &KnownColumns<'_>,
    entry: OrderEntry,
    other: OrderEntry,
) -> bool
    requires { (catalog : ℕ → Relation) × IsKnownOf catalog known.now (plan_of node.now) × (entry.column < width catalog (plan_of node.now))
        × (other.column < width catalog (plan_of node.now)) }
    ensures { (catalog : ℕ → Relation) → IsKnownOf catalog known.now (plan_of node.now) → entry.column < width catalog (plan_of node.now)
        → other.column < width catalog (plan_of node.now) → result ≡ equal_entries (equal_at catalog (plan_of node.now)) entry other }
{
    are_equal(node, known, entry.column, other.column) && entry.falling == other.falling
}

// Whether the next entry of an order is of an equal column, in the same direction.
fn goes_on(
    node: &TypedNode,
    known: &KnownColumns<'_>,
    order: OrderSeen<'_>,
    next: usize,
    entry: OrderEntry,
) -> bool
    requires { (catalog : ℕ → Relation) × IsKnownOf catalog known.now (plan_of node.now)
        × (all_below (width catalog (plan_of node.now)) (order_columns (order_seen order)) ≡ true) × (entry.column < width catalog (plan_of node.now)) }
    ensures { (catalog : ℕ → Relation) → IsKnownOf catalog known.now (plan_of node.now)
        → all_below (width catalog (plan_of node.now)) (order_columns (order_seen order.entry)) ≡ true → entry.column < width catalog (plan_of node.now)
        → result ≡ first_passes (equal_entries (equal_at catalog (plan_of node.now)) entry) (drop next (order_seen order.entry)) }
{
    next < order.len() && are_alike(node, known, entry, order.at(next))
}

/// Whether rows in the order `given` are in the other one too: its entries, but for those whose columns earlier ones
/// determine, begin the given ones, up to equal columns. Equal columns determine the same, so that one set stands for those
/// passed of either.
pub fn order_follows(
    node: &TypedNode,
    known: &mut KnownColumns<'_>,
    given: OrderSeen<'_>,
    order: OrderSeen<'_>,
) -> bool
    requires { (catalog : ℕ → Relation) × AreOrdersOf catalog known.old (plan_of node.now) (order_seen given) (order_seen order) }
    ensures follows { (catalog : ℕ → Relation) → AreOrdersOf catalog known.old (plan_of node.now) (order_seen given.entry) (order_seen order.entry)
        → result ≡ order_follows (equal_at catalog (plan_of node.now)) (determined catalog (plan_of node.now)) (order_seen given.entry) (order_seen order.entry) }
    ensures kept { StaysKnown known.old known.new (plan_of node.now) }
{
    let mut passed = ColumnSet::new();
    let mut found = known.determined(node, &passed);
    let mut next = 0;
    for place in 0..order.len() {
        let entry = order.at(place);
        if found.contains(entry.column) {
            continue;
        }
        next = first_left(given, next, &found);
        if !goes_on(node, known, given, next, entry) {
            return false;
        }
        passed.put(entry.column);
        found = known.determined(node, &passed);
    }
    true
}

/// Whether an order follows from the one that a node claims.
pub fn follows_claimed(node: &TypedNode, known: &mut KnownColumns<'_>, order: OrderSeen<'_>) -> bool
    requires { (catalog : ℕ → Relation) × AreOrdersOf catalog known.old (plan_of node.now) (claim (plan_of node.now)).order (order_seen order) }
    ensures follows { (catalog : ℕ → Relation) → AreOrdersOf catalog known.old (plan_of node.now) (claim (plan_of node.now)).order (order_seen order.entry)
        → result ≡ order_follows (equal_at catalog (plan_of node.now)) (determined catalog (plan_of node.now)) (claim (plan_of node.now)).order (order_seen order.entry) }
    ensures kept { StaysKnown known.old known.new (plan_of node.now) }
{
    order_follows(node, known, OrderSeen::Listed(claimed_order(node)), order)
}

// Whether what a merge join asks of its inputs' orders follows from what they claim.
fn do_pairs_follow(
    operator: &Binary,
    left: &TypedNode,
    right: &TypedNode,
    known: &mut KnownColumns<'_>,
) -> bool
    requires { (catalog : ℕ → Relation) × AreJoined catalog known.old (binary_of operator.now) (plan_of left.now) (plan_of right.now) }
    ensures follows { (catalog : ℕ → Relation) → AreJoined catalog known.old (binary_of operator.now) (plan_of left.now) (plan_of right.now)
        → result ≡ pairs_follow catalog (binary_of operator.now) (plan_of left.now) (plan_of right.now) }
    ensures kept { (catalog : ℕ → Relation) → AreJoined catalog known.old (binary_of operator.now) (plan_of left.now) (plan_of right.now)
        → (p : Plan) → IsKnownOf catalog known.old p → IsKnownOf catalog known.new p }
{
    match operator {
        Binary::MergeJoin(on, falls) => {
            let on = on.as_slice();
            let falls = falls.as_slice();
            if !follows_claimed(left, known, OrderSeen::Lefts(on, falls)) {
                return false;
            }
            follows_claimed(right, known, OrderSeen::Rights(on, falls))
        }
        Binary::HashJoin(_) => false,
        Binary::SemiJoin(_, _) => false,
        Binary::AntiJoin(_, _) => false,
        Binary::Union => false,
    }
}

// Whether what is asked of the inputs' orders follows from what they claim.
fn does_needed_follow(node: &TypedNode, known: &mut KnownColumns<'_>) -> bool
    requires { (catalog : List Relation) × IsKnownTyped catalog known.old (plan_of node.now) }
    ensures follows { (catalog : List Relation) → IsKnownTyped catalog known.old (plan_of node.now) → result ≡ needed_follows (relation_at catalog) (plan_of node.now) }
    ensures kept { (catalog : List Relation) → IsKnownTyped catalog known.old (plan_of node.now) → (p : Plan) → IsKnownOf (relation_at catalog) known.old p → IsKnownOf (relation_at catalog) known.new p }
{
    match node {
        TypedNode::Binary(_, operator, left, right) => do_pairs_follow(
            operator, left, right, known,
        ),
        TypedNode::Exchange(_, exchange, input) => {
            follows_claimed(input, known, OrderSeen::Listed(exchange.merge.as_slice()))
        }
        TypedNode::Scan(_, _) => false,
        TypedNode::Unary(_, _, _) => false,
    }
}

/// Whether what is asked of the inputs' orders is given, or follows from them: K7.
pub fn is_order_given_derived(node: &TypedNode, known: &mut KnownColumns<'_>) -> bool
    requires { (catalog : List Relation) × IsKnownTyped catalog known.old (plan_of node.now) }
    ensures given { (catalog : List Relation) → IsKnownTyped catalog known.old (plan_of node.now) → result ≡ order_given_derived (relation_at catalog) (plan_of node.now) }
    ensures kept { (catalog : List Relation) → IsKnownTyped catalog known.old (plan_of node.now) → (p : Plan) → IsKnownOf (relation_at catalog) known.old p → IsKnownOf (relation_at catalog) known.new p }
{
    if is_order_given(node) {
        return true;
    }
    does_needed_follow(node, known)
}
