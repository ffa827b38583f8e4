//! Whether a node's claimed order follows from one that the node has.

ghost use Rattle.std.specs.Prelude.{◌≡◌, ℕ, ◌&&◌, ◌||◌, true, List, [], ◌∷◌};
ghost use Rattle.vx_catalog_relations.specs.Relation.{Relation};
ghost use Rattle.vx_catalog_relations.specs.Catalog.{relation_at};
ghost use Rattle.vx_plan_nodes.specs.DescribeView.{copying_of, order_after_of};
ghost use Rattle.vx_plan_nodes.specs.Outline.{binary_of, kind_of, part_of, plan_of};
ghost use Rattle.vx_plan_nodes.specs.Plan.{Plan, claim, size, is_one};
ghost use Rattle.vx_plan_nodes.specs.Types.{width};
ghost use Rattle.vx_plan_facts.specs.Determined.{determined};
ghost use Rattle.vx_plan_facts.specs.Equal.{equal_at};
ghost use Rattle.vx_plan_facts.specs.Following.{short};
ghost use Rattle.vx_plan_facts.specs.KnownView.{IsKnownOf};
ghost use Rattle.vx_check_rules.specs.Derived.{front_copies, rises_equally, goes_on_with, goes_on_derived, binary_order, follows_at, order_derived, order_shown_derived};
ghost use Rattle.vx_check_rules.specs.KnownNode.{IsKnownTyped, AreOrdersOf, AreGivenOf, HasCopies, HasInput, IsPassed, is_whole, order_by, StaysKnown};

use crate::carried_orders::carried_order;
use crate::derived_orders::order_follows;
use crate::nodes::{claimed_order, claimed_part, has_one_worker};
use crate::order_seen::OrderSeen;
use crate::orders::is_order_shown;
use crate::sortings::order_after;
use vx_catalog_relations::Catalog;
use vx_plan_facts::KnownColumns;
use vx_plan_nodes::{Binary, Copying, Described, Exchange, ExchangeKind, Part, Route, TypedNode};
use vx_rows_values::OrderEntry;

// Whether the node's claimed order follows from this one, which the node has.
fn follows_from(node: &TypedNode, known: &mut KnownColumns<'_>, given: &[OrderEntry]) -> bool
    requires { (catalog : ℕ → Relation) × AreOrdersOf catalog known.old (plan_of node.now) given.now (claim (plan_of node.now)).order }
    ensures follows { (catalog : ℕ → Relation) → AreOrdersOf catalog known.old (plan_of node.now) given.now (claim (plan_of node.now)).order
        → result ≡ follows_at catalog (plan_of node.now) given.now (claim (plan_of node.now)).order }
    ensures kept { StaysKnown known.old known.new (plan_of node.now) }
{
    let order = OrderSeen::Listed(claimed_order(node));
    order_follows(node, known, OrderSeen::Listed(given), order)
}

// Whether each output column is the input's own.
fn is_whole(copying: Copying<'_>) -> bool
    ensures { result ≡ is_whole (copying_of copying.entry) }
{
    match copying {
        Copying::WholeRows => true,
        Copying::Kept(_) => false,
        Copying::Entries(_) => false,
        Copying::Left(_) => false,
        Copying::Right(_) => false,
        Copying::NoColumns => false,
    }
}

// Whether it follows from the order of the input, where copies of its columns stand in the output.
fn follows_carried(
    node: &TypedNode,
    known: &mut KnownColumns<'_>,
    copying: Copying<'_>,
    input: &TypedNode,
) -> bool
    requires { (catalog : ℕ → Relation) × HasCopies catalog known.old (plan_of node.now) (plan_of input.now) (copying_of copying) }
    ensures follows { (catalog : ℕ → Relation) → HasCopies catalog known.old (plan_of node.now) (plan_of input.now) (copying_of copying.entry)
        → result ≡ follows_at catalog (plan_of node.now)
        (front_copies (width catalog (plan_of node.now)) (copying_of copying.entry) (equal_at catalog (plan_of input.now))
        (short (determined catalog (plan_of input.now)) (claim (plan_of input.now)).order))
        (claim (plan_of node.now)).order }
    ensures kept { (catalog : ℕ → Relation) → HasCopies catalog known.old (plan_of node.now) (plan_of input.now) (copying_of copying.entry)
        → (q : Plan) → IsKnownOf catalog known.old q → IsKnownOf catalog known.new q }
{
    let outputs = known.facts_of(node).width();
    let given = carried_order(copying, outputs, input, known, claimed_order(input));
    follows_from(node, known, given.as_slice())
}

// Whether it follows from the order of an output over this input.
fn follows_after(
    node: &TypedNode,
    known: &mut KnownColumns<'_>,
    described: Described<'_>,
    input: &TypedNode,
) -> bool
    requires { (catalog : ℕ → Relation) × HasInput catalog known.old (plan_of node.now) (plan_of input.now) (copying_of described.copying) (order_after_of described.order) }
    ensures follows { (catalog : ℕ → Relation)
        → HasInput catalog known.old (plan_of node.now) (plan_of input.now) (copying_of described.entry.copying) (order_after_of described.entry.order)
        → result ≡ follows_at catalog (plan_of node.now)
        (order_by (width catalog (plan_of node.now)) (copying_of described.entry.copying) (order_after_of described.entry.order) (equal_at catalog (plan_of input.now))
        (determined catalog (plan_of input.now)) (claim (plan_of input.now)).order)
        (claim (plan_of node.now)).order }
    ensures kept { (catalog : ℕ → Relation)
        → HasInput catalog known.old (plan_of node.now) (plan_of input.now) (copying_of described.entry.copying) (order_after_of described.entry.order)
        → (q : Plan) → IsKnownOf catalog known.old q → IsKnownOf catalog known.new q }
{
    if is_whole(described.copying) {
        let given = order_after(described.order, claimed_order(input));
        return follows_from(node, known, given);
    }
    follows_carried(node, known, described.copying, input)
}

/// The order of an output over two inputs, of which the left one has this order.
pub fn order_over<'p>(operator: &Binary, left: &'p [OrderEntry]) -> &'p [OrderEntry]
    ensures { result.now ≡ binary_order (binary_of operator.now) left.now }
{
    match operator {
        Binary::Union => &[],
        Binary::HashJoin(_) => left,
        Binary::MergeJoin(_, _) => left,
        Binary::SemiJoin(_, _) => left,
        Binary::AntiJoin(_, _) => left,
    }
}

// Whether rows of a node with this part rise with the number of their worker, as each worker's rows do in this order: a range
// on a column put them there, with which their order begins, rising, but for what is fixed.
fn does_rise(
    node: &TypedNode,
    known: &mut KnownColumns<'_>,
    part: &Part,
    order: &[OrderEntry],
) -> bool
    requires { (catalog : ℕ → Relation) × AreGivenOf catalog known.old (plan_of node.now) (part_of part.now) order.now }
    ensures rises { (catalog : ℕ → Relation) → AreGivenOf catalog known.old (plan_of node.now) (part_of part.now) order.now
        → result ≡ rises_equally (equal_at catalog (plan_of node.now)) (determined catalog (plan_of node.now)) (part_of part.now) order.now }
    ensures kept { StaysKnown known.old known.new (plan_of node.now) }
{
    match part {
        Part::Routed(Route::Range(_), columns) => {
            if columns.len() != 1 {
                return false;
            }
            let wanted = [OrderEntry::rising(columns[0])];
            order_follows(
                node,
                known,
                OrderSeen::Listed(order),
                OrderSeen::Listed(&wanted),
            )
        }
        Part::One | Part::Any | Part::All | Part::Routed(Route::Hash(_), _) => false,
    }
}

// Whether an exchange of this kind keeps the order of its producers' rows, since it takes one producer after the other.
fn does_go_on(
    kind: &ExchangeKind,
    input: &TypedNode,
    known: &mut KnownColumns<'_>,
    part: &Part,
    order: &[OrderEntry],
) -> bool
    requires { (catalog : ℕ → Relation) × AreGivenOf catalog known.old (plan_of input.now) (part_of part.now) order.now }
    ensures on { (catalog : ℕ → Relation) → AreGivenOf catalog known.old (plan_of input.now) (part_of part.now) order.now
        → result ≡ goes_on_with catalog (kind_of kind.now) (plan_of input.now) (part_of part.now) order.now }
    ensures kept { StaysKnown known.old known.new (plan_of input.now) }
{
    match kind {
        ExchangeKind::Concat => does_rise(input, known, part, order),
        ExchangeKind::Route(_, _, _)
        | ExchangeKind::Round(_)
        | ExchangeKind::Broadcast(_)
        | ExchangeKind::Gather => false,
    }
}

/// Whether rows of the input with this part and this order keep it in an exchange of this kind.
pub fn keeps_order(
    kind: &ExchangeKind,
    input: &TypedNode,
    known: &mut KnownColumns<'_>,
    part: &Part,
    order: &[OrderEntry],
) -> bool
    requires { (catalog : ℕ → Relation) × AreGivenOf catalog known.old (plan_of input.now) (part_of part.now) order.now }
    ensures keeps { (catalog : ℕ → Relation) → AreGivenOf catalog known.old (plan_of input.now) (part_of part.now) order.now
        → result ≡ (is_one (size (plan_of input.now)) || goes_on_with catalog (kind_of kind.now) (plan_of input.now) (part_of part.now) order.now) }
    ensures kept { StaysKnown known.old known.new (plan_of input.now) }
{
    if has_one_worker(input) {
        return true;
    }
    does_go_on(kind, input, known, part, order)
}

// Whether the input's rows keep their order in an exchange, and the claimed order follows from it.
fn follows_passed(
    node: &TypedNode,
    known: &mut KnownColumns<'_>,
    kind: &ExchangeKind,
    input: &TypedNode,
) -> bool
    requires { (catalog : ℕ → Relation) × IsPassed catalog known.old (plan_of node.now) (plan_of input.now) }
    ensures follows { (catalog : ℕ → Relation) → IsPassed catalog known.old (plan_of node.now) (plan_of input.now)
        → result ≡ ((is_one (size (plan_of input.now)) || goes_on_derived catalog (kind_of kind.now) (plan_of input.now))
        && follows_at catalog (plan_of node.now) (claim (plan_of input.now)).order (claim (plan_of node.now)).order) }
    ensures kept { (catalog : ℕ → Relation) → IsPassed catalog known.old (plan_of node.now) (plan_of input.now) → (q : Plan) → IsKnownOf catalog known.old q → IsKnownOf catalog known.new q }
{
    let order = claimed_order(input);
    if !keeps_order(kind, input, known, claimed_part(input), order) {
        return false;
    }
    follows_from(node, known, order)
}

// Whether the node's claimed order follows from one that the node has.
fn is_order_derived(catalog: &Catalog, node: &TypedNode, known: &mut KnownColumns<'_>) -> bool
    requires { IsKnownTyped catalog.now known.old (plan_of node.now) }
    ensures derived { result ≡ order_derived (relation_at catalog.now) (plan_of node.now) (claim (plan_of node.now)).order }
    ensures kept { (relations : List Relation) → IsKnownTyped relations known.old (plan_of node.now) → (p : Plan) → IsKnownOf (relation_at relations) known.old p → IsKnownOf (relation_at relations) known.new p }
{
    match node {
        TypedNode::Scan(_, scan) => {
            let relation = catalog.get(scan.relation);
            follows_from(node, known, relation.order())
        }
        TypedNode::Unary(_, operator, input) => {
            follows_after(node, known, operator.described(), input)
        }
        TypedNode::Binary(_, operator, left, _) => {
            let given = order_over(operator, claimed_order(left));
            follows_from(node, known, given)
        }
        TypedNode::Exchange(_, exchange, input) => {
            if follows_from(node, known, exchange.merge.as_slice()) {
                return true;
            }
            follows_passed(node, known, &exchange.kind, input)
        }
    }
}

/// Whether the node's claimed order is shown, or follows from one that is: K6.
pub fn is_order_shown_derived(
    catalog: &Catalog,
    node: &TypedNode,
    known: &mut KnownColumns<'_>,
) -> bool
    requires { IsKnownTyped catalog.now known.old (plan_of node.now) }
    ensures shown { result ≡ order_shown_derived (relation_at catalog.now) (plan_of node.now) }
    ensures kept { (relations : List Relation) → IsKnownTyped relations known.old (plan_of node.now) → (p : Plan) → IsKnownOf (relation_at relations) known.old p → IsKnownOf (relation_at relations) known.new p }
{
    if is_order_shown(catalog, node) {
        return true;
    }
    is_order_derived(catalog, node, known)
}
