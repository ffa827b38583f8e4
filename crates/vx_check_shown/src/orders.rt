//! The longest order that a node shows.

ghost use Rattle.std.specs.Prelude.{◌≡◌, ◌||◌, ℕ, true, cond, map, slice_index, List, IfOk};
ghost use Rattle.vx_catalog_relations.specs.Relation.{Relation};
ghost use Rattle.vx_catalog_relations.specs.Catalog.{relation_at, all_below};
ghost use Rattle.vx_plan_nodes.specs.DescribeView.{copying_of, order_after_of};
ghost use Rattle.vx_plan_nodes.specs.Outline.{kind_of, part_of, plan_of};
ghost use Rattle.vx_plan_nodes.specs.Plan.{Plan, size, is_one};
ghost use Rattle.vx_plan_nodes.specs.Types.{width};
ghost use Rattle.vx_plan_facts.specs.Determined.{determined};
ghost use Rattle.vx_plan_facts.specs.Equal.{equal_at};
ghost use Rattle.vx_plan_facts.specs.FactsView.{facts_of, width_of};
ghost use Rattle.vx_plan_facts.specs.Following.{short};
ghost use Rattle.vx_plan_facts.specs.KnownView.{IsKnownOf};
ghost use Rattle.vx_rows_values.specs.Order.{order_columns};
ghost use Rattle.vx_check_rules.specs.Rules.{entry_at};
ghost use Rattle.vx_check_rules.specs.Derived.{front_copies, goes_on_with};
ghost use Rattle.vx_check_rules.specs.KnownNode.{IsKnownTyped, AreGivenOf, AreOrdersOf, HasCopies, is_whole, order_by, StaysKnown};
ghost use Rattle.vx_check_shown.specs.ShownOrder.{HasOrderBelow, are_of_input, shortened, shown_order};

use std::alloc::{AllocError, Global};
use vx_catalog_relations::Catalog;
use vx_check_rules::{carried_order, keeps_order, order_after, order_over, short};
use vx_plan_facts::{ColumnFacts, KnownColumns};
use vx_plan_nodes::{Copying, Described, Exchange, Part, TypedNode};
use vx_rows_values::OrderEntry;

// The entries of an order, each by the first column that is equal to its own, in its direction.
fn firsts_of(
    alloc: Global,
    facts: &ColumnFacts<'_>,
    order: &[OrderEntry],
) -> Result<Vec<OrderEntry>, AllocError>
    requires { all_below (width_of facts.now) (order_columns order.now) ≡ true }
    ensures { IfOk result (λ v. v.items ≡ map (λ e. entry_at (slice_index (facts_of facts.now).firsts e.column) e) order.now) }
{
    let mut firsts = Vec::new(alloc);
    for entry in order {
        firsts.push(OrderEntry {
            column: facts.first_of(entry.column),
            falling: entry.falling,
        })?;
    }
    Ok(firsts)
}

// The entries of an order whose columns earlier ones do not determine, each by the first column that is equal to its own.
fn shortened(
    alloc: Global,
    node: &TypedNode,
    known: &mut KnownColumns<'_>,
    given: &[OrderEntry],
) -> Result<Vec<OrderEntry>, AllocError>
    requires { (catalog : ℕ → Relation) × AreOrdersOf catalog known.old (plan_of node.now) given.now given.now }
    ensures shortened { (catalog : ℕ → Relation) → AreOrdersOf catalog known.old (plan_of node.now) given.now given.now
        → IfOk result (λ v. v.items ≡ shortened catalog (plan_of node.now) given.now) }
    ensures kept { StaysKnown known.old known.new (plan_of node.now) }
{
    let order = short(node, known, given);
    firsts_of(alloc, known.facts_of(node), order.as_slice())
}

// Whether each output column is the input's own.
fn is_whole(copying: Copying<'_>) -> bool
    ensures { result ≡ is_whole (copying_of copying.entry) }
{
    match copying {
        Copying::WholeRows => true,
        Copying::Kept(_) | Copying::Entries(_) => false,
        Copying::Left(_) | Copying::Right(_) | Copying::NoColumns => false,
    }
}

// The order of an output that has copies of an input's columns, where the input has this order.
fn shown_carried(
    alloc: Global,
    node: &TypedNode,
    known: &mut KnownColumns<'_>,
    copying: Copying<'_>,
    input: &TypedNode,
    below: &[OrderEntry],
) -> Result<Vec<OrderEntry>, AllocError>
    requires { (catalog : ℕ → Relation) × HasCopies catalog known.old (plan_of node.now) (plan_of input.now) (copying_of copying)
        × (all_below (width catalog (plan_of input.now)) (order_columns below.now) ≡ true) }
    ensures shown { (catalog : ℕ → Relation) → HasCopies catalog known.old (plan_of node.now) (plan_of input.now) (copying_of copying.entry)
        → all_below (width catalog (plan_of input.now)) (order_columns below.now) ≡ true
        → IfOk result (λ v. v.items ≡ shortened catalog (plan_of node.now)
        (front_copies (width catalog (plan_of node.now)) (copying_of copying.entry) (equal_at catalog (plan_of input.now)) (short (determined catalog (plan_of input.now)) below.now))) }
    ensures kept { (catalog : ℕ → Relation) → HasCopies catalog known.old (plan_of node.now) (plan_of input.now) (copying_of copying.entry)
        → (q : Plan) → IsKnownOf catalog known.old q → IsKnownOf catalog known.new q }
{
    let outputs = known.facts_of(node).width();
    let given = carried_order(copying, outputs, input, known, below);
    shortened(alloc, node, known, given.as_slice())
}

// The order of an output over an input that has this one.
fn shown_over(
    alloc: Global,
    node: &TypedNode,
    known: &mut KnownColumns<'_>,
    described: Described<'_>,
    input: &TypedNode,
    below: &[OrderEntry],
) -> Result<Vec<OrderEntry>, AllocError>
    requires { (catalog : ℕ → Relation)
        × HasOrderBelow catalog known.old (plan_of node.now) (plan_of input.now) (copying_of described.copying) (order_after_of described.order) below.now }
    ensures shown { (catalog : ℕ → Relation)
        → HasOrderBelow catalog known.old (plan_of node.now) (plan_of input.now) (copying_of described.entry.copying) (order_after_of described.entry.order) below.now
        → IfOk result (λ v. v.items ≡ shortened catalog (plan_of node.now)
        (order_by (width catalog (plan_of node.now)) (copying_of described.entry.copying) (order_after_of described.entry.order) (equal_at catalog (plan_of input.now))
        (determined catalog (plan_of input.now)) below.now)) }
    ensures kept { (catalog : ℕ → Relation) → HasCopies catalog known.old (plan_of node.now) (plan_of input.now) (copying_of described.entry.copying)
        → (q : Plan) → IsKnownOf catalog known.old q → IsKnownOf catalog known.new q }
{
    if is_whole(described.copying) {
        return shortened(alloc, node, known, order_after(described.order, below));
    }
    shown_carried(alloc, node, known, described.copying, input, below)
}

// The order that an exchange has, over an input that has this part and this order: the input's, where that goes on, or the one
// by which it merges.
fn order_passed<'p>(
    exchange: &'p Exchange,
    input: &TypedNode,
    known: &mut KnownColumns<'_>,
    part: &Part,
    below: &'p [OrderEntry],
) -> &'p [OrderEntry]
    requires { (catalog : ℕ → Relation) × AreGivenOf catalog known.old (plan_of input.now) (part_of part.now) below.now }
    ensures passed { (catalog : ℕ → Relation) → AreGivenOf catalog known.old (plan_of input.now) (part_of part.now) below.now
        → result.now ≡ cond (is_one (size (plan_of input.now)) || goes_on_with catalog (kind_of exchange.now.kind) (plan_of input.now) (part_of part.now) below.now)
        below.now exchange.now.merge.items }
    ensures kept { StaysKnown known.old known.new (plan_of input.now) }
{
    if keeps_order(&exchange.kind, input, known, part, below) {
        return below;
    }
    exchange.merge.as_slice()
}

/// The longest order that a node shows, where its (left) input has this part and this order. One column of each class of equal
/// ones is named in it, the first, and none that earlier columns determine.
pub fn shown_order(
    alloc: Global,
    catalog: &Catalog,
    node: &TypedNode,
    known: &mut KnownColumns<'_>,
    part: &Part,
    below: &[OrderEntry],
) -> Result<Vec<OrderEntry>, AllocError>
    requires known { IsKnownTyped catalog.now known.old (plan_of node.now) }
    requires input { are_of_input (relation_at catalog.now) (plan_of node.now) (part_of part.now) below.now ≡ true }
    ensures shown { IfOk result (λ v. v.items ≡ shown_order (relation_at catalog.now) (plan_of node.now) (part_of part.now) below.now) }
    ensures kept { (relations : List Relation) → IsKnownTyped relations known.old (plan_of node.now) → (p : Plan) → IsKnownOf (relation_at relations) known.old p → IsKnownOf (relation_at relations) known.new p }
{
    match node {
        TypedNode::Scan(_, scan) => {
            let relation = catalog.get(scan.relation);
            shortened(alloc, node, known, relation.order())
        }
        TypedNode::Unary(_, operator, input) => shown_over(
            alloc,
            node,
            known,
            operator.described(),
            input,
            below,
        ),
        TypedNode::Binary(_, operator, _, _) => {
            shortened(alloc, node, known, order_over(operator, below))
        }
        TypedNode::Exchange(_, exchange, input) => {
            let given = order_passed(exchange, input, known, part, below);
            shortened(alloc, node, known, given)
        }
    }
}
