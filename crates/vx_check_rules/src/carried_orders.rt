//! The orders that a node shows by what is known of columns.

ghost use Rattle.std.specs.Prelude.{◌≡◌, ℕ, ◌<◌, ◌≤◌, true, length, Some};
ghost use Rattle.vx_rows_values.specs.Limits.{max_columns};
ghost use Rattle.vx_rows_values.specs.Order.{order_columns};
ghost use Rattle.vx_catalog_relations.specs.Relation.{Relation};
ghost use Rattle.vx_catalog_relations.specs.Catalog.{relation_at, all_below};
ghost use Rattle.vx_plan_nodes.specs.DescribeView.{copying_of, order_after_of};
ghost use Rattle.vx_plan_nodes.specs.Outline.{plan_of};
ghost use Rattle.vx_plan_nodes.specs.Types.{width};
ghost use Rattle.vx_plan_facts.specs.ColumnSetView.{set_of_columns};
ghost use Rattle.vx_plan_facts.specs.Determined.{column_in, determined};
ghost use Rattle.vx_plan_facts.specs.Equal.{equal_at};
ghost use Rattle.vx_plan_facts.specs.Following.{short};
ghost use Rattle.vx_plan_facts.specs.KnownView.{IsKnownOf};
ghost use Rattle.vx_check_rules.specs.Derived.{copy_of, front_copies};
ghost use Rattle.vx_check_rules.specs.KnownNode.{AreOrdersOf, AreCopiesOf, StaysKnown};

use crate::derived_orders::are_equal;
use arrayvec::ArrayVec;
use vx_plan_facts::{ColumnSet, KnownColumns};
use vx_plan_nodes::{Copying, TypedNode};
use vx_rows_values::OrderEntry;
use vx_rows_values::limits::MAX_COLUMNS;

/// The entries of an order whose columns those before them do not determine.
pub fn short(
    node: &TypedNode,
    known: &mut KnownColumns<'_>,
    order: &[OrderEntry],
) -> ArrayVec<OrderEntry, MAX_COLUMNS>
    requires { (catalog : ℕ → Relation) × AreOrdersOf catalog known.old (plan_of node.now) order.now order.now }
    ensures short { (catalog : ℕ → Relation) → AreOrdersOf catalog known.old (plan_of node.now) order.now order.now → result.items ≡ short (determined catalog (plan_of node.now)) order.now }
    ensures kept { StaysKnown known.old known.new (plan_of node.now) }
{
    let mut short = ArrayVec::new();
    let mut passed = ColumnSet::new();
    let mut found = known.determined(node, &passed);
    for entry in order {
        if found.contains(entry.column) {
            continue;
        }
        short.push(*entry);
        passed.put(entry.column);
        found = known.determined(node, &passed);
    }
    short
}

// Whether the source of a copy is there and is equal to this column.
fn is_equal_source(
    input: &TypedNode,
    known: &KnownColumns<'_>,
    source: Option<usize>,
    column: usize,
) -> bool
    requires { (catalog : ℕ → Relation) × IsKnownOf catalog known.now (plan_of input.now) × (column < width catalog (plan_of input.now))
        × ((x : ℕ) → source ≡ Some x → x < width catalog (plan_of input.now)) }
    ensures { (catalog : ℕ → Relation) → IsKnownOf catalog known.now (plan_of input.now) → column < width catalog (plan_of input.now)
        → ((x : ℕ) → source ≡ Some x → x < width catalog (plan_of input.now)) → result ≡ column_in (λ y. equal_at catalog (plan_of input.now) y column) source }
{
    match source {
        Some(source) => are_equal(input, known, source, column),
        None => false,
    }
}

/// Of so many output columns the first one that is a copy of a column that is equal to this input column.
pub fn copy_of(
    copying: Copying<'_>,
    outputs: usize,
    input: &TypedNode,
    known: &KnownColumns<'_>,
    column: usize,
) -> Option<usize>
    requires { (catalog : ℕ → Relation) × AreCopiesOf catalog known.now (plan_of input.now) outputs (copying_of copying) × (column < width catalog (plan_of input.now)) }
    ensures { (catalog : ℕ → Relation) → AreCopiesOf catalog known.now (plan_of input.now) outputs (copying_of copying.entry) → column < width catalog (plan_of input.now)
        → result ≡ copy_of outputs (copying_of copying.entry) (equal_at catalog (plan_of input.now)) column }
{
    for copy in 0..outputs {
        if is_equal_source(input, known, copying.source(copy), column) {
            return Some(copy);
        }
    }
    None
}

// The order of such copies of the columns of an input's order, up to the first that has none. Each keeps its direction.
fn front_copies(
    copying: Copying<'_>,
    outputs: usize,
    input: &TypedNode,
    known: &KnownColumns<'_>,
    order: &[OrderEntry],
) -> ArrayVec<OrderEntry, MAX_COLUMNS>
    requires copies { (catalog : ℕ → Relation) × AreCopiesOf catalog known.now (plan_of input.now) outputs (copying_of copying)
        × (all_below (width catalog (plan_of input.now)) (order_columns order.now) ≡ true) }
    requires few { length order.now ≤ max_columns }
    ensures { (catalog : ℕ → Relation) → AreCopiesOf catalog known.now (plan_of input.now) outputs (copying_of copying.entry) → all_below (width catalog (plan_of input.now)) (order_columns order.now) ≡ true
        → result.items ≡ front_copies outputs (copying_of copying.entry) (equal_at catalog (plan_of input.now)) order.now }
{
    let mut copies = ArrayVec::new();
    for entry in order {
        match copy_of(copying, outputs, input, known, entry.column) {
            Some(column) => copies.push(OrderEntry {
                column,
                falling: entry.falling,
            }),
            None => return copies,
        }
    }
    copies
}

/// This order of an input, without what earlier columns determine, where copies of it stand in an output of so many columns.
pub fn carried_order(
    copying: Copying<'_>,
    outputs: usize,
    input: &TypedNode,
    known: &mut KnownColumns<'_>,
    order: &[OrderEntry],
) -> ArrayVec<OrderEntry, MAX_COLUMNS>
    requires { (catalog : ℕ → Relation) × AreCopiesOf catalog known.old (plan_of input.now) outputs (copying_of copying)
        × (all_below (width catalog (plan_of input.now)) (order_columns order.now) ≡ true) }
    ensures carried { (catalog : ℕ → Relation) → AreCopiesOf catalog known.old (plan_of input.now) outputs (copying_of copying.entry)
        → all_below (width catalog (plan_of input.now)) (order_columns order.now) ≡ true
        → result.items ≡ front_copies outputs (copying_of copying.entry) (equal_at catalog (plan_of input.now)) (short (determined catalog (plan_of input.now)) order.now) }
    ensures kept { StaysKnown known.old known.new (plan_of input.now) }
{
    let below = short(input, known, order);
    front_copies(copying, outputs, input, known, below.as_slice())
}
