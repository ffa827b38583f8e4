//! The orders that a node has, by what its operator does with columns and rows.

ghost use Rattle.std.specs.Prelude.{◌≡◌, ℕ, [], ◌∷◌};
ghost use Rattle.std.specs.List.{list_any};
ghost use Rattle.vx_catalog_relations.specs.Catalog.{relation_at};
ghost use Rattle.vx_plan_nodes.specs.Plan.{by_range, routed, claim};
ghost use Rattle.vx_plan_nodes.specs.Outline.{part_of, kind_of, plan_of};
ghost use Rattle.vx_plan_nodes.specs.Describe.{whole_rows};
ghost use Rattle.vx_plan_nodes.specs.DescribeView.{copying_of, order_after_of, described_of, described_both_of};
ghost use Rattle.vx_check_rules.specs.Rules.{rises_by, goes_on};
ghost use Rattle.vx_check_rules.specs.Behaviour.{sorted_by, if_so, order_after, order_over, moved, behaviour, sorts};
ghost use Rattle.vx_check_rules.specs.SortedView.{sorted_of, sorting_in, sortings_in};

use crate::nodes::{claimed_order, claimed_part, has_one_worker};
use crate::sources::begins_with_copies;
use vx_catalog_relations::Catalog;
use vx_plan_nodes::{
    Copying, Described, DescribedBoth, Exchange, ExchangeKind, Meeting, OrderAfter, Part, Route,
    TypedNode, output_types,
};
use vx_rows_values::OrderEntry;

/// An order, on the columns that are copied.
#[derive(Clone, Copy)]
pub struct Sorted<'p> {
    pub copying: Copying<'p>,
    pub order: &'p [OrderEntry],
}

impl Sorted<'_> {
    /// Whether the rows are sorted so.
    pub fn sorts(self, wanted: &[OrderEntry]) -> bool
        ensures { result ≡ sorts (sorted_of self.entry) wanted.now }
    {
        begins_with_copies(self.copying, wanted, self.order)
    }
}

// An order of columns that stand where they stood.
fn whole<'p>(order: &'p [OrderEntry]) -> Sorted<'p>
    ensures { sorted_of result ≡ sorted_by whole_rows order.now }
{
    Sorted {
        copying: Copying::WholeRows,
        order,
    }
}

// Such an order, if it is there.
fn whole_if<'p>(is_there: bool, order: &'p [OrderEntry]) -> Option<Sorted<'p>>
    ensures { sorting_in result ≡ if_so is_there (sorted_by whole_rows order.now ∷ []) }
{
    is_there.then_some(whole(order))
}

// No other order.
fn only<'p>(sorted: Sorted<'p>) -> [Option<Sorted<'p>>; 2]
    ensures { sortings_in result ≡ sorted_of sorted.entry ∷ [] }
{
    [Some(sorted), None]
}

/// The order of the output's rows, over rows that are sorted on `below`.
pub fn order_after<'p>(order: OrderAfter<'p>, below: &'p [OrderEntry]) -> &'p [OrderEntry]
    ensures { result.now ≡ order_after (order_after_of order.entry) below.now }
{
    match order {
        OrderAfter::Kept => below,
        OrderAfter::SortedOn(order) => order,
    }
}

// The order of an operator over one input that is sorted on `below`.
fn sorted_over<'p>(described: Described<'p>, below: &'p [OrderEntry]) -> Sorted<'p>
    ensures { sorted_of result ≡ sorted_by (described_of described.entry).copying (order_after (described_of described.entry).order below.now) }
{
    Sorted {
        copying: described.copying,
        order: order_after(described.order, below),
    }
}

// The order of an operator over two inputs, where the left one is sorted on `left`. It is lost where rows stand side by
// side.
fn sorted_over_both<'p>(described: DescribedBoth<'p>, left: &'p [OrderEntry]) -> Sorted<'p>
    ensures { sorted_of result ≡ sorted_by whole_rows (order_over (described_both_of described.entry).meeting left.now) }
{
    match described.meeting {
        Meeting::PairedOn(_) | Meeting::MatchedOn(_) => whole(left),
        Meeting::SideBySide => whole(&[]),
    }
}

// Whether the order begins with the column, rising.
fn begins_with(order: &[OrderEntry], column: usize) -> bool
    ensures { (range : ℕ) → result ≡ rises_by (routed (by_range range) (column ∷ [])) order.now }
{
    match order.first() {
        Some(entry) => column == entry.column && !entry.falling,
        None => false,
    }
}

/// Whether rows with this part rise with the number of their worker, where each worker's rows are in this order: a range
/// on the order's first column put them there, and it rises.
pub fn rises_with_workers(part: &Part, order: &[OrderEntry]) -> bool
    ensures { result ≡ rises_by (part_of part.now) order.now }
{
    match part {
        Part::Routed(Route::Range(_), columns) => {
            columns.len() == 1 && begins_with(order, columns[0])
        }
        Part::One | Part::Any | Part::All | Part::Routed(Route::Hash(_), _) => false,
    }
}

// Whether an exchange of this kind keeps the order of its producers' rows, since it takes one producer after the other.
fn goes_on_in_order(kind: &ExchangeKind, input: &TypedNode) -> bool
    ensures { result ≡ goes_on (kind_of kind.now) (claim (plan_of input.now)) }
{
    match kind {
        ExchangeKind::Concat => rises_with_workers(claimed_part(input), claimed_order(input)),
        ExchangeKind::Route(_, _, _)
        | ExchangeKind::Round(_)
        | ExchangeKind::Broadcast(_)
        | ExchangeKind::Gather => false,
    }
}

// The orders over an exchange: its input's where that goes on, and the one that it merges by.
fn sortings_moved<'p>(exchange: &'p Exchange, input: &'p TypedNode) -> [Option<Sorted<'p>>; 2]
    ensures { sortings_in result ≡ (moved (kind_of exchange.now.kind) exchange.now.merge.items (plan_of input.now)).sortings }
{
    let goes_on = has_one_worker(input) || goes_on_in_order(&exchange.kind, input);
    [
        whole_if(goes_on, claimed_order(input)),
        Some(whole(exchange.merge.as_slice())),
    ]
}

/// The orders of a node.
pub fn node_sortings<'p>(catalog: &'p Catalog, node: &'p TypedNode) -> [Option<Sorted<'p>>; 2]
    ensures { sortings_in result ≡ (behaviour (relation_at catalog.now) (plan_of node.now)).sortings }
{
    match node {
        TypedNode::Scan(_, scan) => only(whole(catalog.order_of(scan.relation))),
        TypedNode::Unary(_, operator, input) => {
            only(sorted_over(operator.described(), claimed_order(input)))
        }
        TypedNode::Binary(_, operator, left, _) => only(sorted_over_both(
            operator.described(output_types(left)),
            claimed_order(left),
        )),
        TypedNode::Exchange(_, exchange, input) => sortings_moved(exchange, input),
    }
}

// Whether the order is there and the rows are sorted so by it.
fn is_sorted(sorting: Option<Sorted<'_>>, order: &[OrderEntry]) -> bool
    ensures { result ≡ list_any (λ s. sorts s order.now) (sorting_in sorting.entry) }
{
    match sorting {
        Some(sorted) => sorted.sorts(order),
        None => false,
    }
}

/// Whether the rows are sorted so by one of these.
pub fn show_order(sortings: &[Option<Sorted<'_>>], order: &[OrderEntry]) -> bool
    ensures { result ≡ list_any (λ s. sorts s order.now) (sortings_in sortings.now) }
{
    for sorting in sortings {
        if is_sorted(*sorting, order) {
            return true;
        }
    }
    false
}
