//! How rows are dealt to the consumers of an exchange, one kind after the other.

ghost use Rattle.std.specs.Prelude.{◌≡◌, ◌<◌, ◌≤◌, ◌^◌, [], length, map, zip, slice_index_or, slice_range, false, true, IfOk, OnOk};
ghost use Rattle.std.specs.List.{All, flat_map};
ghost use Rattle.vx_rows.specs.View.{row, AreColumns, ArePositions};
ghost use Rattle.vx_plan_nodes.specs.Routes.{Routing};
ghost use Rattle.vx_plan_nodes.specs.Streams.{bearing};
ghost use Rattle.vx_exchange_ends.specs.Sending.{KindRoutesAs};
ghost use Rattle.vx_exchange.specs.Routed.{key_columns, routed_to};
ghost use Rattle.vx_exchange.specs.LaneView.{Cuts};
ghost use Rattle.vx_exchange.specs.Lanes.{kind_of, serves, bounds_of, columns_of, in_turn, SameLanes, Deals, CutsEach};

use crate::lane::Lane;
use crate::places::{places_of_each, turns};
use crate::routes::{KeyRoute, consumers_of};
use crate::scratch::Scratch;
use std::alloc::{AllocError, Global};
use vx_plan_nodes::{Router, Size};
use vx_rows_views::Rows;

/// How rows are dealt to the consumers: the kind of an exchange, with what a producer has to know of it.
#[derive(Drop)]
pub enum Deal {
    /// Each row to the consumer of its values in some columns.
    Route(Size, KeyRoute),
    /// Each producer's rows to the consumers in turn: its row r, counted from 0, to consumer r mod n.
    Round(Size),
    /// Every row to every consumer.
    Broadcast(Size),
    /// Every row to the one consumer.
    Gather,
    /// Every row to the one consumer, which takes the producers' rows in the order of the producers' numbers.
    Concat,
}

// All rows to the one lane.
fn deal_to_one(lanes: &mut Vec<Lane>, rows: Rows) -> Result<(), AllocError>
    requires one { length lanes.old.items ≡ 1 }
    requires open { All (λ o. o.closed ≡ false) lanes.old.items }
    requires types { All (λ o. rows.types ≡ o.way.types) lanes.old.items }
    ensures ok { OnOk result (CutsEach (λ _. rows.rows) lanes.old.items lanes.new.items) }
    ensures same { SameLanes lanes.old.items lanes.new.items }
{
    lanes[0].add(rows)?;
    Ok(())
}

// The same rows once more, by other handles on the same tables.
fn share(alloc: Global, rows: &Rows) -> Result<Rows, AllocError>
    ensures { IfOk result (λ r. r ≡ rows.now) }
{
    Ok(rows.slice(alloc, 0, rows.len())?)
}

// All rows to each lane.
fn deal_to_each(alloc: Global, lanes: &mut Vec<Lane>, rows: &Rows) -> Result<(), AllocError>
    requires open { All (λ o. o.closed ≡ false) lanes.old.items }
    requires types { All (λ o. rows.now.types ≡ o.way.types) lanes.old.items }
    ensures ok { OnOk result (CutsEach (λ _. rows.now.rows) lanes.old.items lanes.new.items) }
    ensures same { SameLanes lanes.old.items lanes.new.items }
{
    for consumer in 0..lanes.len() {
        let shared = share(alloc, rows)?;
        lanes[consumer].add(shared)?;
    }
    Ok(())
}

// Finds the places of all consumers, one list behind the other, whatever stood in `all`.
fn join_places(places: &[Vec<usize>], all: &mut Vec<usize>) -> Result<(), AllocError>
    ensures { OnOk result (all.new.items ≡ flat_map (λ p. p.items) places.now) }
{
    all.clear();
    for consumer in 0..places.len() {
        all.extend_from_slice(places[consumer].as_slice())?;
    }
    Ok(())
}

// To each lane the rows at its places. The rows of all lanes are found at once, so that they share one list of positions.
fn deal_places(
    alloc: Global,
    lanes: &mut Vec<Lane>,
    rows: &Rows,
    places: &[Vec<usize>],
    all: &mut Vec<usize>,
) -> Result<(), AllocError>
    requires many { length places.now ≡ length lanes.old.items }
    requires there { All (ArePositions (length rows.now.rows)) (map (λ p. p.items) places.now) }
    requires open { All (λ o. o.closed ≡ false) lanes.old.items }
    requires types { All (λ o. rows.now.types ≡ o.way.types) lanes.old.items }
    ensures ok { OnOk result (CutsEach (λ j. map (row rows.now) (slice_index_or (map (λ p. p.items) places.now) j [])) lanes.old.items lanes.new.items) }
    ensures same { SameLanes lanes.old.items lanes.new.items }
{
    join_places(places, all)?;
    let sorted = rows.at(alloc, all.as_slice())?;
    let mut from = 0;
    for consumer in 0..lanes.len() {
        let to = from + places[consumer].len();
        lanes[consumer].add_part(&sorted, from, to)?;
        from = to;
    }
    Ok(())
}

// Each row to the lane of its consumer, which stands in the scratch.
fn deal_by_consumer(
    alloc: Global,
    lanes: &mut Vec<Lane>,
    rows: &Rows,
    scratch: &mut Scratch,
) -> Result<(), AllocError>
    requires many { length scratch.old.consumers.items ≡ length rows.now.rows }
    requires there { All (λ k. k < length lanes.old.items) scratch.old.consumers.items }
    requires open { All (λ o. o.closed ≡ false) lanes.old.items }
    requires types { All (λ o. rows.now.types ≡ o.way.types) lanes.old.items }
    ensures ok { OnOk result (CutsEach (λ j. bearing j (zip scratch.old.consumers.items rows.now.rows)) lanes.old.items lanes.new.items) }
    ensures same { SameLanes lanes.old.items lanes.new.items }
{
    places_of_each(
        alloc,
        scratch.consumers.as_slice(),
        lanes.len(),
        &mut scratch.places,
    )?;
    deal_places(
        alloc,
        lanes,
        rows,
        scratch.places.as_slice(),
        &mut scratch.all,
    )?;
    Ok(())
}

// Each row to the lane whose turn it is, from that of the consumer `next` on.
fn deal_in_turn(
    alloc: Global,
    next: u32,
    lanes: &mut Vec<Lane>,
    rows: Rows,
    scratch: &mut Scratch,
) -> Result<(), AllocError>
    requires few { length lanes.old.items < 2 ^ 32 }
    requires next { next < length lanes.old.items }
    requires open { All (λ o. o.closed ≡ false) lanes.old.items }
    requires types { All (λ o. rows.types ≡ o.way.types) lanes.old.items }
    ensures ok { OnOk result (CutsEach (λ j. bearing j (in_turn (length lanes.old.items) next rows.rows)) lanes.old.items lanes.new.items) }
    ensures same { SameLanes lanes.old.items lanes.new.items }
{
    if lanes.len() == 1 {
        return deal_to_one(lanes, rows);
    }
    turns(next, rows.len(), lanes.len() as u32, &mut scratch.consumers)?;
    deal_by_consumer(alloc, lanes, &rows, scratch)
}

// Each row to the lane to which the route sends it. One lane gets all, whatever the route is.
fn deal_by_route<R: Router>(
    alloc: Global,
    route: &KeyRoute,
    lanes: &mut Vec<Lane>,
    router: &R,
    rows: Rows,
    scratch: &mut Scratch,
) -> Result<(), AllocError>
    requires some { 0 < length lanes.old.items }
    requires few { length lanes.old.items < 2 ^ 32 }
    requires columns { AreColumns (length rows.types) (key_columns route.now) }
    requires open { All (λ o. o.closed ≡ false) lanes.old.items }
    requires types { All (λ o. rows.types ≡ o.way.types) lanes.old.items }
    ensures ok { OnOk result (CutsEach (λ j. bearing j (zip (map (routed_to (R.route_of router.now) route.now (length lanes.old.items)) rows.rows) rows.rows)) lanes.old.items lanes.new.items) }
    ensures same { SameLanes lanes.old.items lanes.new.items }
{
    if lanes.len() == 1 {
        return deal_to_one(lanes, rows);
    }
    consumers_of(
        alloc,
        route,
        router,
        &rows,
        lanes.len() as u32,
        &mut scratch.consumers,
    )?;
    deal_by_consumer(alloc, lanes, &rows, scratch)
}

/// Deals rows to the lanes; those of a round robin from the consumer `next` on. After an `Err` some of them may be lost.
pub fn deal_rows<R: Router>(
    alloc: Global,
    deal: &Deal,
    next: u32,
    lanes: &mut Vec<Lane>,
    scratch: &mut Scratch,
    router: &R,
    rows: Rows,
) -> Result<(), AllocError>
    requires served { serves deal.now (length lanes.old.items) ≡ true }
    requires few { length lanes.old.items < 2 ^ 32 }
    requires next { next < length lanes.old.items }
    requires columns { AreColumns (length rows.types) (columns_of deal.now) }
    requires open { All (λ o. o.closed ≡ false) lanes.old.items }
    requires types { All (λ o. rows.types ≡ o.way.types) lanes.old.items }
    ensures ok { OnOk result ((goes : Routing) → KindRoutesAs (kind_of deal.now) (bounds_of deal.now) (R.route_of router.now) goes
        → Deals goes (kind_of deal.now) next rows.rows lanes.old.items lanes.new.items) }
    ensures same { SameLanes lanes.old.items lanes.new.items }
{
    match deal {
        Deal::Route(_, route) => {
            deal_by_route(alloc, route, lanes, router, rows, scratch)?;
            return Ok(());
        }
        Deal::Round(_) => {
            deal_in_turn(alloc, next, lanes, rows, scratch)?;
            return Ok(());
        }
        Deal::Broadcast(_) => {
            deal_to_each(alloc, lanes, &rows)?;
            return Ok(());
        }
        Deal::Gather => {
            deal_to_one(lanes, rows)?;
            return Ok(());
        }
        Deal::Concat => {
            deal_to_one(lanes, rows)?;
            return Ok(());
        }
    }
}
