//! Consumers of rows, and the places of the rows of each consumer.

ghost use Rattle.std.specs.Prelude.{◌≡◌, ◌+◌, ◌%◌, ◌<◌, ◌≤◌, ◌==◌, ◌++◌, ◌∷◌, [], length, map, max, take, slice_set, slice_index_or, OnOk};
ghost use Rattle.std.specs.List.{All};
ghost use Rattle.vx_rows.specs.Lists.{each_below};
ghost use Rattle.vx_rows_views.specs.Selected.{places_of};

use std::alloc::{AllocError, Global};

/// The consumer that is `behind` turns after `next`, in round robin among `n` consumers.
pub fn turn(next: u32, behind: usize, n: u32) -> u32
    requires { next < n }
    ensures { result ≡ (next + behind) % n }
{
    ((next as usize + behind % n as usize) % n as usize) as u32
}

// The consumer among n that is behind another one, where the first one follows the last.
fn next_turn(consumer: u32, n: u32) -> u32
    requires { consumer < n }
    ensures { result ≡ (consumer + 1) % n }
{
    if consumer + 1 == n { 0 } else { consumer + 1 }
}

/// Replaces `found` by the consumers of `count` rows: round robin among `n` consumers, starting at `next`.
pub fn turns(next: u32, count: usize, n: u32, found: &mut Vec<u32>) -> Result<(), AllocError>
    requires { next < n }
    ensures { OnOk result (found.new.items ≡ each_below count (λ i. (next + i) % n)) }
{
    found.clear();
    found.reserve(count)?;
    let mut consumer = next;
    for _i in 0..count {
        found.push(consumer)?;
        consumer = next_turn(consumer, n);
    }
    Ok(())
}

// Empties `list` and reserves room for `room` places.
fn empty_list(list: &mut Vec<usize>, room: usize) -> Result<(), AllocError>
    ensures { OnOk result (list.new.items ≡ []) }
{
    list.clear();
    list.reserve(room)
}

// Empties the list of `consumer`, or appends an empty list for it, with room for `room` places.
fn put_empty(
    alloc: Global,
    places: &mut Vec<Vec<usize>>,
    consumer: usize,
    room: usize,
) -> Result<(), AllocError>
    requires { consumer ≤ length places.old.items }
    ensures ok { OnOk result (take (consumer + 1) (map (λ p. p.items) places.new.items) ≡ take consumer (map (λ p. p.items) places.old.items) ++ [] ∷ []) }
    ensures long { OnOk result (consumer < length places.new.items) }
    ensures bound { length places.new.items ≤ max (length places.old.items) (consumer + 1) }
{
    if consumer < places.len() {
        let list = &mut places[consumer];
        empty_list(list, room)
    } else {
        let list = Vec::with_capacity(alloc, room)?;
        places.push(list)?;
        Ok(())
    }
}

// Gives each of `n` consumers an empty list with room for `room` places. Existing lists keep their memory.
fn clear_places(
    alloc: Global,
    n: usize,
    room: usize,
    places: &mut Vec<Vec<usize>>,
) -> Result<(), AllocError>
    ensures { OnOk result (map (λ p. p.items) places.new.items ≡ each_below n (λ j. [])) }
{
    places.truncate(n);
    for consumer in 0..n {
        put_empty(alloc, places, consumer, room)?;
    }
    Ok(())
}

// Adds a place to those of a consumer.
fn add_place(places: &mut Vec<Vec<usize>>, consumer: usize, place: usize) -> Result<(), AllocError>
    requires { consumer < length places.old.items }
    ensures { OnOk result (map (λ p. p.items) places.new.items ≡ slice_set (map (λ p. p.items) places.old.items) consumer (slice_index_or (map (λ p. p.items) places.old.items) consumer [] ++ place ∷ [])) }
{
    places[consumer].push(place)?;
    Ok(())
}

/// Finds for each of n consumers the places of its rows, in order, where these are the consumers of the rows, whatever stood in `places`.
pub fn places_of_each(
    alloc: Global,
    consumers: &[u32],
    n: usize,
    places: &mut Vec<Vec<usize>>,
) -> Result<(), AllocError>
    requires { All (λ k. k < n) consumers.now }
    ensures { OnOk result (map (λ p. p.items) places.new.items ≡ each_below n (λ j. places_of (λ k. k == j) consumers.now)) }
{
    // most consumers get about as many rows as the others
    let room = consumers.len() / n.max(1) + 8;
    clear_places(alloc, n, room, places)?;
    for i in 0..consumers.len() {
        add_place(places, consumers[i] as usize, i)?;
    }
    Ok(())
}
