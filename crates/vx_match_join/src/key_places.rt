//! The places of the rows of each key, by the keys' numbers.

ghost use Rattle.std.specs.Prelude.{◌≡◌, ◌<◌, ◌≤◌, ◌+◌, ◌^◌, ◌++◌, ◌∷◌, [], length, map, slice_set, slice_index_or, IfOk, OnOk};
ghost use Rattle.vx_rows.specs.Lists.{each_below};
ghost use Rattle.vx_match_join.specs.Build.{AddsRows};
ghost use Rattle.vx_match_join.specs.Parts.{places_in, listed_places};

use std::alloc::{AllocError, Global};
use vx_rows_views::are_counted_from;

/// For each key the places of its rows.
pub(crate) enum KeyPlaces {
    /// The number of keys, each of which has one row: key k has the row at place k.
    Single(usize),
    /// A list for each key.
    Lists(Vec<Vec<usize>>),
}

impl Drop for KeyPlaces {
    fn drop(self) {
        match self {
            KeyPlaces::Single(_) => {}
            KeyPlaces::Lists(_) => {}
        }
    }
}

/// The places of the rows of one key: no place, one, or those of a list.
#[derive(Clone, Copy)]
pub(crate) enum KeyPositions<'a> {
    None,
    One(usize),
    Listed(&'a [usize]),
}

// A list of one place.
fn list_of_one(alloc: Global, place: usize) -> Result<Vec<usize>, AllocError>
    ensures { IfOk result (λ v. v.items ≡ place ∷ []) }
{
    let mut list = Vec::new(alloc);
    list.push(place)?;
    Ok(list)
}

// Makes `count` lists, one per key. The list of key k holds place k.
fn lists_of_count(alloc: Global, count: usize) -> Result<Vec<Vec<usize>>, AllocError>
    ensures { IfOk result (λ v. map (λ p. p.items) v.items ≡ each_below count (λ k. k ∷ [])) }
{
    let mut lists = Vec::with_capacity(alloc, count)?;
    for place in 0..count {
        lists.push(list_of_one(alloc, place)?)?;
    }
    Ok(lists)
}

// Adds a place to those of the key with this number, or behind all as the first place of a new key.
fn push_place(
    alloc: Global,
    parts: &mut Vec<Vec<usize>>,
    number: usize,
    place: usize,
) -> Result<(), AllocError>
    ensures known { OnOk result (number < length parts.old.items → map (λ p. p.items) parts.new.items ≡ slice_set (map (λ p. p.items) parts.old.items) number (slice_index_or (map (λ p. p.items) parts.old.items) number [] ++ place ∷ [])) }
    ensures new { OnOk result (length parts.old.items ≤ number → map (λ p. p.items) parts.new.items ≡ map (λ p. p.items) parts.old.items ++ (place ∷ []) ∷ []) }
{
    if number < parts.len() {
        parts[number].push(place)?;
        return Ok(());
    }
    parts.push(list_of_one(alloc, place)?)?;
    Ok(())
}

// Adds the rows at places `first`, `first + 1`, and so on, whose keys have these numbers.
fn push_places(
    alloc: Global,
    parts: &mut Vec<Vec<usize>>,
    first: usize,
    numbers: &[usize],
) -> Result<(), AllocError>
    requires { first + length numbers.now < 2 ^ 64 }
    ensures { OnOk result (AddsRows first numbers.now (map (λ p. p.items) parts.old.items) (map (λ p. p.items) parts.new.items)) }
{
    for i in 0..numbers.len() {
        push_place(alloc, parts, numbers[i], first + i)?;
    }
    Ok(())
}

// The list with this number, or no place where there is none.
fn listed(lists: &[Vec<usize>], number: usize) -> &[usize]
    ensures { result.now ≡ slice_index_or (map (λ p. p.items) lists.now) number [] }
{
    if number >= lists.len() {
        return &[];
    }
    lists[number].as_slice()
}

// The one place of key `number` out of `count` keys, or no place if there is no such key.
fn single<'a>(count: usize, number: usize) -> KeyPositions<'a>
    ensures { listed_places result ≡ slice_index_or (each_below count (λ k. k ∷ [])) number [] }
{
    if number >= count {
        return KeyPositions::None;
    }
    KeyPositions::One(number)
}

impl KeyPlaces {
    /// Of no keys.
    pub fn none() -> KeyPlaces
        ensures { places_in result ≡ [] }
    {
        KeyPlaces::Single(0)
    }

    /// Adds the rows at places `first`, `first + 1`, and so on, whose keys have these numbers. As long as each row has a key of
    /// its own no list is made. After an `Err` some rows may have been added.
    pub fn add(&mut self, alloc: Global, first: usize, numbers: &[usize]) -> Result<(), AllocError>
        requires { first + length numbers.now < 2 ^ 64 }
        ensures { OnOk result (AddsRows first numbers.now (places_in self.old) (places_in self.new)) }
    {
        match self {
            KeyPlaces::Lists(lists) => push_places(alloc, lists, first, numbers),
            KeyPlaces::Single(count) => {
                let count = *count;
                if count == first && are_counted_from(first, numbers) {
                    *self = KeyPlaces::Single(first + numbers.len());
                    return Ok(());
                }
                let mut lists = lists_of_count(alloc, count)?;
                push_places(alloc, &mut lists, first, numbers)?;
                *self = KeyPlaces::Lists(lists);
                Ok(())
            }
        }
    }

    /// The places of the rows of the key with this number, or none where there is no such key.
    pub fn get(&self, number: usize) -> KeyPositions<'_>
        ensures { listed_places result ≡ slice_index_or (places_in self.now) number [] }
    {
        match self {
            KeyPlaces::Single(count) => single(*count, number),
            KeyPlaces::Lists(lists) => KeyPositions::Listed(listed(lists.as_slice(), number)),
        }
    }
}
