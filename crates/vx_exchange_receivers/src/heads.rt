//! What is at hand of each producer's stream, and which row of it goes first.

ghost use Rattle.std.specs.Prelude.{◌≡◌, ◌≢◌, ◌≤◌, ◌<◌, ◌++◌, ◌↔◌, ℕ, [], All, length, get_or, drop, Some, true, false, IfOk, IsTrue};
ghost use Rattle.std.specs.List.{AllWithin, Contains};
ghost use Rattle.std.specs.Vec.{vec_len, vec_capacity};
ghost use Rattle.std.specs.Ordering.{is_le};
ghost use Rattle.vx_rows_values.specs.Order.{compare_on};
ghost use Rattle.vx_rows.specs.View.{row, AreColumns};
ghost use Rattle.vx_exchange_receivers.specs.Heads.{HasRow, Lacks, HasRowAt, held_at, next_at, position_at, last_of, GoesBefore, Precedes, IsOrder, IsRun, AllRise, AreAlike, IsFresh, IsMissing};

use std::alloc::{AllocError, Global};
use std::cmp::Ordering;
use vx_match_keys::compare_rows;
use vx_rows_values::{ColType, OrderEntry};
use vx_rows_views::Rows;

// What is at hand of a producer's stream: the rows from a position on, and whether it has ended. Of the rows before, the
// last one is kept until others come: these must not be less.
pub(crate) struct StreamHead {
    pub rows: Rows,
    pub at: usize,
    pub ended: bool,
}

impl Drop for StreamHead {
    fn drop(self) {
        let StreamHead {
            rows: _,
            at: _,
            ended: _,
        } = self;
    }
}

impl StreamHead {
    // Whether a row is left.
    pub(crate) fn has_row(&self) -> bool
        ensures { IsTrue result ↔ HasRow self.now }
    {
        self.at < self.rows.len()
    }

    // Whether more may come, and no row is left.
    pub(crate) fn lacks(&self) -> bool
        ensures { IsTrue result ↔ Lacks self.now }
    {
        !self.ended && !self.has_row()
    }

    // The head once further rows came, where none is left.
    pub(crate) fn followed_by(&self, alloc: Global, rows: Rows) -> Result<StreamHead, AllocError>
        requires { rows.types ≡ self.now.rows.types }
        ensures types { IfOk result (λ h. h.rows.types ≡ self.now.rows.types) }
        ensures ended { IfOk result (λ h. h.ended ≡ self.now.ended) }
        ensures rows { IfOk result (λ h. h.rows.rows ≡ last_of self.now.rows.rows ++ rows.rows) }
        ensures at { IfOk result (λ h. h.at ≡ length (last_of self.now.rows.rows)) }
    {
        let count = self.rows.len();
        let mut all = self.rows.slice(alloc, count.saturating_sub(1), count)?;
        let at = all.len();
        all.append(rows)?;
        Ok(StreamHead {
            rows: all,
            at,
            ended: self.ended,
        })
    }
}

// Whether row i of producer p goes before the next row of producer q: the lower one first among equals.
fn goes_before(heads: &[StreamHead], merge: &[OrderEntry], p: usize, i: usize, q: usize) -> bool
    requires alike { AreAlike merge.now heads.now }
    requires row { i < length (held_at heads.now p) }
    requires other { HasRowAt heads.now q }
    ensures before { result ≡ true → GoesBefore merge.now (get_or (held_at heads.now p) i []) p (next_at heads.now q) q }
    ensures behind { result ≡ false → p ≢ q → GoesBefore merge.now (next_at heads.now q) q (get_or (held_at heads.now p) i []) p }
{
    let a = &heads[p];
    let b = &heads[q];
    match compare_rows(merge, &a.rows, i, &b.rows, b.at) {
        Ordering::Less => true,
        Ordering::Equal => p < q,
        Ordering::Greater => false,
    }
}

// The place of producer p, which has a row, in an order of others.
fn place_of(heads: &[StreamHead], merge: &[OrderEntry], order: &[usize], p: usize) -> usize
    requires alike { AreAlike merge.now heads.now }
    requires order { IsOrder merge.now heads.now order.now }
    requires row { HasRowAt heads.now p }
    requires other { Contains order.now p → ⊥ }
    ensures bound { result ≤ length order.now }
    ensures before { AllWithin (λ q. Precedes merge.now heads.now q p) order.now 0 result }
    ensures behind { AllWithin (λ q. Precedes merge.now heads.now p q) order.now result (length order.now) }
{
    let mut low = 0;
    let mut high = order.len();
    'halves: while low < high {
        let middle = low + (high - low) / 2;
        let q = order[middle];
        if goes_before(heads, merge, q, heads[q].at, p) {
            low = middle + 1;
        } else {
            high = middle;
        }
    }
    low
}

// Puts producer p, which has a row, in its place in an order of others that has room for it.
pub(crate) fn add_to_order(
    heads: &[StreamHead],
    merge: &[OrderEntry],
    order: &mut Vec<usize>,
    p: usize,
)
    requires alike { AreAlike merge.now heads.now }
    requires order { IsOrder merge.now heads.now order.old.items }
    requires row { HasRowAt heads.now p }
    requires other { Contains order.old.items p → ⊥ }
    requires room { vec_len order.old < vec_capacity order.old }
    ensures order { IsOrder merge.now heads.now order.new.items }
    ensures kept { (q : ℕ) → Contains order.old.items q → Contains order.new.items q }
    ensures added { Contains order.new.items p }
{
    let place = place_of(heads, merge, order.as_slice(), p);
    match order.insert(place, p) {
        Ok(()) => {}
        Err(_) => unreachable!(),
    }
}

// Between which two places the rows of producer p that go before the next row of producer q end, by steps that double: those
// up to the first place go before it, and none from the second on. Fewer rows lie between the two than go before the first.
fn gallop(heads: &[StreamHead], merge: &[OrderEntry], p: usize, q: usize) -> (usize, usize)
    requires alike { AreAlike merge.now heads.now }
    requires rises { AllRise merge.now heads.now }
    requires row { HasRowAt heads.now p }
    requires other { HasRowAt heads.now q }
    requires order { Precedes merge.now heads.now p q }
    ensures more { position_at heads.now p < result.0 }
    ensures order { result.0 ≤ result.1 }
    ensures within { result.1 ≤ length (held_at heads.now p) }
    ensures least { (k : ℕ) → position_at heads.now p ≤ k → k < result.0 → is_le (compare_on merge.now (get_or (held_at heads.now p) k []) (next_at heads.now q)) ≡ true }
{
    let at = heads[p].at;
    let count = heads[p].rows.len();
    let mut low = at + 1;
    'doubles: while low - at <= count - low {
        let next = low + (low - at);
        if !goes_before(heads, merge, p, next - 1, q) {
            return (low, next - 1);
        }
        low = next;
    }
    (low, count)
}

// Up to which of its rows producer p goes before the next row of producer q: by galloping, and then by halving.
fn run_before(heads: &[StreamHead], merge: &[OrderEntry], p: usize, q: usize) -> usize
    requires alike { AreAlike merge.now heads.now }
    requires rises { AllRise merge.now heads.now }
    requires row { HasRowAt heads.now p }
    requires other { HasRowAt heads.now q }
    requires order { Precedes merge.now heads.now p q }
    ensures more { position_at heads.now p < result }
    ensures within { result ≤ length (held_at heads.now p) }
    ensures least { (k : ℕ) → position_at heads.now p ≤ k → k < result → is_le (compare_on merge.now (get_or (held_at heads.now p) k []) (next_at heads.now q)) ≡ true }
{
    let (mut low, mut high) = gallop(heads, merge, p, q);
    'halves: while low < high {
        let middle = low + (high - low) / 2;
        if goes_before(heads, merge, p, middle, q) {
            low = middle + 1;
        } else {
            high = middle;
        }
    }
    low
}

// Up to which of its rows the first producer of an order goes before all others.
pub(crate) fn run_end(heads: &[StreamHead], merge: &[OrderEntry], order: &[usize]) -> usize
    requires alike { AreAlike merge.now heads.now }
    requires rises { AllRise merge.now heads.now }
    requires order { IsOrder merge.now heads.now order.now }
    requires some { 0 < length order.now }
    ensures { IsRun merge.now heads.now (drop 1 order.now) (get_or order.now 0 0) result }
{
    let p = order[0];
    if order.len() == 1 {
        return heads[p].rows.len();
    }
    run_before(heads, merge, p, order[1])
}

// The first producer that lacks a row.
pub(crate) fn first_lacking(heads: &[StreamHead]) -> Option<usize>
    ensures { IsMissing heads.now result }
{
    for i in 0..heads.len() {
        if heads[i].lacks() {
            return Some(i);
        }
    }
    None
}

// Heads for the streams of `producers` producers, of which nothing has come yet.
pub(crate) fn new_heads(
    alloc: Global,
    producers: usize,
    types: &[ColType],
) -> Result<Vec<StreamHead>, AllocError>
    ensures many { IfOk result (λ v. length v.items ≡ producers) }
    ensures fresh { IfOk result (λ v. All (IsFresh types.now) v.items) }
{
    let mut heads = Vec::with_capacity(alloc, producers)?;
    for _ in 0..producers {
        heads.push(StreamHead {
            rows: Rows::new(alloc, types)?,
            at: 0,
            ended: false,
        })?;
    }
    Ok(heads)
}
