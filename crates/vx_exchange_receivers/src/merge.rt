//! The merge of sorted streams that still grow: the least row at hand goes first, once each stream that has not ended has one.

ghost use Rattle.std.specs.Prelude.{◌≡◌, ◌≢◌, ◌≤◌, ◌<◌, ◌+◌, ◌++◌, [], ℕ, Bool, List, length, Some, None, true, false, OnOk, IfOk, IfSome};
ghost use Rattle.vx_rows_values.specs.Values.{Row as Cells};
ghost use Rattle.vx_rows_values.specs.Order.{order_columns, sorted};
ghost use Rattle.vx_rows.specs.View.{AreColumns};
ghost use Rattle.vx_plan_nodes.specs.Streams.{Streams};
ghost use Rattle.vx_exchange_receivers.specs.Heads.{SameEnds, ended_at, all_left};
ghost use Rattle.vx_exchange_receivers.specs.Merged.{with_more};
ghost use Rattle.vx_exchange_receivers.specs.Merge.{HasMerged, HasSameShape, AllGiven};

use crate::heads::{StreamHead, add_to_order, first_lacking, new_heads, run_end};
use std::alloc::{AllocError, Global};
use std::marker::Model;
use vx_match_keys::rises;
use vx_rows_values::{ColType, OrderEntry};
use vx_rows_views::Rows;

// Rows are given until there are `MOST` or more.
const MOST: usize = 4096;

// A run of at least `RUN` rows is worth a chunk of its own.
const RUN: usize = 16;

// Calls: `new (put | end | give)*`, and none after an `Err` or after a `put` that returns false.
//
// A merge of sorted streams that still grow. It keeps what is at hand of each, and the producers that have rows in the order
// in which their next rows go. The first of them gives the rows that go before all others. Where these end is found by
// galloping, in steps that double, and then by halving: a long run takes few comparisons, and a run of one row takes one. Then
// the producer is put in its place again, which is found by halving. The order is a plain list of at most 64 numbers: to shift
// these costs less than a comparison of rows, and a tree of losers would compare as often.
pub(crate) struct StreamMerge {
    alloc: Global,
    merge: Vec<OrderEntry>,
    types: Vec<ColType>,
    heads: Vec<StreamHead>,
    order: Vec<usize>,
    missing: Option<usize>,
}

impl Drop for StreamMerge {
    fn drop(self) {
        let StreamMerge {
            alloc: _,
            merge: _,
            types: _,
            heads: _,
            order: _,
            missing: _,
        } = self;
    }
}

impl Model for StreamMerge {
    ghost use Rattle.vx_exchange_receivers.specs.Merge.{MergeView, MergeFits};

    ghost Value = { MergeView };

    ghost view = { λ m. record { merge = m.merge.items; types = m.types.items; heads = m.heads.items; order = m.order.items; missing = m.missing } };

    ghost invariant = { λ m. MergeFits (record { merge = m.merge.items; types = m.types.items; heads = m.heads.items; order = m.order.items; missing = m.missing }) };
}

// The same rows. Where they lie in runs of a few rows each, as those of streams that take turns do, they are copied into one
// table: a chunk for each row would take more memory than the row, and whoever looks for a row goes over the chunks.
fn with_few_chunks(alloc: Global, rows: Rows) -> Result<Rows, AllocError>
    ensures { IfOk result (λ r. r ≡ rows) }
{
    if rows.chunks().len() <= rows.len() / RUN + 1 {
        return Ok(rows);
    }
    Rows::of_table(alloc, rows.gathered(alloc)?)
}

impl StreamMerge {
    // A merge of the streams of `producers` producers by the order `merge`, with rows of `types`. Nothing of them has come yet.
    pub(crate) fn new(
        alloc: Global,
        producers: usize,
        merge: Vec<OrderEntry>,
        types: &[ColType],
    ) -> Result<StreamMerge, AllocError>
        requires { AreColumns (length types.now) (order_columns merge.items) }
        ensures merge { IfOk result (λ m. m.merge ≡ merge.items) }
        ensures types { IfOk result (λ m. m.types ≡ types.now) }
        ensures many { IfOk result (λ m. length m.heads ≡ producers) }
        ensures nothing { IfOk result (λ m. HasMerged m (λ p. false) (λ p. []) []) }
        ensures none_left { IfOk result (λ m. all_left m.heads ≡ 0) }
    {
        let heads = new_heads(alloc, producers, types)?;
        let missing = first_lacking(heads.as_slice());
        Ok(StreamMerge {
            alloc,
            merge,
            types: Vec::from_slice(alloc, types)?,
            heads,
            order: Vec::new(alloc),
            missing,
        })
    }

    // A producer that has not ended and of which no row is at hand: nothing is given before that changes.
    pub(crate) fn missing(&self) -> Option<usize>
        ensures missing { result ≡ self.now.missing }
        ensures within { IfSome result (λ p. p < length self.now.heads) }
        ensures runs { IfSome result (λ p. ended_at self.now.heads p ≡ false) }
    {
        self.missing
    }

    // Gets rows of a producer that lacks one, and returns whether its stream still rises.
    pub(crate) fn put(&mut self, from: usize, rows: Rows) -> Result<bool, AllocError>
        requires missing { self.old.missing ≡ Some from }
        requires types { rows.types ≡ self.old.types }
        requires some { 0 < length rows.rows }
        ensures shape { HasSameShape self.old self.new }
        ensures ends { SameEnds self.old.heads self.new.heads }
        ensures left { IfOk result (λ b. b ≡ true → all_left self.new.heads ≤ all_left self.old.heads + length rows.rows) }
        ensures rises { IfOk result (λ b. b ≡ true → (closed : ℕ → Bool) (came : Streams) (given : List Cells) → HasMerged self.old closed came given → HasMerged self.new closed (with_more came from rows.rows) given) }
        ensures falls { IfOk result (λ b. b ≡ false → (closed : ℕ → Bool) (came : Streams) (given : List Cells) → HasMerged self.old closed came given → sorted self.old.merge (came from ++ rows.rows) ≡ false) }
    {
        let next = self.heads[from].followed_by(self.alloc, rows)?;
        if !rises(&next.rows, &self.merge) {
            return Ok(false);
        }
        self.order.reserve(1)?;
        self.heads[from] = next;
        add_to_order(&self.heads, &self.merge, &mut self.order, from);
        self.missing = first_lacking(&self.heads);
        Ok(true)
    }

    // Notes that a producer that lacks a row has ended.
    pub(crate) fn end(&mut self, from: usize)
        requires { self.old.missing ≡ Some from }
        ensures shape { HasSameShape self.old self.new }
        ensures ended { (p : ℕ) → ended_at self.new.heads p ≡ false → (p ≢ from) × (ended_at self.old.heads p ≡ false) }
        ensures left { all_left self.new.heads ≤ all_left self.old.heads }
        ensures merged { (closed more : ℕ → Bool) (came : Streams) (given : List Cells) → ((p : ℕ) → closed p ≡ true → more p ≡ true) → more from ≡ true → HasMerged self.old closed came given → HasMerged self.new more came given }
    {
        self.heads[from].ended = true;
        self.missing = first_lacking(&self.heads);
    }

    // Gives the least rows at hand, until a producer lacks one or enough were given. None are given once all are.
    pub(crate) fn give(&mut self) -> Result<Rows, AllocError>
        requires { self.old.missing ≡ None }
        ensures shape { HasSameShape self.old self.new }
        ensures ends { SameEnds self.old.heads self.new.heads }
        ensures left { IfOk result (λ r. all_left self.new.heads + length r.rows ≤ all_left self.old.heads) }
        ensures types { IfOk result (λ r. r.types ≡ self.old.types) }
        ensures merged { IfOk result (λ r. (closed : ℕ → Bool) (came : Streams) (given : List Cells) → HasMerged self.old closed came given → HasMerged self.new closed came (given ++ r.rows)) }
        ensures all { IfOk result (λ r. r.rows ≡ [] → AllGiven self.new) }
    {
        let least = self.give_runs()?;
        with_few_chunks(self.alloc, least)
    }

    // The same rows as runs of the producers' rows, each a chunk or more.
    fn give_runs(&mut self) -> Result<Rows, AllocError>
        requires { self.old.missing ≡ None }
        ensures shape { HasSameShape self.old self.new }
        ensures ends { SameEnds self.old.heads self.new.heads }
        ensures left { IfOk result (λ r. all_left self.new.heads + length r.rows ≤ all_left self.old.heads) }
        ensures types { IfOk result (λ r. r.types ≡ self.old.types) }
        ensures merged { IfOk result (λ r. (closed : ℕ → Bool) (came : Streams) (given : List Cells) → HasMerged self.old closed came given → HasMerged self.new closed came (given ++ r.rows)) }
        ensures all { IfOk result (λ r. r.rows ≡ [] → AllGiven self.new) }
    {
        let mut found = Rows::new(self.alloc, &self.types)?;
        'runs: while found.len() < MOST && self.missing.is_none() && !self.order.is_empty() {
            self.give_run(&mut found)?;
        }
        Ok(found)
    }

    // Gives the rows of the first producer that go before those of all others.
    fn give_run(&mut self, found: &mut Rows) -> Result<(), AllocError>
        requires missing { self.old.missing ≡ None }
        requires some { 0 < length self.old.order }
        requires types { found.old.types ≡ self.old.types }
        ensures shape { HasSameShape self.old self.new }
        ensures ends { SameEnds self.old.heads self.new.heads }
        ensures left { OnOk result (all_left self.new.heads + length found.new.rows ≤ all_left self.old.heads + length found.old.rows) }
        ensures types { found.new.types ≡ found.old.types }
        ensures more { OnOk result (length found.old.rows < length found.new.rows) }
        ensures merged { OnOk result ((closed : ℕ → Bool) (came : Streams) (given : List Cells) → HasMerged self.old closed came (given ++ found.old.rows) → HasMerged self.new closed came (given ++ found.new.rows)) }
    {
        let p = self.order[0];
        let to = run_end(&self.heads, &self.merge, &self.order);
        let head = &self.heads[p];
        let run = head.rows.slice(self.alloc, head.at, to)?;
        found.append(run)?;
        self.order.remove(0);
        self.heads[p].at = to;
        let moved = &self.heads[p];
        if moved.has_row() {
            add_to_order(&self.heads, &self.merge, &mut self.order, p);
        } else if !moved.ended {
            self.missing = Some(p);
        }
        Ok(())
    }
}
