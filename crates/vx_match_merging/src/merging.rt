//! The merge join: inputs that are in order on their columns are gone through once, side by side (Blasgen and Eswaran, 1977).

ghost use Rattle.std.specs.Prelude.{◌≡◌, ◌⊎◌, ◌<◌, ◌≤◌, ◌+◌, ◌++◌, ◌&&◌, [], ℕ, List, length, map, cond, true, false, OnOk, IfOk, IfErr};
ghost use Rattle.std.specs.Ordering.{is_lt, is_le};
ghost use Rattle.vx_rows_values.specs.Values.{Row as Cells};
ghost use Rattle.vx_rows_values.specs.Order.{order_columns, sorted};
ghost use Rattle.vx_rows.specs.View.{row, AreColumns, ArePositions};
ghost use Rattle.vx_plan_nodes.specs.Serial.{join_rows};
ghost use Rattle.vx_match_merging.specs.declared.merging.MergeFault.TheVariants.{Falls};
ghost use Rattle.vx_match_merging.specs.declared.merging.MergeNeed.TheVariants as need;
ghost use Rattle.vx_match_merging.specs.Keys.{directions, key_of, key_cmp};
ghost use Rattle.vx_match_merging.specs.AtHand.{lefts_at_hand, rights_at_hand, rows_at_hand, pairs_at_hand};
ghost use Rattle.vx_match_merging.specs.Merged.{HasJoined, IsMerged, HasSameInputs, HasSameShape, HoldsRun, MergeBlame, last_key, merge_need, rows_at, run_rows};

use crate::key_run::{KeyRun, compare_rows, rise_across, run_of};
use crate::numbers::{MergePlace, join_numbers, read_keys};
use crate::side_by_side::{MatchedPositions, add_pairs, pair_rows};
use std::alloc::{AllocError, Global};
use std::cmp::Ordering;
use std::marker::Model;
use vx_match_keys::rises;
use vx_rows_values::{ColType, OrderEntry};
use vx_rows_views::Rows;

// All rows at hand are joined `MOST` at a time.
const MOST: usize = 8192;

// How many numbers of each input are read at once.
const BLOCK: usize = 128;

/// Why a merge stops.
#[derive(Clone, Copy, PartialEq, Eq)]
pub enum MergeFault {
    /// A row goes before an earlier one of its input, in the order that its input must have.
    Falls,
    /// Out of memory.
    NoMemory,
}

impl From<AllocError> for MergeFault {
    ghost use Rattle.std.specs.Prelude.{◌≡◌};
    ghost use Rattle.vx_match_merging.specs.declared.merging.MergeFault.TheVariants.{NoMemory};

    ghost from_gives = { λ _ e. e ≡ NoMemory };

    fn from(_e: AllocError) -> MergeFault {
        MergeFault::NoMemory
    }
}

/// What a merge needs before it can go on.
#[derive(Clone, Copy, PartialEq, Eq)]
pub enum MergeNeed {
    /// Nothing: it can join rows that are at hand.
    Nothing,
    /// A batch of the left input, or that it has ended.
    Left,
    /// A batch of the right input, or that it has ended.
    Right,
    /// Nothing more: both inputs have ended, and all rows were joined.
    End,
}

/// Calls: `new (take_left | end_left | take_right | end_right | join_some)*`, and none after an `Err`.
///
/// A merge of two inputs that come in batches, each in its order. It keeps the batch at hand of each, and of the right rows before that only
/// those with the key of the left row at hand.
pub struct MergeRows {
    alloc: Global,
    left_order: Vec<OrderEntry>,
    right_order: Vec<OrderEntry>,
    left: Rows,
    next: usize,
    right: Rows,
    start: usize,
    end: usize,
    left_ended: bool,
    right_ended: bool,
}

impl Drop for MergeRows {
    fn drop(self) {
        let MergeRows {
            alloc: _,
            left_order: _,
            right_order: _,
            left: _,
            next: _,
            right: _,
            start: _,
            end: _,
            left_ended: _,
            right_ended: _,
        } = self;
    }
}

impl Model for MergeRows {
    ghost use Rattle.std.specs.Prelude.{◌≡◌, ◌≤◌, length, true};
    ghost use Rattle.vx_rows_values.specs.Order.{order_columns, sorted};
    ghost use Rattle.vx_rows.specs.View.{AreColumns};
    ghost use Rattle.vx_match_merging.specs.Keys.{directions};
    ghost use Rattle.vx_match_merging.specs.Merged.{MergeView};

    ghost Value = { MergeView };

    ghost view = { λ m. record { lefts = m.left_order.items; rights = m.right_order.items; left = m.left; next = m.next; right = m.right; start = m.start; end = m.end; left_ended = m.left_ended; right_ended = m.right_ended } };

    ghost invariant = { λ m. AreColumns (length m.left.types) (order_columns m.left_order.items) × AreColumns (length m.right.types) (order_columns m.right_order.items)
        × (m.next ≤ length m.left.rows) × (m.start ≤ m.end) × (m.end ≤ length m.right.rows)
        × (sorted m.left_order.items m.left.rows ≡ true) × (directions m.left_order.items ≡ directions m.right_order.items) };
}

impl MergeRows {
    /// A merge to which nothing came, with the orders and the types of both inputs. The orders have the same directions.
    pub fn new(
        alloc: Global,
        left_order: Vec<OrderEntry>,
        left_types: &[ColType],
        right_order: Vec<OrderEntry>,
        right_types: &[ColType],
    ) -> Result<MergeRows, AllocError>
        requires left { AreColumns (length left_types.now) (order_columns left_order.items) }
        requires right { AreColumns (length right_types.now) (order_columns right_order.items) }
        requires alike { directions left_order.items ≡ directions right_order.items }
        ensures lefts { IfOk result (λ m. m.lefts ≡ left_order.items) }
        ensures rights { IfOk result (λ m. m.rights ≡ right_order.items) }
        ensures left { IfOk result (λ m. m.left.types ≡ left_types.now) }
        ensures right { IfOk result (λ m. m.right.types ≡ right_types.now) }
        ensures left_ended { IfOk result (λ m. m.left_ended ≡ false) }
        ensures right_ended { IfOk result (λ m. m.right_ended ≡ false) }
        ensures next { IfOk result (λ m. m.next ≡ length m.left.rows) }
        ensures nothing { IfOk result (λ m. HasJoined m [] [] []) }
    {
        let left = Rows::new(alloc, left_types)?;
        let right = Rows::new(alloc, right_types)?;
        Ok(MergeRows {
            alloc,
            left_order,
            right_order,
            left,
            next: 0,
            right,
            start: 0,
            end: 0,
            left_ended: false,
            right_ended: false,
        })
    }

    /// What it needs before it can go on.
    pub fn needs(&self) -> MergeNeed
        ensures { result ≡ merge_need self.now }
    {
        if self.next < self.left.len() {
            if self.right_ended || self.end < self.right.len() {
                return MergeNeed::Nothing;
            }
            return MergeNeed::Right;
        }
        if !self.left_ended {
            return MergeNeed::Left;
        }
        if self.right_ended {
            return MergeNeed::End;
        }
        MergeNeed::Right
    }

    /// Gets a further batch of the left input, once all left rows at hand were joined.
    pub fn take_left(&mut self, batch: Rows) -> Result<(), MergeFault>
        requires typed { batch.types ≡ self.old.left.types }
        requires joined { length self.old.left.rows ≤ self.old.next }
        ensures shape { HasSameShape self.old self.new }
        ensures left_ended { self.new.left_ended ≡ self.old.left_ended }
        ensures right_ended { self.new.right_ended ≡ self.old.right_ended }
        ensures joined { OnOk result (self.old.left_ended ≡ false → (ls rs ys : List Cells) → HasJoined self.old ls rs ys → HasJoined self.new (ls ++ batch.rows) rs ys) }
        ensures lefts { OnOk result (lefts_at_hand self.new ≤ lefts_at_hand self.old + length batch.rows) }
        ensures right { self.new.right ≡ self.old.right }
        ensures end { self.new.end ≡ self.old.end }
        ensures err { IfErr result (λ e. self.old.left_ended ≡ false → (ls rs ys : List Cells) → HasJoined self.old ls rs ys → MergeBlame e (sorted self.old.lefts (ls ++ batch.rows))) }
    {
        if batch.is_empty() {
            return Ok(());
        }
        let order = self.order_of_next(&batch);
        if !rises(&batch, &self.left_order) {
            return Err(MergeFault::Falls);
        }
        self.start = run_start(order, self.start, self.end)?;
        self.left = batch;
        self.next = 0;
        Ok(())
    }

    /// Notes that the left input has ended.
    pub fn end_left(&mut self)
        ensures shape { HasSameShape self.old self.new }
        ensures left_ended { self.new.left_ended ≡ true }
        ensures right_ended { self.new.right_ended ≡ self.old.right_ended }
        ensures joined { (ls rs ys : List Cells) → HasJoined self.old ls rs ys → HasJoined self.new ls rs ys }
        ensures same { self.new ≡ record self.old { left_ended = true } }
    {
        self.left_ended = true;
    }

    /// Gets a further batch of the right input.
    pub fn take_right(&mut self, batch: Rows) -> Result<(), MergeFault>
        requires typed { batch.types ≡ self.old.right.types }
        ensures shape { HasSameShape self.old self.new }
        ensures left_ended { self.new.left_ended ≡ self.old.left_ended }
        ensures right_ended { self.new.right_ended ≡ self.old.right_ended }
        ensures joined { OnOk result (self.old.right_ended ≡ false → (ls rs ys : List Cells) → HasJoined self.old ls rs ys → HasJoined self.new ls (rs ++ batch.rows) ys) }
        ensures left { self.new.left ≡ self.old.left }
        ensures next { self.new.next ≡ self.old.next }
        ensures held { OnOk result (length self.new.right.rows ≤ length self.old.right.rows + length batch.rows) }
        ensures rights { OnOk result (rights_at_hand self.new ≤ rights_at_hand self.old + length batch.rows) }
        ensures err { IfErr result (λ e. (ls rs ys : List Cells) → HasJoined self.old ls rs ys → MergeBlame e (sorted self.old.rights (rs ++ batch.rows))) }
    {
        self.drop_passed()?;
        if !rises(&batch, &self.right_order) {
            return Err(MergeFault::Falls);
        }
        let from = self.right.len();
        self.right.append(batch)?;
        if !rise_across(&self.right, from, &self.right_order) {
            return Err(MergeFault::Falls);
        }
        Ok(())
    }

    /// Notes that the right input has ended.
    pub fn end_right(&mut self)
        ensures shape { HasSameShape self.old self.new }
        ensures left_ended { self.new.left_ended ≡ self.old.left_ended }
        ensures right_ended { self.new.right_ended ≡ true }
        ensures joined { (ls rs ys : List Cells) → HasJoined self.old ls rs ys → HasJoined self.new ls rs ys }
        ensures same { self.new ≡ record self.old { right_ended = true } }
    {
        self.right_ended = true;
    }

    /// Joins left rows at hand whose right rows have all come, until the joined rows are `most` or more, and returns them.
    ///
    /// Where it needs nothing it goes on: it joins a left row, or passes a right row.
    pub fn join_some(&mut self, most: usize) -> Result<Rows, MergeFault>
        ensures inputs { HasSameInputs self.old self.new }
        ensures next { self.old.next ≤ self.new.next }
        ensures end { self.old.end ≤ self.new.end }
        ensures goes_on { OnOk result (0 < most → merge_need self.old ≡ need.Nothing → rows_at_hand self.new < rows_at_hand self.old) }
        ensures fewer { IfOk result (λ r. pairs_at_hand self.new + length r.rows ≤ pairs_at_hand self.old) }
        ensures types { IfOk result (λ r. r.types ≡ self.old.left.types ++ self.old.right.types) }
        ensures joined { IfOk result (λ r. (ls rs ys : List Cells) → HasJoined self.old ls rs ys → HasJoined self.new ls rs (ys ++ r.rows)) }
        ensures err { IfErr result (λ e. (ls rs ys : List Cells) → HasJoined self.old ls rs ys → MergeBlame e (sorted self.old.lefts ls)) }
    {
        let mut pairs = MatchedPositions {
            left: Vec::new(self.alloc),
            right: Vec::new(self.alloc),
        };
        self.join_blocks(&mut pairs, most)?;
        while self.join_next(&mut pairs, most)? {
            self.skip_unmatched();
            self.join_blocks(&mut pairs, most)?;
        }
        Ok(pair_rows(self.alloc, &self.left, &self.right, &pairs)?)
    }

    // Joins all left rows at hand, where the right input has ended: some at a time, which takes less memory at once.
    fn join_all(&mut self) -> Result<Rows, MergeFault>
        requires { self.old.right_ended ≡ true }
        ensures inputs { HasSameInputs self.old self.new }
        ensures all { OnOk result (length self.new.left.rows ≤ self.new.next) }
        ensures types { IfOk result (λ r. r.types ≡ self.old.left.types ++ self.old.right.types) }
        ensures joined { IfOk result (λ r. (ls rs ys : List Cells) → HasJoined self.old ls rs ys → HasJoined self.new ls rs (ys ++ r.rows)) }
        ensures err { IfErr result (λ e. (ls rs ys : List Cells) → HasJoined self.old ls rs ys → MergeBlame e (sorted self.old.lefts ls)) }
    {
        let mut joined = self.join_some(MOST)?;
        while self.needs() == MergeNeed::Nothing {
            joined.append(self.join_some(MOST)?)?;
        }
        Ok(joined)
    }

    // Joins rows at hand by their numbers, where their keys are that, until fewer than two left rows or no right row of the
    // chunks in which they lie are left, or `most` pairs or more were made.
    fn join_blocks(&mut self, pairs: &mut MatchedPositions, most: usize) -> Result<(), AllocError>
        requires many { length pairs.old.left.items ≡ length pairs.old.right.items }
        requires left { ArePositions (length self.old.left.rows) pairs.old.left.items }
        requires right { ArePositions (length self.old.right.rows) pairs.old.right.items }
        ensures inputs { HasSameInputs self.old self.new }
        ensures many { OnOk result (length pairs.new.left.items ≡ length pairs.new.right.items) }
        ensures left { OnOk result (ArePositions (length self.old.left.rows) pairs.new.left.items) }
        ensures right { OnOk result (ArePositions (length self.old.right.rows) pairs.new.right.items) }
        ensures next { self.old.next ≤ self.new.next }
        ensures end { self.old.end ≤ self.new.end }
        ensures begun { OnOk result ((rows_at_hand self.new < rows_at_hand self.old) ⊎ ((self.new ≡ self.old) × (pairs.new ≡ pairs.old))) }
        ensures fewer { OnOk result (pairs_at_hand self.new + length pairs.new.left.items ≤ pairs_at_hand self.old + length pairs.old.left.items) }
        ensures joined { OnOk result ((earlier passed ys : List Cells) → IsMerged self.old earlier passed (ys ++ rows_at self.old.left self.old.right pairs.old.left.items pairs.old.right.items)
            → IsMerged self.new earlier passed (ys ++ rows_at self.old.left self.old.right pairs.new.left.items pairs.new.right.items)) }
    {
        let mut lefts = [0; BLOCK];
        let mut rights = [0; BLOCK];
        while self.join_block(pairs, most, &mut lefts, &mut rights)? {}
        Ok(())
    }

    // Joins the rows of which the numbers are read at once, and returns whether it went on behind any row.
    fn join_block(
        &mut self,
        pairs: &mut MatchedPositions,
        most: usize,
        lefts: &mut [i64],
        rights: &mut [i64],
    ) -> Result<bool, AllocError>
        requires many { length pairs.old.left.items ≡ length pairs.old.right.items }
        requires left { ArePositions (length self.old.left.rows) pairs.old.left.items }
        requires right { ArePositions (length self.old.right.rows) pairs.old.right.items }
        ensures inputs { HasSameInputs self.old self.new }
        ensures many { OnOk result (length pairs.new.left.items ≡ length pairs.new.right.items) }
        ensures left { OnOk result (ArePositions (length self.old.left.rows) pairs.new.left.items) }
        ensures right { OnOk result (ArePositions (length self.old.right.rows) pairs.new.right.items) }
        ensures next { self.old.next ≤ self.new.next }
        ensures end { self.old.end ≤ self.new.end }
        ensures moved { IfOk result (λ b. b ≡ true → rows_at_hand self.new < rows_at_hand self.old) }
        ensures still { IfOk result (λ b. b ≡ false → (self.new ≡ self.old) × (pairs.new ≡ pairs.old)) }
        ensures fewer { OnOk result (pairs_at_hand self.new + length pairs.new.left.items ≤ pairs_at_hand self.old + length pairs.old.left.items) }
        ensures joined { OnOk result ((earlier passed ys : List Cells) → IsMerged self.old earlier passed (ys ++ rows_at self.old.left self.old.right pairs.old.left.items pairs.old.right.items)
            → IsMerged self.new earlier passed (ys ++ rows_at self.old.left self.old.right pairs.new.left.items pairs.new.right.items)) }
    {
        if self.left_order.len() != 1 {
            return Ok(false);
        }
        let falling = self.left_order[0].falling;
        let left_count = read_keys(&self.left, &self.left_order, self.next, lefts);
        let right_count = read_keys(&self.right, &self.right_order, self.end, rights);
        let from = MergePlace {
            next: self.next,
            start: self.start,
            end: self.end,
        };
        let (lefts, rights) = (&lefts[..left_count], &rights[..right_count]);
        let to = join_numbers(pairs, most, lefts, rights, falling, from)?;
        self.next = to.next;
        self.start = to.start;
        self.end = to.end;
        Ok(from.next < to.next || from.end < to.end)
    }

    // Joins the next left row with its run, where that is at hand as a whole and fewer than `most` pairs were made, and
    // returns whether it did.
    fn join_next(&mut self, pairs: &mut MatchedPositions, most: usize) -> Result<bool, MergeFault>
        requires many { length pairs.old.left.items ≡ length pairs.old.right.items }
        requires left { ArePositions (length self.old.left.rows) pairs.old.left.items }
        requires right { ArePositions (length self.old.right.rows) pairs.old.right.items }
        ensures inputs { HasSameInputs self.old self.new }
        ensures many { OnOk result (length pairs.new.left.items ≡ length pairs.new.right.items) }
        ensures left { OnOk result (ArePositions (length self.old.left.rows) pairs.new.left.items) }
        ensures right { OnOk result (ArePositions (length self.old.right.rows) pairs.new.right.items) }
        ensures moved { IfOk result (λ b. b ≡ true → (self.new.next ≡ self.old.next + 1) × (self.new.next ≤ length self.old.left.rows)) }
        ensures next { self.old.next ≤ self.new.next }
        ensures end { self.old.end ≤ self.new.end }
        ensures stopped { IfOk result (λ b. b ≡ false → length pairs.old.left.items < most → merge_need self.old ≡ need.Nothing → rights_at_hand self.new < rights_at_hand self.old) }
        ensures fewer { OnOk result (pairs_at_hand self.new + length pairs.new.left.items ≤ pairs_at_hand self.old + length pairs.old.left.items) }
        ensures joined { OnOk result ((earlier passed ys : List Cells) → IsMerged self.old earlier passed (ys ++ rows_at self.old.left self.old.right pairs.old.left.items pairs.old.right.items)
            → IsMerged self.new earlier passed (ys ++ rows_at self.old.left self.old.right pairs.new.left.items pairs.new.right.items)) }
        ensures err { IfErr result (λ e. (earlier passed ys : List Cells) → IsMerged self.old earlier passed ys → MergeBlame e (sorted self.old.lefts (earlier ++ self.old.left.rows))) }
    {
        if pairs.left.len() >= most || self.next >= self.left.len() {
            return Ok(false);
        }
        if !self.close_run() {
            return Ok(false);
        }
        add_pairs(pairs, self.next, self.start, self.end)?;
        self.advance();
        Ok(true)
    }

    // Moves the run on to the key of the next left row, and returns whether all its rows are at hand.
    fn close_run(&mut self) -> bool
        requires { self.old.next < length self.old.left.rows }
        ensures inputs { HasSameInputs self.old self.new }
        ensures next { self.new.next ≡ self.old.next }
        ensures end { self.old.end ≤ self.new.end }
        ensures order { self.new.start ≤ self.new.end }
        ensures within { self.new.end ≤ length self.new.right.rows }
        ensures waits { result ≡ false → (self.new.right_ended ≡ false) × (length self.new.right.rows ≤ self.new.end) }
        ensures kept { (earlier passed ys : List Cells) → IsMerged self.old earlier passed ys → IsMerged self.new earlier passed ys }
        ensures run { result ≡ true → (earlier passed ys : List Cells) → IsMerged self.old earlier passed ys → HoldsRun self.new passed }
    {
        let run = run_of(
            &self.left,
            self.next,
            &self.left_order,
            &self.right,
            &self.right_order,
            KeyRun {
                start: self.start,
                end: self.end,
            },
        );
        self.start = run.start;
        self.end = run.end;
        self.right_ended || self.end < self.right.len()
    }

    // Goes on behind the next left row, which was joined with its run.
    fn advance(&mut self)
        requires { self.old.next < length self.old.left.rows }
        ensures inputs { HasSameInputs self.old self.new }
        ensures next { self.new.next ≡ self.old.next + 1 }
        ensures end { self.new.end ≡ self.old.end }
        ensures joined { (earlier passed ys : List Cells) → IsMerged self.old earlier passed ys → HoldsRun self.old passed → IsMerged self.new earlier passed (ys ++ run_rows self.old) }
    {
        let count = self.left.len();
        let next = self.next + 1;
        // no key follows at hand, or the run is empty and stays so: the next key does not go before this one
        if next >= count || self.start >= self.end {
            self.next = next;
            return;
        }
        let order = &self.left_order;
        let step = compare_rows(&self.left, self.next, order, &self.left, next, order);
        // a later key has a new run, behind this one
        if step.is_lt() {
            self.start = self.end;
        }
        self.next = next;
    }

    // Goes on behind all left rows at hand, where the right input has ended and all its rows go before the next left row:
    // as left rows rise, none of them has a match.
    fn skip_unmatched(&mut self)
        ensures inputs { HasSameInputs self.old self.new }
        ensures next { self.old.next ≤ self.new.next }
        ensures end { self.new.end ≡ self.old.end }
        ensures all { self.old.right_ended ≡ true → length self.old.right.rows ≤ self.old.start → self.new.next ≡ length self.old.left.rows }
        ensures joined { (earlier passed ys : List Cells) → IsMerged self.old earlier passed ys → IsMerged self.new earlier passed ys }
    {
        if self.right_ended && self.start >= self.right.len() {
            self.next = self.left.len();
        }
    }

    // Compares the key of the last left row at hand with that of the first of a batch. Where no left row came yet, that
    // key is the empty one.
    fn order_of_next(&self, batch: &Rows) -> Ordering
        requires row { 0 < length batch.now.rows }
        requires typed { batch.now.types ≡ self.now.left.types }
        ensures { result ≡ key_cmp (directions self.now.lefts) (last_key self.now.lefts self.now.left.rows) (key_of self.now.lefts (row batch.now 0)) }
    {
        let order = &self.left_order;
        if self.left.is_empty() {
            return 0.cmp(&order.len());
        }
        compare_rows(&self.left, self.left.len() - 1, order, batch, 0, order)
    }

    // Drops the right rows that are not needed any more. The last one is kept: the next must not go before it.
    fn drop_passed(&mut self) -> Result<(), AllocError>
        ensures shape { HasSameShape self.old self.new }
        ensures left { self.new.left ≡ self.old.left }
        ensures next { self.new.next ≡ self.old.next }
        ensures held { length self.new.right.rows ≤ length self.old.right.rows }
        ensures rights { rights_at_hand self.new ≤ rights_at_hand self.old }
        ensures left_ended { self.new.left_ended ≡ self.old.left_ended }
        ensures right_ended { self.new.right_ended ≡ self.old.right_ended }
        ensures joined { OnOk result ((ls rs ys : List Cells) → HasJoined self.old ls rs ys → HasJoined self.new ls rs ys) }
    {
        let passed = self.passed();
        if passed == 0 {
            return Ok(());
        }
        self.right = self.right.slice(self.alloc, passed, self.right.len())?;
        self.start = self.start.saturating_sub(passed);
        self.end = self.end.saturating_sub(passed);
        Ok(())
    }

    // How many right rows are not needed any more: those before the run, or where no left row follows, all but the last.
    fn passed(&self) -> usize
        ensures none { length self.now.right.rows ≡ 0 → result ≡ 0 }
        ensures some { 0 < length self.now.right.rows → result < length self.now.right.rows }
        ensures run { (self.now.left_ended ≡ true → self.now.next < length self.now.left.rows) → result ≤ self.now.start }
    {
        let most = self.right.len().saturating_sub(1);
        if self.left_ended && self.next >= self.left.len() {
            return most;
        }
        self.start.min(most)
    }
}

// Where the run starts after a left row that compares so with the one before it: a greater one has a new run.
fn run_start(order: Ordering, start: usize, end: usize) -> Result<usize, MergeFault>
    ensures ok { IfOk result (λ s. s ≡ cond (is_lt order) end start) }
    ensures rises { OnOk result (is_le order ≡ true) }
    ensures err { IfErr result (λ e. (e ≡ Falls) × (is_le order ≡ false)) }
{
    match order {
        Ordering::Less => Ok(end),
        Ordering::Equal => Ok(start),
        Ordering::Greater => Err(MergeFault::Falls),
    }
}

/// Each left row joined with the right rows that agree with it on the pairs of columns, where both inputs are in
/// order on them, in the same directions: in the order of the left rows, and for one left row in the order of the right rows.
///
/// Both inputs are read to their end: it fails if one of them falls, wherever that is.
pub fn merge_join(
    alloc: Global,
    left: &Rows,
    left_order: &[OrderEntry],
    right: &Rows,
    right_order: &[OrderEntry],
) -> Result<Rows, MergeFault>
    requires left { AreColumns (length left.now.types) (order_columns left_order.now) }
    requires right { AreColumns (length right.now.types) (order_columns right_order.now) }
    requires alike { directions left_order.now ≡ directions right_order.now }
    ensures types { IfOk result (λ r. r.types ≡ left.now.types ++ right.now.types) }
    ensures rows { IfOk result (λ r. (on : List (ℕ × ℕ)) → order_columns left_order.now ≡ map (λ p. p.0) on → order_columns right_order.now ≡ map (λ p. p.1) on → r.rows ≡ join_rows on left.now.rows right.now.rows) }
    ensures rise { OnOk result ((sorted left_order.now left.now.rows && sorted right_order.now right.now.rows) ≡ true) }
    ensures err { IfErr result (λ e. MergeBlame e (sorted left_order.now left.now.rows && sorted right_order.now right.now.rows)) }
{
    let lefts = Vec::from_slice(alloc, left_order)?;
    let rights = Vec::from_slice(alloc, right_order)?;
    let mut merge = MergeRows::new(alloc, lefts, left.types(), rights, right.types())?;
    merge.take_left(left.slice(alloc, 0, left.len())?)?;
    merge.take_right(right.slice(alloc, 0, right.len())?)?;
    merge.end_right();
    merge.join_all()
}
