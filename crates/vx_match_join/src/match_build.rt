//! The semi and the anti join: the left rows that some right row matches, or those that none does.

ghost use Rattle.std.specs.Prelude.{◌≡◌, ◌<◌, ◌≤◌, ◌+◌, ◌++◌, [], ℕ, List, length, map, take, filter, slice_index_or, slice_range, OnOk, IfOk};
ghost use Rattle.std.specs.List.{list_any, position_or_len};
ghost use Rattle.vx_rows_values.specs.Values.{Row, row_eq, pick};
ghost use Rattle.vx_rows.specs.View.{row, AreColumns, ArePositions};
ghost use Rattle.vx_rows_views.specs.Selected.{places_of};
ghost use Rattle.vx_plan_nodes.specs.Conditions.{conditions_of};
ghost use Rattle.vx_plan_nodes.specs.Serial.{passes, matched_rows};
ghost use Rattle.vx_match_join.specs.Matching.{match_op, op_of_matching, HasMatchRead, HasMatchBuilt, meets, keeps};
ghost use Rattle.vx_match_join.specs.Parts.{listed_places};

use crate::conditions::all_hold;
use crate::join::{block_end, index_rows};
use crate::key_places::{KeyPlaces, KeyPositions};
use std::alloc::{AllocError, Global};
use std::marker::Model;
use vx_match_keys::Keys;
use vx_ops_kernels::{left_columns, right_columns};
use vx_plan_nodes::Condition;
use vx_rows_values::{ColType, KeySeed};
use vx_rows_views::{Chunk, Rows, places_are_a_filter, push_place_if};

/// Which rows of its left input a semi or an anti join keeps: those that some right row matches, or, where `matched` is false, those
/// that none does. A right row matches that agrees on these pairs of a left and a right column, if all conditions hold of the left
/// row's columns and then the right one's.
pub struct Matching {
    pub matched: bool,
    pub on: Vec<(usize, usize)>,
    pub conditions: Vec<Condition>,
}

impl Drop for Matching {
    fn drop(self) {
        let Matching {
            matched: _,
            on: _,
            conditions: _,
        } = self;
    }
}

/// Calls: `of add* finish probe*`, and none after an `Err`.
///
/// The build side of a semi or an anti join. Where there are no conditions it keeps the keys of the right rows, each once, and
/// nothing else of them. Where there are, it keeps the right rows and the places of the rows of each key: after `finish` in one
/// chunk.
pub struct MatchBuild {
    alloc: Global,
    seed: KeySeed,
    matching: Matching,
    left_columns: Vec<usize>,
    right_columns: Vec<usize>,
    read: Rows,
    keys: Keys,
    places: KeyPlaces,
    rows: Rows,
}

impl Drop for MatchBuild {
    fn drop(self) {
        let MatchBuild {
            alloc: _,
            seed: _,
            matching: _,
            left_columns: _,
            right_columns: _,
            read: _,
            keys: _,
            places: _,
            rows: _,
        } = self;
    }
}

impl Model for MatchBuild {
    ghost use Rattle.vx_plan_nodes.specs.Conditions.{conditions_of};
    ghost use Rattle.vx_match_join.specs.Matching.{MatchView, IsMatching};
    ghost use Rattle.vx_match_join.specs.Parts.{places_in};

    ghost Value = { MatchView };

    ghost view = { λ b. record { matched = b.matching.matched; on = b.matching.on.items; conditions = conditions_of b.matching.conditions.items; types = b.read.types; read = b.read.rows; keys = b.keys; rows = b.rows.rows } };

    ghost invariant = { λ b. IsMatching b.matching.on.items b.left_columns.items b.right_columns.items (conditions_of b.matching.conditions.items) b.read.types b.keys (places_in b.places) b.rows.rows };
}

// The same rows in one chunk: all are copied where they lie in several.
fn in_one_chunk(alloc: Global, rows: &Rows) -> Result<Rows, AllocError>
    ensures { IfOk result (λ r. r ≡ rows.now) }
{
    if rows.chunks().len() <= 1 {
        return rows.slice(alloc, 0, rows.len());
    }
    let table = rows.gathered(alloc)?;
    Ok(Rows::of_table(alloc, table)?)
}

impl MatchBuild {
    /// No right row yet, of rows of these types. Keys are hashed by the seed.
    pub fn of(
        alloc: Global,
        seed: KeySeed,
        matching: Matching,
        right: &[ColType],
    ) -> Result<MatchBuild, AllocError>
        requires { AreColumns (length right.now) (map (λ (p : ℕ × ℕ). p.1) matching.on.items) }
        ensures read { IfOk result (λ b. HasMatchRead b []) }
        ensures op { IfOk result (λ b. match_op b ≡ op_of_matching matching) }
        ensures types { IfOk result (λ b. b.types ≡ right.now) }
    {
        let left_columns = left_columns(alloc, matching.on.as_slice())?;
        let right_columns = right_columns(alloc, matching.on.as_slice())?;
        Ok(MatchBuild {
            alloc,
            seed,
            matching,
            left_columns,
            right_columns,
            read: Rows::new(alloc, right)?,
            keys: Keys::new(alloc, seed),
            places: KeyPlaces::none(),
            rows: Rows::new(alloc, right)?,
        })
    }

    /// The types of the right rows.
    pub fn types(&self) -> &[ColType]
        ensures { result.now ≡ self.now.types }
    {
        self.read.types()
    }

    /// Adds right rows.
    pub fn add(&mut self, batch: Rows) -> Result<(), AllocError>
        requires { batch.types ≡ self.old.types }
        ensures read { OnOk result ((rs : List Row) → HasMatchRead self.old rs → HasMatchRead self.new (rs ++ batch.rows)) }
        ensures op { match_op self.new ≡ match_op self.old }
        ensures types { self.new.types ≡ self.old.types }
    {
        if self.matching.conditions.is_empty() {
            self.keys.number_all(&batch, self.right_columns.as_slice())?;
            return Ok(());
        }
        self.read.append(batch)
    }

    /// Makes the build side ready, of all rows that were added.
    pub fn finish(&mut self) -> Result<(), AllocError>
        ensures built { OnOk result ((rs : List Row) → HasMatchRead self.old rs → HasMatchBuilt self.new rs) }
        ensures op { match_op self.new ≡ match_op self.old }
        ensures types { self.new.types ≡ self.old.types }
    {
        if self.matching.conditions.is_empty() {
            return Ok(());
        }
        let rows = in_one_chunk(self.alloc, &self.read)?;
        let columns = self.right_columns.as_slice();
        let (keys, places) = index_rows(self.alloc, self.seed, &rows, columns)?;
        self.keys = keys;
        self.places = places;
        self.rows = rows;
        self.read.clear();
        Ok(())
    }

    // Whether the conditions hold of row i of a chunk and a right row at one of these places. It ends at the first.
    fn some_listed_passes(&self, chunk: &Chunk, i: usize, places: &[usize]) -> bool
        requires row { i < length chunk.now.rows }
        requires there { ArePositions (length self.now.rows) places.now }
        ensures { result ≡ list_any (λ p. passes self.now.conditions (row chunk.now i ++ slice_index_or self.now.rows p [])) places.now }
    {
        let conditions = self.matching.conditions.as_slice();
        for k in 0..places.len() {
            if all_hold(conditions, chunk, i, &self.rows, places[k]) {
                return true;
            }
        }
        false
    }

    // The same of the places of the right rows of a key.
    fn some_passes(&self, chunk: &Chunk, i: usize, places: KeyPositions<'_>) -> bool
        requires row { i < length chunk.now.rows }
        requires there { ArePositions (length self.now.rows) (listed_places places) }
        ensures { result ≡ list_any (λ p. passes self.now.conditions (row chunk.now i ++ slice_index_or self.now.rows p [])) (listed_places places.entry) }
    {
        match places {
            KeyPositions::None => false,
            KeyPositions::One(place) => {
                let conditions = self.matching.conditions.as_slice();
                all_hold(conditions, chunk, i, &self.rows, place)
            }
            KeyPositions::Listed(places) => self.some_listed_passes(chunk, i, places),
        }
    }

    // Whether some right row matches row i of a chunk, whose key has this number, or one behind those of all keys where no right
    // row has it.
    fn is_matched(&self, chunk: &Chunk, i: usize, number: usize) -> bool
        requires row { i < length chunk.now.rows }
        requires number { number ≡ position_or_len (row_eq (pick (map (λ p. p.0) self.now.on) (row chunk.now i))) self.now.keys }
        ensures { result ≡ meets self.now.conditions self.now.on self.now.keys self.now.rows (row chunk.now i) }
    {
        if number >= self.keys.len() {
            return false;
        }
        if self.matching.conditions.is_empty() {
            return true;
        }
        self.some_passes(chunk, i, self.places.get(number))
    }

    // Adds the places of the rows of a chunk from `from` up to `to` that are kept. Their keys have these numbers.
    fn push_kept(
        &self,
        places: &mut Vec<usize>,
        chunk: &Chunk,
        from: usize,
        to: usize,
        numbers: &[usize],
    ) -> Result<(), AllocError>
        requires block { from + length numbers.now ≡ to }
        requires within { to ≤ length chunk.now.rows }
        requires numbers { numbers.now ≡ map (λ r. position_or_len (row_eq (pick (map (λ p. p.0) self.now.on) r)) self.now.keys) (slice_range chunk.now.rows from to) }
        requires before { places.old.items ≡ places_of (keeps self.now) (take from chunk.now.rows) }
        ensures { OnOk result (places.new.items ≡ places_of (keeps self.now) (take to chunk.now.rows)) }
    {
        for i in 0..numbers.len() {
            let kept = self.is_matched(chunk, from + i, numbers[i]) == self.matching.matched;
            push_place_if(places, from + i, kept)?;
        }
        Ok(())
    }

    // The numbers of the keys of the rows of a block.
    fn find_numbers(&self, block: &Chunk) -> Result<Vec<usize>, AllocError>
        requires { AreColumns (length block.now.types) (map (λ (p : ℕ × ℕ). p.0) self.now.on) }
        ensures { IfOk result (λ v. v.items ≡ map (λ r. position_or_len (row_eq (pick (map (λ p. p.0) self.now.on) r)) self.now.keys) block.now.rows) }
    {
        self.keys.find_all(block, self.left_columns.as_slice())
    }

    // Adds the places of the rows that are kept of a block that starts at row `from`, and returns its end.
    fn push_block(
        &self,
        places: &mut Vec<usize>,
        chunk: &Chunk,
        from: usize,
    ) -> Result<usize, AllocError>
        requires columns { AreColumns (length chunk.now.types) (map (λ (p : ℕ × ℕ). p.0) self.now.on) }
        requires there { from < length chunk.now.rows }
        requires before { places.old.items ≡ places_of (keeps self.now) (take from chunk.now.rows) }
        ensures more { IfOk result (λ to. from < to) }
        ensures within { IfOk result (λ to. to ≤ length chunk.now.rows) }
        ensures places { IfOk result (λ to. places.new.items ≡ places_of (keeps self.now) (take to chunk.now.rows)) }
    {
        let to = block_end(from, chunk.len());
        let block = chunk.slice(self.alloc, from, to)?;
        let numbers = self.find_numbers(&block)?;
        self.push_kept(places, chunk, from, to, numbers.as_slice())?;
        Ok(to)
    }

    // The rows of a chunk that are kept. Where all are, no list of places is made.
    fn kept_of(&self, chunk: &Chunk) -> Result<Chunk, AllocError>
        requires { AreColumns (length chunk.now.types) (map (λ (p : ℕ × ℕ). p.0) self.now.on) }
        ensures types { IfOk result (λ c. c.types ≡ chunk.now.types) }
        ensures rows { IfOk result (λ c. c.rows ≡ filter (keeps self.now) chunk.now.rows) }
    {
        let mut places = Vec::new(self.alloc);
        let mut from = 0;
        while from < chunk.len() {
            from = self.push_block(&mut places, chunk, from)?;
        }
        if places.len() == chunk.len() {
            return chunk.share(self.alloc);
        }
        places_are_a_filter();
        chunk.at(self.alloc, places.as_slice())
    }

    /// The rows of a batch of left rows that are matched, or, of an anti join, that are not. No cell is copied.
    pub fn probe(&self, batch: &Rows) -> Result<Rows, AllocError>
        requires { AreColumns (length batch.now.types) (map (λ (p : ℕ × ℕ). p.0) self.now.on) }
        ensures types { IfOk result (λ r. r.types ≡ batch.now.types) }
        ensures rows { IfOk result (λ r. (rs : List Row) → HasMatchBuilt self.now rs → r.rows ≡ matched_rows self.now.matched self.now.on self.now.conditions batch.now.rows rs) }
        ensures fewer { IfOk result (λ r. length r.rows ≤ length batch.now.rows) }
    {
        let mut found = Rows::new(self.alloc, batch.types())?;
        let chunks = batch.chunks();
        for i in 0..chunks.len() {
            let kept = self.kept_of(&chunks[i])?;
            found.push(kept)?;
        }
        Ok(found)
    }
}

/// The left rows that a semi or an anti join keeps, in order. No cell of a left row is copied.
pub fn semi_join(
    alloc: Global,
    seed: KeySeed,
    matching: Matching,
    left: &Rows,
    right: Rows,
) -> Result<Rows, AllocError>
    requires left { AreColumns (length left.now.types) (map (λ (p : ℕ × ℕ). p.0) matching.on.items) }
    requires right { AreColumns (length right.types) (map (λ (p : ℕ × ℕ). p.1) matching.on.items) }
    ensures types { IfOk result (λ r. r.types ≡ left.now.types) }
    ensures rows { IfOk result (λ r. r.rows ≡ matched_rows matching.matched matching.on.items (conditions_of matching.conditions.items) left.now.rows right.rows) }
{
    let mut build = MatchBuild::of(alloc, seed, matching, right.types())?;
    build.add(right)?;
    build.finish()?;
    build.probe(left)
}
