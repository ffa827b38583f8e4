//! The rows of a build side, where they lie.

ghost use Rattle.std.specs.Prelude.{◌≡◌, ◌++◌, length, map, zip, IfOk, OnOk};
ghost use Rattle.vx_rows.specs.View.{row, ArePositions};
ghost use Rattle.vx_match_join.specs.Sides.{side_rows};

use std::alloc::{AllocError, Global};
use std::marker::Model;
use std::sync::Arc;
use vx_match_merging::push_beside;
use vx_rows_values::ColType;
use vx_rows_views::{Chunk, Rows};

// A run of at least `RUN` rows is worth a chunk of its own.
const RUN: usize = 16;

/// Rows in several chunks, with the place behind the last row of each chunk; and how many rows were joined to them so far, in
/// how many runs that lie in one chunk each.
pub(crate) struct BuildChunks {
    rows: Rows,
    ends: Vec<usize>,
    joined: usize,
    runs: usize,
}

impl Drop for BuildChunks {
    fn drop(self) {
        let BuildChunks {
            rows: _,
            ends: _,
            joined: _,
            runs: _,
        } = self;
    }
}

impl Model for BuildChunks {
    ghost use Rattle.vx_rows.specs.View.{RowsView};

    ghost Value = { RowsView };

    ghost view = { λ p. p.rows };
}

impl BuildChunks {
    // These rows. No cell is copied.
    fn of(alloc: Global, rows: &Rows) -> Result<BuildChunks, AllocError>
        ensures { IfOk result (λ p. p ≡ rows.now) }
    {
        let ends = ends_of(alloc, rows.chunks())?;
        Ok(BuildChunks {
            rows: rows.slice(alloc, 0, rows.len())?,
            ends,
            joined: 0,
            runs: 0,
        })
    }

    // Counts that the rows at these places are joined, and returns whether they still lie in runs that are long enough.
    fn are_near(&mut self, places: &[usize]) -> bool
        ensures { self.new ≡ self.old }
    {
        let runs = runs_in(self.ends.as_slice(), places);
        self.runs = self.runs.saturating_add(runs);
        self.joined = self.joined.saturating_add(places.len());
        self.runs <= self.joined.saturating_add(self.rows.len()) / RUN
    }
}

/// The rows of a build side. Those of one chunk stay where they are, and so do those of several chunks, as long as the rows
/// that are joined to them lie in runs: each run is a chunk. Where they do not, all rows are copied, once, into one table.
pub(crate) enum BuildRows {
    One(Chunk),
    Several(BuildChunks),
}

impl Drop for BuildRows {
    fn drop(self) {
        match self {
            BuildRows::One(_) => {}
            BuildRows::Several(_) => {}
        }
    }
}

impl BuildRows {
    /// These rows. No cell is copied.
    pub fn of(alloc: Global, rows: &Rows) -> Result<BuildRows, AllocError>
        ensures { IfOk result (λ b. side_rows b ≡ rows.now) }
    {
        let chunks = rows.chunks();
        if chunks.len() == 1 {
            return Ok(BuildRows::One(chunks[0].share(alloc)?));
        }
        Ok(BuildRows::Several(BuildChunks::of(alloc, rows)?))
    }

    /// The types of the columns.
    pub fn types(&self) -> &[ColType]
        ensures { result.now ≡ (side_rows self.now).types }
    {
        match self {
            BuildRows::One(chunk) => chunk.types(),
            BuildRows::Several(parts) => parts.rows.types(),
        }
    }

    /// Appends to `joined` the row `lefts[i]` of `left` beside the build-side row `rights[i]`, for each `i` in order.
    pub fn push_joined(
        &mut self,
        alloc: Global,
        joined: &mut Rows,
        left: &Chunk,
        lefts: &[usize],
        rights: &[usize],
    ) -> Result<(), AllocError>
        requires left { ArePositions (length left.now.rows) lefts.now }
        requires right { ArePositions (length (side_rows self.old).rows) rights.now }
        requires many { length lefts.now ≡ length rights.now }
        requires types { joined.old.types ≡ left.now.types ++ (side_rows self.old).types }
        ensures same { side_rows self.new ≡ side_rows self.old }
        ensures types { joined.new.types ≡ joined.old.types }
        ensures rows { OnOk result (joined.new.rows ≡ joined.old.rows ++ map (λ p. row left.now p.0 ++ row (side_rows self.old) p.1) (zip lefts.now rights.now)) }
    {
        self.settle(alloc, rights)?;
        match self {
            BuildRows::One(chunk) => {
                let found = Chunk::joined(alloc, left, lefts, chunk, rights)?;
                return joined.push(found);
            }
            BuildRows::Several(parts) => {
                let left = left.at(alloc, lefts)?;
                let right = parts.rows.at(alloc, rights)?;
                return push_beside(alloc, joined, &left, &right);
            }
        }
    }

    // Copies all rows into one table, where those at these places do not lie in runs that are long enough.
    fn settle(&mut self, alloc: Global, places: &[usize]) -> Result<(), AllocError>
        ensures { side_rows self.new ≡ side_rows self.old }
    {
        let BuildRows::Several(parts) = self else {
            return Ok(());
        };
        if parts.are_near(places) {
            return Ok(());
        }
        let table = parts.rows.gathered(alloc)?;
        let count = table.len();
        let base = Arc::new(alloc, table)?;
        *self = BuildRows::One(Chunk::of(alloc, &base, 0, count)?);
        Ok(())
    }
}

// The place behind the last row of each chunk.
fn ends_of(alloc: Global, chunks: &[Chunk]) -> Result<Vec<usize>, AllocError> {
    let mut ends = Vec::with_capacity(alloc, chunks.len())?;
    let mut end = 0usize;
    for chunk in chunks {
        end = end.saturating_add(chunk.len());
        ends.push(end)?;
    }
    Ok(ends)
}

// From which place and up to which one the chunk reaches in which a place lies.
fn chunk_around(ends: &[usize], place: usize) -> (usize, usize) {
    let number = ends.partition_point(|end| *end <= place);
    let from = match number.checked_sub(1) {
        Some(before) => end_at(ends, before),
        None => 0,
    };
    (from, end_at(ends, number))
}

// Where the chunk with this number ends. Behind the last one no place is in a chunk.
fn end_at(ends: &[usize], number: usize) -> usize {
    match ends.get(number) {
        Some(end) => *end,
        None => usize::MAX,
    }
}

// How many runs there are of places one behind the other that lie in the same chunk.
fn runs_in(ends: &[usize], places: &[usize]) -> usize {
    let mut runs = 0usize;
    let mut chunk = (0, 0);
    for place in places {
        if *place < chunk.0 || *place >= chunk.1 {
            runs = runs.saturating_add(1);
            chunk = chunk_around(ends, *place);
        }
    }
    runs
}
