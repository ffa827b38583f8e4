//! Rows in chunks, one behind the other.

ghost use Rattle.std.specs.Prelude.{◌≡◌, ℕ, ◌+◌, ◌-◌, ◌<◌, ◌≤◌, ◌++◌, [], ◌↔◌, drop, take, length, map, min, slice_index, slice_index_or, slice_range, All, OnOk, OnErr, IfOk, IsTrue};
ghost use Rattle.std.specs.Arc.{arc_value};
ghost use Rattle.std.specs.List.{AllByRecursion};
ghost use Rattle.vx_rows_values.specs.Values.{value_at, pick};
ghost use Rattle.vx_rows_values.specs.ValueView.{cell_val};
ghost use Rattle.vx_rows_values.specs.Types.{type_at, Fits};
ghost use Rattle.vx_rows.specs.View.{row, AreColumns, ArePositions};
ghost use Rattle.vx_rows_views.specs.Chunks.{all_rows, rows_in};
ghost use Rattle.vx_rows_views.specs.Marks.{IsMark};

use crate::chunk::{Chunk, types_at};
use crate::marks::{Mark, Marks, add_marks, chunks_toward, mark_end};
use std::alloc::{AllocError, Global};
use std::marker::Model;
use std::mem;
use std::sync::{Arc, ArcSlice};
use vx_rows::Table;
use vx_rows_values::{Cell, ColType};

/// Rows in chunks, one behind the other. To add rows copies none. The list of types is shared by the rows that are cut from these. Where there are
/// many chunks, some marks say where they begin.
pub struct Rows {
    types: ArcSlice<ColType>,
    chunks: Vec<Chunk>,
    count: usize,
    marks: Marks,
}

impl Drop for Rows {
    fn drop(self) {
        let Rows {
            types: _,
            chunks: _,
            count: _,
            marks: _,
        } = self;
    }
}

impl Model for Rows {
    ghost use Rattle.std.specs.Prelude.{◌≡◌, length, All};
    ghost use Rattle.std.specs.List.{AllByRecursion};
    ghost use Rattle.std.specs.Arc.{arc_slice_items};
    ghost use Rattle.vx_rows_values.specs.Types.{Fits};
    ghost use Rattle.vx_rows.specs.View.{RowsView};
    ghost use Rattle.vx_rows_views.specs.Chunks.{all_rows};
    ghost use Rattle.vx_rows_views.specs.Marks.{IsMark};

    ghost Value = { RowsView };

    ghost view = { λ r. record { types = arc_slice_items r.types; rows = all_rows r.chunks.items } };

    ghost invariant = { λ r. (r.count ≡ length (all_rows r.chunks.items)) × All (λ c. c.types ≡ arc_slice_items r.types) r.chunks.items × AllByRecursion (Fits (arc_slice_items r.types)) (all_rows r.chunks.items) × All (IsMark r.chunks.items) r.marks };
}

impl Rows {
    /// No rows, of these types.
    pub fn new(alloc: Global, types: &[ColType]) -> Result<Rows, AllocError>
        ensures types { IfOk result (λ r. r.types ≡ types.now) }
        ensures rows { IfOk result (λ r. r.rows ≡ []) }
    {
        Ok(Rows {
            types: ArcSlice::from_slice(alloc, types)?,
            chunks: Vec::new(alloc),
            count: 0,
            marks: Marks::new(),
        })
    }

    // No rows, of the types of these.
    fn none_alike(&self, alloc: Global) -> Result<Rows, AllocError>
        ensures types { IfOk result (λ r. r.types ≡ self.now.types) }
        ensures rows { IfOk result (λ r. r.rows ≡ []) }
    {
        Ok(Rows {
            types: self.types.clone()?,
            chunks: Vec::new(alloc),
            count: 0,
            marks: Marks::new(),
        })
    }

    /// The rows of a table from `from` up to `to`, with all columns, as one chunk. No cell is copied.
    pub fn of(alloc: Global, base: &Arc<Table>, from: usize, to: usize) -> Result<Rows, AllocError>
        requires order { from ≤ to }
        requires there { to ≤ length (arc_value base.now).rows }
        ensures types { IfOk result (λ r. r.types ≡ (arc_value base.now).types) }
        ensures rows { IfOk result (λ r. r.rows ≡ slice_range (arc_value base.now).rows from to) }
    {
        let chunk = Chunk::of(alloc, base, from, to)?;
        let mut rows = Rows::new(alloc, chunk.types())?;
        rows.push(chunk)?;
        Ok(rows)
    }

    /// All rows of a table, as one chunk. No cell is copied: the table is shared from now on.
    pub fn of_table(alloc: Global, table: Table) -> Result<Rows, AllocError>
        ensures { IfOk result (λ r. r ≡ table) }
    {
        let count = table.len();
        let base = Arc::new(alloc, table)?;
        Ok(Rows::of(alloc, &base, 0, count)?)
    }

    /// How many rows there are.
    pub fn len(&self) -> usize
        ensures { result ≡ length self.now.rows }
    {
        self.count
    }

    /// Whether there are no rows.
    pub fn is_empty(&self) -> bool
        ensures { IsTrue result ↔ (self.now.rows ≡ []) }
    {
        self.count == 0
    }

    /// The types of the columns, which each row fits.
    pub fn types(&self) -> &[ColType]
        ensures types { result.now ≡ self.now.types }
        ensures fit { AllByRecursion (Fits self.now.types) self.now.rows }
    {
        self.types.as_slice()
    }

    /// The chunks: their rows, one behind the other, are the rows.
    pub fn chunks(&self) -> &[Chunk]
        ensures types { All (λ c. c.types ≡ self.now.types) result.now }
        ensures rows { all_rows result.now ≡ self.now.rows }
    {
        self.chunks.as_slice()
    }

    /// The chunk in which a row lies, and at which place there. The rows behind it in the chunk are those behind it here.
    pub fn chunk_at(&self, i: usize) -> (&Chunk, usize)
        requires { i < length self.now.rows }
        ensures types { result.0.now.types ≡ self.now.types }
        ensures there { result.1 < length result.0.now.rows }
        ensures within { i + (length result.0.now.rows - result.1) ≤ length self.now.rows }
        ensures alike { (k : ℕ) → result.1 + k < length result.0.now.rows → row self.now (i + k) ≡ row result.0.now (result.1 + k) }
    {
        // mostly there is one chunk
        let first = &self.chunks[0];
        if i < first.len() {
            return (first, i);
        }
        let spot = spot_near(self.chunks.as_slice(), self.marks.as_slice(), i);
        (&self.chunks[spot.chunk], spot.place)
    }

    /// The value of a row in a column.
    pub fn cell(&self, i: usize, column: usize) -> Cell<'_>
        requires row { i < length self.now.rows }
        requires column { column < length self.now.types }
        ensures { cell_val result ≡ value_at (row self.now i) column }
    {
        let (chunk, place) = self.chunk_at(i);
        chunk.cell(place, column)
    }

    /// Adds rows behind those that it has. A chunk of no rows is not kept. After an `Err` these are as before.
    pub fn push(&mut self, chunk: Chunk) -> Result<(), AllocError>
        requires { chunk.types ≡ self.old.types }
        ensures types { self.new.types ≡ self.old.types }
        ensures ok { OnOk result (self.new.rows ≡ self.old.rows ++ chunk.rows) }
        ensures err { OnErr result (self.new.rows ≡ self.old.rows) }
    {
        if chunk.is_empty() {
            return Ok(());
        }
        let Some(count) = self.count.checked_add(chunk.len()) else {
            return Err(AllocError);
        };
        // its rows fit its types
        let _types = chunk.types();
        let alloc = *self.chunks.allocator();
        mark_end(alloc, &mut self.marks, self.chunks.as_slice(), self.count)?;
        self.chunks.push(chunk)?;
        self.count = count;
        Ok(())
    }

    /// Adds the rows of others. No cell is copied. After an `Err` its rows are as before.
    pub fn append(&mut self, others: Rows) -> Result<(), AllocError>
        requires { others.types ≡ self.old.types }
        ensures types { self.new.types ≡ self.old.types }
        ensures ok { OnOk result (self.new.rows ≡ self.old.rows ++ others.rows) }
        ensures err { OnErr result (self.new.rows ≡ self.old.rows) }
    {
        let Rows {
            types: _,
            mut chunks,
            count: more,
            marks,
        } = others;
        let Some(count) = self.count.checked_add(more) else {
            return Err(AllocError);
        };
        let (before, rows) = (self.chunks.len(), self.count);
        let alloc = *self.chunks.allocator();
        mark_end(alloc, &mut self.marks, self.chunks.as_slice(), rows)?;
        self.chunks.append(&mut chunks)?;
        add_marks(alloc, &mut self.marks, marks.as_slice(), before, rows);
        self.count = count;
        Ok(())
    }

    /// Takes all rows out, leaving none of the same types.
    pub fn take(&mut self, alloc: Global) -> Result<Rows, AllocError>
        ensures types { self.new.types ≡ self.old.types }
        ensures ok { IfOk result (λ r. r ≡ self.old) }
        ensures none { OnOk result (self.new.rows ≡ []) }
        ensures err { OnErr result (self.new.rows ≡ self.old.rows) }
    {
        let empty = self.none_alike(alloc)?;
        Ok(mem::replace(self, empty))
    }

    /// Drops all rows.
    pub fn clear(&mut self)
        ensures types { self.new.types ≡ self.old.types }
        ensures rows { self.new.rows ≡ [] }
    {
        self.chunks.clear();
        self.count = 0;
        self.marks = Marks::new();
    }

    /// The rows from `from` up to `to`.
    pub fn slice(&self, alloc: Global, from: usize, to: usize) -> Result<Rows, AllocError>
        requires order { from ≤ to }
        requires there { to ≤ length self.now.rows }
        ensures types { IfOk result (λ r. r.types ≡ self.now.types) }
        ensures rows { IfOk result (λ r. r.rows ≡ slice_range self.now.rows from to) }
    {
        let mut found = self.none_alike(alloc)?;
        let (chunks, before) = chunks_toward(self.chunks.as_slice(), self.marks.as_slice(), from);
        add_part(alloc, &mut found, chunks, from - before, to - from)?;
        Ok(found)
    }

    /// The rows at some places, in their order. Places that follow each other in one chunk make one chunk.
    pub fn at(&self, alloc: Global, places: &[usize]) -> Result<Rows, AllocError>
        requires { ArePositions (length self.now.rows) places.now }
        ensures types { IfOk result (λ r. r.types ≡ self.now.types) }
        ensures rows { IfOk result (λ r. r.rows ≡ map (row self.now) places.now) }
    {
        let mut found = self.none_alike(alloc)?;
        add_at(
            alloc,
            &mut found,
            self.chunks.as_slice(),
            self.marks.as_slice(),
            places,
        )?;
        Ok(found)
    }

    /// These columns of all rows, in this order.
    pub fn project(&self, alloc: Global, cols: &[usize]) -> Result<Rows, AllocError>
        requires { AreColumns (length self.now.types) cols.now }
        ensures types { IfOk result (λ r. r.types ≡ map (type_at self.now.types) cols.now) }
        ensures rows { IfOk result (λ r. r.rows ≡ map (pick cols.now) self.now.rows) }
    {
        let types = types_at(alloc, self.types.as_slice(), cols)?;
        let mut found = Rows::new(alloc, types.as_slice())?;
        add_projected(alloc, &mut found, self.chunks.as_slice(), cols)?;
        Ok(found)
    }

    /// All rows in one table, where each cell is copied: for loops that go to any row at once, as those of a sort.
    pub fn gathered(&self, alloc: Global) -> Result<Table, AllocError>
        ensures { IfOk result (λ r. r ≡ self.now) }
    {
        let mut rows = Table::new(alloc, self.types.as_slice())?;
        copy_chunks(alloc, self.chunks.as_slice(), &mut rows)?;
        Ok(rows)
    }
}

// Where a row lies: in which chunk, and at which place there.
#[derive(Clone, Copy)]
struct RowPosition {
    chunk: usize,
    place: usize,
}

// Where row i lies.
fn spot_of(chunks: &[Chunk], i: usize) -> RowPosition
    requires { i < length (all_rows chunks.now) }
    ensures chunk { result.chunk < length chunks.now }
    ensures place { i ≡ length (all_rows (take result.chunk chunks.now)) + result.place }
    ensures there { result.place < length (rows_in chunks.now result.chunk) }
{
    let mut place = i;
    for chunk in 0..chunks.len() {
        let count = chunks[chunk].len();
        if place < count {
            return RowPosition { chunk, place };
        }
        place -= count;
    }
    unreachable!()
}

// The same, found from the last mark before the row on.
fn spot_near(chunks: &[Chunk], marks: &[Mark], i: usize) -> RowPosition
    requires row { i < length (all_rows chunks.now) }
    requires marks { All (IsMark chunks.now) marks.now }
    ensures chunk { result.chunk < length chunks.now }
    ensures place { i ≡ length (all_rows (take result.chunk chunks.now)) + result.place }
    ensures there { result.place < length (rows_in chunks.now result.chunk) }
{
    let (rest, before) = chunks_toward(chunks, marks, i);
    let spot = spot_of(rest, i - before);
    RowPosition {
        chunk: chunks.len() - rest.len() + spot.chunk,
        place: spot.place,
    }
}

// Adds up to `count` rows of `chunks`, after skipping the first `skip` rows.
fn add_part(
    alloc: Global,
    found: &mut Rows,
    chunks: &[Chunk],
    skip: usize,
    count: usize,
) -> Result<(), AllocError>
    requires { All (λ c. c.types ≡ found.old.types) chunks.now }
    ensures types { found.new.types ≡ found.old.types }
    ensures ok { OnOk result (found.new.rows ≡ found.old.rows ++ take count (drop skip (all_rows chunks.now))) }
{
    let mut ahead = skip;
    let mut wanted = count;
    for i in 0..chunks.len() {
        if wanted == 0 {
            return Ok(());
        }
        let rows = chunks[i].len();
        let from = ahead.min(rows);
        let more = wanted.min(rows - from);
        push_part(alloc, found, &chunks[i], from, from + more)?;
        ahead -= from;
        wanted -= more;
    }
    Ok(())
}

// Adds the rows of a chunk from `from` up to `to`, where there are any.
fn push_part(
    alloc: Global,
    found: &mut Rows,
    chunk: &Chunk,
    from: usize,
    to: usize,
) -> Result<(), AllocError>
    requires types { chunk.now.types ≡ found.old.types }
    requires order { from ≤ to }
    requires there { to ≤ length chunk.now.rows }
    ensures types { found.new.types ≡ found.old.types }
    ensures ok { OnOk result (found.new.rows ≡ found.old.rows ++ slice_range chunk.now.rows from to) }
{
    if from == to {
        return Ok(());
    }
    found.push(chunk.slice(alloc, from, to)?)
}

// Adds these columns of the rows of chunks.
fn add_projected(
    alloc: Global,
    found: &mut Rows,
    chunks: &[Chunk],
    cols: &[usize],
) -> Result<(), AllocError>
    requires columns { All (λ c. AreColumns (length c.types) cols.now) chunks.now }
    requires types { All (λ c. map (type_at c.types) cols.now ≡ found.old.types) chunks.now }
    ensures types { found.new.types ≡ found.old.types }
    ensures ok { OnOk result (found.new.rows ≡ found.old.rows ++ map (pick cols.now) (all_rows chunks.now)) }
{
    for i in 0..chunks.len() {
        let chunk = chunks[i].share(alloc)?;
        found.push(chunk.project(alloc, cols)?)?;
    }
    Ok(())
}

// Adds copies of the rows of chunks to a table.
fn copy_chunks(alloc: Global, chunks: &[Chunk], rows: &mut Table) -> Result<(), AllocError>
    requires { All (λ c. c.types ≡ rows.old.types) chunks.now }
    ensures types { rows.new.types ≡ rows.old.types }
    ensures ok { OnOk result (rows.new.rows ≡ rows.old.rows ++ all_rows chunks.now) }
{
    for i in 0..chunks.len() {
        chunks[i].copy_onto(alloc, rows)?;
    }
    Ok(())
}

// Adds the rows of chunks at some places.
fn add_at(
    alloc: Global,
    found: &mut Rows,
    chunks: &[Chunk],
    marks: &[Mark],
    places: &[usize],
) -> Result<(), AllocError>
    requires types { All (λ c. c.types ≡ found.old.types) chunks.now }
    requires marks { All (IsMark chunks.now) marks.now }
    requires there { ArePositions (length (all_rows chunks.now)) places.now }
    ensures types { found.new.types ≡ found.old.types }
    ensures ok { OnOk result (found.new.rows ≡ found.old.rows ++ map (λ i. slice_index_or (all_rows chunks.now) i []) places.now) }
{
    if chunks.len() == 1 && !places.is_empty() {
        // the rows are those of the chunk, so a place in them is a place in it
        return found.push(chunks[0].at(alloc, places)?);
    }
    let mut from = 0;
    'runs: while from < places.len() {
        from = add_run(alloc, found, chunks, marks, places, from)?;
    }
    Ok(())
}

// Adds the rows at the places from `from` on that lie in the chunk of the first of them, and returns where these end.
fn add_run(
    alloc: Global,
    found: &mut Rows,
    chunks: &[Chunk],
    marks: &[Mark],
    places: &[usize],
    from: usize,
) -> Result<usize, AllocError>
    requires types { All (λ c. c.types ≡ found.old.types) chunks.now }
    requires marks { All (IsMark chunks.now) marks.now }
    requires there { ArePositions (length (all_rows chunks.now)) places.now }
    requires first { from < length places.now }
    ensures types { found.new.types ≡ found.old.types }
    ensures more { IfOk result (λ to. from < to) }
    ensures end { IfOk result (λ to. to ≤ length places.now) }
    ensures rows { IfOk result (λ to. found.new.rows ≡ found.old.rows ++ map (λ i. slice_index_or (all_rows chunks.now) i []) (slice_range places.now from to)) }
{
    let spot = spot_near(chunks, marks, places[from]);
    let start = places[from] - spot.place;
    let to = run_end(places, from, start, chunks[spot.chunk].len());
    let here = moved_back(alloc, &places[from..to], start)?;
    let chunk = chunks[spot.chunk].at(alloc, here.as_slice())?;
    found.push(chunk)?;
    Ok(to)
}

// The end of the run in `places`, from index `from` on, whose places lie in `start..start + count`.
fn run_end(places: &[usize], from: usize, start: usize, count: usize) -> usize
    requires there { from < length places.now }
    requires low { start ≤ slice_index places.now from }
    requires high { slice_index places.now from - start < count }
    ensures more { from < result }
    ensures end { result ≤ length places.now }
    ensures low { (k : ℕ) → from ≤ k → k < result → start ≤ slice_index places.now k }
    ensures high { (k : ℕ) → from ≤ k → k < result → slice_index places.now k - start < count }
{
    for k in from + 1..places.len() {
        if places[k] < start || places[k] - start >= count {
            return k;
        }
    }
    places.len()
}

// Places, each less a start.
fn moved_back(alloc: Global, places: &[usize], start: usize) -> Result<Vec<usize>, AllocError>
    requires { All (λ i. start ≤ i) places.now }
    ensures { IfOk result (λ v. v.items ≡ map (λ i. i - start) places.now) }
{
    let mut found = Vec::with_capacity(alloc, places.len())?;
    for i in 0..places.len() {
        found.push(places[i] - start)?;
    }
    Ok(found)
}
