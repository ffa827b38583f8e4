//! Keys, numbered in order of first occurrence.

ghost use Rattle.std.specs.Prelude.{◌≡◌, ◌<◌, ◌++◌, ◌∷◌, [], length, map, All, OnOk, IfOk, IsTrue, false, slice_get, Some};
ghost use Rattle.std.specs.List.{position_or_len, IsDistinct};
ghost use Rattle.vx_rows_values.specs.Values.{row_eq, pick};
ghost use Rattle.vx_rows_values.specs.ValueView.{cell_val};
ghost use Rattle.vx_rows.specs.View.{AreColumns};
ghost use Rattle.indexmap.specs.IndexSet.{insert_all};
ghost use Rattle.vx_rows_views.specs.Chunks.{all_rows};
ghost use Rattle.vx_match_keys.specs.Kinds.{kind_keys};
ghost use Rattle.vx_match_keys.specs.Numbers.{numbers_of};

use crate::columns::{IntColumn, TextColumn};
use crate::composite_keys::CompositeKeys;
use crate::int_keys::IntKeys;
use crate::row_keys::RowKeys;
use crate::text_keys::TextKeys;
use std::alloc::{AllocError, Global};
use std::marker::Model;
use vx_rows_values::{Cell, KeySeed};
use vx_rows_views::{Chunk, Rows};

// Keys of one number each, of one text each, or any others.
enum Kind {
    Ints(IntKeys),
    Texts(TextKeys),
    Rows(CompositeKeys),
}

impl Drop for Kind {
    fn drop(self) {
        match self {
            Kind::Ints(_) => {}
            Kind::Texts(_) => {}
            Kind::Rows(_) => {}
        }
    }
}

/// Keys, each once, numbered from 0 in order of first occurrence. They are found by hashing: a key of one value as the
/// number or the text that it is, and any other by its values where they lie. Only keys that are numbers close together
/// from 0 on are found by a table, with no hashing.
///
/// The first rows that are numbered decide which of these it is. Where later ones have keys of another type, all keys are
/// copied and are hashed value by value from then on.
pub struct Keys {
    kind: Kind,
    room: usize,
    seed: KeySeed,
    alloc: Global,
}

impl Drop for Keys {
    fn drop(self) {
        let Keys {
            kind: _,
            room: _,
            seed: _,
            alloc: _,
        } = self;
    }
}

impl Model for Keys {
    ghost use Rattle.std.specs.Prelude.{List};
    ghost use Rattle.vx_rows_values.specs.Values.{Row};
    ghost use Rattle.vx_match_keys.specs.Kinds.{kind_keys};

    ghost Value = { List Row };

    ghost view = { λ k. kind_keys k.kind };
}

// No keys yet, of the kind that the rows of `chunk` have in `columns`. If these are of one value each, it expects `room` of them.
fn kind_of(
    alloc: Global,
    seed: KeySeed,
    room: usize,
    chunk: &Chunk,
    columns: &[usize],
) -> Result<Kind, AllocError>
    requires { AreColumns (length chunk.now.types) columns.now }
    ensures { IfOk result (λ k. kind_keys k ≡ []) }
{
    if IntColumn::of(chunk, columns).is_some() {
        return Ok(Kind::Ints(IntKeys::with_room(alloc, seed, room)?));
    }
    if TextColumn::of(chunk, columns).is_some() {
        return Ok(Kind::Texts(TextKeys::with_room(alloc, seed, room)?));
    }
    Ok(Kind::Rows(CompositeKeys::new(alloc, seed)))
}

// One value as a list.
fn one_cell(alloc: Global, cell: Cell<'_>) -> Result<Vec<Cell<'_>>, AllocError>
    ensures { IfOk result (λ v. map cell_val v.items ≡ cell_val cell.entry ∷ []) }
{
    let mut cells = Vec::with_capacity(alloc, 1)?;
    cells.push(cell)?;
    Ok(cells)
}

impl Keys {
    /// No keys, to be hashed by this seed.
    pub fn new(alloc: Global, seed: KeySeed) -> Keys
        ensures { result ≡ [] }
    {
        Keys::with_room(alloc, seed, 0)
    }

    /// No keys yet, to be hashed with `seed`. The caller expects `room` keys, which bounds nothing. Text keys reserve room for `room`
    /// texts when the first rows are numbered. For number keys `room` says how long the table may be that finds them; once
    /// they are hashed, they have room for `room` numbers.
    pub fn with_room(alloc: Global, seed: KeySeed, room: usize) -> Keys
        ensures { result ≡ [] }
    {
        Keys {
            kind: Kind::Rows(CompositeKeys::new(alloc, seed)),
            room,
            seed,
            alloc,
        }
    }

    /// How many keys there are.
    pub fn len(&self) -> usize
        ensures len { result ≡ length self.now }
        ensures unique { IsDistinct row_eq self.now }
    {
        match &self.kind {
            Kind::Ints(keys) => keys.len(),
            Kind::Texts(keys) => keys.len(),
            Kind::Rows(keys) => keys.len(),
        }
    }

    /// The values of the key of a number.
    pub fn cells(&self, number: usize) -> Result<Vec<Cell<'_>>, AllocError>
        requires { number < length self.now }
        ensures { IfOk result (λ v. slice_get self.now number ≡ Some (map cell_val v.items)) }
    {
        match &self.kind {
            Kind::Ints(keys) => one_cell(self.alloc, Cell::Int(keys.get(number))),
            Kind::Texts(keys) => one_cell(self.alloc, Cell::Text(keys.get(number))),
            Kind::Rows(keys) => keys.cells(number),
        }
    }

    // The same keys, hashed value by value.
    fn as_rows(&self) -> Result<RowKeys, AllocError>
        ensures { IfOk result (λ k. k ≡ self.now) }
    {
        let mut rows = RowKeys::new(self.alloc, self.seed);
        for number in 0..self.len() {
            let cells = self.cells(number)?;
            rows.add(cells.as_slice())?;
        }
        Ok(rows)
    }

    // Does what `number_chunk` does, and returns `true`, where the keys of the chunk are of the kind of these. Else it
    // does nothing.
    fn number_kind(
        &mut self,
        chunk: &Chunk,
        columns: &[usize],
        numbers: &mut Vec<usize>,
    ) -> Result<bool, AllocError>
        requires { AreColumns (length chunk.now.types) columns.now }
        ensures numbers { IfOk result (λ done. IsTrue done → numbers.new.items ≡ numbers.old.items ++ numbers_of self.old (map (pick columns.now) chunk.now.rows)) }
        ensures keys { IfOk result (λ done. IsTrue done → self.new ≡ insert_all row_eq self.old (map (pick columns.now) chunk.now.rows)) }
        ensures nothing { IfOk result (λ done. done ≡ false → (self.new ≡ self.old) × (numbers.new.items ≡ numbers.old.items)) }
    {
        match &mut self.kind {
            Kind::Ints(keys) => {
                let Some(column) = IntColumn::of(chunk, columns) else {
                    return Ok(false);
                };
                keys.number_all(&column, numbers)?;
            }
            Kind::Texts(keys) => {
                let Some(column) = TextColumn::of(chunk, columns) else {
                    return Ok(false);
                };
                keys.number_all(&column, numbers)?;
            }
            Kind::Rows(keys) => keys.number_all(chunk, columns, numbers)?,
        }
        Ok(true)
    }

    /// Adds the numbers of the keys that the rows of a chunk have in these columns. A key that is new is copied and added.
    pub fn number_chunk(
        &mut self,
        chunk: &Chunk,
        columns: &[usize],
        numbers: &mut Vec<usize>,
    ) -> Result<(), AllocError>
        requires { AreColumns (length chunk.now.types) columns.now }
        ensures numbers { OnOk result (numbers.new.items ≡ numbers.old.items ++ numbers_of self.old (map (pick columns.now) chunk.now.rows)) }
        ensures keys { OnOk result (self.new ≡ insert_all row_eq self.old (map (pick columns.now) chunk.now.rows)) }
    {
        if self.len() == 0 {
            self.kind = kind_of(self.alloc, self.seed, self.room, chunk, columns)?;
        }
        if self.number_kind(chunk, columns, numbers)? {
            return Ok(());
        }
        let mut rows = self.as_rows()?;
        rows.number_all(chunk, columns, numbers)?;
        self.kind = Kind::Rows(CompositeKeys::of(self.alloc, self.seed, rows));
        Ok(())
    }

    // Adds the numbers of the keys that the rows of chunks have in these columns. Keys that are new are added.
    fn number_chunks(
        &mut self,
        chunks: &[Chunk],
        columns: &[usize],
        numbers: &mut Vec<usize>,
    ) -> Result<(), AllocError>
        requires { All (λ c. AreColumns (length c.types) columns.now) chunks.now }
        ensures numbers { OnOk result (numbers.new.items ≡ numbers.old.items ++ numbers_of self.old (map (pick columns.now) (all_rows chunks.now))) }
        ensures keys { OnOk result (self.new ≡ insert_all row_eq self.old (map (pick columns.now) (all_rows chunks.now))) }
    {
        for i in 0..chunks.len() {
            self.number_chunk(&chunks[i], columns, numbers)?;
        }
        Ok(())
    }

    /// The numbers of the keys that the rows of a batch have in these columns. A key that is new is copied and added.
    /// After an `Err` some of the keys may have been added.
    pub fn number_all(&mut self, batch: &Rows, columns: &[usize]) -> Result<Vec<usize>, AllocError>
        requires { AreColumns (length batch.now.types) columns.now }
        ensures numbers { IfOk result (λ v. v.items ≡ numbers_of self.old (map (pick columns.now) batch.now.rows)) }
        ensures keys { OnOk result (self.new ≡ insert_all row_eq self.old (map (pick columns.now) batch.now.rows)) }
        ensures known { IsDistinct row_eq self.old }
    {
        let _count = self.len();
        let mut numbers = Vec::with_capacity(self.alloc, batch.len())?;
        self.number_chunks(batch.chunks(), columns, &mut numbers)?;
        Ok(numbers)
    }

    /// The index of the key of each row of `chunk` in `columns`, or `self.len()` where it is absent.
    pub fn find_all(&self, chunk: &Chunk, columns: &[usize]) -> Result<Vec<usize>, AllocError>
        requires { AreColumns (length chunk.now.types) columns.now }
        ensures { IfOk result (λ v. v.items ≡ map (λ r. position_or_len (row_eq (pick columns.now r)) self.now) chunk.now.rows) }
    {
        match &self.kind {
            Kind::Ints(keys) => {
                if let Some(column) = IntColumn::of(chunk, columns) {
                    return keys.find_all(&column);
                }
            }
            Kind::Texts(keys) => {
                if let Some(column) = TextColumn::of(chunk, columns) {
                    return keys.find_all(&column);
                }
            }
            Kind::Rows(keys) => return keys.find_all(chunk, columns),
        }
        let rows = self.as_rows()?;
        rows.find_all(chunk, columns)
    }
}
