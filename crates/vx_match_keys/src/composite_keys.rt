//! Keys of any number of values.

ghost use Rattle.std.specs.Prelude.{◌≡◌, ◌<◌, ◌≤◌, ◌++◌, [], length, map, take, drop, OnOk, IfOk, slice_get, Some};
ghost use Rattle.std.specs.List.{position_or_len, IsDistinct};
ghost use Rattle.vx_rows_values.specs.Values.{row_eq, pick};
ghost use Rattle.vx_rows_values.specs.ValueView.{cell_val};
ghost use Rattle.vx_rows.specs.View.{AreColumns};
ghost use Rattle.indexmap.specs.IndexSet.{insert_all};
ghost use Rattle.vx_match_keys.specs.Kept.{kept_keys};
ghost use Rattle.vx_match_keys.specs.Numbers.{numbers_of};

use crate::column_keys::{ColumnKeys, key_types};
use crate::row_keys::RowKeys;
use std::alloc::{AllocError, Global};
use std::marker::Model;
use vx_rows::Row;
use vx_rows_values::{Cell, KeySeed};
use vx_rows_views::Chunk;

// Keys by columns, or each as a row of its own.
enum Kept {
    Columns(ColumnKeys),
    Rows(RowKeys),
}

impl Drop for Kept {
    fn drop(self) {
        match self {
            Kept::Columns(_) => {}
            Kept::Rows(_) => {}
        }
    }
}

/// Keys of any number of values. The first rows that are numbered decide of what types they are, and while all are of these,
/// they are kept by columns. Where later rows have keys of other types, or two keys have one hash of 64 bits, each key is
/// copied into a row of its own, and they stay so from then on.
pub(crate) struct CompositeKeys {
    kept: Kept,
    seed: KeySeed,
    alloc: Global,
}

impl Drop for CompositeKeys {
    fn drop(self) {
        let CompositeKeys {
            kept: _,
            seed: _,
            alloc: _,
        } = self;
    }
}

impl Model for CompositeKeys {
    ghost use Rattle.std.specs.Prelude.{List};
    ghost use Rattle.vx_rows_values.specs.Values.{Row};
    ghost use Rattle.vx_match_keys.specs.Kept.{kept_keys};

    ghost Value = { List Row };

    ghost view = { λ k. kept_keys k.kept };
}

// No keys, kept as suits those that the rows of a chunk have in these columns. A key without values has no column.
fn kept_for(
    alloc: Global,
    seed: KeySeed,
    chunk: &Chunk,
    columns: &[usize],
) -> Result<Kept, AllocError>
    requires { AreColumns (length chunk.now.types) columns.now }
    ensures { IfOk result (λ k. kept_keys k ≡ []) }
{
    if columns.is_empty() {
        return Ok(Kept::Rows(RowKeys::new(alloc, seed)));
    }
    let types = key_types(alloc, chunk, columns)?;
    let keys = ColumnKeys::new(alloc, seed, types.as_slice())?;
    Ok(Kept::Columns(keys))
}

// The values of a row.
fn row_cells(alloc: Global, row: &Row) -> Result<Vec<Cell<'_>>, AllocError>
    ensures { IfOk result (λ v. map cell_val v.items ≡ row.now) }
{
    let values = row.values();
    let mut cells = Vec::with_capacity(alloc, values.len())?;
    for value in values {
        cells.push(value.cell())?;
    }
    Ok(cells)
}

impl CompositeKeys {
    /// No keys, to be hashed by this seed.
    pub fn new(alloc: Global, seed: KeySeed) -> CompositeKeys
        ensures { result ≡ [] }
    {
        CompositeKeys::of(alloc, seed, RowKeys::new(alloc, seed))
    }

    /// These keys.
    pub fn of(alloc: Global, seed: KeySeed, keys: RowKeys) -> CompositeKeys
        ensures { result ≡ keys }
    {
        CompositeKeys {
            kept: Kept::Rows(keys),
            seed,
            alloc,
        }
    }

    /// How many keys there are.
    pub fn len(&self) -> usize
        ensures len { result ≡ length self.now }
        ensures unique { IsDistinct row_eq self.now }
    {
        match &self.kept {
            Kept::Columns(keys) => keys.len(),
            Kept::Rows(keys) => keys.len(),
        }
    }

    /// The values of the key of a number.
    pub fn cells(&self, number: usize) -> Result<Vec<Cell<'_>>, AllocError>
        requires { number < length self.now }
        ensures { IfOk result (λ v. slice_get self.now number ≡ Some (map cell_val v.items)) }
    {
        match &self.kept {
            Kept::Columns(keys) => keys.cells(number),
            Kept::Rows(keys) => row_cells(self.alloc, keys.get(number)),
        }
    }

    // The same keys, each as a row of its own.
    fn as_rows(&self) -> Result<RowKeys, AllocError>
        ensures { IfOk result (λ k. k ≡ self.now) }
    {
        let mut rows = RowKeys::new(self.alloc, self.seed);
        for number in 0..self.len() {
            let cells = self.cells(number)?;
            rows.add(cells.as_slice())?;
        }
        Ok(rows)
    }

    // Does what `number_all` does with the first rows of the chunk, and returns how many: all of them, or some of those before
    // the first whose key cannot be kept with these.
    fn number_first(
        &mut self,
        chunk: &Chunk,
        columns: &[usize],
        numbers: &mut Vec<usize>,
    ) -> Result<usize, AllocError>
        requires { AreColumns (length chunk.now.types) columns.now }
        ensures within { IfOk result (λ n. n ≤ length chunk.now.rows) }
        ensures numbers { IfOk result (λ n. numbers.new.items ≡ numbers.old.items ++ numbers_of self.old (take n (map (pick columns.now) chunk.now.rows))) }
        ensures keys { IfOk result (λ n. self.new ≡ insert_all row_eq self.old (take n (map (pick columns.now) chunk.now.rows))) }
    {
        match &mut self.kept {
            Kept::Columns(keys) => return keys.number_all(chunk, columns, numbers),
            Kept::Rows(keys) => keys.number_all(chunk, columns, numbers)?,
        }
        Ok(chunk.len())
    }

    // Does what `number_all` does with the rows from one on, behind which each key is a row of its own.
    fn number_rest(
        &mut self,
        chunk: &Chunk,
        from: usize,
        columns: &[usize],
        numbers: &mut Vec<usize>,
    ) -> Result<(), AllocError>
        requires there { from ≤ length chunk.now.rows }
        requires columns { AreColumns (length chunk.now.types) columns.now }
        ensures numbers { OnOk result (numbers.new.items ≡ numbers.old.items ++ numbers_of self.old (drop from (map (pick columns.now) chunk.now.rows))) }
        ensures keys { OnOk result (self.new ≡ insert_all row_eq self.old (drop from (map (pick columns.now) chunk.now.rows))) }
    {
        let mut rows = self.as_rows()?;
        let rest = chunk.slice(self.alloc, from, chunk.len())?;
        rows.number_all(&rest, columns, numbers)?;
        self.kept = Kept::Rows(rows);
        Ok(())
    }

    // Does what `number_all` does, with the keys kept as they are for as many rows as can be.
    fn number_kept(
        &mut self,
        chunk: &Chunk,
        columns: &[usize],
        numbers: &mut Vec<usize>,
    ) -> Result<(), AllocError>
        requires { AreColumns (length chunk.now.types) columns.now }
        ensures numbers { OnOk result (numbers.new.items ≡ numbers.old.items ++ numbers_of self.old (map (pick columns.now) chunk.now.rows)) }
        ensures keys { OnOk result (self.new ≡ insert_all row_eq self.old (map (pick columns.now) chunk.now.rows)) }
    {
        let taken = self.number_first(chunk, columns, numbers)?;
        if taken == chunk.len() {
            return Ok(());
        }
        self.number_rest(chunk, taken, columns, numbers)?;
        Ok(())
    }

    /// Adds the numbers of the keys that the rows of a chunk have in these columns. Keys that are new are added.
    pub fn number_all(
        &mut self,
        chunk: &Chunk,
        columns: &[usize],
        numbers: &mut Vec<usize>,
    ) -> Result<(), AllocError>
        requires { AreColumns (length chunk.now.types) columns.now }
        ensures numbers { OnOk result (numbers.new.items ≡ numbers.old.items ++ numbers_of self.old (map (pick columns.now) chunk.now.rows)) }
        ensures keys { OnOk result (self.new ≡ insert_all row_eq self.old (map (pick columns.now) chunk.now.rows)) }
    {
        if self.len() == 0 {
            self.kept = kept_for(self.alloc, self.seed, chunk, columns)?;
        }
        self.number_kept(chunk, columns, numbers)?;
        Ok(())
    }

    /// The index of the key of each row of `chunk` in `columns`, or `self.len()` where it is absent.
    pub fn find_all(&self, chunk: &Chunk, columns: &[usize]) -> Result<Vec<usize>, AllocError>
        requires { AreColumns (length chunk.now.types) columns.now }
        ensures { IfOk result (λ v. v.items ≡ map (λ r. position_or_len (row_eq (pick columns.now r)) self.now) chunk.now.rows) }
    {
        match &self.kept {
            Kept::Columns(keys) => keys.find_all(chunk, columns),
            Kept::Rows(keys) => keys.find_all(chunk, columns),
        }
    }
}
