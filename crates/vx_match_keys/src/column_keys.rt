//! Keys of several values, kept by columns.

ghost use Rattle.std.specs.Prelude.{nat_eq, ◌≡◌, ◌+◌, ◌<◌, ◌≤◌, ◌++◌, ◌∷◌, [], length, map, take, fold, All, OnOk, OnErr, IfOk, IfSome, IfNone, IsTrue, true, false, slice_get, slice_range, Some};
ghost use Rattle.std.specs.List.{position_or_len, IsDistinct};
ghost use Rattle.std.specs.Ordering.{is_eq};
ghost use Rattle.vx_rows_values.specs.Types.{type_at};
ghost use Rattle.vx_rows_values.specs.Values.{row_eq, val_cmp, pick};
ghost use Rattle.vx_rows_values.specs.ValueView.{cell_val};
ghost use Rattle.vx_rows.specs.Hashing.{val_feed};
ghost use Rattle.vx_rows.specs.View.{row, AreColumns, HasTypes};
ghost use Rattle.indexmap.specs.IndexSet.{insert_key, insert_all};
ghost use Rattle.vx_match_keys.specs.Hashed.{key_hash};
ghost use Rattle.vx_match_keys.specs.Numbers.{numbers_of};

use crate::key_hashes::{BLOCK, hash_keys};
use crate::key_matches::have_keys;
use indexmap::IndexSet;
use std::alloc::{AllocError, Global};
use std::hash::{BuildHasher, Hash, Hasher};
use std::marker::Model;
use vx_rows::Table;
use vx_rows_values::{Cell, ColType, KeySeed};
use vx_rows_views::Chunk;

// Room is reserved for at most so many times the keys that are there.
const GROWTH: usize = 16;

/// Keys of one list of types, kept by columns, and beside them the hash of each. No two have the same hash: where a new key
/// has that of another one, it is refused.
pub(crate) struct ColumnKeys {
    keys: Table,
    hashes: IndexSet<u64, KeySeed>,
    seed: KeySeed,
    alloc: Global,
}

impl Drop for ColumnKeys {
    fn drop(self) {
        let ColumnKeys {
            keys: _,
            hashes: _,
            seed: _,
            alloc: _,
        } = self;
    }
}

impl Model for ColumnKeys {
    ghost use Rattle.std.specs.Prelude.{◌≡◌, map};
    ghost use Rattle.vx_rows.specs.View.{RowsView};
    ghost use Rattle.vx_match_keys.specs.Hashed.{key_hash};

    ghost Value = { RowsView };

    ghost view = { λ k. k.keys };

    ghost invariant = { λ k. k.hashes.keys ≡ map (key_hash k.seed) k.keys.rows };
}

// Feeds a value to a hasher.
fn feed_cell<H: Hasher>(cell: Cell<'_>, state: &mut H)
    ensures { state.new ≡ fold H.write state.old (val_feed (cell_val cell.entry)) }
{
    match cell {
        Cell::Int(number) => number.hash(state),
        Cell::Text(text) => text.hash(state),
    }
}

// The hash of a key.
fn hash_of(seed: KeySeed, cells: &[Cell<'_>]) -> u64
    ensures { result ≡ key_hash seed (map cell_val cells.now) }
{
    let mut hasher = seed.build_hasher();
    for cell in cells {
        feed_cell(*cell, &mut hasher);
    }
    hasher.finish()
}

// Whether two values are one.
fn same_value(a: Cell<'_>, b: Cell<'_>) -> bool
    ensures { result ≡ is_eq (val_cmp (cell_val a.entry) (cell_val b.entry)) }
{
    match (a, b) {
        (Cell::Int(x), Cell::Int(y)) => x == y,
        (Cell::Text(x), Cell::Text(y)) => x == y,
        _ => false,
    }
}

// Becomes the values of a row in these columns.
fn read_cells<'a>(
    chunk: &'a Chunk,
    i: usize,
    columns: &[usize],
    cells: &mut Vec<Cell<'a>>,
) -> Result<(), AllocError>
    requires row { i < length chunk.now.rows }
    requires columns { AreColumns (length chunk.now.types) columns.now }
    ensures { OnOk result (map cell_val cells.new.items ≡ pick columns.now (row chunk.now i)) }
{
    cells.clear();
    for column in columns {
        cells.push(chunk.cell(i, *column))?;
    }
    Ok(())
}

/// The types of some columns of a chunk.
pub(crate) fn key_types(
    alloc: Global,
    chunk: &Chunk,
    columns: &[usize],
) -> Result<Vec<ColType>, AllocError>
    requires { AreColumns (length chunk.now.types) columns.now }
    ensures { IfOk result (λ v. v.items ≡ map (type_at chunk.now.types) columns.now) }
{
    let types = chunk.types();
    let mut found = Vec::with_capacity(alloc, columns.len())?;
    for column in columns {
        found.push(types[*column])?;
    }
    Ok(found)
}

// Whether the keys that a chunk has in these columns are of these types.
fn have_types(chunk: &Chunk, columns: &[usize], types: &[ColType]) -> bool
    requires { AreColumns (length chunk.now.types) columns.now }
    ensures { IsTrue result → All (λ r. HasTypes types.now (pick columns.now r)) chunk.now.rows }
{
    if columns.len() != types.len() {
        return false;
    }
    let own = chunk.types();
    for j in 0..columns.len() {
        if own[columns[j]] != types[j] {
            return false;
        }
    }
    true
}

// The number of a hash, or how many there are where it is new.
fn hash_or_next(hashes: &IndexSet<u64, KeySeed>, hash: u64) -> usize
    ensures { result ≡ position_or_len (nat_eq hash) hashes.now.keys }
{
    let Some(number) = hashes.get_index_of(&hash) else {
        return hashes.len();
    };
    number
}

// Puts the number of each hash into a slice, or how many there are where it is new.
fn find_hashes(hashes: &IndexSet<u64, KeySeed>, wanted: &[u64], found: &mut [usize])
    requires { length wanted.now ≡ length found.old }
    ensures { found.new ≡ map (λ h. position_or_len (nat_eq h) hashes.now.keys) wanted.now }
{
    for i in 0..found.len() {
        found[i] = hash_or_next(hashes, wanted[i]);
    }
}

// Adds the key of a row, whose hash stands there already. If memory runs out, its hash goes again.
fn push_key<'a>(
    keys: &mut Table,
    hashes: &mut IndexSet<u64, KeySeed>,
    chunk: &'a Chunk,
    i: usize,
    columns: &[usize],
    cells: &mut Vec<Cell<'a>>,
) -> Result<(), AllocError>
    requires row { i < length chunk.now.rows }
    requires columns { AreColumns (length chunk.now.types) columns.now }
    requires types { HasTypes keys.old.types (pick columns.now (row chunk.now i)) }
    ensures types { keys.new.types ≡ keys.old.types }
    ensures keys { OnOk result (keys.new.rows ≡ keys.old.rows ++ pick columns.now (row chunk.now i) ∷ []) }
    ensures hashes { OnOk result (hashes.new.keys ≡ hashes.old.keys) }
    ensures err_keys { OnErr result (keys.new.rows ≡ keys.old.rows) }
    ensures err_hashes { OnErr result (hashes.new.keys ≡ take (length keys.old.rows) hashes.old.keys) }
{
    let count = keys.len();
    if read_cells(chunk, i, columns, cells).is_err() || keys.push_cells(cells.as_slice()).is_err() {
        hashes.truncate(count);
        return Err(AllocError);
    }
    Ok(())
}

impl ColumnKeys {
    /// No keys of these types, to be hashed by this seed.
    pub fn new(alloc: Global, seed: KeySeed, types: &[ColType]) -> Result<ColumnKeys, AllocError>
        ensures types { IfOk result (λ k. k.types ≡ types.now) }
        ensures keys { IfOk result (λ k. k.rows ≡ []) }
    {
        let keys = Table::new(alloc, types)?;
        Ok(ColumnKeys {
            keys,
            hashes: IndexSet::with_hasher(alloc, seed),
            seed,
            alloc,
        })
    }

    /// How many keys there are.
    pub fn len(&self) -> usize
        ensures len { result ≡ length self.now.rows }
        ensures unique { IsDistinct row_eq self.now.rows }
    {
        let _count = self.hashes.len();
        self.keys.len()
    }

    /// The values of the key of a number.
    pub fn cells(&self, number: usize) -> Result<Vec<Cell<'_>>, AllocError>
        requires { number < length self.now.rows }
        ensures { IfOk result (λ v. slice_get self.now.rows number ≡ Some (map cell_val v.items)) }
    {
        let width = self.keys.types().len();
        let mut cells = Vec::with_capacity(self.alloc, width)?;
        for column in 0..width {
            cells.push(self.keys.cell(number, column))?;
        }
        Ok(cells)
    }

    // Whether the key of a number has these values.
    fn is_key(&self, number: usize, cells: &[Cell<'_>]) -> bool
        requires { number < length self.now.rows }
        ensures { result ≡ row_eq (map cell_val cells.now) (row self.now number) }
    {
        if cells.len() != self.keys.types().len() {
            return false;
        }
        for column in 0..cells.len() {
            if !same_value(cells[column], self.keys.cell(number, column)) {
                return false;
            }
        }
        true
    }

    // Reserves room for keys of the `rest` rows of a chunk that are still to come, where there is none for a block, and more
    // than half of the `done` rows before them had new keys. It is for speed alone: where memory is refused here, the keys
    // that come ask for it again.
    fn make_room(&mut self, added: usize, done: usize, rest: usize)
        ensures { self.new ≡ self.old }
    {
        let known = self.hashes.len();
        if self.hashes.capacity() - known >= BLOCK || added <= done / 2 {
            return;
        }
        let room = known.saturating_mul(GROWTH).min(rest);
        let _ = self.hashes.reserve(room);
        let _ = self.keys.reserve(room);
    }

    // Puts the numbers of the keys that the rows from one on have in these columns into a slice, and adds keys that are new.
    // It returns `false`, and adds none, where one is refused. All hashes are looked up before new ones are added, so that
    // the look-ups need not wait for one another, and the keys that were found are compared at the end, column by column.
    fn number_block<'a>(
        &mut self,
        chunk: &'a Chunk,
        columns: &[usize],
        from: usize,
        found: &mut [usize],
        cells: &mut Vec<Cell<'a>>,
    ) -> Result<bool, AllocError>
        requires columns { AreColumns (length chunk.now.types) columns.now }
        requires there { from + length found.old ≤ length chunk.now.rows }
        requires block { length found.old ≤ BLOCK }
        requires types { All (λ r. HasTypes self.old.types (pick columns.now r)) chunk.now.rows }
        ensures types { self.new.types ≡ self.old.types }
        ensures len { length found.new ≡ length found.old }
        ensures numbers { IfOk result (λ all. all ≡ true → found.new ≡ numbers_of self.old.rows (slice_range (map (pick columns.now) chunk.now.rows) from (from + length found.old))) }
        ensures keys { IfOk result (λ all. all ≡ true → self.new.rows ≡ insert_all row_eq self.old.rows (slice_range (map (pick columns.now) chunk.now.rows) from (from + length found.old))) }
        ensures refused { IfOk result (λ all. all ≡ false → self.new.rows ≡ self.old.rows) }
    {
        let known = self.hashes.len();
        // no row is above this
        let _count = chunk.len();
        let mut block = [0; BLOCK];
        let hashes = &mut block[..found.len()];
        hash_keys(self.seed, chunk, columns, from, hashes);
        find_hashes(&self.hashes, hashes, found);
        for i in 0..found.len() {
            if found[i] != known {
                continue;
            }
            let (number, added) = self.hashes.insert_full(hashes[i])?;
            found[i] = number;
            if !added {
                continue;
            }
            push_key(
                &mut self.keys,
                &mut self.hashes,
                chunk,
                from + i,
                columns,
                cells,
            )?;
        }
        if have_keys(&self.keys, found, chunk, columns, from) {
            return Ok(true);
        }
        self.keys.truncate(known);
        self.hashes.truncate(known);
        Ok(false)
    }

    /// Adds the numbers of the keys that the rows of a chunk have in these columns. Keys that are new are added. It returns
    /// how many rows it took: none where the columns have other types than these keys, and else all, or those of the blocks
    /// before the first one that has a key which is refused.
    pub fn number_all(
        &mut self,
        chunk: &Chunk,
        columns: &[usize],
        numbers: &mut Vec<usize>,
    ) -> Result<usize, AllocError>
        requires { AreColumns (length chunk.now.types) columns.now }
        ensures within { IfOk result (λ n. n ≤ length chunk.now.rows) }
        ensures numbers { IfOk result (λ n. numbers.new.items ≡ numbers.old.items ++ numbers_of self.old.rows (take n (map (pick columns.now) chunk.now.rows))) }
        ensures keys { IfOk result (λ n. self.new.rows ≡ insert_all row_eq self.old.rows (take n (map (pick columns.now) chunk.now.rows))) }
    {
        if !have_types(chunk, columns, self.keys.types()) {
            return Ok(0);
        }
        let count = chunk.len();
        let before = self.keys.len();
        let mut cells = Vec::with_capacity(self.alloc, columns.len())?;
        let mut found = [0; BLOCK];
        let mut from = 0;
        while from < count {
            let block = BLOCK.min(count - from);
            self.make_room(self.len().saturating_sub(before), from, count - from);
            if !self.number_block(chunk, columns, from, &mut found[..block], &mut cells)? {
                return Ok(from);
            }
            numbers.extend_from_slice(&found[..block])?;
            from += block;
        }
        Ok(count)
    }

    // The index of the key `cells`, or `self.len()` if it is absent.
    fn number_or_next(&self, cells: &[Cell<'_>]) -> usize
        ensures { result ≡ position_or_len (row_eq (map cell_val cells.now)) self.now.rows }
    {
        let count = self.keys.len();
        let _hashes = self.hashes.len();
        let hash = hash_of(self.seed, cells);
        let Some(number) = self.hashes.get_index_of(&hash) else {
            return count;
        };
        if self.is_key(number, cells) {
            return number;
        }
        count
    }

    /// The index of the key of each row of `chunk` in `columns`, or `self.len()` where it is absent.
    pub fn find_all(&self, chunk: &Chunk, columns: &[usize]) -> Result<Vec<usize>, AllocError>
        requires { AreColumns (length chunk.now.types) columns.now }
        ensures { IfOk result (λ v. v.items ≡ map (λ r. position_or_len (row_eq (pick columns.now r)) self.now.rows) chunk.now.rows) }
    {
        let mut cells = Vec::with_capacity(self.alloc, columns.len())?;
        let mut numbers = Vec::with_capacity(self.alloc, chunk.len())?;
        for i in 0..chunk.len() {
            read_cells(chunk, i, columns, &mut cells)?;
            let number = self.number_or_next(cells.as_slice());
            numbers.push(number)?;
        }
        Ok(numbers)
    }
}
