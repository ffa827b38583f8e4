//! Keys of any number of values.

ghost use Rattle.std.specs.Prelude.{◌≡◌, ◌<◌, ◌++◌, [], length, map, OnOk, IfOk, slice_get, Some};
ghost use Rattle.std.specs.List.{position_or_len, IsDistinct};
ghost use Rattle.vx_rows_values.specs.Values.{row_eq, pick};
ghost use Rattle.vx_rows_values.specs.ValueView.{cell_val};
ghost use Rattle.vx_rows.specs.View.{AreColumns};
ghost use Rattle.vx_rows.specs.Lists.{each_below};
ghost use Rattle.indexmap.specs.IndexSet.{insert_key, insert_all};
ghost use Rattle.vx_match_keys.specs.Numbers.{numbers_of};

use indexmap::IndexSet;
use std::alloc::{AllocError, Global};
use std::marker::Model;
use vx_rows::{Row, Table};
use vx_rows_values::{Cell, KeySeed};
use vx_rows_views::Chunk;

/// Keys that are hashed value by value.
pub(crate) struct RowKeys {
    set: IndexSet<Row, KeySeed>,
    alloc: Global,
}

impl Drop for RowKeys {
    fn drop(self) {
        let RowKeys { set: _, alloc: _ } = self;
    }
}

impl Model for RowKeys {
    ghost use Rattle.std.specs.Prelude.{List};
    ghost use Rattle.vx_rows_values.specs.Values.{Row};

    ghost Value = { List Row };

    ghost view = { λ k. k.set.keys };
}

impl RowKeys {
    /// No keys, to be hashed by this seed.
    pub fn new(alloc: Global, seed: KeySeed) -> RowKeys
        ensures { result ≡ [] }
    {
        RowKeys {
            set: IndexSet::with_hasher(alloc, seed),
            alloc,
        }
    }

    /// How many keys there are.
    pub fn len(&self) -> usize
        ensures len { result ≡ length self.now }
        ensures unique { IsDistinct row_eq self.now }
    {
        self.set.len()
    }

    /// The key of a number.
    pub fn get(&self, number: usize) -> &Row
        requires { number < length self.now }
        ensures { slice_get self.now number ≡ Some result.now }
    {
        &self.set.as_slice()[number]
    }

    /// Adds a key, if it is new.
    pub fn add(&mut self, cells: &[Cell<'_>]) -> Result<(), AllocError>
        ensures { OnOk result (self.new ≡ insert_key row_eq self.old (map cell_val cells.now)) }
    {
        let key = row_of(self.alloc, cells)?;
        self.set.insert_full(key)?;
        Ok(())
    }

    // The number of a key, which is copied and added if it is new. After an `Err` the keys are as before.
    fn number(&mut self, key: &Row) -> Result<usize, AllocError>
        ensures number { IfOk result (λ n. n ≡ position_or_len (row_eq key.now) self.old) }
        ensures keys { OnOk result (self.new ≡ insert_key row_eq self.old key.now) }
    {
        let _count = self.set.len();
        if let Some(number) = self.set.get_index_of(key) {
            return Ok(number);
        }
        let (number, _) = self.set.insert_full(key.copy()?)?;
        Ok(number)
    }

    // Adds the numbers of keys that are the rows of a table. Keys that are new are added.
    fn number_rows(&mut self, keys: &Table, numbers: &mut Vec<usize>) -> Result<(), AllocError>
        ensures numbers { OnOk result (numbers.new.items ≡ numbers.old.items ++ numbers_of self.old keys.now.rows) }
        ensures keys { OnOk result (self.new ≡ insert_all row_eq self.old keys.now.rows) }
    {
        let columns = numbers_below(self.alloc, keys.types().len())?;
        let mut key = Row::new(self.alloc);
        for i in 0..keys.len() {
            key.read(keys, i, columns.as_slice())?;
            let number = self.number(&key)?;
            numbers.push(number)?;
        }
        Ok(())
    }

    // Adds the numbers of as many keys without values as a chunk has rows. That key is added, if it is new. It is looked for
    // once, and not for each row.
    fn number_empty(&mut self, chunk: &Chunk, numbers: &mut Vec<usize>) -> Result<(), AllocError>
        ensures numbers { OnOk result (numbers.new.items ≡ numbers.old.items ++ numbers_of self.old (map (pick []) chunk.now.rows)) }
        ensures keys { OnOk result (self.new ≡ insert_all row_eq self.old (map (pick []) chunk.now.rows)) }
    {
        if chunk.len() == 0 {
            return Ok(());
        }
        let key = Row::new(self.alloc);
        let number = self.number(&key)?;
        push_for_each(numbers, number, chunk)?;
        Ok(())
    }

    /// Adds the numbers of the keys that the rows of a chunk have in these columns. Keys that are new are added.
    pub fn number_all(
        &mut self,
        chunk: &Chunk,
        columns: &[usize],
        numbers: &mut Vec<usize>,
    ) -> Result<(), AllocError>
        requires { AreColumns (length chunk.now.types) columns.now }
        ensures numbers { OnOk result (numbers.new.items ≡ numbers.old.items ++ numbers_of self.old (map (pick columns.now) chunk.now.rows)) }
        ensures keys { OnOk result (self.new ≡ insert_all row_eq self.old (map (pick columns.now) chunk.now.rows)) }
    {
        // a group of all rows has no column
        if columns.is_empty() {
            self.number_empty(chunk, numbers)?;
            return Ok(());
        }
        let keys = keys_of(self.alloc, chunk, columns)?;
        self.number_rows(&keys, numbers)?;
        Ok(())
    }

    // The index of `key`, or `self.len()` if it is absent.
    fn number_or_next(&self, key: &Row) -> usize
        ensures { result ≡ position_or_len (row_eq key.now) self.now }
    {
        let Some(number) = self.set.get_index_of(key) else {
            return self.set.len();
        };
        number
    }

    // The numbers of keys that are the rows of a table, as `find_all`.
    fn find_rows(&self, keys: &Table) -> Result<Vec<usize>, AllocError>
        ensures { IfOk result (λ v. v.items ≡ map (λ k. position_or_len (row_eq k) self.now) keys.now.rows) }
    {
        let columns = numbers_below(self.alloc, keys.types().len())?;
        let mut key = Row::new(self.alloc);
        let mut numbers = Vec::with_capacity(self.alloc, keys.len())?;
        for i in 0..keys.len() {
            key.read(keys, i, columns.as_slice())?;
            let number = self.number_or_next(&key);
            numbers.push(number)?;
        }
        Ok(numbers)
    }

    /// The index of the key of each row of `chunk` in `columns`, or `self.len()` where it is absent.
    pub fn find_all(&self, chunk: &Chunk, columns: &[usize]) -> Result<Vec<usize>, AllocError>
        requires { AreColumns (length chunk.now.types) columns.now }
        ensures { IfOk result (λ v. v.items ≡ map (λ r. position_or_len (row_eq (pick columns.now r)) self.now) chunk.now.rows) }
    {
        let keys = keys_of(self.alloc, chunk, columns)?;
        let numbers = self.find_rows(&keys)?;
        Ok(numbers)
    }
}

// Adds a number once for each row of a chunk.
fn push_for_each(numbers: &mut Vec<usize>, number: usize, chunk: &Chunk) -> Result<(), AllocError>
    ensures { OnOk result (numbers.new.items ≡ numbers.old.items ++ map (λ _. number) chunk.now.rows) }
{
    let Some(count) = numbers.len().checked_add(chunk.len()) else {
        return Err(AllocError);
    };
    numbers.resize(count, number)?;
    Ok(())
}

// A row of these values.
fn row_of(alloc: Global, cells: &[Cell<'_>]) -> Result<Row, AllocError>
    ensures { IfOk result (λ r. r ≡ map cell_val cells.now) }
{
    let mut row = Row::new(alloc);
    for cell in cells {
        row.push(cell.to_value(alloc)?)?;
    }
    Ok(row)
}

// The keys that the rows of a chunk have in these columns, as a table.
fn keys_of(alloc: Global, chunk: &Chunk, columns: &[usize]) -> Result<Table, AllocError>
    requires { AreColumns (length chunk.now.types) columns.now }
    ensures { IfOk result (λ t. t.rows ≡ map (pick columns.now) chunk.now.rows) }
{
    let keys = chunk.share(alloc)?.project(alloc, columns)?;
    let mut table = Table::new(alloc, keys.types())?;
    keys.copy_onto(alloc, &mut table)?;
    Ok(table)
}

// The numbers from 0 to `count`, without `count` itself.
fn numbers_below(alloc: Global, count: usize) -> Result<Vec<usize>, AllocError>
    ensures { IfOk result (λ v. v.items ≡ each_below count (λ k. k)) }
{
    let mut numbers = Vec::with_capacity(alloc, count)?;
    for number in 0..count {
        numbers.push(number)?;
    }
    Ok(numbers)
}
