//! Keys that are one number each, found with no hashing.

ghost use Rattle.std.specs.Prelude.{◌≡◌, ◌≢◌, ◌+◌, ◌*◌, ◌-◌, ◌^◌, ◌<◌, ◌≤◌, ◌++◌, ◌∷◌, [], ℕ, pos, min, max, length, map, take, OnOk, IfOk, IfSome, IfNone, slice_get, slice_index, slice_index_or, vec_len, position, Some, None};
ghost use Rattle.std.specs.List.{position_or_len, IsDistinct};
ghost use Rattle.vx_rows_values.specs.Values.{row_eq};
ghost use Rattle.indexmap.specs.IndexSet.{insert_key, insert_all};
ghost use Rattle.vx_match_keys.specs.Columns.{number_key};
ghost use Rattle.vx_match_keys.specs.Direct.{direct_key};
ghost use Rattle.vx_match_keys.specs.Numbers.{numbers_of};

use crate::columns::IntColumn;
use std::alloc::{AllocError, Global};
use std::marker::Model;

// A key below this is never too large: the table has half a MiB at most then.
const SMALL: usize = 65_536;

// How many places the table may have for each key that is there or expected. It is above the number of workers that often
// share the keys of one relation, since each of them has keys of the whole range.
const SPREAD: usize = 8;

// The table holds numbers of 32 bits.
const MOST: usize = 0xffff_ffff;

// How many keys are read and found at once. Their numbers are then added to a list all together: one that grows by one number
// at a time has its length written and read again for each.
const BLOCK: usize = 64;

// If at least `MANY` known keys come before a new one, most keys are known.
const MANY: usize = 8;

/// Keys of one number each that are found by direct addressing, as in joins and groups by a perfect hash: the key itself is
/// its place in a table, and one read there finds it. At the place of a key the table has one more than the number of the
/// key, and 0 at all others.
///
/// It is for keys that lie close together from 0 on, as the numbers of rows, of categories or of the entries of a dictionary.
/// A key that is new is refused if it is negative, or if the table would have to be long beside the keys that are there or
/// expected. The table grows as keys come, at least to twice its length.
pub(crate) struct DirectKeys {
    keys: Vec<u32>,
    table: Vec<u32>,
    room: usize,
    alloc: Global,
}

impl Drop for DirectKeys {
    fn drop(self) {
        let DirectKeys {
            keys: _,
            table: _,
            room: _,
            alloc: _,
        } = self;
    }
}

impl Model for DirectKeys {
    ghost use Rattle.std.specs.Prelude.{List, map};
    ghost use Rattle.vx_rows_values.specs.Values.{Row};
    ghost use Rattle.vx_match_keys.specs.Direct.{direct_key, IsTable};

    ghost Value = { List Row };

    ghost view = { λ k. map direct_key k.keys.items };

    ghost invariant = { λ k. IsTable k.keys.items k.table.items };
}

// Below which number a new key has to be, where `room` keys are expected and `known` are there.
fn window(room: usize, known: usize) -> usize
    ensures { result ≡ min (max (8 * max room known) 65536) (2 ^ 32 - 1) }
{
    room.max(known).saturating_mul(SPREAD).max(SMALL).min(MOST)
}

// How many keys of a block are done with before known ones are looked for again, where the first `known` are known and the
// next is new: that one too if most keys are known, and else all, since the search would end at a new key at once.
fn part_end(known: usize, block: usize) -> usize
    requires { known ≤ block }
    ensures from { known ≤ result }
    ensures to { result ≤ block }
    ensures some { 0 < block → 0 < result }
{
    if known < MANY || known == block {
        return block;
    }
    known + 1
}

// The place of `key` in a table of `count` places, or `None` if it has none there.
fn place_within(key: i64, count: usize) -> Option<usize>
    ensures there { IfSome result (λ place. key ≡ pos place) }
    ensures within { IfSome result (λ place. place < count) }
    ensures none { IfNone result ((place : ℕ) → place < count → key ≢ pos place) }
{
    if key < 0 {
        return None;
    }
    let place = key as usize;
    if place < count { Some(place) } else { None }
}

// Makes a table reach past a place. It grows by zeros, so that it says of each number what it said before.
#[inline(always)]
fn reach(table: &mut Vec<u32>, place: usize) -> Result<(), AllocError>
    requires { place < 2 ^ 32 }
    ensures same { (v : ℕ) → slice_index table.new.items v ≡ slice_index table.old.items v }
    ensures there { OnOk result (place < vec_len table.new) }
{
    let count = table.len();
    if place < count {
        return Ok(());
    }
    table.resize(count.saturating_mul(2).max(place + 1), 0)?;
    Ok(())
}

impl DirectKeys {
    /// No keys yet. The caller expects `room` of them.
    pub fn new(alloc: Global, room: usize) -> DirectKeys
        ensures { result ≡ [] }
    {
        DirectKeys {
            keys: Vec::new(alloc),
            table: Vec::new(alloc),
            room,
            alloc,
        }
    }

    /// How many keys there are.
    pub fn len(&self) -> usize
        ensures len { result ≡ length self.now }
        ensures unique { IsDistinct row_eq self.now }
    {
        self.keys.len()
    }

    /// The key of a number.
    pub fn get(&self, number: usize) -> i64
        requires { number < length self.now }
        ensures { slice_get self.now number ≡ Some (number_key result) }
    {
        i64::from(self.keys[number])
    }

    // The number of a key, if it is here.
    fn find(&self, key: i64) -> Option<usize>
        ensures { result ≡ position (row_eq (number_key key)) self.now }
    {
        let place = place_within(key, self.table.len())?;
        let mark = self.table[place] as usize;
        if mark == 0 {
            return None;
        }
        Some(mark - 1)
    }

    // Adds the key of a place, which is not here, and returns its number. If it is refused, nothing changes.
    #[inline(always)]
    fn put(&mut self, place: usize) -> Result<Option<usize>, AllocError>
        requires { position (row_eq (direct_key place)) self.old ≡ None }
        ensures number { IfOk result (λ o. IfSome o (λ n. n ≡ length self.old)) }
        ensures keys { IfOk result (λ o. IfSome o (λ _. self.new ≡ self.old ++ direct_key place ∷ [])) }
        ensures refused { IfOk result (λ o. IfNone o (self.new ≡ self.old)) }
        // a number and a key have 32 bits each
        ensures full { IfOk result (λ o. IfNone o (place < 2 ^ 32 - 1 → 2 ^ 32 - 1 ≤ length self.old)) }
    {
        let number = self.keys.len();
        if number >= MOST || place >= MOST {
            return Ok(None);
        }
        reach(&mut self.table, place)?;
        self.keys.push(place as u32)?;
        self.table[place] = number as u32 + 1;
        Ok(Some(number))
    }

    // Adds a key that is not here, and returns its number. If it is refused, nothing changes.
    fn add(&mut self, key: i64) -> Result<Option<usize>, AllocError>
        requires { position (row_eq (number_key key)) self.old ≡ None }
        ensures number { IfOk result (λ o. IfSome o (λ n. n ≡ length self.old)) }
        ensures keys { IfOk result (λ o. IfSome o (λ _. self.new ≡ self.old ++ number_key key ∷ [])) }
        ensures refused { IfOk result (λ o. IfNone o (self.new ≡ self.old)) }
        // a small key is refused only where there are as many keys as have numbers
        ensures small { IfOk result (λ o. IfNone o ((v : ℕ) → v < 65536 → key ≡ pos v → 2 ^ 32 - 1 ≤ length self.old)) }
    {
        let Some(place) = place_within(key, window(self.room, self.keys.len())) else {
            return Ok(None);
        };
        self.put(place)
    }

    /// The number of a key, which is added if it is new. A new one that is refused changes nothing.
    pub fn number(&mut self, key: i64) -> Result<Option<usize>, AllocError>
        ensures number { IfOk result (λ o. IfSome o (λ n. n ≡ position_or_len (row_eq (number_key key)) self.old)) }
        ensures keys { IfOk result (λ o. IfSome o (λ _. self.new ≡ insert_key row_eq self.old (number_key key))) }
        ensures refused { IfOk result (λ o. IfNone o (self.new ≡ self.old)) }
        // a small key is refused only where there are as many keys as have numbers
        ensures small { IfOk result (λ o. IfNone o ((v : ℕ) → v < 65536 → key ≡ pos v → 2 ^ 32 - 1 ≤ length self.old)) }
    {
        let Some(place) = place_within(key, self.table.len()) else {
            return self.add(key);
        };
        let mark = self.table[place] as usize;
        if mark != 0 {
            return Ok(Some(mark - 1));
        }
        // it is new, and the table is long enough already
        self.put(place)
    }

    // Looks up `keys` in order into `found` until the first absent one; returns how many were found.
    fn find_known(&self, keys: &[i64], found: &mut [usize]) -> usize
        requires { length keys.now ≡ length found.old }
        ensures within { result ≤ length found.old }
        ensures numbers { take result found.new ≡ numbers_of self.now (take result (map number_key keys.now)) }
        // so the keys stay as they are
        ensures keys { insert_all row_eq self.now (take result (map number_key keys.now)) ≡ self.now }
    {
        let count = found.len();
        for i in 0..count {
            let Some(number) = self.find(keys[i]) else {
                return i;
            };
            found[i] = number;
        }
        count
    }

    // Puts the numbers of these keys, up to the first that is refused, and returns how many it took. Keys that are new are
    // added.
    fn number_part(&mut self, keys: &[i64], found: &mut [usize]) -> Result<usize, AllocError>
        requires { length keys.now ≡ length found.old }
        ensures within { IfOk result (λ n. n ≤ length keys.now) }
        ensures numbers { IfOk result (λ n. take n found.new ≡ numbers_of self.old (take n (map number_key keys.now))) }
        ensures keys { IfOk result (λ n. self.new ≡ insert_all row_eq self.old (take n (map number_key keys.now))) }
        // a small key is refused only where there are as many keys as have numbers
        ensures small { IfOk result (λ n. n < length keys.now → (v : ℕ) → v < 65536 → slice_index_or keys.now n (pos 0) ≡ pos v → 2 ^ 32 - 1 ≤ length self.new) }
    {
        let count = found.len();
        for i in 0..count {
            let Some(number) = self.number(keys[i])? else {
                return Ok(i);
            };
            found[i] = number;
        }
        Ok(count)
    }

    // Does what `number_part` does, and faster where most of the keys are known.
    fn number_block(&mut self, keys: &[i64], found: &mut [usize]) -> Result<usize, AllocError>
        requires { length keys.now ≡ length found.old }
        ensures within { IfOk result (λ n. n ≤ length keys.now) }
        ensures numbers { IfOk result (λ n. take n found.new ≡ numbers_of self.old (take n (map number_key keys.now))) }
        ensures keys { IfOk result (λ n. self.new ≡ insert_all row_eq self.old (take n (map number_key keys.now))) }
        // a small key is refused only where there are as many keys as have numbers
        ensures small { IfOk result (λ n. n < length keys.now → (v : ℕ) → v < 65536 → slice_index_or keys.now n (pos 0) ≡ pos v → 2 ^ 32 - 1 ≤ length self.new) }
    {
        let count = keys.len();
        let mut done = 0;
        while done < count {
            let known = self.find_known(&keys[done..], &mut found[done..]);
            let start = done + known;
            let end = done + part_end(known, count - done);
            let taken = self.number_part(&keys[start..end], &mut found[start..end])?;
            if start + taken < end {
                return Ok(start + taken);
            }
            done = end;
        }
        Ok(count)
    }

    /// Adds the numbers of these keys, up to the first that is refused. Keys that are new are added. It returns how many it
    /// took: all, or those before the first that is refused.
    pub fn number_all(
        &mut self,
        column: &IntColumn<'_>,
        numbers: &mut Vec<usize>,
    ) -> Result<usize, AllocError>
        ensures within { IfOk result (λ n. n ≤ length column.now) }
        ensures numbers { IfOk result (λ n. numbers.new.items ≡ numbers.old.items ++ numbers_of self.old (take n column.now)) }
        ensures keys { IfOk result (λ n. self.new ≡ insert_all row_eq self.old (take n column.now)) }
        // a small key is refused only where there are as many keys as have numbers
        ensures small { IfOk result (λ n. n < length column.now → (v : ℕ) → v < 65536 → slice_index_or column.now n [] ≡ number_key (pos v) → 2 ^ 32 - 1 ≤ length self.new) }
    {
        let count = column.len();
        let mut keys = [0; BLOCK];
        let mut found = [0; BLOCK];
        let mut from = 0;
        while from < count {
            let block = BLOCK.min(count - from);
            column.read(from, &mut keys[..block]);
            let taken = self.number_block(&keys[..block], &mut found[..block])?;
            numbers.extend_from_slice(&found[..taken])?;
            if taken < block {
                return Ok(from + taken);
            }
            from += block;
        }
        Ok(count)
    }

    // The index of `key`, or `self.len()` if it is absent.
    fn number_or_next(&self, key: i64) -> usize
        ensures { result ≡ position_or_len (row_eq (number_key key)) self.now }
    {
        let Some(number) = self.find(key) else {
            return self.len();
        };
        number
    }

    // Sets `found[i]` to the index of `keys[i]`, or to `self.len()` if it is absent.
    fn find_block(&self, keys: &[i64], found: &mut [usize])
        requires { length keys.now ≡ length found.old }
        ensures { found.new ≡ map (λ k. position_or_len (row_eq k) self.now) (map number_key keys.now) }
    {
        for i in 0..found.len() {
            found[i] = self.number_or_next(keys[i]);
        }
    }

    /// The index of each key in `column`, or `self.len()` where it is absent.
    pub fn find_all(&self, column: &IntColumn<'_>) -> Result<Vec<usize>, AllocError>
        ensures { IfOk result (λ v. v.items ≡ map (λ k. position_or_len (row_eq k) self.now) column.now) }
    {
        let count = column.len();
        let mut numbers = Vec::with_capacity(self.alloc, count)?;
        let mut keys = [0; BLOCK];
        let mut found = [0; BLOCK];
        let mut from = 0;
        while from < count {
            let block = BLOCK.min(count - from);
            column.read(from, &mut keys[..block]);
            self.find_block(&keys[..block], &mut found[..block]);
            numbers.extend_from_slice(&found[..block])?;
            from += block;
        }
        Ok(numbers)
    }
}
