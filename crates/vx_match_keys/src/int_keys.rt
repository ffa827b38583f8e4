//! Keys that are one number each.

ghost use Rattle.std.specs.Prelude.{◌≡◌, ◌<◌, ◌≤◌, ◌++◌, [], length, map, take, drop, OnOk, IfOk, IfSome, slice_get, Some};
ghost use Rattle.std.specs.List.{position_or_len, IsDistinct};
ghost use Rattle.vx_rows_values.specs.Values.{row_eq};
ghost use Rattle.indexmap.specs.IndexSet.{insert_all};
ghost use Rattle.vx_match_keys.specs.Columns.{number_key};
ghost use Rattle.vx_match_keys.specs.Numbers.{numbers_of};

use crate::columns::IntColumn;
use crate::direct_keys::DirectKeys;
use crate::hashed_keys::HashedKeys;
use std::alloc::{AllocError, Global};
use std::marker::Model;
use vx_rows_values::KeySeed;

// Keys found by a table, or by hashing.
enum Found {
    Direct(DirectKeys),
    Hashed(HashedKeys),
}

impl Drop for Found {
    fn drop(self) {
        match self {
            Found::Direct(_) => {}
            Found::Hashed(_) => {}
        }
    }
}

/// Keys of one number each. While they are small numbers from 0 on, they are found by a table, with no hashing. Once a key
/// comes that the table refuses, all are put into a hash set. Whenever there are twice as many of them, the table is tried
/// again: keys that come in any order, a batch at a time, lie close together once enough of them have come.
pub(crate) struct IntKeys {
    found: Found,
    room: usize,
    // how many keys were hashed when the table was last tried
    tried: usize,
    seed: KeySeed,
    alloc: Global,
}

impl Drop for IntKeys {
    fn drop(self) {
        let IntKeys {
            found: _,
            room: _,
            tried: _,
            seed: _,
            alloc: _,
        } = self;
    }
}

impl Model for IntKeys {
    ghost use Rattle.std.specs.Prelude.{List};
    ghost use Rattle.vx_rows_values.specs.Values.{Row};
    ghost use Rattle.vx_match_keys.specs.Found.{found_keys};

    ghost Value = { List Row };

    ghost view = { λ k. found_keys k.found };
}

impl IntKeys {
    /// No keys yet. The caller expects `room` of them. If they have to be hashed, they are hashed with `seed`.
    pub fn with_room(alloc: Global, seed: KeySeed, room: usize) -> Result<IntKeys, AllocError>
        ensures { IfOk result (λ k. k ≡ []) }
    {
        Ok(IntKeys {
            found: Found::Direct(DirectKeys::new(alloc, room)),
            room,
            tried: 0,
            seed,
            alloc,
        })
    }

    /// How many keys there are.
    pub fn len(&self) -> usize
        ensures len { result ≡ length self.now }
        ensures unique { IsDistinct row_eq self.now }
    {
        match &self.found {
            Found::Direct(keys) => keys.len(),
            Found::Hashed(keys) => keys.len(),
        }
    }

    /// The key of a number.
    pub fn get(&self, number: usize) -> i64
        requires { number < length self.now }
        ensures { slice_get self.now number ≡ Some (number_key result) }
    {
        match &self.found {
            Found::Direct(keys) => keys.get(number),
            Found::Hashed(keys) => keys.get(number),
        }
    }

    // The same keys, to be found by hashing, with room for those that are expected.
    fn as_hashed(&self) -> Result<HashedKeys, AllocError>
        ensures { IfOk result (λ k. k ≡ self.now) }
    {
        let count = self.len();
        let mut hashed = HashedKeys::with_room(self.alloc, self.seed, self.room.max(count))?;
        for number in 0..count {
            hashed.number(self.get(number))?;
        }
        Ok(hashed)
    }

    // The same keys, to be found by a table, if it takes them all. It may be as long as for four times as many: several workers
    // often share the keys of one relation, and more keys are still to come.
    fn as_direct(&self) -> Result<Option<DirectKeys>, AllocError>
        ensures { IfOk result (λ o. IfSome o (λ k. k ≡ self.now)) }
    {
        let count = self.len();
        let mut direct = DirectKeys::new(self.alloc, count.saturating_mul(4));
        for number in 0..count {
            let Some(_) = direct.number(self.get(number))? else {
                return Ok(None);
            };
        }
        Ok(Some(direct))
    }

    // Whether the keys are hashed, and there are twice as many of them as when the table was last tried.
    fn is_due(&self) -> bool {
        match &self.found {
            Found::Direct(_) => false,
            Found::Hashed(keys) => keys.len() / 2 >= self.tried,
        }
    }

    // Lets a table find the keys that are hashed, if there are many more of them than when that was last tried, and it takes
    // them all.
    fn settle(&mut self) -> Result<(), AllocError>
        ensures { OnOk result (self.new ≡ self.old) }
    {
        if !self.is_due() {
            return Ok(());
        }
        self.tried = self.len();
        if let Some(direct) = self.as_direct()? {
            self.found = Found::Direct(direct);
        }
        Ok(())
    }

    // Does what `number_all` does with the first of these keys, and returns how many: all of them, or those before the
    // first that cannot be found in the way of those that are here.
    fn number_first(
        &mut self,
        column: &IntColumn<'_>,
        numbers: &mut Vec<usize>,
    ) -> Result<usize, AllocError>
        ensures within { IfOk result (λ n. n ≤ length column.now) }
        ensures numbers { IfOk result (λ n. numbers.new.items ≡ numbers.old.items ++ numbers_of self.old (take n column.now)) }
        ensures keys { IfOk result (λ n. self.new ≡ insert_all row_eq self.old (take n column.now)) }
    {
        match &mut self.found {
            Found::Direct(keys) => return keys.number_all(column, numbers),
            Found::Hashed(keys) => keys.number_from(column, 0, numbers)?,
        }
        Ok(column.len())
    }

    // Continues `number_all` at key `from`, after switching from the table to hashing.
    fn number_rest(
        &mut self,
        column: &IntColumn<'_>,
        from: usize,
        numbers: &mut Vec<usize>,
    ) -> Result<(), AllocError>
        requires { from ≤ length column.now }
        ensures numbers { OnOk result (numbers.new.items ≡ numbers.old.items ++ numbers_of self.old (drop from column.now)) }
        ensures keys { OnOk result (self.new ≡ insert_all row_eq self.old (drop from column.now)) }
    {
        let mut hashed = self.as_hashed()?;
        hashed.number_from(column, from, numbers)?;
        self.found = Found::Hashed(hashed);
        Ok(())
    }

    // Does what `number_all` does, and leaves hashed keys hashed.
    fn number_here(
        &mut self,
        column: &IntColumn<'_>,
        numbers: &mut Vec<usize>,
    ) -> Result<(), AllocError>
        ensures numbers { OnOk result (numbers.new.items ≡ numbers.old.items ++ numbers_of self.old column.now) }
        ensures keys { OnOk result (self.new ≡ insert_all row_eq self.old column.now) }
    {
        let taken = self.number_first(column, numbers)?;
        if taken == column.len() {
            return Ok(());
        }
        self.number_rest(column, taken, numbers)?;
        Ok(())
    }

    /// Adds the numbers of these keys. Keys that are new are added.
    pub fn number_all(
        &mut self,
        column: &IntColumn<'_>,
        numbers: &mut Vec<usize>,
    ) -> Result<(), AllocError>
        ensures numbers { OnOk result (numbers.new.items ≡ numbers.old.items ++ numbers_of self.old column.now) }
        ensures keys { OnOk result (self.new ≡ insert_all row_eq self.old column.now) }
    {
        self.settle()?;
        self.number_here(column, numbers)
    }

    /// The index of each key in `column`, or `self.len()` where it is absent.
    pub fn find_all(&self, column: &IntColumn<'_>) -> Result<Vec<usize>, AllocError>
        ensures { IfOk result (λ v. v.items ≡ map (λ k. position_or_len (row_eq k) self.now) column.now) }
    {
        match &self.found {
            Found::Direct(keys) => keys.find_all(column),
            Found::Hashed(keys) => keys.find_all(column),
        }
    }
}
