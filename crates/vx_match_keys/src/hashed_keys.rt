//! Keys that are one number each, found by hashing.

ghost use Rattle.std.specs.Prelude.{◌≡◌, ◌<◌, ◌≤◌, ◌++◌, [], length, map, drop, OnOk, IfOk, slice_get, Some};
ghost use Rattle.std.specs.List.{position_or_len, IsDistinct};
ghost use Rattle.vx_rows_values.specs.Values.{row_eq};
ghost use Rattle.indexmap.specs.IndexSet.{insert_key, insert_all};
ghost use Rattle.vx_match_keys.specs.Columns.{number_key};
ghost use Rattle.vx_match_keys.specs.Numbers.{numbers_of};

use crate::columns::IntColumn;
use indexmap::IndexSet;
use std::alloc::{AllocError, Global};
use std::marker::Model;
use vx_rows_values::KeySeed;

/// Keys of one number each, which are hashed as the numbers that they are.
pub(crate) struct HashedKeys {
    set: IndexSet<i64, KeySeed>,
    alloc: Global,
}

impl Drop for HashedKeys {
    fn drop(self) {
        let HashedKeys { set: _, alloc: _ } = self;
    }
}

impl Model for HashedKeys {
    ghost use Rattle.std.specs.Prelude.{List, map};
    ghost use Rattle.vx_rows_values.specs.Values.{Row};
    ghost use Rattle.vx_match_keys.specs.Columns.{number_key};

    ghost Value = { List Row };

    ghost view = { λ k. map number_key k.set.keys };
}

impl HashedKeys {
    /// No keys yet, to be hashed with `seed`, with room for `room` keys.
    pub fn with_room(alloc: Global, seed: KeySeed, room: usize) -> Result<HashedKeys, AllocError>
        ensures { IfOk result (λ k. k ≡ []) }
    {
        Ok(HashedKeys {
            set: IndexSet::with_capacity_and_hasher(alloc, room, seed)?,
            alloc,
        })
    }

    /// How many keys there are.
    pub fn len(&self) -> usize
        ensures len { result ≡ length self.now }
        ensures unique { IsDistinct row_eq self.now }
    {
        self.set.len()
    }

    /// The key of a number.
    pub fn get(&self, number: usize) -> i64
        requires { number < length self.now }
        ensures { slice_get self.now number ≡ Some (number_key result) }
    {
        self.set.as_slice()[number]
    }

    /// The number of a key, which is added if it is new.
    pub fn number(&mut self, key: i64) -> Result<usize, AllocError>
        ensures number { IfOk result (λ n. n ≡ position_or_len (row_eq (number_key key)) self.old) }
        ensures keys { OnOk result (self.new ≡ insert_key row_eq self.old (number_key key)) }
    {
        let (number, _) = self.set.insert_full(key)?;
        Ok(number)
    }

    /// Appends to `numbers` the numbers of the keys in `column` from `from` on. It adds keys that are new.
    pub fn number_from(
        &mut self,
        column: &IntColumn<'_>,
        from: usize,
        numbers: &mut Vec<usize>,
    ) -> Result<(), AllocError>
        requires { from ≤ length column.now }
        ensures numbers { OnOk result (numbers.new.items ≡ numbers.old.items ++ numbers_of self.old (drop from column.now)) }
        ensures keys { OnOk result (self.new ≡ insert_all row_eq self.old (drop from column.now)) }
    {
        for i in 0..column.len() - from {
            let number = self.number(column.get(from + i))?;
            numbers.push(number)?;
        }
        Ok(())
    }

    // The index of `key`, or `self.len()` if it is absent.
    fn number_or_next(&self, key: i64) -> usize
        ensures { result ≡ position_or_len (row_eq (number_key key)) self.now }
    {
        let Some(number) = self.set.get_index_of(&key) else {
            return self.set.len();
        };
        number
    }

    /// The index of each key in `column`, or `self.len()` where it is absent.
    pub fn find_all(&self, column: &IntColumn<'_>) -> Result<Vec<usize>, AllocError>
        ensures { IfOk result (λ v. v.items ≡ map (λ k. position_or_len (row_eq k) self.now) column.now) }
    {
        let mut numbers = Vec::with_capacity(self.alloc, column.len())?;
        for i in 0..column.len() {
            let number = self.number_or_next(column.get(i));
            numbers.push(number)?;
        }
        Ok(numbers)
    }
}
