//! Keys that are one text each.

ghost use Rattle.std.specs.Prelude.{◌≡◌, ◌<◌, ◌++◌, [], length, map, OnOk, IfOk, slice_get, Some};
ghost use Rattle.std.specs.List.{position_or_len, IsDistinct};
ghost use Rattle.vx_rows_values.specs.Values.{row_eq};
ghost use Rattle.indexmap.specs.IndexSet.{insert_key, insert_all};
ghost use Rattle.vx_match_keys.specs.Columns.{text_key};
ghost use Rattle.vx_match_keys.specs.Numbers.{numbers_of};

use crate::columns::TextColumn;
use indexmap::IndexSet;
use std::alloc::{AllocError, Global};
use std::marker::Model;
use vx_rows_values::KeySeed;

/// Keys of one text each, which are hashed as the bytes that they are. A text is copied only where it is a new key.
pub(crate) struct TextKeys {
    set: IndexSet<String, KeySeed>,
    alloc: Global,
}

impl Drop for TextKeys {
    fn drop(self) {
        let TextKeys { set: _, alloc: _ } = self;
    }
}

impl Model for TextKeys {
    ghost use Rattle.std.specs.Prelude.{List, map};
    ghost use Rattle.vx_rows_values.specs.Values.{Row};
    ghost use Rattle.vx_match_keys.specs.Columns.{owned_key};

    ghost Value = { List Row };

    ghost view = { λ k. map owned_key k.set.keys };
}

impl TextKeys {
    /// No keys yet, to be hashed with `seed`, with room for `room` keys.
    pub fn with_room(alloc: Global, seed: KeySeed, room: usize) -> Result<TextKeys, AllocError>
        ensures { IfOk result (λ k. k ≡ []) }
    {
        Ok(TextKeys {
            set: IndexSet::with_capacity_and_hasher(alloc, room, seed)?,
            alloc,
        })
    }

    /// How many keys there are.
    pub fn len(&self) -> usize
        ensures len { result ≡ length self.now }
        ensures unique { IsDistinct row_eq self.now }
    {
        self.set.len()
    }

    /// The key of a number.
    pub fn get(&self, number: usize) -> &str
        requires { number < length self.now }
        ensures { slice_get self.now number ≡ Some (text_key result.now) }
    {
        self.set.as_slice()[number].as_str()
    }

    // The number of a key, which is copied and added if it is new.
    fn number(&mut self, key: &str) -> Result<usize, AllocError>
        ensures number { IfOk result (λ n. n ≡ position_or_len (row_eq (text_key key.now)) self.old) }
        ensures keys { OnOk result (self.new ≡ insert_key row_eq self.old (text_key key.now)) }
    {
        if let Some(number) = self.set.get_index_of(key) {
            return Ok(number);
        }
        let (number, _) = self.set.insert_full(String::from_str(self.alloc, key)?)?;
        Ok(number)
    }

    /// Adds the numbers of these keys. Keys that are new are added.
    pub fn number_all(
        &mut self,
        column: &TextColumn<'_>,
        numbers: &mut Vec<usize>,
    ) -> Result<(), AllocError>
        ensures numbers { OnOk result (numbers.new.items ≡ numbers.old.items ++ numbers_of self.old column.now) }
        ensures keys { OnOk result (self.new ≡ insert_all row_eq self.old column.now) }
    {
        for i in 0..column.len() {
            let number = self.number(column.get(i))?;
            numbers.push(number)?;
        }
        Ok(())
    }

    // The index of `key`, or `self.len()` if it is absent.
    fn number_or_next(&self, key: &str) -> usize
        ensures { result ≡ position_or_len (row_eq (text_key key.now)) self.now }
    {
        let Some(number) = self.set.get_index_of(key) else {
            return self.set.len();
        };
        number
    }

    /// The index of each key in `column`, or `self.len()` where it is absent.
    pub fn find_all(&self, column: &TextColumn<'_>) -> Result<Vec<usize>, AllocError>
        ensures { IfOk result (λ v. v.items ≡ map (λ k. position_or_len (row_eq k) self.now) column.now) }
    {
        let mut numbers = Vec::with_capacity(self.alloc, column.len())?;
        for i in 0..column.len() {
            let number = self.number_or_next(column.get(i));
            numbers.push(number)?;
        }
        Ok(numbers)
    }
}
