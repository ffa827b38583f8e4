//! Distinct rows: the first occurrence of each.

ghost use Rattle.std.specs.Prelude.{List, ◌≡◌, ◌≢◌, ◌≤◌, ◌+◌, ◌++◌, [], true, false, length, map, slice_index_or, OnOk, IfOk};
ghost use Rattle.vx_rows_values.specs.Types.{type_at};
ghost use Rattle.vx_rows_values.specs.Values.{Row, row_eq, pick};
ghost use Rattle.vx_rows.specs.View.{AreColumns, ArePositions};
ghost use Rattle.vx_plan_nodes.specs.Serial.{firsts};
ghost use Rattle.indexmap.specs.IndexSet.{insert_all};
ghost use Rattle.vx_match_keys.specs.Numbers.{numbers_of};

use crate::keys::Keys;
use std::alloc::{AllocError, Global};
use std::marker::Model;
use vx_rows_values::KeySeed;
use vx_rows_views::{Rows, push_place_if};

/// Calls: `new keep_new*`, and no `keep_new` after an `Err`.
///
/// The rows that were seen so far, each once, in order of first occurrence.
pub struct Seen {
    keys: Keys,
    alloc: Global,
}

impl Drop for Seen {
    fn drop(self) {
        let Seen { keys: _, alloc: _ } = self;
    }
}

impl Model for Seen {
    ghost use Rattle.std.specs.Prelude.{List};
    ghost use Rattle.vx_rows_values.specs.Values.{Row};

    ghost Value = { List Row };

    ghost view = { λ s. s.keys };
}

// Whether `number` is that of the next new key, after `known` known keys and `new` new ones.
fn is_next(number: usize, known: usize, new: usize) -> bool
    ensures yes { result ≡ true → number ≡ known + new }
    ensures no { result ≡ false → number ≢ known + new }
{
    if number < known {
        return false;
    }
    number - known == new
}

// The places where new keys first occur, by the numbers of all keys. With `known` keys known, the first new key has number `known`.
fn first_places(alloc: Global, known: usize, numbers: &[usize]) -> Result<Vec<usize>, AllocError>
    ensures new { IfOk result (λ v. (ks xs : List Row) → length ks ≡ known → numbers.now ≡ numbers_of ks xs → insert_all row_eq ks xs ≡ ks ++ map (λ i. slice_index_or xs i []) v.items) }
    ensures there { IfOk result (λ v. ArePositions (length numbers.now) v.items) }
{
    let mut places = Vec::new(alloc);
    for i in 0..numbers.len() {
        let new = is_next(numbers[i], known, places.len());
        push_place_if(&mut places, i, new)?;
    }
    Ok(places)
}

impl Seen {
    /// No row was seen. They are to be hashed by this seed.
    pub fn new(alloc: Global, seed: KeySeed) -> Seen
        ensures { result ≡ [] }
    {
        Seen {
            keys: Keys::new(alloc, seed),
            alloc,
        }
    }

    /// The rows of a batch, with these columns alone, that were not seen before. No cell is copied but those of keys.
    pub fn keep_new(&mut self, batch: &Rows, columns: &[usize]) -> Result<Rows, AllocError>
        requires { AreColumns (length batch.now.types) columns.now }
        ensures types { IfOk result (λ r. r.types ≡ map (type_at batch.now.types) columns.now) }
        ensures new { IfOk result (λ r. self.new ≡ self.old ++ r.rows) }
        ensures fewer { IfOk result (λ r. length r.rows ≤ length batch.now.rows) }
        ensures seen { OnOk result ((xs : List Row) → self.old ≡ firsts xs → self.new ≡ firsts (xs ++ map (pick columns.now) batch.now.rows)) }
    {
        let known = self.keys.len();
        let numbers = self.keys.number_all(batch, columns)?;
        let places = first_places(self.alloc, known, numbers.as_slice())?;
        let fresh = batch.at(self.alloc, places.as_slice())?;
        let found = fresh.project(self.alloc, columns)?;
        Ok(found)
    }
}
