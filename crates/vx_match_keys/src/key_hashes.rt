//! Hashes of keys of several values, a block of rows at a time and column by column.

ghost use Rattle.std.specs.Prelude.{◌≡◌, ◌+◌, ◌<◌, ◌≤◌, [], ℕ, length, map, slice_index, slice_index_or};
ghost use Rattle.std.specs.Hash.FoldHasher.{finish};
ghost use Rattle.vx_rows_values.specs.Values.{pick};
ghost use Rattle.vx_rows.specs.View.{row, AreColumns};
ghost use Rattle.vx_match_keys.specs.Hashed.{key_hash, AreFed};
ghost use Rattle.vx_match_keys.specs.Values.{value_keys};

use crate::columns::{IntColumn, TextColumn, ValueColumn};
use std::hash::{BuildHasher, FoldHasher, Hash, Hasher};
use vx_rows_values::KeySeed;
use vx_rows_views::Chunk;

/// How many keys are hashed, found and compared at once.
pub(crate) const BLOCK: usize = 64;

// Feeds the numbers of the rows from one on to a hasher for each.
fn feed_numbers(column: &IntColumn<'_>, from: usize, hashers: &mut [FoldHasher])
    requires there { from + length hashers.old ≤ length column.now }
    requires block { length hashers.old ≤ BLOCK }
    ensures len { length hashers.new ≡ length hashers.old }
    ensures fed { AreFed hashers.old (λ k. slice_index_or column.now (from + k) []) hashers.new }
{
    let mut block = [0; BLOCK];
    let numbers = &mut block[..hashers.len()];
    column.read(from, numbers);
    for i in 0..hashers.len() {
        numbers[i].hash(&mut hashers[i]);
    }
}

// Feeds the texts of the rows from one on to a hasher for each.
fn feed_texts(column: &TextColumn<'_>, from: usize, hashers: &mut [FoldHasher])
    requires there { from + length hashers.old ≤ length column.now }
    ensures len { length hashers.new ≡ length hashers.old }
    ensures fed { AreFed hashers.old (λ k. slice_index_or column.now (from + k) []) hashers.new }
{
    // no row is above this
    let _count = column.len();
    for i in 0..hashers.len() {
        column.get(from + i).hash(&mut hashers[i]);
    }
}

// Feeds the values of the rows from one on to a hasher for each.
fn feed_column(column: &ValueColumn<'_>, from: usize, hashers: &mut [FoldHasher])
    requires there { from + length hashers.old ≤ length (value_keys column.now) }
    requires block { length hashers.old ≤ BLOCK }
    ensures len { length hashers.new ≡ length hashers.old }
    ensures fed { AreFed hashers.old (λ k. slice_index_or (value_keys column.now) (from + k) []) hashers.new }
{
    match column {
        ValueColumn::Ints(numbers) => feed_numbers(numbers, from, hashers),
        ValueColumn::Texts(texts) => feed_texts(texts, from, hashers),
    }
}

// Feeds the keys of the rows from one on to a hasher for each.
fn feed_keys(chunk: &Chunk, columns: &[usize], from: usize, hashers: &mut [FoldHasher])
    requires columns { AreColumns (length chunk.now.types) columns.now }
    requires there { from + length hashers.old ≤ length chunk.now.rows }
    requires block { length hashers.old ≤ BLOCK }
    ensures len { length hashers.new ≡ length hashers.old }
    ensures fed { AreFed hashers.old (λ k. pick columns.now (row chunk.now (from + k))) hashers.new }
{
    for j in 0..columns.len() {
        feed_column(&ValueColumn::of(chunk, columns[j]), from, hashers);
    }
}

// What each hasher makes of what it got.
fn finish_all(hashers: &[FoldHasher], hashes: &mut [u64])
    requires { length hashers.now ≡ length hashes.old }
    ensures { hashes.new ≡ map finish hashers.now }
{
    for i in 0..hashes.len() {
        hashes[i] = hashers[i].finish();
    }
}

/// Puts the hashes of the keys of the rows from one on into a slice.
pub(crate) fn hash_keys(
    seed: KeySeed,
    chunk: &Chunk,
    columns: &[usize],
    from: usize,
    hashes: &mut [u64],
)
    requires columns { AreColumns (length chunk.now.types) columns.now }
    requires there { from + length hashes.old ≤ length chunk.now.rows }
    requires block { length hashes.old ≤ BLOCK }
    ensures len { length hashes.new ≡ length hashes.old }
    ensures hashes { (k : ℕ) → k < length hashes.new → slice_index hashes.new k ≡ key_hash seed (pick columns.now (row chunk.now (from + k))) }
{
    let mut block = [seed.build_hasher(); BLOCK];
    let hashers = &mut block[..hashes.len()];
    feed_keys(chunk, columns, from, hashers);
    finish_all(hashers, hashes);
}
