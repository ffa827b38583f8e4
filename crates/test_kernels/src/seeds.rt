//! No clause says that seeds differ: here some do.

use crate::case::{Case, word_of};
use anyhow::{Context, Error};
use std::alloc::Global;
use std::hash::BuildHasher;
use vx_rows_values::KeySeed;

// The hash of one key under the seed that `text` has: two numbers, or `fixed`.
fn hash_of(text: &str) -> Option<u64> {
    if text == "fixed" {
        return Some(KeySeed::fixed().hash_one(7u64));
    }
    let (first, second) = word_of(text);
    let seed = KeySeed::new(first.parse::<u64>().ok()?, second.parse::<u64>().ok()?);
    Some(seed.hash_one(7u64))
}

/// Whether one key has the same hash under two seeds.
pub fn answer(alloc: Global, case: &Case<'_>) -> Result<String, Error> {
    let first = hash_of(case.rows).context("there is no such seed")?;
    let second = hash_of(case.others).context("there is no such seed")?;
    let word = if first == second {
        "the same"
    } else {
        "another"
    };
    Ok(String::from_str(alloc, word)?)
}
