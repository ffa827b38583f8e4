//! Functions of texts.

ghost use Rattle.std.specs.Prelude.{◌≡◌, ◌++◌, pos, string_bytes, IfOk, OnOk};
ghost use Rattle.vx_functions.specs.Texts.{characters, lower, upper, begins, stands_in, is_between, if_between, substring};

use crate::patterns::characters_of;
use std::alloc::{AllocError, Global};

/// How many characters a text has.
pub fn characters(text: &str) -> i64
    ensures { result ≡ characters text.now }
{
    text.chars().count() as i64
}

/// The text with the letters from A to Z as those from a to z.
pub fn lower(alloc: Global, text: &str) -> Result<String, AllocError>
    ensures { IfOk result (λ s. string_bytes s ≡ lower text.now) }
{
    text.to_ascii_lowercase(alloc)
}

/// The text with the letters from a to z as those from A to Z.
pub fn upper(alloc: Global, text: &str) -> Result<String, AllocError>
    ensures { IfOk result (λ s. string_bytes s ≡ upper text.now) }
{
    text.to_ascii_uppercase(alloc)
}

/// Both texts, one behind the other.
pub fn joined(alloc: Global, first: &str, second: &str) -> Result<String, AllocError>
    ensures { IfOk result (λ s. string_bytes s ≡ first.now ++ second.now) }
{
    let mut text = String::from_str(alloc, first)?;
    text.push_str(second)?;
    Ok(text)
}

/// Whether a text begins with another one.
pub fn starts_with(text: &str, front: &str) -> bool
    ensures { result ≡ begins front.now text.now }
{
    text.starts_with(front)
}

/// Whether a text stands in another one.
pub fn contains(text: &str, part: &str) -> bool
    ensures { result ≡ stands_in part.now text.now }
{
    text.contains(part)
}

// Whether this number, counted from 1, is one of so many from another one on.
fn is_between(from: i64, count: i64, number: usize) -> bool
    ensures { result ≡ is_between from count (pos number) }
{
    let number = number as i128;
    let from = i128::from(from);
    from <= number && number < from + i128::from(count)
}

// Adds a character, if its number is one of so many from another one on.
fn push_between(
    part: &mut String,
    from: i64,
    count: i64,
    number: usize,
    character: char,
) -> Result<(), AllocError>
    ensures { OnOk result (string_bytes part.new ≡ string_bytes part.old ++ if_between (is_between from count (pos number)) character) }
{
    if is_between(from, count, number) {
        part.push(character)?;
    }
    Ok(())
}

/// So many characters of a text from this one on, counted from 1, as far as they are there; none of a number below zero.
pub fn substring(alloc: Global, text: &str, from: i64, count: i64) -> Result<String, AllocError>
    ensures { IfOk result (λ s. string_bytes s ≡ substring from count text.now) }
{
    let characters = characters_of(alloc, text)?;
    let mut part = String::new(alloc);
    for place in 0..characters.len() {
        push_between(&mut part, from, count, place + 1, characters[place])?;
    }
    Ok(part)
}
