//! Texts that are like a pattern, as LIKE of SQL has it: `%` stands for any characters, `_` for one, and a backslash takes the next
//! character as itself. The time is that of the text's characters times the pattern's, whatever the pattern.

ghost use Rattle.std.specs.Prelude.{◌≡◌, ◌+◌, ◌<◌, ◌&&◌, ◌||◌, ℕ, nat_lt, Bool, false, List, length, slice_index_or, IfOk};
ghost use Rattle.std.specs.Str.{chars};
ghost use Rattle.vx_functions.specs.Like.{part_of, parts_after, is_end, anywhere, behind_one, passes, before, matches, like};
ghost use Rattle.vx_functions.specs.Rows.{IsRow};

use std::alloc::{AllocError, Global};

/// A part of a pattern: any characters, one, or a character that stands for itself.
#[derive(Clone, Copy, PartialEq, Eq)]
pub enum Part {
    Any,
    One,
    Itself(char),
}

// What a character of a pattern stands for, if no backslash precedes it.
fn part_of(character: char) -> Part
    ensures { result ≡ part_of character }
{
    match character {
        '%' => Part::Any,
        '_' => Part::One,
        _ => Part::Itself(character),
    }
}

/// The characters of a text.
pub fn characters_of(alloc: Global, text: &str) -> Result<Vec<char>, AllocError>
    ensures { IfOk result (λ v. v.items ≡ chars text.now) }
{
    text.chars().collect(alloc)
}

// The parts of a pattern.
fn parts_of(alloc: Global, pattern: &[char]) -> Result<Vec<Part>, AllocError>
    ensures { IfOk result (λ v. v.items ≡ parts_after false pattern.now) }
{
    let mut parts = Vec::new(alloc);
    let mut is_escaped = false;
    for character in pattern {
        if is_escaped {
            parts.push(Part::Itself(*character))?;
            is_escaped = false;
        } else if *character == '\\' {
            is_escaped = true;
        } else {
            parts.push(part_of(*character))?;
        }
    }
    if is_escaped {
        parts.push(Part::Itself('\\'))?;
    }
    Ok(parts)
}

// Whether the part stands for one character, and it may be this one.
fn passes(part: Part, character: char) -> bool
    ensures { result ≡ passes part character }
{
    match part {
        Part::Any | Part::One => true,
        Part::Itself(wanted) => character == wanted,
    }
}

// Whether the row holds at this place or at the next one.
fn holds_at_either(row: &[bool], place: usize) -> bool
    requires { place + 1 < length row.now }
    ensures { result ≡ (slice_index_or row.now place false || slice_index_or row.now (place + 1) false) }
{
    row[place] || row[place + 1]
}

// A row has an entry for each place of a text, its end too: whether a test holds from there on. This makes it whether the test holds
// from there or from a later place on.
fn put_anywhere(row: &mut [bool])
    ensures { (f : List ℕ → Bool) (text : List ℕ) → IsRow f text row.old → IsRow (anywhere f) text row.new }
{
    let last = row.len().saturating_sub(1);
    for back in 0..last {
        let place = last - 1 - back;
        let holds = holds_at_either(row, place);
        row[place] = holds;
    }
}

// Whether the character at this place passes, and the row holds behind it.
fn holds_behind(row: &[bool], part: Part, text: &[char], place: usize) -> bool
    requires { place < length row.now }
    ensures { result ≡ (nat_lt place (length text.now) && (passes part (slice_index_or text.now place 0) && slice_index_or row.now (place + 1) false)) }
{
    match (text.get(place), row.get(place + 1)) {
        (Some(character), Some(holds)) => passes(part, *character) && *holds,
        _ => false,
    }
}

// Makes each entry of a row whether one character passes, and the test holds behind it.
fn put_behind(row: &mut [bool], part: Part, text: &[char])
    ensures { (f : List ℕ → Bool) → IsRow f text.now row.old → IsRow (behind_one (passes part) f) text.now row.new }
{
    for place in 0..row.len() {
        let holds = holds_behind(row, part, text, place);
        row[place] = holds;
    }
}

// Makes each entry of a row whether the part stands there, and the test holds behind it.
fn put_part(row: &mut [bool], part: Part, text: &[char])
    ensures { (f : List ℕ → Bool) → IsRow f text.now row.old → IsRow (before part f) text.now row.new }
{
    match part {
        Part::Any => put_anywhere(row),
        Part::One => put_behind(row, part, text),
        Part::Itself(_) => put_behind(row, part, text),
    }
}

// Whether a text matches these parts, of which the last is put first. The row says at each place whether the text ends there.
fn does_match(row: &mut [bool], parts: &[Part], text: &[char]) -> bool
    ensures { IsRow is_end text.now row.old → result ≡ matches parts.now text.now }
{
    for back in 0..parts.len() {
        let part = parts[parts.len() - 1 - back];
        put_part(row, part, text);
    }
    row.first().copied().unwrap_or(false)
}

// The row that holds at the end of a text alone.
fn end_row(alloc: Global, count: usize) -> Result<Vec<bool>, AllocError>
    ensures { (cs : List ℕ) → length cs ≡ count → IfOk result (λ v. IsRow is_end cs v.items) }
{
    let mut row = Vec::new(alloc);
    for _ in 0..count {
        row.push(false)?;
    }
    row.push(true)?;
    Ok(row)
}

/// Whether a text is like a pattern.
pub fn like(alloc: Global, text: &str, pattern: &str) -> Result<bool, AllocError>
    ensures { IfOk result (λ b. b ≡ like pattern.now text.now) }
{
    let pattern = characters_of(alloc, pattern)?;
    let parts = parts_of(alloc, pattern.as_slice())?;
    let text = characters_of(alloc, text)?;
    let mut row = end_row(alloc, text.len())?;
    let is_like = does_match(row.as_mut_slice(), parts.as_slice(), text.as_slice());
    Ok(is_like)
}
