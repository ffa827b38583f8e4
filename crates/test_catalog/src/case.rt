//! Cases as lines of text, and the bytes that their parts stand for.

use std::alloc::{AllocError, Global};
use test_tables::parts;

/// A line `CALL: NAME | GIVEN | WANTED`: which call is made, what the case shows, what is given, and what has to come of it.
#[derive(Clone, Copy)]
pub struct Case<'a> {
    pub call: &'a str,
    pub name: &'a str,
    pub given: &'a str,
    pub wanted: &'a str,
}

impl<'a> Case<'a> {
    /// The case that the line `line` is.
    pub fn of(line: &'a str) -> Option<Case<'a>> {
        let (head, given, wanted) = parts(line)?;
        let (call, name) = head.split_once(": ")?;
        Some(Case {
            call,
            name,
            given,
            wanted,
        })
    }
}

/// What earlier lines of a file say of a case: the text of the catalog, whose first relation is loaded, and the ways, with
/// commas between them, in which its work is shared out among threads.
#[derive(Clone, Copy)]
pub struct Setting<'a> {
    pub catalog: &'a str,
    pub ways: &'a str,
}

/// The text of the catalog behind the line `line`, if it was `catalog` before it.
pub fn catalog_after<'a>(line: &'a str, catalog: &'a str) -> &'a str {
    match Case::of(line) {
        Some(case) if case.call == "catalog" => case.given,
        _ => catalog,
    }
}

/// The ways behind the line `line`, if they were `ways` before it.
pub fn ways_after<'a>(line: &'a str, ways: &'a str) -> &'a str {
    line.strip_prefix("ways ").unwrap_or(ways)
}

/// Whether a line is a case, and neither a note nor one that sets the ways.
pub fn is_case(line: &str) -> bool {
    !line.starts_with('#') && !line.starts_with("ways ")
}

// How many rows the text `rows N` stands for.
fn row_count(text: &str) -> Option<usize> {
    text.strip_prefix("rows ")?.parse::<usize>().ok()
}

// The text of `count` rows of the relation that most cases load.
fn many(alloc: Global, count: usize) -> Result<Vec<u8>, AllocError> {
    let mut text = String::from_str(alloc, "id,k,v\n")?;
    for i in 0..count {
        write!(text, "{i},text {i},7\n")?;
    }
    Ok(text.into_bytes())
}

// The byte that the byte `byte` of a case stands for: a slash is the end of a line, a tilde a carriage return, and a caret
// the byte 255, which no text in UTF-8 has.
fn meant(byte: u8) -> u8 {
    match byte {
        b'/' => b'\n',
        b'~' => b'\r',
        b'^' => 255,
        other => other,
    }
}

/// The bytes that the part `text` of a case stands for: the text of N rows where it is `rows N`, otherwise its own bytes,
/// each for the byte that it stands for.
pub fn bytes_of(alloc: Global, text: &str) -> Result<Vec<u8>, AllocError> {
    if let Some(count) = row_count(text) {
        return many(alloc, count);
    }
    let mut bytes = Vec::new(alloc);
    for byte in text.as_bytes() {
        bytes.push(meant(*byte))?;
    }
    Ok(bytes)
}
