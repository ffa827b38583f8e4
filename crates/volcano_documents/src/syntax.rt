//! Where a text is no JSON.

ghost use Rattle.std.specs.Prelude.{◌≡◌, ◌≤◌, length, None, IfOk};
ghost use Rattle.volcano_documents.specs.Places.{IsPosition};

use crate::faults::DocumentFault;
use crate::places::place_behind;
use crate::wording::quote;
use serde_json::Error;
use std::alloc::{AllocError, Global};
use std::str;

// Where the line with this number, counted from 1, begins in a text; past the last line the text's end.
fn offset_of_line(text: &[u8], line: usize) -> usize
    ensures { result ≤ length text.now }
{
    let mut current = 1usize;
    for (i, byte) in text.iter().enumerate() {
        if current >= line {
            return i;
        }
        if *byte == b'\n' {
            current = current.saturating_add(1);
        }
    }
    text.len()
}

// Where a text stops to be JSON: at the byte that the error names, or at its end if it is cut short.
fn offset_of_error(text: &[u8], error: &Error) -> usize
    ensures { result ≤ length text.now }
{
    if error.is_eof() {
        return text.len();
    }
    let start = offset_of_line(text, error.line());
    let behind = error.column().saturating_sub(1);
    start.saturating_add(behind).min(text.len())
}

// What stands behind a front of a text.
fn found_behind(alloc: Global, rest: &[u8]) -> Result<String, AllocError> {
    if rest.is_empty() {
        return String::from_str(alloc, "the end of the text");
    }
    if rest.starts_with(b"\xEF\xBB\xBF") {
        return String::from_str(alloc, "a byte order mark");
    }
    let front = &rest[..rest.len().min(4)];
    let known = match str::from_utf8(front) {
        Ok(known) => known,
        Err(_) => "",
    };
    match known.chars().next() {
        Some(c) => {
            let mut text = String::new(alloc);
            text.push(c)?;
            quote(alloc, text.as_str())
        }
        None => String::from_str(alloc, "a byte that is not of UTF-8"),
    }
}

/// The fault of a text that is no JSON.
pub fn fault_of_syntax(
    alloc: Global,
    text: &[u8],
    error: &Error,
) -> Result<DocumentFault, AllocError>
    ensures place { IfOk result (λ f. IsPosition text.now f.line f.column) }
    ensures word { IfOk result (λ f. f.nearest ≡ None) }
{
    let offset = offset_of_error(text, error);
    let place = place_behind(&text[..offset]);
    Ok(DocumentFault {
        line: place.line,
        column: place.column,
        path: String::new(alloc),
        found: found_behind(alloc, &text[offset..])?,
        expected: String::from_str(alloc, "JSON")?,
        nearest: None,
    })
}
