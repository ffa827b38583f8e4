//! Texts of plans that are too deep or too large to stand in a file, built of their parts.

use crate::member::{number_at, text_at};
use anyhow::{Context, Error};
use serde_json::Value as Json;
use std::alloc::{AllocError, Global};

// Adds `part` to `text` `times` times.
fn push_times(text: &mut String, part: &str, times: u64) -> Result<(), AllocError> {
    for _ in 0..times {
        text.push_str(part)?;
    }
    Ok(())
}

// A balanced tree of unions over `scans` copies of `scan`. It has a union less than scans, and one scan where none is
// asked for.
fn unions(alloc: Global, scans: u64, scan: &str) -> Result<String, AllocError> {
    if scans < 2 {
        return String::from_str(alloc, scan);
    }
    let left = unions(alloc, scans / 2, scan)?;
    let right = unions(alloc, scans - scans / 2, scan)?;
    format!(in alloc; "{{\"op\":\"union\",\"left\":{left},\"right\":{right}}}")
}

// What stands in `inner`: a text, or the tree of unions over as many scans as its `scans` says, each with the text in
// its `scan`.
fn inner_in(alloc: Global, entry: &Json) -> Result<String, Error> {
    let inner = entry.get("inner").context("it has no inner")?;
    if let Some(text) = inner.as_str() {
        return Ok(String::from_str(alloc, text)?);
    }
    let scans = number_at(inner, "scans")?;
    Ok(unions(alloc, scans, text_at(inner, "scan")?)?)
}

/// The text of these parts: `head`, then `open` as often as `times` says, what stands in `inner`, `close` as often, and
/// `tail`.
pub fn built_text(alloc: Global, entry: &Json) -> Result<String, Error> {
    let times = number_at(entry, "times")?;
    let mut text = String::from_str(alloc, text_at(entry, "head")?)?;
    push_times(&mut text, text_at(entry, "open")?, times)?;
    text.push_str(inner_in(alloc, entry)?.as_str())?;
    push_times(&mut text, text_at(entry, "close")?, times)?;
    text.push_str(text_at(entry, "tail")?)?;
    Ok(text)
}
