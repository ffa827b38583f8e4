//! Catalogs that are found in texts.

use crate::expect::{Wrong, expect};
use std::alloc::{AllocError, Global};
use std::thread::Threads;
use vx_catalog_finding::{NamedText, find_catalog};

// The text of the catalog that is found in the text `text` of a relation `t`, or the refusal.
fn outcome<R: Threads + Sync>(rt: &R, alloc: Global, text: &[u8]) -> Result<String, AllocError> {
    let text = Vec::from_slice(alloc, text)?;
    let mut texts = Vec::new(alloc);
    texts.push(NamedText { name: "t", text })?;
    match find_catalog(rt, alloc, 1, texts.as_slice()) {
        Ok(found) => Ok(found),
        Err(fault) => format!(in alloc; "{fault}"),
    }
}

/// Compares the catalog that is found in the text `text` of a relation `t` with the text `wanted`.
pub fn compare_found<R: Threads + Sync>(
    rt: &R,
    alloc: Global,
    text: &[u8],
    wanted: &[u8],
) -> Result<(), Wrong> {
    let said = outcome(rt, alloc, text)?;
    expect(alloc, said.as_bytes(), wanted, "found")
}
