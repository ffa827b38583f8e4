//! Catalogs and their refusals.

ghost use Rattle.std.specs.Prelude.{◌<◌, length, IfOk};

use crate::expect::{Wrong, expect, told};
use std::alloc::{AllocError, Global};
use vx_catalog_relations::Catalog;

// What is read from the text `text`: that the catalog has relations or none, or the refusal.
fn outcome(alloc: Global, text: &[u8]) -> Result<String, AllocError> {
    match Catalog::read(alloc, text) {
        Ok(catalog) if catalog.is_empty() => String::from_str(alloc, "no relations"),
        Ok(_) => String::from_str(alloc, "relations"),
        Err(fault) => format!(in alloc; "{fault}"),
    }
}

/// Compares what is read from the text `text` with the text `wanted`.
pub fn compare_text(alloc: Global, text: &[u8], wanted: &[u8]) -> Result<(), Wrong> {
    let said = outcome(alloc, text)?;
    expect(alloc, said.as_bytes(), wanted, "the whole")
}

/// Compares what is read from each front of the text `text`, the whole left out, with the text `wanted`.
pub fn compare_fronts(alloc: Global, text: &[u8], wanted: &[u8]) -> Result<(), Wrong> {
    for length in 0..text.len() {
        let said = outcome(alloc, &text[..length])?;
        expect(alloc, said.as_bytes(), wanted, "a front")?;
    }
    Ok(())
}

/// The catalog of the text `text`, if it has a relation.
pub fn catalog_of(alloc: Global, text: &str) -> Result<Catalog, Wrong>
    ensures { IfOk result (λ c. 0 < length c) }
{
    match Catalog::read(alloc, text.as_bytes()) {
        Ok(catalog) => {
            if catalog.is_empty() {
                return Err(told(alloc, "there is no relation"));
            }
            Ok(catalog)
        }
        Err(fault) => Err(Wrong::Said(format!(in alloc; "{fault}")?)),
    }
}
