//! Why a case does not pass.

use std::alloc::{AllocError, Global};

/// Why a case does not pass: memory ran out, or something else was said than what it wants.
#[derive(Drop)]
pub enum Wrong {
    NoMemory,
    Said(String),
}

impl From<AllocError> for Wrong {
    fn from(_e: AllocError) -> Wrong {
        Wrong::NoMemory
    }
}

/// That `text` was said.
pub fn told(alloc: Global, text: &str) -> Wrong {
    match String::from_str(alloc, text) {
        Ok(said) => Wrong::Said(said),
        Err(_) => Wrong::NoMemory,
    }
}

/// Passes where the text `said` is the text `wanted`. Where it is not, `by` tells by which of many calls it was said.
pub fn expect(alloc: Global, said: &[u8], wanted: &[u8], by: &str) -> Result<(), Wrong> {
    if said == wanted {
        return Ok(());
    }
    let said = str::from_utf8(said).unwrap_or("no UTF-8");
    Err(Wrong::Said(format!(in alloc; "{by}: {said}")?))
}
