//! Lists of positions, whether they fit 32 bits or not. No table has as many rows as it takes for one that does not.

use crate::case::{Case, all_below, numbers, word_of};
use anyhow::{Context, Error, bail};
use std::alloc::{AllocError, Global};
use vx_rows_views::{Positions, PositionsRef};

// A position that does not fit 32 bits. No case begins with a greater one.
const LARGE: usize = 0x2_0000_0000;

// How positions are kept, and which they are.
fn shown(alloc: Global, positions: &Positions) -> Result<String, AllocError> {
    let mut found = Vec::new(alloc);
    for k in 0..positions.len() {
        found.push(positions.get(k))?;
    }
    let kept = match positions.seen() {
        PositionsRef::Range(_, _) => "range",
        PositionsRef::Narrow(_) => "narrow",
        PositionsRef::Wide(_) => "wide",
    };
    format!(in alloc; "{kept} {found:?}")
}

/// What the steps of a case make of four positions. Each step takes those at some places.
pub fn answer(alloc: Global, case: &Case<'_>) -> Result<String, Error> {
    let first = case
        .arguments
        .parse::<usize>()
        .ok()
        .context("it is no number")?;
    let mut positions = Positions::range(first.min(LARGE), 4);
    for step in case.steps.split_terminator(',') {
        let (verb, rest) = word_of(step.trim());
        let places = numbers(alloc, rest)?;
        if verb != "at" || !all_below(places.as_slice(), positions.len()) {
            bail!("there is no such step or place");
        }
        positions = positions.at(alloc, places.as_slice())?;
    }
    Ok(shown(alloc, &positions)?)
}
