//! Lines that stand for several.

use anyhow::{Context, Error};
use std::alloc::Global;

// How many alternatives a line has at most.
const MOST: u32 = 4;

// Adds the lines in which the first `(..|..)` of a line is replaced by each of its words, or the line, where there is none.
fn push_chosen(alloc: Global, line: &str, lines: &mut Vec<String>) -> Result<(), Error> {
    let Some((before, rest)) = line.split_once('(') else {
        lines.push(String::from_str(alloc, line)?)?;
        return Ok(());
    };
    let (words, after) = rest
        .split_once(')')
        .context("a bracket of a trial is not closed")?;
    for word in words.split('|') {
        let chosen = format!(in alloc; "{before}{word}{after}")?;
        lines.push(chosen)?;
    }
    Ok(())
}

// The lines with the first alternatives of each replaced by each of their words.
fn chosen_once(alloc: Global, lines: &[String]) -> Result<Vec<String>, Error> {
    let mut chosen = Vec::new(alloc);
    for line in lines {
        push_chosen(alloc, line.as_str(), &mut chosen)?;
    }
    Ok(chosen)
}

/// The lines in which each `(..|..)` of a line is replaced by one of its words.
pub fn chosen(alloc: Global, line: &str) -> Result<Vec<String>, Error> {
    let mut lines = Vec::new(alloc);
    lines.push(String::from_str(alloc, line)?)?;
    for _ in 0..MOST {
        lines = chosen_once(alloc, lines.as_slice())?;
    }
    Ok(lines)
}
