//! A case as its line has it, and the numbers in it.

ghost use Rattle.std.specs.Prelude.{◌≤◌, IsTrue};
ghost use Rattle.vx_rows.specs.View.{ArePositions};

use anyhow::{Context, Error};
use std::alloc::Global;
use vx_rows_values::OrderEntry;

/// A call with what it is given, and what has to come of it.
#[derive(Clone, Copy)]
pub struct Case<'a> {
    /// What the case shows.
    pub name: &'a str,
    /// What is called.
    pub call: &'a str,
    /// What stands behind the name of the call: columns, bounds or other numbers.
    pub arguments: &'a str,
    /// The rows that it is about: those of a table, or another text that its call reads.
    pub rows: &'a str,
    /// The rows of another table.
    pub others: &'a str,
    /// What is made of the rows before the call, one step after the other, with a comma between them.
    pub steps: &'a str,
    /// The answer that has to come.
    pub wanted: &'a str,
}

impl<'a> Case<'a> {
    /// The case of a line, whose six parts have a `|` between them.
    pub fn read(line: &'a str) -> Option<Case<'a>> {
        let mut parts = line.split('|');
        let name = parts.next()?.trim();
        let (call, arguments) = word_of(parts.next()?.trim());
        let rows = parts.next()?.trim();
        let others = parts.next()?.trim();
        let steps = parts.next()?.trim();
        let wanted = parts.next()?.trim();
        if parts.next().is_some() {
            return None;
        }
        Some(Case {
            name,
            call,
            arguments,
            rows,
            others,
            steps,
            wanted,
        })
    }
}

/// The first word of a text, and what stands behind it.
pub fn word_of(text: &str) -> (&str, &str) {
    text.split_once(' ').unwrap_or((text, ""))
}

/// The numbers of a list, as `2 0 0`.
pub fn numbers(alloc: Global, text: &str) -> Result<Vec<usize>, Error> {
    let mut numbers = Vec::new(alloc);
    for word in text.split_whitespace() {
        let number = word.parse::<usize>().ok().context("it is no number")?;
        numbers.push(number)?;
    }
    Ok(numbers)
}

/// The entries of an order, as `2 -0`: a column with a `-` before it falls.
pub fn entries(alloc: Global, text: &str) -> Result<Vec<OrderEntry>, Error> {
    let mut entries = Vec::new(alloc);
    for word in text.split_whitespace() {
        let name = word.strip_prefix("-").unwrap_or(word);
        let column = name.parse::<usize>().ok().context("it is no column")?;
        let falling = word.starts_with('-');
        entries.push(OrderEntry { column, falling })?;
    }
    Ok(entries)
}

/// The lists of numbers on the two sides of a `/`: the second list is empty where there is no `/`.
pub fn two_lists(alloc: Global, text: &str) -> Result<(Vec<usize>, Vec<usize>), Error> {
    let (first, second) = text.split_once('/').unwrap_or((text, ""));
    Ok((numbers(alloc, first)?, numbers(alloc, second)?))
}

/// The first two of some numbers as the bounds of a range of rows, of which there are `count`: as far as there are such rows.
pub fn bounds(numbers: &[usize], count: usize) -> (usize, usize)
    ensures order { result.0 ≤ result.1 }
    ensures there { result.1 ≤ count }
{
    let from = numbers.first().copied().unwrap_or(0);
    let to = numbers.get(1).copied().unwrap_or(count).min(count);
    (from.min(to), to)
}

/// Whether all of these are below a number.
pub fn all_below(places: &[usize], count: usize) -> bool
    ensures { IsTrue result → ArePositions count places.now }
{
    places.iter().all(|place| *place < count)
}
