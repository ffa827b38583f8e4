//! Numbers of a chunk that are tested, or read, where they lie.

use crate::case::{Case, word_of};
use crate::chunks::made;
use anyhow::{Context, Error, bail};
use std::alloc::Global;
use vx_rows_values::ColType;
use vx_rows_views::{Chunk, NumberTest, Position, PositionsRef};

// The numbers from `least` to `most`: none, where `most` is smaller.
#[derive(Clone, Copy)]
struct Between {
    least: i64,
    most: i64,
}

impl NumberTest for Between {
    ghost use Rattle.std.specs.Prelude.{int_le, ◌&&◌};

    ghost says = { λ b z. int_le b.least z && int_le z b.most };

    fn passes(&self, number: &i64) -> bool {
        self.least <= *number && *number <= self.most
    }
}

// The test for the numbers between two, as `-3 7`.
fn test_of(text: &str) -> Option<Between> {
    let (least, most) = word_of(text);
    Some(Between {
        least: least.parse::<i64>().ok()?,
        most: most.parse::<i64>().ok()?,
    })
}

/// The places of those numbers of the first column that lie between two, in what the steps of a case make of its rows: `None`
/// where all do.
pub fn places_between(alloc: Global, case: &Case<'_>) -> Result<String, Error> {
    let test = test_of(case.arguments).context("there are no two numbers")?;
    let chunk = made(alloc, case)?;
    if chunk.types().len() > 0 && chunk.types()[0] == ColType::Int {
        let places = chunk.places_where(alloc, 0, &test)?;
        return Ok(format!(in alloc; "{places:?}")?);
    }
    bail!("the first column has no numbers");
}

/// The number of row k of the first column, read where it lies.
pub fn number(chunk: &Chunk, k: usize) -> Option<i64> {
    if chunk.types().len() == 0 || k >= chunk.len() {
        return None;
    }
    let (numbers, seen) = chunk.numbers(0)?;
    let position = match seen {
        PositionsRef::Range(from, _) => from.checked_add(k)?,
        PositionsRef::Narrow(positions) => positions.get(k)?.place(),
        PositionsRef::Wide(positions) => *positions.get(k)?,
    };
    if position >= numbers.len() {
        return None;
    }
    Some(numbers.get(position))
}

/// The number of a row of what the steps of a case make of its rows.
pub fn number_of(alloc: Global, case: &Case<'_>) -> Result<String, Error> {
    let row = case
        .arguments
        .parse::<usize>()
        .ok()
        .context("there is no row")?;
    let number = number(&made(alloc, case)?, row);
    Ok(format!(in alloc; "{number:?}")?)
}
