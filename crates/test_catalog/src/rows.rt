//! Rows that are made and asked step by step.

use crate::expect::{Wrong, expect};
use crate::steps::take_step;
use std::alloc::{AllocError, Global};
use test_tables::TYPES;
use vx_rows::Table;

// What the step `step` answers. Where memory ran out in it, it is taken once more: so the answers are as usual only where
// a step that failed left the rows as they were.
fn taken(
    alloc: Global,
    rows: &mut Table,
    others: &mut Table,
    step: &str,
) -> Result<String, AllocError> {
    match take_step(alloc, rows, others, step) {
        Ok(answer) => Ok(answer),
        Err(_) => take_step(alloc, rows, others, step),
    }
}

/// Compares what the steps `steps` answer, each answer in brackets, with the text `wanted`. They begin with two lists of no
/// rows, of a number and a text each: `rows`, and `others`, from which rows are taken.
pub fn compare_steps(alloc: Global, steps: &str, wanted: &[u8]) -> Result<(), Wrong> {
    let mut rows = Table::new(alloc, TYPES.as_slice())?;
    let mut others = Table::new(alloc, TYPES.as_slice())?;
    let mut said = String::new(alloc);
    for step in steps.split("; ") {
        let answer = taken(alloc, &mut rows, &mut others, step)?;
        said.push_str(answer.as_str())?;
    }
    expect(alloc, said.as_bytes(), wanted, "the answers")
}
