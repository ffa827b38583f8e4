//! Threads that read the same rows.

use crate::case::{Case, bounds, numbers};
use crate::chunks::made;
use crate::numbers::number;
use anyhow::Error;
use std::thread;
use std::thread::Threads;
use vx_rows_views::Chunk;

/// The number of each row, read by threads that share the chunk.
pub fn shared<R: Threads + Sync + AllocGlobal>(rt: &R, case: &Case<'_>) -> Result<String, Error> {
    let chunk = made(rt.alloc(), case)?;
    let found = thread::map_indices(rt, rt.alloc(), chunk.len(), &|i: usize| number(&chunk, i))?;
    Ok(format!(in rt.alloc(); "{found:?}")?)
}

/// The first number of the rows between two bounds, and that of all rows, read by threads that own them.
pub fn sent<R: Threads + Sync + AllocGlobal>(rt: &R, case: &Case<'_>) -> Result<String, Error> {
    let alloc = rt.alloc();
    let chunk = made(alloc, case)?;
    let (from, to) = bounds(numbers(alloc, case.arguments)?.as_slice(), chunk.len());
    let parts = vec![in alloc; chunk.slice(alloc, from, to)?, chunk]?;
    let found = thread::map_vec(rt, parts, &|part: Chunk| number(&part, 0))?;
    Ok(format!(in alloc; "{found:?}")?)
}
