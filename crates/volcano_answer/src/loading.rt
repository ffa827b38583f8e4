//! How many threads load a table.

ghost use Rattle.std.specs.Prelude.{◌≡◌, ◌<◌, ◌≤◌, min, IfSome};
ghost use Rattle.vx_rows_values.specs.Limits.{max_threads};

use std::thread::{Threads, available_parallelism};
use vx_rows_values::limits::MAX_THREADS;

// The most threads that load a table where one for each processor is asked for: more of them take memory, and load no faster.
const MAX_BY_PROCESSORS: usize = 16;

// One thread for each processor. One, where these cannot be counted.
fn threads_by_processors<T: Threads>(rt: &T) -> usize
    ensures some { 0 < result }
    ensures few { result ≤ 16 }
{
    match available_parallelism(rt) {
        Ok(processors) => processors.get().min(MAX_BY_PROCESSORS),
        Err(_) => 1,
    }
}

/// How many threads load a table: as many as are asked for, where 0 is one for each processor.
pub fn loading_threads<T: Threads>(rt: &T, asked: Option<u64>) -> usize
    ensures some { 0 < result }
    ensures asked { IfSome asked (λ n. 0 < n → result ≡ min n max_threads) }
{
    match asked {
        None => 1,
        Some(0) => threads_by_processors(rt),
        Some(threads) => threads.min(MAX_THREADS as u64) as usize,
    }
}
