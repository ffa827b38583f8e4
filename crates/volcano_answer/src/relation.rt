//! The relation to measure on.

ghost use Rattle.std.specs.Prelude.{◌≡◌, ◌≤◌, ◌<◌, ◌⊎◌, IfOk, IfErr};
ghost use Rattle.vx_rows_values.specs.Limits.{max_generated_rows};
ghost use Rattle.vx_wisconsin.specs.Wisconsin.{wisconsin, column_names};
ghost use Rattle.volcano_answer.specs.Layouts.{rows_text};

use crate::layouts::format_rows;
use crate::services::Services;
use std::sync::Wait;
use std::thread::Threads;
use std::time::Clock;
use volcano_refusals::Refusal;
use vx_catalog_writing::Text;
use vx_exec_runs::Runs;
use vx_rows_values::limits::MAX_GENERATED_ROWS;
use vx_wisconsin::{column_names, generate_rows};

/// The text of the relation with `rows` rows, in the layout that is asked for. It takes the memory of all rows and of their text.
pub fn relation_text<T: Threads + Wait + Sync, R: Runs, C: Clock>(
    services: &Services<'_, T, R, C>,
    rows: u64,
) -> Result<Text, Refusal>
    ensures few { IfOk result (λ _. rows ≤ max_generated_rows) }
    ensures text { IfOk result (λ text. text.items ≡ rows_text services.now.layout column_names (wisconsin rows)) }
    ensures refused { IfErr result (λ e. (e ≡ Refusal.NoMemory) ⊎ ((max_generated_rows < rows) × (e ≡ Refusal.TooLarge))) }
{
    if rows > MAX_GENERATED_ROWS {
        return Err(Refusal::TooLarge);
    }
    let names = column_names(services.alloc)?;
    let relation = generate_rows(services.alloc, rows)?;
    Ok(format_rows(services, names.as_slice(), relation)?)
}
