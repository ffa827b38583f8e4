//! Rows of one number each, as a word of a case has them.

ghost use Rattle.std.specs.Prelude.{◌≡◌, ◌≤◌, ◌<◌, [], ◌∷◌, length, IfSome};
ghost use Rattle.vx_rows_values.specs.declared.value.ColType.TheVariants as kind;

use std::alloc::Global;
use vx_rows::Table;
use vx_rows_values::{ColType, Value};
use vx_rows_views::Rows;

// The most rows of a word: as many as a packet may have.
const MOST: usize = 4096;

// Adds to `rows` the numbers of a `run`: `0-4` has five, and `3` has one. None where it is no run, or memory ran out.
fn push_run(rows: &mut Table, run: &str) -> Option<()>
    requires { rows.old.types ≡ kind.Int ∷ [] }
    ensures { rows.new.types ≡ kind.Int ∷ [] }
{
    let (first, last) = run.split_once('-').unwrap_or((run, run));
    let first = first.parse::<u32>().ok()?;
    let last = last.parse::<u32>().ok()?;
    for number in first..last.checked_add(1)? {
        rows.push(&[Value::Int(i64::from(number))]).ok()?;
    }
    Some(())
}

/// A row for each number of the runs in `word`, as `3,1` or `0-4,7`: 1 to 4,096. None where there are none or more, or memory ran out.
pub fn rows_of(alloc: Global, word: &str) -> Option<Rows>
    ensures types { IfSome result (λ rows. rows.types ≡ kind.Int ∷ []) }
    ensures some { IfSome result (λ rows. 0 < length rows.rows) }
    ensures few { IfSome result (λ rows. length rows.rows ≤ 4096) }
{
    let Ok(mut table) = Table::new(alloc, &[ColType::Int]) else {
        return None;
    };
    for run in word.split(',') {
        push_run(&mut table, run)?;
    }
    let Ok(rows) = Rows::of_table(alloc, table) else {
        return None;
    };
    if rows.len() < 1 || rows.len() > MOST {
        return None;
    }
    Some(rows)
}
