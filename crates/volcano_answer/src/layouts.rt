//! The layouts of rows.

ghost use Rattle.std.specs.Prelude.{◌≡◌, map, string_bytes, option_map, Some, IfOk};
ghost use Rattle.std.specs.Option.{is_some};
ghost use Rattle.volcano_answer.specs.Layouts.{rows_text, layout_named, names_layout, layout_of_word};

use crate::services::Services;
use std::alloc::AllocError;
use std::sync::Wait;
use std::thread::Threads;
use std::time::Clock;
use vx_catalog_formats::{format_json, format_table};
use vx_catalog_writing::{Text, format_in_threads};
use vx_exec_runs::Runs;
use vx_rows_views::Rows;

/// How rows are written.
#[derive(Clone, Copy, Debug, PartialEq, Eq)]
pub enum Layout {
    /// As CSV.
    Csv,
    /// As a table for people, on a screen of so many columns if that is known.
    Table(Option<usize>),
    /// As JSON, an object on a line for each row.
    Json,
}

/// The layout that a word stands for, if it does.
pub fn layout_named(columns: Option<usize>, word: &str) -> Option<Layout>
    ensures { result ≡ layout_named columns word.now }
{
    match word {
        "csv" => Some(Layout::Csv),
        "table" => Some(Layout::Table(columns)),
        "json" => Some(Layout::Json),
        _ => None,
    }
}

/// The text of rows under these names. Rows as CSV go as their text grows.
pub fn format_rows<T: Threads + Wait + Sync, R: Runs, C: Clock>(
    services: &Services<'_, T, R, C>,
    names: &[String],
    rows: Rows,
) -> Result<Text, AllocError>
    ensures { IfOk result (λ v. v.items ≡ rows_text services.now.layout (map string_bytes names.now) rows.rows) }
{
    let (rt, alloc, threads) = (services.rt, services.alloc, services.threads);
    match services.layout {
        Layout::Csv => format_in_threads(rt, alloc, threads, names, rows),
        Layout::Table(columns) => Ok(Text::from(format_table(alloc, columns, names, &rows)?)),
        Layout::Json => Ok(Text::from(format_json(alloc, names, &rows)?)),
    }
}
