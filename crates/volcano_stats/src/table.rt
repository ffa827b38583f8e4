//! Statistics for people: a table of the counts, and one of the times.

ghost use Rattle.std.specs.Prelude.{◌≡◌, ◌++◌, map, string_bytes, OnOk};
ghost use Rattle.volcano_stats.specs.Table.{count_heads, rows_row, moves_row, node_row, count_row, count_rows, time_heads, time_row, load_row, load_rows, rows_below, time_rows};

use crate::columns::{push_aligned, push_column, push_left, push_milliseconds};
use crate::lines::Line;
use crate::loads::LoadTime;
use crate::phases::{PhaseTime, WorkPhase};
use crate::words::{phase_word, relation_name, word_at};
use std::alloc::AllocError;
use vx_catalog_relations::Catalog;

/// Adds the heads of the columns.
#[tactic(auto, unfolding(crate::specs::Table::count_heads))]
pub fn push_count_heads(text: &mut String) -> Result<(), AllocError>
    ensures { OnOk result (string_bytes text.new ≡ string_bytes text.old ++ count_heads) }
{
    text.push_str(
        " node operator       worker      rows in     right in     rows out  morsels    taken      put    waits     full\n",
    )
}

// Adds the rows that came and those that were given.
#[tactic(auto, unfolding(crate::specs::Table::rows_row))]
fn push_rows(text: &mut String, line: &Line) -> Result<(), AllocError>
    ensures { OnOk result (string_bytes text.new ≡ string_bytes text.old ++ rows_row line.now) }
{
    push_column(text, 12, line.counts.left)?;
    push_column(text, 12, line.counts.right)?;
    push_column(text, 12, line.counts.gave)
}

// Adds the morsels, the packets and the waits.
#[tactic(auto, unfolding(crate::specs::Table::moves_row))]
fn push_moves(text: &mut String, line: &Line) -> Result<(), AllocError>
    ensures { OnOk result (string_bytes text.new ≡ string_bytes text.old ++ moves_row line.now) }
{
    push_column(text, 8, line.counts.morsels)?;
    push_column(text, 8, line.counts.packets)?;
    push_column(text, 8, line.puts)?;
    push_column(text, 8, line.counts.waits)?;
    push_column(text, 8, line.full)
}

// Adds the node with its word.
#[tactic(auto, unfolding(crate::specs::Table::node_row))]
fn push_node(text: &mut String, words: &[&str], node: u32) -> Result<(), AllocError>
    ensures { OnOk result (string_bytes text.new ≡ string_bytes text.old ++ node_row (map (λ w. w.now) words.now) node) }
{
    push_aligned(text, 5, node as u64)?;
    text.push_str(" ")?;
    push_left(text, 14, word_at(words, node))
}

// Adds one line of the counts.
#[tactic(auto, unfolding(crate::specs::Table::count_row))]
fn push_row(text: &mut String, words: &[&str], line: &Line) -> Result<(), AllocError>
    ensures { OnOk result (string_bytes text.new ≡ string_bytes text.old ++ count_row (map (λ w. w.now) words.now) line.now) }
{
    push_node(text, words, line.node)?;
    push_column(text, 6, line.worker as u64)?;
    push_rows(text, line)?;
    push_moves(text, line)?;
    text.push_str("\n")
}

/// Adds a line for each node in each worker.
pub fn push_count_rows(text: &mut String, words: &[&str], lines: &[Line]) -> Result<(), AllocError>
    ensures { OnOk result (string_bytes text.new ≡ string_bytes text.old ++ count_rows (map (λ w. w.now) words.now) lines.now) }
{
    for line in lines {
        push_row(text, words, line)?;
    }
    Ok(())
}

/// Adds the heads of the times.
#[tactic(auto, unfolding(crate::specs::Table::time_heads))]
pub fn push_time_heads(text: &mut String) -> Result<(), AllocError>
    ensures { OnOk result (string_bytes text.new ≡ string_bytes text.old ++ time_heads) }
{
    text.push_str("phase               ms\n")
}

/// Adds a phase and its time.
#[tactic(auto, unfolding(crate::specs::Table::time_row))]
pub fn push_time_row(text: &mut String, time: &PhaseTime) -> Result<(), AllocError>
    ensures { OnOk result (string_bytes text.new ≡ string_bytes text.old ++ time_row time.now) }
{
    push_left(text, 8, phase_word(time.phase))?;
    push_milliseconds(text, time.microseconds)?;
    text.push_str("\n")
}

// Adds a relation and the time of its load.
#[tactic(auto, unfolding(crate::specs::Table::load_row))]
fn push_load_row(text: &mut String, catalog: &Catalog, load: &LoadTime) -> Result<(), AllocError>
    ensures { OnOk result (string_bytes text.new ≡ string_bytes text.old ++ load_row catalog.now load.now) }
{
    push_left(text, 8, "")?;
    push_milliseconds(text, load.microseconds)?;
    text.push_str("  ")?;
    text.push_str(relation_name(catalog, load.relation))?;
    text.push_str("\n")
}

// Adds relations and the times of their loads, a line each.
fn push_load_rows(
    text: &mut String,
    catalog: &Catalog,
    loads: &[LoadTime],
) -> Result<(), AllocError>
    ensures { OnOk result (string_bytes text.new ≡ string_bytes text.old ++ load_rows catalog.now loads.now) }
{
    for load in loads {
        push_load_row(text, catalog, load)?;
    }
    Ok(())
}

// Adds what stands below a phase.
fn push_rows_below(
    text: &mut String,
    catalog: &Catalog,
    loads: &[LoadTime],
    phase: WorkPhase,
) -> Result<(), AllocError>
    ensures { OnOk result (string_bytes text.new ≡ string_bytes text.old ++ rows_below catalog.now loads.now phase) }
{
    match phase {
        WorkPhase::Load => push_load_rows(text, catalog, loads),
        WorkPhase::Read
        | WorkPhase::Catalog
        | WorkPhase::Plan
        | WorkPhase::Plans
        | WorkPhase::Check
        | WorkPhase::Run
        | WorkPhase::Write => Ok(()),
    }
}

/// Adds phases and their times, a line each, and below that of the load the loads.
pub fn push_time_rows(
    text: &mut String,
    catalog: &Catalog,
    loads: &[LoadTime],
    times: &[PhaseTime],
) -> Result<(), AllocError>
    ensures { OnOk result (string_bytes text.new ≡ string_bytes text.old ++ time_rows catalog.now loads.now times.now) }
{
    for time in times {
        push_time_row(text, time)?;
        push_rows_below(text, catalog, loads, time.phase)?;
    }
    Ok(())
}
