//! The statistics of runs in either form.

ghost use Rattle.std.specs.Prelude.{◌≡◌, ◌++◌, map, string_bytes, OnOk};
ghost use Rattle.volcano_stats.specs.Text.{counts_text, plan_counts, times_opening, time_text, times_text, times_end, write_opening, plan_text, lone_text, shared_text};

use crate::columns::push_left;
use crate::lines::{Line, lines_of};
use crate::loads::LoadTime;
use crate::phases::PhaseTime;
use crate::words::operator_words;
use crate::{json, table};
use std::alloc::{AllocError, Global};
use vx_catalog_relations::Catalog;
use vx_exec_setup::WorkerCounts;
use vx_plan_nodes::TypedPlan;

/// How statistics are written.
#[derive(Clone, Copy, PartialEq, Eq)]
pub enum StatsForm {
    /// For people.
    Table,
    /// For tools.
    Json,
}

// Adds the counts of nodes whose operators have these words, up to where times follow.
fn push_counts(
    text: &mut String,
    form: StatsForm,
    words: &[&str],
    lines: &[Line],
) -> Result<(), AllocError>
    ensures { OnOk result (string_bytes text.new ≡ string_bytes text.old ++ counts_text form (map (λ w. w.now) words.now) lines.now) }
{
    match form {
        StatsForm::Table => {
            table::push_count_heads(text)?;
            table::push_count_rows(text, words, lines)?;
            table::push_time_heads(text)
        }
        StatsForm::Json => {
            text.push_str("{\"nodes\":[")?;
            json::push_lines(text, words, lines)?;
            text.push_str("],\"phases\":[")
        }
    }
}

// Adds the counts of a run of a plan, up to where times follow.
fn push_plan_counts(
    text: &mut String,
    alloc: Global,
    form: StatsForm,
    plan: &TypedPlan,
    workers: &[WorkerCounts],
) -> Result<(), AllocError>
    ensures { OnOk result (string_bytes text.new ≡ string_bytes text.old ++ plan_counts form plan.now workers.now) }
{
    let words = operator_words(alloc, plan)?;
    let lines = lines_of(alloc, workers)?;
    push_counts(text, form, words.as_slice(), lines.as_slice())
}

// Adds what times alone begin with.
fn push_times_opening(text: &mut String, form: StatsForm) -> Result<(), AllocError>
    ensures { OnOk result (string_bytes text.new ≡ string_bytes text.old ++ times_opening form) }
{
    match form {
        StatsForm::Table => table::push_time_heads(text),
        StatsForm::Json => text.push_str("{\"phases\":["),
    }
}

// Adds a time alone.
fn push_time(text: &mut String, form: StatsForm, time: &PhaseTime) -> Result<(), AllocError>
    ensures { OnOk result (string_bytes text.new ≡ string_bytes text.old ++ time_text form time.now) }
{
    match form {
        StatsForm::Table => table::push_time_row(text, time),
        StatsForm::Json => json::push_time(text, time),
    }
}

// Adds times, that of the load with the loads.
fn push_times(
    text: &mut String,
    alloc: Global,
    form: StatsForm,
    catalog: &Catalog,
    loads: &[LoadTime],
    times: &[PhaseTime],
) -> Result<(), AllocError>
    ensures { OnOk result (string_bytes text.new ≡ string_bytes text.old ++ times_text form catalog.now loads.now times.now) }
{
    match form {
        StatsForm::Table => table::push_time_rows(text, catalog, loads, times),
        StatsForm::Json => json::push_times(text, alloc, catalog, loads, times),
    }
}

// Adds what stands behind the last time.
fn push_times_end(text: &mut String, form: StatsForm) -> Result<(), AllocError>
    ensures { OnOk result (string_bytes text.new ≡ string_bytes text.old ++ times_end form) }
{
    match form {
        StatsForm::Table => Ok(()),
        StatsForm::Json => text.push_str("]}\n"),
    }
}

// Adds the time of the write behind other times, up to its number.
fn push_write_opening(text: &mut String, form: StatsForm) -> Result<(), AllocError>
    ensures { OnOk result (string_bytes text.new ≡ string_bytes text.old ++ write_opening form) }
{
    match form {
        StatsForm::Table => push_left(text, 8, "write"),
        StatsForm::Json => {
            text.push_str(",")?;
            json::push_time_opening(text, "write")
        }
    }
}

/// Adds the statistics of one of several plans: what its workers counted, and how long its run took.
pub fn push_plan(
    text: &mut String,
    alloc: Global,
    form: StatsForm,
    plan: &TypedPlan,
    workers: &[WorkerCounts],
    run: PhaseTime,
) -> Result<(), AllocError>
    ensures { OnOk result (string_bytes text.new ≡ string_bytes text.old ++ plan_text form plan.now workers.now run) }
{
    push_plan_counts(text, alloc, form, plan, workers)?;
    push_time(text, form, &run)?;
    push_times_end(text, form)
}

/// Adds the statistics of a plan that runs alone, up to the time of the write, with the loads below the time of the load. There is one
/// time at least.
pub fn push_lone_plan(
    text: &mut String,
    alloc: Global,
    form: StatsForm,
    plan: &TypedPlan,
    workers: &[WorkerCounts],
    loads: &[LoadTime],
    times: &[PhaseTime],
) -> Result<(), AllocError>
    ensures { OnOk result (string_bytes text.new ≡ string_bytes text.old ++ lone_text form plan.now workers.now loads.now times.now) }
{
    push_plan_counts(text, alloc, form, plan, workers)?;
    push_times(text, alloc, form, plan.catalog(), loads, times)?;
    push_write_opening(text, form)
}

/// Adds what several plans over a catalog have in common, up to the time of the write, with the loads below the time of the load. There
/// is one time at least.
pub fn push_shared(
    text: &mut String,
    alloc: Global,
    form: StatsForm,
    catalog: &Catalog,
    loads: &[LoadTime],
    times: &[PhaseTime],
) -> Result<(), AllocError>
    ensures { OnOk result (string_bytes text.new ≡ string_bytes text.old ++ shared_text form catalog.now loads.now times.now) }
{
    push_times_opening(text, form)?;
    push_times(text, alloc, form, catalog, loads, times)?;
    push_write_opening(text, form)
}
