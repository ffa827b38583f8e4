//! Statistics for tools, as JSON.

ghost use Rattle.std.specs.Prelude.{◌≡◌, ◌++◌, map, string_bytes, cond, codes, [], OnOk};
ghost use Rattle.serde_json.specs.Data.{string};
ghost use Rattle.serde_json.specs.Written.{compact_text};
ghost use Rattle.vx_catalog_relations.specs.Catalog.{relation_at};
ghost use Rattle.volcano_stats.specs.Json.{member, rows_members, moves_members, node_members, line_json, lines_json, time_opening, time_json, load_json, loads_json, relations_member, loads_member, phase_json, times_json};

use crate::columns::{push_microseconds, push_number};
use crate::lines::Line;
use crate::loads::LoadTime;
use crate::phases::{PhaseTime, WorkPhase};
use crate::words::{phase_word, relation_name, word_at};
use serde_json::Value as Json;
use std::alloc::{AllocError, Global};
use vx_catalog_relations::Catalog;

// Adds a comma, unless nothing was added before.
fn push_comma(text: &mut String, is_later: bool) -> Result<(), AllocError>
    ensures { OnOk result (string_bytes text.new ≡ string_bytes text.old ++ cond is_later (codes ",") []) }
{
    if is_later {
        return text.push_str(",");
    }
    Ok(())
}

// Adds a member behind others: its name and a number.
#[tactic(auto, unfolding(crate::specs::Json::member))]
fn push_member(text: &mut String, name: &str, number: u64) -> Result<(), AllocError>
    ensures { OnOk result (string_bytes text.new ≡ string_bytes text.old ++ member name.now number) }
{
    text.push_str(",\"")?;
    text.push_str(name)?;
    text.push_str("\":")?;
    push_number(text, number)
}

// Adds the rows that came and those that were given.
#[tactic(auto, unfolding(crate::specs::Json::rows_members))]
fn push_rows(text: &mut String, line: &Line) -> Result<(), AllocError>
    ensures { OnOk result (string_bytes text.new ≡ string_bytes text.old ++ rows_members line.now) }
{
    push_member(text, "left", line.counts.left)?;
    push_member(text, "right", line.counts.right)?;
    push_member(text, "gave", line.counts.gave)
}

// Adds the morsels, the packets and the waits.
#[tactic(auto, unfolding(crate::specs::Json::moves_members))]
fn push_moves(text: &mut String, line: &Line) -> Result<(), AllocError>
    ensures { OnOk result (string_bytes text.new ≡ string_bytes text.old ++ moves_members line.now) }
{
    push_member(text, "morsels", line.counts.morsels)?;
    push_member(text, "taken", line.counts.packets)?;
    push_member(text, "put", line.puts)?;
    push_member(text, "waits", line.counts.waits)?;
    push_member(text, "full", line.full)
}

// Adds the node with its word.
#[tactic(auto, unfolding(crate::specs::Json::node_members))]
fn push_node(text: &mut String, words: &[&str], node: u32) -> Result<(), AllocError>
    ensures { OnOk result (string_bytes text.new ≡ string_bytes text.old ++ node_members (map (λ w. w.now) words.now) node) }
{
    text.push_str("{\"node\":")?;
    push_number(text, node as u64)?;
    text.push_str(",\"op\":\"")?;
    text.push_str(word_at(words, node))?;
    text.push_str("\"")
}

// Adds one line of the counts as an object.
#[tactic(auto, unfolding(crate::specs::Json::line_json))]
fn push_line(text: &mut String, words: &[&str], line: &Line) -> Result<(), AllocError>
    ensures { OnOk result (string_bytes text.new ≡ string_bytes text.old ++ line_json (map (λ w. w.now) words.now) line.now) }
{
    push_node(text, words, line.node)?;
    push_member(text, "worker", line.worker as u64)?;
    push_rows(text, line)?;
    push_moves(text, line)?;
    text.push_str("}")
}

/// Adds an object for each node in each worker, with commas between them.
pub fn push_lines(text: &mut String, words: &[&str], lines: &[Line]) -> Result<(), AllocError>
    ensures { OnOk result (string_bytes text.new ≡ string_bytes text.old ++ lines_json (map (λ w. w.now) words.now) lines.now) }
{
    for (i, line) in lines.iter().enumerate() {
        push_comma(text, i > 0)?;
        push_line(text, words, line)?;
    }
    Ok(())
}

/// Adds what a phase's object begins with.
#[tactic(auto, unfolding(crate::specs::Json::time_opening))]
pub fn push_time_opening(text: &mut String, word: &str) -> Result<(), AllocError>
    ensures { OnOk result (string_bytes text.new ≡ string_bytes text.old ++ time_opening word.now) }
{
    text.push_str("{\"phase\":\"")?;
    text.push_str(word)?;
    text.push_str("\",\"microseconds\":")
}

/// Adds a phase and its time as an object.
#[tactic(auto, unfolding(crate::specs::Json::time_json))]
pub fn push_time(text: &mut String, time: &PhaseTime) -> Result<(), AllocError>
    ensures { OnOk result (string_bytes text.new ≡ string_bytes text.old ++ time_json time.now) }
{
    push_time_opening(text, phase_word(time.phase))?;
    push_microseconds(text, time.microseconds)?;
    text.push_str("}")
}

// Adds a relation's name in double quotes.
fn push_relation_name(
    text: &mut String,
    alloc: Global,
    catalog: &Catalog,
    relation: usize,
) -> Result<(), AllocError>
    ensures { OnOk result (string_bytes text.new ≡ string_bytes text.old ++ compact_text (string (relation_at catalog.now relation).name)) }
{
    let name = String::from_str(alloc, relation_name(catalog, relation))?;
    let quoted = Json::String(name).to_string(alloc)?;
    text.push_str(quoted.as_str())
}

// Adds a relation and the time of its load as an object.
#[tactic(auto, unfolding(crate::specs::Json::load_json))]
fn push_load(
    text: &mut String,
    alloc: Global,
    catalog: &Catalog,
    load: &LoadTime,
) -> Result<(), AllocError>
    ensures { OnOk result (string_bytes text.new ≡ string_bytes text.old ++ load_json catalog.now load.now) }
{
    text.push_str("{\"relation\":")?;
    push_relation_name(text, alloc, catalog, load.relation)?;
    text.push_str(",\"microseconds\":")?;
    push_microseconds(text, load.microseconds)?;
    text.push_str("}")
}

// Adds an object for each load with its time, with commas between them.
#[tactic(auto, unfolding(crate::specs::Json::loads_json))]
fn push_loads(
    text: &mut String,
    alloc: Global,
    catalog: &Catalog,
    loads: &[LoadTime],
) -> Result<(), AllocError>
    ensures { OnOk result (string_bytes text.new ≡ string_bytes text.old ++ loads_json catalog.now loads.now) }
{
    for (i, load) in loads.iter().enumerate() {
        push_comma(text, i > 0)?;
        push_load(text, alloc, catalog, load)?;
    }
    Ok(())
}

// Adds the loads as a member behind others.
#[tactic(auto, unfolding(crate::specs::Json::relations_member))]
fn push_relations(
    text: &mut String,
    alloc: Global,
    catalog: &Catalog,
    loads: &[LoadTime],
) -> Result<(), AllocError>
    ensures { OnOk result (string_bytes text.new ≡ string_bytes text.old ++ relations_member catalog.now loads.now) }
{
    text.push_str(",\"relations\":[")?;
    push_loads(text, alloc, catalog, loads)?;
    text.push_str("]")
}

// Adds the loads behind the time of a phase, if it is the load.
fn push_loads_member(
    text: &mut String,
    alloc: Global,
    catalog: &Catalog,
    loads: &[LoadTime],
    phase: WorkPhase,
) -> Result<(), AllocError>
    ensures { OnOk result (string_bytes text.new ≡ string_bytes text.old ++ loads_member catalog.now loads.now phase) }
{
    match phase {
        WorkPhase::Load => push_relations(text, alloc, catalog, loads),
        WorkPhase::Read
        | WorkPhase::Catalog
        | WorkPhase::Plan
        | WorkPhase::Plans
        | WorkPhase::Check
        | WorkPhase::Run
        | WorkPhase::Write => Ok(()),
    }
}

// Adds a phase and its time as an object, which has the loads if it is the load.
#[tactic(auto, unfolding(crate::specs::Json::phase_json))]
fn push_phase(
    text: &mut String,
    alloc: Global,
    catalog: &Catalog,
    loads: &[LoadTime],
    time: &PhaseTime,
) -> Result<(), AllocError>
    ensures { OnOk result (string_bytes text.new ≡ string_bytes text.old ++ phase_json catalog.now loads.now time.now) }
{
    push_time_opening(text, phase_word(time.phase))?;
    push_microseconds(text, time.microseconds)?;
    push_loads_member(text, alloc, catalog, loads, time.phase)?;
    text.push_str("}")
}

/// Adds an object for each phase with its time, with commas between them; that of the load has the loads.
pub fn push_times(
    text: &mut String,
    alloc: Global,
    catalog: &Catalog,
    loads: &[LoadTime],
    times: &[PhaseTime],
) -> Result<(), AllocError>
    ensures { OnOk result (string_bytes text.new ≡ string_bytes text.old ++ times_json catalog.now loads.now times.now) }
{
    for (i, time) in times.iter().enumerate() {
        push_comma(text, i > 0)?;
        push_phase(text, alloc, catalog, loads, time)?;
    }
    Ok(())
}
