//! Parts of claims as a plan document writes them, for what would help.

use std::alloc::{AllocError, Global};
use vx_check::{push_between, range_name};
use vx_plan_nodes::{Name, Part, Route, TypedPlan};
use vx_rows_values::OrderEntry;

// Adds a text as JSON writes it.
fn push_quoted(alloc: Global, text: &mut String, word: String) -> Result<(), AllocError> {
    let quoted = serde_json::Value::String(word).to_string(alloc)?;
    text.push_str(quoted.as_str())
}

// Adds the name with this number as JSON writes it; past the end nothing.
fn push_quoted_name(
    alloc: Global,
    text: &mut String,
    names: &[Name],
    column: usize,
) -> Result<(), AllocError> {
    match names.get(column) {
        Some(name) => push_quoted(alloc, text, name.to_text(alloc)?),
        None => Ok(()),
    }
}

/// Adds columns as a list of JSON.
pub fn push_json_list(
    alloc: Global,
    text: &mut String,
    names: &[Name],
    columns: &[usize],
) -> Result<(), AllocError> {
    text.push_str("[")?;
    for (i, column) in columns.iter().enumerate() {
        push_between(text, ", ", i > 0)?;
        push_quoted_name(alloc, text, names, *column)?;
    }
    text.push_str("]")
}

// Adds an entry of an order as JSON writes it: a name, or an object where it falls.
fn push_json_entry(
    alloc: Global,
    text: &mut String,
    names: &[Name],
    entry: OrderEntry,
) -> Result<(), AllocError> {
    if !entry.falling {
        return push_quoted_name(alloc, text, names, entry.column);
    }
    text.push_str("{\"column\": ")?;
    push_quoted_name(alloc, text, names, entry.column)?;
    text.push_str(", \"desc\": true}")
}

/// Adds an order as a list of JSON.
pub fn push_json_order(
    alloc: Global,
    text: &mut String,
    names: &[Name],
    order: &[OrderEntry],
) -> Result<(), AllocError> {
    text.push_str("[")?;
    for (i, entry) in order.iter().enumerate() {
        push_between(text, ", ", i > 0)?;
        push_json_entry(alloc, text, names, *entry)?;
    }
    text.push_str("]")
}

/// Adds keys as a list of JSON.
pub fn push_json_keys(
    alloc: Global,
    text: &mut String,
    names: &[Name],
    keys: &[Vec<usize>],
) -> Result<(), AllocError> {
    text.push_str("[")?;
    for (i, key) in keys.iter().enumerate() {
        push_between(text, ", ", i > 0)?;
        push_json_list(alloc, text, names, key.as_slice())?;
    }
    text.push_str("]")
}

fn push_json_hash(
    alloc: Global,
    text: &mut String,
    names: &[Name],
    route: &str,
    columns: &[usize],
) -> Result<(), AllocError> {
    text.push_str("{\"hash\": ")?;
    push_quoted(alloc, text, String::from_str(alloc, route)?)?;
    text.push_str(", \"columns\": ")?;
    push_json_list(alloc, text, names, columns)?;
    text.push_str("}")
}

fn push_json_range(
    alloc: Global,
    text: &mut String,
    names: &[Name],
    range: &str,
    columns: &[usize],
) -> Result<(), AllocError> {
    text.push_str("{\"range\": ")?;
    push_quoted(alloc, text, String::from_str(alloc, range)?)?;
    text.push_str(", \"column\": ")?;
    if let Some(column) = columns.first() {
        push_quoted_name(alloc, text, names, *column)?;
    }
    text.push_str("}")
}

/// Adds a part as JSON writes it.
pub fn push_json_part(
    alloc: Global,
    text: &mut String,
    plan: &TypedPlan,
    names: &[Name],
    part: &Part,
) -> Result<(), AllocError> {
    match part {
        Part::One => text.push_str("\"one\""),
        Part::Any => text.push_str("\"any\""),
        Part::All => text.push_str("\"all\""),
        Part::Routed(Route::Hash(route), columns) => {
            push_json_hash(alloc, text, names, route.as_str(), columns.as_slice())
        }
        Part::Routed(Route::Range(range), columns) => push_json_range(
            alloc,
            text,
            names,
            range_name(plan, *range),
            columns.as_slice(),
        ),
    }
}
