//! Texts, columns and orders as JSON.

ghost use Rattle.std.specs.Prelude.{◌≡◌, OnOk, IfOk};
ghost use Rattle.serde_json.specs.Data.{string, put};
ghost use Rattle.serde_json.specs.View.{view, members_view};
ghost use Rattle.vx_check.specs.Explain.{name_at};
ghost use Rattle.vx_check_formats.specs.Json.{columns_json, entry_json, order_json};

use serde_json::{Map, Value as Json, put};
use std::alloc::{AllocError, Global};
use vx_check::push_name;
use vx_plan_nodes::Name;
use vx_rows_values::OrderEntry;

pub type Members = Map<String, Json>;

/// A text.
pub fn text_json(alloc: Global, text: &str) -> Result<Json, AllocError>
    ensures { IfOk result (λ d. view d ≡ string text.now) }
{
    Ok(Json::String(String::from_str(alloc, text)?))
}

/// Puts a member that is a text.
pub fn put_text(
    members: &mut Members,
    alloc: Global,
    key: &str,
    text: &str,
) -> Result<(), AllocError>
    ensures { OnOk result (members_view members.new.entries ≡ put key.now (string text.now) (members_view members.old.entries)) }
{
    put(members, alloc, key, text_json(alloc, text)?)
}

/// The name with this number; past the end the empty one.
pub fn name_json(alloc: Global, names: &[Name], number: usize) -> Result<Json, AllocError>
    ensures { IfOk result (λ d. view d ≡ string (name_at names.now number)) }
{
    let mut text = String::new(alloc);
    push_name(&mut text, names, number)?;
    Ok(Json::String(text))
}

/// Columns by their names.
pub fn columns_json(alloc: Global, names: &[Name], columns: &[usize]) -> Result<Json, AllocError>
    ensures { IfOk result (λ d. view d ≡ columns_json names.now columns.now) }
{
    let mut list = Vec::new(alloc);
    for column in columns {
        list.push(name_json(alloc, names, *column)?)?;
    }
    Ok(Json::Array(list))
}

// A column of an order: its name where it rises, and where it falls an object that says so.
fn entry_json(alloc: Global, names: &[Name], entry: OrderEntry) -> Result<Json, AllocError>
    ensures { IfOk result (λ d. view d ≡ entry_json names.now entry) }
{
    let name = name_json(alloc, names, entry.column)?;
    if !entry.falling {
        return Ok(name);
    }
    let mut members = Map::new(alloc);
    put(&mut members, alloc, "column", name)?;
    put(&mut members, alloc, "desc", Json::Bool(true))?;
    Ok(Json::Object(members))
}

/// An order by the names of its columns.
pub fn order_json(alloc: Global, names: &[Name], order: &[OrderEntry]) -> Result<Json, AllocError>
    ensures { IfOk result (λ d. view d ≡ order_json names.now order.now) }
{
    let mut list = Vec::new(alloc);
    for entry in order {
        list.push(entry_json(alloc, names, *entry)?)?;
    }
    Ok(Json::Array(list))
}
