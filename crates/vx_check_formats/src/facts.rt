//! What is known of the columns of a node, as JSON: those that are equal, and those that have one value.

ghost use Rattle.std.specs.Prelude.{◌≡◌, ◌++◌, ◌<◌, ℕ, map, OnOk, IfOk};
ghost use Rattle.serde_json.specs.Data.{array};
ghost use Rattle.serde_json.specs.View.{view, members_view, items_of};
ghost use Rattle.vx_rows_values.specs.ValueView.{val_of};
ghost use Rattle.vx_plan_facts.specs.Equal.{Equality};
ghost use Rattle.vx_plan_facts.specs.Fixed.{Values};
ghost use Rattle.vx_plan_facts.specs.Facts.{Keeps};
ghost use Rattle.vx_plan_facts.specs.FactsView.{facts_of, width_of};
ghost use Rattle.vx_check_formats.specs.Json.{columns_json, keys_json, class_if, classes, value_json, fixed_json, fixed_if, all_fixed, with_facts};

use crate::columns::{Members, columns_json, name_json, text_json};
use serde_json::{Map, Value as Json, put};
use std::alloc::{AllocError, Global};
use vx_plan_facts::ColumnFacts;
use vx_plan_nodes::Name;
use vx_rows_values::Value;

// Adds a class of equal columns where the first of its two or more columns stands.
fn push_class(
    list: &mut Vec<Json>,
    alloc: Global,
    names: &[Name],
    column: usize,
    class: &[usize],
) -> Result<(), AllocError>
    ensures { OnOk result (map view list.new.items ≡ map view list.old.items ++ map (columns_json names.now) (class_if column class.now)) }
{
    if class.len() > 1 && class[0] == column {
        list.push(columns_json(alloc, names, class)?)?;
    }
    Ok(())
}

// The columns that are equal to others, each class where its first one stands.
fn equal_json(alloc: Global, names: &[Name], facts: &ColumnFacts<'_>) -> Result<Json, AllocError>
    ensures { (w : ℕ) (e : Equality) (f : Values) → Keeps w e f (facts_of facts.now) → IfOk result (λ d. view d ≡ keys_json names.now (classes w e)) }
{
    let mut list = Vec::new(alloc);
    for column in 0..facts.width() {
        let class = facts.class_of(alloc, column)?;
        push_class(&mut list, alloc, names, column, class.as_slice())?;
    }
    Ok(Json::Array(list))
}

fn value_json(alloc: Global, value: &Value) -> Result<Json, AllocError>
    ensures { IfOk result (λ d. view d ≡ value_json (val_of value.now)) }
{
    match value {
        Value::Int(number) => Ok(Json::from(*number)),
        Value::Text(text) => text_json(alloc, text.as_str()),
    }
}

// A column with a value that it has in every row.
fn fixed_json(
    alloc: Global,
    names: &[Name],
    column: usize,
    value: &Value,
) -> Result<Json, AllocError>
    ensures { IfOk result (λ d. view d ≡ fixed_json names.now column (val_of value.now)) }
{
    let mut members = Map::new(alloc);
    put(
        &mut members,
        alloc,
        "column",
        name_json(alloc, names, column)?,
    )?;
    put(&mut members, alloc, "value", value_json(alloc, value)?)?;
    Ok(Json::Object(members))
}

// Adds a column with each of its values.
fn push_fixed(
    list: &mut Vec<Json>,
    alloc: Global,
    names: &[Name],
    column: usize,
    values: &[&Value],
) -> Result<(), AllocError>
    ensures { OnOk result (map view list.new.items ≡ map view list.old.items ++ map (fixed_json names.now column) (map (λ u. val_of u.now) values.now)) }
{
    for value in values {
        list.push(fixed_json(alloc, names, column, value)?)?;
    }
    Ok(())
}

// Adds a column with its values, if it is the first of its class.
fn push_first(
    list: &mut Vec<Json>,
    alloc: Global,
    names: &[Name],
    facts: &ColumnFacts<'_>,
    column: usize,
) -> Result<(), AllocError>
    requires { column < width_of facts.now }
    ensures { (w : ℕ) (e : Equality) (f : Values) → Keeps w e f (facts_of facts.now) → OnOk result (map view list.new.items ≡ map view list.old.items ++ fixed_if names.now e f column) }
{
    if facts.first_of(column) != column {
        return Ok(());
    }
    let values = facts.values(alloc, column)?;
    push_fixed(list, alloc, names, column, values.as_slice())
}

// The fixed columns, of equal ones the first, each with its values.
fn all_fixed(alloc: Global, names: &[Name], facts: &ColumnFacts<'_>) -> Result<Json, AllocError>
    ensures { (w : ℕ) (e : Equality) (f : Values) → Keeps w e f (facts_of facts.now) → IfOk result (λ d. view d ≡ array (items_of (all_fixed names.now w e f))) }
{
    let mut list = Vec::new(alloc);
    for column in 0..facts.width() {
        push_first(&mut list, alloc, names, facts, column)?;
    }
    Ok(Json::Array(list))
}

/// Puts what is known of the columns with these names.
pub fn put_facts(
    members: &mut Members,
    alloc: Global,
    names: &[Name],
    facts: &ColumnFacts<'_>,
) -> Result<(), AllocError>
    ensures { (w : ℕ) (e : Equality) (f : Values) → Keeps w e f (facts_of facts.now) → OnOk result (members_view members.new.entries ≡ with_facts names.now w e f (members_view members.old.entries)) }
{
    put(members, alloc, "equal", equal_json(alloc, names, facts)?)?;
    put(members, alloc, "fixed", all_fixed(alloc, names, facts)?)
}
