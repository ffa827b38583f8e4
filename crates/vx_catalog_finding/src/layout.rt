//! The text of a catalog, laid out for people.

ghost use Rattle.std.specs.Prelude.{◌≡◌, ◌++◌, map, string_bytes, IfOk, OnOk};
ghost use Rattle.vx_catalog_relations.specs.Naming.{name_at};
ghost use Rattle.vx_catalog_finding.specs.Layout.{quoted, joined, listed, type_text, column_text, column_texts, key_text, entry_text, relation_text, laid_out};

use crate::relation::FoundRelation;
use serde_json::Value as Json;
use std::alloc::{AllocError, Global};
use vx_rows_values::{ColType, OrderEntry};

// A text as JSON writes it.
#[tactic(auto, unfolding(crate::specs::Layout::quoted))]
fn quoted(alloc: Global, text: &str) -> Result<String, AllocError>
    ensures { IfOk result (λ s. string_bytes s ≡ quoted text.now) }
{
    Json::String(String::from_str(alloc, text)?).to_string(alloc)
}

// These texts with the separator between them.
fn joined(alloc: Global, separator: &str, parts: &[String]) -> Result<String, AllocError>
    ensures { IfOk result (λ s. string_bytes s ≡ joined separator.now (map string_bytes parts.now)) }
{
    parts.join(alloc, separator)
}

// A list of these items.
fn listed(alloc: Global, items: &[String]) -> Result<String, AllocError>
    ensures { IfOk result (λ s. string_bytes s ≡ listed (map string_bytes items.now)) }
{
    let mut text = String::from_str(alloc, "[")?;
    text.push_str(joined(alloc, ", ", items)?.as_str())?;
    text.push_str("]")?;
    Ok(text)
}

// The type of a column, which ends it.
fn type_text(kind: ColType) -> &'static str
    ensures { result.now ≡ type_text kind }
{
    match kind {
        ColType::Int => "\"int\"}",
        ColType::Text => "\"text\"}",
    }
}

fn column_text(alloc: Global, name: &str, kind: ColType) -> Result<String, AllocError>
    ensures { IfOk result (λ s. string_bytes s ≡ column_text name.now kind) }
{
    let mut text = String::from_str(alloc, "{\"name\": ")?;
    text.push_str(quoted(alloc, name)?.as_str())?;
    text.push_str(", \"type\": ")?;
    text.push_str(type_text(kind))?;
    Ok(text)
}

// The columns of these names and types.
#[tactic(auto, using(crate::proofs::LayoutFacts::column_steps))]
fn column_texts(
    alloc: Global,
    names: &[String],
    types: &[ColType],
) -> Result<Vec<String>, AllocError>
    ensures { IfOk result (λ v. map string_bytes v.items ≡ column_texts (map string_bytes names.now) types.now) }
{
    let mut texts = Vec::new(alloc);
    for i in 0..names.len().min(types.len()) {
        texts.push(column_text(alloc, names[i].as_str(), types[i])?)?;
    }
    Ok(texts)
}

// The name of a column; past the end the empty one.
fn name_at(names: &[String], column: usize) -> &str
    ensures { result.now ≡ name_at (map string_bytes names.now) column }
{
    match names.get(column) {
        Some(name) => name.as_str(),
        None => "",
    }
}

// A key, by the names of its columns.
fn key_text(alloc: Global, names: &[String], key: &[usize]) -> Result<String, AllocError>
    ensures { IfOk result (λ s. string_bytes s ≡ key_text (map string_bytes names.now) key.now) }
{
    let mut columns = Vec::new(alloc);
    for column in key {
        columns.push(quoted(alloc, name_at(names, *column))?)?;
    }
    listed(alloc, columns.as_slice())
}

fn key_texts(
    alloc: Global,
    names: &[String],
    keys: &[Vec<usize>],
) -> Result<Vec<String>, AllocError>
    ensures { IfOk result (λ v. map string_bytes v.items ≡ map (key_text (map string_bytes names.now)) (map (λ k. k.items) keys.now)) }
{
    let mut texts = Vec::new(alloc);
    for key in keys {
        texts.push(key_text(alloc, names, key.as_slice())?)?;
    }
    Ok(texts)
}

// An entry of an order: the name of a column that rises, and an object for one that falls.
fn entry_text(alloc: Global, names: &[String], entry: OrderEntry) -> Result<String, AllocError>
    ensures { IfOk result (λ s. string_bytes s ≡ entry_text (map string_bytes names.now) entry) }
{
    let name = quoted(alloc, name_at(names, entry.column))?;
    if !entry.falling {
        return Ok(name);
    }
    let mut text = String::from_str(alloc, "{\"column\": ")?;
    text.push_str(name.as_str())?;
    text.push_str(", \"desc\": true}")?;
    Ok(text)
}

fn entry_texts(
    alloc: Global,
    names: &[String],
    order: &[OrderEntry],
) -> Result<Vec<String>, AllocError>
    ensures { IfOk result (λ v. map string_bytes v.items ≡ map (entry_text (map string_bytes names.now)) order.now) }
{
    let mut texts = Vec::new(alloc);
    for entry in order {
        texts.push(entry_text(alloc, names, *entry)?)?;
    }
    Ok(texts)
}

// Adds these words and a list of these items.
fn push_list(
    alloc: Global,
    text: &mut String,
    words: &str,
    items: &[String],
) -> Result<(), AllocError>
    ensures { OnOk result (string_bytes text.new ≡ string_bytes text.old ++ words.now ++ listed (map string_bytes items.now)) }
{
    text.push_str(words)?;
    text.push_str(listed(alloc, items)?.as_str())
}

fn relation_text(alloc: Global, relation: &FoundRelation) -> Result<String, AllocError>
    ensures { IfOk result (λ s. string_bytes s ≡ relation_text relation.now) }
{
    let names = relation.names.as_slice();
    let columns = column_texts(alloc, names, relation.types.as_slice())?;
    let keys = key_texts(alloc, names, relation.keys.as_slice())?;
    let order = entry_texts(alloc, names, relation.order.as_slice())?;
    let mut text = String::from_str(alloc, " {\"name\": ")?;
    text.push_str(quoted(alloc, relation.name.as_str())?.as_str())?;
    push_list(alloc, &mut text, ",\n  \"columns\": ", columns.as_slice())?;
    push_list(alloc, &mut text, ",\n  \"keys\": ", keys.as_slice())?;
    push_list(alloc, &mut text, ",\n  \"order\": ", order.as_slice())?;
    text.push_str("}")?;
    Ok(text)
}

fn relation_texts(alloc: Global, relations: &[FoundRelation]) -> Result<Vec<String>, AllocError>
    ensures { IfOk result (λ v. map string_bytes v.items ≡ map relation_text relations.now) }
{
    let mut texts = Vec::new(alloc);
    for relation in relations {
        texts.push(relation_text(alloc, relation)?)?;
    }
    Ok(texts)
}

/// The text of a catalog of these relations.
#[tactic(auto, unfolding(crate::specs::Layout::laid_out))]
pub fn laid_out(alloc: Global, relations: &[FoundRelation]) -> Result<String, AllocError>
    ensures { IfOk result (λ s. string_bytes s ≡ laid_out relations.now) }
{
    let texts = relation_texts(alloc, relations)?;
    let mut text = String::from_str(alloc, "{\"relations\": [\n")?;
    text.push_str(joined(alloc, ",\n", texts.as_slice())?.as_str())?;
    text.push_str("\n]}\n")?;
    Ok(text)
}
