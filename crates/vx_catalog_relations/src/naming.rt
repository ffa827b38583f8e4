//! Relations with their columns by position.

ghost use Rattle.std.specs.Prelude.{◌≡◌, [], map, string_bytes, bytes_eq, IfOk};
ghost use Rattle.std.specs.List.{list_any, list_all};
ghost use Rattle.vx_catalog_relations.specs.Walk.{walk_onto};
ghost use Rattle.vx_catalog_relations.specs.Naming.{Gives, name_once, names_of, column_of, columns_of, keys_of, order_of, relation_of, relation_after, is_small, is_within_limits};

use crate::fault::CatalogFault;
use crate::form::{ColumnText, RelationText};
use crate::names::{find_name, has_name};
use crate::relation::Relation;
use std::alloc::{AllocError, Global};
use std::sync::Arc;
use vx_catalog_json::OrderText;
use vx_rows_values::limits::{MAX_COLUMNS, MAX_KEYS, MAX_RELATIONS};
use vx_rows_values::{ColType, OrderEntry, in_directions};

// A copy of a name that no earlier one is.
#[tactic(auto, unfolding(crate::specs::Naming::name_once))]
fn name_once(alloc: Global, prior: &[String], name: &str) -> Result<String, CatalogFault>
    ensures { Gives string_bytes result (name_once (map string_bytes prior.now) name.now) }
{
    let copy = String::from_str(alloc, name)?;
    if has_name(prior, name) {
        return Err(CatalogFault::DuplicateName { name: copy });
    }
    Ok(copy)
}

// The names of columns.
#[tactic(auto, using(crate::proofs::WalkFacts::walk_steps))]
fn names_of(alloc: Global, columns: &[ColumnText]) -> Result<Vec<String>, CatalogFault>
    ensures { Gives (λ v. map string_bytes v.items) result (names_of (map (λ c. c.name) columns.now)) }
{
    let mut names = Vec::new(alloc);
    for column in columns {
        names.push(name_once(alloc, names.as_slice(), column.name.as_str())?)?;
    }
    Ok(names)
}

// The types of columns.
fn types_of(alloc: Global, columns: &[ColumnText]) -> Result<Vec<ColType>, AllocError>
    ensures { IfOk result (λ v. v.items ≡ map (λ c. c.kind) columns.now) }
{
    let mut types = Vec::new(alloc);
    for column in columns {
        types.push(column.kind)?;
    }
    Ok(types)
}

// The column of a name, which no earlier one is.
#[tactic(auto, unfolding(crate::specs::Naming::column_of))]
fn column_of(
    alloc: Global,
    names: &[String],
    prior: &[usize],
    name: &str,
) -> Result<usize, CatalogFault>
    ensures { Gives (λ c. c) result (column_of (map string_bytes names.now) prior.now name.now) }
{
    let Some(column) = find_name(names, name) else {
        return Err(CatalogFault::UnknownColumn {
            name: String::from_str(alloc, name)?,
        });
    };
    if prior.contains(&column) {
        return Err(CatalogFault::DuplicateName {
            name: String::from_str(alloc, name)?,
        });
    }
    Ok(column)
}

// The columns of these names.
#[tactic(auto, using(crate::proofs::WalkFacts::walk_steps))]
fn columns_of(alloc: Global, names: &[String], list: &[String]) -> Result<Vec<usize>, CatalogFault>
    ensures { Gives (λ v. v.items) result (columns_of (map string_bytes names.now) (map string_bytes list.now)) }
{
    let mut columns = Vec::new(alloc);
    for name in list {
        columns.push(column_of(alloc, names, columns.as_slice(), name.as_str())?)?;
    }
    Ok(columns)
}

// The columns of each key.
#[tactic(auto, using(crate::proofs::WalkFacts::walk_steps))]
fn keys_of(
    alloc: Global,
    keys: &[Vec<String>],
    names: &[String],
) -> Result<Vec<Vec<usize>>, CatalogFault>
    ensures { Gives (λ v. map (λ k. k.items) v.items) result (keys_of (map (λ k. map string_bytes k.items) keys.now) (map string_bytes names.now)) }
{
    let mut found = Vec::new(alloc);
    for key in keys {
        found.push(columns_of(alloc, names, key.as_slice())?)?;
    }
    Ok(found)
}

// The columns of the entries of an order.
#[tactic(auto, using(crate::proofs::WalkFacts::walk_steps))]
fn ordered_columns(
    alloc: Global,
    names: &[String],
    order: &[OrderText],
) -> Result<Vec<usize>, CatalogFault>
    ensures { Gives (λ v. v.items) result (columns_of (map string_bytes names.now) (map (λ e. e.name) order.now)) }
{
    let mut columns = Vec::new(alloc);
    for entry in order {
        let column = column_of(alloc, names, columns.as_slice(), entry.name.as_str())?;
        columns.push(column)?;
    }
    Ok(columns)
}

// For each entry of an order, whether it falls.
fn falls_of(alloc: Global, order: &[OrderText]) -> Result<Vec<bool>, AllocError>
    ensures { IfOk result (λ v. v.items ≡ map (λ e. e.falling) order.now) }
{
    let mut falls = Vec::new(alloc);
    for entry in order {
        falls.push(entry.falling)?;
    }
    Ok(falls)
}

// An order with its columns by position.
fn order_of(
    alloc: Global,
    names: &[String],
    order: &[OrderText],
) -> Result<Vec<OrderEntry>, CatalogFault>
    ensures { Gives (λ v. v.items) result (order_of (map string_bytes names.now) order.now) }
{
    let columns = ordered_columns(alloc, names, order)?;
    let falls = falls_of(alloc, order)?;
    Ok(in_directions(alloc, columns.as_slice(), falls.as_slice())?)
}

// A relation with its columns by position.
#[tactic(auto, unfolding(crate::specs::Naming::relation_of))]
fn relation_of(alloc: Global, text: &RelationText) -> Result<Relation, CatalogFault>
    ensures { Gives (λ r. r) result (relation_of text.now) }
{
    let names = names_of(alloc, text.columns.as_slice())?;
    let keys = keys_of(alloc, text.keys.as_slice(), names.as_slice())?;
    let order = order_of(alloc, names.as_slice(), text.order.as_slice())?;
    let types = types_of(alloc, text.columns.as_slice())?;
    let name = String::from_str(alloc, text.name.as_str())?;
    let shared = Arc::new(alloc, names)?;
    Ok(Relation::new(name, shared, types, keys, order))
}

fn is_used(prior: &[Relation], name: &str) -> bool
    ensures { result ≡ list_any (λ r. bytes_eq r.name name.now) prior.now }
{
    prior.iter().any(|r| r.name() == name)
}

// A relation whose name no earlier one has.
#[tactic(auto, unfolding(crate::specs::Naming::relation_after))]
fn relation_after(
    alloc: Global,
    prior: &[Relation],
    text: &RelationText,
) -> Result<Relation, CatalogFault>
    ensures { Gives (λ r. r) result (relation_after prior.now text.now) }
{
    if is_used(prior, text.name.as_str()) {
        return Err(CatalogFault::DuplicateName {
            name: String::from_str(alloc, text.name.as_str())?,
        });
    }
    relation_of(alloc, text)
}

/// The relations with their columns by position, or the first refusal.
#[tactic(auto, using(crate::proofs::WalkFacts::walk_steps))]
pub fn relations_of(alloc: Global, texts: &[RelationText]) -> Result<Vec<Relation>, CatalogFault>
    ensures { Gives (λ v. v.items) result (walk_onto relation_after [] texts.now) }
{
    let mut relations = Vec::new(alloc);
    for text in texts {
        relations.push(relation_after(alloc, relations.as_slice(), text)?)?;
    }
    Ok(relations)
}

fn is_small(text: &RelationText) -> bool
    ensures { result ≡ is_small text.now }
{
    text.columns.len() <= MAX_COLUMNS && text.keys.len() <= MAX_KEYS
}

fn are_small(texts: &[RelationText]) -> bool
    ensures { result ≡ list_all is_small texts.now }
{
    texts.iter().all(|text| is_small(text))
}

/// Whether there are at most 256 relations, each of at most 64 columns and 16 keys.
pub fn is_within_limits(texts: &[RelationText]) -> bool
    ensures { result ≡ is_within_limits texts.now }
{
    texts.len() <= MAX_RELATIONS && are_small(texts)
}
