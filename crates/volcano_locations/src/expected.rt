//! What was expected where a table is at fault.

use std::alloc::{AllocError, Global};
use volcano_diagnostics::{Diagnostic, Label, Note};
use vx_catalog::LoadFault;
use vx_catalog_relations::Relation;
use vx_rows_values::OrderEntry;

// Adds the names of columns, with commas between them.
fn push_columns(
    text: &mut String,
    relation: &Relation,
    columns: &[usize],
) -> Result<(), AllocError> {
    let names = relation.names();
    for (place, column) in columns.iter().enumerate() {
        if place > 0 {
            text.push_str(",")?;
        }
        if let Some(name) = names.get(*column) {
            text.push_str(name.as_str())?;
        }
    }
    Ok(())
}

// The names of all columns, with commas between them.
fn all_columns(alloc: Global, relation: &Relation) -> Result<String, AllocError> {
    let mut text = String::new(alloc);
    for (place, name) in relation.names().iter().enumerate() {
        if place > 0 {
            text.push_str(",")?;
        }
        text.push_str(name.as_str())?;
    }
    Ok(text)
}

// The header of a relation's text.
fn header(alloc: Global, relation: &Relation) -> Result<String, AllocError> {
    let columns = all_columns(alloc, relation)?;
    format!(in alloc; "the header {columns}")
}

// As many fields as the relation has columns.
fn width(alloc: Global, relation: &Relation) -> Result<String, AllocError> {
    let columns = all_columns(alloc, relation)?;
    let width = relation.width();
    format!(in alloc; "{width} fields: {columns}")
}

// No two rows that agree on a key.
fn key(alloc: Global, relation: &Relation, key: usize) -> Result<Option<String>, AllocError> {
    if key >= relation.key_count() {
        return Ok(None);
    }
    let mut text = String::from_str(alloc, "no two rows that agree on the key [")?;
    push_columns(&mut text, relation, relation.key(key))?;
    text.push_str("] of the catalog")?;
    Ok(Some(text))
}

// Adds the columns of an order by their names, with commas between them, and ` desc` behind those that fall.
fn push_order(
    text: &mut String,
    relation: &Relation,
    order: &[OrderEntry],
) -> Result<(), AllocError> {
    for (place, entry) in order.iter().enumerate() {
        if place > 0 {
            text.push_str(",")?;
        }
        push_columns(text, relation, &[entry.column])?;
        if entry.falling {
            text.push_str(" desc")?;
        }
    }
    Ok(())
}

// Rows that rise on the order, or that stand in it where it says directions.
fn order(alloc: Global, relation: &Relation) -> Result<String, AllocError> {
    let order = relation.order();
    let start = if order.iter().any(|entry| entry.falling) {
        "rows in the order ["
    } else {
        "rows that rise on the order ["
    };
    let mut text = String::from_str(alloc, start)?;
    push_order(&mut text, relation, order)?;
    text.push_str("] of the catalog")?;
    Ok(text)
}

// What was expected in the text of a relation, if the fault is one of its text.
fn expected(
    alloc: Global,
    relation: &Relation,
    fault: LoadFault,
) -> Result<Option<String>, AllocError> {
    match fault {
        LoadFault::HeaderMismatch => Ok(Some(header(alloc, relation)?)),
        LoadFault::BadWidth { .. } => Ok(Some(width(alloc, relation)?)),
        LoadFault::BadInt { .. } => Ok(Some(String::from_str(
            alloc,
            "a whole number from -9223372036854775808 to 9223372036854775807",
        )?)),
        LoadFault::NotUtf8 { .. } => Ok(Some(String::from_str(alloc, "UTF-8")?)),
        LoadFault::KeyBroken { key: number, .. } => key(alloc, relation, number),
        LoadFault::OrderBroken { .. } => Ok(Some(order(alloc, relation)?)),
        LoadFault::ReadFailed | LoadFault::NoMemory | LoadFault::TooLarge => Ok(None),
    }
}

/// Adds what was expected in the text of a relation, if the fault is one of its text.
pub fn add_expected(
    alloc: Global,
    found: &mut Diagnostic,
    relation: &Relation,
    fault: LoadFault,
) -> Result<(), AllocError> {
    match expected(alloc, relation, fault)? {
        Some(text) => found.add_note(Note {
            label: Label::Expected,
            text,
        }),
        None => Ok(()),
    }
}
