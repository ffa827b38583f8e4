//! What is said of a catalog that is refused: where in its document.

use crate::fault::PlaceFault;
use crate::source_text::{SourceText, add_form, add_position};
use serde_json::Value as Json;
use std::alloc::{AllocError, Global};
use volcano_diagnostics::Diagnostic;
use volcano_documents::{Document, Step};
use vx_catalog_relations::CatalogFault;

// The items of a list in a member; none where there is no such list.
fn items<'v>(value: &'v Json, key: &str) -> &'v [Json] {
    match value.get(key) {
        Some(Json::Array(list)) => list.as_slice(),
        _ => &[],
    }
}

fn is_text(value: &Json, text: &str) -> bool {
    match value {
        Json::String(found) => found.as_str() == text,
        _ => false,
    }
}

fn is_named(value: &Json, name: &str) -> bool {
    match value.get("name") {
        Some(found) => is_text(found, name),
        None => false,
    }
}

// The place of the second value with the name, of objects with names.
fn second_named(values: &[Json], name: &str) -> Option<usize> {
    let mut is_there = false;
    for (place, value) in values.iter().enumerate() {
        if is_named(value, name) {
            if is_there {
                return Some(place);
            }
            is_there = true;
        }
    }
    None
}

// The place of the text in a list: of the second one that is equal, if that is asked for.
fn text_place(values: &[Json], text: &str, is_second: bool) -> Option<usize> {
    let mut is_there = !is_second;
    for (place, value) in values.iter().enumerate() {
        if is_text(value, text) {
            if is_there {
                return Some(place);
            }
            is_there = true;
        }
    }
    None
}

// The name of the column of an entry of an order: in a member, where the entry says the direction too.
fn entry_name(entry: &Json) -> &Json {
    entry.get("column").unwrap_or(entry)
}

// The entry with this column in an order, with its place: the second one, if that is asked for.
fn entry_named<'v>(
    entries: &'v [Json],
    column: &str,
    is_second: bool,
) -> Option<(usize, &'v Json)> {
    let mut is_there = !is_second;
    for (place, entry) in entries.iter().enumerate() {
        if is_text(entry_name(entry), column) {
            if is_there {
                return Some((place, entry));
            }
            is_there = true;
        }
    }
    None
}

// Whether a name is to be looked for among the keys and the order of a relation: where it stands twice in one list, or where it is no
// column.
fn is_sought(relation: &Json, name: &str, is_second: bool) -> bool {
    is_second
        || !items(relation, "columns")
            .iter()
            .any(|column| is_named(column, name))
}

// Adds the steps of a place.
fn push_item<'t>(
    steps: &mut Vec<Step<'t>>,
    member: &'t str,
    item: usize,
) -> Result<(), AllocError> {
    steps.push(Step::Member(member))?;
    steps.push(Step::Item(item))?;
    Ok(())
}

// Adds the steps from a relation to a name in the order of it. Whether it is there.
fn find_in_order(
    steps: &mut Vec<Step<'_>>,
    relation: &Json,
    name: &str,
    is_second: bool,
) -> Result<bool, AllocError> {
    let Some((place, entry)) = entry_named(items(relation, "order"), name, is_second) else {
        return Ok(false);
    };
    push_item(steps, "order", place)?;
    if entry.get("column").is_some() {
        steps.push(Step::Member("column"))?;
    }
    Ok(true)
}

// Adds the steps from a relation to a name in a key or the order of it. Whether it is there.
fn find_listed(
    steps: &mut Vec<Step<'_>>,
    relation: &Json,
    name: &str,
    is_second: bool,
) -> Result<bool, AllocError> {
    for (number, key) in items(relation, "keys").iter().enumerate() {
        let Json::Array(columns) = key else {
            return Ok(false);
        };
        if let Some(place) = text_place(columns.as_slice(), name, is_second) {
            push_item(steps, "keys", number)?;
            steps.push(Step::Item(place))?;
            return Ok(true);
        }
    }
    find_in_order(steps, relation, name, is_second)
}

// Adds the steps from a relation to a name that is at fault in it. Whether there is one.
fn find_in_relation(
    steps: &mut Vec<Step<'_>>,
    relation: &Json,
    name: &str,
    is_second: bool,
) -> Result<bool, AllocError> {
    if is_second {
        if let Some(place) = second_named(items(relation, "columns"), name) {
            push_item(steps, "columns", place)?;
            steps.push(Step::Member("name"))?;
            return Ok(true);
        }
    }
    if !is_sought(relation, name, is_second) {
        return Ok(false);
    }
    find_listed(steps, relation, name, is_second)
}

// Adds the steps to a name that is at fault in a catalog. Whether there is one.
fn find_in_catalog(
    steps: &mut Vec<Step<'_>>,
    catalog: &Json,
    name: &str,
    is_second: bool,
) -> Result<bool, AllocError> {
    let relations = items(catalog, "relations");
    if is_second {
        if let Some(place) = second_named(relations, name) {
            push_item(steps, "relations", place)?;
            steps.push(Step::Member("name"))?;
            return Ok(true);
        }
    }
    let known = steps.len();
    for (place, relation) in relations.iter().enumerate() {
        steps.truncate(known);
        push_item(steps, "relations", place)?;
        if find_in_relation(steps, relation, name, is_second)? {
            return Ok(true);
        }
    }
    Ok(false)
}

// Steps as a path, as `relations[0].name`.
fn path_of(alloc: Global, steps: &[Step<'_>]) -> Result<String, AllocError> {
    let mut path = String::new(alloc);
    for step in steps {
        match step {
            Step::Member(name) => {
                if !path.is_empty() {
                    path.push_str(".")?;
                }
                path.push_str(name)?;
            }
            Step::Item(item) => {
                let item = format!(in alloc; "[{item}]")?;
                path.push_str(item.as_str())?;
            }
        }
    }
    Ok(path)
}

// Adds where a name is at fault.
fn add_named(
    alloc: Global,
    found: &mut Diagnostic,
    source: &SourceText<'_>,
    name: &str,
    is_second: bool,
) -> Result<(), AllocError> {
    let Some(catalog) = source.value(alloc)? else {
        return Ok(());
    };
    let mut steps = source.steps_to(alloc, "document")?;
    if find_in_catalog(&mut steps, &catalog, name, is_second)? {
        found.path = Some(path_of(alloc, steps.as_slice())?);
        add_position(alloc, found, source.text, steps.as_slice())?;
    }
    Ok(())
}

/// What is said of a catalog that is refused.
pub fn catalog_diagnostic(
    alloc: Global,
    source: &SourceText<'_>,
    fault: &CatalogFault,
) -> Result<Diagnostic, PlaceFault> {
    let mut found = Diagnostic::in_file(alloc, source.file)?;
    match fault {
        CatalogFault::BadCatalog => {
            add_form(alloc, &mut found, source, Document::Catalog)?;
        }
        CatalogFault::DuplicateName { name } => {
            add_named(alloc, &mut found, source, name.as_str(), true)?;
        }
        CatalogFault::UnknownColumn { name } => {
            add_named(alloc, &mut found, source, name.as_str(), false)?;
        }
        CatalogFault::NoMemory | CatalogFault::TooLarge => {}
    }
    Ok(found)
}
