//! One line of JSON for tools.

use crate::diagnostic::{Cell, Diagnostic, Note};
use crate::shown::push_shown;
use serde_json::{Map, Value as Json, put};
use std::alloc::{AllocError, Global};
use std::str;

type Members = Map<String, Json>;

fn text_json(alloc: Global, text: &str) -> Result<Json, AllocError> {
    Ok(Json::String(String::from_str(alloc, text)?))
}

// Bytes as a text: as they are, or with escapes if they are not UTF-8.
fn bytes_json(alloc: Global, bytes: &[u8]) -> Result<Json, AllocError> {
    if let Ok(text) = str::from_utf8(bytes) {
        return text_json(alloc, text);
    }
    let mut shown = Vec::new(alloc);
    push_shown(&mut shown, bytes)?;
    match str::from_utf8(shown.as_slice()) {
        Ok(text) => text_json(alloc, text),
        Err(_) => text_json(alloc, ""),
    }
}

fn numbers_json(alloc: Global, numbers: &[u64]) -> Result<Json, AllocError> {
    let mut list = Vec::new(alloc);
    for number in numbers {
        list.push(Json::from(*number))?;
    }
    Ok(Json::Array(list))
}

fn texts_json(alloc: Global, texts: &[String]) -> Result<Json, AllocError> {
    let mut list = Vec::new(alloc);
    for text in texts {
        list.push(text_json(alloc, text.as_str())?)?;
    }
    Ok(Json::Array(list))
}

fn cell_json(alloc: Global, cell: &Cell) -> Result<Json, AllocError> {
    let mut members = Map::new(alloc);
    let column = text_json(alloc, cell.column.as_str())?;
    put(&mut members, alloc, "column", column)?;
    let value = bytes_json(alloc, cell.value.as_slice())?;
    put(&mut members, alloc, "value", value)?;
    Ok(Json::Object(members))
}

fn cells_json(alloc: Global, cells: &[Cell]) -> Result<Json, AllocError> {
    let mut list = Vec::new(alloc);
    for cell in cells {
        list.push(cell_json(alloc, cell)?)?;
    }
    Ok(Json::Array(list))
}

// Puts a text, if there is one.
fn put_text(
    members: &mut Members,
    alloc: Global,
    key: &str,
    text: &Option<String>,
) -> Result<(), AllocError> {
    match text {
        Some(text) => put(members, alloc, key, text_json(alloc, text.as_str())?),
        None => Ok(()),
    }
}

// Puts where it is.
fn put_place(members: &mut Members, alloc: Global, found: &Diagnostic) -> Result<(), AllocError> {
    put_text(members, alloc, "file", &found.file)?;
    put_text(members, alloc, "path", &found.path)?;
    if !found.lines.is_empty() {
        let lines = numbers_json(alloc, found.lines.as_slice())?;
        put(members, alloc, "lines", lines)?;
    }
    match found.character {
        Some(character) => put(members, alloc, "character", Json::from(character)),
        None => Ok(()),
    }
}

// Puts what is there.
fn put_found(members: &mut Members, alloc: Global, found: &Diagnostic) -> Result<(), AllocError> {
    if !found.cells.is_empty() {
        let cells = cells_json(alloc, found.cells.as_slice())?;
        put(members, alloc, "cells", cells)?;
    }
    if !found.plan.is_empty() {
        let plan = texts_json(alloc, found.plan.as_slice())?;
        put(members, alloc, "plan", plan)?;
    }
    Ok(())
}

fn put_notes(members: &mut Members, alloc: Global, notes: &[Note]) -> Result<(), AllocError> {
    for note in notes {
        let text = text_json(alloc, note.text.as_str())?;
        put(members, alloc, note.label.word(), text)?;
    }
    Ok(())
}

/// One line of JSON: an object with the members `refusal`, which is the text of the refusal, and of what is known `file`, `lines`,
/// `character`, `path`, `cells`, `plan` and each note by its label.
pub fn json_line(alloc: Global, refusal: &str, found: &Diagnostic) -> Result<Vec<u8>, AllocError> {
    let mut members = Map::new(alloc);
    put(&mut members, alloc, "refusal", text_json(alloc, refusal)?)?;
    put_place(&mut members, alloc, found)?;
    put_found(&mut members, alloc, found)?;
    put_notes(&mut members, alloc, found.notes.as_slice())?;
    let mut text = Json::Object(members).to_string(alloc)?;
    text.push_str("\n")?;
    Ok(text.into_bytes())
}
