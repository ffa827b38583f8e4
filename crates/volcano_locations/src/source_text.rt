//! JSON texts that hold a catalog or a plan.

use serde_json::Value as Json;
use std::alloc::{AllocError, Global};
use volcano_diagnostics::{Diagnostic, Label, Note};
use volcano_documents::{Document, DocumentFault, Step, find_fault, find_name, position_of};

/// A JSON text, the name of its file, and the members that lead to the part of it that is meant: none where it is all of it.
#[derive(Clone, Copy)]
pub struct SourceText<'t> {
    pub file: &'t str,
    pub text: &'t [u8],
    pub inside: &'t [&'t str],
}

impl<'t> SourceText<'t> {
    /// The value that is meant, if the text has it.
    pub fn value(&self, alloc: Global) -> Result<Option<Json>, AllocError> {
        match Json::from_slice(alloc, self.text) {
            Ok(value) => self.part_of(alloc, value),
            Err(error) if error.is_memory() => Err(AllocError),
            Err(_) => Ok(None),
        }
    }

    // The part of the text's value that is meant.
    fn part_of(&self, alloc: Global, value: Json) -> Result<Option<Json>, AllocError> {
        let [member] = self.inside else {
            return Ok(Some(value));
        };
        match value.get(*member) {
            Some(part) => Ok(Some(part.clone()?)),
            None => Ok(None),
        }
    }

    /// The steps to what a path of members leads to, as `root.input.left`; `document` is the part that is meant itself.
    pub fn steps_to(&self, alloc: Global, path: &'t str) -> Result<Vec<Step<'t>>, AllocError> {
        let mut steps = Vec::new(alloc);
        for member in self.inside {
            steps.push(Step::Member(*member))?;
        }
        for member in path.split('.') {
            if member != "document" {
                steps.push(Step::Member(member))?;
            }
        }
        Ok(steps)
    }
}

// Adds what a text has in place of its form.
fn add_document_fault(
    alloc: Global,
    found: &mut Diagnostic,
    fault: DocumentFault,
) -> Result<(), AllocError> {
    let DocumentFault {
        line,
        column,
        path,
        found: there,
        expected,
        nearest,
    } = fault;
    found.lines.push(line)?;
    found.character = Some(column);
    if !path.is_empty() {
        found.path = Some(path);
    }
    found.add_note(Note {
        label: Label::Found,
        text: there,
    })?;
    found.add_note(Note {
        label: Label::Expected,
        text: expected,
    })?;
    add_nearest(alloc, found, nearest)
}

/// Adds the word that may have been meant, if there is one.
pub fn add_nearest(
    alloc: Global,
    found: &mut Diagnostic,
    nearest: Option<String>,
) -> Result<(), AllocError> {
    let Some(word) = nearest else {
        return Ok(());
    };
    let text = format!(in alloc; "did you mean \"{word}\"?")?;
    found.add_note(Note {
        label: Label::Help,
        text,
    })
}

/// Adds where a text is not of its form, and what it has there. Whether it is not.
pub fn add_form(
    alloc: Global,
    found: &mut Diagnostic,
    source: &SourceText<'_>,
    document: Document,
) -> Result<bool, AllocError> {
    match find_fault(alloc, source.text, document, source.inside)? {
        Some(fault) => {
            add_document_fault(alloc, found, fault)?;
            Ok(true)
        }
        None => Ok(false),
    }
}

/// Adds the line and the character of what these steps lead to.
pub fn add_position(
    alloc: Global,
    found: &mut Diagnostic,
    text: &[u8],
    steps: &[Step<'_>],
) -> Result<(), AllocError> {
    if let Some(position) = position_of(alloc, text, steps)? {
        found.lines.push(position.line)?;
        found.character = Some(position.column);
    }
    Ok(())
}

/// Adds where a name stands among the own members of what these steps lead to: the later one of two, if there are two and the later one
/// is asked for. Whether it was found.
pub fn add_name(
    alloc: Global,
    found: &mut Diagnostic,
    text: &[u8],
    steps: &[Step<'_>],
    name: &str,
    is_later: bool,
) -> Result<bool, AllocError> {
    let mut place = find_name(alloc, text, steps, name, usize::from(is_later))?;
    if place.is_none() && is_later {
        place = find_name(alloc, text, steps, name, 0)?;
    }
    let Some(place) = place else {
        return Ok(false);
    };
    found.lines.push(place.line)?;
    found.character = Some(place.column);
    found.path = Some(place.path);
    Ok(true)
}
