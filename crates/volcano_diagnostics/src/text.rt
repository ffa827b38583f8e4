//! Lines for people.

ghost use Rattle.std.specs.Prelude.{◌≡◌, ◌++◌, flat_map, string_bytes, decimal, OnOk, IfOk};
ghost use Rattle.volcano_diagnostics.specs.Text.{lines_text, character_text, path_text, cell_text, spot_text, place_text, plan_line, note_line, diagnostic_text};

use crate::diagnostic::{Cell, Diagnostic, Note};
use crate::shown::{push_quoted, push_shown};
use itoa::Buffer;
use std::alloc::{AllocError, Global};

// Adds a number.
fn push_number(text: &mut Vec<u8>, number: u64) -> Result<(), AllocError>
    ensures { OnOk result (text.new.items ≡ text.old.items ++ decimal number) }
{
    let mut digits = Buffer::new();
    text.extend_from_slice(digits.format(number).as_bytes())
}

// Adds the line of a file, or two.
fn push_line_numbers(text: &mut Vec<u8>, lines: &[u64]) -> Result<(), AllocError>
    ensures { OnOk result (text.new.items ≡ text.old.items ++ lines_text lines.now) }
{
    match lines {
        [] => Ok(()),
        [line] => {
            text.extend_from_slice(b", line ")?;
            push_number(text, *line)
        }
        [first, second, ..] => {
            text.extend_from_slice(b", lines ")?;
            push_number(text, *first)?;
            text.extend_from_slice(b" and ")?;
            push_number(text, *second)
        }
    }
}

// Adds the character of a line, if it is known.
fn push_character(text: &mut Vec<u8>, character: Option<u64>) -> Result<(), AllocError>
    ensures { OnOk result (text.new.items ≡ text.old.items ++ character_text character) }
{
    match character {
        Some(number) => {
            text.extend_from_slice(b", character ")?;
            push_number(text, number)
        }
        None => Ok(()),
    }
}

// Adds the members that lead there, if they are known.
fn push_path(text: &mut Vec<u8>, path: &Option<String>) -> Result<(), AllocError>
    ensures { OnOk result (text.new.items ≡ text.old.items ++ path_text path.now) }
{
    match path {
        Some(path) => {
            text.extend_from_slice(b", ")?;
            push_shown(text, path.as_bytes())
        }
        None => Ok(()),
    }
}

// Adds the name of a column and a value.
fn push_cell(text: &mut Vec<u8>, cell: &Cell) -> Result<(), AllocError>
    ensures { OnOk result (text.new.items ≡ text.old.items ++ cell_text cell.now) }
{
    text.extend_from_slice(b", column ")?;
    push_quoted(text, cell.column.as_bytes())?;
    text.extend_from_slice(b": ")?;
    push_quoted(text, cell.value.as_slice())
}

// Adds the values that are at fault.
fn push_cells(text: &mut Vec<u8>, cells: &[Cell]) -> Result<(), AllocError>
    ensures { OnOk result (text.new.items ≡ text.old.items ++ flat_map cell_text cells.now) }
{
    for cell in cells {
        push_cell(text, cell)?;
    }
    Ok(())
}

// Adds where in a file it is.
fn push_spot(text: &mut Vec<u8>, found: &Diagnostic) -> Result<(), AllocError>
    ensures { OnOk result (text.new.items ≡ text.old.items ++ spot_text found.now) }
{
    push_line_numbers(text, found.lines.as_slice())?;
    push_character(text, found.character)?;
    push_path(text, &found.path)?;
    push_cells(text, found.cells.as_slice())
}

// Adds the line that says where it is, if that is known.
fn push_place(text: &mut Vec<u8>, found: &Diagnostic) -> Result<(), AllocError>
    ensures { OnOk result (text.new.items ≡ text.old.items ++ place_text found.now found.now.file) }
{
    let Some(file) = &found.file else {
        return Ok(());
    };
    text.extend_from_slice(b"  at ")?;
    push_shown(text, file.as_bytes())?;
    push_spot(text, found)?;
    text.extend_from_slice(b"\n")
}

// Adds the line of a note.
fn push_note(text: &mut Vec<u8>, note: &Note) -> Result<(), AllocError>
    ensures { OnOk result (text.new.items ≡ text.old.items ++ note_line note.now) }
{
    text.extend_from_slice(b"  ")?;
    text.extend_from_slice(note.label.word().as_bytes())?;
    text.extend_from_slice(b": ")?;
    push_shown(text, note.text.as_bytes())?;
    text.extend_from_slice(b"\n")
}

// Adds the lines of notes.
fn push_notes(text: &mut Vec<u8>, notes: &[Note]) -> Result<(), AllocError>
    ensures { OnOk result (text.new.items ≡ text.old.items ++ flat_map note_line notes.now) }
{
    for note in notes {
        push_note(text, note)?;
    }
    Ok(())
}

// Adds a line of a plan, behind a margin.
fn push_plan_line(text: &mut Vec<u8>, line: &String) -> Result<(), AllocError>
    ensures { OnOk result (text.new.items ≡ text.old.items ++ plan_line line.now) }
{
    text.extend_from_slice(b"    ")?;
    push_shown(text, line.as_bytes())?;
    text.extend_from_slice(b"\n")
}

// Adds the lines of a plan.
fn push_plan(text: &mut Vec<u8>, plan: &[String]) -> Result<(), AllocError>
    ensures { OnOk result (text.new.items ≡ text.old.items ++ flat_map plan_line plan.now) }
{
    for line in plan {
        push_plan_line(text, line)?;
    }
    Ok(())
}

/// The lines for people: where it is, the plan, and the notes. Each begins with two spaces or more, and what would not stay on its line
/// is escaped.
pub fn text_lines(alloc: Global, found: &Diagnostic) -> Result<Vec<u8>, AllocError>
    ensures { IfOk result (λ text. text.items ≡ diagnostic_text found.now) }
{
    let mut text = Vec::new(alloc);
    push_place(&mut text, found)?;
    push_plan(&mut text, found.plan.as_slice())?;
    push_notes(&mut text, found.notes.as_slice())?;
    Ok(text)
}
