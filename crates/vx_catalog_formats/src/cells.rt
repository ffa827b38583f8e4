//! The parts of a table's lines.

ghost use Rattle.std.specs.Prelude.{◌≡◌, ◌<◌, ◌++◌, replicate, string_bytes, IfOk, OnOk};
ghost use Rattle.std.specs.List.{flat_map};
ghost use Rattle.std.specs.Str.{chars};
ghost use Rattle.std.specs.Char.{encode_utf8};
ghost use Rattle.vx_rows_values.specs.ValueView.{cell_val};
ghost use Rattle.vx_catalog_formats.specs.Table.{shown, cell_text, cell_width, spaces, padded, field, dashes, width_alone, front, cut_line};

use itoa::Buffer;
use std::alloc::AllocError;
use unicode_width::{UnicodeWidthChar, UnicodeWidthStr};
use vx_rows_values::Cell;

// The signs for the characters below 32, in order: U+2400 to U+241F.
const FIRST_SIGN: u32 = 0x2400;

// The sign for the other control characters.
const DELETE_SIGN: char = '\u{2421}';

// What stands for a character: for a control character, which would break the table, a sign.
fn shown(character: char) -> char
    ensures { result ≡ shown character }
{
    let code = character as u32;
    if code < 32 {
        return char::from_u32(FIRST_SIGN + code).unwrap_or(DELETE_SIGN);
    }
    if 126 < code && code < 160 {
        return DELETE_SIGN;
    }
    character
}

// Adds a text as a table shows it.
fn push_shown(cell: &mut String, text: &str) -> Result<(), AllocError>
    ensures { OnOk result (string_bytes cell.new ≡ string_bytes cell.old ++ flat_map (λ c. encode_utf8 (shown c)) (chars text.now)) }
{
    for character in text.chars() {
        cell.push(shown(character))?;
    }
    Ok(())
}

/// Puts the text of a value in place of another, and returns how wide it is.
pub fn fill_cell(cell: &mut String, value: Cell<'_>) -> Result<usize, AllocError>
    ensures text { OnOk result (string_bytes cell.new ≡ cell_text (cell_val value.entry)) }
    ensures width { IfOk result (λ width. width ≡ cell_width (cell_val value.entry)) }
{
    cell.clear();
    match value {
        Cell::Int(number) => {
            let mut digits = Buffer::new();
            cell.push_str(digits.format(number))?;
        }
        Cell::Text(text) => push_shown(cell, text)?,
    }
    Ok(cell.as_str().width())
}

// Adds a character many times.
fn push_times(line: &mut String, count: usize, character: char) -> Result<(), AllocError>
    requires { character < 128 }
    ensures { OnOk result (string_bytes line.new ≡ string_bytes line.old ++ replicate count character) }
{
    for done in 0..count {
        line.push(character)?;
    }
    Ok(())
}

// Adds a value in a column of this width. `cell` is overwritten.
fn push_padded(
    line: &mut String,
    cell: &mut String,
    value: Cell<'_>,
    width: usize,
) -> Result<(), AllocError>
    ensures { OnOk result (string_bytes line.new ≡ string_bytes line.old ++ padded width (cell_val value.entry)) }
{
    let room = width.saturating_sub(fill_cell(cell, value)?);
    match value {
        Cell::Int(_) => {
            push_times(line, room, ' ')?;
            line.push_str(cell.as_str())
        }
        Cell::Text(_) => {
            line.push_str(cell.as_str())?;
            push_times(line, room, ' ')
        }
    }
}

/// Adds a column's part of a line. `cell` is overwritten.
pub fn push_field(
    line: &mut String,
    cell: &mut String,
    value: Cell<'_>,
    width: usize,
) -> Result<(), AllocError>
    ensures { OnOk result (string_bytes line.new ≡ string_bytes line.old ++ field (width, cell_val value.entry)) }
{
    line.push_str("| ")?;
    push_padded(line, cell, value, width)?;
    line.push_str(" ")
}

/// Adds a column's part of the line below the names.
pub fn push_dashes(line: &mut String, width: usize) -> Result<(), AllocError>
    ensures { OnOk result (string_bytes line.new ≡ string_bytes line.old ++ dashes width) }
{
    line.push_str("|-")?;
    push_times(line, width, '-')?;
    line.push_str("-")
}

// How wide a character is by itself.
fn width_alone(character: char) -> usize
    ensures { result ≡ width_alone character }
{
    character.width().unwrap_or(0)
}

// Adds the first characters of a line, as many as fit into so many columns.
fn push_front(text: &mut String, line: &str, columns: usize) -> Result<(), AllocError>
    ensures { OnOk result (string_bytes text.new ≡ string_bytes text.old ++ front columns (chars line.now)) }
{
    let mut room = columns;
    for character in line.chars() {
        let width = width_alone(character);
        if room < width {
            return Ok(());
        }
        text.push(character)?;
        room -= width;
    }
    Ok(())
}

/// Adds a line, of which a screen shows what fits into its columns, if their number is known.
pub fn push_cut(text: &mut String, line: &str, columns: Option<usize>) -> Result<(), AllocError>
    ensures { OnOk result (string_bytes text.new ≡ string_bytes text.old ++ cut_line columns line.now) }
{
    match columns {
        Some(columns) => push_front(text, line, columns)?,
        None => text.push_str(line)?,
    }
    text.push_str("\n")
}
