//! Rows as lines of JSON.

ghost use Rattle.std.specs.Prelude.{◌≡◌, ◌<◌, ◌++◌, length, map, flat_map, string_bytes, IfOk, OnOk};
ghost use Rattle.json.specs.Tree.{json_tokens};
ghost use Rattle.vx_rows_values.specs.ValueView.{cell_val};
ghost use Rattle.vx_rows.specs.View.{row};
ghost use Rattle.vx_rows_views.specs.Chunks.{all_rows};
ghost use Rattle.vx_catalog_formats.specs.JsonLines.{value_json, row_json, row_line, json_text};

use json::Writer;
use std::alloc::{AllocError, Global};
use vx_rows_values::Cell;
use vx_rows_views::{Chunk, Rows};

// Adds a value.
fn push_value(object: &mut Writer, cell: Cell<'_>) -> Result<(), AllocError>
    ensures value { OnOk result (object.new.tokens ≡ object.old.tokens ++ json_tokens (value_json (cell_val cell.entry))) }
    ensures before { object.new.before ≡ object.old.before }
{
    match cell {
        Cell::Int(number) => object.i64(number),
        Cell::Text(text) => object.string(text),
    }
}

// Adds a row under these names.
fn push_row(
    object: &mut Writer,
    names: &[String],
    chunk: &Chunk,
    i: usize,
) -> Result<(), AllocError>
    requires { i < length chunk.now.rows }
    ensures row { OnOk result (object.new.tokens ≡ object.old.tokens ++ json_tokens (row_json (map string_bytes names.now) (row chunk.now i))) }
    ensures before { object.new.before ≡ object.old.before }
{
    object.begin_object()?;
    for column in 0..names.len().min(chunk.types().len()) {
        object.key(names[column].as_str())?;
        push_value(object, chunk.cell(i, column))?;
    }
    object.end_object()
}

// The lines so far, and that of a row.
fn with_line(
    lines: Vec<u8>,
    names: &[String],
    chunk: &Chunk,
    i: usize,
) -> Result<Vec<u8>, AllocError>
    requires { i < length chunk.now.rows }
    ensures { IfOk result (λ v. v.items ≡ lines.items ++ row_line (map string_bytes names.now) (row chunk.now i)) }
{
    let mut object = Writer::new(lines);
    push_row(&mut object, names, chunk, i)?;
    let mut lines = object.into_inner();
    lines.push(b'\n')?;
    Ok(lines)
}

// The lines so far, and one for each row of a chunk.
fn with_chunk(lines: Vec<u8>, names: &[String], chunk: &Chunk) -> Result<Vec<u8>, AllocError>
    ensures { IfOk result (λ v. v.items ≡ lines.items ++ flat_map (row_line (map string_bytes names.now)) chunk.now.rows) }
{
    let mut lines = lines;
    for i in 0..chunk.len() {
        lines = with_line(lines, names, chunk, i)?;
    }
    Ok(lines)
}

// A line for each row of these chunks.
fn chunk_lines(alloc: Global, names: &[String], chunks: &[Chunk]) -> Result<Vec<u8>, AllocError>
    ensures { IfOk result (λ v. v.items ≡ json_text (map string_bytes names.now) (all_rows chunks.now)) }
{
    let mut lines = Vec::new(alloc);
    for i in 0..chunks.len() {
        lines = with_chunk(lines, names, &chunks[i])?;
    }
    Ok(lines)
}

/// A line of JSON for each row: an object that has the names of the columns, in order, with the values. If there are more names
/// than columns, or fewer, those without a partner are left out.
pub fn format_json(alloc: Global, names: &[String], rows: &Rows) -> Result<Vec<u8>, AllocError>
    ensures { IfOk result (λ v. v.items ≡ json_text (map string_bytes names.now) rows.now.rows) }
{
    chunk_lines(alloc, names, rows.chunks())
}
