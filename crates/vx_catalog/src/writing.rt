//! The text of rows.

ghost use Rattle.std.specs.Prelude.{◌≡◌, ◌<◌, ◌++◌, ◌∷◌, [], true, map, flat_map, length, string_bytes, IfOk, OnOk, IsErrOf, List, ℕ};
ghost use Rattle.std.specs.Io.KnownBytes.{Appends};
ghost use Rattle.csv.specs.Records.{fields_of};
ghost use Rattle.csv.specs.Writing.{row_text, default_writer};
ghost use Rattle.vx_rows_values.specs.ValueView.{cell_val};
ghost use Rattle.vx_rows.specs.View.{row};
ghost use Rattle.vx_rows_views.specs.Chunks.{all_rows};
ghost use Rattle.vx_catalog.specs.Csv.{field_text, line_text, csv_text};
ghost use Rattle.vx_catalog.specs.Text.{StandsAt};

use crate::fault::WriteFault;
use csv::{StringRecord, Writer, WriterBuilder};
use itoa::Buffer;
use std::alloc::{AllocError, Global};
use vx_catalog_bytes::{ByteOut, write_all};
use vx_rows_values::Cell;
use vx_rows_views::{Chunk, Rows};

// Adds the text of a value to a record.
fn push_cell(line: &mut StringRecord, cell: Cell<'_>) -> Result<(), AllocError>
    ensures { OnOk result (fields_of line.new ≡ fields_of line.old ++ field_text (cell_val cell.entry) ∷ []) }
{
    match cell {
        Cell::Int(n) => {
            let mut digits = Buffer::new();
            line.push_field(digits.format(n))
        }
        Cell::Text(text) => line.push_field(text),
    }
}

// Makes a record of a row.
fn fill_line(line: &mut StringRecord, chunk: &Chunk, i: usize) -> Result<(), AllocError>
    requires { i < length chunk.now.rows }
    ensures { OnOk result (fields_of line.new ≡ map field_text (row chunk.now i)) }
{
    line.clear();
    for column in 0..chunk.types().len() {
        push_cell(line, chunk.cell(i, column))?;
    }
    Ok(())
}

// The names as a record.
fn header_of(alloc: Global, names: &[String]) -> Result<StringRecord, AllocError>
    ensures { IfOk result (λ line. fields_of line ≡ map string_bytes names.now) }
{
    let mut line = StringRecord::new(alloc);
    for name in names {
        line.push_field(name.as_str())?;
    }
    Ok(line)
}

// Writes a line behind others.
fn write_line(text: &mut Writer<Vec<u8>>, line: &StringRecord) -> Result<(), AllocError>
    ensures text { (so_far : List ℕ) → StandsAt text.old so_far → OnOk result (StandsAt text.new (so_far ++ row_text default_writer (fields_of line.now))) }
{
    match text.write_byte_record(line.as_byte_record()) {
        Ok(()) => Ok(()),
        Err(_) => Err(AllocError),
    }
}

// Writes a line for each row of a chunk.
fn write_chunk(
    text: &mut Writer<Vec<u8>>,
    line: &mut StringRecord,
    chunk: &Chunk,
) -> Result<(), AllocError>
    ensures { (so_far : List ℕ) → StandsAt text.old so_far → OnOk result (StandsAt text.new (so_far ++ flat_map line_text chunk.now.rows)) }
{
    for i in 0..chunk.len() {
        fill_line(line, chunk, i)?;
        write_line(text, line)?;
    }
    Ok(())
}

// Writes a line for each row of these chunks.
fn write_chunks(
    text: &mut Writer<Vec<u8>>,
    line: &mut StringRecord,
    chunks: &[Chunk],
) -> Result<(), AllocError>
    ensures { (so_far : List ℕ) → StandsAt text.old so_far → OnOk result (StandsAt text.new (so_far ++ flat_map line_text (all_rows chunks.now))) }
{
    for i in 0..chunks.len() {
        write_chunk(text, line, &chunks[i])?;
    }
    Ok(())
}

/// The text of rows under a header with these names: as `csv` writes by default, lines ended by a line feed, numbers in plain decimal.
pub fn format_rows(alloc: Global, names: &[String], rows: &Rows) -> Result<Vec<u8>, AllocError>
    ensures { IfOk result (λ v. v.items ≡ csv_text (map string_bytes names.now) rows.now.rows) }
{
    let mut text = WriterBuilder::new().from_writer(Vec::new(alloc));
    let mut line = header_of(alloc, names)?;
    write_line(&mut text, &line)?;
    write_chunks(&mut text, &mut line, rows.chunks())?;
    match text.into_inner() {
        Ok(text) => Ok(text),
        Err(_) => Err(AllocError),
    }
}

/// Writes the text of rows, as `format_rows` makes it. The whole text is made in memory before the writer gets its first byte.
pub fn write_rows<W: ByteOut>(
    alloc: Global,
    names: &[String],
    rows: &Rows,
    writer: &mut W,
) -> Result<(), WriteFault>
    ensures text { OnOk result (Appends (W.contents writer.old) (W.contents writer.new) (csv_text (map string_bytes names.now) rows.now.rows)) }
    ensures whole { OnOk result (W.has_failed writer.new ≡ W.has_failed writer.old) }

    // A failure of the writer is reported as such, and if memory runs out nothing was written.
    ensures failed { IsErrOf result WriteFault.WriteFailed → W.has_failed writer.new ≡ true }
    ensures memory { IsErrOf result WriteFault.NoMemory → writer.new ≡ writer.old }
{
    let text = format_rows(alloc, names, rows)?;
    match write_all(writer, text.as_slice()) {
        Ok(()) => Ok(()),
        Err(_) => Err(WriteFault::WriteFailed),
    }
}
