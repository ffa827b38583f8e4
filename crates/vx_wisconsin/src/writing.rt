//! The text of the relation, block by block.

ghost use Rattle.std.specs.Prelude.{◌≡◌, ◌↔◌, ℕ, List, ◌+◌, ◌-◌, ◌*◌, ◌<◌, ◌≤◌, true, map, flat_map, length, drop, IsErrOf, OnOk, is_err, ◌||◌};
ghost use Rattle.std.specs.List.{range_with_len};
ghost use Rattle.std.specs.Io.KnownBytes.{Appends};
ghost use Rattle.csv.specs.Writing.{row_text, default_writer};
ghost use Rattle.vx_catalog.specs.Csv.{line_text, csv_text};
ghost use Rattle.vx_catalog_relations.specs.Relation.{Meets};
ghost use Rattle.vx_wisconsin.specs.Wisconsin.{row_of, wisconsin, column_names, relation_named, WisconsinLaw};
ghost use Rattle.vx_rows_values.specs.Limits.{max_generated_rows};

use crate::fault::GenerateFault;
use crate::line::{LINE_BYTES, put_line};
use std::alloc::Global;
use vx_catalog_bytes::{Broken, ByteOut, write_all};
use vx_rows_values::limits::MAX_GENERATED_ROWS;

// How many rows go to the writer at a time.
const BLOCK_ROWS: u64 = 150;

const BLOCK_BYTES: usize = BLOCK_ROWS as usize * LINE_BYTES;

const HEADER: &[u8] =
    b"unique1,unique2,two,four,ten,twenty,onePercent,tenPercent,twentyPercent,fiftyPercent,unique3,evenOnePercent,oddOnePercent,stringu1,stringu2,string4\n";

// Puts the lines of the rows `from` to `to`, without `to`, at the buffer's end, and returns where they start.
fn put_lines(buffer: &mut [u8], rows: u64, from: u64, to: u64) -> usize
    requires rows { (rows ≤ max_generated_rows) × (from ≤ to) × (to ≤ rows) }
    requires room { (to - from) * 432 ≤ length buffer.old }
    ensures within { result ≤ length buffer.new }
    ensures text { drop result buffer.new ≡ flat_map line_text (map (row_of rows) (range_with_len from (to - from))) }
{
    let mut start = buffer.len();
    let mut first = to;
    while first > from {
        first -= 1;
        start = put_line(buffer, start, rows, first);
    }
    start
}

// Writes the names of the columns.
fn write_header<W: ByteOut>(writer: &mut W) -> Result<(), Broken>
    ensures text { OnOk result (Appends (W.contents writer.old) (W.contents writer.new) (row_text default_writer column_names)) }
    ensures fails { W.has_failed writer.new ≡ (W.has_failed writer.old || is_err result) }
{
    write_all(writer, HEADER)
}

// Writes the lines of the rows, over a buffer with room for those of a block.
fn write_lines<W: ByteOut>(writer: &mut W, buffer: &mut [u8], rows: u64) -> Result<(), Broken>
    requires rows { rows ≤ max_generated_rows }
    requires room { length buffer.old ≡ 150 * 432 }
    ensures text { OnOk result (Appends (W.contents writer.old) (W.contents writer.new) (flat_map line_text (wisconsin rows))) }
    ensures fails { W.has_failed writer.new ≡ (W.has_failed writer.old || is_err result) }
{
    let mut written = 0;
    while written < rows {
        let next = rows.min(written + BLOCK_ROWS);
        let start = put_lines(buffer, rows, written, next);
        write_all(writer, &buffer[start..])?;
        written = next;
    }
    Ok(())
}

/// Writes the text of the relation with `rows` rows, as rows of a relation are written: 10,000,000 rows at most. It takes
/// the memory of one block, whatever the number of rows.
pub fn generate<W: ByteOut>(alloc: Global, rows: u64, writer: &mut W) -> Result<(), GenerateFault>
    ensures text { OnOk result (Appends (W.contents writer.old) (W.contents writer.new) (csv_text column_names (wisconsin rows))) }
    ensures meets { OnOk result ((name : List ℕ) → Meets (relation_named name) (wisconsin rows)) }
    ensures whole { OnOk result (W.has_failed writer.new ≡ W.has_failed writer.old) }

    // The number of rows is tested first, and memory is taken before the first write.
    ensures large { (max_generated_rows < rows) ↔ IsErrOf result GenerateFault.TooLarge }
    ensures untouched { IsErrOf result GenerateFault.TooLarge → writer.new ≡ writer.old }
    ensures memory { IsErrOf result GenerateFault.NoMemory → writer.new ≡ writer.old }
    ensures failed { IsErrOf result GenerateFault.WriteFailed → W.has_failed writer.new ≡ true }
{
    if rows > MAX_GENERATED_ROWS {
        return Err(GenerateFault::TooLarge);
    }
    let mut buffer = vec![in alloc; 0; BLOCK_BYTES]?;
    write_header(writer)?;
    write_lines(writer, buffer.as_mut_slice(), rows)?;
    Ok(())
}

/// The law of the relation: its rows are as many as asked for, fit its types, have the keys unique1 and unique2, and are
/// sorted on unique2; and its text is loaded as these rows, under a catalog's relation of any name that declares this. It does
/// nothing.
pub fn rows_meet_what_is_declared()
    ensures { WisconsinLaw }
{}
