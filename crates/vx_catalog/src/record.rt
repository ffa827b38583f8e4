//! Rows from records.

ghost use Rattle.std.specs.Prelude.{◌≡◌, ◌≢◌, ◌⊎◌, ◌≤◌, [], map, length, IfOk, OnOk, IfErr, IfSome, IsUtf8, MatchResult, IsOkUnless, Err, string_bytes};
ghost use Rattle.std.specs.Option.{option_copied};
ghost use Rattle.csv.specs.Reading.{source_of, strip_bom};
ghost use Rattle.csv.specs.Records.{fields_of, field_at};
ghost use Rattle.std.specs.List.{AllByRecursion};
ghost use Rattle.vx_rows_values.specs.Types.{Fits};
ghost use Rattle.vx_rows_values.specs.ValueView.{cell_val};
ghost use Rattle.vx_catalog_relations.specs.Walk.{walk_onto};
ghost use Rattle.vx_catalog.specs.Counting.{StaysKnown};
ghost use Rattle.vx_catalog.specs.Records.{IsPlain, rest_of, Takes};
ghost use Rattle.vx_catalog.specs.Loading.{Gives, value_of, some_value, next_value, row_of, row_added, rows_onto, same_name, names_from, is_header};
ghost use Rattle.vx_rows_values.specs.Limits.{max_rows};

use crate::fault::LoadFault;
use crate::number::number_of;
use csv::{ByteRecord, Reader};
use std::alloc::{AllocError, Global};
use std::io::Read;
use std::str;
use std::str::Utf8Error;
use vx_rows::{OpenRows, Table};
use vx_rows_values::limits::MAX_ROWS;
use vx_rows_values::{Cell, ColType};

// How many rows are read before room is reserved for the rest of a text.
const SAMPLE: usize = 32;

// A field as a text, if it is UTF-8. Most texts are ASCII, which is tested faster.
#[tactic(auto, using(crate::proofs::RowFacts::ascii_is_utf8))]
fn text_of(field: &[u8]) -> Result<&str, Utf8Error>
    ensures same { IfOk result (λ text. text.now ≡ field.now) }
    ensures cases { MatchResult result (λ _. IsUtf8 field.now) (λ _. ¬ (IsUtf8 field.now)) }
{
    if field.is_ascii() {
        return Ok(unsafe { str::from_utf8_unchecked(field) });
    }
    str::from_utf8(field)
}

// The value of a field, in a column of this type.
#[tactic(auto, unfolding(crate::specs::Loading::value_of))]
fn value_of<'r>(
    row: usize,
    col: usize,
    kind: ColType,
    field: &'r [u8],
) -> Result<Cell<'r>, LoadFault>
    ensures { Gives cell_val result (value_of row col kind field.now) }
{
    match kind {
        ColType::Int => match number_of(field) {
            Some(n) => Ok(Cell::Int(n)),
            None => Err(LoadFault::BadInt { row, col }),
        },
        ColType::Text => match text_of(field) {
            Ok(text) => Ok(Cell::Text(text)),
            Err(_) => Err(LoadFault::NotUtf8 { row }),
        },
    }
}

// The value of a row in a column.
fn value_in<'r>(
    row: usize,
    line: &'r ByteRecord,
    col: usize,
    kind: ColType,
) -> Result<Cell<'r>, LoadFault>
    ensures { Gives cell_val result (some_value row col kind (field_at (fields_of line.now) col)) }
{
    match line.get(col) {
        Some(field) => value_of(row, col, kind, field),
        None => Err(LoadFault::BadWidth { row }),
    }
}

// Puts the values of a record into the open row, column by column.
fn push_values(row: usize, rows: &mut OpenRows, line: &ByteRecord) -> Result<(), LoadFault>
    requires { rows.old.front ≡ [] }
    ensures types { rows.new.types ≡ rows.old.types }
    ensures rows { OnOk result (rows.new.rows ≡ rows.old.rows) }
    ensures front { Gives (λ _. rows.new.front) result (walk_onto (next_value row (fields_of line.now)) [] rows.old.types) }
    ensures whole { OnOk result (length rows.new.front ≡ length rows.old.types) }
{
    for col in 0..rows.types().len() {
        let kind = rows.types()[col];
        let value = value_in(row, line, col, kind)?;
        rows.push_cell(value)?;
    }
    Ok(())
}

// Puts the row with this number into the open row.
#[tactic(auto, unfolding(crate::specs::Loading::row_of))]
fn push_row(row: usize, rows: &mut OpenRows, line: &ByteRecord) -> Result<(), LoadFault>
    requires { rows.old.front ≡ [] }
    ensures types { rows.new.types ≡ rows.old.types }
    ensures rows { OnOk result (rows.new.rows ≡ rows.old.rows) }
    ensures front { Gives (λ _. rows.new.front) result (row_of row rows.old.types (fields_of line.now)) }
    ensures whole { OnOk result (length rows.new.front ≡ length rows.old.types) }
{
    if line.len() != rows.types().len() {
        return Err(LoadFault::BadWidth { row });
    }
    push_values(row, rows, line)
}

// Adds the row of a record. Its number is that of the rows so far.
#[tactic(auto, unfolding(crate::specs::Loading::row_added))]
fn push_record(rows: &mut OpenRows, line: &ByteRecord) -> Result<(), LoadFault>
    requires { rows.old.front ≡ [] }
    ensures types { rows.new.types ≡ rows.old.types }
    ensures front { OnOk result (rows.new.front ≡ []) }
    ensures rows { Gives (λ _. rows.new.rows) result (row_added rows.old.types rows.old.rows (fields_of line.now)) }
{
    let row = rows.len();
    if row >= MAX_ROWS {
        return Err(LoadFault::TooLarge);
    }
    push_row(row, rows, line)?;
    rows.end_row()?;
    Ok(())
}

// Reserves room for the rest of a text of `size` bytes, of which `read` were read: it takes as much for each byte as the rows so far, and
// a little more.
fn reserve_rest(rows: &mut OpenRows, read: u64, size: usize) -> Result<(), AllocError>
    ensures { rows.new ≡ rows.old }
{
    let left = (size as u64).saturating_sub(read);
    if left == 0 {
        return Ok(());
    }
    let times = left.saturating_add(left / 64) / read.max(1);
    rows.reserve_times((times as usize).saturating_add(1))
}

// Adds the row of a record of a text of `size` bytes, of which `read` were read. Room for the rest is reserved once there are some rows.
fn push_sized_record(
    rows: &mut OpenRows,
    line: &ByteRecord,
    read: u64,
    size: usize,
) -> Result<(), LoadFault>
    requires { rows.old.front ≡ [] }
    ensures types { rows.new.types ≡ rows.old.types }
    ensures front { OnOk result (rows.new.front ≡ []) }
    ensures rows { Gives (λ _. rows.new.rows) result (row_added rows.old.types rows.old.rows (fields_of line.now)) }
{
    push_record(rows, line)?;
    if rows.len() == SAMPLE {
        reserve_rest(rows, read, size)?;
    }
    Ok(())
}

/// Reads the next record, if there is one. An error may be of the source underneath, which its owner asks.
pub fn next_record<S: Read>(
    reader: &mut Reader<S>,
    line: &mut ByteRecord,
) -> Result<bool, LoadFault>
    requires { IsPlain reader.old }
    ensures read { IfOk result (λ found. Takes S.remaining found reader.old reader.new (fields_of line.new)) }
    ensures known { OnOk result (StaysKnown (source_of S.remaining reader.old) (source_of S.remaining reader.new)) }
    ensures err { IsOkUnless result LoadFault.NoMemory }
{
    let Ok(found) = reader.read_byte_record(line) else {
        return Err(LoadFault::NoMemory);
    };
    Ok(found)
}

/// The rows of the records that a reader has left. It also fails with NoMemory if the source underneath failed.
pub fn read_rows<S: Read>(
    alloc: Global,
    types: &[ColType],
    reader: &mut Reader<S>,
) -> Result<Table, LoadFault>
    requires { IsPlain reader.old }
    ensures types { IfOk result (λ r. r.types ≡ types.now) }
    ensures fit { IfOk result (λ r. AllByRecursion (Fits r.types) r.rows) }
    ensures rows { IfSome (rest_of S.remaining reader.old) (λ records. Gives (λ r. r.rows) result (rows_onto types.now [] records)) }
    ensures few { IfOk result (λ r. length r.rows ≤ max_rows) }
    ensures known { (result ≡ Err LoadFault.NoMemory) ⊎ StaysKnown (source_of S.remaining reader.old) (source_of S.remaining reader.new) }
    ensures own { IfErr result (λ e. e ≢ LoadFault.ReadFailed) }
{
    read_sized_rows(alloc, types, reader, 0)
}

/// `read_rows`, where the reader has yet to begin a text of about `size` bytes, so that room for all rows is reserved early. The rows
/// take no more memory than they need.
pub fn read_sized_rows<S: Read>(
    alloc: Global,
    types: &[ColType],
    reader: &mut Reader<S>,
    size: usize,
) -> Result<Table, LoadFault>
    requires { IsPlain reader.old }
    ensures types { IfOk result (λ r. r.types ≡ types.now) }
    ensures fit { IfOk result (λ r. AllByRecursion (Fits r.types) r.rows) }
    ensures rows { IfSome (rest_of S.remaining reader.old) (λ records. Gives (λ r. r.rows) result (rows_onto types.now [] records)) }
    ensures few { IfOk result (λ r. length r.rows ≤ max_rows) }
    ensures known { (result ≡ Err LoadFault.NoMemory) ⊎ StaysKnown (source_of S.remaining reader.old) (source_of S.remaining reader.new) }
    ensures own { IfErr result (λ e. e ≢ LoadFault.ReadFailed) }
{
    let mut rows = OpenRows::new(alloc, types)?;
    let mut line = ByteRecord::new(alloc);
    for _ in 0..MAX_ROWS + 1 {
        if !next_record(reader, &mut line)? {
            rows.shrink();
            return Ok(rows.into_rows());
        }
        push_sized_record(&mut rows, &line, reader.position().byte, size)?;
    }
    unreachable!()
}

// A field without the byte order mark that it begins with.
#[tactic(auto, unfolding(csv::specs::Reading::strip_bom))]
fn without_mark(field: &[u8]) -> &[u8]
    ensures { result.now ≡ strip_bom field.now }
{
    match field {
        [0xEF, 0xBB, 0xBF, rest @ ..] => rest,
        _ => field,
    }
}

fn is_name(name: &str, i: usize, field: Option<&[u8]>) -> bool
    ensures { result ≡ same_name name.now i (option_copied field.entry) }
{
    match field {
        Some(field) => {
            if i == 0 {
                without_mark(field) == name.as_bytes()
            } else {
                field == name.as_bytes()
            }
        }
        None => false,
    }
}

fn has_names(names: &[String], line: &ByteRecord) -> bool
    ensures { result ≡ names_from 0 (fields_of line.now) (map string_bytes names.now) }
{
    for (i, name) in names.iter().enumerate() {
        if !is_name(name.as_str(), i, line.get(i)) {
            return false;
        }
    }
    true
}

/// Whether a record has these names, in order.
pub fn is_header(names: &[String], line: &ByteRecord) -> bool
    ensures { result ≡ is_header (map string_bytes names.now) (fields_of line.now) }
{
    line.len() == names.len() && has_names(names, line)
}
