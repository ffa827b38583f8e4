//! The header of a text, and the rows behind it.

ghost use Rattle.std.specs.Prelude.{◌≡◌, map, string_bytes, IfOk};
ghost use Rattle.csv.specs.Records.{fields_of};
ghost use Rattle.vx_catalog.specs.Loading.{Gives, records_of};
ghost use Rattle.vx_catalog_finding.specs.Found.{name_in, names_in, header_in, rows_behind};

use csv::{ByteRecord, Reader, ReaderBuilder};
use std::alloc::Global;
use std::str;
use vx_catalog::{LoadFault, next_record, read_rows};
use vx_rows::Table;
use vx_rows_values::ColType;

// A name of a header, which is UTF-8.
#[tactic(auto, using(crate::proofs::TextFacts::name_steps))]
fn name_of(alloc: Global, field: &[u8]) -> Result<String, LoadFault>
    ensures { Gives string_bytes result (name_in field.now) }
{
    match str::from_utf8(field) {
        Ok(name) => Ok(String::from_str(alloc, name)?),
        Err(_) => Err(LoadFault::HeaderMismatch),
    }
}

// The names of a header.
#[tactic(auto, using(crate::proofs::TextFacts::header_steps))]
fn names_of(alloc: Global, header: &ByteRecord) -> Result<Vec<String>, LoadFault>
    ensures { Gives (λ v. map string_bytes v.items) result (names_in (fields_of header.now)) }
{
    let mut names = Vec::new(alloc);
    for column in 0..header.len() {
        match header.get(column) {
            Some(field) => names.push(name_of(alloc, field)?)?,
            None => return Err(LoadFault::HeaderMismatch),
        }
    }
    Ok(names)
}

/// The names in the header of a text.
pub fn header_of(alloc: Global, text: &[u8]) -> Result<Vec<String>, LoadFault>
    ensures { Gives (λ v. map string_bytes v.items) result (header_in (records_of text.now)) }
{
    let mut reader = ReaderBuilder::new()
        .has_headers(false)
        .flexible(true)
        .from_reader(alloc, text);
    let mut header = ByteRecord::new(alloc);
    if !next_record(&mut reader, &mut header)? {
        return Err(LoadFault::HeaderMismatch);
    }
    names_of(alloc, &header)
}

/// The rows behind the header of a text, in columns of these types.
pub fn rows_behind(alloc: Global, types: &[ColType], text: &[u8]) -> Result<Table, LoadFault>
    ensures types { IfOk result (λ r. r.types ≡ types.now) }
    ensures rows { Gives (λ r. r.rows) result (rows_behind types.now (records_of text.now)) }
{
    let mut reader = ReaderBuilder::new()
        .has_headers(false)
        .flexible(true)
        .from_reader(alloc, text);
    let mut header = ByteRecord::new(alloc);
    if !next_record(&mut reader, &mut header)? {
        return Err(LoadFault::HeaderMismatch);
    }
    read_rows(alloc, types, &mut reader)
}
