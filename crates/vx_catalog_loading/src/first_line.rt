//! The first line of a text, which has the header.

ghost use Rattle.std.specs.Prelude.{◌≢◌, [], IfErr, IfOk};
ghost use Rattle.vx_catalog.specs.Loading.{Fails, records_of};
ghost use Rattle.vx_catalog_loading.specs.Reading.{rows_under, IsFirstLine};

use csv::{ByteRecord, ReaderBuilder};
use std::alloc::Global;
use vx_catalog::{LoadFault, is_header, next_record, read_rows};
use vx_catalog_relations::Relation;
use vx_rows::Table;

/// The rows of a line under the header that it begins with: none mostly, but a carriage return may end the header before the
/// line does. None, if the line has no record.
pub fn read_first_line(
    alloc: Global,
    relation: &Relation,
    line: &[u8],
) -> Result<Option<Table>, LoadFault>
    ensures ok { IfOk result (IsFirstLine relation.now line.now) }

    // An error of the line is one of each text that begins with it, since the line has a record then.
    ensures err { IfErr result (λ e. Fails e (rows_under relation.now line.now) × (e ≢ LoadFault.NoMemory → records_of line.now ≢ [])) }
{
    let mut reader = ReaderBuilder::new()
        .has_headers(false)
        .flexible(true)
        .from_reader(alloc, line);
    let mut header = ByteRecord::new(alloc);
    if !next_record(&mut reader, &mut header)? {
        return Ok(None);
    }
    if !is_header(relation.names(), &header) {
        return Err(LoadFault::HeaderMismatch);
    }
    Ok(Some(read_rows(alloc, relation.types(), &mut reader)?))
}
