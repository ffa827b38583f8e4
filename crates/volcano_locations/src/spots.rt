//! Where a table is at fault: the line of the row, and the values.

ghost use Rattle.std.specs.Prelude.{◌≡◌, Some, None, IfOk, IfSome};
ghost use Rattle.vx_catalog_bytes.specs.Stored.{IfBytes};
ghost use Rattle.volcano_locations.specs.Spots.{number_of, IsOnLine};

use crate::fault::PlaceFault;
use crate::record::{Record, record_at};
use csv::ByteRecord;
use std::alloc::{AllocError, Global};
use std::cmp::Ordering;
use std::str;
use vx_catalog::LoadFault;
use vx_catalog_bytes::Store;
use vx_catalog_relations::Relation;
use vx_rows_values::{ColType, OrderEntry};

/// A value in the column with this number.
#[derive(Drop)]
pub struct CellAt {
    pub column: usize,
    pub value: Vec<u8>,
}

/// Where a table is at fault.
#[derive(Drop)]
pub struct FaultSpot {
    /// The line on which the row begins, counted from 1; a text without a header has none.
    pub line: Option<u64>,
    /// The line of the row with the same key, or of the row before it that should come behind it.
    pub earlier: Option<u64>,
    /// How many fields the row has, if that is the fault.
    pub width: Option<usize>,
    /// The values at fault.
    pub cells: Vec<CellAt>,
}

// The number of the record at fault: the header has the number 0.
fn number_of(fault: LoadFault) -> Option<usize>
    ensures { IfSome result (λ n. n ≡ number_of fault) }
{
    match fault {
        LoadFault::HeaderMismatch => Some(0),
        LoadFault::BadWidth { row } | LoadFault::NotUtf8 { row } | LoadFault::OrderBroken { row } =>
            row.checked_add(1),
        LoadFault::BadInt { row, .. } => row.checked_add(1),
        LoadFault::KeyBroken { second, .. } => second.checked_add(1),
        LoadFault::ReadFailed | LoadFault::NoMemory | LoadFault::TooLarge => None,
    }
}

// Puts the value of a column behind others, if the record has one.
fn push_cell(
    alloc: Global,
    cells: &mut Vec<CellAt>,
    fields: &ByteRecord,
    column: usize,
) -> Result<(), AllocError> {
    if let Some(field) = fields.get(column) {
        let value = Vec::from_slice(alloc, field)?;
        cells.push(CellAt { column, value })?;
    }
    Ok(())
}

// A row that is at fault in a column.
fn cell_spot(alloc: Global, found: &Record, column: usize) -> Result<Option<FaultSpot>, PlaceFault>
    ensures { IfOk result (λ o. IfSome o (λ s. s.line ≡ Some found.now.line)) }
{
    let mut cells = Vec::new(alloc);
    push_cell(alloc, &mut cells, &found.fields, column)?;
    Ok(Some(FaultSpot {
        line: Some(found.line),
        earlier: None,
        width: None,
        cells,
    }))
}

// A row that has another number of fields than its relation has columns.
fn width_spot(alloc: Global, relation: &Relation, found: &Record) -> Option<FaultSpot>
    ensures { IfSome result (λ s. s.line ≡ Some found.now.line) }
{
    if found.fields.len() == relation.width() {
        return None;
    }
    Some(FaultSpot {
        line: Some(found.line),
        earlier: None,
        width: Some(found.fields.len()),
        cells: Vec::new(alloc),
    })
}

// The first column of which the field is there and is not the name.
fn misnamed_column(names: &[String], fields: &ByteRecord) -> Option<usize> {
    for (column, name) in names.iter().enumerate() {
        if let Some(field) = fields.get(column) {
            if field != name.as_bytes() {
                return Some(column);
            }
        }
    }
    None
}

// A header that does not have the names of the columns.
fn header_spot(
    alloc: Global,
    relation: &Relation,
    found: &Record,
) -> Result<Option<FaultSpot>, PlaceFault>
    ensures { IfOk result (λ o. IfSome o (λ s. s.line ≡ Some found.now.line)) }
{
    match misnamed_column(relation.names(), &found.fields) {
        Some(column) => cell_spot(alloc, found, column),
        None => Ok(width_spot(alloc, relation, found)),
    }
}

// The number that a field says.
fn integer_of(field: &[u8]) -> Option<i64> {
    match str::from_utf8(field) {
        Ok(text) => text.parse::<i64>().ok(),
        Err(_) => None,
    }
}

// Whether a field is a value of a type.
fn is_value(kind: ColType, field: &[u8]) -> bool {
    match kind {
        ColType::Int => integer_of(field).is_some(),
        ColType::Text => str::from_utf8(field).is_ok(),
    }
}

// A row of which the field of a column of this type is no value.
fn value_spot(
    alloc: Global,
    relation: &Relation,
    found: &Record,
    column: usize,
    kind: ColType,
) -> Result<Option<FaultSpot>, PlaceFault>
    ensures { IfOk result (λ o. IfSome o (λ s. s.line ≡ Some found.now.line)) }
{
    let types = relation.types();
    if column >= types.len() || types[column] != kind {
        return Ok(None);
    }
    match found.fields.get(column) {
        Some(field) if !is_value(kind, field) => cell_spot(alloc, found, column),
        _ => Ok(None),
    }
}

// A row of which a field of a column of texts is not UTF-8.
fn text_spot(
    alloc: Global,
    relation: &Relation,
    found: &Record,
) -> Result<Option<FaultSpot>, PlaceFault>
    ensures { IfOk result (λ o. IfSome o (λ s. s.line ≡ Some found.now.line)) }
{
    for column in 0..relation.types().len() {
        let spot = value_spot(alloc, relation, found, column, ColType::Text)?;
        if spot.is_some() {
            return Ok(spot);
        }
    }
    Ok(None)
}

// How the value of one row in a column compares to that of another.
fn compare_at(
    relation: &Relation,
    column: usize,
    fields: &ByteRecord,
    others: &ByteRecord,
) -> Option<Ordering> {
    let field = fields.get(column)?;
    let other = others.get(column)?;
    let types = relation.types();
    if column >= types.len() {
        return None;
    }
    match types[column] {
        ColType::Int => Some(integer_of(field)?.cmp(&integer_of(other)?)),
        ColType::Text => Some(field.cmp(other)),
    }
}

// A row that agrees with an earlier one on a key.
fn key_spot(
    alloc: Global,
    relation: &Relation,
    key: usize,
    earlier: &Record,
    found: &Record,
) -> Result<Option<FaultSpot>, PlaceFault>
    ensures { IfOk result (λ o. IfSome o (λ s. s.line ≡ Some found.now.line)) }
{
    if key >= relation.key_count() {
        return Ok(None);
    }
    let mut cells = Vec::new(alloc);
    for column in relation.key(key) {
        match compare_at(relation, *column, &earlier.fields, &found.fields) {
            Some(Ordering::Equal) => push_cell(alloc, &mut cells, &found.fields, *column)?,
            _ => return Ok(None),
        }
    }
    Ok(Some(FaultSpot {
        line: Some(found.line),
        earlier: Some(earlier.line),
        width: None,
        cells,
    }))
}

// How the rows of two records stand to each other on an entry of an order.
fn compare_on(
    relation: &Relation,
    entry: OrderEntry,
    before: &ByteRecord,
    fields: &ByteRecord,
) -> Option<Ordering> {
    if entry.falling {
        compare_at(relation, entry.column, fields, before)
    } else {
        compare_at(relation, entry.column, before, fields)
    }
}

// The first column of an order on which a row is smaller than the one before it, where it is equal on those before.
fn broken_column(relation: &Relation, before: &ByteRecord, fields: &ByteRecord) -> Option<usize> {
    for entry in relation.order() {
        match compare_on(relation, *entry, before, fields)? {
            Ordering::Equal => {}
            Ordering::Greater => return Some(entry.column),
            Ordering::Less => return None,
        }
    }
    None
}

// A row that is smaller than the one before it.
fn order_spot(
    alloc: Global,
    relation: &Relation,
    before: &Record,
    found: &Record,
) -> Result<Option<FaultSpot>, PlaceFault>
    ensures { IfOk result (λ o. IfSome o (λ s. s.line ≡ Some found.now.line)) }
{
    let Some(column) = broken_column(relation, &before.fields, &found.fields) else {
        return Ok(None);
    };
    let mut cells = Vec::new(alloc);
    push_cell(alloc, &mut cells, &before.fields, column)?;
    push_cell(alloc, &mut cells, &found.fields, column)?;
    Ok(Some(FaultSpot {
        line: Some(found.line),
        earlier: Some(before.line),
        width: None,
        cells,
    }))
}

// Where a record is at fault so, together with an earlier one.
fn pair_spot(
    alloc: Global,
    relation: &Relation,
    fault: LoadFault,
    earlier: &Record,
    found: &Record,
) -> Result<Option<FaultSpot>, PlaceFault>
    ensures { IfOk result (λ o. IfSome o (λ s. s.line ≡ Some found.now.line)) }
{
    match fault {
        LoadFault::KeyBroken { key, .. } => key_spot(alloc, relation, key, earlier, found),
        LoadFault::OrderBroken { .. } => order_spot(alloc, relation, earlier, found),
        _ => Ok(None),
    }
}

// Where a record is at fault so.
fn own_spot(
    alloc: Global,
    relation: &Relation,
    fault: LoadFault,
    found: &Record,
) -> Result<Option<FaultSpot>, PlaceFault>
    ensures { IfOk result (λ o. IfSome o (λ s. s.line ≡ Some found.now.line)) }
{
    match fault {
        LoadFault::HeaderMismatch => header_spot(alloc, relation, found),
        LoadFault::BadWidth { .. } => Ok(width_spot(alloc, relation, found)),
        LoadFault::BadInt { col, .. } => value_spot(alloc, relation, found, col, ColType::Int),
        LoadFault::NotUtf8 { .. } => text_spot(alloc, relation, found),
        _ => Ok(None),
    }
}

// The number of the record before the one at fault that takes part in it.
fn earlier_number(fault: LoadFault) -> Option<usize> {
    match fault {
        LoadFault::KeyBroken { first, .. } => first.checked_add(1),
        LoadFault::OrderBroken { row } if row > 0 => Some(row),
        _ => None,
    }
}

// Where a text without a header is at fault.
fn empty_spot(alloc: Global, fault: LoadFault) -> Option<FaultSpot>
    ensures { IfSome result (λ s. s.line ≡ None) }
{
    match fault {
        LoadFault::HeaderMismatch => Some(FaultSpot {
            line: None,
            earlier: None,
            width: None,
            cells: Vec::new(alloc),
        }),
        _ => None,
    }
}

// Where the file at a path is at fault so in this record.
fn record_spot<F: Store>(
    alloc: Global,
    files: &F,
    path: &str,
    relation: &Relation,
    fault: LoadFault,
    found: &Record,
) -> Result<Option<FaultSpot>, PlaceFault>
    ensures { IfOk result (λ o. IfSome o (λ s. s.line ≡ Some found.now.line)) }
{
    let Some(earlier) = earlier_number(fault) else {
        return own_spot(alloc, relation, fault, found);
    };
    let Some(file) = files.open(path) else {
        return Ok(None);
    };
    match record_at(alloc, file, earlier)? {
        Some(earlier) => pair_spot(alloc, relation, fault, &earlier, found),
        None => Ok(None),
    }
}

/// Where the file of a relation at a path is at fault as a load of it said, if it still is.
pub fn spot_of<F: Store>(
    alloc: Global,
    files: &F,
    path: &str,
    relation: &Relation,
    fault: LoadFault,
) -> Result<Option<FaultSpot>, PlaceFault>
    ensures { IfOk result (λ o. IfSome o (λ s. IfSome s.line (λ line. IfBytes (F.holds files.now path.now) (λ bytes. IsOnLine bytes (number_of fault) line)))) }
{
    let Some(number) = number_of(fault) else {
        return Ok(None);
    };
    let Some(file) = files.open(path) else {
        return Ok(None);
    };
    match record_at(alloc, file, number)? {
        Some(found) => record_spot(alloc, files, path, relation, fault, &found),
        None => Ok(empty_spot(alloc, fault)),
    }
}
