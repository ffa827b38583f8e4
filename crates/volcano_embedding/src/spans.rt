//! Names and texts of tables in one slice of bytes.

ghost use Rattle.std.specs.Prelude.{◌≡◌, None, length, map, position, IfOk, IfErr};
ghost use Rattle.volcano_embedding.specs.Texts.{table_form};
ghost use Rattle.volcano_embedding.specs.Spans.{is_outside, cut, cut_table, SpansFail};

use crate::tables::TableText;
use std::alloc::{AllocError, AllocFailed, Global};

/// Where the name and the text of a table stand in a slice of bytes: each from a start up to an end.
#[repr(C)]
#[derive(Clone, Copy)]
pub struct TableSpan {
    pub name_start: usize,
    pub name_end: usize,
    pub text_start: usize,
    pub text_end: usize,
}

/// Why there are no tables.
#[derive(Drop)]
pub enum SpanFault {
    /// A name or a text is not within the bytes.
    Outside,
    /// Out of memory.
    NoMemory,
}

impl From<AllocError> for SpanFault {
    ghost use Rattle.std.specs.Prelude.{◌≡◌};
    ghost use Rattle.volcano_embedding.specs.declared.spans.SpanFault.TheVariants.{NoMemory};

    ghost from_gives = { λ _ e. e ≡ NoMemory };

    fn from(_e: AllocError) -> SpanFault {
        SpanFault::NoMemory
    }
}

impl<T: Drop> From<AllocFailed<T>> for SpanFault {
    ghost use Rattle.std.specs.Prelude.{◌≡◌};
    ghost use Rattle.volcano_embedding.specs.declared.spans.SpanFault.TheVariants.{NoMemory};

    ghost from_gives = { λ _ e. e ≡ NoMemory };

    fn from(_e: AllocFailed<T>) -> SpanFault {
        SpanFault::NoMemory
    }
}

// Whether the name or the text of `span` is not within `length` bytes.
fn is_outside(length: usize, span: TableSpan) -> bool
    ensures { result ≡ is_outside length span }
{
    span.name_end < span.name_start
        || length < span.name_end
        || span.text_end < span.text_start
        || length < span.text_end
}

// The first span that is not within `length` bytes.
fn first_outside(length: usize, spans: &[TableSpan]) -> Option<usize>
    ensures { result ≡ position (is_outside length) spans.now }
{
    spans.iter().position(|span| is_outside(length, *span))
}

// The bytes from a start up to an end, or none.
fn cut(bytes: &[u8], start: usize, end: usize) -> &[u8]
    ensures { result.now ≡ cut bytes.now start end }
{
    if start <= end && end <= bytes.len() {
        return &bytes[start..end];
    }
    b""
}

// The name and the text of one table.
fn cut_table(alloc: Global, bytes: &[u8], span: TableSpan) -> Result<TableText, AllocError>
    ensures { IfOk result (λ t. table_form t ≡ cut_table bytes.now span) }
{
    let name = Vec::from_slice(alloc, cut(bytes, span.name_start, span.name_end))?;
    let text = Vec::from_slice(alloc, cut(bytes, span.text_start, span.text_end))?;
    Ok(TableText { name, text })
}

/// The names and the texts of tables, which spans cut out of bytes. It fails if a span is not within the bytes.
pub fn tables_in(
    alloc: Global,
    bytes: &[u8],
    spans: &[TableSpan],
) -> Result<Vec<TableText>, SpanFault>
    ensures tables { IfOk result (λ v. map table_form v.items ≡ map (cut_table bytes.now) spans.now) }
    ensures within { IfOk result (λ v. position (is_outside (length bytes.now)) spans.now ≡ None) }
    ensures refused { IfErr result (SpansFail bytes.now spans.now) }
{
    if first_outside(bytes.len(), spans).is_some() {
        return Err(SpanFault::Outside);
    }
    let mut tables = Vec::new(alloc);
    for span in spans {
        tables.push(cut_table(alloc, bytes, *span)?)?;
    }
    Ok(tables)
}
