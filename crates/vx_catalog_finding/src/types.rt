//! The types of columns.

ghost use Rattle.std.specs.Prelude.{◌≡◌, ◌<◌, length, map, IfOk};
ghost use Rattle.vx_rows_values.specs.ValueView.{cell_val};
ghost use Rattle.vx_rows_values.specs.declared.value.ColType.TheVariants as kind;
ghost use Rattle.vx_catalog.specs.Number.{number_of};
ghost use Rattle.vx_catalog_finding.specs.Found.{is_plain, is_plain_number, type_in, types_in};

use std::alloc::{AllocError, Global};
use vx_rows::Table;
use vx_rows_values::{Cell, ColType};

// The number that a text reads as.
fn number_of(text: &str) -> Option<i64>
    ensures { result ≡ number_of text.now }
{
    text.parse::<i64>().ok()
}

// Whether a number stands without a plus and without zeros before other digits.
fn is_plain(text: &str) -> bool
    ensures { result ≡ is_plain text.now }
{
    let bytes = text.as_bytes();
    if bytes.starts_with(b"+") || bytes.starts_with(b"-0") {
        return false;
    }
    !bytes.starts_with(b"0") || bytes.len() == 1
}

// Whether a value is a number, or a text that reads as one and is plain.
fn is_plain_number(cell: Cell<'_>) -> bool
    ensures { result ≡ is_plain_number (cell_val cell.entry) }
{
    match cell {
        Cell::Int(_) => true,
        Cell::Text(text) => is_plain(text) && number_of(text).is_some(),
    }
}

// The type of a column of rows of texts.
#[tactic(auto, using(crate::proofs::TypeFacts::type_steps))]
fn type_of(rows: &Table, column: usize) -> ColType
    requires { column < length rows.now.types }
    ensures { result ≡ type_in column rows.now.rows }
{
    if rows.len() == 0 {
        return ColType::Text;
    }
    for i in 0..rows.len() {
        if !is_plain_number(rows.cell(i, column)) {
            return ColType::Text;
        }
    }
    ColType::Int
}

/// The types of the columns of rows of texts: numbers if there are rows and each text is a plain number.
#[tactic(auto, using(crate::proofs::TypeFacts::type_steps))]
pub fn types_of(alloc: Global, rows: &Table) -> Result<Vec<ColType>, AllocError>
    ensures { IfOk result (λ v. v.items ≡ types_in (length rows.now.types) rows.now.rows) }
{
    let mut types = Vec::new(alloc);
    for column in 0..rows.types().len() {
        types.push(type_of(rows, column))?;
    }
    Ok(types)
}

/// A column of texts for each of these names.
pub fn all_texts(alloc: Global, names: &[String]) -> Result<Vec<ColType>, AllocError>
    ensures { IfOk result (λ v. v.items ≡ map (λ _. kind.Text) names.now) }
{
    let mut types = Vec::new(alloc);
    for _name in names {
        types.push(ColType::Text)?;
    }
    Ok(types)
}
