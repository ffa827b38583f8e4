//! Tables of a number and a text, and rows as text.

ghost use Rattle.std.specs.Prelude.{◌≡◌, ◌<◌, [], ◌∷◌, length, IfOk};
ghost use Rattle.vx_rows_values.specs.declared.value.ColType.TheVariants as kind;

use std::alloc::{AllocError, Global};
use vx_rows::Table;
use vx_rows_values::{Cell, ColType, Value};

/// A number and a text.
pub const TYPES: [ColType; 2] = [ColType::Int, ColType::Text];

/// Adds a number as it is, or a text in quotes.
pub fn show_cell(text: &mut String, cell: Cell<'_>) -> Result<(), AllocError> {
    match cell {
        Cell::Int(n) => write!(text, "{n}"),
        Cell::Text(s) => write!(text, "'{s}'"),
    }
}

// Adds the values of a row with a space between them, and a semicolon.
fn show_row(text: &mut String, rows: &Table, row: usize) -> Result<(), AllocError>
    requires { row < length rows.now.rows }
{
    for column in 0..rows.types().len() {
        if column > 0 {
            text.push(' ')?;
        }
        show_cell(text, rows.cell(row, column))?;
    }
    text.push(';')
}

/// The rows as text: numbers as they are, texts in quotes, a space between values, a semicolon behind each row.
pub fn shown(alloc: Global, rows: &Table) -> Result<String, AllocError> {
    let mut text = String::new(alloc);
    for row in 0..rows.len() {
        show_row(&mut text, rows, row)?;
    }
    Ok(text)
}

// Adds a number and a text.
fn add(alloc: Global, rows: &mut Table, number: i64, text: &str) -> Result<(), AllocError>
    ensures { rows.new.types ≡ rows.old.types }
{
    let values = vec![in alloc;
        Value::Int(number),
        Value::Text(String::from_str(alloc, text)?),
    ]?;
    if rows.fits(values.as_slice()) {
        rows.push(values.as_slice())?;
    }
    Ok(())
}

/// Rows of a number and a text.
pub fn table(alloc: Global, entries: &[(i64, &str)]) -> Result<Table, AllocError>
    ensures { IfOk result (λ r. r.types ≡ kind.Int ∷ kind.Text ∷ []) }
{
    let mut rows = Table::new(alloc, TYPES.as_slice())?;
    for entry in entries {
        add(alloc, &mut rows, entry.0, entry.1)?;
    }
    Ok(rows)
}
