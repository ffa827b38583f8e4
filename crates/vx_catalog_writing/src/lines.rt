//! The lines of rows, without a header.

ghost use Rattle.std.specs.Prelude.{◌≡◌, [], map, string_bytes, IfOk};
ghost use Rattle.vx_catalog.specs.Csv.{csv_text};
ghost use Rattle.vx_catalog_writing.specs.Blocks.{lines_text};

use std::alloc::{AllocError, Global};
use std::marker::Model;
use vx_catalog::format_rows;
use vx_rows_values::ColType;
use vx_rows_views::Rows;

/// The lines of rows. They lie behind a header, which is no part of them.
#[derive(Drop)]
pub struct Lines {
    text: Vec<u8>,
    header: usize,
}

impl Model for Lines {
    ghost use Rattle.std.specs.Prelude.{ℕ, ◌≤◌, List, drop, length};

    ghost Value = { List ℕ };

    ghost view = { λ l. drop l.header l.text.items };

    ghost invariant = { λ l. l.header ≤ length l.text.items };
}

/// The text of no rows: the header alone.
pub fn header_text(
    alloc: Global,
    names: &[String],
    types: &[ColType],
) -> Result<Vec<u8>, AllocError>
    ensures { IfOk result (λ v. v.items ≡ csv_text (map string_bytes names.now) []) }
{
    format_rows(alloc, names, &Rows::new(alloc, types)?)
}

impl Lines {
    /// The lines of all rows, in no more memory than they take.
    pub fn of(alloc: Global, names: &[String], rows: &Rows) -> Result<Lines, AllocError>
        ensures { IfOk result (λ l. l ≡ lines_text rows.now.rows) }
    {
        let header = header_text(alloc, names, rows.types())?.len();
        let mut text = format_rows(alloc, names, rows)?;
        text.shrink_to_fit();
        Ok(Lines { text, header })
    }

    /// Their bytes.
    pub fn bytes(&self) -> &[u8]
        ensures { result.now ≡ self.now }
    {
        &self.text[self.header..]
    }
}
