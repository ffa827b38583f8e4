//! Rows as a table.

ghost use Rattle.std.specs.Prelude.{◌≡◌, ◌<◌, ◌++◌, length, map, flat_map, string_bytes, codes, [], ℕ, List, IfOk, OnOk};
ghost use Rattle.vx_rows_values.specs.Values.{text};
ghost use Rattle.vx_rows.specs.View.{row};
ghost use Rattle.vx_rows_views.specs.Chunks.{all_rows};
ghost use Rattle.vx_catalog_formats.specs.Table.{line, rule, cut_line, count_line, widths_of, table_lines, table_text};

use crate::cells::{push_cut, push_dashes, push_field};
use crate::widths::widths_of;
use itoa::Buffer;
use std::alloc::{AllocError, Global};
use vx_rows_values::Cell;
use vx_rows_views::{Chunk, Rows};

// A table as far as it is made, and two texts that are made anew for each line and for each value.
#[derive(Drop)]
struct Page {
    text: String,
    line: String,
    cell: String,
    columns: Option<usize>,
}

impl Page {
    // Nothing yet.
    fn new(alloc: Global, columns: Option<usize>) -> Page
        ensures text { string_bytes result.text ≡ [] }
        ensures columns { result.columns ≡ columns }
    {
        Page {
            text: String::new(alloc),
            line: String::new(alloc),
            cell: String::new(alloc),
            columns,
        }
    }

    // Adds the line that was made, or what the screen shows of it.
    fn end_line(&mut self) -> Result<(), AllocError>
        ensures text { OnOk result (string_bytes self.new.text ≡ string_bytes self.old.text ++ cut_line self.old.columns (string_bytes self.old.line ++ codes "|")) }
        ensures columns { self.new.columns ≡ self.old.columns }
    {
        self.line.push_str("|")?;
        push_cut(&mut self.text, self.line.as_str(), self.columns)
    }

    // Adds the line with the names.
    fn push_names(&mut self, names: &[String], widths: &[usize]) -> Result<(), AllocError>
        ensures text { OnOk result (string_bytes self.new.text ≡ string_bytes self.old.text ++ cut_line self.old.columns (line widths.now (map text (map string_bytes names.now)))) }
        ensures columns { self.new.columns ≡ self.old.columns }
    {
        self.line.clear();
        for column in 0..widths.len().min(names.len()) {
            let name = Cell::Text(names[column].as_str());
            push_field(&mut self.line, &mut self.cell, name, widths[column])?;
        }
        self.end_line()
    }

    // Adds the line below the names.
    fn push_rule(&mut self, widths: &[usize]) -> Result<(), AllocError>
        ensures text { OnOk result (string_bytes self.new.text ≡ string_bytes self.old.text ++ cut_line self.old.columns (rule widths.now)) }
        ensures columns { self.new.columns ≡ self.old.columns }
    {
        self.line.clear();
        for width in widths {
            push_dashes(&mut self.line, *width)?;
        }
        self.end_line()
    }

    // Adds the line of a row.
    fn push_row(&mut self, widths: &[usize], chunk: &Chunk, i: usize) -> Result<(), AllocError>
        requires { i < length chunk.now.rows }
        ensures text { OnOk result (string_bytes self.new.text ≡ string_bytes self.old.text ++ cut_line self.old.columns (line widths.now (row chunk.now i))) }
        ensures columns { self.new.columns ≡ self.old.columns }
    {
        self.line.clear();
        for column in 0..widths.len().min(chunk.types().len()) {
            let value = chunk.cell(i, column);
            push_field(&mut self.line, &mut self.cell, value, widths[column])?;
        }
        self.end_line()
    }

    // Adds the lines of a chunk.
    fn push_chunk(&mut self, widths: &[usize], chunk: &Chunk) -> Result<(), AllocError>
        ensures text { OnOk result (string_bytes self.new.text ≡ string_bytes self.old.text ++ flat_map (λ r. cut_line self.old.columns (line widths.now r)) chunk.now.rows) }
        ensures columns { self.new.columns ≡ self.old.columns }
    {
        for i in 0..chunk.len() {
            self.push_row(widths, chunk, i)?;
        }
        Ok(())
    }

    // Adds the lines of these chunks.
    fn push_chunks(&mut self, widths: &[usize], chunks: &[Chunk]) -> Result<(), AllocError>
        ensures text { OnOk result (string_bytes self.new.text ≡ string_bytes self.old.text ++ flat_map (λ r. cut_line self.old.columns (line widths.now r)) (all_rows chunks.now)) }
        ensures columns { self.new.columns ≡ self.old.columns }
    {
        for i in 0..chunks.len() {
            self.push_chunk(widths, &chunks[i])?;
        }
        Ok(())
    }

    // Adds how many rows there are.
    fn push_count(&mut self, count: usize) -> Result<(), AllocError>
        ensures { OnOk result (string_bytes self.new.text ≡ string_bytes self.old.text ++ count_line count) }
    {
        let mut digits = Buffer::new();
        self.text.push_str("(")?;
        self.text.push_str(digits.format(count))?;
        if count == 1 {
            return self.text.push_str(" row)\n");
        }
        self.text.push_str(" rows)\n")
    }
}

// The lines of a table, without the last.
fn table_lines(
    alloc: Global,
    columns: Option<usize>,
    names: &[String],
    rows: &Rows,
) -> Result<Page, AllocError>
    ensures { IfOk result (λ p. (widths : List ℕ) × (widths ≡ widths_of (map string_bytes names.now) rows.now.rows) × (string_bytes p.text ≡ table_lines columns widths (map string_bytes names.now) rows.now.rows)) }
{
    let mut page = Page::new(alloc, columns);
    let widths = widths_of(alloc, names, rows, &mut page.cell)?;
    page.push_names(names, widths.as_slice())?;
    page.push_rule(widths.as_slice())?;
    page.push_chunks(widths.as_slice(), rows.chunks())?;
    Ok(page)
}

/// The rows as a table for people, under these names: texts to the left, numbers to the right, and how many rows there are. On a
/// screen of so many columns each line is cut where it would be too long. If there are more names than columns, or fewer, those
/// without a partner are left out.
pub fn format_table(
    alloc: Global,
    columns: Option<usize>,
    names: &[String],
    rows: &Rows,
) -> Result<Vec<u8>, AllocError>
    ensures { IfOk result (λ v. v.items ≡ table_text columns (map string_bytes names.now) rows.now.rows) }
{
    let mut page = table_lines(alloc, columns, names, rows)?;
    page.push_count(rows.len())?;
    Ok(page.text.into_bytes())
}
