//! Rows as a table, and as lines of JSON.

use crate::case::{Case, Setting};
use crate::catalogs::catalog_of;
use crate::expect::{Wrong, expect, told};
use crate::writing::rows_of;
use std::alloc::Global;
use vx_catalog_formats::{format_json, format_table};

/// Compares the lines of JSON of the rows of `text` with the text `wanted`.
pub fn compare_json(
    alloc: Global,
    setting: Setting<'_>,
    text: &[u8],
    wanted: &[u8],
) -> Result<(), Wrong> {
    let catalog = catalog_of(alloc, setting.catalog)?;
    let rows = rows_of(alloc, &catalog, text)?;
    let said = format_json(alloc, catalog.get(0).names(), &rows)?;
    expect(alloc, said.as_slice(), wanted, "json")
}

/// Compares the table of the rows of `text` with the text `wanted`.
pub fn compare_table(
    alloc: Global,
    setting: Setting<'_>,
    columns: Option<usize>,
    text: &[u8],
    wanted: &[u8],
) -> Result<(), Wrong> {
    let catalog = catalog_of(alloc, setting.catalog)?;
    let rows = rows_of(alloc, &catalog, text)?;
    let said = format_table(alloc, columns, catalog.get(0).names(), &rows)?;
    expect(alloc, said.as_slice(), wanted, "table")
}

/// The same on a screen, of which the name of the case begins with the number of columns.
pub fn compare_screen(
    alloc: Global,
    setting: Setting<'_>,
    case: Case<'_>,
    text: &[u8],
    wanted: &[u8],
) -> Result<(), Wrong> {
    let Some(word) = case.name.split_whitespace().next() else {
        return Err(told(alloc, "this is no screen"));
    };
    match word.parse::<usize>() {
        Ok(columns) => compare_table(alloc, setting, Some(columns), text, wanted),
        Err(_) => Err(told(alloc, "this is no screen")),
    }
}
