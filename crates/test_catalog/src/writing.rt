//! Rows that are written with room for a part of their text, and with some of their columns.

ghost use Rattle.std.specs.Prelude.{◌<◌, ◌≤◌, length};

use crate::case::Setting;
use crate::catalogs::catalog_of;
use crate::expect::{Wrong, expect, told};
use crate::loading::in_two_chunks;
use crate::way::Way;
use std::alloc::Global;
use std::thread::Threads;
use vx_catalog::{Loader, write_rows};
use vx_catalog_bytes::{MemoryIn, MemoryOut};
use vx_catalog_relations::Catalog;
use vx_rows_views::Rows;

/// The rows of relation 0 of the catalog `catalog` that the text `text` has.
pub fn rows_of(alloc: Global, catalog: &Catalog, text: &[u8]) -> Result<Rows, Wrong>
    requires { 0 < length catalog.now }
{
    match Loader::load(alloc, catalog, 0, &mut MemoryIn::new(text, None)) {
        Ok(loaded) => Ok(in_two_chunks(alloc, loaded)?),
        Err(fault) => Err(Wrong::Said(format!(in alloc; "{fault}")?)),
    }
}

// Writes the rows `rows` with room for the first `room` bytes of their text `text`: the writer has these, and says that
// it failed.
fn compare_room(
    alloc: Global,
    names: &[String],
    rows: &Rows,
    text: &[u8],
    room: usize,
) -> Result<(), Wrong>
    requires { room ≤ length text.now }
{
    let mut writer = MemoryOut::new(alloc, 10, room);
    match write_rows(alloc, names, rows, &mut writer) {
        Ok(()) => return Err(told(alloc, "all was written")),
        Err(fault) => {
            let said = format!(in alloc; "{fault}")?;
            expect(alloc, said.as_bytes(), b"WriteFailed", "the writer")?;
        }
    }
    expect(alloc, writer.bytes(), &text[..room], "written")
}

/// Writes the rows of the text `text`, which is `wanted` again, with room for no byte, for one, and so on to all but one.
pub fn compare_rooms(
    alloc: Global,
    setting: Setting<'_>,
    text: &[u8],
    wanted: &[u8],
) -> Result<(), Wrong> {
    let catalog = catalog_of(alloc, setting.catalog)?;
    let rows = rows_of(alloc, &catalog, text)?;
    for room in 0..wanted.len() {
        compare_room(alloc, catalog.get(0).names(), &rows, wanted, room)?;
    }
    Ok(())
}

// Compares the text of the rows `rows` under the names `names`, made in each of the ways `ways`, with the text `wanted`.
fn compare_texts<R: Threads + Sync>(
    rt: &R,
    alloc: Global,
    ways: &str,
    names: &[String],
    rows: &Rows,
    wanted: &[u8],
) -> Result<(), Wrong> {
    for words in ways.split(", ") {
        let Some(way) = Way::of(words) else {
            return Err(told(alloc, "this is no way"));
        };
        let said = way.format(rt, alloc, names, rows)?;
        expect(alloc, said.as_slice(), wanted, words)?;
    }
    Ok(())
}

/// Compares the text of the rows of `text` without any column, made in each way, with the text `wanted`.
pub fn compare_no_columns<R: Threads + Sync>(
    rt: &R,
    alloc: Global,
    setting: Setting<'_>,
    text: &[u8],
    wanted: &[u8],
) -> Result<(), Wrong> {
    let catalog = catalog_of(alloc, setting.catalog)?;
    let rows = rows_of(alloc, &catalog, text)?.project(alloc, &[])?;
    compare_texts(rt, alloc, setting.ways, &[], &rows, wanted)
}

/// Compares the text of the second of two columns of the rows of `text`, made in each way, with the text `wanted`.
pub fn compare_second<R: Threads + Sync>(
    rt: &R,
    alloc: Global,
    setting: Setting<'_>,
    text: &[u8],
    wanted: &[u8],
) -> Result<(), Wrong> {
    let catalog = catalog_of(alloc, setting.catalog)?;
    let names = catalog.get(0).names();
    let rows = rows_of(alloc, &catalog, text)?;
    if names.len() != 2 || rows.types().len() != 2 {
        return Err(told(alloc, "there are not two columns"));
    }
    let rows = rows.project(alloc, &[1])?;
    compare_texts(rt, alloc, setting.ways, &names[1..], &rows, wanted)
}
