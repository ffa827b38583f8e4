//! Texts that are loaded and written again, by one thread and in several ways by threads, and readers that fail.

ghost use Rattle.std.specs.Prelude.{◌<◌, length};

use crate::case::Setting;
use crate::catalogs::catalog_of;
use crate::expect::{Wrong, expect, told};
use crate::way::Way;
use std::alloc::{AllocError, Global};
use std::sync::Arc;
use std::thread::Threads;
use vx_catalog::{Database, LoadFault, Loaded, Loader, write_rows};
use vx_catalog_bytes::{MemoryIn, Real};
use vx_catalog_relations::Catalog;
use vx_rows::Table;
use vx_rows_views::Rows;

// The line of the refusal `fault`.
fn refusal(alloc: Global, fault: LoadFault) -> Result<Vec<u8>, AllocError> {
    Ok(format!(in alloc; "{fault}")?.into_bytes())
}

// The text of the rows `rows` under the names `names`, written into memory that has room for `room` bytes before.
fn written(
    alloc: Global,
    names: &[String],
    rows: &Rows,
    room: usize,
) -> Result<Vec<u8>, AllocError> {
    let mut text = Vec::with_capacity(alloc, room)?;
    let answer = write_rows(alloc, names, rows, &mut Real::new(&mut text));
    match answer {
        Ok(()) => Ok(text),
        Err(fault) => Ok(format!(in alloc; "{fault}")?.into_bytes()),
    }
}

// The text of the rows `loaded` of relation 0 of the catalog `catalog`, written from a database that they are put into. There
// is room for `room` bytes of it.
fn put_and_written(
    alloc: Global,
    catalog: &Catalog,
    loaded: Loaded,
    room: usize,
) -> Result<Vec<u8>, AllocError>
    requires { 0 < length catalog.now }
{
    let mut database = Database::empty(alloc, catalog)?;
    if database.put(loaded).is_err() {
        return Vec::from_slice(alloc, b"rows of another catalog");
    }
    written(alloc, catalog.get(0).names(), database.rows(0), room)
}

// What one thread answers to the text `text`, of which the reader fails after `fails_after` bytes, if that is some: the
// text of the rows, for which there is room for `room` bytes, or the refusal.
fn by_one(
    alloc: Global,
    catalog: &Catalog,
    text: &[u8],
    fails_after: Option<usize>,
    room: usize,
) -> Result<Vec<u8>, AllocError>
    requires { 0 < length catalog.now }
{
    let mut reader = MemoryIn::new(text, fails_after);
    match Loader::load(alloc, catalog, 0, &mut reader) {
        Ok(loaded) => put_and_written(alloc, catalog, loaded, room),
        Err(fault) => refusal(alloc, fault),
    }
}

/// The rows `loaded` in two chunks, which outlive their database.
pub fn in_two_chunks(alloc: Global, loaded: Loaded) -> Result<Rows, AllocError> {
    let count = loaded.rows().len();
    let mut rows = loaded.rows().slice(alloc, 0, count / 2)?;
    rows.append(loaded.rows().slice(alloc, count / 2, count)?)?;
    Ok(rows)
}

// What threads answer to the text `text` in the way `way`, where the reader may fail after `fails_after` bytes: the text of
// the rows, made in that way, or the refusal.
fn by_threads<R: Threads + Sync>(
    rt: &R,
    alloc: Global,
    catalog: &Catalog,
    text: &[u8],
    fails_after: Option<usize>,
    way: Way,
) -> Result<Vec<u8>, AllocError>
    requires { 0 < length catalog.now }
{
    let mut reader = MemoryIn::new(text, fails_after);
    match way.load(rt, alloc, catalog, &mut reader) {
        Ok(loaded) => {
            let rows = in_two_chunks(alloc, loaded)?;
            way.format(rt, alloc, catalog.get(0).names(), &rows)
        }
        Err(fault) => refusal(alloc, fault),
    }
}

/// Compares what the text `text` is loaded as and written again, by one thread and by threads in each way, with the text
/// `wanted`. The reader fails after `fails_after` bytes, if that is some.
pub fn compare_ways<R: Threads + Sync>(
    rt: &R,
    alloc: Global,
    setting: Setting<'_>,
    text: &[u8],
    fails_after: Option<usize>,
    wanted: &[u8],
) -> Result<(), Wrong> {
    let catalog = catalog_of(alloc, setting.catalog)?;
    let said = by_one(alloc, &catalog, text, fails_after, wanted.len())?;
    expect(alloc, said.as_slice(), wanted, "one thread")?;
    for words in setting.ways.split(", ") {
        let Some(way) = Way::of(words) else {
            return Err(told(alloc, "this is no way"));
        };
        let said = by_threads(rt, alloc, &catalog, text, fails_after, way)?;
        expect(alloc, said.as_slice(), wanted, words)?;
    }
    Ok(())
}

/// Compares what is said of the text `text` where its reader fails, after no byte, after one, and so on to the last, with
/// the text `wanted`.
pub fn compare_failing<R: Threads + Sync>(
    rt: &R,
    alloc: Global,
    setting: Setting<'_>,
    text: &[u8],
    wanted: &[u8],
) -> Result<(), Wrong> {
    for count in 0..text.len() {
        compare_ways(rt, alloc, setting, text, Some(count), wanted)?;
    }
    compare_ways(rt, alloc, setting, text, Some(text.len()), wanted)
}
