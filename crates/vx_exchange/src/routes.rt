//! The consumers of rows by their values in some columns.

ghost use Rattle.std.specs.Prelude.{◌≡◌, ◌<◌, ◌++◌, length, map, IfOk, OnOk};
ghost use Rattle.vx_rows_values.specs.Values.{pick, value_at};
ghost use Rattle.vx_plan_nodes.specs.Routes.{range_consumer};
ghost use Rattle.vx_rows_values.specs.ValueView.{val_of};
ghost use Rattle.vx_rows.specs.View.{row, AreColumns};
ghost use Rattle.vx_exchange.specs.Routed.{key_columns, routed_to};

use crate::ranges::Ranges;
use std::alloc::{AllocError, Global};
use vx_match_keys::IntColumn;
use vx_plan_nodes::Router;
use vx_rows::put_key;
use vx_rows_values::{Cell, Value};
use vx_rows_views::{Chunk, Rows};

// How many numbers are routed at once.
const BLOCK: usize = 64;

/// How the consumer of a row follows from its values in some columns.
#[derive(Drop)]
pub enum KeyRoute {
    /// By the hash route of this name, from the values in these columns.
    Hash(String, Vec<usize>),
    /// By the declared range with this number, which has these bounds, from the value in this column.
    Range(usize, Ranges, usize),
}

// Makes a key the values of a row in some columns, whatever stood there. Texts of the key keep their capacity, so mostly nothing is allocated.
fn set_key(
    alloc: Global,
    key: &mut Vec<Value>,
    chunk: &Chunk,
    i: usize,
    columns: &[usize],
) -> Result<(), AllocError>
    requires row { i < length chunk.now.rows }
    requires columns { AreColumns (length chunk.now.types) columns.now }
    ensures { OnOk result (map val_of key.new.items ≡ pick columns.now (row chunk.now i)) }
{
    key.truncate(columns.len());
    for c in 0..columns.len() {
        put_key(alloc, key, c, chunk.cell(i, columns[c]))?;
    }
    Ok(())
}

// Adds the consumers of rows by the hash route `name`, where the key of each row is one number. It reads and routes up to `BLOCK`
// numbers at once, since a router may do that faster than one by one.
fn push_of_numbers<R: Router>(
    router: &R,
    name: &str,
    keys: &IntColumn<'_>,
    n: u32,
    found: &mut Vec<u32>,
) -> Result<(), AllocError>
    requires some { 0 < n }
    ensures { OnOk result (found.new.items ≡ found.old.items ++ map (λ key. R.route_of router.now name.now key n) keys.now) }
{
    let count = keys.len();
    let mut numbers = [0; BLOCK];
    let mut consumers = [0; BLOCK];
    let mut from = 0;
    while from < count {
        let block = BLOCK.min(count - from);
        keys.read(from, &mut numbers[..block]);
        router.route_numbers(name, &numbers[..block], n, &mut consumers[..block]);
        found.extend_from_slice(&consumers[..block])?;
        from += block;
    }
    Ok(())
}

// Adds the consumers of rows by ranges, where the value of each row that decides is a number.
fn push_of_ranges(
    ranges: &Ranges,
    keys: &IntColumn<'_>,
    n: u32,
    found: &mut Vec<u32>,
) -> Result<(), AllocError>
    requires some { 0 < n }
    ensures { OnOk result (found.new.items ≡ found.old.items ++ map (λ key. range_consumer ranges.now (value_at key 0) n) keys.now) }
{
    for i in 0..keys.len() {
        found.push(ranges.consumer(Cell::Int(keys.get(i)), n))?;
    }
    Ok(())
}

impl KeyRoute {
    // The consumer of a row among n. The key is room for the values of a row, whatever stands there.
    fn consumer_of<R: Router>(
        &self,
        alloc: Global,
        router: &R,
        chunk: &Chunk,
        i: usize,
        n: u32,
        key: &mut Vec<Value>,
    ) -> Result<u32, AllocError>
        requires some { 0 < n }
        requires row { i < length chunk.now.rows }
        requires columns { AreColumns (length chunk.now.types) (key_columns self.now) }
        ensures { IfOk result (λ k. k ≡ routed_to (R.route_of router.now) self.now n (row chunk.now i)) }
    {
        match self {
            KeyRoute::Hash(name, columns) => {
                set_key(alloc, key, chunk, i, columns.as_slice())?;
                return Ok(router.route(name.as_str(), key.as_slice(), n));
            }
            KeyRoute::Range(_, ranges, column) => {
                return Ok(ranges.consumer(chunk.cell(i, *column), n));
            }
        }
    }

    // Adds the consumers of the rows of a chunk.
    fn push_consumers<R: Router>(
        &self,
        alloc: Global,
        router: &R,
        chunk: &Chunk,
        n: u32,
        key: &mut Vec<Value>,
        found: &mut Vec<u32>,
    ) -> Result<(), AllocError>
        requires some { 0 < n }
        requires columns { AreColumns (length chunk.now.types) (key_columns self.now) }
        ensures { OnOk result (found.new.items ≡ found.old.items ++ map (routed_to (R.route_of router.now) self.now n) chunk.now.rows) }
    {
        match self {
            KeyRoute::Hash(name, columns) => {
                if let Some(keys) = IntColumn::of(chunk, columns.as_slice()) {
                    return push_of_numbers(router, name.as_str(), &keys, n, found);
                }
            }
            KeyRoute::Range(_, ranges, column) => {
                if let Some(keys) = IntColumn::of(chunk, &[*column]) {
                    return push_of_ranges(ranges, &keys, n, found);
                }
            }
        }
        for i in 0..chunk.len() {
            let consumer = self.consumer_of(alloc, router, chunk, i, n, key)?;
            found.push(consumer)?;
        }
        Ok(())
    }
}

/// Finds the consumer of each row among n, whatever stood in `found`.
pub fn consumers_of<R: Router>(
    alloc: Global,
    route: &KeyRoute,
    router: &R,
    rows: &Rows,
    n: u32,
    found: &mut Vec<u32>,
) -> Result<(), AllocError>
    requires some { 0 < n }
    requires columns { AreColumns (length rows.now.types) (key_columns route.now) }
    ensures { OnOk result (found.new.items ≡ map (routed_to (R.route_of router.now) route.now n) rows.now.rows) }
{
    found.clear();
    found.reserve(rows.len())?;
    let mut key = Vec::new(alloc);
    let chunks = rows.chunks();
    for i in 0..chunks.len() {
        route.push_consumers(alloc, router, &chunks[i], n, &mut key, found)?;
    }
    Ok(())
}
