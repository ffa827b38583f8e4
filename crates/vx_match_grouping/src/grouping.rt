//! Grouping: rows by key, each key with the aggregates of its rows.

ghost use Rattle.std.specs.Prelude.{◌≡◌, ◌<◌, ◌≤◌, ◌++◌, [], ℕ, List, All, length, map, OnOk, IfOk, IfErr, IfSome, Some, Err, true};
ghost use Rattle.std.specs.List.{list_all};
ghost use Rattle.vx_rows_values.specs.Values.{Row as Cells, pick};
ghost use Rattle.vx_rows_values.specs.ValueView.{cell_val};
ghost use Rattle.vx_rows.specs.View.{AreColumns};
ghost use Rattle.vx_rows_views.specs.Chunks.{all_rows};
ghost use Rattle.vx_match_keys.specs.Numbers.{numbers_of};
ghost use Rattle.vx_plan_nodes.specs.Plan.{group, plain};
ghost use Rattle.vx_plan_nodes.specs.Types.{unary_types, aggregate_type};
ghost use Rattle.vx_plan_nodes.specs.Serial.{group_keys, group_rows};
ghost use Rattle.vx_plan_nodes.specs.Outline.{aggregate_of as op_of};
ghost use Rattle.vx_match_grouping.specs.Groups.{HasTaken, HasTakenSome, column_of, held_at, held_fits};
ghost use Rattle.vx_match_grouping.specs.Shown.{column_held, aggregate_in};
ghost use Rattle.vx_match_grouping.specs.GroupFaults.{GroupBlame, TakeBlame, EndBlame, CellsBlame};

use crate::column::AggregateColumn;
use crate::fault::GroupFault;
use std::alloc::{AllocError, Global};
use std::marker::Model;
use vx_match_keys::Keys;
use vx_ops_kernels::types_at;
use vx_plan_nodes::Aggregate;
use vx_rows::Table;
use vx_rows_values::{Cell, ColType, KeySeed};
use vx_rows_views::{Chunk, Rows};

// How many rows are numbered at once: few enough that their numbers stay in the cache until each aggregate has read them.
const BLOCK: usize = 4_096;

/// Calls: `new add* finish`, and no `finish` after an `Err`.
///
/// Rows by key, in order of first occurrence: each key with the aggregates of its rows.
pub struct Grouping {
    types: Vec<ColType>,
    by: Vec<usize>,
    keys: Keys,
    columns: Vec<AggregateColumn>,
    failed: Option<GroupFault>,
    // Room for the numbers of the keys of a block, and for those of a column, whatever stands there: a batch that needs no more allocates none.
    numbers: Vec<usize>,
    room: Vec<i64>,
    alloc: Global,
}

impl Drop for Grouping {
    fn drop(self) {
        let Grouping {
            types: _,
            by: _,
            keys: _,
            columns: _,
            failed: _,
            numbers: _,
            room: _,
            alloc: _,
        } = self;
    }
}

impl Model for Grouping {
    ghost use Rattle.std.specs.Prelude.{length, map};
    ghost use Rattle.vx_rows.specs.View.{AreColumns};
    ghost use Rattle.vx_match_grouping.specs.Groups.{Groups};
    ghost use Rattle.vx_match_grouping.specs.Shown.{column_held, aggregate_in};

    ghost Value = { Groups };

    ghost view = { λ g. record { types = g.types.items; by = g.by.items; aggregates = map aggregate_in g.columns.items; keys = g.keys; columns = map column_held g.columns.items; failed = g.failed } };

    ghost invariant = { λ g. AreColumns (length g.types.items) g.by.items };
}

// Adds the rows of a chunk to each aggregate, whose groups have these numbers. After an `Err` some groups may have some of them.
// `room` is for the numbers of a column, whatever stands there.
fn add_columns(
    alloc: Global,
    columns: &mut Vec<AggregateColumn>,
    chunk: &Chunk,
    numbers: &[usize],
    room: &mut Vec<i64>,
) -> Result<(), GroupFault>
    requires { length numbers.now ≡ length chunk.now.rows }
    ensures aggregates { map aggregate_in columns.new.items ≡ map aggregate_in columns.old.items }
    ensures taken { OnOk result ((by : List ℕ) (xs : List Cells) → numbers.now ≡ numbers_of (group_keys by xs) (map (pick by) chunk.now.rows) → map column_held columns.old.items ≡ map (column_of by xs) (map aggregate_in columns.old.items) → map column_held columns.new.items ≡ map (column_of by (xs ++ chunk.now.rows)) (map aggregate_in columns.old.items)) }
    ensures err { IfErr result (λ e. (by : List ℕ) (xs : List Cells) → numbers.now ≡ numbers_of (group_keys by xs) (map (pick by) chunk.now.rows) → map column_held columns.old.items ≡ map (column_of by xs) (map aggregate_in columns.old.items) → TakeBlame e (xs ++ chunk.now.rows)) }
{
    for place in 0..columns.len() {
        columns[place].add(alloc, chunk, numbers, room)?;
    }
    Ok(())
}

// The values of a key, and behind them those of the aggregates of the group with its number.
fn cells_of<'a>(
    key: Vec<Cell<'a>>,
    columns: &'a [AggregateColumn],
    number: usize,
) -> Result<Vec<Cell<'a>>, GroupFault>
    requires { All (λ c. number < length (column_held c)) columns.now }
    ensures cells { IfOk result (λ v. map cell_val v.items ≡ map cell_val key.entry.items ++ map (λ h. h.value) (held_at number (map column_held columns.now))) }
    ensures fit { OnOk result (list_all held_fits (held_at number (map column_held columns.now)) ≡ true) }
    ensures err { IfErr result (λ e. CellsBlame e (held_at number (map column_held columns.now))) }
{
    let mut cells = key;
    for column in columns {
        let Some(cell) = column.cell(number) else {
            return Err(GroupFault::Overflow);
        };
        cells.push(cell)?;
    }
    Ok(cells)
}

// No groups, for each aggregate.
fn empty_columns(
    alloc: Global,
    aggregates: &[Aggregate],
) -> Result<Vec<AggregateColumn>, AllocError>
    ensures aggregates { IfOk result (λ v. map aggregate_in v.items ≡ map op_of aggregates.now) }
    ensures none { IfOk result (λ v. map column_held v.items ≡ map (column_of [] []) (map op_of aggregates.now)) }
{
    let mut columns = Vec::with_capacity(alloc, aggregates.len())?;
    for aggregate in aggregates {
        columns.push(AggregateColumn::new(alloc, *aggregate))?;
    }
    Ok(columns)
}

// The types of these aggregates: a least and a greatest value have the column's type, a sum and a count are numbers.
fn aggregate_type(types: &[ColType], aggregate: Aggregate) -> ColType
    ensures { result ≡ aggregate_type types.now (op_of aggregate) }
{
    match aggregate {
        Aggregate::Least(c) | Aggregate::Greatest(c) => match types.get(c) {
            Some(kind) => *kind,
            None => ColType::Int,
        },
        Aggregate::Sum(_) | Aggregate::CountRows => ColType::Int,
    }
}

// The types of the columns of a group: those of the key, then those of the aggregates.
fn group_types(
    alloc: Global,
    types: &[ColType],
    by: &[usize],
    columns: &[AggregateColumn],
) -> Result<Vec<ColType>, AllocError>
    requires { AreColumns (length types.now) by.now }
    ensures { IfOk result (λ v. v.items ≡ unary_types (group plain by.now (map aggregate_in columns.now)) types.now) }
{
    let mut found = types_at(alloc, types, by)?;
    for column in columns {
        found.push(aggregate_type(types, column.aggregate()))?;
    }
    Ok(found)
}

impl Grouping {
    /// A grouping of no rows, which are to have these types, and whose keys are to be hashed by this seed.
    pub fn new(
        alloc: Global,
        seed: KeySeed,
        types: &[ColType],
        by: &[usize],
        aggregates: &[Aggregate],
    ) -> Result<Grouping, AllocError>
        requires { AreColumns (length types.now) by.now }
        ensures types { IfOk result (λ g. g.types ≡ types.now) }
        ensures by { IfOk result (λ g. g.by ≡ by.now) }
        ensures aggregates { IfOk result (λ g. g.aggregates ≡ map op_of aggregates.now) }
        ensures nothing { IfOk result (λ g. HasTaken g []) }
    {
        Ok(Grouping {
            types: Vec::from_slice(alloc, types)?,
            by: Vec::from_slice(alloc, by)?,
            keys: Keys::new(alloc, seed),
            columns: empty_columns(alloc, aggregates)?,
            failed: None,
            numbers: Vec::new(alloc),
            room: Vec::new(alloc),
            alloc,
        })
    }

    // Adds the rows of a block behind those that were added. After an `Err` some aggregates may have some of them.
    fn add_block(&mut self, block: &Chunk) -> Result<(), GroupFault>
        requires types { block.now.types ≡ self.old.types }
        ensures types { self.new.types ≡ self.old.types }
        ensures by { self.new.by ≡ self.old.by }
        ensures aggregates { self.new.aggregates ≡ self.old.aggregates }
        ensures failed { self.new.failed ≡ self.old.failed }
        ensures taken { OnOk result ((xs : List Cells) → HasTaken self.old xs → HasTaken self.new (xs ++ block.now.rows)) }
        ensures err { IfErr result (λ e. (xs : List Cells) → HasTaken self.old xs → TakeBlame e (xs ++ block.now.rows)) }
    {
        // each row fits the types
        let _types = block.types();
        self.numbers.clear();
        self.keys.number_chunk(block, &self.by, &mut self.numbers)?;
        add_columns(
            self.alloc,
            &mut self.columns,
            block,
            self.numbers.as_slice(),
            &mut self.room,
        )
    }

    // Adds the rows of a chunk behind those that were added. After an `Err` some aggregates may have some of them.
    fn add_chunk(&mut self, chunk: &Chunk) -> Result<(), GroupFault>
        requires types { chunk.now.types ≡ self.old.types }
        ensures types { self.new.types ≡ self.old.types }
        ensures by { self.new.by ≡ self.old.by }
        ensures aggregates { self.new.aggregates ≡ self.old.aggregates }
        ensures failed { self.new.failed ≡ self.old.failed }
        ensures taken { OnOk result ((xs : List Cells) → HasTaken self.old xs → HasTaken self.new (xs ++ chunk.now.rows)) }
        ensures err { IfErr result (λ e. (xs : List Cells) → HasTaken self.old xs → TakeBlame e (xs ++ chunk.now.rows)) }
    {
        let count = chunk.len();
        if count <= BLOCK {
            return self.add_block(chunk);
        }
        let mut from = 0;
        while from < count {
            let most = BLOCK.min(count - from);
            let block = chunk.slice(self.alloc, from, from + most)?;
            self.add_block(&block)?;
            from += most;
        }
        Ok(())
    }

    // Adds the rows of chunks behind those that were added. After an `Err` some aggregates may have some of them.
    fn add_chunks(&mut self, chunks: &[Chunk]) -> Result<(), GroupFault>
        requires types { All (λ c. c.types ≡ self.old.types) chunks.now }
        ensures types { self.new.types ≡ self.old.types }
        ensures by { self.new.by ≡ self.old.by }
        ensures aggregates { self.new.aggregates ≡ self.old.aggregates }
        ensures failed { self.new.failed ≡ self.old.failed }
        ensures taken { OnOk result ((xs : List Cells) → HasTaken self.old xs → HasTaken self.new (xs ++ all_rows chunks.now)) }
        ensures err { IfErr result (λ e. (xs : List Cells) → HasTaken self.old xs → TakeBlame e (xs ++ all_rows chunks.now)) }
    {
        for i in 0..chunks.len() {
            self.add_chunk(&chunks[i])?;
        }
        Ok(())
    }

    /// Adds the rows of a batch behind those that were added. After an `Err` it fails with this error at each later
    /// batch too.
    pub fn add_rows(&mut self, batch: &Rows) -> Result<(), GroupFault>
        requires types { batch.now.types ≡ self.old.types }
        ensures types { self.new.types ≡ self.old.types }
        ensures by { self.new.by ≡ self.old.by }
        ensures aggregates { self.new.aggregates ≡ self.old.aggregates }
        ensures taken { OnOk result ((xs : List Cells) → HasTaken self.old xs → HasTaken self.new (xs ++ batch.now.rows)) }
        ensures err { IfErr result (λ e. (xs : List Cells) → HasTaken self.old xs → TakeBlame e (xs ++ batch.now.rows)) }
        ensures failed { IfErr result (λ e. self.new.failed ≡ Some e) }
        ensures again { IfSome self.old.failed (λ e. result ≡ Err e) }
    {
        if let Some(fault) = self.failed {
            return Err(fault);
        }
        match self.add_chunks(batch.chunks()) {
            Ok(()) => Ok(()),
            Err(fault) => {
                self.failed = Some(fault);
                Err(fault)
            }
        }
    }

    /// Each key with the aggregates of its rows, in order of first occurrence.
    pub fn finish(&self) -> Result<Table, GroupFault>
        requires { HasTakenSome self.now }
        ensures types { IfOk result (λ r. r.types ≡ unary_types (group plain self.now.by self.now.aggregates) self.now.types) }
        ensures rows { IfOk result (λ r. (xs : List Cells) → HasTaken self.now xs → group_rows self.now.by self.now.aggregates xs ≡ Some r.rows) }
        ensures err { IfErr result (λ e. (xs : List Cells) → HasTaken self.now xs → EndBlame e self.now.by self.now.aggregates xs) }
    {
        let types = group_types(self.alloc, &self.types, &self.by, &self.columns)?;
        let mut found = Table::new(self.alloc, types.as_slice())?;
        for number in 0..self.keys.len() {
            let key = self.keys.cells(number)?;
            let cells = cells_of(key, &self.columns, number)?;
            found.push_cells(cells.as_slice())?;
        }
        Ok(found)
    }
}

/// The rows by key: for each key, in order of first occurrence, the key and the aggregates of its rows.
pub fn grouped(
    alloc: Global,
    seed: KeySeed,
    rows: &Rows,
    by: &[usize],
    aggregates: &[Aggregate],
) -> Result<Table, GroupFault>
    requires { AreColumns (length rows.now.types) by.now }
    ensures types { IfOk result (λ r. r.types ≡ unary_types (group plain by.now (map op_of aggregates.now)) rows.now.types) }
    ensures rows { IfOk result (λ r. group_rows by.now (map op_of aggregates.now) rows.now.rows ≡ Some r.rows) }
    ensures err { IfErr result (λ e. GroupBlame e by.now (map op_of aggregates.now) rows.now.rows) }
{
    let mut grouping = Grouping::new(alloc, seed, rows.types(), by, aggregates)?;
    grouping.add_rows(rows)?;
    grouping.finish()
}
