//! Rows whose values lie in several shared tables side by side.

ghost use Rattle.std.specs.Prelude.{◌≡◌, ◌↔◌, ◌+◌, ◌^◌, ◌<◌, ◌≤◌, ◌++◌, [], true, length, map, zip, slice_index_or, slice_range, All, IfOk, IfSome, IfNone, IsTrue, OnOk};
ghost use Rattle.std.specs.List.{AllByRecursion};
ghost use Rattle.std.specs.Arc.{arc_value, arc_slice_items};
ghost use Rattle.vx_rows_values.specs.declared.value.ColType.TheVariants as kind;
ghost use Rattle.vx_rows_values.specs.Values.{value_at, pick};
ghost use Rattle.vx_rows_values.specs.ValueView.{cell_val};
ghost use Rattle.vx_rows_values.specs.Types.{type_at, Fits};
ghost use Rattle.vx_rows.specs.View.{row, AreColumns, ArePositions};
ghost use Rattle.vx_rows.specs.Lists.{each_below};
ghost use Rattle.vx_rows_views.specs.Chunks.{sliced, chosen, field_at, own_field, shifted};
ghost use Rattle.vx_rows_views.specs.Selected.{of_number, places_of, AreNumbers, AreTexts};
ghost use Rattle.vx_rows_views.specs.Seen.{seen_positions};

use crate::places::NumberTest;
use crate::positions::PositionsRef;
use crate::table_rows::TableRows;
use std::alloc::{AllocError, Global};
use std::marker::Model;
use std::sync::{Arc, ArcSlice};
use vx_rows::{Numbers, Table, Texts};
use vx_rows_values::{Cell, ColType};

/// Where the values of a column lie: a part, and a column of it.
#[derive(Clone, Copy)]
pub struct Field {
    pub part: usize,
    pub column: usize,
}

/// Rows whose values lie in several shared tables side by side. Columns of one table share one list of positions. What a chunk
/// says of its columns is shared by the chunks that are cut from it.
pub struct Chunk {
    types: ArcSlice<ColType>,
    parts: Vec<TableRows>,
    fields: ArcSlice<Field>,
    count: usize,
}

impl Drop for Chunk {
    fn drop(self) {
        let Chunk {
            types: _,
            parts: _,
            fields: _,
            count: _,
        } = self;
    }
}

impl Model for Chunk {
    ghost use Rattle.std.specs.Arc.{arc_slice_items};
    ghost use Rattle.vx_rows.specs.View.{RowsView};
    ghost use Rattle.vx_rows.specs.Lists.{each_below};

    ghost Value = { RowsView };

    ghost use Rattle.vx_rows_views.specs.Chunks.{row_in, IsChunk};

    ghost view = { λ c. record { types = arc_slice_items c.types; rows = each_below c.count (row_in c.parts.items (arc_slice_items c.fields)) } };

    ghost invariant = { λ c. IsChunk (arc_slice_items c.types) c.parts.items (arc_slice_items c.fields) c.count };
}

impl Chunk {
    /// The rows of a table from `from` up to `to`, with all columns. No cell is copied.
    pub fn of(alloc: Global, base: &Arc<Table>, from: usize, to: usize) -> Result<Chunk, AllocError>
        requires order { from ≤ to }
        requires there { to ≤ length (arc_value base.now).rows }
        ensures types { IfOk result (λ c. c.types ≡ (arc_value base.now).types) }
        ensures rows { IfOk result (λ c. c.rows ≡ slice_range (arc_value base.now).rows from to) }
    {
        let types = ArcSlice::from_slice(alloc, base.types())?;
        let fields = ArcSlice::from_vec(own_fields(alloc, types.len())?)?;
        let part = TableRows::of(base, from, to)?;
        let count = to - from;
        let mut parts = Vec::with_capacity(alloc, 1)?;
        parts.push(part)?;
        Ok(Chunk {
            types,
            parts,
            fields,
            count,
        })
    }

    /// How many rows there are.
    pub fn len(&self) -> usize
        ensures { result ≡ length self.now.rows }
    {
        self.count
    }

    /// Whether there are no rows.
    pub fn is_empty(&self) -> bool
        ensures { IsTrue result ↔ (self.now.rows ≡ []) }
    {
        self.len() == 0
    }

    /// The types of the columns, which each row fits.
    pub fn types(&self) -> &[ColType]
        ensures types { result.now ≡ self.now.types }
        ensures fit { AllByRecursion (Fits self.now.types) self.now.rows }
    {
        self.types.as_slice()
    }

    /// The value of a row in a column.
    pub fn cell(&self, i: usize, column: usize) -> Cell<'_>
        requires row { i < length self.now.rows }
        requires column { column < length self.now.types }
        ensures { cell_val result ≡ value_at (row self.now i) column }
    {
        let field = field_of(&self.fields, column);
        self.parts[field.part].cell(i, field.column)
    }

    /// The rows from `from` up to `to`.
    pub fn slice(&self, alloc: Global, from: usize, to: usize) -> Result<Chunk, AllocError>
        requires order { from ≤ to }
        requires there { to ≤ length self.now.rows }
        ensures types { IfOk result (λ c. c.types ≡ self.now.types) }
        ensures rows { IfOk result (λ c. c.rows ≡ slice_range self.now.rows from to) }
    {
        let parts = parts_slice(alloc, self.parts.as_slice(), from, to)?;
        let types = self.types.clone()?;
        let fields = self.fields.clone()?;
        Ok(Chunk {
            types,
            parts,
            fields,
            count: to - from,
        })
    }

    /// The rows at some places, in their order.
    pub fn at(&self, alloc: Global, places: &[usize]) -> Result<Chunk, AllocError>
        requires { ArePositions (length self.now.rows) places.now }
        ensures types { IfOk result (λ c. c.types ≡ self.now.types) }
        ensures rows { IfOk result (λ c. c.rows ≡ map (row self.now) places.now) }
    {
        let parts = parts_at(alloc, self.parts.as_slice(), places)?;
        let types = self.types.clone()?;
        let fields = self.fields.clone()?;
        Ok(Chunk {
            types,
            parts,
            fields,
            count: places.len(),
        })
    }

    /// These columns, in this order.
    pub fn project(self, alloc: Global, cols: &[usize]) -> Result<Chunk, AllocError>
        requires { AreColumns (length self.types) cols.now }
        ensures types { IfOk result (λ c. c.types ≡ map (type_at self.types) cols.now) }
        ensures rows { IfOk result (λ c. c.rows ≡ map (pick cols.now) self.rows) }
    {
        let types = ArcSlice::from_vec(types_at(alloc, self.types.as_slice(), cols)?)?;
        let fields = ArcSlice::from_vec(fields_at(alloc, self.fields.as_slice(), cols)?)?;
        let Chunk {
            types: _,
            parts,
            fields: _,
            count,
        } = self;
        Ok(Chunk {
            types,
            parts,
            fields,
            count,
        })
    }

    /// The same rows once more, by other handles on the same tables.
    pub fn share(&self, alloc: Global) -> Result<Chunk, AllocError>
        ensures { IfOk result (λ c. c ≡ self.now) }
    {
        Ok(self.slice(alloc, 0, self.len())?)
    }

    /// Rows of two others side by side: the first places together, then the second, and so on.
    pub fn joined(
        alloc: Global,
        left: &Chunk,
        left_places: &[usize],
        right: &Chunk,
        right_places: &[usize],
    ) -> Result<Chunk, AllocError>
        requires left { ArePositions (length left.now.rows) left_places.now }
        requires right { ArePositions (length right.now.rows) right_places.now }
        requires many { length left_places.now ≡ length right_places.now }
        ensures types { IfOk result (λ c. c.types ≡ left.now.types ++ right.now.types) }
        ensures rows { IfOk result (λ c. c.rows ≡ map (λ p. row left.now p.0 ++ row right.now p.1) (zip left_places.now right_places.now)) }
    {
        let left = left.at(alloc, left_places)?;
        let right = right.at(alloc, right_places)?;
        Ok(Chunk::beside(left, right)?)
    }

    /// Rows of two chunks side by side: the first of both, then the second, and so on. No cell is copied.
    pub fn beside(left: Chunk, right: Chunk) -> Result<Chunk, AllocError>
        requires { length left.rows ≡ length right.rows }
        ensures types { IfOk result (λ c. c.types ≡ left.types ++ right.types) }
        ensures rows { IfOk result (λ c. c.rows ≡ map (λ p. p.0 ++ p.1) (zip left.rows right.rows)) }
    {
        let alloc = *left.parts.allocator();
        let before = left.parts.len();
        let types = types_of_both(alloc, left.types.as_slice(), right.types.as_slice())?;
        let fields = fields_of_both(
            alloc,
            left.fields.as_slice(),
            right.fields.as_slice(),
            before,
        )?;
        let Chunk {
            types: _,
            mut parts,
            fields: _,
            count,
        } = left;
        let Chunk {
            types: _,
            parts: mut right_parts,
            fields: _,
            count: _,
        } = right;
        parts.append(&mut right_parts)?;
        Ok(Chunk {
            types,
            parts,
            fields,
            count,
        })
    }

    /// The places of the rows whose number in a column passes a test, or none where that of each row does.
    pub fn places_where<T: NumberTest>(
        &self,
        alloc: Global,
        column: usize,
        test: &T,
    ) -> Result<Option<Vec<usize>>, AllocError>
        requires column { column < length self.now.types }
        requires number { type_at self.now.types column ≡ kind.Int }
        ensures some { IfOk result (λ o. IfSome o (λ v. v.items ≡ places_of (λ r. of_number (T.says test.now) (value_at r column)) self.now.rows)) }
        ensures all { IfOk result (λ o. IfNone o (All (λ r. of_number (T.says test.now) (value_at r column) ≡ true) self.now.rows)) }
    {
        let field = field_of(&self.fields, column);
        self.parts[field.part].places_where(alloc, field.column, test)
    }

    /// The numbers of a column where they lie, and the positions in them of the rows, where it has numbers.
    pub fn numbers(&self, column: usize) -> Option<(&Numbers, PositionsRef<'_>)>
        requires { column < length self.now.types }
        ensures kind { IfSome result (λ _. type_at self.now.types column ≡ kind.Int) }
        ensures none { IfNone result (type_at self.now.types column ≡ kind.Text) }
        ensures values { IfSome result (λ r. AreNumbers r.0.now (seen_positions r.1) column self.now.rows) }
    {
        let field = field_of(&self.fields, column);
        self.parts[field.part].numbers(field.column)
    }

    /// The texts of a column where they lie, and the positions in them of the rows, where it has texts.
    pub fn texts(&self, column: usize) -> Option<(&Texts, PositionsRef<'_>)>
        requires { column < length self.now.types }
        ensures kind { IfSome result (λ _. type_at self.now.types column ≡ kind.Text) }
        ensures none { IfNone result (type_at self.now.types column ≡ kind.Int) }
        ensures values { IfSome result (λ r. AreTexts r.0.now (seen_positions r.1) column self.now.rows) }
    {
        let field = field_of(&self.fields, column);
        self.parts[field.part].texts(field.column)
    }

    // The part whose rows these are as they stand there, all columns in order, where there is one.
    pub(crate) fn only_part(&self) -> Option<&TableRows>
        ensures { IfSome result (λ p. p.now ≡ self.now) }
    {
        if self.parts.len() != 1 {
            return None;
        }
        let part = &self.parts[0];
        if are_own(self.fields.as_slice(), part.types().len()) {
            return Some(part);
        }
        None
    }
}

// The field of a column.
fn field_of(fields: &ArcSlice<Field>, column: usize) -> Field
    requires { column < length (arc_slice_items fields.now) }
    ensures { result ≡ slice_index_or (arc_slice_items fields.now) column result }
{
    fields.as_slice()[column]
}

// Adds the fields `others`, each with its part index increased by `before`.
fn push_shifted(fields: &mut Vec<Field>, others: &[Field], before: usize) -> Result<(), AllocError>
    requires { All (λ f. f.part + before < 2 ^ 64) others.now }
    ensures { OnOk result (fields.new.items ≡ fields.old.items ++ map (shifted before) others.now) }
{
    for i in 0..others.len() {
        let field = others[i];
        fields.push(Field {
            part: field.part + before,
            column: field.column,
        })?;
    }
    Ok(())
}

// Types, and others behind them.
fn types_of_both(
    alloc: Global,
    types: &[ColType],
    others: &[ColType],
) -> Result<ArcSlice<ColType>, AllocError>
    ensures { IfOk result (λ v. arc_slice_items v ≡ types.now ++ others.now) }
{
    let mut all = Vec::from_slice(alloc, types)?;
    all.extend_from_slice(others)?;
    ArcSlice::from_vec(all)
}

// The fields `fields`, then `others`, each of these with its part index increased by `before`.
fn fields_of_both(
    alloc: Global,
    fields: &[Field],
    others: &[Field],
    before: usize,
) -> Result<ArcSlice<Field>, AllocError>
    requires { All (λ f. f.part + before < 2 ^ 64) others.now }
    ensures { IfOk result (λ v. arc_slice_items v ≡ fields.now ++ map (shifted before) others.now) }
{
    let mut all = Vec::from_slice(alloc, fields)?;
    push_shifted(&mut all, others, before)?;
    ArcSlice::from_vec(all)
}

// Whether these fields are all columns of the first part, in order.
fn are_own(fields: &[Field], width: usize) -> bool
    ensures { IsTrue result → fields.now ≡ each_below width own_field }
{
    if fields.len() != width {
        return false;
    }
    for column in 0..width {
        let field = fields[column];
        if field.part != 0 || field.column != column {
            return false;
        }
    }
    true
}

// The parts at some places.
fn parts_at(
    alloc: Global,
    parts: &[TableRows],
    places: &[usize],
) -> Result<Vec<TableRows>, AllocError>
    requires { All (λ t. ArePositions (length t.rows) places.now) parts.now }
    ensures { IfOk result (λ v. v.items ≡ map (chosen places.now) parts.now) }
{
    let mut found = Vec::with_capacity(alloc, parts.len())?;
    for i in 0..parts.len() {
        let part = parts[i].at(alloc, places)?;
        found.push(part)?;
    }
    Ok(found)
}

// A part of the rows of each part.
fn parts_slice(
    alloc: Global,
    parts: &[TableRows],
    from: usize,
    to: usize,
) -> Result<Vec<TableRows>, AllocError>
    requires order { from ≤ to }
    requires there { All (λ t. to ≤ length t.rows) parts.now }
    ensures { IfOk result (λ v. v.items ≡ map (sliced from to) parts.now) }
{
    let mut found = Vec::with_capacity(alloc, parts.len())?;
    for i in 0..parts.len() {
        let part = parts[i].slice(from, to)?;
        found.push(part)?;
    }
    Ok(found)
}

// The types of some columns.
pub(crate) fn types_at(
    alloc: Global,
    types: &[ColType],
    cols: &[usize],
) -> Result<Vec<ColType>, AllocError>
    requires { AreColumns (length types.now) cols.now }
    ensures { IfOk result (λ v. v.items ≡ map (type_at types.now) cols.now) }
{
    let mut found = Vec::with_capacity(alloc, cols.len())?;
    for i in 0..cols.len() {
        found.push(types[cols[i]])?;
    }
    Ok(found)
}

// The fields of some columns.
fn fields_at(alloc: Global, fields: &[Field], cols: &[usize]) -> Result<Vec<Field>, AllocError>
    requires { AreColumns (length fields.now) cols.now }
    ensures { IfOk result (λ v. v.items ≡ map (field_at fields.now) cols.now) }
{
    let mut found = Vec::with_capacity(alloc, cols.len())?;
    for i in 0..cols.len() {
        found.push(fields[cols[i]])?;
    }
    Ok(found)
}

// All columns of one part.
fn own_fields(alloc: Global, n: usize) -> Result<Vec<Field>, AllocError>
    ensures { IfOk result (λ v. v.items ≡ each_below n own_field) }
{
    let mut fields = Vec::with_capacity(alloc, n)?;
    for column in 0..n {
        fields.push(Field { part: 0, column })?;
    }
    Ok(fields)
}
