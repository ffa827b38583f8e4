//! Projections whose columns may be computed. Computed columns stand beside those that are shared.

ghost use Rattle.std.specs.Prelude.{◌≡◌, ◌++◌, ◌∷◌, List, [], true, length, map, Some, All, IfOk, IfErr, OnOk};
ghost use Rattle.vx_plan_nodes.specs.Known.{knows, entry_known, unary_known};
ghost use Rattle.vx_plan_nodes.specs.Outline.{entry_of};
ghost use Rattle.vx_plan_nodes.specs.Plan.{Entry as PlanEntry, project};
ghost use Rattle.vx_plan_nodes.specs.Serial.{unary_rows};
ghost use Rattle.vx_plan_nodes.specs.Typed.{is_entry, is_unary};
ghost use Rattle.vx_plan_nodes.specs.Types.{expression_type, unary_types};
ghost use Rattle.vx_plan_nodes.specs.Under.{unary_under};
ghost use Rattle.vx_rows_views.specs.Chunks.{all_rows};
ghost use Rattle.vx_ops_computing.specs.Answers.{IsUnanswered, IsWidened};
ghost use Rattle.vx_ops_computing.specs.Fault.{Blames, ComputeBlame};
ghost use Rattle.vx_ops_computing.specs.Given.{expression_by, entry_by};
ghost use Rattle.vx_ops_computing.specs.Projecting.{IsProjecting, EntryFails};

use crate::blocks::evaluated_by_blocks;
use crate::columns::column_of;
use crate::fault::ComputeFault;
use std::alloc::{AllocError, Global};
use vx_plan_nodes::{Entry, Expression, PlanFunctions};
use vx_rows_values::ColType;
use vx_rows_views::{Chunk, Rows};

// The chunk with what an expression answers of each row of another one, of the same rows, as a further column.
fn with_column<F: PlanFunctions>(
    alloc: Global,
    functions: &F,
    wide: Chunk,
    chunk: &Chunk,
    expression: &Expression,
) -> Result<Chunk, ComputeFault>
    requires known { knows chunk.now.types (expression_by (F.functions functions.now) expression.now) ≡ true }
    requires long { length wide.rows ≡ length chunk.now.rows }
    ensures types { IfOk result (λ c. c.types ≡ wide.types ++ expression_type chunk.now.types (expression_by (F.functions functions.now) expression.now) ∷ []) }
    ensures rows { IfOk result (λ c. IsWidened (expression_by (F.functions functions.now) expression.now) chunk.now.rows wide.rows c.rows) }
    ensures fault { IfErr result (Blames (IsUnanswered (expression_by (F.functions functions.now) expression.now) chunk.now.rows)) }
{
    let operand = evaluated_by_blocks(alloc, functions, chunk, expression)?;
    let column = column_of(alloc, operand, chunk.len())?;
    Ok(Chunk::beside(wide, column)?)
}

// The columns so far with one for this entry, and its place behind those that are to be taken.
fn with_entry<F: PlanFunctions>(
    alloc: Global,
    functions: &F,
    wide: Chunk,
    columns: &mut Vec<usize>,
    chunk: &Chunk,
    entry: &Entry,
) -> Result<Chunk, ComputeFault>
    requires typed { is_entry chunk.now.types (entry_by (F.functions functions.now) entry.now) ≡ true }
    requires known { entry_known chunk.now.types (entry_by (F.functions functions.now) entry.now) ≡ true }
    requires long { length wide.rows ≡ length chunk.now.rows }
    ensures rows { IfOk result (λ c. (es : List PlanEntry) → IsProjecting chunk.now.types chunk.now.rows es wide columns.old.items
        → IsProjecting chunk.now.types chunk.now.rows (es ++ entry_by (F.functions functions.now) entry.now ∷ []) c columns.new.items) }
    ensures fault { IfErr result (Blames (EntryFails (entry_by (F.functions functions.now) entry.now) chunk.now.rows)) }
{
    match entry {
        Entry::Kept(kept) => {
            columns.push(kept.column)?;
            Ok(wide)
        }
        Entry::Made(expression) => {
            let place = wide.types().len();
            columns.push(place)?;
            with_column(alloc, functions, wide, chunk, expression)
        }
    }
}

// What a projection makes of the rows of a chunk.
fn projected_chunk<F: PlanFunctions>(
    alloc: Global,
    functions: &F,
    chunk: &Chunk,
    entries: &[Entry],
) -> Result<Chunk, ComputeFault>
    requires typed { is_unary chunk.now.types (project (map (entry_by (F.functions functions.now)) entries.now)) ≡ true }
    requires known { unary_known chunk.now.types (project (map (entry_by (F.functions functions.now)) entries.now)) ≡ true }
    ensures types { IfOk result (λ c. c.types ≡ unary_types (project (map (entry_by (F.functions functions.now)) entries.now)) chunk.now.types) }
    ensures rows { IfOk result (λ c. unary_rows (project (map (entry_by (F.functions functions.now)) entries.now)) chunk.now.rows ≡ Some c.rows) }
    ensures fault { IfErr result (ComputeBlame (unary_rows (project (map (entry_by (F.functions functions.now)) entries.now)) chunk.now.rows)) }
{
    // its rows fit its types
    let _types = chunk.types();
    let mut wide = chunk.share(alloc)?;
    let mut columns = Vec::new(alloc);
    for entry in entries {
        wide = with_entry(alloc, functions, wide, &mut columns, chunk, entry)?;
    }
    Ok(wide.project(alloc, columns.as_slice())?)
}

// The types of a projection's columns.
fn entry_types(
    alloc: Global,
    types: &[ColType],
    entries: &[Entry],
) -> Result<Vec<ColType>, AllocError>
    requires { is_unary types.now (project (map entry_of entries.now)) ≡ true }
    ensures { IfOk result (λ v. v.items ≡ unary_types (project (map entry_of entries.now)) types.now) }
{
    let mut found = Vec::new(alloc);
    for entry in entries {
        let kind = match entry {
            Entry::Kept(kept) => types[kept.column],
            Entry::Made(expression) => expression.answer_type(types),
        };
        found.push(kind)?;
    }
    Ok(found)
}

// Adds what a projection makes of the rows of chunks of these types.
fn add_projected<F: PlanFunctions>(
    alloc: Global,
    functions: &F,
    found: &mut Rows,
    entries: &[Entry],
    types: &[ColType],
    chunks: &[Chunk],
) -> Result<(), ComputeFault>
    requires typed { is_unary types.now (project (map (entry_by (F.functions functions.now)) entries.now)) ≡ true }
    requires known { unary_known types.now (project (map (entry_by (F.functions functions.now)) entries.now)) ≡ true }
    requires chunks { All (λ c. c.types ≡ types.now) chunks.now }
    requires types { found.old.types ≡ unary_types (project (map (entry_by (F.functions functions.now)) entries.now)) types.now }
    requires none { found.old.rows ≡ [] }
    ensures types { found.new.types ≡ found.old.types }
    ensures ok { OnOk result (unary_rows (project (map (entry_by (F.functions functions.now)) entries.now)) (all_rows chunks.now) ≡ Some found.new.rows) }
    ensures fault { IfErr result (ComputeBlame (unary_rows (project (map (entry_by (F.functions functions.now)) entries.now)) (all_rows chunks.now))) }
{
    for i in 0..chunks.len() {
        found.push(projected_chunk(alloc, functions, &chunks[i], entries)?)?;
    }
    Ok(())
}

/// What a projection makes of rows. Columns that are kept are not copied.
pub fn projected<F: PlanFunctions>(
    alloc: Global,
    functions: &F,
    rows: &Rows,
    entries: &[Entry],
) -> Result<Rows, ComputeFault>
    requires typed { is_unary rows.now.types (project (map entry_of entries.now)) ≡ true }
    requires known { unary_known rows.now.types (unary_under (F.functions functions.now) (project (map entry_of entries.now))) ≡ true }
    ensures types { IfOk result (λ r. r.types ≡ unary_types (project (map entry_of entries.now)) rows.now.types) }
    ensures rows { IfOk result (λ r. unary_rows (unary_under (F.functions functions.now) (project (map entry_of entries.now))) rows.now.rows ≡ Some r.rows) }
    ensures fault { IfErr result (ComputeBlame (unary_rows (unary_under (F.functions functions.now) (project (map entry_of entries.now))) rows.now.rows)) }
{
    let types = entry_types(alloc, rows.types(), entries)?;
    let mut found = Rows::new(alloc, types.as_slice())?;
    add_projected(
        alloc,
        functions,
        &mut found,
        entries,
        rows.types(),
        rows.chunks(),
    )?;
    Ok(found)
}
