//! Selections whose conditions may be computed. The computed ones are asked of all rows, for none of them is to overflow.

ghost use Rattle.std.specs.Prelude.{◌≡◌, ◌++◌, ◌∷◌, ℕ, ◌<◌, List, [], true, false, filter, length, map, pos, Some, All, IfOk, IfErr, OnOk, slice_index_or};
ghost use Rattle.std.specs.List.{list_all};
ghost use Rattle.vx_rows_values.specs.Values.{Row};
ghost use Rattle.vx_rows_values.specs.ValueView.{cell_val};
ghost use Rattle.vx_plan_nodes.specs.Expressions.{says_yes};
ghost use Rattle.vx_plan_nodes.specs.Known.{filter_known, unary_known};
ghost use Rattle.vx_plan_nodes.specs.Functions.{Functions};
ghost use Rattle.vx_plan_nodes.specs.Outline.{filter_of};
ghost use Rattle.vx_plan_nodes.specs.Plan.{Filter as PlanFilter, select};
ghost use Rattle.vx_plan_nodes.specs.Serial.{filter_fits, filters_fit, unary_rows};
ghost use Rattle.vx_plan_nodes.specs.Under.{unary_under};
ghost use Rattle.vx_functions.specs.Numbers.{holds};
ghost use Rattle.vx_rows_views.specs.Chunks.{all_rows};
ghost use Rattle.vx_ops_computing.specs.Computed.{comparisons_hold, computed_hold, IsMask, IsNarrowed};
ghost use Rattle.vx_ops_computing.specs.Fault.{Blames, ComputeBlame};
ghost use Rattle.vx_ops_computing.specs.Given.{filter_by};
ghost use Rattle.vx_ops_computing.specs.Operands.{operand_at, IsFor};
ghost use Rattle.vx_ops_computing.specs.Projecting.{FilterFails};

use crate::blocks::BLOCK;
use crate::expressions::evaluated;
use crate::fault::ComputeFault;
use crate::intervals::{interval_of, within};
use crate::masks::places_in;
use crate::operands::Operand;
use crate::pairs::holds;
use std::alloc::{AllocError, Global};
use vx_ops_kernels::{kept, kept_both};
use vx_plan_nodes::{Filter, PlanFunctions};
use vx_rows_values::Cell;
use vx_rows_views::{Chunk, Rows, places_are_a_filter};

// Whether a value is a number other than 0.
fn is_yes(cell: Cell<'_>) -> bool
    ensures { result ≡ says_yes (Some (cell_val cell.entry)) }
{
    match cell {
        Cell::Int(number) => number != 0,
        Cell::Text(_) => false,
    }
}

// Leaves those rows in a mask whose number is not 0. Each is written: so there is no branch that depends on a number.
fn leave_numbers(mask: &mut [bool], numbers: &[i64])
    requires { length numbers.now ≡ length mask.old }
    ensures { IsNarrowed mask.old (λ k. holds (slice_index_or numbers.now k (pos 0))) mask.new }
{
    for k in 0..mask.len() {
        mask[k] = mask[k] & holds(numbers[k]);
    }
}

// Leaves those rows in a mask for which an operand is a number other than 0, row by row.
fn leave_by_rows(mask: &mut [bool], operand: &Operand<'_>)
    requires { IsFor (length mask.old) operand.now }
    ensures { IsNarrowed mask.old (λ k. says_yes (Some (operand_at operand.now k))) mask.new }
{
    for k in 0..mask.len() {
        if !is_yes(operand.cell(k)) {
            mask[k] = false;
        }
    }
}

// Leaves those rows in a mask for which an operand is a number other than 0.
fn leave(mask: &mut [bool], operand: &Operand<'_>)
    requires { IsFor (length mask.old) operand.now }
    ensures { IsNarrowed mask.old (λ k. says_yes (Some (operand_at operand.now k))) mask.new }
{
    match operand {
        Operand::Numbers(numbers) => leave_numbers(mask, numbers.as_slice()),
        _ => leave_by_rows(mask, operand),
    }
}

// Whether some condition is computed.
fn has_computed(filters: &[Filter]) -> bool
    ensures hold { result ≡ false → (given : Functions) (row : Row) → computed_hold (map (filter_by given) filters.now) row ≡ true }
    ensures fit { result ≡ false → (given : Functions) (row : Row) → filters_fit (map (filter_by given) filters.now) row ≡ true }
{
    for filter in filters {
        if let Filter::Computed(_) = filter {
            return true;
        }
    }
    false
}

// Leaves those rows of a chunk in a mask of which a condition holds, if it is computed.
fn narrow<F: PlanFunctions>(
    alloc: Global,
    functions: &F,
    mask: &mut [bool],
    filter: &Filter,
    chunk: &Chunk,
) -> Result<(), ComputeFault>
    requires known { filter_known chunk.now.types (filter_by (F.functions functions.now) filter.now) ≡ true }
    requires long { length mask.old ≡ length chunk.now.rows }
    ensures long { length mask.new ≡ length mask.old }
    ensures mask { OnOk result ((fs : List PlanFilter) → IsMask (computed_hold fs) chunk.now.rows mask.old → IsMask (computed_hold (fs ++ filter_by (F.functions functions.now) filter.now ∷ [])) chunk.now.rows mask.new) }
    ensures fits { OnOk result ((k : ℕ) → k < length chunk.now.rows → filter_fits (filter_by (F.functions functions.now) filter.now) (slice_index_or chunk.now.rows k []) ≡ true) }
    ensures fault { IfErr result (Blames (FilterFails (filter_by (F.functions functions.now) filter.now) chunk.now.rows)) }
{
    match filter {
        Filter::Compared(_) => Ok(()),
        Filter::Computed(expression) => {
            let operand = evaluated(alloc, functions, chunk, expression)?;
            leave(mask, &operand);
            Ok(())
        }
    }
}

// For each row of a chunk whether the computed conditions hold of it.
fn computed_mask<F: PlanFunctions>(
    alloc: Global,
    functions: &F,
    filters: &[Filter],
    chunk: &Chunk,
) -> Result<Vec<bool>, ComputeFault>
    requires { unary_known chunk.now.types (select (map (filter_by (F.functions functions.now)) filters.now)) ≡ true }
    ensures mask { IfOk result (λ v. IsMask (computed_hold (map (filter_by (F.functions functions.now)) filters.now)) chunk.now.rows v.items) }
    ensures fits { IfOk result (λ v. list_all (filters_fit (map (filter_by (F.functions functions.now)) filters.now)) chunk.now.rows ≡ true) }
    ensures fault { IfErr result (Blames (list_all (filters_fit (map (filter_by (F.functions functions.now)) filters.now)) chunk.now.rows ≡ false)) }
{
    let mut mask = Vec::new(alloc);
    mask.resize(chunk.len(), true)?;
    for filter in filters {
        narrow(alloc, functions, mask.as_mut_slice(), filter, chunk)?;
    }
    Ok(mask)
}

// The same, block by block where there are many rows.
fn mask_by_blocks<F: PlanFunctions>(
    alloc: Global,
    functions: &F,
    filters: &[Filter],
    chunk: &Chunk,
) -> Result<Vec<bool>, ComputeFault>
    requires { unary_known chunk.now.types (select (map (filter_by (F.functions functions.now)) filters.now)) ≡ true }
    ensures mask { IfOk result (λ v. IsMask (computed_hold (map (filter_by (F.functions functions.now)) filters.now)) chunk.now.rows v.items) }
    ensures fits { IfOk result (λ v. list_all (filters_fit (map (filter_by (F.functions functions.now)) filters.now)) chunk.now.rows ≡ true) }
    ensures fault { IfErr result (Blames (list_all (filters_fit (map (filter_by (F.functions functions.now)) filters.now)) chunk.now.rows ≡ false)) }
{
    let count = chunk.len();
    if count <= BLOCK {
        return computed_mask(alloc, functions, filters, chunk);
    }
    let mut mask = Vec::with_capacity(alloc, count)?;
    let mut from = 0;
    while from < count {
        let block = BLOCK.min(count - from);
        let part = chunk.slice(alloc, from, from + block)?;
        let found = computed_mask(alloc, functions, filters, &part)?;
        mask.extend_from_slice(found.as_slice())?;
        from += block;
    }
    Ok(mask)
}

// The rows of a chunk of which the computed conditions hold.
fn chosen_computed<F: PlanFunctions>(
    alloc: Global,
    functions: &F,
    filters: &[Filter],
    chunk: &Chunk,
) -> Result<Chunk, ComputeFault>
    requires { unary_known chunk.now.types (select (map (filter_by (F.functions functions.now)) filters.now)) ≡ true }
    ensures types { IfOk result (λ c. c.types ≡ chunk.now.types) }
    ensures rows { IfOk result (λ c. c.rows ≡ filter (computed_hold (map (filter_by (F.functions functions.now)) filters.now)) chunk.now.rows) }
    ensures fits { IfOk result (λ v. list_all (filters_fit (map (filter_by (F.functions functions.now)) filters.now)) chunk.now.rows ≡ true) }
    ensures fault { IfErr result (Blames (list_all (filters_fit (map (filter_by (F.functions functions.now)) filters.now)) chunk.now.rows ≡ false)) }
{
    if !has_computed(filters) {
        return Ok(chunk.share(alloc)?);
    }
    let mask = mask_by_blocks(alloc, functions, filters, chunk)?;
    let Some(places) = places_in(alloc, mask.as_slice())? else {
        return Ok(chunk.share(alloc)?);
    };
    places_are_a_filter();
    Ok(chunk.at(alloc, places.as_slice())?)
}

// The rows of a chunk of which the comparisons hold, asked one after the other.
fn chosen_in_turn(alloc: Global, filters: &[Filter], chunk: Chunk) -> Result<Chunk, AllocError>
    ensures types { IfOk result (λ c. c.types ≡ chunk.types) }
    ensures rows { IfOk result (λ c. (given : Functions) → c.rows ≡ filter (comparisons_hold (map (filter_by given) filters.now)) chunk.rows) }
{
    let mut found = chunk;
    for filter in filters {
        match filter {
            Filter::Compared(condition) => found = kept(alloc, condition, found)?,
            Filter::Computed(_) => {}
        }
    }
    Ok(found)
}

// The rows of a chunk of which the comparisons hold. Two are asked in one loop.
fn chosen_compared(alloc: Global, filters: &[Filter], chunk: Chunk) -> Result<Chunk, AllocError>
    ensures types { IfOk result (λ c. c.types ≡ chunk.types) }
    ensures rows { IfOk result (λ c. (given : Functions) → c.rows ≡ filter (comparisons_hold (map (filter_by given) filters.now)) chunk.rows) }
{
    if let [first, second] = filters
        && let Filter::Compared(first) = first
        && let Filter::Compared(second) = second
    {
        return kept_both(alloc, first, second, chunk);
    }
    chosen_in_turn(alloc, filters, chunk)
}

// What a selection makes of the rows of a chunk. Comparisons of one column that make an interval are asked as one.
fn filtered_chunk<F: PlanFunctions>(
    alloc: Global,
    functions: &F,
    filters: &[Filter],
    chunk: &Chunk,
) -> Result<Chunk, ComputeFault>
    requires { unary_known chunk.now.types (select (map (filter_by (F.functions functions.now)) filters.now)) ≡ true }
    ensures types { IfOk result (λ c. c.types ≡ chunk.now.types) }
    ensures rows { IfOk result (λ c. unary_rows (select (map (filter_by (F.functions functions.now)) filters.now)) chunk.now.rows ≡ Some c.rows) }
    ensures fault { IfErr result (ComputeBlame (unary_rows (select (map (filter_by (F.functions functions.now)) filters.now)) chunk.now.rows)) }
{
    if !has_computed(filters)
        && let Some(interval) = interval_of(filters, chunk.types())
    {
        return Ok(within(alloc, &interval, chunk)?);
    }
    let found = chosen_computed(alloc, functions, filters, chunk)?;
    Ok(chosen_compared(alloc, filters, found)?)
}

// Adds what a selection makes of the rows of chunks.
fn add_filtered<F: PlanFunctions>(
    alloc: Global,
    functions: &F,
    found: &mut Rows,
    filters: &[Filter],
    chunks: &[Chunk],
) -> Result<(), ComputeFault>
    requires chunks { All (λ c. c.types ≡ found.old.types) chunks.now }
    requires known { unary_known found.old.types (select (map (filter_by (F.functions functions.now)) filters.now)) ≡ true }
    requires none { found.old.rows ≡ [] }
    ensures types { found.new.types ≡ found.old.types }
    ensures ok { OnOk result (unary_rows (select (map (filter_by (F.functions functions.now)) filters.now)) (all_rows chunks.now) ≡ Some found.new.rows) }
    ensures fault { IfErr result (ComputeBlame (unary_rows (select (map (filter_by (F.functions functions.now)) filters.now)) (all_rows chunks.now))) }
{
    for i in 0..chunks.len() {
        found.push(filtered_chunk(alloc, functions, filters, &chunks[i])?)?;
    }
    Ok(())
}

/// What a selection makes of rows. No cell is copied, and a chunk of which the conditions hold throughout is handed on without positions.
pub fn filtered<F: PlanFunctions>(
    alloc: Global,
    functions: &F,
    rows: &Rows,
    filters: &[Filter],
) -> Result<Rows, ComputeFault>
    requires { unary_known rows.now.types (unary_under (F.functions functions.now) (select (map filter_of filters.now))) ≡ true }
    ensures types { IfOk result (λ r. r.types ≡ rows.now.types) }
    ensures rows { IfOk result (λ r. unary_rows (unary_under (F.functions functions.now) (select (map filter_of filters.now))) rows.now.rows ≡ Some r.rows) }
    ensures fault { IfErr result (ComputeBlame (unary_rows (unary_under (F.functions functions.now) (select (map filter_of filters.now))) rows.now.rows)) }
{
    // none yet, which share the list of types
    let mut found = rows.slice(alloc, 0, 0)?;
    add_filtered(alloc, functions, &mut found, filters, rows.chunks())?;
    Ok(found)
}
