//! What one operator makes of the rows of its inputs.

ghost use Rattle.std.specs.Prelude.{◌≡◌, ◌<◌, ◌++◌, ◌∷◌, [], true, Some, length, map, take, IfOk, IfSome, IfErr};
ghost use Rattle.std.specs.List.{list_all};
ghost use Rattle.vx_rows_values.specs.Types.{type_at};
ghost use Rattle.vx_rows_values.specs.Values.{pick};
ghost use Rattle.vx_rows.specs.View.{AreColumns};
ghost use Rattle.vx_plan_nodes.specs.Conditions.{conditions_of};
ghost use Rattle.vx_plan_nodes.specs.Known.{unary_known};
ghost use Rattle.vx_plan_nodes.specs.Outline.{filter_of, entry_of, aggregate_of, unary_of, binary_of};
ghost use Rattle.vx_plan_nodes.specs.Plan.{select, project, group, plain};
ghost use Rattle.vx_plan_nodes.specs.Serial.{binary_rows, firsts, join_rows, matched_rows};
ghost use Rattle.vx_plan_nodes.specs.Typed.{is_unary, is_binary, is_pair};
ghost use Rattle.vx_plan_nodes.specs.Types.{unary_types, binary_types};
ghost use Rattle.vx_plan_nodes.specs.Under.{unary_under};
ghost use Rattle.vx_serial.specs.Evaluated.{evaluated_rows};
ghost use Rattle.vx_serial.specs.Results.{IsFaultAt};

use std::alloc::{AllocError, Global};
use vx_exec_setup::EvalFault;
use vx_match_grouping::{GroupFault, grouped};
use vx_match_join::{Matching, hash_join, semi_join};
use vx_match_keys::Seen;
use vx_match_merging::{MergeFault, merge_join};
use vx_ops_computing::{ComputeFault, filtered, projected};
use vx_ops_kernels::{kept_columns, left_columns, right_columns, sorted_chunks};
use vx_plan_nodes::{
    Aggregate, Binary, Condition, Entry, Filter, PlanFunctions, Unary, copied_conditions,
};
use vx_rows_values::{ColType, KeySeed, OrderEntry};
use vx_rows_views::Rows;

// The most rows of one grouping.
const MAX_GROUPED: usize = 1 << 62;

// The rows with these columns alone, each once, in order of first occurrence.
fn distinct(
    alloc: Global,
    seed: KeySeed,
    rows: &Rows,
    columns: &[usize],
) -> Result<Rows, AllocError>
    requires { AreColumns (length rows.now.types) columns.now }
    ensures types { IfOk result (λ r. r.types ≡ map (type_at rows.now.types) columns.now) }
    ensures rows { IfOk result (λ r. r.rows ≡ firsts (map (pick columns.now) rows.now.rows)) }
{
    let mut seen = Seen::new(alloc, seed);
    seen.keep_new(rows, columns)
}

// So many first rows, or all if there are fewer.
fn first_rows(alloc: Global, rows: &Rows, count: u32) -> Result<Rows, AllocError>
    ensures types { IfOk result (λ r. r.types ≡ rows.now.types) }
    ensures rows { IfOk result (λ r. r.rows ≡ take count rows.now.rows) }
{
    let end = (count as usize).min(rows.len());
    rows.slice(alloc, 0, end)
}

// The groups of rows, at the node with this number.
fn groups_of(
    alloc: Global,
    seed: KeySeed,
    number: u32,
    rows: &Rows,
    by: &[usize],
    aggregates: &[Aggregate],
) -> Result<Rows, EvalFault>
    requires { is_unary rows.now.types (group plain by.now (map aggregate_of aggregates.now)) ≡ true }
    ensures types { IfOk result (λ t. t.types ≡ unary_types (group plain by.now (map aggregate_of aggregates.now)) rows.now.types) }
    ensures rows { IfOk result (λ t. evaluated_rows (group plain by.now (map aggregate_of aggregates.now)) rows.now.rows ≡ Some t.rows) }
    ensures fault { IfErr result (IsFaultAt number (evaluated_rows (group plain by.now (map aggregate_of aggregates.now)) rows.now.rows)) }
{
    if rows.len() > MAX_GROUPED {
        return Err(EvalFault::Overflow { node: number });
    }
    match grouped(alloc, seed, rows, by, aggregates) {
        Ok(groups) => Ok(Rows::of_table(alloc, groups)?),
        Err(GroupFault::Overflow | GroupFault::TooMany) => {
            Err(EvalFault::Overflow { node: number })
        }
        Err(GroupFault::NoMemory) => Err(EvalFault::NoMemory),
    }
}

// The rows of which all conditions hold, at the node with this number.
fn selected<F: PlanFunctions>(
    alloc: Global,
    functions: &F,
    number: u32,
    rows: &Rows,
    filters: &[Filter],
) -> Result<Rows, EvalFault>
    requires { unary_known rows.now.types (unary_under (F.functions functions.now) (select (map filter_of filters.now))) ≡ true }
    ensures types { IfOk result (λ t. t.types ≡ rows.now.types) }
    ensures rows { IfOk result (λ t. evaluated_rows (unary_under (F.functions functions.now) (select (map filter_of filters.now))) rows.now.rows ≡ Some t.rows) }
    ensures fault { IfErr result (IsFaultAt number (evaluated_rows (unary_under (F.functions functions.now) (select (map filter_of filters.now))) rows.now.rows)) }
{
    match filtered(alloc, functions, rows, filters) {
        Ok(found) => Ok(found),
        Err(ComputeFault::Overflow) => Err(EvalFault::Overflow { node: number }),
        Err(ComputeFault::NoMemory) => Err(EvalFault::NoMemory),
    }
}

// These columns of each row, kept and computed, at the node with this number.
fn with_entries<F: PlanFunctions>(
    alloc: Global,
    functions: &F,
    number: u32,
    rows: &Rows,
    entries: &[Entry],
) -> Result<Rows, EvalFault>
    requires typed { is_unary rows.now.types (project (map entry_of entries.now)) ≡ true }
    requires known { unary_known rows.now.types (unary_under (F.functions functions.now) (project (map entry_of entries.now))) ≡ true }
    ensures types { IfOk result (λ t. t.types ≡ unary_types (project (map entry_of entries.now)) rows.now.types) }
    ensures rows { IfOk result (λ t. evaluated_rows (unary_under (F.functions functions.now) (project (map entry_of entries.now))) rows.now.rows ≡ Some t.rows) }
    ensures fault { IfErr result (IsFaultAt number (evaluated_rows (unary_under (F.functions functions.now) (project (map entry_of entries.now))) rows.now.rows)) }
{
    match projected(alloc, functions, rows, entries) {
        Ok(found) => Ok(found),
        Err(ComputeFault::Overflow) => Err(EvalFault::Overflow { node: number }),
        Err(ComputeFault::NoMemory) => Err(EvalFault::NoMemory),
    }
}

/// What the operator with this number makes of its input's rows by these functions. Keys are hashed by the seed.
pub fn unary_rows<F: PlanFunctions>(
    alloc: Global,
    functions: &F,
    seed: KeySeed,
    number: u32,
    unary: &Unary,
    rows: &Rows,
) -> Result<Rows, EvalFault>
    requires typed { is_unary rows.now.types (unary_of unary.now) ≡ true }
    requires known { unary_known rows.now.types (unary_under (F.functions functions.now) (unary_of unary.now)) ≡ true }
    ensures types { IfOk result (λ t. t.types ≡ unary_types (unary_of unary.now) rows.now.types) }
    ensures rows { IfOk result (λ t. evaluated_rows (unary_under (F.functions functions.now) (unary_of unary.now)) rows.now.rows ≡ Some t.rows) }
    ensures fault { IfErr result (IsFaultAt number (evaluated_rows (unary_under (F.functions functions.now) (unary_of unary.now)) rows.now.rows)) }
{
    match unary {
        Unary::Select(filters) => selected(alloc, functions, number, rows, filters.as_slice()),
        Unary::Project(entries) => {
            with_entries(alloc, functions, number, rows, entries.as_slice())
        }
        Unary::Distinct(kept) => {
            let columns = kept_columns(alloc, kept.as_slice())?;
            Ok(distinct(alloc, seed, rows, columns.as_slice())?)
        }
        Unary::Sort(_, order) => Ok(sorted_chunks(alloc, rows, order.as_slice())?),
        Unary::Group(_, by, aggregates) => {
            let by = by.as_slice();
            groups_of(alloc, seed, number, rows, by, aggregates.as_slice())
        }
        Unary::Limit(count) => Ok(first_rows(alloc, rows, *count)?),
    }
}

// The left rows joined with the right rows that agree with them on these pairs of columns.
fn joined(
    alloc: Global,
    seed: KeySeed,
    left: Rows,
    right: &Rows,
    on: &[(usize, usize)],
) -> Result<Rows, AllocError>
    requires { list_all (is_pair left.types right.now.types) on.now ≡ true }
    ensures types { IfOk result (λ t. t.types ≡ left.types ++ right.now.types) }
    ensures rows { IfOk result (λ t. t.rows ≡ join_rows on.now left.rows right.now.rows) }
{
    let left_keys = left_columns(alloc, on)?;
    let right_keys = right_columns(alloc, on)?;
    hash_join(alloc, seed, left, left_keys.as_slice(), right, right_keys)
}

// The left rows joined with the right rows that agree with them on a pair of columns, by going through both side by side;
// none where one of them is not in order.
fn merged(
    alloc: Global,
    left: &Rows,
    right: &Rows,
    pair: (usize, usize),
    falling: bool,
) -> Result<Option<Rows>, AllocError>
    requires left { pair.0 < length left.now.types }
    requires right { pair.1 < length right.now.types }
    ensures types { IfOk result (λ o. IfSome o (λ t. t.types ≡ left.now.types ++ right.now.types)) }
    ensures rows { IfOk result (λ o. IfSome o (λ t. t.rows ≡ join_rows (pair ∷ []) left.now.rows right.now.rows)) }
{
    let left_order = [OrderEntry {
        column: pair.0,
        falling,
    }];
    let right_order = [OrderEntry {
        column: pair.1,
        falling,
    }];
    match merge_join(alloc, left, &left_order, right, &right_order) {
        Ok(rows) => Ok(Some(rows)),
        Err(MergeFault::Falls) => Ok(None),
        Err(MergeFault::NoMemory) => Err(AllocError),
    }
}

// The same rows, where both inputs should be in order on these columns: in a plan that the checker did not accept they may not
// be. Numbers are compared in less time than they are hashed. Keys of other kinds are hashed.
fn joined_in_order(
    alloc: Global,
    seed: KeySeed,
    left: Rows,
    right: &Rows,
    on: &[(usize, usize)],
    falls: &[bool],
) -> Result<Rows, AllocError>
    requires { list_all (is_pair left.types right.now.types) on.now ≡ true }
    ensures types { IfOk result (λ t. t.types ≡ left.types ++ right.now.types) }
    ensures rows { IfOk result (λ t. t.rows ≡ join_rows on.now left.rows right.now.rows) }
{
    if on.len() == 1 && falls.len() == 1 {
        let pair = on[0];
        if matches!(left.types()[pair.0], ColType::Int) {
            if let Some(rows) = merged(alloc, &left, right, pair, falls[0])? {
                return Ok(rows);
            }
        }
    }
    joined(alloc, seed, left, right, on)
}

// The left rows that some right row matches, or, where `matched` is false, those that none does.
fn semi_joined(
    alloc: Global,
    seed: KeySeed,
    matched: bool,
    left: &Rows,
    right: Rows,
    on: &[(usize, usize)],
    conditions: &[Condition],
) -> Result<Rows, AllocError>
    requires { list_all (is_pair left.now.types right.types) on.now ≡ true }
    ensures types { IfOk result (λ t. t.types ≡ left.now.types) }
    ensures rows { IfOk result (λ t. t.rows ≡ matched_rows matched on.now (conditions_of conditions.now) left.now.rows right.rows) }
{
    let on = Vec::from_slice(alloc, on)?;
    let conditions = copied_conditions(alloc, conditions)?;
    let matching = Matching {
        matched,
        on,
        conditions,
    };
    semi_join(alloc, seed, matching, left, right)
}

// The left rows, then the right rows.
fn united(left: Rows, right: Rows) -> Result<Rows, AllocError>
    requires { right.types ≡ left.types }
    ensures types { IfOk result (λ t. t.types ≡ left.types) }
    ensures rows { IfOk result (λ t. t.rows ≡ left.rows ++ right.rows) }
{
    let mut both = left;
    both.append(right)?;
    Ok(both)
}

/// What an operator makes of the rows of its left and its right input. A merge join gives the list of a hash join.
/// Keys are hashed by the seed.
pub fn binary_rows(
    alloc: Global,
    seed: KeySeed,
    binary: &Binary,
    left: Rows,
    right: Rows,
) -> Result<Rows, AllocError>
    requires { is_binary left.types right.types (binary_of binary.now) ≡ true }
    ensures types { IfOk result (λ t. t.types ≡ binary_types (binary_of binary.now) left.types right.types) }
    ensures rows { IfOk result (λ t. t.rows ≡ binary_rows (binary_of binary.now) left.rows right.rows) }
{
    match binary {
        Binary::Union => united(left, right),
        Binary::HashJoin(on) => joined(alloc, seed, left, &right, on.as_slice()),
        Binary::MergeJoin(on, falls) => {
            let falls = falls.as_slice();
            joined_in_order(alloc, seed, left, &right, on.as_slice(), falls)
        }
        Binary::SemiJoin(on, conditions) => {
            let conditions = conditions.as_slice();
            semi_joined(alloc, seed, true, &left, right, on.as_slice(), conditions)
        }
        Binary::AntiJoin(on, conditions) => {
            let conditions = conditions.as_slice();
            semi_joined(alloc, seed, false, &left, right, on.as_slice(), conditions)
        }
    }
}
