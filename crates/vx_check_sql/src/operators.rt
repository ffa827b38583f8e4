//! What an operator over one input makes of its rows.

ghost use Rattle.std.specs.Prelude.{◌≡◌, ◌++◌, map, string_bytes, codes, decimal, OnOk, IfOk, []};
ghost use Rattle.std.specs.List.{list_any};
ghost use Rattle.vx_catalog_relations.specs.Naming.{name_at};
ghost use Rattle.vx_plan_nodes.specs.Outline.{outline_of, filter_of, entry_of, aggregate_of, unary_of};
ghost use Rattle.vx_check_sql.specs.Blocks.{as_select, order_sql, closed};
ghost use Rattle.vx_check_sql.specs.Operators.{selected, is_computed, with_columns, projected, aggregate_sql, grouping_sql, grouped, limited, orderable, unary_rows};
ghost use Rattle.vx_check_sql.specs.BlocksView.{texts_of, block_of, select_of, rows_of};

use crate::blocks::{Block, Rows, Select, as_select, closed, opened, push_order, renewed};
use crate::conditions::{aggregate_texts, filter_texts, made_texts};
use crate::dialect::Dialect;
use crate::texts::{appended, kept_texts, push_separated, texts_at};
use crate::words::push_number;
use std::alloc::{AllocError, Global};
use vx_plan_nodes::{Aggregate, Entry, Filter, Phase, Projected, TypedNode, Unary};
use vx_rows_values::OrderEntry;

// A block with more conditions.
fn selected(
    alloc: Global,
    dialect: Dialect,
    filters: &[Filter],
    block: Block,
) -> Result<Block, AllocError>
    ensures { IfOk result (λ b. block_of b ≡ selected dialect (map filter_of filters.now) (block_of block)) }
{
    let more = filter_texts(alloc, dialect, block.columns.as_slice(), filters)?;
    let Block {
        tables,
        from,
        conditions,
        columns,
        is_lone,
    } = block;
    Ok(Block {
        tables,
        from,
        conditions: appended(conditions, more)?,
        columns,
        is_lone,
    })
}

// Whether a column of these is computed.
fn computes(entries: &[Entry]) -> bool
    ensures { result ≡ list_any is_computed (map entry_of entries.now) }
{
    for entry in entries {
        if let Entry::Made(_) = entry {
            return true;
        }
    }
    false
}

// A block with other columns.
fn with_columns(block: Block, columns: Vec<String>) -> Block
    ensures { block_of result ≡ with_columns (block_of block) (texts_of columns) }
{
    let Block {
        tables,
        from,
        conditions,
        columns: _,
        is_lone,
    } = block;
    Block {
        tables,
        from,
        conditions,
        columns,
        is_lone,
    }
}

// A projection of a block's rows: a block, or a SELECT if a column is computed.
#[tactic(auto, unfolding(crate::specs::Operators::projected))]
fn projected(
    alloc: Global,
    dialect: Dialect,
    entries: &[Entry],
    block: Block,
    names: Vec<String>,
) -> Result<Rows, AllocError>
    ensures { IfOk result (λ r. rows_of r ≡ projected dialect (map entry_of entries.now) (block_of block) (texts_of names)) }
{
    let columns = made_texts(alloc, dialect, block.columns.as_slice(), entries)?;
    if computes(entries) {
        let select = as_select(alloc, "SELECT ", block, columns, names, "")?;
        Ok(Rows::Written(select))
    } else {
        Ok(Rows::Block(with_columns(block, columns)))
    }
}

// In which groups rows are: by these keys, or all rows in one.
#[tactic(auto, unfolding(crate::specs::Operators::grouping_sql))]
fn grouping_text(alloc: Global, keys: &[String]) -> Result<String, AllocError>
    ensures { IfOk result (λ s. string_bytes s ≡ grouping_sql (map string_bytes keys.now)) }
{
    if keys.is_empty() {
        return String::from_str(alloc, " HAVING count(*) > 0");
    }
    let mut text = String::from_str(alloc, " GROUP BY ")?;
    push_separated(&mut text, ", ", keys)?;
    Ok(text)
}

// The same by the numbers of the keys.
fn grouping_by(alloc: Global, columns: &[String], by: &[usize]) -> Result<String, AllocError>
    ensures { IfOk result (λ s. string_bytes s ≡ grouping_sql (map (name_at (map string_bytes columns.now)) by.now)) }
{
    let keys = texts_at(alloc, columns, by)?;
    let end = grouping_text(alloc, keys.as_slice())?;
    Ok(end)
}

// The keys of groups, and then their aggregates.
fn group_columns(
    alloc: Global,
    dialect: Dialect,
    by: &[usize],
    aggregates: &[Aggregate],
    columns: &[String],
) -> Result<Vec<String>, AllocError>
    ensures { IfOk result (λ v. texts_of v ≡ map (name_at (map string_bytes columns.now)) by.now ++ map (aggregate_sql dialect (map string_bytes columns.now)) (map aggregate_of aggregates.now)) }
{
    let keys = texts_at(alloc, columns, by)?;
    let made = aggregate_texts(alloc, dialect, columns, aggregates)?;
    let all = appended(keys, made)?;
    Ok(all)
}

// The groups of a block's rows.
fn grouped(
    alloc: Global,
    dialect: Dialect,
    by: &[usize],
    aggregates: &[Aggregate],
    block: Block,
    names: Vec<String>,
) -> Result<Select, AllocError>
    ensures { IfOk result (λ s. select_of s ≡ grouped dialect by.now (map aggregate_of aggregates.now) (block_of block) (texts_of names)) }
{
    let from = block.columns.as_slice();
    let columns = group_columns(alloc, dialect, by, aggregates, from)?;
    let end = grouping_by(alloc, from, by)?;
    let select = as_select(alloc, "SELECT ", block, columns, names, end.as_str())?;
    Ok(select)
}

// The first rows in this order.
fn limited(
    alloc: Global,
    order: &[OrderEntry],
    rows: u32,
    select: Select,
) -> Result<Select, AllocError>
    ensures { IfOk result (λ s. select_of s ≡ limited order.now rows (select_of select)) }
{
    let Select {
        tables,
        text,
        names,
        order: _,
        is_union: _,
        is_limited: _,
    } = select;
    let mut text = text;
    push_order(&mut text, names.as_slice(), order)?;
    text.push_str(" LIMIT ")?;
    push_number(&mut text, rows as usize)?;
    Ok(Select {
        tables,
        text,
        names,
        order: Vec::from_slice(alloc, order)?,
        is_union: false,
        is_limited: true,
    })
}

// A SELECT of a node's rows behind which an order can stand.
fn orderable(
    alloc: Global,
    dialect: Dialect,
    underscores: usize,
    node: &TypedNode,
    rows: Rows,
) -> Result<Select, AllocError>
    ensures { IfOk result (λ s. select_of s ≡ orderable dialect underscores (outline_of node.now) (closed dialect underscores (outline_of node.now) (rows_of rows))) }
{
    let select = closed(alloc, dialect, underscores, node, rows)?;
    let again = select.is_union || select.is_limited;
    renewed(alloc, dialect, underscores, node, again, select)
}

// The distinct rows of some of a block's columns.
fn distinct(
    alloc: Global,
    kept: &[Projected],
    block: Block,
    names: Vec<String>,
) -> Result<Select, AllocError>
    ensures { IfOk result (λ s. select_of s ≡ as_select (codes "SELECT DISTINCT ") (block_of block) (map (name_at (texts_of block.columns)) (map (λ k. k.column) kept.now)) (texts_of names) []) }
{
    let columns = kept_texts(alloc, block.columns.as_slice(), kept)?;
    let select = as_select(alloc, "SELECT DISTINCT ", block, columns, names, "")?;
    Ok(select)
}

/// What an operator makes of the rows of its input, with these names of the columns that it makes.
#[tactic(auto, unfolding(crate::specs::Operators::unary_rows))]
pub fn unary_rows(
    alloc: Global,
    dialect: Dialect,
    underscores: usize,
    names: Vec<String>,
    operator: &Unary,
    input: &TypedNode,
    rows: Rows,
) -> Result<Rows, AllocError>
    ensures { IfOk result (λ r. rows_of r ≡ unary_rows dialect underscores (texts_of names) (unary_of operator.now) (outline_of input.now) (rows_of rows)) }
{
    match operator {
        Unary::Select(filters) => {
            let block = opened(alloc, dialect, underscores, input, rows)?;
            let more = selected(alloc, dialect, filters.as_slice(), block)?;
            Ok(Rows::Block(more))
        }
        Unary::Project(entries) => {
            let block = opened(alloc, dialect, underscores, input, rows)?;
            let made = projected(alloc, dialect, entries.as_slice(), block, names)?;
            Ok(made)
        }
        Unary::Distinct(kept) => {
            let block = opened(alloc, dialect, underscores, input, rows)?;
            Ok(Rows::Written(distinct(alloc, kept.as_slice(), block, names)?))
        }
        Unary::Sort(_, _) | Unary::Group(Phase::Final, _, _) => Ok(rows),
        Unary::Group(Phase::Plain | Phase::Partial, by, aggregates) => {
            let block = opened(alloc, dialect, underscores, input, rows)?;
            let keys = by.as_slice();
            let made = aggregates.as_slice();
            let select = grouped(alloc, dialect, keys, made, block, names)?;
            Ok(Rows::Written(select))
        }
        Unary::Limit(count) => {
            let select = orderable(alloc, dialect, underscores, input, rows)?;
            let order = input.head().claim.order.as_slice();
            Ok(Rows::Written(limited(alloc, order, *count, select)?))
        }
    }
}
