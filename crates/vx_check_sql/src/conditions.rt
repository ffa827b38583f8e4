//! Conditions, and what the columns of projections and groups are, over columns as they are written.

ghost use Rattle.std.specs.Prelude.{◌≡◌, ◌++◌, map, string_bytes, codes, OnOk, IfOk, true};
ghost use Rattle.vx_plan_nodes.specs.Outline.{side_of, condition_of, filter_of, entry_of, aggregate_of};
ghost use Rattle.vx_check_sql.specs.Operators.{side_sql, condition_sql, filter_sql, made_sql, sum_before, sum_after, count_sql, aggregate_sql, pair_sql, matching_sql};
ghost use Rattle.vx_check_sql.specs.BlocksView.{texts_of};

use crate::dialect::Dialect;
use crate::expressions::push_expression;
use crate::texts::{appended, copied, text_at};
use crate::words::push_value;
use std::alloc::{AllocError, Global};
use vx_plan_nodes::{Aggregate, Condition, Entry, Filter, Side};

fn push_side(
    text: &mut String,
    dialect: Dialect,
    columns: &[String],
    side: &Side,
) -> Result<(), AllocError>
    ensures { OnOk result (string_bytes text.new ≡ string_bytes text.old ++ side_sql dialect (map string_bytes columns.now) (side_of side.now)) }
{
    match side {
        Side::Column(column) => text.push_str(text_at(columns, *column)),
        Side::Constant(value) => push_value(text, dialect, value),
    }
}

#[tactic(auto, unfolding(crate::specs::Operators::condition_sql))]
fn push_condition(
    text: &mut String,
    dialect: Dialect,
    columns: &[String],
    condition: &Condition,
) -> Result<(), AllocError>
    ensures { OnOk result (string_bytes text.new ≡ string_bytes text.old ++ condition_sql dialect (map string_bytes columns.now) (condition_of condition.now)) }
{
    text.push_str(text_at(columns, condition.left))?;
    text.push_str(" ")?;
    text.push_str(condition.test.text())?;
    text.push_str(" ")?;
    push_side(text, dialect, columns, &condition.right)
}

#[tactic(auto, unfolding(crate::specs::Operators::filter_sql))]
fn push_filter(
    text: &mut String,
    dialect: Dialect,
    columns: &[String],
    filter: &Filter,
) -> Result<(), AllocError>
    ensures { OnOk result (string_bytes text.new ≡ string_bytes text.old ++ filter_sql dialect (map string_bytes columns.now) (filter_of filter.now)) }
{
    match filter {
        Filter::Compared(condition) => push_condition(text, dialect, columns, condition),
        Filter::Computed(expression) => {
            push_expression(text, dialect, columns, true, expression)?;
            text.push_str(" <> 0")
        }
    }
}

fn filter_text(
    alloc: Global,
    dialect: Dialect,
    columns: &[String],
    filter: &Filter,
) -> Result<String, AllocError>
    ensures { IfOk result (λ s. string_bytes s ≡ filter_sql dialect (map string_bytes columns.now) (filter_of filter.now)) }
{
    let mut text = String::new(alloc);
    push_filter(&mut text, dialect, columns, filter)?;
    Ok(text)
}

/// The conditions of a select.
pub fn filter_texts(
    alloc: Global,
    dialect: Dialect,
    columns: &[String],
    filters: &[Filter],
) -> Result<Vec<String>, AllocError>
    ensures { IfOk result (λ v. texts_of v ≡ map (filter_sql dialect (map string_bytes columns.now)) (map filter_of filters.now)) }
{
    let mut list = Vec::new(alloc);
    for filter in filters {
        list.push(filter_text(alloc, dialect, columns, filter)?)?;
    }
    Ok(list)
}

// What a column of a projection is.
fn made_text(
    alloc: Global,
    dialect: Dialect,
    columns: &[String],
    entry: &Entry,
) -> Result<String, AllocError>
    ensures { IfOk result (λ s. string_bytes s ≡ made_sql dialect (map string_bytes columns.now) (entry_of entry.now)) }
{
    let mut text = String::new(alloc);
    match entry {
        Entry::Kept(kept) => text.push_str(text_at(columns, kept.column))?,
        Entry::Made(expression) => {
            push_expression(&mut text, dialect, columns, true, expression)?
        }
    }
    Ok(text)
}

/// What the columns of a projection are.
pub fn made_texts(
    alloc: Global,
    dialect: Dialect,
    columns: &[String],
    entries: &[Entry],
) -> Result<Vec<String>, AllocError>
    ensures { IfOk result (λ v. texts_of v ≡ map (made_sql dialect (map string_bytes columns.now)) (map entry_of entries.now)) }
{
    let mut list = Vec::new(alloc);
    for entry in entries {
        list.push(made_text(alloc, dialect, columns, entry)?)?;
    }
    Ok(list)
}

fn sum_before(dialect: Dialect) -> &'static str
    ensures { result.now ≡ sum_before dialect }
{
    match dialect {
        Dialect::Sqlite => "sum(",
        Dialect::Postgres => "CAST(sum(",
        Dialect::ClickHouse => "toInt64(sum(",
    }
}

fn sum_after(dialect: Dialect) -> &'static str
    ensures { result.now ≡ sum_after dialect }
{
    match dialect {
        Dialect::Sqlite => ")",
        Dialect::Postgres => ") AS bigint)",
        Dialect::ClickHouse => "))",
    }
}

fn count_sql(dialect: Dialect) -> &'static str
    ensures { result.now ≡ count_sql dialect }
{
    match dialect {
        Dialect::Sqlite | Dialect::Postgres => "count(*)",
        Dialect::ClickHouse => "toInt64(count(*))",
    }
}

// Adds an aggregate.
fn push_aggregate(
    text: &mut String,
    dialect: Dialect,
    columns: &[String],
    aggregate: Aggregate,
) -> Result<(), AllocError>
    ensures { OnOk result (string_bytes text.new ≡ string_bytes text.old ++ aggregate_sql dialect (map string_bytes columns.now) (aggregate_of aggregate)) }
{
    let (before, column, after) = match aggregate {
        Aggregate::Least(column) => ("min(", column, ")"),
        Aggregate::Greatest(column) => ("max(", column, ")"),
        Aggregate::Sum(column) => (sum_before(dialect), column, sum_after(dialect)),
        Aggregate::CountRows => return text.push_str(count_sql(dialect)),
    };
    text.push_str(before)?;
    text.push_str(text_at(columns, column))?;
    text.push_str(after)
}

fn aggregate_text(
    alloc: Global,
    dialect: Dialect,
    columns: &[String],
    aggregate: Aggregate,
) -> Result<String, AllocError>
    ensures { IfOk result (λ s. string_bytes s ≡ aggregate_sql dialect (map string_bytes columns.now) (aggregate_of aggregate)) }
{
    let mut text = String::new(alloc);
    push_aggregate(&mut text, dialect, columns, aggregate)?;
    Ok(text)
}

/// The aggregates of a group.
pub fn aggregate_texts(
    alloc: Global,
    dialect: Dialect,
    columns: &[String],
    aggregates: &[Aggregate],
) -> Result<Vec<String>, AllocError>
    ensures { IfOk result (λ v. texts_of v ≡ map (aggregate_sql dialect (map string_bytes columns.now)) (map aggregate_of aggregates.now)) }
{
    let mut list = Vec::new(alloc);
    for aggregate in aggregates {
        list.push(aggregate_text(alloc, dialect, columns, *aggregate)?)?;
    }
    Ok(list)
}

// A pair on which the rows of a join agree.
fn pair_text(
    alloc: Global,
    lefts: &[String],
    rights: &[String],
    pair: (usize, usize),
) -> Result<String, AllocError>
    ensures { IfOk result (λ s. string_bytes s ≡ pair_sql (map string_bytes lefts.now) (map string_bytes rights.now) pair) }
{
    let mut text = String::from_str(alloc, text_at(lefts, pair.0))?;
    text.push_str(" = ")?;
    text.push_str(text_at(rights, pair.1))?;
    Ok(text)
}

/// The pairs on which the rows of a join agree.
pub fn pair_texts(
    alloc: Global,
    lefts: &[String],
    rights: &[String],
    on: &[(usize, usize)],
) -> Result<Vec<String>, AllocError>
    ensures { IfOk result (λ v. texts_of v ≡ map (pair_sql (map string_bytes lefts.now) (map string_bytes rights.now)) on.now) }
{
    let mut list = Vec::new(alloc);
    for pair in on {
        list.push(pair_text(alloc, lefts, rights, *pair)?)?;
    }
    Ok(list)
}

fn condition_text(
    alloc: Global,
    dialect: Dialect,
    columns: &[String],
    condition: &Condition,
) -> Result<String, AllocError>
    ensures { IfOk result (λ s. string_bytes s ≡ condition_sql dialect (map string_bytes columns.now) (condition_of condition.now)) }
{
    let mut text = String::new(alloc);
    push_condition(&mut text, dialect, columns, condition)?;
    Ok(text)
}

fn condition_texts(
    alloc: Global,
    dialect: Dialect,
    columns: &[String],
    conditions: &[Condition],
) -> Result<Vec<String>, AllocError>
    ensures { IfOk result (λ v. texts_of v ≡ map (condition_sql dialect (map string_bytes columns.now)) (map condition_of conditions.now)) }
{
    let mut list = Vec::new(alloc);
    for condition in conditions {
        list.push(condition_text(alloc, dialect, columns, condition)?)?;
    }
    Ok(list)
}

/// Which right rows match a left one.
#[tactic(auto, unfolding(crate::specs::Operators::matching_sql))]
pub fn matching_texts(
    alloc: Global,
    dialect: Dialect,
    on: &[(usize, usize)],
    conditions: &[Condition],
    lefts: &[String],
    rights: &[String],
) -> Result<Vec<String>, AllocError>
    ensures { IfOk result (λ v. texts_of v ≡ matching_sql dialect on.now (map condition_of conditions.now) (map string_bytes lefts.now) (map string_bytes rights.now)) }
{
    let pairs = pair_texts(alloc, lefts, rights, on)?;
    let both = appended(copied(alloc, lefts)?, copied(alloc, rights)?)?;
    let more = condition_texts(alloc, dialect, both.as_slice(), conditions)?;
    appended(pairs, more)
}
