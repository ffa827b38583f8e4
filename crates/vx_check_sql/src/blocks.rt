//! Rows as SQL, as far as they are written: a block, into which more can go, or a SELECT that is whole.

ghost use Rattle.std.specs.Prelude.{◌≡◌, ◌++◌, map, string_bytes, codes, OnOk, IfOk, false, []};
ghost use Rattle.vx_plan_nodes.specs.Outline.{outline_of};
ghost use Rattle.vx_check.specs.Explain.{separated};
ghost use Rattle.vx_check_sql.specs.Words.{node_name};
ghost use Rattle.vx_check_sql.specs.Blocks.{where_sql, select_sql, as_select, entry_sql, order_sql, names_sql, closed, column_of, table_from, table_before, over, opened, tabled, renewed};
ghost use Rattle.vx_check_sql.specs.BlocksView.{texts_of, block_of, select_of, rows_of};

use crate::dialect::Dialect;
use crate::nodes::{column_names, maker};
use crate::output_names::output_names;
use crate::texts::{push_named, push_separated, text_at};
use crate::words::{Alias, push_node_name};
use std::alloc::{AllocError, Global};
use vx_check::push_between;
use vx_plan_nodes::TypedNode;
use vx_rows_values::OrderEntry;

/// A SELECT that is not written yet.
#[derive(Drop)]
pub struct Block {
    /// The tables that stand in a WITH before it.
    pub tables: Vec<String>,
    /// What stands in its FROM.
    pub from: String,
    /// The conditions of its WHERE.
    pub conditions: Vec<String>,
    /// What its columns are there.
    pub columns: Vec<String>,
    /// Its FROM has one relation or table, and its conditions have no SELECT from another one.
    pub is_lone: bool,
}

/// A SELECT that is written.
#[derive(Drop)]
pub struct Select {
    /// The tables that stand in a WITH before it.
    pub tables: Vec<String>,
    pub text: String,
    /// The names of its columns, as they are written.
    pub names: Vec<String>,
    /// The order of its rows, if it has one.
    pub order: Vec<OrderEntry>,
    pub is_union: bool,
    pub is_limited: bool,
}

/// The rows of a node.
#[derive(Drop)]
pub enum Rows {
    Block(Block),
    Written(Select),
}

/// Adds the conditions of a WHERE, if there are any.
pub fn push_where(text: &mut String, conditions: &[String]) -> Result<(), AllocError>
    ensures { OnOk result (string_bytes text.new ≡ string_bytes text.old ++ where_sql (map string_bytes conditions.now)) }
{
    if conditions.is_empty() {
        return Ok(());
    }
    text.push_str(" WHERE ")?;
    push_separated(text, " AND ", conditions)
}

/// Adds a SELECT of these columns of a block's rows, by these names.
#[tactic(auto, unfolding(crate::specs::Blocks::select_sql))]
pub fn push_select(
    text: &mut String,
    block: &Block,
    columns: &[String],
    names: &[String],
) -> Result<(), AllocError>
    ensures { OnOk result (string_bytes text.new ≡ string_bytes text.old ++ select_sql (map string_bytes columns.now) (map string_bytes names.now) (string_bytes block.now.from) (texts_of block.now.conditions)) }
{
    push_named(text, columns, names)?;
    text.push_str(" FROM ")?;
    text.push_str(block.from.as_str())?;
    push_where(text, block.conditions.as_slice())
}

// The text of such a SELECT, with words before and behind it.
fn select_text(
    alloc: Global,
    word: &str,
    block: &Block,
    columns: &[String],
    names: &[String],
    end: &str,
) -> Result<String, AllocError>
    ensures { IfOk result (λ s. string_bytes s ≡ word.now ++ (select_sql (map string_bytes columns.now) (map string_bytes names.now) (string_bytes block.now.from) (texts_of block.now.conditions) ++ end.now)) }
{
    let mut text = String::from_str(alloc, word)?;
    push_select(&mut text, block, columns, names)?;
    text.push_str(end)?;
    Ok(text)
}

// The SELECT that has this text.
fn plain_select(alloc: Global, tables: Vec<String>, text: String, names: Vec<String>) -> Select
    ensures { select_of result ≡ record { tables = texts_of tables; text = string_bytes text; names = texts_of names; order = []; is_union = false; is_limited = false } }
{
    Select {
        tables,
        text,
        names,
        order: Vec::new(alloc),
        is_union: false,
        is_limited: false,
    }
}

/// A block as a SELECT of these columns, by these names, with words before and behind it.
#[tactic(auto, unfolding(crate::specs::Blocks::as_select))]
pub fn as_select(
    alloc: Global,
    word: &str,
    block: Block,
    columns: Vec<String>,
    names: Vec<String>,
    end: &str,
) -> Result<Select, AllocError>
    ensures { IfOk result (λ s. select_of s ≡ as_select word.now (block_of block) (texts_of columns) (texts_of names) end.now) }
{
    let text = select_text(
        alloc,
        word,
        &block,
        columns.as_slice(),
        names.as_slice(),
        end,
    )?;
    Ok(plain_select(alloc, block.tables, text, names))
}

// A block as a SELECT of its columns.
#[tactic(auto, unfolding(crate::specs::Blocks::as_select))]
fn select_all(alloc: Global, block: Block, names: Vec<String>) -> Result<Select, AllocError>
    ensures { IfOk result (λ s. select_of s ≡ as_select (codes "SELECT ") (block_of block) (texts_of block.columns) (texts_of names) []) }
{
    let text = select_text(
        alloc,
        "SELECT ",
        &block,
        block.columns.as_slice(),
        names.as_slice(),
        "",
    )?;
    Ok(plain_select(alloc, block.tables, text, names))
}

// Adds a column of an order, and whether it falls.
fn push_entry(text: &mut String, columns: &[String], entry: OrderEntry) -> Result<(), AllocError>
    ensures { OnOk result (string_bytes text.new ≡ string_bytes text.old ++ entry_sql (map string_bytes columns.now) entry) }
{
    text.push_str(text_at(columns, entry.column))?;
    if entry.falling {
        text.push_str(" DESC")?;
    }
    Ok(())
}

fn push_entries(
    text: &mut String,
    columns: &[String],
    order: &[OrderEntry],
) -> Result<(), AllocError>
    ensures { OnOk result (string_bytes text.new ≡ string_bytes text.old ++ separated (codes ", ") false (map (entry_sql (map string_bytes columns.now)) order.now)) }
{
    for (i, entry) in order.iter().enumerate() {
        push_between(text, ", ", i > 0)?;
        push_entry(text, columns, *entry)?;
    }
    Ok(())
}

/// Adds an order by these columns, if there is one.
///
/// A column that falls is written with `DESC`. No value is NULL, so it is not said whether NULLs stand first or last.
pub fn push_order(
    text: &mut String,
    columns: &[String],
    order: &[OrderEntry],
) -> Result<(), AllocError>
    ensures { OnOk result (string_bytes text.new ≡ string_bytes text.old ++ order_sql (map string_bytes columns.now) order.now) }
{
    if order.is_empty() {
        return Ok(());
    }
    text.push_str(" ORDER BY ")?;
    push_entries(text, columns, order)
}

// The names of a node's columns, as they are written.
fn names_sql(
    alloc: Global,
    dialect: Dialect,
    underscores: usize,
    node: &TypedNode,
) -> Result<Vec<String>, AllocError>
    ensures { IfOk result (λ v. texts_of v ≡ names_sql dialect underscores (outline_of node.now)) }
{
    output_names(alloc, dialect, maker(underscores, node), column_names(node))
}

/// The rows of a node as a SELECT.
pub fn closed(
    alloc: Global,
    dialect: Dialect,
    underscores: usize,
    node: &TypedNode,
    rows: Rows,
) -> Result<Select, AllocError>
    ensures { IfOk result (λ s. select_of s ≡ closed dialect underscores (outline_of node.now) (rows_of rows)) }
{
    match rows {
        Rows::Block(block) => {
            let names = names_sql(alloc, dialect, underscores, node)?;
            select_all(alloc, block, names)
        }
        Rows::Written(select) => Ok(select),
    }
}

// A column of the rows with this alias.
fn column_of(alloc: Global, alias: Alias, name: &str) -> Result<String, AllocError>
    ensures { IfOk result (λ s. string_bytes s ≡ column_of alias name.now) }
{
    let mut text = String::new(alloc);
    push_node_name(&mut text, alias)?;
    text.push_str(".")?;
    text.push_str(name)?;
    Ok(text)
}

fn columns_of(alloc: Global, alias: Alias, names: &[String]) -> Result<Vec<String>, AllocError>
    ensures { IfOk result (λ v. texts_of v ≡ map (column_of alias) (map string_bytes names.now)) }
{
    let mut list = Vec::new(alloc);
    for name in names {
        list.push(column_of(alloc, alias, name.as_str())?)?;
    }
    Ok(list)
}

// What stands in a FROM for a SELECT with this text: in ClickHouse the SELECT, else the name of the table before it.
fn table_from(
    alloc: Global,
    dialect: Dialect,
    alias: Alias,
    select: &str,
) -> Result<String, AllocError>
    ensures { IfOk result (λ s. string_bytes s ≡ table_from dialect alias select.now) }
{
    let mut text = String::new(alloc);
    match dialect {
        Dialect::Sqlite | Dialect::Postgres => push_node_name(&mut text, alias)?,
        Dialect::ClickHouse => {
            text.push_str("(")?;
            text.push_str(select)?;
            text.push_str(") AS ")?;
            push_node_name(&mut text, alias)?
        }
    }
    Ok(text)
}

// The table that stands before the statement for it.
fn table_text(alloc: Global, alias: Alias, select: &str) -> Result<String, AllocError>
    ensures { IfOk result (λ s. string_bytes s ≡ node_name alias ++ (codes " AS (" ++ (select.now ++ codes ")"))) }
{
    let mut text = String::new(alloc);
    push_node_name(&mut text, alias)?;
    text.push_str(" AS (")?;
    text.push_str(select)?;
    text.push_str(")")?;
    Ok(text)
}

fn with_table(
    alloc: Global,
    dialect: Dialect,
    alias: Alias,
    tables: Vec<String>,
    select: &str,
) -> Result<Vec<String>, AllocError>
    ensures { IfOk result (λ v. texts_of v ≡ texts_of tables ++ table_before dialect alias select.now) }
{
    let mut all = tables;
    match dialect {
        Dialect::Sqlite | Dialect::Postgres => all.push(table_text(alloc, alias, select)?)?,
        Dialect::ClickHouse => {}
    }
    Ok(all)
}

/// A new block over a SELECT.
pub fn over(
    alloc: Global,
    dialect: Dialect,
    alias: Alias,
    select: Select,
) -> Result<Block, AllocError>
    ensures { IfOk result (λ b. block_of b ≡ over dialect alias (select_of select)) }
{
    let columns = columns_of(alloc, alias, select.names.as_slice())?;
    let from = table_from(alloc, dialect, alias, select.text.as_str())?;
    let Select {
        tables,
        text,
        names: _,
        order: _,
        is_union: _,
        is_limited: _,
    } = select;
    Ok(Block {
        tables: with_table(alloc, dialect, alias, tables, text.as_str())?,
        from,
        conditions: Vec::new(alloc),
        columns,
        is_lone: true,
    })
}

/// The rows of a node as a block: the one that they are, or one over a SELECT.
pub fn opened(
    alloc: Global,
    dialect: Dialect,
    underscores: usize,
    node: &TypedNode,
    rows: Rows,
) -> Result<Block, AllocError>
    ensures { IfOk result (λ b. block_of b ≡ opened dialect underscores (outline_of node.now) (rows_of rows)) }
{
    match rows {
        Rows::Block(block) => Ok(block),
        Rows::Written(select) => over(alloc, dialect, maker(underscores, node), select),
    }
}

/// The same, but always over a SELECT.
pub fn tabled(
    alloc: Global,
    dialect: Dialect,
    underscores: usize,
    node: &TypedNode,
    rows: Rows,
) -> Result<Block, AllocError>
    ensures { IfOk result (λ b. block_of b ≡ tabled dialect underscores (outline_of node.now) (rows_of rows)) }
{
    let select = closed(alloc, dialect, underscores, node, rows)?;
    over(alloc, dialect, maker(underscores, node), select)
}

/// The rows of a node as a SELECT: the one that they are, or a new one over it.
pub fn renewed(
    alloc: Global,
    dialect: Dialect,
    underscores: usize,
    node: &TypedNode,
    again: bool,
    select: Select,
) -> Result<Select, AllocError>
    ensures { IfOk result (λ s. select_of s ≡ renewed dialect underscores (outline_of node.now) again (select_of select)) }
{
    if again {
        let block = over(alloc, dialect, maker(underscores, node), select)?;
        closed(alloc, dialect, underscores, node, Rows::Block(block))
    } else {
        Ok(select)
    }
}
