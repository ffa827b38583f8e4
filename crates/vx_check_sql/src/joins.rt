//! What an operator over two inputs makes of their rows.

ghost use Rattle.std.specs.Prelude.{◌≡◌, ◌++◌, map, string_bytes, codes, OnOk, IfOk, false, [], ◌∷◌};
ghost use Rattle.vx_catalog_relations.specs.Naming.{name_at};
ghost use Rattle.vx_plan_nodes.specs.Outline.{outline_of, condition_of, binary_of};
ghost use Rattle.vx_check.specs.Explain.{separated};
ghost use Rattle.vx_check_sql.specs.Blocks.{where_sql, closed};
ghost use Rattle.vx_check_sql.specs.Operators.{united, unitable, pair_sql, equal_left, left_or_right, right_columns, join_word, joined, matching_sql, exists_word, exists_sql, semi_join_word, semi_joined, joins_tables, is_lone, joinable, left_block, right_block, binary_rows};
ghost use Rattle.vx_check_sql.specs.BlocksView.{texts_of, block_of, select_of, rows_of};

use crate::blocks::{Block, Rows, Select, closed, opened, push_where, renewed, tabled};
use crate::conditions::{matching_texts, pair_texts};
use crate::dialect::Dialect;
use crate::texts::{appended, copied, push_separated, text_at};
use std::alloc::{AllocError, Global};
use vx_plan_nodes::{Binary, Condition, TypedNode};

fn union_text(alloc: Global, left: &str, right: &str) -> Result<String, AllocError>
    ensures { IfOk result (λ s. string_bytes s ≡ left.now ++ (codes " UNION ALL " ++ right.now)) }
{
    let mut text = String::from_str(alloc, left)?;
    text.push_str(" UNION ALL ")?;
    text.push_str(right)?;
    Ok(text)
}

// The rows of one SELECT, and then those of another one.
#[tactic(auto, unfolding(crate::specs::Operators::united))]
fn united(alloc: Global, left: Select, right: Select) -> Result<Select, AllocError>
    ensures { IfOk result (λ s. select_of s ≡ united (select_of left) (select_of right)) }
{
    let text = union_text(alloc, left.text.as_str(), right.text.as_str())?;
    Ok(Select {
        tables: appended(left.tables, right.tables)?,
        text,
        names: left.names,
        order: Vec::new(alloc),
        is_union: true,
        is_limited: false,
    })
}

// A SELECT of a node's rows that can stand in a union.
fn unitable(
    alloc: Global,
    dialect: Dialect,
    underscores: usize,
    node: &TypedNode,
    rows: Rows,
) -> Result<Select, AllocError>
    ensures { IfOk result (λ s. select_of s ≡ unitable dialect underscores (outline_of node.now) (closed dialect underscores (outline_of node.now) (rows_of rows))) }
{
    let select = closed(alloc, dialect, underscores, node, rows)?;
    let again = select.is_limited;
    renewed(alloc, dialect, underscores, node, again, select)
}

// The rows of both nodes.
fn union_rows(
    alloc: Global,
    dialect: Dialect,
    underscores: usize,
    left: &TypedNode,
    right: &TypedNode,
    lefts: Rows,
    rights: Rows,
) -> Result<Select, AllocError>
    ensures { IfOk result (λ s. select_of s ≡ united (unitable dialect underscores (outline_of left.now) (closed dialect underscores (outline_of left.now) (rows_of lefts))) (unitable dialect underscores (outline_of right.now) (closed dialect underscores (outline_of right.now) (rows_of rights)))) }
{
    let first = unitable(alloc, dialect, underscores, left, lefts)?;
    let second = unitable(alloc, dialect, underscores, right, rights)?;
    let all = united(alloc, first, second)?;
    Ok(all)
}

// The left column that a join makes equal to this right one.
fn equal_left(on: &[(usize, usize)], right: usize) -> Option<usize>
    ensures { result ≡ equal_left on.now right }
{
    for pair in on {
        if pair.1 == right {
            return Some(pair.0);
        }
    }
    None
}

// A right column of a join, or the left one to which it is equal.
fn left_or_right<'a>(lefts: &'a [String], right: &'a str, equal: Option<usize>) -> &'a str
    ensures { result.now ≡ left_or_right (map string_bytes lefts.now) right.now equal }
{
    match equal {
        None => right,
        Some(column) => text_at(lefts, column),
    }
}

// The right columns of a join.
fn right_columns(
    alloc: Global,
    lefts: &[String],
    on: &[(usize, usize)],
    rights: &[String],
) -> Result<Vec<String>, AllocError>
    ensures { IfOk result (λ v. texts_of v ≡ right_columns (map string_bytes lefts.now) on.now 0 (map string_bytes rights.now)) }
{
    let mut list = Vec::new(alloc);
    for (i, right) in rights.iter().enumerate() {
        let column = left_or_right(lefts, right.as_str(), equal_left(on, i));
        list.push(String::from_str(alloc, column)?)?;
    }
    Ok(list)
}

// The word of a join in which each pair of rows that agree gives a row.
fn join_word(dialect: Dialect) -> &'static str
    ensures { result.now ≡ join_word dialect }
{
    match dialect {
        Dialect::Sqlite | Dialect::Postgres => " INNER JOIN ",
        Dialect::ClickHouse => " ALL INNER JOIN ",
    }
}

// The word of a join of ClickHouse for the left rows that a right one matches, or that none does.
fn semi_join_word(matched: bool) -> &'static str
    ensures { result.now ≡ semi_join_word matched }
{
    if matched {
        " SEMI LEFT JOIN "
    } else {
        " ANTI LEFT JOIN "
    }
}

// A join in a FROM.
fn join_text(
    alloc: Global,
    left: &str,
    word: &str,
    right: &str,
    on: &[String],
) -> Result<String, AllocError>
    ensures { IfOk result (λ s. string_bytes s ≡ left.now ++ (word.now ++ (right.now ++ (codes " ON " ++ separated (codes " AND ") false (map string_bytes on.now))))) }
{
    let mut text = String::from_str(alloc, left)?;
    text.push_str(word)?;
    text.push_str(right)?;
    text.push_str(" ON ")?;
    push_separated(&mut text, " AND ", on)?;
    Ok(text)
}

// A block over both, with this in its FROM and these columns.
fn both(left: Block, right: Block, from: String, columns: Vec<String>) -> Result<Block, AllocError>
    ensures { IfOk result (λ b. block_of b ≡ record { tables = texts_of left.tables ++ texts_of right.tables; from = string_bytes from; conditions = texts_of left.conditions ++ texts_of right.conditions; columns = texts_of columns; is_lone = false }) }
{
    Ok(Block {
        tables: appended(left.tables, right.tables)?,
        from,
        conditions: appended(left.conditions, right.conditions)?,
        columns,
        is_lone: false,
    })
}

// The pairs of rows that agree on these columns.
#[tactic(auto, unfolding(crate::specs::Operators::joined))]
fn joined(
    alloc: Global,
    dialect: Dialect,
    on: &[(usize, usize)],
    left: Block,
    right: Block,
) -> Result<Block, AllocError>
    ensures { IfOk result (λ b. block_of b ≡ joined dialect on.now (block_of left) (block_of right)) }
{
    let lefts = left.columns.as_slice();
    let rights = right.columns.as_slice();
    let pairs = pair_texts(alloc, lefts, rights, on)?;
    let from = join_text(
        alloc,
        left.from.as_str(),
        join_word(dialect),
        right.from.as_str(),
        pairs.as_slice(),
    )?;
    let more = right_columns(alloc, lefts, on, rights)?;
    let columns = appended(copied(alloc, lefts)?, more)?;
    both(left, right, from, columns)
}

// The condition that some right row has these conditions, or that none has.
fn exists_text(
    alloc: Global,
    matched: bool,
    from: &str,
    conditions: &[String],
) -> Result<String, AllocError>
    ensures { IfOk result (λ s. string_bytes s ≡ exists_sql matched from.now (map string_bytes conditions.now)) }
{
    let mut text = String::new(alloc);
    if !matched {
        text.push_str("NOT ")?;
    }
    text.push_str("EXISTS (SELECT 1 FROM ")?;
    text.push_str(from)?;
    push_where(&mut text, conditions)?;
    text.push_str(")")?;
    Ok(text)
}

// A block with such a condition more.
fn with_exists(
    alloc: Global,
    matched: bool,
    matching: Vec<String>,
    left: Block,
    right: Block,
) -> Result<Block, AllocError>
    ensures { IfOk result (λ b. block_of b ≡ record { tables = texts_of left.tables ++ texts_of right.tables; from = string_bytes left.from; conditions = texts_of left.conditions ++ (exists_sql matched (string_bytes right.from) (texts_of right.conditions ++ texts_of matching) ∷ []); columns = texts_of left.columns; is_lone = false }) }
{
    let inner = appended(right.conditions, matching)?;
    let exists = exists_text(alloc, matched, right.from.as_str(), inner.as_slice())?;
    let mut conditions = left.conditions;
    conditions.push(exists)?;
    Ok(Block {
        tables: appended(left.tables, right.tables)?,
        from: left.from,
        conditions,
        columns: left.columns,
        is_lone: false,
    })
}

// The same as a join of ClickHouse.
fn with_semi_join(
    alloc: Global,
    matched: bool,
    matching: Vec<String>,
    left: Block,
    right: Block,
) -> Result<Block, AllocError>
    ensures { IfOk result (λ b. block_of b ≡ record { tables = texts_of left.tables ++ texts_of right.tables; from = string_bytes left.from ++ (semi_join_word matched ++ (string_bytes right.from ++ (codes " ON " ++ separated (codes " AND ") false (texts_of matching)))); conditions = texts_of left.conditions ++ texts_of right.conditions; columns = texts_of left.columns; is_lone = false }) }
{
    let from = join_text(
        alloc,
        left.from.as_str(),
        semi_join_word(matched),
        right.from.as_str(),
        matching.as_slice(),
    )?;
    let columns = copied(alloc, left.columns.as_slice())?;
    both(left, right, from, columns)
}

// The left rows that some right row matches, or those that none does.
#[tactic(auto, unfolding(crate::specs::Operators::semi_joined))]
fn semi_joined(
    alloc: Global,
    dialect: Dialect,
    matched: bool,
    matching: Vec<String>,
    left: Block,
    right: Block,
) -> Result<Block, AllocError>
    ensures { IfOk result (λ b. block_of b ≡ semi_joined dialect matched (texts_of matching) (block_of left) (block_of right)) }
{
    match dialect {
        Dialect::Sqlite | Dialect::Postgres => {
            with_exists(alloc, matched, matching, left, right)
        }
        Dialect::ClickHouse => with_semi_join(alloc, matched, matching, left, right),
    }
}

// The same by pairs and conditions.
fn matched_rows(
    alloc: Global,
    dialect: Dialect,
    matched: bool,
    on: &[(usize, usize)],
    conditions: &[Condition],
    left: Block,
    right: Block,
) -> Result<Block, AllocError>
    ensures { IfOk result (λ b. block_of b ≡ semi_joined dialect matched (matching_sql dialect on.now (map condition_of conditions.now) (texts_of left.columns) (texts_of right.columns)) (block_of left) (block_of right)) }
{
    let matching = matching_texts(
        alloc,
        dialect,
        on,
        conditions,
        left.columns.as_slice(),
        right.columns.as_slice(),
    )?;
    semi_joined(alloc, dialect, matched, matching, left, right)
}

// Whether the inputs of a join are SELECTs.
fn joins_tables(dialect: Dialect) -> bool
    ensures { result ≡ joins_tables dialect }
{
    match dialect {
        Dialect::Sqlite | Dialect::Postgres => false,
        Dialect::ClickHouse => true,
    }
}

fn is_lone(rows: &Rows) -> bool
    ensures { result ≡ is_lone (rows_of rows.now) }
{
    match rows {
        Rows::Block(block) => block.is_lone,
        Rows::Written(_) => false,
    }
}

// What stands in a join: a block as it is, or a SELECT.
fn joinable(
    alloc: Global,
    dialect: Dialect,
    underscores: usize,
    node: &TypedNode,
    as_table: bool,
    rows: Rows,
) -> Result<Block, AllocError>
    ensures { IfOk result (λ b. block_of b ≡ joinable dialect underscores (outline_of node.now) as_table (rows_of rows)) }
{
    if as_table {
        tabled(alloc, dialect, underscores, node, rows)
    } else {
        opened(alloc, dialect, underscores, node, rows)
    }
}

fn left_block(
    alloc: Global,
    dialect: Dialect,
    underscores: usize,
    node: &TypedNode,
    rows: Rows,
) -> Result<Block, AllocError>
    ensures { IfOk result (λ b. block_of b ≡ left_block dialect underscores (outline_of node.now) (rows_of rows)) }
{
    let as_table = joins_tables(dialect);
    joinable(alloc, dialect, underscores, node, as_table, rows)
}

fn right_block(
    alloc: Global,
    dialect: Dialect,
    underscores: usize,
    node: &TypedNode,
    rows: Rows,
) -> Result<Block, AllocError>
    ensures { IfOk result (λ b. block_of b ≡ right_block dialect underscores (outline_of node.now) (rows_of rows)) }
{
    let as_table = joins_tables(dialect) || !is_lone(&rows);
    joinable(alloc, dialect, underscores, node, as_table, rows)
}

/// What an operator makes of the rows of its inputs.
#[tactic(auto, unfolding(crate::specs::Operators::binary_rows))]
pub fn binary_rows(
    alloc: Global,
    dialect: Dialect,
    underscores: usize,
    operator: &Binary,
    left: &TypedNode,
    right: &TypedNode,
    lefts: Rows,
    rights: Rows,
) -> Result<Rows, AllocError>
    ensures { IfOk result (λ r. rows_of r ≡ binary_rows dialect underscores (binary_of operator.now) (outline_of left.now) (outline_of right.now) (rows_of lefts) (rows_of rights)) }
{
    match operator {
        Binary::Union => {
            let all = union_rows(alloc, dialect, underscores, left, right, lefts, rights)?;
            Ok(Rows::Written(all))
        }
        Binary::HashJoin(on) | Binary::MergeJoin(on, _) => {
            let a = left_block(alloc, dialect, underscores, left, lefts)?;
            let b = right_block(alloc, dialect, underscores, right, rights)?;
            Ok(Rows::Block(joined(alloc, dialect, on.as_slice(), a, b)?))
        }
        Binary::SemiJoin(on, conditions) => {
            let a = left_block(alloc, dialect, underscores, left, lefts)?;
            let b = right_block(alloc, dialect, underscores, right, rights)?;
            let conditions = conditions.as_slice();
            let on = on.as_slice();
            Ok(Rows::Block(matched_rows(alloc, dialect, true, on, conditions, a, b)?))
        }
        Binary::AntiJoin(on, conditions) => {
            let a = left_block(alloc, dialect, underscores, left, lefts)?;
            let b = right_block(alloc, dialect, underscores, right, rights)?;
            let conditions = conditions.as_slice();
            let on = on.as_slice();
            Ok(Rows::Block(matched_rows(alloc, dialect, false, on, conditions, a, b)?))
        }
    }
}
