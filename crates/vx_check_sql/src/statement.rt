//! A plan as one statement.

ghost use Rattle.std.specs.Prelude.{◌≡◌, ◌++◌, map, string_bytes, codes, OnOk, IfOk, false, cond, []};
ghost use Rattle.vx_plan_nodes.specs.Outline.{outline_of, top, columns};
ghost use Rattle.vx_plan_nodes.specs.TypedView.{names_in, resolved_of};
ghost use Rattle.vx_check_sql.specs.Words.{identifier};
ghost use Rattle.vx_check_sql.specs.OwnNames.{OwnNamesAreApart};
ghost use Rattle.vx_check_sql.specs.Blocks.{select_sql, order_sql};
ghost use Rattle.vx_check_sql.specs.Statement.{rows, begins, are_same, ends, end_of, end_over, with_tables, whole_sql, result_sql, plan_sql};
ghost use Rattle.vx_check_sql.specs.BlocksView.{texts_of, block_of, select_of, rows_of};

use crate::blocks::{Block, Rows, Select, closed, over, push_order, push_select};
use crate::dialect::Dialect;
use crate::joins::binary_rows;
use crate::nodes::{column_names, is_once, maker, named_by, push_scanned};
use crate::operators::unary_rows;
use crate::output_names::{output_names, plan_names};
use crate::own_names::underscores;
use crate::relations::scan_of;
use crate::texts::push_separated;
use std::alloc::{AllocError, Global};
use vx_plan_nodes::{TypedNode, TypedPlan};
use vx_rows_values::OrderEntry;

// The rows of a node of a plan that scans these relations.
fn rows(
    alloc: Global,
    dialect: Dialect,
    underscores: usize,
    plan: &TypedPlan,
    scans: &[usize],
    node: &TypedNode,
) -> Result<Rows, AllocError>
    ensures { IfOk result (λ r. rows_of r ≡ rows dialect underscores (names_in plan.now) scans.now (outline_of node.now)) }
{
    match node {
        TypedNode::Scan(head, scan) => {
            let alias = named_by(underscores, head);
            let only = is_once(scan.relation, scans);
            let block = scan_of(alloc, dialect, plan, alias, only, scan.relation)?;
            Ok(Rows::Block(block))
        }
        TypedNode::Unary(head, operator, input) => {
            let alias = named_by(underscores, head);
            let names = output_names(alloc, dialect, alias, column_names(node))?;
            let below = rows(alloc, dialect, underscores, plan, scans, input)?;
            unary_rows(alloc, dialect, underscores, names, operator, input, below)
        }
        TypedNode::Binary(_, operator, left, right) => {
            let lefts = rows(alloc, dialect, underscores, plan, scans, left)?;
            let rights = rows(alloc, dialect, underscores, plan, scans, right)?;
            binary_rows(
                alloc,
                dialect,
                underscores,
                operator,
                left,
                right,
                lefts,
                rights,
            )
        }
        TypedNode::Exchange(_, _, input) => {
            rows(alloc, dialect, underscores, plan, scans, input)
        }
    }
}

// Whether rows in the second order are in the first one.
#[tactic(auto, using(std::proofs::lemmas::Grind::common_steps, crate::proofs::EndFacts::begins_past))]
fn begins(order: &[OrderEntry], entries: &[OrderEntry]) -> bool
    ensures { result ≡ begins order.now entries.now }
{
    for (i, entry) in order.iter().enumerate() {
        if i >= entries.len() || !entry.is_same(entries[i]) {
            return false;
        }
    }
    true
}

// Whether two lists have the same texts.
#[tactic(auto, using(std::proofs::lemmas::Grind::common_steps, crate::proofs::EndFacts::same_past, crate::proofs::EndFacts::same_before, crate::proofs::EndFacts::same_end))]
fn are_same(texts: &[String], others: &[String]) -> bool
    ensures { result ≡ are_same (map string_bytes texts.now) (map string_bytes others.now) }
{
    for (i, text) in texts.iter().enumerate() {
        if i >= others.len() || text.as_str() != others[i].as_str() {
            return false;
        }
    }
    others.len() <= texts.len()
}

// Whether the SELECT of the root's rows can end the statement.
fn ends(names: &[String], order: &[OrderEntry], select: &Select) -> bool
    ensures { result ≡ ends (map string_bytes names.now) order.now (select_of select.now) }
{
    are_same(select.names.as_slice(), names)
        && (begins(order, select.order.as_slice()) || !(select.is_union || select.is_limited))
}

// The SELECT of the root's rows, in the order that it claims.
fn end_of(alloc: Global, order: &[OrderEntry], select: &Select) -> Result<String, AllocError>
    ensures { IfOk result (λ s. string_bytes s ≡ end_of order.now (select_of select.now)) }
{
    let mut text = String::from_str(alloc, select.text.as_str())?;
    if !begins(order, select.order.as_slice()) {
        push_order(&mut text, select.names.as_slice(), order)?;
    }
    Ok(text)
}

// One more SELECT over these rows.
fn end_over(
    alloc: Global,
    names: &[String],
    order: &[OrderEntry],
    block: &Block,
) -> Result<String, AllocError>
    ensures { IfOk result (λ s. string_bytes s ≡ end_over (map string_bytes names.now) order.now (block_of block.now)) }
{
    let mut text = String::from_str(alloc, "SELECT ")?;
    push_select(&mut text, block, block.columns.as_slice(), names)?;
    push_order(&mut text, block.columns.as_slice(), order)?;
    Ok(text)
}

// Adds the tables that stand before the last SELECT.
fn push_tables(text: &mut String, tables: &[String]) -> Result<(), AllocError>
    ensures { OnOk result (string_bytes text.new ≡ string_bytes text.old ++ with_tables (map string_bytes tables.now)) }
{
    if tables.is_empty() {
        return Ok(());
    }
    text.push_str("WITH ")?;
    push_separated(text, ",\n", tables)?;
    text.push_str("\n")
}

#[tactic(auto, unfolding(crate::specs::Statement::whole_sql))]
fn whole(alloc: Global, tables: &[String], last: &str) -> Result<String, AllocError>
    ensures { IfOk result (λ s. string_bytes s ≡ whole_sql (map string_bytes tables.now) last.now) }
{
    let mut text = String::new(alloc);
    push_tables(&mut text, tables)?;
    text.push_str(last)?;
    text.push_str(";\n")?;
    Ok(text)
}

// The rows of the node by these names and in this order.
#[tactic(auto, unfolding(crate::specs::Statement::result_sql))]
fn result_text(
    alloc: Global,
    dialect: Dialect,
    underscores: usize,
    names: &[String],
    order: &[OrderEntry],
    node: &TypedNode,
    select: Select,
) -> Result<String, AllocError>
    ensures { IfOk result (λ s. string_bytes s ≡ result_sql dialect underscores (map string_bytes names.now) order.now (outline_of node.now) (select_of select)) }
{
    if ends(names, order, &select) {
        let last = end_of(alloc, order, &select)?;
        whole(alloc, select.tables.as_slice(), last.as_str())
    } else {
        let block = over(alloc, dialect, maker(underscores, node), select)?;
        let last = end_over(alloc, names, order, &block)?;
        whole(alloc, block.tables.as_slice(), last.as_str())
    }
}

/// The plan without its exchanges as one statement of SQL, which ends in the order that the root claims.
#[tactic(auto, using(crate::proofs::OwnFacts::own_apart))]
pub fn plan_sql(alloc: Global, dialect: Dialect, plan: &TypedPlan) -> Result<String, AllocError>
    ensures text { IfOk result (λ s. string_bytes s ≡ plan_sql dialect plan.now) }
    ensures own { OwnNamesAreApart (names_in plan.now) (resolved_of plan.now).root }
{
    let count = underscores(alloc, plan)?;
    let root = plan.root();
    let mut scans = Vec::new(alloc);
    push_scanned(&mut scans, root)?;
    let made = rows(alloc, dialect, count, plan, scans.as_slice(), root)?;
    let select = closed(alloc, dialect, count, root, made)?;
    let names = plan_names(alloc, dialect, column_names(root))?;
    let order = root.head().claim.order.as_slice();
    result_text(alloc, dialect, count, names.as_slice(), order, root, select)
}
