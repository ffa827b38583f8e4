//! Scans: blocks over relations.

ghost use Rattle.std.specs.Prelude.{◌≡◌, ◌++◌, map, length, string_bytes, OnOk, IfOk};
ghost use Rattle.vx_catalog_relations.specs.Catalog.{relation_at};
ghost use Rattle.vx_plan_nodes.specs.TypedView.{names_in};
ghost use Rattle.vx_check_sql.specs.Operators.{collation, relation_name, relation_from, relation_column, relation_columns, scan_block};
ghost use Rattle.vx_check_sql.specs.BlocksView.{texts_of, block_of};

use crate::blocks::Block;
use crate::dialect::Dialect;
use crate::words::{Alias, push_identifier, push_node_name};
use std::alloc::{AllocError, Global};
use vx_catalog_relations::Relation;
use vx_plan_nodes::TypedPlan;
use vx_rows_values::ColType;

// How a column of the database compares.
fn collation(dialect: Dialect, kind: ColType) -> &'static str
    ensures { result.now ≡ collation dialect kind }
{
    match (dialect, kind) {
        (Dialect::Postgres, ColType::Text) => " COLLATE \"C\"",
        _ => "",
    }
}

// A relation by its own name, if the plan scans it nowhere else, or else by an alias.
fn relation_name(
    alloc: Global,
    dialect: Dialect,
    node: Alias,
    only: bool,
    relation: &str,
) -> Result<String, AllocError>
    ensures { IfOk result (λ s. string_bytes s ≡ relation_name dialect node only relation.now) }
{
    let mut text = String::new(alloc);
    if only {
        push_identifier(&mut text, dialect, relation)?;
    } else {
        push_node_name(&mut text, node)?;
    }
    Ok(text)
}

// A relation in a FROM.
fn relation_from(
    alloc: Global,
    dialect: Dialect,
    node: Alias,
    only: bool,
    relation: &str,
) -> Result<String, AllocError>
    ensures { IfOk result (λ s. string_bytes s ≡ relation_from dialect node only relation.now) }
{
    let mut text = String::new(alloc);
    push_identifier(&mut text, dialect, relation)?;
    if !only {
        text.push_str(" AS ")?;
        push_node_name(&mut text, node)?;
    }
    Ok(text)
}

// A column of a relation.
#[tactic(auto, unfolding(crate::specs::Operators::relation_column))]
fn relation_column(
    alloc: Global,
    dialect: Dialect,
    relation: &str,
    kind: ColType,
    name: &str,
) -> Result<String, AllocError>
    ensures { IfOk result (λ s. string_bytes s ≡ relation_column dialect relation.now kind name.now) }
{
    let mut text = String::from_str(alloc, relation)?;
    text.push_str(".")?;
    push_identifier(&mut text, dialect, name)?;
    text.push_str(collation(dialect, kind))?;
    Ok(text)
}

// The columns of a relation that is called so.
fn relation_columns(
    alloc: Global,
    dialect: Dialect,
    called: &str,
    relation: &Relation,
    names: &[String],
) -> Result<Vec<String>, AllocError>
    requires { length names.now ≡ length relation.now.types }
    ensures { IfOk result (λ v. texts_of v ≡ relation_columns dialect called.now relation.now.types 0 (map string_bytes names.now)) }
{
    let mut list = Vec::new(alloc);
    for (i, name) in names.iter().enumerate() {
        let kind = relation.column_type(i);
        list.push(relation_column(alloc, dialect, called, kind, name.as_str())?)?;
    }
    Ok(list)
}

// A scan of a relation.
#[tactic(auto, unfolding(crate::specs::Operators::scan_block))]
fn scan_block(
    alloc: Global,
    dialect: Dialect,
    node: Alias,
    only: bool,
    relation: &Relation,
) -> Result<Block, AllocError>
    requires { length relation.now.types ≡ length relation.now.names }
    ensures { IfOk result (λ b. block_of b ≡ scan_block dialect node only relation.now) }
{
    let called = relation_name(alloc, dialect, node, only, relation.name())?;
    Ok(Block {
        tables: Vec::new(alloc),
        from: relation_from(alloc, dialect, node, only, relation.name())?,
        conditions: Vec::new(alloc),
        columns: relation_columns(alloc, dialect, called.as_str(), relation, relation.names())?,
        is_lone: true,
    })
}

/// A scan of the relation with this number. Past the end of the catalog there is none.
#[tactic(auto, unfolding(crate::specs::Operators::scan_block))]
pub fn scan_of(
    alloc: Global,
    dialect: Dialect,
    plan: &TypedPlan,
    node: Alias,
    only: bool,
    relation: usize,
) -> Result<Block, AllocError>
    ensures { IfOk result (λ b. block_of b ≡ scan_block dialect node only (relation_at (names_in plan.now).catalog relation)) }
{
    if relation < plan.catalog().len() {
        return scan_block(alloc, dialect, node, only, plan.catalog().get(relation));
    }
    Ok(Block {
        tables: Vec::new(alloc),
        from: relation_from(alloc, dialect, node, only, "")?,
        conditions: Vec::new(alloc),
        columns: Vec::new(alloc),
        is_lone: true,
    })
}
