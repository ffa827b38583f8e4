//! The serial evaluator: small plans have their rows, and refusals their lines.

use crate::case::Case;
use crate::tables::shown_rows;
use anyhow::{Error, bail};
use std::alloc::{AllocError, Global};
use vx_catalog::{Database, Loader};
use vx_catalog_bytes::MemoryIn;
use vx_catalog_relations::Catalog;
use vx_plan::resolve;
use vx_plan_json::Plan;
use vx_plan_nodes::{StandardFunctions, TypedPlan};
use vx_serial::eval;

const CATALOG: &str =
    r#"{"relations":[{"name":"t","columns":[{"name":"id","type":"int"},{"name":"k","type":"text"},{"name":"v","type":"int"}]}]}"#;

const NO_RELATIONS: &str = r#"{"relations":[]}"#;

const TABLE: &str = "id,k,v\n0,b,5\n1,b,7\n2,a,-2\n3,c,7\n";

// The database of a catalog: with the table, where the catalog has a relation.
fn database_of(alloc: Global, text: &str) -> Result<Database, Error> {
    let catalog = Catalog::read(alloc, text.as_bytes())?;
    let mut database = Database::empty(alloc, &catalog)?;
    if catalog.len() == 0 {
        return Ok(database);
    }
    let mut reader = MemoryIn::new(TABLE.as_bytes(), None);
    match database.put(Loader::load(alloc, &catalog, 0, &mut reader)?) {
        Ok(()) => Ok(database),
        Err(_) => bail!("the rows are not of this catalog"),
    }
}

const SCAN: &str = r#"{"op":"scan","relation":"t","mode":"whole","size":"one"}"#;

const OTHER_SCAN: &str = r#"{"op":"scan","relation":"t","mode":"shared","size":"n","prefix":"u."}"#;

// The plan with this root, where a `T` or a `U` stands for a scan.
fn read_plan(alloc: Global, root: &str) -> Result<Plan, Error> {
    let root = root.replace(alloc, "T", SCAN)?;
    let root = root.replace(alloc, "U", OTHER_SCAN)?;
    let text = format!(in alloc; "{{\"sizes\":[\"n\"],\"root\":{root}}}")?;
    Ok(Plan::read(alloc, text.as_bytes())?)
}

fn plan_of(alloc: Global, root: &str) -> Result<TypedPlan, Error> {
    let plan = read_plan(alloc, root)?;
    let catalog = Catalog::read(alloc, CATALOG.as_bytes())?;
    Ok(resolve(alloc, &plan, &catalog)?)
}

// What a plan comes to over a database: its rows as text, or the line of a refusal.
fn outcome(alloc: Global, plan: &TypedPlan, database: &Database) -> Result<String, AllocError> {
    match eval(alloc, &StandardFunctions, plan, database) {
        Ok(rows) => shown_rows(alloc, &rows),
        Err(fault) => format!(in alloc; "{fault}"),
    }
}

/// What the plan of a case comes to over the table, or over a database of no relations if the call is `elsewhere`.
pub fn answer(alloc: Global, case: &Case<'_>) -> Result<String, Error> {
    let catalog = if case.call == "elsewhere" {
        NO_RELATIONS
    } else {
        CATALOG
    };
    let plan = plan_of(alloc, case.rows)?;
    let database = database_of(alloc, catalog)?;
    Ok(outcome(alloc, &plan, &database)?)
}
