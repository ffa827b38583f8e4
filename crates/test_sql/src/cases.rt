//! What the tests share: databases, and whether SQLite gives the rows of the serial evaluation.

use crate::engine::{answer_lines, opened, table_lines};
use sqlite::{Connection, MemStore};
use std::alloc::Global;
use std::process::Abort;
use std::test::Fail;
use test_relations::{accepted, fill};
use vx_catalog::Database;
use vx_catalog_relations::Catalog;
use vx_check_sql::{Dialect, plan_sql};
use vx_plan::erase;
use vx_plan_nodes::{StandardFunctions, TypedPlan};
use vx_serial::eval;

/// A database of the relations of a catalog, each with the rows of its text.
pub fn database_of(alloc: Global, catalog: &str, texts: &[&str]) -> Result<Database, Fail> {
    let catalog = Catalog::read(alloc, catalog.as_bytes())?;
    let mut database = Database::empty(alloc, &catalog)?;
    for (relation, text) in texts.iter().enumerate() {
        fill(alloc, &catalog, &mut database, relation, text)?;
    }
    Ok(database)
}

// The lines of the serial evaluation.
fn serial_lines(alloc: Global, database: &Database, plan: &TypedPlan) -> Result<Vec<String>, Fail> {
    let rows = eval(alloc, &StandardFunctions, &erase(alloc, plan)?, database)?;
    Ok(table_lines(alloc, &rows.gathered(alloc)?)?)
}

// The lines of SQLite.
fn statement_lines(
    alloc: Global,
    connection: &mut Connection<MemStore>,
    plan: &TypedPlan,
) -> Result<Vec<String>, Fail> {
    let statement = plan_sql(alloc, Dialect::Sqlite, plan)?;
    answer_lines(alloc, connection, statement.as_str())
}

// Compares a plan's rows by its statement with those by the serial evaluation: as lists where the plan has an order for
// all its rows, else each as often.
fn compare<R: Abort>(
    rt: &R,
    alloc: Global,
    database: &Database,
    connection: &mut Connection<MemStore>,
    document: &str,
) -> Result<(), Fail> {
    let plan = accepted(alloc, database.catalog(), document)?;
    let mut wanted = serial_lines(alloc, database, plan.plan())?;
    let mut given = statement_lines(alloc, connection, plan.plan())?;
    if !plan.plan().is_total() {
        wanted.sort()?;
        given.sort()?;
    }
    assert_eq!(rt; given, wanted);
    Ok(())
}

/// The same for each of these plans.
pub fn compare_all<R: Abort>(
    rt: &R,
    alloc: Global,
    database: &Database,
    documents: &[&str],
) -> Result<(), Fail> {
    let mut connection = opened(alloc, database)?;
    for document in documents {
        compare(rt, alloc, database, &mut connection, document)?;
    }
    Ok(())
}

/// Whether SQLite and the serial evaluation both give these lines, in this order.
pub fn assert_lines<R: Abort>(
    rt: &R,
    alloc: Global,
    database: &Database,
    document: &str,
    wanted: &[&str],
) -> Result<(), Fail> {
    let mut connection = opened(alloc, database)?;
    let plan = accepted(alloc, database.catalog(), document)?;
    let mut lines = Vec::new(alloc);
    for line in wanted {
        lines.push(String::from_str(alloc, line)?)?;
    }
    let given = statement_lines(alloc, &mut connection, plan.plan())?;
    assert_eq!(rt; given, lines);
    let evaluated = serial_lines(alloc, database, plan.plan())?;
    assert_eq!(rt; evaluated, lines);
    Ok(())
}
