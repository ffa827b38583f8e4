//! Where SQL means something else: groups by nothing, quotes inside of names and texts, outputs with the names of columns, and sums
//! that leave 64 bits.

use crate::cases::{compare_all, database_of};
use crate::engine::opened;
use crate::examples::CATALOG;
use sqlite::{Connection, Error, ErrorCode, MemStore};
use std::test::Fail;
use test_relations::accepted;
use vx_check_sql::{Dialect, plan_sql};
use vx_plan_nodes::StandardFunctions;
use vx_serial::eval;

// The number of all rows, and the least and greatest of a column.
const BY_NOTHING: &str =
    r#"{"root":{"op":"group","by":[],"aggregates":[{"fn":"count","as":"c"},{"fn":"min","column":"k","as":"a"},{"fn":"max","column":"v","as":"z"}],"claim":{"part":"one"},"input":{"op":"scan","relation":"t","mode":"whole","size":"one","claim":{"part":"one"}}}}"#;

// A text and a name with quotes, by each comparison.
const QUOTED: &str =
    r#"{"root":{"op":"project","columns":[{"column":"k","as":"it's \"k\""}],"claim":{"part":"one"},"input":{"op":"select","where":[{"column":"k","op":">=","value":"it's"},{"column":"k","op":"<>","value":"\"b\""}],"claim":{"part":"one"},"input":{"op":"scan","relation":"t","mode":"whole","size":"one","claim":{"part":"one"}}}}}"#;

// Outputs with the names of the root's columns, each with that of another.
const RENAMED: &str =
    r#"{"total":true,"root":{"op":"sort","columns":["c0_1"],"claim":{"part":"one","order":["c0_1"],"keys":[["c0_1"]]},"input":{"op":"project","columns":[{"column":"v","as":"c0_2"},{"column":"k","as":"c0_0"},{"column":"id","as":"c0_1"}],"claim":{"part":"one","keys":[["c0_1"]]},"input":{"op":"scan","relation":"t","mode":"whole","size":"one","claim":{"part":"one","keys":[["id"]]}}}}}"#;

const ROWS_OF_T: &str =
    "id,k,v\n0,it's,5\n1,\"\"\"b\"\"\",7\n2,z,-2\n3,it''s,7\n4,a,-9223372036854775808\n";

const NO_ROWS_OF_D: &str = "k,n\n";

#[test]
fn odd_plans_have_their_rows(rt: HostRuntime) -> Result<(), Fail> {
    let alloc = rt.alloc();
    let plans = [BY_NOTHING, QUOTED, RENAMED];
    let database = database_of(alloc, CATALOG, &[ROWS_OF_T, NO_ROWS_OF_D])?;
    compare_all(&rt, alloc, &database, &plans)?;
    let empty = database_of(alloc, CATALOG, &["id,k,v\n", NO_ROWS_OF_D])?;
    compare_all(&rt, alloc, &empty, &plans)
}

// Sums of all rows.
const SUMS: &str =
    r#"{"root":{"op":"group","by":["k"],"aggregates":[{"fn":"sum","column":"v","as":"s"}],"claim":{"part":"one"},"input":{"op":"scan","relation":"t","mode":"whole","size":"one","claim":{"part":"one"}}}}"#;

// Whether SQLite says that a sum does not fit.
fn overflows(connection: &mut Connection<MemStore>, statement: &str) -> bool {
    matches!(
        connection.query_all(statement, &[]),
        Err(Error::SqliteFailure(ErrorCode::IntegerOverflow))
    )
}

#[test]
fn sums_that_do_not_fit_are_errors(rt: HostRuntime) -> Result<(), Fail> {
    let alloc = rt.alloc();
    let rows = "id,k,v\n0,a,9223372036854775807\n1,a,1\n";
    let database = database_of(alloc, CATALOG, &[rows, NO_ROWS_OF_D])?;
    let plan = accepted(alloc, database.catalog(), SUMS)?;
    let statement = plan_sql(alloc, Dialect::Sqlite, plan.plan())?;
    let mut connection = opened(alloc, &database)?;
    assert!(rt; overflows(&mut connection, statement.as_str()));
    assert!(rt; eval(alloc, &StandardFunctions, plan.plan(), &database).is_err());
    Ok(())
}
