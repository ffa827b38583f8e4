//! Orders in which a column falls.

use crate::cases::{assert_lines, compare_all, database_of};
use crate::examples::{CATALOG, ROWS_OF_D, rows_of_t};
use std::test::Fail;

// The first rows, the greatest numbers first, and where those are equal in the order of the ids.
const GREATEST: &str =
    r#"{"sizes":["many"],"total":true,"root":{"op":"limit","rows":3,"claim":{"part":"one","order":[{"column":"v","desc":true},"id"],"keys":[["id"]]},"input":{"op":"exchange","kind":"gather","merge":[{"column":"v","desc":true},"id"],"claim":{"part":"one","order":[{"column":"v","desc":true},"id"],"keys":[["id"]]},"input":{"op":"sort","columns":[{"column":"v","desc":true},"id"],"claim":{"order":[{"column":"v","desc":true},"id"],"keys":[["id"]]},"input":{"op":"scan","relation":"t","mode":"shared","size":"many","claim":{"keys":[["id"]]}}}}}}"#;

// All rows, the last texts by their bytes first, and where those are equal the last ids first.
const LAST: &str =
    r#"{"total":true,"root":{"op":"sort","columns":[{"column":"k","desc":true},{"column":"id","desc":true}],"claim":{"part":"one","order":[{"column":"k","desc":true},{"column":"id","desc":true}],"keys":[["id"]]},"input":{"op":"scan","relation":"t","mode":"whole","size":"one","claim":{"part":"one","keys":[["id"]]}}}}"#;

const FEW_ROWS: &str = "id,k,v\n0,a,1\n1,b,3\n2,a,3\n3,B,-2\n";

#[test]
fn falling_columns_have_these_rows(rt: HostRuntime) -> Result<(), Fail> {
    let alloc = rt.alloc();
    let database = database_of(alloc, CATALOG, &[FEW_ROWS, ROWS_OF_D])?;
    assert_lines(
        &rt,
        alloc,
        &database,
        GREATEST,
        &["1,'b',3", "2,'a',3", "0,'a',1"],
    )?;
    assert_lines(
        &rt,
        alloc,
        &database,
        LAST,
        &["1,'b',3", "2,'a',3", "0,'a',1", "3,'B',-2"],
    )
}

#[test]
fn falling_columns_are_compared(rt: HostRuntime) -> Result<(), Fail> {
    let alloc = rt.alloc();
    let rows = rows_of_t(alloc, 200)?;
    let database = database_of(alloc, CATALOG, &[rows.as_str(), ROWS_OF_D])?;
    compare_all(&rt, alloc, &database, &[GREATEST, LAST])
}
