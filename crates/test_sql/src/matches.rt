//! Limits, semi joins and anti joins: first rows in an order, and rows that have a match or none.

use crate::cases::{compare_all, database_of};
use crate::examples::{CATALOG, ROWS_OF_D, rows_of_t};
use std::test::Fail;

// The first rows.
const FIRST: &str =
    r#"{"sizes":["many"],"total":true,"root":{"op":"limit","rows":50,"claim":{"part":"one","order":["v","id"],"keys":[["id"]]},"input":{"op":"exchange","kind":"gather","merge":["v","id"],"claim":{"part":"one","order":["v","id"],"keys":[["id"]]},"input":{"op":"sort","columns":["v","id"],"claim":{"order":["v","id"],"keys":[["id"]]},"input":{"op":"scan","relation":"t","mode":"shared","size":"many","claim":{"keys":[["id"]]}}}}}}"#;

// The first counts of first rows.
const COUNTED: &str =
    r#"{"sizes":["many"],"total":true,"root":{"op":"limit","rows":3,"claim":{"part":"one","order":["c","k"],"keys":[["k"]]},"input":{"op":"sort","columns":["c","k"],"claim":{"part":"one","order":["c","k"],"keys":[["k"]]},"input":{"op":"group","by":["k"],"aggregates":[{"fn":"count","as":"c"}],"claim":{"part":"one","keys":[["k"]]},"input":{"op":"limit","rows":20,"claim":{"part":"one"},"input":{"op":"exchange","kind":"gather","merge":["v","id"],"claim":{"part":"one","order":["v","id"],"keys":[["id"]]},"input":{"op":"sort","columns":["v","id"],"claim":{"order":["v","id"],"keys":[["id"]]},"input":{"op":"scan","relation":"t","mode":"shared","size":"many","claim":{"keys":[["id"]]}}}}}}}}}"#;

// No first rows.
const NONE: &str =
    r#"{"sizes":["many"],"root":{"op":"limit","rows":0,"claim":{"part":"one","keys":[[]]},"input":{"op":"exchange","kind":"gather","merge":["v","id"],"claim":{"part":"one","order":["v","id"],"keys":[["id"]]},"input":{"op":"sort","columns":["v","id"],"claim":{"order":["v","id"],"keys":[["id"]]},"input":{"op":"scan","relation":"t","mode":"shared","size":"many","claim":{"keys":[["id"]]}}}}}}"#;

// Rows that have a match.
const MATCHED: &str =
    r#"{"sizes":["many"],"root":{"op":"exchange","kind":"gather","claim":{"part":"one","keys":[["id"]]},"input":{"op":"join","method":"hash","kind":"semi","on":[["k","d.k"]],"claim":{"part":{"hash":"h","columns":["k"]},"keys":[["id"]]},"left":{"op":"exchange","kind":"hash","route":"h","columns":["k"],"size":"many","claim":{"part":{"hash":"h","columns":["k"]},"keys":[["id"]]},"input":{"op":"scan","relation":"t","mode":"shared","size":"many","claim":{"keys":[["id"]]}}},"right":{"op":"exchange","kind":"hash","route":"h","columns":["d.k"],"size":"many","claim":{"part":{"hash":"h","columns":["d.k"]}},"input":{"op":"scan","relation":"d","mode":"shared","size":"many","prefix":"d."}}}}}"#;

// Rows that have none, under conditions on both sides.
const UNMATCHED: &str =
    r#"{"sizes":["many"],"total":true,"root":{"op":"exchange","kind":"gather","merge":["id"],"claim":{"part":"one","order":["id"],"keys":[["id"]]},"input":{"op":"join","method":"hash","kind":"anti","on":[["k","d.k"]],"where":[{"column":"v","op":"<","column2":"d.n"},{"column":"v","op":">","value":0},{"column":"d.n","op":"<>","value":10}],"claim":{"order":["id"],"keys":[["id"]]},"left":{"op":"scan","relation":"t","mode":"shared","size":"many","claim":{"order":["id"],"keys":[["id"]]}},"right":{"op":"exchange","kind":"broadcast","size":"many","claim":{"part":"all"},"input":{"op":"scan","relation":"d","mode":"shared","size":"many","prefix":"d."}}}}}"#;

// The first rows that have a match.
const SOME: &str =
    r#"{"sizes":["many"],"total":true,"root":{"op":"limit","rows":7,"claim":{"part":"one","order":["id"],"keys":[["id"]]},"input":{"op":"exchange","kind":"gather","merge":["id"],"claim":{"part":"one","order":["id"],"keys":[["id"]]},"input":{"op":"join","method":"hash","kind":"semi","on":[["k","d.k"]],"where":[{"column":"v","op":"<","column2":"d.n"},{"column":"v","op":">","value":0}],"claim":{"order":["id"],"keys":[["id"]]},"left":{"op":"scan","relation":"t","mode":"shared","size":"many","claim":{"order":["id"],"keys":[["id"]]}},"right":{"op":"exchange","kind":"broadcast","size":"many","claim":{"part":"all"},"input":{"op":"scan","relation":"d","mode":"shared","size":"many","prefix":"d."}}}}}}"#;

const PLANS: [&str; 6] = [FIRST, COUNTED, NONE, MATCHED, UNMATCHED, SOME];

#[test]
fn first_and_matched_rows_are_these(rt: HostRuntime) -> Result<(), Fail> {
    let alloc = rt.alloc();
    let rows = rows_of_t(alloc, 200)?;
    let database = database_of(alloc, CATALOG, &[rows.as_str(), ROWS_OF_D])?;
    compare_all(&rt, alloc, &database, &PLANS)
}

#[test]
fn without_rows_there_are_none(rt: HostRuntime) -> Result<(), Fail> {
    let alloc = rt.alloc();
    let database = database_of(alloc, CATALOG, &["id,k,v\n", "k,n\na,1\n"])?;
    compare_all(&rt, alloc, &database, &PLANS)
}
