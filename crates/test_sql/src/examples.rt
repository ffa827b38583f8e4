//! The plans of `examples` over more rows: texts that other systems may order by letters and not by bytes, and numbers on
//! both sides of zero.

use crate::cases::{compare_all, database_of};
use std::alloc::{AllocError, Global};
use std::test::Fail;

/// The relations t(id, k, v), by its key and order id, and d(k, n), by its key k.
pub const CATALOG: &str =
    r#"{"relations":[{"name":"t","columns":[{"name":"id","type":"int"},{"name":"k","type":"text"},{"name":"v","type":"int"}],"keys":[["id"]],"order":["id"]},{"name":"d","columns":[{"name":"k","type":"text"},{"name":"n","type":"int"}],"keys":[["k"]]}]}"#;

// Rows that pass a selection.
const SELECTED: &str =
    r#"{"sizes":["many"],"root":{"op":"exchange","kind":"gather","claim":{"part":"one"},"input":{"op":"select","where":[{"column":"v","op":"=","value":7}],"input":{"op":"scan","relation":"t","mode":"shared","size":"many"}}}}"#;

// Each operator.
const OPERATORS: &str =
    r#"{"sizes":["many"],"total":true,"root":{"op":"project","columns":["k","s","n","c"],"claim":{"part":"one","order":["k"],"keys":[["k"]]},"input":{"op":"join","method":"merge","on":[["k","o.k"]],"claim":{"part":"one","order":["k"],"keys":[["k"]]},"left":{"op":"sort","columns":["k"],"claim":{"part":"one","order":["k"],"keys":[["k"]]},"input":{"op":"project","columns":["k","s",{"column":"d.n","as":"n"}],"claim":{"part":"one","keys":[["k"]]},"input":{"op":"join","method":"hash","on":[["k","d.k"]],"claim":{"part":"one","keys":[["k"]]},"left":{"op":"group","phase":"final","claim":{"part":"one","keys":[["k"]]},"input":{"op":"exchange","kind":"gather","claim":{"part":"one"},"input":{"op":"group","phase":"partial","by":["k"],"aggregates":[{"fn":"sum","column":"v","as":"s"}],"input":{"op":"select","where":[{"column":"v","op":">","value":0}],"input":{"op":"scan","relation":"t","mode":"shared","size":"many"}}}}},"right":{"op":"scan","relation":"d","mode":"whole","size":"one","prefix":"d.","claim":{"part":"one","keys":[["d.k"]]}}}}},"right":{"op":"sort","columns":["o.k"],"claim":{"part":"one","order":["o.k"],"keys":[["o.k"]]},"input":{"op":"group","by":["o.k"],"aggregates":[{"fn":"count","as":"c"}],"claim":{"part":"one","keys":[["o.k"]]},"input":{"op":"union","claim":{"part":"one"},"left":{"op":"distinct","columns":["o.k","o.v"],"claim":{"part":"one","keys":[["o.k","o.v"]]},"input":{"op":"scan","relation":"t","mode":"whole","size":"one","prefix":"o.","claim":{"part":"one"}}},"right":{"op":"scan","relation":"d","mode":"whole","size":"one","claim":{"part":"one"}}}}}}}}"#;

// Sums by a key, in the order of the keys.
const GROUPED: &str =
    r#"{"sizes":["many"],"total":true,"root":{"op":"exchange","kind":"gather","merge":["k"],"claim":{"part":"one","order":["k"],"keys":[["k"]]},"input":{"op":"sort","columns":["k"],"claim":{"part":{"hash":"h","columns":["k"]},"order":["k"],"keys":[["k"]]},"input":{"op":"group","by":["k"],"aggregates":[{"fn":"sum","column":"v","as":"s"}],"claim":{"part":{"hash":"h","columns":["k"]},"keys":[["k"]]},"input":{"op":"exchange","kind":"hash","route":"h","columns":["k"],"size":"many","claim":{"part":{"hash":"h","columns":["k"]}},"input":{"op":"scan","relation":"t","mode":"shared","size":"many"}}}}}}"#;

// The same in two phases.
const PHASES: &str =
    r#"{"sizes":["many"],"total":true,"root":{"op":"exchange","kind":"gather","merge":["k"],"claim":{"part":"one","order":["k"],"keys":[["k"]]},"input":{"op":"sort","columns":["k"],"claim":{"part":{"hash":"h","columns":["k"]},"order":["k"],"keys":[["k"]]},"input":{"op":"group","phase":"final","claim":{"part":{"hash":"h","columns":["k"]},"keys":[["k"]]},"input":{"op":"exchange","kind":"hash","route":"h","columns":["k"],"size":"many","claim":{"part":{"hash":"h","columns":["k"]}},"input":{"op":"group","phase":"partial","by":["k"],"aggregates":[{"fn":"sum","column":"v","as":"s"}],"input":{"op":"scan","relation":"t","mode":"shared","size":"many"}}}}}}}"#;

// The keys of both relations, each once.
const LETTERS: &str =
    r#"{"sizes":["many"],"root":{"op":"exchange","kind":"gather","claim":{"part":"one","keys":[["k"]]},"input":{"op":"distinct","columns":["k"],"claim":{"part":{"hash":"h","columns":["k"]},"keys":[["k"]]},"input":{"op":"exchange","kind":"hash","route":"h","columns":["k"],"size":"many","claim":{"part":{"hash":"h","columns":["k"]}},"input":{"op":"union","left":{"op":"project","columns":["k"],"input":{"op":"scan","relation":"t","mode":"shared","size":"many"}},"right":{"op":"project","columns":[{"column":"k","as":"letter"}],"input":{"op":"exchange","kind":"round","size":"many","input":{"op":"scan","relation":"d","mode":"whole","size":"one"}}}}}}}}"#;

// A merge join of a relation with itself, in ranges.
const RANGES: &str =
    r#"{"sizes":["many"],"ranges":[{"name":"r","bounds":[2]}],"total":true,"root":{"op":"exchange","kind":"gather","merge":["id"],"claim":{"part":"one","order":["id"],"keys":[["id"]]},"input":{"op":"join","method":"merge","on":[["id","o.id"]],"claim":{"part":{"range":"r","column":"id"},"order":["id"],"keys":[["id"]]},"left":{"op":"exchange","kind":"range","route":"r","column":"id","size":"many","merge":["id"],"claim":{"part":{"range":"r","column":"id"},"order":["id"],"keys":[["id"]]},"input":{"op":"scan","relation":"t","mode":"shared","size":"many","claim":{"order":["id"],"keys":[["id"]]}}},"right":{"op":"exchange","kind":"range","route":"r","column":"o.id","size":"many","merge":["o.id"],"claim":{"part":{"range":"r","column":"o.id"},"order":["o.id"],"keys":[["o.id"]]},"input":{"op":"scan","relation":"t","mode":"shared","size":"many","prefix":"o.","claim":{"order":["o.id"],"keys":[["o.id"]]}}}}}}"#;

// A join with rows that each worker has.
const BROADCAST: &str =
    r#"{"sizes":["many"],"total":true,"root":{"op":"exchange","kind":"gather","merge":["id"],"claim":{"part":"one","order":["id"],"keys":[["id"]]},"input":{"op":"join","method":"hash","on":[["k","d.k"]],"claim":{"order":["id"],"keys":[["id"]]},"left":{"op":"scan","relation":"t","mode":"shared","size":"many","claim":{"order":["id"],"keys":[["id"]]}},"right":{"op":"exchange","kind":"broadcast","size":"many","claim":{"part":"all","keys":[["d.k"]]},"input":{"op":"scan","relation":"d","mode":"shared","size":"many","prefix":"d.","claim":{"keys":[["d.k"]]}}}}}}"#;

// Rows that are sorted in ranges.
const CONCAT: &str =
    r#"{"sizes":["many"],"ranges":[{"name":"r","bounds":[0,7]}],"total":true,"root":{"op":"exchange","kind":"concat","claim":{"part":"one","keys":[["id"]],"order":["v","id"]},"input":{"op":"sort","columns":["v","id"],"claim":{"part":{"range":"r","column":"v"},"order":["v","id"],"keys":[["id"]]},"input":{"op":"exchange","kind":"range","route":"r","column":"v","size":"many","claim":{"part":{"range":"r","column":"v"},"keys":[["id"]]},"input":{"op":"scan","relation":"t","mode":"shared","size":"many","claim":{"keys":[["id"]]}}}}}}"#;

// As PostgreSQL plans sums by a key.
const FOR_POSTGRESQL: &str =
    r#"{"sizes":["workers"],"total":true,"root":{"op":"group","phase":"final","claim":{"part":"one","order":["k"],"keys":[["k"]]},"input":{"op":"exchange","kind":"gather","merge":["k"],"claim":{"part":"one","order":["k"]},"input":{"op":"group","phase":"partial","by":["k"],"aggregates":[{"fn":"sum","column":"v","as":"s"}],"claim":{"order":["k"]},"input":{"op":"sort","columns":["k"],"claim":{"order":["k"]},"input":{"op":"scan","relation":"t","mode":"shared","size":"workers"}}}}}}"#;

// As Spark plans a join.
const FOR_SPARK: &str =
    r#"{"sizes":["partitions"],"root":{"op":"exchange","kind":"gather","claim":{"part":"one","keys":[["id"]]},"input":{"op":"join","method":"merge","on":[["k","d.k"]],"claim":{"part":{"hash":"h","columns":["k"]},"order":["k"],"keys":[["id"]]},"left":{"op":"sort","columns":["k"],"claim":{"part":{"hash":"h","columns":["k"]},"order":["k"],"keys":[["id"]]},"input":{"op":"exchange","kind":"hash","route":"h","columns":["k"],"size":"partitions","claim":{"part":{"hash":"h","columns":["k"]},"keys":[["id"]]},"input":{"op":"scan","relation":"t","mode":"shared","size":"partitions","claim":{"keys":[["id"]]}}}},"right":{"op":"sort","columns":["d.k"],"claim":{"part":{"hash":"h","columns":["d.k"]},"order":["d.k"],"keys":[["d.k"]]},"input":{"op":"exchange","kind":"hash","route":"h","columns":["d.k"],"size":"partitions","claim":{"part":{"hash":"h","columns":["d.k"]},"keys":[["d.k"]]},"input":{"op":"scan","relation":"d","mode":"shared","size":"partitions","prefix":"d.","claim":{"keys":[["d.k"]]}}}}}}}"#;

// As Trino plans a join and counts.
const FOR_TRINO: &str =
    r#"{"sizes":["workers"],"root":{"op":"exchange","kind":"gather","claim":{"part":"one","keys":[["d.n"]]},"input":{"op":"group","phase":"final","claim":{"part":{"hash":"h","columns":["d.n"]},"keys":[["d.n"]]},"input":{"op":"exchange","kind":"hash","route":"h","columns":["d.n"],"size":"workers","claim":{"part":{"hash":"h","columns":["d.n"]}},"input":{"op":"group","phase":"partial","by":["d.n"],"aggregates":[{"fn":"count","as":"c"}],"input":{"op":"join","method":"hash","on":[["k","d.k"]],"left":{"op":"scan","relation":"t","mode":"shared","size":"workers"},"right":{"op":"exchange","kind":"broadcast","size":"workers","claim":{"part":"all"},"input":{"op":"scan","relation":"d","mode":"shared","size":"workers","prefix":"d."}}}}}}}}"#;

const PLANS: [&str; 11] = [
    SELECTED,
    OPERATORS,
    GROUPED,
    PHASES,
    LETTERS,
    RANGES,
    BROADCAST,
    CONCAT,
    FOR_POSTGRESQL,
    FOR_SPARK,
    FOR_TRINO,
];

// Texts of the column k, of which some are not in d.
const TEXTS: [&str; 7] = ["a", "b", "B", "it's", "\u{e4}", "z", "\u{1f600}"];

/// So many rows of t.
pub fn rows_of_t(alloc: Global, rows: u16) -> Result<String, AllocError> {
    let mut text = String::from_str(alloc, "id,k,v\n")?;
    for id in 0..rows {
        let k = TEXTS[usize::from(id % 7)];
        let v = i64::from(id % 23) - 9;
        write!(text, "{id},{k},{v}\n")?;
    }
    Ok(text)
}

/// Rows of d.
pub const ROWS_OF_D: &str = "k,n\na,10\nB,20\nit's,20\n\u{e4},-4\n\u{1f600},0\n,7\n";

#[test]
fn examples_have_their_rows(rt: HostRuntime) -> Result<(), Fail> {
    let alloc = rt.alloc();
    let rows = rows_of_t(alloc, 200)?;
    let database = database_of(alloc, CATALOG, &[rows.as_str(), ROWS_OF_D])?;
    compare_all(&rt, alloc, &database, &PLANS)
}

#[test]
fn examples_without_rows_have_none(rt: HostRuntime) -> Result<(), Fail> {
    let alloc = rt.alloc();
    let database = database_of(alloc, CATALOG, &["id,k,v\n", "k,n\n"])?;
    compare_all(&rt, alloc, &database, &PLANS)
}
