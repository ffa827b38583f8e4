//! Blocks: which nodes stand in one SELECT, what ends it, and the names of its columns.

use crate::cases::{compare_all, database_of};
use crate::examples::{CATALOG, ROWS_OF_D, rows_of_t};
use std::test::Fail;

// The first groups by a sum.
const GREATEST: &str =
    r#"{"total":true,"root":{"op":"limit","rows":2,"claim":{"part":"one","order":[{"column":"s","desc":true},"k"],"keys":[["k"]]},"input":{"op":"sort","columns":[{"column":"s","desc":true},"k"],"claim":{"part":"one","order":[{"column":"s","desc":true},"k"],"keys":[["k"]]},"input":{"op":"group","by":["k"],"aggregates":[{"fn":"sum","column":"v","as":"s"},{"fn":"count","as":"n"}],"claim":{"part":"one","keys":[["k"]]},"input":{"op":"select","where":[{"column":"v","op":">","value":-5}],"claim":{"part":"one"},"input":{"op":"scan","relation":"t","mode":"whole","size":"one","claim":{"part":"one","keys":[["id"]]}}}}}}}"#;

// Some of the first rows, in another order, and of those the first ones.
const FEWER: &str =
    r#"{"total":true,"root":{"op":"limit","rows":4,"claim":{"part":"one","order":[{"column":"id","desc":true}],"keys":[["id"]]},"input":{"op":"sort","columns":[{"column":"id","desc":true}],"claim":{"part":"one","order":[{"column":"id","desc":true}],"keys":[["id"]]},"input":{"op":"select","where":[{"column":"v","op":"<>","value":7}],"claim":{"part":"one","keys":[["id"]]},"input":{"op":"limit","rows":9,"claim":{"part":"one","order":["v","id"],"keys":[["id"]]},"input":{"op":"sort","columns":["v","id"],"claim":{"part":"one","order":["v","id"],"keys":[["id"]]},"input":{"op":"scan","relation":"t","mode":"whole","size":"one","claim":{"part":"one","keys":[["id"]]}}}}}}}}"#;

// First rows in another order than that which chose them.
const SORTED_LIMIT: &str =
    r#"{"total":true,"root":{"op":"sort","columns":["k","id"],"claim":{"part":"one","order":["k","id"],"keys":[["id"]]},"input":{"op":"limit","rows":9,"claim":{"part":"one","order":["v","id"],"keys":[["id"]]},"input":{"op":"sort","columns":["v","id"],"claim":{"part":"one","order":["v","id"],"keys":[["id"]]},"input":{"op":"scan","relation":"t","mode":"whole","size":"one","claim":{"part":"one","keys":[["id"]]}}}}}}"#;

// Rows of four inputs, one of them groups and one first rows.
const UNIONS: &str =
    r#"{"root":{"op":"sort","columns":["id"],"claim":{"part":"one","order":["id"]},"input":{"op":"union","claim":{"part":"one"},"left":{"op":"union","claim":{"part":"one"},"left":{"op":"project","columns":["id"],"claim":{"part":"one"},"input":{"op":"scan","relation":"t","mode":"whole","size":"one","claim":{"part":"one","keys":[["id"]]}}},"right":{"op":"project","columns":[{"column":"u.v","as":"x"}],"claim":{"part":"one"},"input":{"op":"scan","relation":"t","mode":"whole","size":"one","prefix":"u.","claim":{"part":"one","keys":[["u.id"]]}}}},"right":{"op":"union","claim":{"part":"one"},"left":{"op":"group","by":["d.n"],"aggregates":[],"claim":{"part":"one"},"input":{"op":"scan","relation":"d","mode":"whole","size":"one","prefix":"d.","claim":{"part":"one","keys":[["d.k"]]}}},"right":{"op":"limit","rows":3,"claim":{"part":"one","order":["w.id"],"keys":[["w.id"]]},"input":{"op":"sort","columns":["w.id"],"claim":{"part":"one","order":["w.id"],"keys":[["w.id"]]},"input":{"op":"project","columns":["w.id"],"claim":{"part":"one","keys":[["w.id"]]},"input":{"op":"scan","relation":"t","mode":"whole","size":"one","prefix":"w.","claim":{"part":"one","keys":[["w.id"]]}}}}}}}}}"#;

// The first rows of two inputs.
const FIRST_OF_BOTH: &str =
    r#"{"root":{"op":"union","claim":{"part":"one"},"left":{"op":"limit","rows":2,"claim":{"part":"one","order":["id"],"keys":[["id"]]},"input":{"op":"sort","columns":["id"],"claim":{"part":"one","order":["id"],"keys":[["id"]]},"input":{"op":"project","columns":["id"],"claim":{"part":"one","keys":[["id"]]},"input":{"op":"scan","relation":"t","mode":"whole","size":"one","claim":{"part":"one","keys":[["id"]]}}}}},"right":{"op":"limit","rows":3,"claim":{"part":"one","order":[{"column":"u.id","desc":true}],"keys":[["u.id"]]},"input":{"op":"sort","columns":[{"column":"u.id","desc":true}],"claim":{"part":"one","order":[{"column":"u.id","desc":true}],"keys":[["u.id"]]},"input":{"op":"project","columns":["u.id"],"claim":{"part":"one","keys":[["u.id"]]},"input":{"op":"scan","relation":"t","mode":"whole","size":"one","prefix":"u.","claim":{"part":"one","keys":[["u.id"]]}}}}}}}"#;

// Columns with the names of others, and their groups.
const SWAPPED: &str =
    r#"{"total":true,"root":{"op":"sort","columns":["k"],"claim":{"part":"one","order":["k"],"keys":[["k"]]},"input":{"op":"group","by":["k"],"aggregates":[{"fn":"sum","column":"v","as":"id"},{"fn":"min","column":"id","as":"v"}],"claim":{"part":"one","keys":[["k"]]},"input":{"op":"project","columns":[{"column":"v","as":"id"},{"column":"id","as":"v"},"k"],"claim":{"part":"one"},"input":{"op":"select","where":[{"column":"k","op":">=","value":"a"}],"claim":{"part":"one"},"input":{"op":"scan","relation":"t","mode":"whole","size":"one","claim":{"part":"one","keys":[["id"]]}}}}}}}"#;

// Names that differ in case alone.
const ALIKE: &str =
    r#"{"total":true,"root":{"op":"sort","columns":["A","a"],"claim":{"part":"one","order":["A","a"],"keys":[["a","A"]]},"input":{"op":"project","columns":[{"column":"A","as":"a"},{"column":"a","as":"A"},"B"],"claim":{"part":"one","keys":[["a","A"]]},"input":{"op":"group","by":["a","A"],"aggregates":[{"fn":"max","column":"b","as":"B"}],"claim":{"part":"one","keys":[["a","A"]]},"input":{"op":"project","columns":[{"column":"v","as":"a"},{"column":"id","as":"A"},{"column":"k","as":"b"}],"claim":{"part":"one"},"input":{"op":"scan","relation":"t","mode":"whole","size":"one","claim":{"part":"one","keys":[["id"]]}}}}}}}"#;

// Names that differ behind 63 bytes.
const LONG: &str =
    r#"{"total":true,"root":{"op":"sort","columns":["xxxxxxxxxxxxxxxxxxxxxxxxxxxxxxxxxxxxxxxxxxxxxxxxxxxxxxxxxxxxxxxxxxxxxy"],"claim":{"part":"one","order":["xxxxxxxxxxxxxxxxxxxxxxxxxxxxxxxxxxxxxxxxxxxxxxxxxxxxxxxxxxxxxxxxxxxxxy"],"keys":[["xxxxxxxxxxxxxxxxxxxxxxxxxxxxxxxxxxxxxxxxxxxxxxxxxxxxxxxxxxxxxxxxxxxxxy"]]},"input":{"op":"group","by":["xxxxxxxxxxxxxxxxxxxxxxxxxxxxxxxxxxxxxxxxxxxxxxxxxxxxxxxxxxxxxxxxxxxxxy"],"aggregates":[{"fn":"sum","column":"xxxxxxxxxxxxxxxxxxxxxxxxxxxxxxxxxxxxxxxxxxxxxxxxxxxxxxxxxxxxxxxxxxxxxz","as":"z"}],"claim":{"part":"one","keys":[["xxxxxxxxxxxxxxxxxxxxxxxxxxxxxxxxxxxxxxxxxxxxxxxxxxxxxxxxxxxxxxxxxxxxxy"]]},"input":{"op":"project","columns":[{"column":"v","as":"xxxxxxxxxxxxxxxxxxxxxxxxxxxxxxxxxxxxxxxxxxxxxxxxxxxxxxxxxxxxxxxxxxxxxy"},{"column":"id","as":"xxxxxxxxxxxxxxxxxxxxxxxxxxxxxxxxxxxxxxxxxxxxxxxxxxxxxxxxxxxxxxxxxxxxxz"}],"claim":{"part":"one"},"input":{"op":"scan","relation":"t","mode":"whole","size":"one","claim":{"part":"one","keys":[["id"]]}}}}}}"#;

// A relation with itself.
const ITSELF: &str =
    r#"{"total":true,"root":{"op":"sort","columns":["id","u.id"],"claim":{"part":"one","order":["id","u.id"],"keys":[["id","u.id"]]},"input":{"op":"join","method":"hash","on":[["k","u.k"]],"claim":{"part":"one","keys":[["id","u.id"]]},"left":{"op":"select","where":[{"column":"v","op":">","value":0}],"claim":{"part":"one","keys":[["id"]]},"input":{"op":"scan","relation":"t","mode":"whole","size":"one","claim":{"part":"one","keys":[["id"]]}}},"right":{"op":"select","where":[{"column":"u.v","op":"<","value":6}],"claim":{"part":"one","keys":[["u.id"]]},"input":{"op":"scan","relation":"t","mode":"whole","size":"one","prefix":"u.","claim":{"part":"one","keys":[["u.id"]]}}}}}}"#;

// A join of joins.
const BOTH_SIDES: &str =
    r#"{"root":{"op":"sort","columns":["id"],"claim":{"part":"one","order":["id"]},"input":{"op":"join","method":"hash","on":[["id","u.id"]],"claim":{"part":"one"},"left":{"op":"join","method":"hash","on":[["k","d.k"]],"claim":{"part":"one"},"left":{"op":"scan","relation":"t","mode":"whole","size":"one","claim":{"part":"one","keys":[["id"]]}},"right":{"op":"scan","relation":"d","mode":"whole","size":"one","prefix":"d.","claim":{"part":"one","keys":[["d.k"]]}}},"right":{"op":"join","method":"hash","on":[["u.k","e.k"]],"claim":{"part":"one"},"left":{"op":"scan","relation":"t","mode":"whole","size":"one","prefix":"u.","claim":{"part":"one","keys":[["u.id"]]}},"right":{"op":"scan","relation":"d","mode":"whole","size":"one","prefix":"e.","claim":{"part":"one","keys":[["e.k"]]}}}}}}"#;

// A join with groups, and conditions on what it gives.
const OF_GROUPS: &str =
    r#"{"root":{"op":"group","by":["u.k"],"aggregates":[{"fn":"max","column":"s","as":"m"},{"fn":"count","as":"n"}],"claim":{"part":"one"},"input":{"op":"select","where":[{"column":"s","op":">","value":0}],"claim":{"part":"one"},"input":{"op":"join","method":"hash","on":[["k","u.k"]],"claim":{"part":"one"},"left":{"op":"scan","relation":"t","mode":"whole","size":"one","claim":{"part":"one","keys":[["id"]]}},"right":{"op":"group","by":["u.k"],"aggregates":[{"fn":"sum","column":"u.v","as":"s"}],"claim":{"part":"one","keys":[["u.k"]]},"input":{"op":"scan","relation":"t","mode":"whole","size":"one","prefix":"u.","claim":{"part":"one","keys":[["u.id"]]}}}}}}}"#;

// Rows with a match that has a match, and those with none that has one.
const WITHIN: &str =
    r#"{"total":true,"root":{"op":"sort","columns":["id"],"claim":{"part":"one","order":["id"],"keys":[["id"]]},"input":{"op":"join","method":"hash","kind":"anti","on":[["id","w.v"]],"where":[{"column":"v","op":"<","column2":"e.n"}],"claim":{"part":"one","keys":[["id"]]},"left":{"op":"join","method":"hash","kind":"semi","on":[["k","d.k"]],"claim":{"part":"one","keys":[["id"]]},"left":{"op":"scan","relation":"t","mode":"whole","size":"one","claim":{"part":"one","keys":[["id"]]}},"right":{"op":"join","method":"hash","kind":"semi","on":[["d.k","u.k"]],"claim":{"part":"one"},"left":{"op":"scan","relation":"d","mode":"whole","size":"one","prefix":"d.","claim":{"part":"one","keys":[["d.k"]]}},"right":{"op":"scan","relation":"t","mode":"whole","size":"one","prefix":"u.","claim":{"part":"one","keys":[["u.id"]]}}}},"right":{"op":"join","method":"hash","on":[["w.k","e.k"]],"claim":{"part":"one"},"left":{"op":"scan","relation":"t","mode":"whole","size":"one","prefix":"w.","claim":{"part":"one"}},"right":{"op":"scan","relation":"d","mode":"whole","size":"one","prefix":"e.","claim":{"part":"one"}}}}}}"#;

// Groups of rows without a match, under conditions on all.
const MATCHED: &str =
    r#"{"total":true,"root":{"op":"sort","columns":["k"],"claim":{"part":"one","order":["k"],"keys":[["k"]]},"input":{"op":"group","by":["k"],"aggregates":[{"fn":"count","as":"n"}],"claim":{"part":"one","keys":[["k"]]},"input":{"op":"select","where":[{"column":"k","op":"<>","value":"z"}],"claim":{"part":"one"},"input":{"op":"join","method":"hash","kind":"anti","on":[["k","d.k"]],"claim":{"part":"one"},"left":{"op":"select","where":[{"column":"v","op":">","value":-5}],"claim":{"part":"one"},"input":{"op":"scan","relation":"t","mode":"whole","size":"one","claim":{"part":"one","keys":[["id"]]}}},"right":{"op":"select","where":[{"column":"d.n","op":">","value":10}],"claim":{"part":"one"},"input":{"op":"scan","relation":"d","mode":"whole","size":"one","prefix":"d.","claim":{"part":"one","keys":[["d.k"]]}}}}}}}}"#;

// Conditions on what is computed, in an order by a constant.
const COMPUTED: &str =
    r#"{"total":true,"root":{"op":"sort","columns":["c","d","id","v"],"claim":{"part":"one","order":["c","d","id","v"],"keys":[["v"]]},"input":{"op":"select","where":[{"column":"id","op":">","value":2},{"fn":"eq","of":["d",{"value":"z"}]}],"claim":{"part":"one","keys":[["v"]]},"input":{"op":"project","columns":[{"column":"id","as":"v"},{"fn":"length","of":["k"],"type":"int","as":"id"},{"value":7,"as":"c"},{"value":"z","as":"d"}],"claim":{"part":"one","keys":[["v"]]},"input":{"op":"scan","relation":"t","mode":"whole","size":"one","claim":{"part":"one","keys":[["id"]]}}}}}}"#;

// Groups by what is computed, and groups of these.
const COUNTED: &str =
    r#"{"total":true,"root":{"op":"sort","columns":["n"],"claim":{"part":"one","order":["n"],"keys":[["n"]]},"input":{"op":"group","by":["n"],"aggregates":[{"fn":"count","as":"m"}],"claim":{"part":"one","keys":[["n"]]},"input":{"op":"group","by":["five","m"],"aggregates":[{"fn":"count","as":"n"}],"claim":{"part":"one","keys":[["five","m"]]},"input":{"op":"project","columns":[{"fn":"length","of":["k"],"type":"int","as":"m"},{"value":5,"as":"five"}],"claim":{"part":"one"},"input":{"op":"scan","relation":"t","mode":"whole","size":"one","claim":{"part":"one","keys":[["id"]]}}}}}}}"#;

// Distinct rows of distinct rows, of which one column is there twice.
const EACH_ONCE: &str =
    r#"{"total":true,"root":{"op":"sort","columns":[{"column":"l","desc":true}],"claim":{"part":"one","order":[{"column":"l","desc":true}],"keys":[["l"]]},"input":{"op":"project","columns":["k",{"column":"k","as":"l"}],"claim":{"part":"one","keys":[["l"]]},"input":{"op":"distinct","columns":["k"],"claim":{"part":"one","keys":[["k"]]},"input":{"op":"distinct","columns":["k",{"column":"v","as":"w"}],"claim":{"part":"one","keys":[["k","w"]]},"input":{"op":"scan","relation":"t","mode":"whole","size":"one","claim":{"part":"one","keys":[["id"]]}}}}}}}"#;

const PLANS: [&str; 16] = [
    GREATEST,
    FEWER,
    SORTED_LIMIT,
    UNIONS,
    FIRST_OF_BOTH,
    SWAPPED,
    ALIKE,
    LONG,
    ITSELF,
    BOTH_SIDES,
    OF_GROUPS,
    WITHIN,
    MATCHED,
    COMPUTED,
    COUNTED,
    EACH_ONCE,
];

#[test]
fn blocks_have_their_rows(rt: HostRuntime) -> Result<(), Fail> {
    let alloc = rt.alloc();
    let rows = rows_of_t(alloc, 60)?;
    let database = database_of(alloc, CATALOG, &[rows.as_str(), ROWS_OF_D])?;
    compare_all(&rt, alloc, &database, &PLANS)
}

#[test]
fn blocks_without_rows_have_none(rt: HostRuntime) -> Result<(), Fail> {
    let alloc = rt.alloc();
    let database = database_of(alloc, CATALOG, &["id,k,v\n", "k,n\na,1\n"])?;
    compare_all(&rt, alloc, &database, &PLANS)
}
