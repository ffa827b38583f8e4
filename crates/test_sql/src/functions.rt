//! Plans with functions, as far as the SQLite of the toolchain's libraries reads their statements: what tests for numbers of more
//! than 64 bits, spans of texts and patterns is asked of other systems, by `tools/try-sql`.

use crate::cases::{compare_all, database_of};
use crate::examples::{CATALOG, ROWS_OF_D, rows_of_t};
use std::test::Fail;

// Texts that are computed.
const TEXTS: &str =
    r#"{"total":true,"root":{"op":"project","columns":["id",{"fn":"lower","of":["k"],"type":"text","as":"a"},{"fn":"upper","of":["k"],"type":"text","as":"b"},{"fn":"concat","of":["k",{"value":"'s"}],"type":"text","as":"c"},{"value":"it's","as":"d"},{"fn":"length","of":[{"fn":"concat","of":["k","k"],"type":"text"}],"type":"int","as":"e"}],"claim":{"part":"one","order":["id"],"keys":[["id"]]},"input":{"op":"scan","relation":"t","mode":"whole","size":"one","claim":{"part":"one","order":["id"],"keys":[["id"]]}}}}"#;

// Comparisons, as numbers.
const TRUTHS: &str =
    r#"{"total":true,"root":{"op":"project","columns":["id",{"fn":"eq","of":["v",{"value":0}],"type":"int","as":"a"},{"fn":"lt","of":["k",{"value":"b"}],"type":"int","as":"b"},{"fn":"and","of":["v","id"],"type":"int","as":"c"},{"fn":"or","of":["v",{"fn":"ge","of":["id",{"value":5}],"type":"int"}],"type":"int","as":"d"},{"fn":"not","of":["v"],"type":"int","as":"e"},{"fn":"starts_with","of":["k",{"value":"it"}],"type":"int","as":"f"},{"fn":"contains","of":["k",{"value":"'"}],"type":"int","as":"g"},{"fn":"contains","of":["k",{"value":""}],"type":"int","as":"h"}],"claim":{"part":"one","order":["id"],"keys":[["id"]]},"input":{"op":"scan","relation":"t","mode":"whole","size":"one","claim":{"part":"one","order":["id"],"keys":[["id"]]}}}}"#;

// One of two values.
const CHOICES: &str =
    r#"{"total":true,"root":{"op":"project","columns":["id",{"fn":"if","of":[{"fn":"gt","of":["v",{"value":3}],"type":"int"},"k",{"value":"few"}],"type":"text","as":"a"},{"fn":"if","of":["v","id",{"value":-9223372036854775808}],"type":"int","as":"b"},{"value":-7,"as":"c"}],"claim":{"part":"one","order":["id"],"keys":[["id"]]},"input":{"op":"scan","relation":"t","mode":"whole","size":"one","claim":{"part":"one","order":["id"],"keys":[["id"]]}}}}"#;

// Rows that are selected by functions and by a comparison.
const SELECTED: &str =
    r#"{"total":true,"root":{"op":"select","where":[{"fn":"or","of":[{"fn":"ne","of":["k",{"value":"it's"}],"type":"int"},{"fn":"le","of":["v",{"value":0}],"type":"int"}]},{"column":"v","op":"<","value":9},{"fn":"and","of":["v",{"value":-1}]}],"claim":{"part":"one","order":["id"],"keys":[["id"]]},"input":{"op":"scan","relation":"t","mode":"whole","size":"one","claim":{"part":"one","order":["id"],"keys":[["id"]]}}}}"#;

// Groups by what is computed, and their sums.
const GROUPED: &str =
    r#"{"root":{"op":"group","by":["size"],"aggregates":[{"fn":"sum","column":"v","as":"s"},{"fn":"count","as":"c"}],"claim":{"part":"one","keys":[["size"]]},"input":{"op":"project","columns":[{"fn":"length","of":["k"],"type":"int","as":"size"},"v"],"claim":{"part":"one"},"input":{"op":"scan","relation":"t","mode":"whole","size":"one","claim":{"part":"one"}}}}}"#;

const PLANS: [&str; 5] = [TEXTS, TRUTHS, CHOICES, SELECTED, GROUPED];

#[test]
fn functions_have_their_answers(rt: HostRuntime) -> Result<(), Fail> {
    let alloc = rt.alloc();
    let rows = rows_of_t(alloc, 60)?;
    let database = database_of(alloc, CATALOG, &[rows.as_str(), ROWS_OF_D])?;
    compare_all(&rt, alloc, &database, &PLANS)
}
