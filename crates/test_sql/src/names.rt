//! Relations, columns and outputs whose names are like those that a statement makes for its nodes and their columns.

use crate::cases::{compare_all, database_of};
use std::test::Fail;

// A relation with the name of the first node below the root, and a column with that of the node's column.
const ALIKE: &str =
    r#"{"relations":[{"name":"t","columns":[{"name":"a","type":"int"}]},{"name":"n1","columns":[{"name":"c1_0","type":"int"}]}]}"#;

// The rows of one relation and then those of the one with the name of a node.
const UNION: &str =
    r#"{"root":{"op":"union","claim":{"part":"one"},"left":{"op":"scan","relation":"t","mode":"whole","size":"one","claim":{"part":"one"}},"right":{"op":"scan","relation":"n1","mode":"whole","size":"one","claim":{"part":"one"}}}}"#;

// The node has the name of the relation that it scans.
const CIRCULAR: &str =
    r#"{"root":{"op":"select","where":[{"column":"c1_0","op":">=","value":2}],"claim":{"part":"one"},"input":{"op":"scan","relation":"n1","mode":"whole","size":"one","claim":{"part":"one"}}}}"#;

// The names of the root and of its two columns in upper case, and each column has the name of the other.
const SWAPPED: &str =
    r#"{"relations":[{"name":"N0","columns":[{"name":"C0_1","type":"int"},{"name":"C0_0","type":"int"}],"keys":[["C0_0"]]}]}"#;

const SCANNED: &str =
    r#"{"root":{"op":"scan","relation":"N0","mode":"whole","size":"one","claim":{"part":"one"}}}"#;

const SORTED: &str =
    r#"{"total":true,"root":{"op":"sort","columns":["C0_0"],"claim":{"part":"one","order":["C0_0"],"keys":[["C0_0"]]},"input":{"op":"select","where":[{"column":"C0_1","op":"<","value":3}],"claim":{"part":"one","keys":[["C0_0"]]},"input":{"op":"scan","relation":"N0","mode":"whole","size":"one","claim":{"part":"one","keys":[["C0_0"]]}}}}}"#;

// One underscore is not enough.
const UNDERSCORED: &str =
    r#"{"relations":[{"name":"n1","columns":[{"name":"c1_0","type":"int"}]},{"name":"n_1","columns":[{"name":"c_1_0","type":"int"}]}]}"#;

const BOTH: &str =
    r#"{"root":{"op":"union","claim":{"part":"one"},"left":{"op":"scan","relation":"n1","mode":"whole","size":"one","claim":{"part":"one"}},"right":{"op":"scan","relation":"n_1","mode":"whole","size":"one","claim":{"part":"one"}}}}"#;

#[test]
fn names_like_those_of_nodes_have_their_rows(rt: HostRuntime) -> Result<(), Fail> {
    let alloc = rt.alloc();
    let alike = database_of(alloc, ALIKE, &["a\n1\n", "c1_0\n2\n"])?;
    compare_all(&rt, alloc, &alike, &[UNION, CIRCULAR])?;
    let swapped = database_of(alloc, SWAPPED, &["C0_1,C0_0\n1,20\n2,10\n3,30\n"])?;
    compare_all(&rt, alloc, &swapped, &[SCANNED, SORTED])?;
    let underscored = database_of(alloc, UNDERSCORED, &["c1_0\n1\n", "c_1_0\n2\n"])?;
    compare_all(&rt, alloc, &underscored, &[BOTH])
}
