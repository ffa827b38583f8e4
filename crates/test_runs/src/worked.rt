//! Plans that were worked out by hand, and what comes of them. A line of these tables has the name of a plan, its document or the name of
//! that, the names of the rows of t and of d, how many groups of workers it has beside the worker at the root, and what comes of it: rows, or the
//! line of a fault. `lines.rt` has the names.

/// Workers scan, and the root's worker gathers.
pub const GATHERED: &str =
    r#"{"sizes":["many"],"root":{"op":"exchange","kind":"gather","claim":{"part":"one"},"input":T_PLAIN}}"#;

/// Workers scan and select, and the root's worker gathers.
pub const SELECTED: &str =
    r#"{"sizes":["many"],"root":{"op":"exchange","kind":"gather","claim":{"part":"one"},"input":{"op":"select","where":[{"column":"v","op":"=","value":7}],"input":T_PLAIN}}}"#;

/// Rows that pass a selection, merged.
pub const MERGED: &str =
    r#"{"sizes":["many"],"total":true,"root":{"op":"exchange","kind":"gather","merge":["id"],"claim":{"part":"one","order":["id"],"keys":[["id"]]},"input":{"op":"select","where":[{"column":"v","op":"=","value":7}],"claim":{"part":"any","order":["id"],"keys":[["id"]]},"input":T_SHARED}}}"#;

/// The same, where the numbers fall.
pub const MERGED_FALLING: &str =
    r#"{"sizes":["many"],"total":true,"root":{"op":"exchange","kind":"gather","merge":[{"column":"id","desc":true}],"claim":{"part":"one","order":[{"column":"id","desc":true}],"keys":[["id"]]},"input":{"op":"sort","columns":[{"column":"id","desc":true}],"claim":{"part":"any","order":[{"column":"id","desc":true}],"keys":[["id"]]},"input":{"op":"select","where":[{"column":"v","op":"=","value":7}],"claim":{"part":"any","order":["id"],"keys":[["id"]]},"input":T_SHARED}}}}"#;

/// Sums of rows that are sent by their keys, in the order of these. The group is node 2.
pub const GROUPED: &str =
    r#"{"sizes":["many"],"total":true,"root":{"op":"exchange","kind":"gather","merge":["k"],"claim":{"part":"one","order":["k"],"keys":[["k"]]},"input":{"op":"sort","columns":["k"],"claim":{"part":{"hash":"h","columns":["k"]},"order":["k"],"keys":[["k"]]},"input":{"op":"group","by":["k"],"aggregates":[{"fn":"sum","column":"v","as":"s"}],"claim":{"part":{"hash":"h","columns":["k"]},"keys":[["k"]]},"input":{"op":"exchange","kind":"hash","route":"h","columns":["k"],"size":"many","claim":{"part":{"hash":"h","columns":["k"]}},"input":T_PLAIN}}}}}"#;

/// The same in two phases. The final group is node 2, the partial one node 4.
pub const SUMS_IN_TWO_PHASES: &str =
    r#"{"sizes":["many"],"total":true,"root":{"op":"exchange","kind":"gather","merge":["k"],"claim":{"part":"one","order":["k"],"keys":[["k"]]},"input":{"op":"sort","columns":["k"],"claim":{"part":{"hash":"h","columns":["k"]},"order":["k"],"keys":[["k"]]},"input":{"op":"group","phase":"final","claim":{"part":{"hash":"h","columns":["k"]},"keys":[["k"]]},"input":{"op":"exchange","kind":"hash","route":"h","columns":["k"],"size":"many","claim":{"part":{"hash":"h","columns":["k"]}},"input":{"op":"group","phase":"partial","by":["k"],"aggregates":[{"fn":"sum","column":"v","as":"s"}],"input":T_PLAIN}}}}}}"#;

/// A join with rows that each worker has.
pub const JOINED: &str =
    r#"{"sizes":["many"],"total":true,"root":{"op":"exchange","kind":"gather","merge":["id"],"claim":{"part":"one","order":["id"],"keys":[["id"]]},"input":{"op":"join","method":"hash","on":[["k","d.k"]],"claim":{"part":"any","order":["id"],"keys":[["id"]]},"left":T_SHARED,"right":{"op":"exchange","kind":"broadcast","size":"many","claim":{"part":"all","keys":[["d.k"]]},"input":D_SHARED}}}}"#;

/// A join of rows that are sent by one name.
pub const SENT_TO_MEET: &str =
    r#"{"sizes":["many"],"root":{"op":"exchange","kind":"gather","input":{"op":"join","method":"hash","on":[["k","d.k"]],"left":{"op":"exchange","kind":"hash","route":"h","columns":["k"],"size":"many","claim":{"part":{"hash":"h","columns":["k"]}},"input":T_SHARED},"right":{"op":"exchange","kind":"hash","route":"h","columns":["d.k"],"size":"many","claim":{"part":{"hash":"h","columns":["d.k"]}},"input":D_SHARED}}}}"#;

/// One worker joins sums, of node 1, with what the other relation has for the key.
pub const JOINED_SUMS: &str =
    r#"{"root":{"op":"join","method":"hash","on":[["k","d.k"]],"left":{"op":"group","by":["k"],"aggregates":[{"fn":"sum","column":"v","as":"s"}],"input":T_WHOLE},"right":D_WHOLE},"sizes":[]}"#;

/// One worker counts the rows that others send.
pub const COUNTED: &str =
    r#"{"sizes":["many"],"root":{"op":"group","by":[],"aggregates":[{"fn":"count","as":"c"}],"input":{"op":"exchange","kind":"gather","input":T_PLAIN}}}"#;

/// One worker counts the rows of a relation.
pub const COUNTED_BY_ONE: &str =
    r#"{"sizes":[],"root":{"op":"group","by":[],"aggregates":[{"fn":"count","as":"c"}],"input":T_WHOLE}}"#;

/// Plans that select, merge and count.
pub const WORKED_PLANS: &str =
    r#"a scan by one worker | {"root":T_WHOLE,"total":true} | T | D | 0 | 0 'a' 5;1 'b' 7;2 'a' -2;3 'c' 7;
a selection | SELECTED | T | D | 1 | 1 'b' 7;3 'c' 7;
a selection of no rows | SELECTED | - | D | 1 |
a selection that one worker reads | {"sizes":["many"],"root":{"op":"exchange","kind":"broadcast","size":"one","claim":{"part":"one"},"input":{"op":"select","where":[{"column":"v","op":"=","value":7}],"input":T_PLAIN}}} | T | D | 1 | 1 'b' 7;3 'c' 7;
a selection that is sent by a key and gathered | {"sizes":["many"],"root":{"op":"exchange","kind":"gather","claim":{"part":"one"},"input":{"op":"exchange","kind":"hash","route":"h","columns":["k"],"size":"many","claim":{"part":{"hash":"h","columns":["k"]}},"input":{"op":"select","where":[{"column":"v","op":"=","value":7}],"input":T_PLAIN}}}} | T | D | 2 | 1 'b' 7;3 'c' 7;
a selection that is merged | MERGED | T | D | 1 | 1 'b' 7;3 'c' 7;
no rows that are merged | MERGED | - | D | 1 |
a selection that falls and is merged | MERGED_FALLING | T | D | 1 | 3 'c' 7;1 'b' 7;
no rows that fall | MERGED_FALLING | - | D | 1 |
a count by one worker of what others send | COUNTED | T | D | 1 | 4;
a count of nothing that others send | COUNTED | - | D | 1 |
a count by one worker | COUNTED_BY_ONE | T | D | 0 | 4;
a count of nothing by one worker | COUNTED_BY_ONE | - | D | 0 |"#;

/// Plans that join, and one whose streams stand one behind the other.
pub const JOIN_PLANS: &str =
    r#"a join with rows that each worker has | JOINED | T | D | 2 | 0 'a' 5 'a' 10;1 'b' 7 'b' 20;2 'a' -2 'a' 10;
a join with no rows | JOINED | T | - | 2 |
a join without an order | {"sizes":["many"],"root":{"op":"exchange","kind":"gather","claim":{"part":"one"},"input":{"op":"join","method":"hash","on":[["k","d.k"]],"left":T_PLAIN,"right":{"op":"exchange","kind":"broadcast","size":"many","claim":{"part":"all"},"input":D_SHARED}}}} | T | D | 2 | 0 'a' 5 'a' 10;1 'b' 7 'b' 20;2 'a' -2 'a' 10;
a join of rows that are sent by one name | SENT_TO_MEET | T | D | 3 | 0 'a' 5 'a' 10;1 'b' 7 'b' 20;2 'a' -2 'a' 10;
a merge join of a merged stream | {"sizes":["many"],"total":true,"root":{"op":"join","method":"merge","on":[["k","d.k"]],"claim":{"part":"one","order":["k","id"],"keys":[["id"]]},"left":{"op":"exchange","kind":"gather","merge":["k","id"],"claim":{"part":"one","order":["k","id"],"keys":[["id"]]},"input":{"op":"sort","columns":["k","id"],"claim":{"order":["k","id"],"keys":[["id"]]},"input":T_SHARED}},"right":{"op":"sort","columns":["d.k"],"claim":{"part":"one","order":["d.k"],"keys":[["d.k"]]},"input":D_WHOLE}}} | T | D | 1 | 0 'a' 5 'a' 10;2 'a' -2 'a' 10;1 'b' 7 'b' 20;
a join by one worker of a sum that is too large with no rows | JOINED_SUMS | TOO_LARGE | - | 0 | X7 Overflow node=1
a join by one worker of a sum that is too large on its way with no rows | JOINED_SUMS | LARGE | - | 0 |
ranges, one behind the other | {"sizes":["many"],"ranges":[{"name":"r","bounds":[0,7]}],"total":true,"root":{"op":"exchange","kind":"concat","claim":{"part":"one","order":["v","id"],"keys":[["id"]]},"input":{"op":"sort","columns":["v","id"],"claim":{"part":{"range":"r","column":"v"},"order":["v","id"],"keys":[["id"]]},"input":{"op":"exchange","kind":"range","route":"r","column":"v","size":"many","claim":{"part":{"range":"r","column":"v"},"keys":[["id"]]},"input":T_SHARED}}}} | T | D | 2 | 2 'a' -2;0 'a' 5;1 'b' 7;3 'c' 7;"#;

/// Plans that send rows by a key and group them.
pub const SUM_PLANS: &str = r#"sums by a key | GROUPED | T | D | 2 | 'a' 3;'b' 7;'c' 7;
sums of no rows | GROUPED | - | D | 2 |
a sum that is too large on its way | GROUPED | LARGE | D | 2 | 'a' 9223372036854775807;
a sum that is too large | GROUPED | TOO_LARGE | D | 2 | X7 Overflow node=2
two sums that are too large | GROUPED | BOTH_TOO_LARGE | D | 2 | X7 Overflow node=2
sums without an order | {"sizes":["many"],"root":{"op":"exchange","kind":"gather","claim":{"part":"one"},"input":{"op":"group","by":["k"],"aggregates":[{"fn":"sum","column":"v","as":"s"}],"claim":{"part":{"hash":"h","columns":["k"]}},"input":{"op":"exchange","kind":"hash","route":"h","columns":["k"],"size":"many","claim":{"part":{"hash":"h","columns":["k"]}},"input":T_PLAIN}}}} | T | D | 2 | 'a' 3;'b' 7;'c' 7;
sums in two phases | SUMS_IN_TWO_PHASES | T | D | 2 | 'a' 3;'b' 7;'c' 7;
counts in two phases | {"sizes":["many"],"total":true,"root":{"op":"exchange","kind":"gather","merge":["k"],"claim":{"part":"one","order":["k"],"keys":[["k"]]},"input":{"op":"sort","columns":["k"],"claim":{"part":{"hash":"h","columns":["k"]},"order":["k"],"keys":[["k"]]},"input":{"op":"group","phase":"final","claim":{"part":{"hash":"h","columns":["k"]},"keys":[["k"]]},"input":{"op":"exchange","kind":"hash","route":"h","columns":["k"],"size":"many","claim":{"part":{"hash":"h","columns":["k"]}},"input":{"op":"group","phase":"partial","by":["k"],"aggregates":[{"fn":"count","as":"c"}],"input":T_PLAIN}}}}}} | T | D | 2 | 'a' 2;'b' 1;'c' 1;"#;
