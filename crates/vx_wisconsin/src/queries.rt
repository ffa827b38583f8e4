//! The catalog of the relations, and plans over them.

ghost use Rattle.std.specs.Prelude.{◌↔◌, ◌≤◌, IsSome};

// Four relations, two of 10,000 rows and two of 1,000.
const CATALOG: &str = r#"{"relations": [
  {"name": "tenk1", "keys": [["unique1"], ["unique2"]], "order": ["unique2"], "columns": [
    {"name": "unique1", "type": "int"}, {"name": "unique2", "type": "int"}, {"name": "two", "type": "int"},
    {"name": "four", "type": "int"}, {"name": "ten", "type": "int"}, {"name": "twenty", "type": "int"},
    {"name": "onePercent", "type": "int"}, {"name": "tenPercent", "type": "int"}, {"name": "twentyPercent", "type": "int"},
    {"name": "fiftyPercent", "type": "int"}, {"name": "unique3", "type": "int"}, {"name": "evenOnePercent", "type": "int"},
    {"name": "oddOnePercent", "type": "int"}, {"name": "stringu1", "type": "text"}, {"name": "stringu2", "type": "text"},
    {"name": "string4", "type": "text"}]},
  {"name": "tenk2", "keys": [["unique1"], ["unique2"]], "order": ["unique2"], "columns": [
    {"name": "unique1", "type": "int"}, {"name": "unique2", "type": "int"}, {"name": "two", "type": "int"},
    {"name": "four", "type": "int"}, {"name": "ten", "type": "int"}, {"name": "twenty", "type": "int"},
    {"name": "onePercent", "type": "int"}, {"name": "tenPercent", "type": "int"}, {"name": "twentyPercent", "type": "int"},
    {"name": "fiftyPercent", "type": "int"}, {"name": "unique3", "type": "int"}, {"name": "evenOnePercent", "type": "int"},
    {"name": "oddOnePercent", "type": "int"}, {"name": "stringu1", "type": "text"}, {"name": "stringu2", "type": "text"},
    {"name": "string4", "type": "text"}]},
  {"name": "onek", "keys": [["unique1"], ["unique2"]], "order": ["unique2"], "columns": [
    {"name": "unique1", "type": "int"}, {"name": "unique2", "type": "int"}, {"name": "two", "type": "int"},
    {"name": "four", "type": "int"}, {"name": "ten", "type": "int"}, {"name": "twenty", "type": "int"},
    {"name": "onePercent", "type": "int"}, {"name": "tenPercent", "type": "int"}, {"name": "twentyPercent", "type": "int"},
    {"name": "fiftyPercent", "type": "int"}, {"name": "unique3", "type": "int"}, {"name": "evenOnePercent", "type": "int"},
    {"name": "oddOnePercent", "type": "int"}, {"name": "stringu1", "type": "text"}, {"name": "stringu2", "type": "text"},
    {"name": "string4", "type": "text"}]},
  {"name": "bprime", "keys": [["unique1"], ["unique2"]], "order": ["unique2"], "columns": [
    {"name": "unique1", "type": "int"}, {"name": "unique2", "type": "int"}, {"name": "two", "type": "int"},
    {"name": "four", "type": "int"}, {"name": "ten", "type": "int"}, {"name": "twenty", "type": "int"},
    {"name": "onePercent", "type": "int"}, {"name": "tenPercent", "type": "int"}, {"name": "twentyPercent", "type": "int"},
    {"name": "fiftyPercent", "type": "int"}, {"name": "unique3", "type": "int"}, {"name": "evenOnePercent", "type": "int"},
    {"name": "oddOnePercent", "type": "int"}, {"name": "stringu1", "type": "text"}, {"name": "stringu2", "type": "text"},
    {"name": "string4", "type": "text"}]}
]}
"#;

// The 100 rows of tenk1 with unique2 from 0 to 99, in order.
const SELECTED_100: &str = r#"{"sizes": ["many"], "total": true, "root":
  {"op": "exchange", "kind": "gather", "merge": ["unique2"], "claim": {"part": "one", "order": ["unique2"], "keys": [["unique2"]]},
    "input": {"op": "select", "where": [{"column": "unique2", "op": ">=", "value": 0}, {"column": "unique2", "op": "<=", "value": 99}], "claim": {"part": "any", "order": ["unique2"], "keys": [["unique2"]]},
      "input": {"op": "scan", "relation": "tenk1", "mode": "shared", "size": "many", "claim": {"part": "any", "order": ["unique2"], "keys": [["unique2"]]}}}}}
"#;

// The 1,000 rows of tenk1 with unique2 from 792 to 1791, in order.
const SELECTED_1000: &str = r#"{"sizes": ["many"], "total": true, "root":
  {"op": "exchange", "kind": "gather", "merge": ["unique2"], "claim": {"part": "one", "order": ["unique2"], "keys": [["unique2"]]},
    "input": {"op": "select", "where": [{"column": "unique2", "op": ">=", "value": 792}, {"column": "unique2", "op": "<=", "value": 1791}], "claim": {"part": "any", "order": ["unique2"], "keys": [["unique2"]]},
      "input": {"op": "scan", "relation": "tenk1", "mode": "shared", "size": "many", "claim": {"part": "any", "order": ["unique2"], "keys": [["unique2"]]}}}}}
"#;

// tenk1 with the rows of tenk2 below 1000 that have the same unique2: both sides routed by it.
const ROUTED: &str = r#"{"sizes": ["many"], "root":
  {"op": "exchange", "kind": "gather", "claim": {"part": "one"},
    "input": {"op": "join", "method": "hash", "on": [["a.unique2", "b.unique2"]], "claim": {"part": "any"},
      "left": {"op": "exchange", "kind": "hash", "route": "h", "columns": ["a.unique2"], "size": "many", "claim": {"part": {"hash": "h", "columns": ["a.unique2"]}},
        "input": {"op": "scan", "relation": "tenk1", "prefix": "a.", "mode": "shared", "size": "many", "claim": {"part": "any"}}},
      "right": {"op": "exchange", "kind": "hash", "route": "h", "columns": ["b.unique2"], "size": "many", "claim": {"part": {"hash": "h", "columns": ["b.unique2"]}},
        "input": {"op": "select", "where": [{"column": "b.unique2", "op": "<", "value": 1000}], "claim": {"part": "any"},
          "input": {"op": "scan", "relation": "tenk2", "prefix": "b.", "mode": "shared", "size": "many", "claim": {"part": "any"}}}}}}}
"#;

// tenk1 with the rows of bprime that have the same unique2, in order: bprime goes to every worker.
const MATCHED: &str = r#"{"sizes": ["many"], "total": true, "root":
  {"op": "exchange", "kind": "gather", "merge": ["a.unique2"], "claim": {"part": "one", "order": ["a.unique2"], "keys": [["a.unique2"]]},
    "input": {"op": "join", "method": "hash", "on": [["a.unique2", "b.unique2"]], "claim": {"part": "any", "order": ["a.unique2"], "keys": [["a.unique2"]]},
      "left": {"op": "scan", "relation": "tenk1", "prefix": "a.", "mode": "shared", "size": "many", "claim": {"part": "any", "order": ["a.unique2"], "keys": [["a.unique2"]]}},
      "right": {"op": "exchange", "kind": "broadcast", "size": "many", "claim": {"part": "all", "keys": [["b.unique2"]]},
        "input": {"op": "scan", "relation": "bprime", "prefix": "b.", "mode": "shared", "size": "many", "claim": {"part": "any", "keys": [["b.unique2"]]}}}}}}
"#;

// The rows below 1000 of tenk1 and tenk2 that have the same unique2, routed by it, with those of onek, which goes to every worker.
const MATCHED_TWICE: &str = r#"{"sizes": ["many"], "root":
  {"op": "exchange", "kind": "gather", "claim": {"part": "one"},
    "input": {"op": "join", "method": "hash", "on": [["a.unique2", "c.unique2"]], "claim": {"part": "any"},
      "left": {"op": "join", "method": "hash", "on": [["a.unique2", "b.unique2"]], "claim": {"part": "any"},
        "left": {"op": "exchange", "kind": "hash", "route": "h", "columns": ["a.unique2"], "size": "many", "claim": {"part": {"hash": "h", "columns": ["a.unique2"]}},
          "input": {"op": "select", "where": [{"column": "a.unique2", "op": "<", "value": 1000}], "claim": {"part": "any"},
            "input": {"op": "scan", "relation": "tenk1", "prefix": "a.", "mode": "shared", "size": "many", "claim": {"part": "any"}}}},
        "right": {"op": "exchange", "kind": "hash", "route": "h", "columns": ["b.unique2"], "size": "many", "claim": {"part": {"hash": "h", "columns": ["b.unique2"]}},
          "input": {"op": "select", "where": [{"column": "b.unique2", "op": "<", "value": 1000}], "claim": {"part": "any"},
            "input": {"op": "scan", "relation": "tenk2", "prefix": "b.", "mode": "shared", "size": "many", "claim": {"part": "any"}}}}},
      "right": {"op": "exchange", "kind": "broadcast", "size": "many", "claim": {"part": "all"},
        "input": {"op": "scan", "relation": "onek", "prefix": "c.", "mode": "shared", "size": "many", "claim": {"part": "any"}}}}}}
"#;

// The rows and the order of `MATCHED`, by ranges of unique2 and a merge join.
const MERGED: &str =
    r#"{"sizes": ["many"], "ranges": [{"name": "r", "bounds": [2500, 5000, 7500]}], "total": true, "root":
  {"op": "exchange", "kind": "gather", "merge": ["a.unique2"], "claim": {"part": "one", "order": ["a.unique2"], "keys": [["a.unique2"]]},
    "input": {"op": "join", "method": "merge", "on": [["a.unique2", "b.unique2"]], "claim": {"part": {"range": "r", "column": "a.unique2"}, "order": ["a.unique2"], "keys": [["a.unique2"]]},
      "left": {"op": "exchange", "kind": "range", "route": "r", "column": "a.unique2", "merge": ["a.unique2"], "size": "many", "claim": {"part": {"range": "r", "column": "a.unique2"}, "order": ["a.unique2"], "keys": [["a.unique2"]]},
        "input": {"op": "scan", "relation": "tenk1", "prefix": "a.", "mode": "shared", "size": "many", "claim": {"part": "any", "order": ["a.unique2"], "keys": [["a.unique2"]]}}},
      "right": {"op": "exchange", "kind": "range", "route": "r", "column": "b.unique2", "merge": ["b.unique2"], "size": "many", "claim": {"part": {"range": "r", "column": "b.unique2"}, "order": ["b.unique2"], "keys": [["b.unique2"]]},
        "input": {"op": "scan", "relation": "bprime", "prefix": "b.", "mode": "shared", "size": "many", "claim": {"part": "any", "order": ["b.unique2"], "keys": [["b.unique2"]]}}}}}}
"#;

// The 200 pairs of onePercent and string4 in tenk1.
const PAIRS: &str = r#"{"sizes": ["many"], "root":
  {"op": "exchange", "kind": "gather", "claim": {"part": "one", "keys": [["onePercent", "string4"]]},
    "input": {"op": "distinct", "columns": ["onePercent", "string4"], "claim": {"part": {"hash": "h", "columns": ["onePercent"]}, "keys": [["onePercent", "string4"]]},
      "input": {"op": "exchange", "kind": "hash", "route": "h", "columns": ["onePercent"], "size": "many", "claim": {"part": {"hash": "h", "columns": ["onePercent"]}},
        "input": {"op": "scan", "relation": "tenk1", "mode": "shared", "size": "many", "claim": {"part": "any"}}}}}}
"#;

// The 10,000 pairs of unique1 and stringu1 in tenk1.
const UNIQUE_PAIRS: &str = r#"{"sizes": ["many"], "root":
  {"op": "exchange", "kind": "gather", "claim": {"part": "one", "keys": [["unique1", "stringu1"]]},
    "input": {"op": "distinct", "columns": ["unique1", "stringu1"], "claim": {"part": {"hash": "h", "columns": ["unique1"]}, "keys": [["unique1", "stringu1"]]},
      "input": {"op": "exchange", "kind": "hash", "route": "h", "columns": ["unique1"], "size": "many", "claim": {"part": {"hash": "h", "columns": ["unique1"]}},
        "input": {"op": "scan", "relation": "tenk1", "mode": "shared", "size": "many", "claim": {"part": "any"}}}}}}
"#;

// The least unique2 of tenk1.
const LEAST: &str = r#"{"sizes": ["many"], "total": true, "root":
  {"op": "group", "by": [], "aggregates": [{"fn": "min", "column": "unique2", "as": "m"}], "claim": {"part": "one", "keys": [[]]},
    "input": {"op": "exchange", "kind": "gather", "claim": {"part": "one"},
      "input": {"op": "scan", "relation": "tenk1", "mode": "shared", "size": "many", "claim": {"part": "any"}}}}}
"#;

// The least unique3 of tenk1 for each onePercent, in order.
const LEAST_BY_PERCENT: &str = r#"{"sizes": ["many"], "total": true, "root":
  {"op": "exchange", "kind": "gather", "merge": ["onePercent"], "claim": {"part": "one", "order": ["onePercent"], "keys": [["onePercent"]]},
    "input": {"op": "sort", "columns": ["onePercent"], "claim": {"part": {"hash": "h", "columns": ["onePercent"]}, "order": ["onePercent"], "keys": [["onePercent"]]},
      "input": {"op": "group", "by": ["onePercent"], "aggregates": [{"fn": "min", "column": "unique3", "as": "m"}], "claim": {"part": {"hash": "h", "columns": ["onePercent"]}, "keys": [["onePercent"]]},
        "input": {"op": "exchange", "kind": "hash", "route": "h", "columns": ["onePercent"], "size": "many", "claim": {"part": {"hash": "h", "columns": ["onePercent"]}},
          "input": {"op": "scan", "relation": "tenk1", "mode": "shared", "size": "many", "claim": {"part": "any"}}}}}}}
"#;

// The sum of unique3 of tenk1 for each onePercent, in order.
const SUMS: &str = r#"{"sizes": ["many"], "total": true, "root":
  {"op": "exchange", "kind": "gather", "merge": ["onePercent"], "claim": {"part": "one", "order": ["onePercent"], "keys": [["onePercent"]]},
    "input": {"op": "sort", "columns": ["onePercent"], "claim": {"part": {"hash": "h", "columns": ["onePercent"]}, "order": ["onePercent"], "keys": [["onePercent"]]},
      "input": {"op": "group", "by": ["onePercent"], "aggregates": [{"fn": "sum", "column": "unique3", "as": "s"}], "claim": {"part": {"hash": "h", "columns": ["onePercent"]}, "keys": [["onePercent"]]},
        "input": {"op": "exchange", "kind": "hash", "route": "h", "columns": ["onePercent"], "size": "many", "claim": {"part": {"hash": "h", "columns": ["onePercent"]}},
          "input": {"op": "scan", "relation": "tenk1", "mode": "shared", "size": "many", "claim": {"part": "any"}}}}}}}
"#;

// The same sums in two phases: of each worker's rows, and then of all.
const SUMS_IN_PHASES: &str = r#"{"sizes": ["many"], "total": true, "root":
  {"op": "exchange", "kind": "gather", "merge": ["onePercent"], "claim": {"part": "one", "order": ["onePercent"], "keys": [["onePercent"]]},
    "input": {"op": "sort", "columns": ["onePercent"], "claim": {"part": {"hash": "h", "columns": ["onePercent"]}, "order": ["onePercent"], "keys": [["onePercent"]]},
      "input": {"op": "group", "phase": "final", "claim": {"part": {"hash": "h", "columns": ["onePercent"]}, "keys": [["onePercent"]]},
        "input": {"op": "exchange", "kind": "hash", "route": "h", "columns": ["onePercent"], "size": "many", "claim": {"part": {"hash": "h", "columns": ["onePercent"]}},
          "input": {"op": "group", "phase": "partial", "by": ["onePercent"], "aggregates": [{"fn": "sum", "column": "unique3", "as": "s"}], "claim": {"part": "any"},
            "input": {"op": "scan", "relation": "tenk1", "mode": "shared", "size": "many", "claim": {"part": "any"}}}}}}}}
"#;

// The same as `MERGED`, whose parts stand in the order of their ranges: they are put one behind the other.
const CONCATENATED: &str =
    r#"{"sizes": ["many"], "ranges": [{"name": "r", "bounds": [2500, 5000, 7500]}], "total": true, "root":
  {"op": "exchange", "kind": "concat", "claim": {"part": "one", "order": ["a.unique2"], "keys": [["a.unique2"]]},
    "input": {"op": "join", "method": "merge", "on": [["a.unique2", "b.unique2"]], "claim": {"part": {"range": "r", "column": "a.unique2"}, "order": ["a.unique2"], "keys": [["a.unique2"]]},
      "left": {"op": "exchange", "kind": "range", "route": "r", "column": "a.unique2", "merge": ["a.unique2"], "size": "many", "claim": {"part": {"range": "r", "column": "a.unique2"}, "order": ["a.unique2"], "keys": [["a.unique2"]]},
        "input": {"op": "scan", "relation": "tenk1", "prefix": "a.", "mode": "shared", "size": "many", "claim": {"part": "any", "order": ["a.unique2"], "keys": [["a.unique2"]]}}},
      "right": {"op": "exchange", "kind": "range", "route": "r", "column": "b.unique2", "merge": ["b.unique2"], "size": "many", "claim": {"part": {"range": "r", "column": "b.unique2"}, "order": ["b.unique2"], "keys": [["b.unique2"]]},
        "input": {"op": "scan", "relation": "bprime", "prefix": "b.", "mode": "shared", "size": "many", "claim": {"part": "any", "order": ["b.unique2"], "keys": [["b.unique2"]]}}}}}}
"#;

/// The catalog of tenk1 and tenk2, for 10,000 rows each, and onek and bprime, for 1,000 each. Each has the keys unique1 and
/// unique2 and the order unique2. No clause reads the text: tests do.
pub fn catalog() -> &'static str {
    CATALOG
}

/// The plan of a query, from 1 to 13, with a size `many`: selections are 1 and 2, joins 3 to 6, projections 7 and 8,
/// aggregates 9 to 11. 12 is 11 in two phases, and 13 is 6 with its parts put one behind the other. No clause reads the
/// texts: tests do.
pub fn plan(query: u32) -> Option<&'static str>
    ensures { IsSome result ↔ ((1 ≤ query) × (query ≤ 13)) }
{
    match query {
        1 => Some(SELECTED_100),
        2 => Some(SELECTED_1000),
        3 => Some(ROUTED),
        4 => Some(MATCHED),
        5 => Some(MATCHED_TWICE),
        6 => Some(MERGED),
        7 => Some(PAIRS),
        8 => Some(UNIQUE_PAIRS),
        9 => Some(LEAST),
        10 => Some(LEAST_BY_PERCENT),
        11 => Some(SUMS),
        12 => Some(SUMS_IN_PHASES),
        13 => Some(CONCATENATED),
        _ => None,
    }
}
