//! Plans: what their codes mean.

ghost use Rattle.std.specs.Prelude.{◌≡◌, ◌++◌, ◌+◌, length, take, codes, IfSome};
ghost use Rattle.std.specs.Option.{is_some};
ghost use Rattle.volcano_why.specs.Codes.{is_one_of, plan_codes};

const P1: &str = r#"P1 NotJson
What happened: the plan is not JSON, or nests deeper than 127.
Usual cause, and cure: a bracket that does not close; a bundle of that kind is `V1`.
Example: the file ends before the last bracket.
"#;

const P2: &str = r#"P2 BadNode path=root.input
What happened: a member is missing, unknown or of the wrong kind, a list is empty that needs an entry, or a
claim of a plan with `derive` has more than 16 keys.
Usual cause, and cure: the path leads from `root` by `.input`, `.left` and `.right`; `document` is the plan's
outermost object.
Example: `{"op": "sort", "input": ..}` as the input of the root: its `columns` are missing.
"#;

const P3: &str = r#"P3 TooDeep
What happened: over 64 nodes deep, or over 1,000 nodes.
Usual cause, and cure: a plan that was generated without end.
Example: 65 selects, one above the other.
"#;

const P4: &str = r#"P4 UnknownRelation node=2 name=u
What happened: the catalog has no such relation.
Usual cause, and cure: a typing error, or another catalog.
Example: `{"op": "scan", "relation": "u", ..}` where the catalog has t and d.
"#;

const P5: &str = r#"P5 UnknownColumn node=1 name=w
What happened: the node's input (or, for a claim, its output) has no such column.
Usual cause, and cure: a scan with a `prefix` puts it before the names of its columns: write `d.k`.
Example: `{"op": "sort", "columns": ["w"], ..}` over a scan of the columns id, k and v.
"#;

const P6: &str = r#"P6 DuplicateColumn node=0 name=k
What happened: an output name occurs twice, or a column twice in one list, or a pair of a join twice.
Usual cause, and cure: give the scan on one side of a join a `prefix`, or a projection a new name.
Example: a join of a scan of t and a scan of d without a `prefix`: both have a column k.
"#;

const P7: &str = r#"P7 TypeMismatch node=1
What happened: the types in a condition, a pair, a union, a sum or a range do not fit.
Usual cause, and cure: `v = "7"` compares a number with a text.
Example: `{"op": "union", ..}` of rows of numbers with rows of texts.
"#;

const P8: &str = r#"P8 UnknownRange node=3 name=r
What happened: the plan declares no such range.
Usual cause, and cure: declare it under `ranges`.
Example: an exchange with `"kind": "range", "route": "r"` in a plan without `ranges`.
"#;

const P9: &str = r#"P9 BadRange name=r
What happened: the range has no bounds, over 63, bounds of two types, or bounds that do not strictly rise; or
the name is declared twice.
Usual cause, and cure: sort the bounds, and write each once.
Example: `{"name": "r", "bounds": [10, 2]}`.
"#;

const P10: &str = r#"P10 BadSize name=many
What happened: a size name is declared twice, or as `one`, or is the 17th; or it is used and not declared.
Usual cause, and cure: declare it under `sizes`.
Example: a scan with `"size": "many"` in a plan without `sizes`.
"#;

const P11: &str = r#"P11 NoMemory
What happened: an allocation was refused while the plan was read, its names were looked up, or the checker found what is known of its columns.
Usual cause, and cure: give the program more memory.
Example: a plan of a thousand nodes under a limit of a few megabytes.
"#;

const P12: &str = r#"P12 TooWide node=0
What happened: over 64 output columns.
Usual cause, and cure: project before the join.
Example: a join of two inputs of 40 columns each.
"#;

const P13: &str = r#"P13 PhaseMismatch node=2
What happened: a final group whose first node below that is neither an exchange nor a sort with "phase":
"partial" is no partial group, or such a sort is on a column that the group is not by; a partial group from
which these alone do not lead up to a final group; or such a sort anywhere else.
Usual cause, and cure: write the two as a pair, and a sort between them with "phase": "partial", on columns of
"by"; what else stands between them moves above the final or below the partial. At its node it is tested
before all else.
Example: a final group over a sort without "phase" over its partial group.
"#;

/// The entry of a code of plans.
pub fn plan_entry(code: &str) -> Option<&'static str>
    ensures listed { is_some result ≡ is_one_of code.now plan_codes }
    ensures begins { IfSome result (λ t. take (length code.now + 1) t.now ≡ code.now ++ codes " ") }
{
    match code {
        "P1" => Some(P1),
        "P2" => Some(P2),
        "P3" => Some(P3),
        "P4" => Some(P4),
        "P5" => Some(P5),
        "P6" => Some(P6),
        "P7" => Some(P7),
        "P8" => Some(P8),
        "P9" => Some(P9),
        "P10" => Some(P10),
        "P11" => Some(P11),
        "P12" => Some(P12),
        "P13" => Some(P13),
        _ => None,
    }
}
