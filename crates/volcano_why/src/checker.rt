//! The checker: what its codes mean.

ghost use Rattle.std.specs.Prelude.{◌≡◌, ◌++◌, ◌+◌, length, take, codes, IfSome};
ghost use Rattle.std.specs.Option.{is_some};
ghost use Rattle.volcano_why.specs.Codes.{is_one_of, checker_codes};

const K1: &str = r#"K1 SizeMismatch node=1
What happened: the inputs of a join or a union have different size names.
Usual cause, and cure: put an exchange above one of them, to the size of the other.
Example: a union of a scan with the size `many` and a scan with the size `one`.
"#;

const K2: &str = r#"K2 RootNotOne node=0
What happened: the root has more than one worker.
Usual cause, and cure: put a gather above it.
Example: a plan that is one shared scan with the size `many`.
"#;

const K3: &str = r#"K3 PartNotShown node=3
What happened: the claimed part does not follow from the inputs.
Usual cause, and cure: from a round exchange only `any` follows; a projection that drops a routed column loses
the route.
Example: a shared scan with the size `many` that claims `{"hash": "h", "columns": ["k"]}`.
"#;

const K4: &str = r#"K4 InputsNotMatched node=1
What happened: equal rows or keys may lie on different workers: a distinct or group over rows that are not
routed by its columns, a join whose sides are not routed alike, a union of rows that are on every worker with
rows that are not.
Usual cause, and cure: exchange by hash on these columns, or broadcast one side of the join; of a semi or an
anti join only the right side may be broadcast.
Example: a group by k over a shared scan with the size `many`.
"#;

const K5: &str = r#"K5 ReplicatedInput node=0
What happened: an exchange over rows that each of several workers has: each row would come several times.
Usual cause, and cure: scan shared, not whole, below it.
Example: a gather over a scan with `"mode": "whole"`, the size `many` and the part `all`.
"#;

const K6: &str = r#"K6 OrderNotShown node=2
What happened: the claimed order does not follow.
Usual cause, and cure: sort below, merge at the exchange, or claim a prefix of the order that is there.
Example: a scan that claims `"order": ["v"]` where the catalog declares the order id.
"#;

const K7: &str = r#"K7 OrderNeeded node=1
What happened: a merge join or a merging exchange over an input that does not claim the order.
Usual cause, and cure: claim it below, if it holds there, or sort.
Example: a gather with `"merge": ["id"]` over a scan without a claim.
"#;

const K8: &str = r#"K8 KeyNotShown node=4
What happened: the claimed key does not follow.
Usual cause, and cure: declare the key in the catalog, or group by it; a partial group has none, its final
group has.
Example: a scan that claims `"keys": [["v"]]` where the catalog declares the key id.
"#;

const K9: &str = r#"K9 TotalNotShown node=0
What happened: the plan says `total`, but the root's claimed order contains neither a claimed key nor all
columns.
Usual cause, and cure: claim a key at the root, or a longer order.
Example: `"total": true` over a root that claims the order k and no key, and has more columns.
"#;

const K11: &str = r#"K11 FirstRowsOpen node=0
What happened: the input of a limit has several workers, or its claimed order contains neither a claimed key
nor all columns, so that it is open which rows are the first.
Usual cause, and cure: put a gather that merges between them; claim a key at the input, or sort it on more
columns.
Example: `{"op": "limit", "rows": 10, ..}` over a gather that merges on v and claims no key.
"#;

/// The entry of a code of the checker.
pub fn checker_entry(code: &str) -> Option<&'static str>
    ensures listed { is_some result ≡ is_one_of code.now checker_codes }
    ensures begins { IfSome result (λ t. take (length code.now + 1) t.now ≡ code.now ++ codes " ") }
{
    match code {
        "K1" => Some(K1),
        "K2" => Some(K2),
        "K3" => Some(K3),
        "K4" => Some(K4),
        "K5" => Some(K5),
        "K6" => Some(K6),
        "K7" => Some(K7),
        "K8" => Some(K8),
        "K9" => Some(K9),
        "K11" => Some(K11),
        _ => None,
    }
}
