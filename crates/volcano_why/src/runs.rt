//! Runs and serial evaluations: what their codes mean.

ghost use Rattle.std.specs.Prelude.{◌≡◌, ◌++◌, ◌+◌, length, take, codes, IfSome};
ghost use Rattle.std.specs.Option.{is_some};
ghost use Rattle.volcano_why.specs.Codes.{is_one_of, run_codes};

const X1: &str = r#"X1 SizeMissing name=many
What happened: the setup has no number for a size name that the plan declares.
Usual cause, and cure: set it under `sizes`, or by an argument `many=3`.
Example: `./volcano run ..` of a plan with `"sizes": ["many"]`, without `many=3`.
"#;

const X2: &str = r#"X2 SizeOutOfRange name=many
What happened: the number is not 1 to 64.
Usual cause, and cure: take 1 to 64 workers for each size.
Example: `many=0`, or `many=65`.
"#;

const X3: &str = r#"X3 BadPacket
What happened: the packet size is not 1 to 4,096 rows.
Usual cause, and cure: take 1 to 4,096 rows, or leave it out.
Example: `--packet 0`.
"#;

const X4: &str = r#"X4 BadMorsel
What happened: the morsel size is not 1 to 1,000,000 rows.
Usual cause, and cure: take 1 to 1,000,000 rows, or leave it out.
Example: `--morsel 0`.
"#;

const X5: &str = r#"X5 BadStep index=1
What happened: a step of a schedule does not name a worker; only from `run_scheduled`.
Usual cause, and cure: only a program that calls the library can make it: correct its schedule.
Example: a step of worker 7 in a run of four workers.
"#;

const X6: &str = r#"X6 OtherCatalog
What happened: the database has a catalog that is not the plan's; only from the library.
Usual cause, and cure: load the tables by the plan's catalog.
Example: tables that were loaded before a key was added to the catalog.
"#;

const X7: &str = r#"X7 Overflow node=2
What happened: a sum or a count of the data, or what a function answers of a row, is outside 64 signed bits, or a
function divides by 0.
Usual cause, and cure: it is a property of the data: the plan without its exchanges overflows too, or a partial
group added up rows of one key that do not fit by themselves: put numbers of both signs into one worker, or group
in one phase. A function is applied to every row of its node's input: conditions of the same select and the choice
of an `if` guard nothing, and a select below its node does. With `serial` it is the first such node, each after its inputs, and numbered as in the plan without
its exchanges; a group node over more than 2^62 rows is reported so too.
Example: a sum over two rows that both have 9223372036854775807.
"#;

const X8: &str = r#"X8 NoMemory
What happened: an allocation was refused in a run or a serial evaluation, or where no other code applies.
Usual cause, and cure: in a run: smaller packets and morsels, or fewer workers; otherwise more memory.
Example: a sort of more rows than the memory holds.
"#;

const X9: &str = r#"X9 NoThread
What happened: in the mode `threads` the system refused to start a thread; no worker has made a step.
Usual cause, and cure: take smaller sizes, or the mode `rounds`.
Example: `--mode threads many=64` where a user may have 50 threads.
"#;

const X10: &str = r#"X10 Unsorted node=1
What happened: rows that are not sorted where they have to be.
Usual cause, and cure: never for an accepted plan. It would be a bug in this program: please report it.
Example: none is known.
"#;

const X11: &str = r#"X11 Stranger exchange=0
What happened: a packet of another exchange.
Usual cause, and cure: never for an accepted plan. It would be a bug in this program: please report it.
Example: none is known.
"#;

const X12: &str = r#"X12 TooManyWorkers number=257
What happened: over 256 workers, counted over all groups of workers.
Usual cause, and cure: smaller groups.
Example: a plan with five exchanges, each over an input of 64 workers.
"#;

const X13: &str = r#"X13 HasExchange node=2
What happened: a plan that is to be evaluated serially has an exchange, of which the first is reported; only
from the library, since `serial` removes the exchanges.
Usual cause, and cure: erase the plan's exchanges first.
Example: a plan with a gather, given to the serial evaluator as it is.
"#;

const X14: &str = r#"X14 BadSlack
What happened: the slack is not 1 to 1,024 packets.
Usual cause, and cure: take 1 to 1,024 packets, or leave it out.
Example: `--slack 0`.
"#;

const X15: &str = r#"X15 BadFunction node=2
What happened: a node names a function that the program does not have, or does not have for the types of its
operands; or the function's answer has another type than the plan says of it, or a condition's is no number. It is
the first such node, each after its inputs.
Usual cause, and cure: take one of the functions that docs/GUIDE.md lists, with operands of the types there and the
type of its answer; or run the plan elsewhere: the checker takes any function, since its rules ask nothing of one.
Example: `{"fn": "add", "of": ["k", {"value": 1}], "type": "int", "as": "n"}` where `k` is a text.
"#;

/// The entry of a code of runs.
pub fn run_entry(code: &str) -> Option<&'static str>
    ensures listed { is_some result ≡ is_one_of code.now run_codes }
    ensures begins { IfSome result (λ t. take (length code.now + 1) t.now ≡ code.now ++ codes " ") }
{
    match code {
        "X1" => Some(X1),
        "X2" => Some(X2),
        "X3" => Some(X3),
        "X4" => Some(X4),
        "X5" => Some(X5),
        "X6" => Some(X6),
        "X7" => Some(X7),
        "X8" => Some(X8),
        "X9" => Some(X9),
        "X10" => Some(X10),
        "X11" => Some(X11),
        "X12" => Some(X12),
        "X13" => Some(X13),
        "X14" => Some(X14),
        "X15" => Some(X15),
        _ => None,
    }
}
