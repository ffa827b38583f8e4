//! The program: what its codes mean.

ghost use Rattle.std.specs.Prelude.{◌≡◌, ◌++◌, ◌+◌, length, take, codes, IfSome};
ghost use Rattle.std.specs.Option.{is_some};
ghost use Rattle.volcano_why.specs.Codes.{is_one_of, program_codes};

const V1: &str = r#"V1 BadBundle
What happened: the input is not a bundle: not JSON, or a member missing, unknown or of the wrong kind.
Usual cause, and cure: compare with `examples/first.json`.
Example: `"command": "rnu"`.
"#;

const V2: &str = r#"V2 NoTable name=t
What happened: the bundle has no text for a relation that the plan scans.
Usual cause, and cure: add it under `tables`.
Example: `"tables": {}` where the plan scans t.
"#;

const V3: &str = r#"V3 FileUnreadable path=-
What happened: standard input failed, or has over 2^40 bytes.
Usual cause, and cure: read from a file that is there, of at most 2^40 bytes.
Example: `./volcano < DIR`, where DIR is a folder.

V3 FileUnreadable path=d/t.csv
What happened: the file does not open; or it is the file of a catalog, a plan or the statistics of a run and fails
while it is read, or has over 2^40 bytes (for a table's file these are `C10` and `C12`); or a relation's name has the
part `..` between slashes, so that its file might lie outside the folder: then nothing is opened.
Usual cause, and cure: a wrong path, a folder without the table of a scanned relation, or no right to read it.
Example: `--data d`, and the folder d has no file `t.csv`.
"#;

const V4: &str = r#"V4 WriteFailed
What happened: standard output failed; or the file of `-o` could not be made, written or put in its place, and then what
stood there still stands. In a pipe that nobody reads any more, as in `./volcano gen .. | head`, that is no fault: no
line is printed, and the status is 4.
Usual cause, and cure: a full disk, or with `-o` a folder that is not there or that may not be written.
Example: `./volcano run .. > /dev/full`.
"#;

const V5: &str = r#"V5 Unfinished
What happened: after 1,000,000,000 rounds the last worker had not ended. Only a plan that may need more rounds comes to
this; how many it may need follows from the rows that it scans and from its workers.
Usual cause, and cure: take fewer workers, or the mode `threads`, which has no limit. Larger morsels and packets do not
lower that number.
Example: a run in the mode `rounds` over very large tables.
"#;

const V6: &str = r#"V6 TooLarge
What happened: `gen` was asked for more than 10,000,000 rows; nothing was written.
Usual cause, and cure: ask for fewer.
Example: `./volcano gen --rows 10000001`.
"#;

/// The entry of a code of the program.
pub fn program_entry(code: &str) -> Option<&'static str>
    ensures listed { is_some result ≡ is_one_of code.now program_codes }
    ensures begins { IfSome result (λ t. take (length code.now + 1) t.now ≡ code.now ++ codes " ") }
{
    match code {
        "V1" => Some(V1),
        "V2" => Some(V2),
        "V3" => Some(V3),
        "V4" => Some(V4),
        "V5" => Some(V5),
        "V6" => Some(V6),
        _ => None,
    }
}
