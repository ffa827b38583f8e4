//! The texts of lines and names, worked by hand.

use std::test::Fail;
use volcano_progress::{is_quiet, relation_at, shown_name, shown_run_text, shown_text};

// The size of a file, the bytes and the lines of it read so far, and the line for them without what moves the cursor.
const LINES: [(Option<u64>, u64, u64, &str); 9] = [
    (
        Some(204_000_000),
        104_500_000,
        510_000,
        "tenk1: 104 of 204 MB (51%), 510,000 lines",
    ),
    (
        Some(204_999_999),
        204_999_998,
        999,
        "tenk1: 204 of 204 MB (99%), 999 lines",
    ),
    (
        Some(1_000_000),
        1_000_000,
        1_000,
        "tenk1: 1 of 1 MB (100%), 1,000 lines",
    ),
    (
        Some(999_999),
        9_999,
        12,
        "tenk1: 9 of 999 kB (0%), 12 lines",
    ),
    (None, 12_345_678, 1_234_567, "tenk1: 12 MB, 1,234,567 lines"),
    (None, 999_999, 0, "tenk1: 999 kB, 0 lines"),
    (Some(10), 2_000_000, 10, "tenk1: 2 MB, 10 lines"),
    (Some(0), 0, 0, "tenk1: 0 kB, 0 lines"),
    (
        Some(18_446_744_073_709_551_615),
        18_446_744_073_709_551_615,
        18_446_744_073_709_551_615,
        "tenk1: 18,446,744,073,709 of 18,446,744,073,709 MB (100%), 18,446,744,073,709,551,615 lines",
    ),
];

#[test]
fn lines_say_amounts(rt: HostRuntime) -> Result<(), Fail> {
    for (size, bytes, lines, line) in LINES {
        let text = shown_text(rt.alloc(), b"tenk1", size, bytes, lines)?;
        let wanted = format!(in rt.alloc(); "\r{line}\x1b[K")?;
        assert_eq!(rt; text.as_slice(), wanted.as_bytes());
    }
    Ok(())
}

// Lines with the rows that the root of a run has given, the seconds that it goes on, and the line for them without what moves the cursor.
const RUN_LINES: &str = "1133965 12 run: 1,133,965 rows, 12 s
0 1 run: 0 rows, 1 s
999 3600 run: 999 rows, 3,600 s
18446744073709551615 0 run: 18,446,744,073,709,551,615 rows, 0 s";

#[test]
fn lines_say_how_far_runs_have_come(rt: HostRuntime) -> Result<(), Fail> {
    for case in RUN_LINES.lines() {
        let (rows, rest) = case.split_once(' ').ok_or("no seconds")?;
        let (seconds, line) = rest.split_once(' ').ok_or("no line")?;
        let (rows, seconds) = (rows.parse::<u64>()?, seconds.parse::<u64>()?);
        let text = shown_run_text(rt.alloc(), b"run", rows, seconds)?;
        let wanted = format!(in rt.alloc(); "\r{line}\x1b[K")?;
        assert_eq!(rt; text.as_slice(), wanted.as_bytes());
    }
    Ok(())
}

#[test]
fn names_stand_between_slash_and_ending(rt: HostRuntime) {
    let cases = [
        ("tables/t.csv", Some("t")),
        ("t.csv", Some("t")),
        ("/a.csv/b/tenk1.csv", Some("tenk1")),
        ("a//b.c.csv", Some("b.c")),
        ("a/.csv", Some("")),
        ("catalog.json", None),
        ("a.csv/plan", None),
        ("csv", None),
        ("", None),
    ];
    for (path, name) in &cases {
        assert_eq!(rt;
            relation_at(path.as_bytes()),
            name.map(|name| name.as_bytes())
        );
    }
}

#[test]
fn names_stay_on_one_line(rt: HostRuntime) -> Result<(), Fail> {
    let cases = [
        ("t", "t"),
        ("a\nb\x1b[2J\x7f", "a?b?[2J?"),
        ("größe", "größe"),
        (
            "0123456789012345678901234567890123456789",
            "0123456789012345678901234567890123456789",
        ),
        (
            "0123456789012345678901234567890123456789x",
            "0123456789012345678901234567890123456789",
        ),
        (
            "012345678901234567890123456789012345678ß",
            "012345678901234567890123456789012345678",
        ),
        (
            "01234567890123456789012345678901234567ßx",
            "01234567890123456789012345678901234567ß",
        ),
    ];
    for (name, shown) in &cases {
        let bytes = shown_name(rt.alloc(), name.as_bytes())?;
        assert_eq!(rt; bytes.as_slice(), shown.as_bytes());
    }
    Ok(())
}

#[test]
fn one_word_asks_for_no_line(rt: HostRuntime) {
    assert!(rt; is_quiet(&["run", "--quiet", "--data", "t"]));
    assert!(rt; !is_quiet(&["run", "--data", "quiet"]));
    assert!(rt; !is_quiet(&["run", "--quiet=1", "-quiet"]));
    assert!(rt; !is_quiet(&[]));
}
