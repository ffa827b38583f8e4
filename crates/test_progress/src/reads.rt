//! When the line is written and erased, while a file is read.

use crate::script::{Everywhere, Script, Scripted};
use std::fs::Files;
use std::test::Fail;
use std::time::Clock;
use volcano_progress::{Screen, Terminal, Watched};
use vx_catalog_bytes::{ByteIn, Disk, Store};

// More than a screen of these tests is written on.
const ROOM: usize = 10_000;

// A file that is read in pieces of `piece` bytes, `pieces` times, and is then let go.
#[derive(Clone, Copy)]
struct Reading<'a> {
    path: &'a str,
    text: &'a str,
    fails_after: Option<usize>,
    piece: usize,
    pieces: usize,
}

// A file of twelve bytes and three lines, which is read four bytes at a time.
fn in_pieces(path: &str, fails_after: Option<usize>, pieces: usize) -> Reading<'_> {
    Reading {
        path,
        text: "a,b\n1,2\n3,4\n",
        fails_after,
        piece: 4,
        pieces,
    }
}

// What a script has on its screen once a file was read so, and how many bytes were read.
fn read_on(
    rt: &impl AllocGlobal,
    script: &Script,
    is_shown: bool,
    reading: &Reading<'_>,
) -> Result<String, Fail> {
    let screen = Scripted { script };
    let files = Everywhere {
        text: reading.text.as_bytes(),
        fails_after: reading.fails_after,
    };
    let shown = if is_shown { Some(&screen) } else { None };
    let watched = Watched::new(rt.alloc(), files, shown);
    let mut file = watched.open(reading.path).ok_or("no file")?;
    let mut count = 0usize;
    let mut buf = [0u8; 64];
    for _ in 0..reading.pieces {
        match file.read(&mut buf[..reading.piece.min(64)]) {
            Ok(n) => count = count.saturating_add(n),
            Err(_) => break,
        }
    }
    drop(file);
    let written = script.written(rt.alloc())?;
    let text = str::from_utf8(written.as_slice())?;
    Ok(format!(in rt.alloc(); "{count}|{text}")?)
}

// The same of such a table, on a screen whose clock goes on by a step.
fn read_table(
    rt: &impl AllocGlobal,
    step: Option<u64>,
    fails_after: Option<usize>,
    pieces: usize,
) -> Result<String, Fail> {
    let script = Script::new(rt.alloc(), step, Some(12), ROOM);
    read_on(
        rt,
        &script,
        true,
        &in_pieces("d/t.csv", fails_after, pieces),
    )
}

// The command begins at 0, the file is opened at 300, and what is read is noted at 600, 900 and 1200.
#[test]
fn a_line_is_due_after_a_second(rt: HostRuntime) -> Result<(), Fail> {
    let nothing = read_table(&rt, Some(300), None, 2)?;
    assert_eq!(rt; nothing.as_str(), "8|");
    let to_the_end = read_table(&rt, Some(300), None, 4)?;
    assert_eq!(rt;
        to_the_end.as_str(),
        "12|\rt: 0 of 0 kB (100%), 3 lines\x1b[K\r\x1b[K"
    );
    let let_go = read_table(&rt, Some(300), None, 3)?;
    assert_eq!(rt;
        let_go.as_str(),
        "12|\rt: 0 of 0 kB (100%), 3 lines\x1b[K\r\x1b[K"
    );
    Ok(())
}

// With a step of 500, what is read is noted at 1000, 1500 and 2000; the reader fails behind 8 bytes.
#[test]
fn a_line_is_erased_where_reading_fails(rt: HostRuntime) -> Result<(), Fail> {
    let failed = read_table(&rt, Some(500), Some(8), 3)?;
    assert_eq!(rt;
        failed.as_str(),
        "8|\rt: 0 of 0 kB (33%), 1 lines\x1b[K\rt: 0 of 0 kB (66%), 2 lines\x1b[K\r\x1b[K"
    );
    Ok(())
}

#[test]
fn without_a_clock_no_line_is_written(rt: HostRuntime) -> Result<(), Fail> {
    let read = read_table(&rt, None, None, 4)?;
    assert_eq!(rt; read.as_str(), "12|");
    Ok(())
}

// Thirty bytes, one at a time, each noted 40 milliseconds after the one before it: the 24th at 1000, so the next line is due
// at 1100, which is the 27th at 1120, and then at 1220, which is the 30th at 1240.
#[test]
fn lines_are_a_tenth_of_a_second_apart(rt: HostRuntime) -> Result<(), Fail> {
    let script = Script::new(rt.alloc(), Some(40), Some(30), ROOM);
    let reading = Reading {
        path: "t.csv",
        text: "xxxxxxxxxxxxxxxxxxxxxxxxxxxxxx",
        fails_after: None,
        piece: 1,
        pieces: 31,
    };
    let read = read_on(&rt, &script, true, &reading)?;
    assert_eq!(rt;
        read.as_str(),
        "30|\rt: 0 of 0 kB (80%), 0 lines\x1b[K\rt: 0 of 0 kB (90%), 0 lines\x1b[K\rt: 0 of 0 kB (100%), 0 lines\x1b[K\r\x1b[K"
    );
    Ok(())
}

// A file that is no table, a command without a screen, and a screen that takes the first line and no more.
#[test]
fn other_files_and_other_screens_show_nothing(rt: HostRuntime) -> Result<(), Fail> {
    let plan = Script::new(rt.alloc(), Some(500), Some(12), ROOM);
    let read = read_on(&rt, &plan, true, &in_pieces("plan.json", None, 4))?;
    assert_eq!(rt; read.as_str(), "12|");
    let quiet = Script::new(rt.alloc(), Some(500), Some(12), ROOM);
    let read = read_on(&rt, &quiet, false, &in_pieces("t.csv", None, 4))?;
    assert_eq!(rt; read.as_str(), "12|");
    let broken = Script::new(rt.alloc(), Some(500), None, 20);
    let read = read_on(&rt, &broken, true, &in_pieces("t.csv", None, 4))?;
    assert_eq!(rt; read.as_str(), "12|\rt: 0 kB, 1 lines\x1b[K");
    Ok(())
}

// A store that threads may share.
fn is_shared<T: Sync>(_store: &T) -> bool {
    true
}

#[test]
fn a_terminal_has_the_clock_and_the_files_of_the_system(rt: HostRuntime) {
    let terminal = Terminal::new(&rt, rt.stderr());
    assert!(rt; terminal.now().is_some());
    assert!(rt; terminal.size("no/such/file.csv").is_none());
    let files = Watched::new(rt.alloc(), Disk::new(&rt), Some(&terminal));
    assert!(rt; is_shared(&files));
    assert!(rt; files.open("no/such/file.csv").is_none());
}
