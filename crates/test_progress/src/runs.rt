//! When the line of a run is written and erased, by a script of calls.

use crate::script::{Script, Scripted};
use std::test::Fail;
use volcano_progress::{Terminal, WatchedRuns};
use vx_exec_watch::Watch;

// More than a screen of these tests is written on.
const ROOM: usize = 10_000;

// Makes the calls that the words name: `begin`, `end`, a number for so many rows that the root has given, and anything else for the path of the
// plan that runs next.
fn told(watch: &impl Watch, words: &str) {
    for word in words.split_whitespace() {
        match word {
            "begin" => watch.begin(),
            "end" => watch.end(),
            _ => match word.parse::<u64>() {
                Ok(rows) => watch.note(rows),
                Err(_) => watch.announce(word),
            },
        }
    }
}

// What stands on the screen of a script after these calls.
fn shown_by(
    rt: &impl AllocGlobal,
    script: &Script,
    is_shown: bool,
    words: &str,
) -> Result<String, Fail> {
    let screen = Scripted { script };
    let shown = if is_shown { Some(&screen) } else { None };
    told(&WatchedRuns::new(rt.alloc(), shown), words);
    let written = script.written(rt.alloc())?;
    Ok(String::from_str(rt.alloc(), str::from_utf8(written.as_slice())?)?)
}

// Lines with three parts: how much later it is whenever the clock is asked, in milliseconds; the calls; and what stands on the screen, with `<` for the
// first column, and `>` where all is erased from the cursor on. The clock is asked first when the command begins, at 0, and then at each call but `end`
// and the path of a plan.
//
// - By 300: the run begins at 300, and goes on at 600, 900 and 1200. The first line is due at 1000.
// - By 500: it begins at 500, and goes on at 1000, 1500 and 2000.
// - By 40: it begins at 40, and goes on for the 24th time at 1000. The next line is due at 1100, so it comes at 1120, and then at 1220, so at 1240.
// - By 600: the second run begins at 1800, behind the first second, and its line is due a tenth of one later.
// - By 2000: nothing is told before a run begins, or behind its end.
const SCRIPTS: &str = "300|begin 1 2 3 end|<run: 3 rows, 0 s><>
300|begin 1 2 end|
500|begin 0 7 7 end|<run: 0 rows, 0 s><run: 7 rows, 1 s><run: 7 rows, 1 s><>
40|begin 0 0 0 0 0 0 0 0 0 0 0 0 0 0 0 0 0 0 0 0 0 0 0 1 2 3 4 5 6 7 end|<run: 1 rows, 0 s><run: 4 rows, 1 s><run: 7 rows, 1 s><>
600|plans/a.json begin 10 end plans/b.json begin 20 end begin 5 end|<a.json: 10 rows, 0 s><><b.json: 20 rows, 0 s><><run: 5 rows, 0 s><>
2000|2 3 end begin 4 end 5 6|<run: 4 rows, 2 s><>
2000|begin end|";

#[test]
fn the_line_of_a_run_is_written_when_it_is_due(rt: HostRuntime) -> Result<(), Fail> {
    for line in SCRIPTS.lines() {
        let (step, rest) = line.split_once('|').ok_or("no calls")?;
        let (words, screen) = rest.split_once('|').ok_or("no screen")?;
        let script = Script::new(rt.alloc(), Some(step.parse::<u64>()?), None, ROOM);
        let written = shown_by(&rt, &script, true, words)?;
        let at_first = screen.replace(rt.alloc(), "<", "\r")?;
        let wanted = at_first.as_str().replace(rt.alloc(), ">", "\x1b[K")?;
        assert_eq!(rt; written.as_str(), wanted.as_str(), "{line}");
    }
    Ok(())
}

#[test]
fn other_screens_show_no_run(rt: HostRuntime) -> Result<(), Fail> {
    let quiet = Script::new(rt.alloc(), Some(2_000), None, ROOM);
    let nothing = shown_by(&rt, &quiet, false, "a begin 1 2 end")?;
    assert_eq!(rt; nothing.as_str(), "");
    let timeless = Script::new(rt.alloc(), None, None, ROOM);
    let nothing = shown_by(&rt, &timeless, true, "begin 1 2 end")?;
    assert_eq!(rt; nothing.as_str(), "");
    Ok(())
}

#[test]
fn a_screen_is_looked_at(rt: HostRuntime) {
    let terminal = Terminal::new(&rt, rt.stderr());
    assert!(rt; WatchedRuns::new(rt.alloc(), Some(&terminal)).is_looking());
}
