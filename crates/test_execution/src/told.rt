//! What an engine tells of its runs: that they begin, go on and end, and how many rows the root has given.

use crate::cases::{case_of, worked_plan};
use crate::lines::{first_part, setup_from};
use std::cell::Cell;
use std::process::Abort;
use std::sync::Wait;
use std::test::Fail;
use std::thread::Threads;
use vx_exec_parallel::Engine;
use vx_exec_runs::Runs;
use vx_exec_setup::{Mode, RunCounts, Setting};
use vx_exec_watch::Watch;

// What was told of runs.
#[derive(Drop)]
struct Told {
    begun: Cell<u64>,
    ended: Cell<u64>,
    // The rows that the root had given when they were told last.
    rows: Cell<u64>,
    // How often they were fewer than before.
    falls: Cell<u64>,
}

impl Told {
    // Nothing.
    fn new() -> Told {
        Told {
            begun: Cell::new(0),
            ended: Cell::new(0),
            rows: Cell::new(0),
            falls: Cell::new(0),
        }
    }
}

// Counts one more.
fn add(count: &Cell<u64>) {
    count.set(count.get().saturating_add(1));
}

impl Watch for Told {
    fn announce(&self, _path: &str) {}

    fn is_looking(&self) -> bool {
        true
    }

    fn begin(&self) {
        add(&self.begun);
    }

    fn note(&self, rows: u64) {
        if rows < self.rows.get() {
            add(&self.falls);
        }
        self.rows.set(rows);
    }

    fn end(&self) {
        add(&self.ended);
    }
}

// Runs the plan of a line over 1000 rows, where they are generated, by three workers beside the root's and with a row in each packet and each morsel. Then it
// compares what was told with the rest of `line`: the mode, whether the run has rows, and the fewest and the most rows that may have been told last.
fn try_told<T: Threads + Wait + Sync + Abort + AllocGlobal>(
    rt: &T,
    plan: &str,
    line: &str,
) -> Result<(), Fail> {
    let alloc = rt.alloc();
    let case = case_of(alloc, &worked_plan(plan), 1000)?;
    let (mode, rest) = first_part(line);
    let (outcome, rest) = first_part(rest);
    let (least, rest) = first_part(rest);
    let (most, _) = first_part(rest);
    let mode = match mode {
        "threads" => Mode::Threads,
        _ => Mode::Rounds,
    };
    let setting = Setting::new(setup_from(alloc, "many=3", "1 1 4")?, mode);
    let told = Told::new();
    let mut unread = RunCounts::unread(alloc);
    let engine = Engine::new(&told);
    let ran = engine.run(rt, alloc, &case.plan, &case.database, &setting, &mut unread);
    let rows = told.rows.get();
    let (least, most) = (least.parse::<u64>()?, most.parse::<u64>()?);
    assert!(rt; ran.is_ok() == (outcome == "rows"), "{line}");
    assert!(rt; told.begun.get() == 1 && told.ended.get() == 1, "{line}");
    assert!(rt; least <= rows && rows <= most, "{line}: {rows}");
    assert!(rt; told.falls.get() == 0, "{line}");
    Ok(())
}

// Each row comes to the root by a step of its own, so at most sixteen come behind the last that are told.
const GATHERED: &str =
    r#"gathered | {"sizes":["many"],"root":{"op":"exchange","kind":"gather","input":T_SHARED}} | NUMBERED | - | - | RISING"#;

// The only row that the group may give overflows.
const OVERFLOWING: &str =
    r#"a worker fails at the root | {"sizes":["many"],"root":{"op":"group","by":["k"],"aggregates":[{"fn":"sum","column":"v","as":"s"}],"input":{"op":"exchange","kind":"gather","input":T_PLAIN}}} | LARGE_FIRST | SIXTY | - | X7 Overflow node=0"#;

#[test]
fn an_engine_tells_how_far_runs_have_come(rt: HostRuntime) -> Result<(), Fail> {
    try_told(&rt, GATHERED, "rounds | rows | 984 | 1000")?;
    try_told(&rt, GATHERED, "threads | rows | 984 | 1000")?;
    try_told(&rt, OVERFLOWING, "rounds | fault | 0 | 0")
}
