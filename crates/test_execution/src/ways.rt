//! Ways to run a plan.
//!
//! A line has the way; how often the plan is run by it; how many workers each size name has, as `many=4 few=2`; the rows of a packet, those of a
//! morsel and the slack, as `256 1024 8`; what has to come of it; and what else, or nothing. The ways are
//!
//! - `serial`: by serial evaluation of the plan without its exchanges;
//! - `rounds`: in as many rounds as the plan needs at most. That number is what else is compared;
//! - `limit 2`: in at most two rounds;
//! - `steps 40 3 2 1 0`: by a schedule of 40 steps of worker 3, then of worker 2, and so on;
//! - `drawn 3 50`: by a schedule that is drawn for groups of three workers, and ends with 50 steps of each worker in turn;
//! - `threads`: each worker in a thread of its own;
//! - `held 1.0 1.1`, `both 1.0 1.1`, `until 1.0 1.1`: by threads, where a worker waits for another one, as `Watch::of` has it. What else is compared is what the
//!   gate counted, as `Watch::said` has it;
//! - `watched`, `within 6`: by threads, with such a gate that holds up no one, and by at most six threads;
//! - `counts 1000 2 puts`: in at most 1000 rounds, or by `threads`, and compared is what the run counts, as `counted` has it;
//! - `fault NoMemory`: no run, but the line of this fault.
//!
//! What has to come are `rows`, those of the plan, in their order where the plan is total; or `rows in order`, in their order in any plan; or else a text. It
//! may be `A or B`: then both have to come, each in some of the runs.

use crate::cases::{Case, agrees, case_of, expected, worked_plan};
use crate::counts::push_count;
use crate::draws::{Draws, in_turn};
use crate::gates::Watch;
use crate::lines::{first_part, first_word, setup_from};
use crate::runs::{Given, by_needed_rounds, by_rounds, by_steps, by_threads, outcome, serially};
use std::alloc::{AllocError, Global};
use std::process::Abort;
use std::sync::Wait;
use std::test::Fail;
use std::thread::Threads;
use vx_exec_parallel::Threading;
use vx_exec_setup::{RunCounts, RunFault, Setup};
use vx_exec_threads::Free;
use vx_exec_watch::Unwatched;
use vx_plan_nodes::{PlanFunctions, Router, StandardFunctions};
use vx_rows_values::limits::MAX_WORKERS;

// A way as its line has it.
#[derive(Clone, Copy)]
struct Way<'a> {
    word: &'a str,
    // What stands behind the word.
    rest: &'a str,
    runs: u32,
    sizes: &'a str,
    limits: &'a str,
    wanted: &'a str,
    more: &'a str,
}

// The way of a line.
fn way_of(line: &str) -> Result<Way<'_>, Fail> {
    let (how, rest) = first_part(line);
    let (runs, rest) = first_part(rest);
    let (sizes, rest) = first_part(rest);
    let (limits, rest) = first_part(rest);
    let (wanted, more) = first_part(rest);
    let (word, rest) = first_word(how);
    Ok(Way {
        word,
        rest,
        runs: runs.parse::<u32>()?,
        sizes,
        limits,
        wanted,
        more,
    })
}

// The fault of a name, with a number of its own. It is out of memory if there is none of this name.
fn fault_named(name: &str) -> RunFault {
    match name {
        "BadStep" => RunFault::BadStep { index: 3 },
        "Overflow" => RunFault::Overflow { node: 2 },
        "NoThread" => RunFault::NoThread,
        "Unsorted" => RunFault::Unsorted { node: 1 },
        "Stranger" => RunFault::Stranger { exchange: 4 },
        "BadFunction" => RunFault::BadFunction { node: 5 },
        "TooManyWorkers" => RunFault::TooManyWorkers { number: 257 },
        _ => RunFault::NoMemory,
    }
}

// What a case comes to in at most so many rounds as the way says.
fn by_limit<F: PlanFunctions + Copy, R: Router>(
    alloc: Global,
    case: &Case,
    setup: &Setup,
    given: &Given<'_, F, R>,
    way: &Way<'_>,
) -> Result<String, Fail> {
    let limit = way.rest.parse::<u64>()?;
    let mut unread = RunCounts::unread(alloc);
    Ok(by_rounds(alloc, case, setup, given, limit, &mut unread)?)
}

// What a case comes to by the schedule that the way has.
fn by_chosen_steps<F: PlanFunctions + Copy, R: Router>(
    alloc: Global,
    case: &Case,
    setup: &Setup,
    given: &Given<'_, F, R>,
    way: &Way<'_>,
) -> Result<String, Fail> {
    let steps = in_turn(alloc, way.rest)?;
    Ok(by_steps(alloc, case, setup, given, steps.as_slice())?)
}

// What a case comes to by a schedule that is drawn. The way says for how many workers of each group, and how many turns all of them make at its end.
fn by_drawn_steps<F: PlanFunctions + Copy, R: Router>(
    alloc: Global,
    case: &Case,
    setup: &Setup,
    given: &Given<'_, F, R>,
    way: &Way<'_>,
    draws: &mut Draws,
) -> Result<String, Fail> {
    let (many, turns) = first_word(way.rest);
    let grouped = case.groups.saturating_mul(many.parse::<u32>()?);
    let workers = grouped.saturating_add(1).max(1);
    let steps = draws.schedule(alloc, workers, turns.parse::<u32>()?)?;
    Ok(by_steps(alloc, case, setup, given, steps.as_slice())?)
}

// What a case comes to by threads that nothing holds up.
fn by_free_threads<
    T: Threads + Wait + Sync,
    F: PlanFunctions + Copy + Send + Sync,
    R: Router + Sync,
>(
    rt: &T,
    alloc: Global,
    case: &Case,
    setup: &Setup,
    given: &Given<'_, F, R>,
    counts: &mut RunCounts,
) -> Result<String, Fail> {
    let (gate, watch) = (Free, Unwatched);
    let threading = Threading::new(given.router, &gate, &watch);
    let functions = given.functions;
    Ok(by_threads(rt, alloc, case, setup, functions, &threading, counts)?)
}

// What a case comes to by threads with a gate that counts. If it has counted otherwise than the way says, that is the answer.
fn by_watched_threads<
    T: Threads + Wait + Sync,
    F: PlanFunctions + Copy + Send + Sync,
    R: Router + Sync,
>(
    rt: &T,
    alloc: Global,
    case: &Case,
    setup: &Setup,
    given: &Given<'_, F, R>,
    way: &Way<'_>,
) -> Result<String, Fail> {
    let (gate, watch) = (Watch::of(way.word, way.rest), Unwatched);
    let most = match way.word {
        "within" => way.rest.parse::<u32>()?,
        _ => MAX_WORKERS,
    };
    let threading = Threading {
        router: given.router,
        gate: &gate,
        watch: &watch,
        most,
    };
    let mut unread = RunCounts::unread(alloc);
    let functions = given.functions;
    let text = by_threads(rt, alloc, case, setup, functions, &threading, &mut unread)?;
    let said = gate.said(alloc)?;
    if said.as_str() == way.more {
        Ok(text)
    } else {
        Ok(said)
    }
}

// What comes of a run, `done` where it has rows, and then what each of `words` asks of its counts.
fn said_of(alloc: Global, came: &str, counts: &RunCounts, words: &str) -> Result<String, Fail> {
    let end = if came.ends_with(';') { "done" } else { came };
    let mut text = format!(in alloc; "{end};")?;
    for word in words.split_whitespace() {
        push_count(&mut text, counts.workers(), word)?;
    }
    Ok(text)
}

// What a case counts by threads, or in so many rounds at most as the way says.
fn counted<T: Threads + Wait + Sync, F: PlanFunctions + Copy + Send + Sync, R: Router + Sync>(
    rt: &T,
    alloc: Global,
    case: &Case,
    setup: &Setup,
    given: &Given<'_, F, R>,
    way: &Way<'_>,
) -> Result<String, Fail> {
    let (limit, words) = first_word(way.rest);
    let mut counts = RunCounts::new(alloc);
    let came = if limit == "threads" {
        by_free_threads(rt, alloc, case, setup, given, &mut counts)?
    } else {
        let limit = limit.parse::<u64>()?;
        by_rounds(alloc, case, setup, given, limit, &mut counts)?
    };
    said_of(alloc, came.as_str(), &counts, words)
}

// What a case comes to by a way, once.
fn once<T: Threads + Wait + Sync, F: PlanFunctions + Copy + Send + Sync, R: Router + Sync>(
    rt: &T,
    alloc: Global,
    case: &Case,
    setup: &Setup,
    given: &Given<'_, F, R>,
    way: &Way<'_>,
    draws: &mut Draws,
) -> Result<String, Fail> {
    match way.word {
        "serial" => serially(alloc, given.functions, case),
        "rounds" => by_needed_rounds(alloc, case, setup, given, way.more),
        "limit" => by_limit(alloc, case, setup, given, way),
        "steps" => by_chosen_steps(alloc, case, setup, given, way),
        "drawn" => by_drawn_steps(alloc, case, setup, given, way, draws),
        "threads" => {
            let mut unread = RunCounts::unread(alloc);
            by_free_threads(rt, alloc, case, setup, given, &mut unread)
        }
        "counts" => counted(rt, alloc, case, setup, given, way),
        "fault" => Ok(outcome(alloc, Err(fault_named(way.rest)))?),
        _ => by_watched_threads(rt, alloc, case, setup, given, way),
    }
}

// Whether a text is what has to come of a case. A fault has a node behind its name, which is left out in order.
fn is_wanted(alloc: Global, case: &Case, text: &str, wanted: &str) -> Result<bool, AllocError> {
    let rows = case.rows.as_str();
    match wanted {
        "rows" => agrees(alloc, case, text, rows),
        "rows in order" => Ok(text == rows.split_once(" node=").unwrap_or((rows, "")).0),
        _ => Ok(text == wanted),
    }
}

// Compares what a case comes to by the way of a line with what the line says. The case has a name.
fn try_way<
    T: Threads + Wait + Sync + Abort,
    F: PlanFunctions + Copy + Send + Sync,
    R: Router + Sync,
>(
    rt: &T,
    alloc: Global,
    given: &Given<'_, F, R>,
    name: &str,
    case: &Case,
    line: &str,
) -> Result<(), Fail> {
    let way = way_of(line)?;
    let setup = setup_from(alloc, way.sizes, way.limits)?;
    let (first, second) = way
        .wanted
        .split_once(" or ")
        .unwrap_or((way.wanted, way.wanted));
    let mut draws = Draws::from_number(1);
    let mut firsts = 0u32;
    for _ in 0..way.runs {
        let text = once(rt, alloc, case, &setup, given, &way, &mut draws)?;
        if is_wanted(alloc, case, text.as_str(), first)? {
            firsts = firsts.saturating_add(1);
        } else {
            let is_second = is_wanted(alloc, case, text.as_str(), second)?;
            assert!(rt; is_second, "{name} by {line}: {text}");
        }
    }
    // Where one of two may come, both have to.
    let is_right = first == second || (0 < firsts && firsts < way.runs);
    assert!(rt; is_right && way.runs > 0, "{name} by {line}: {firsts}");
    Ok(())
}

/// Compares what the plan of a line comes to by these functions with the line, by each of these ways. Where rows are generated, there are `count` of them.
pub fn try_plan_given<
    T: Threads + Wait + Sync + Abort + AllocGlobal,
    F: PlanFunctions + Copy + Send + Sync,
    R: Router + Sync,
>(rt: &T, given: &Given<'_, F, R>, count: u32, line: &str, ways: &str) -> Result<(), Fail> {
    let alloc = rt.alloc();
    let plan = worked_plan(line);
    let mut case = case_of(alloc, &plan, count)?;
    case.rows = expected(alloc, given.functions, &case, &plan, count)?;
    for way in ways.lines() {
        try_way(rt, alloc, given, plan.name, &case, way)?;
    }
    Ok(())
}

/// The same by the program's functions.
pub fn try_plan<T: Threads + Wait + Sync + Abort + AllocGlobal, R: Router + Sync>(
    rt: &T,
    router: &R,
    count: u32,
    line: &str,
    ways: &str,
) -> Result<(), Fail> {
    let given = Given {
        functions: &StandardFunctions,
        router,
    };
    try_plan_given(rt, &given, count, line, ways)
}

/// The same of each of these plans by each of these ways.
pub fn try_plans<T: Threads + Wait + Sync + Abort + AllocGlobal, R: Router + Sync>(
    rt: &T,
    router: &R,
    count: u32,
    plans: &str,
    ways: &str,
) -> Result<(), Fail> {
    for line in plans.lines() {
        try_plan(rt, router, count, line, ways)?;
    }
    Ok(())
}

/// The same of lines with plans, each followed by lines with ways to run it, which begin with `by`.
pub fn try_cases<T: Threads + Wait + Sync + Abort + AllocGlobal, R: Router + Sync>(
    rt: &T,
    router: &R,
    count: u32,
    cases: &str,
) -> Result<(), Fail> {
    let mut plan = "";
    for line in cases.lines() {
        match line.strip_prefix("by ") {
            Some(way) => try_plan(rt, router, count, plan, way)?,
            None => plan = line,
        }
    }
    Ok(())
}
