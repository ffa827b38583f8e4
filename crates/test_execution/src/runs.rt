//! What runs come to, as texts: their rows, the line of their fault, or that some worker has not ended.

use crate::cases::Case;
use std::alloc::{AllocError, Global};
use std::sync::Wait;
use std::test::Fail;
use std::thread::Threads;
use test_tables::shown;
use vx_exec::{rounds_needed, run_rounds, run_scheduled};
use vx_exec_parallel::{Threading, run_threads};
use vx_exec_runs::RunOutcome;
use vx_exec_setup::{EvalFault, RunCounts, RunFault, Setup};
use vx_exec_threads::Gate;
use vx_exec_watch::Unwatched;
use vx_plan::erase;
use vx_plan_nodes::{PlanFunctions, Router};
use vx_rows_views::Rows;
use vx_serial::eval;

/// What a run is given besides its plan, its database and its setup.
#[derive(Clone, Copy)]
pub struct Given<'a, F, R> {
    /// The functions that the plan may name.
    pub functions: &'a F,
    /// Says where hash routes send keys.
    pub router: &'a R,
}

// The rows as one text.
fn text_of(alloc: Global, rows: &Rows) -> Result<String, AllocError> {
    shown(alloc, &rows.gathered(alloc)?)
}

/// The text of what a run comes to.
pub fn outcome(alloc: Global, ran: Result<RunOutcome, RunFault>) -> Result<String, AllocError> {
    match ran {
        Ok(RunOutcome::Done(rows)) => text_of(alloc, &rows),
        Ok(RunOutcome::Unfinished) => String::from_str(alloc, "unfinished"),
        Err(fault) => format!(in alloc; "{fault}"),
    }
}

/// What a case comes to by serial evaluation, without its exchanges. An overflow and a function that is not there have no number of a node, since the nodes
/// of that plan are numbered otherwise.
pub fn serially<F: PlanFunctions>(
    alloc: Global,
    functions: &F,
    case: &Case,
) -> Result<String, Fail> {
    let plan = erase(alloc, case.plan.plan())?;
    match eval(alloc, functions, &plan, &case.database) {
        Ok(rows) => Ok(text_of(alloc, &rows)?),
        Err(EvalFault::Overflow { node: _ }) => Ok(String::from_str(alloc, "X7 Overflow")?),
        Err(EvalFault::BadFunction { node: _ }) => Ok(String::from_str(alloc, "X15 BadFunction")?),
        Err(fault) => Ok(format!(in alloc; "{fault}")?),
    }
}

/// What a case comes to in at most `limit` rounds.
pub fn by_rounds<F: PlanFunctions + Copy, R: Router>(
    alloc: Global,
    case: &Case,
    setup: &Setup,
    given: &Given<'_, F, R>,
    limit: u64,
    counts: &mut RunCounts,
) -> Result<String, AllocError> {
    let (plan, database) = (&case.plan, &case.database);
    let (functions, router) = (given.functions, given.router);
    outcome(
        alloc,
        run_rounds(
            alloc, plan, database, setup, functions, router, limit, &Unwatched, counts,
        ),
    )
}

/// What a case comes to in as many rounds as it needs at most, and no more. If `needed` is not empty and not their number, that is the answer.
pub fn by_needed_rounds<F: PlanFunctions + Copy, R: Router>(
    alloc: Global,
    case: &Case,
    setup: &Setup,
    given: &Given<'_, F, R>,
    needed: &str,
) -> Result<String, Fail> {
    let limit = match rounds_needed(alloc, given.functions, &case.plan, &case.database, setup) {
        Ok(limit) => limit,
        Err(fault) => return Ok(outcome(alloc, Err(fault))?),
    };
    if !needed.is_empty() && needed.parse::<u64>()? != limit {
        return Ok(format!(in alloc; "{limit}")?);
    }
    let mut unread = RunCounts::unread(alloc);
    Ok(by_rounds(alloc, case, setup, given, limit, &mut unread)?)
}

/// What a case comes to by a schedule.
pub fn by_steps<F: PlanFunctions + Copy, R: Router>(
    alloc: Global,
    case: &Case,
    setup: &Setup,
    given: &Given<'_, F, R>,
    steps: &[u32],
) -> Result<String, AllocError> {
    let (plan, database) = (&case.plan, &case.database);
    let (functions, router) = (given.functions, given.router);
    outcome(
        alloc,
        run_scheduled(alloc, plan, database, setup, functions, router, steps),
    )
}

/// What a case comes to by threads.
pub fn by_threads<
    T: Threads + Wait + Sync,
    F: PlanFunctions + Copy + Send + Sync,
    R: Router + Sync,
    G: Gate + Sync,
>(
    rt: &T,
    alloc: Global,
    case: &Case,
    setup: &Setup,
    functions: &F,
    threading: &Threading<'_, R, G, Unwatched>,
    counts: &mut RunCounts,
) -> Result<String, AllocError> {
    let (plan, database) = (&case.plan, &case.database);
    outcome(
        alloc,
        run_threads(
            rt, alloc, plan, database, setup, functions, threading, counts,
        ),
    )
}
