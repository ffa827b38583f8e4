//! What timers say.

use crate::clocks::Ticking;
use crate::given::Given;
use crate::runs::plan;
use anyhow::{Context, Error, bail};
use std::thread::Threads;
use volcano_bundle::{bundle_in, value_of_text};
use volcano_stats::{LoadTimer, Timer};
use volcano_tables::{Loading, Observer, load_tables_in_threads};
use vx_rows_values::KeySeed;

// A bundle with the rows of t.
const BUNDLE: &str =
    r#"{"command":"run","catalog":{},"plan":{},"tables":{"t":"id,k,v\n1,one,7\n"}}"#;

/// Each phase lasts from the end of the one before.
pub fn show_phases(
    rt: &(impl Print + AllocGlobal),
    step: Option<u64>,
    given: &Given,
) -> Result<(), Error> {
    let clock = Ticking::new(step);
    let mut timer = Timer::start(rt.alloc(), &clock);
    for time in given.phases.as_slice() {
        timer.end(&clock, time.phase)?;
    }
    let times = timer.times();
    println!(rt; "{times:?}")?;
    Ok(())
}

/// Each load lasts from the end of the one before. At first there are none.
pub fn show_loads(
    rt: &(impl Print + AllocGlobal),
    step: Option<u64>,
    given: &Given,
) -> Result<(), Error> {
    let clock = Ticking::new(step);
    let mut timer = LoadTimer::start(rt.alloc(), &clock);
    let times = timer.times();
    println!(rt; "{times:?}")?;
    for time in given.loads.as_slice() {
        timer.loaded(time.relation)?;
    }
    let times = timer.times();
    println!(rt; "{times:?}")?;
    Ok(())
}

/// The loads of a plan's relations from a bundle, by two threads.
pub fn show_bundle<R: Threads + Sync + Print + AllocGlobal>(
    rt: &R,
    step: Option<u64>,
) -> Result<(), Error> {
    let alloc = rt.alloc();
    let value = value_of_text(alloc, BUNDLE.as_bytes())?.context("the text is no JSON")?;
    let bundle = bundle_in(alloc, &value)?.context("the text is no bundle")?;
    let clock = Ticking::new(step);
    let mut timer = LoadTimer::start(alloc, &clock);
    let plan = plan(alloc)?;
    let loading = Loading {
        alloc,
        threads: 2,
        seed: KeySeed::fixed(),
    };
    let database = load_tables_in_threads(rt, loading, &plan, &bundle, &mut timer);
    if database.is_err() {
        bail!("the bundle has no rows of the plan's relation");
    }
    let times = timer.times();
    println!(rt; "{times:?}")?;
    Ok(())
}
