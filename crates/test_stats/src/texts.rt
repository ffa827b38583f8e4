//! The table and the JSON, as users see them.

use crate::given::Given;
use crate::runs::{catalog, plan, workers};
use anyhow::{Context, Error};
use volcano_stats::{StatsForm, push_lone_plan, push_plan, push_shared, write_end};
use vx_catalog_bytes::{MemoryOut, write_all};

// Prints a text, and the time of the write behind it.
fn show_finished(
    rt: &(impl Print + AllocGlobal),
    text: &str,
    form: StatsForm,
    write: Option<u64>,
) -> Result<(), Error> {
    let mut out = MemoryOut::new(rt.alloc(), 7, 10000);
    write_all(&mut out, text.as_bytes())?;
    write_end(&mut out, form, write)?;
    let text = str::from_utf8(out.bytes())?;
    print!(rt; "{text}")?;
    Ok(())
}

/// A plan that runs alone has all times.
pub fn show_alone(
    rt: &(impl Print + AllocGlobal),
    form: StatsForm,
    given: &Given,
) -> Result<(), Error> {
    let alloc = rt.alloc();
    let plan = plan(alloc)?;
    let workers = workers(alloc)?;
    let mut text = String::new(alloc);
    push_lone_plan(
        &mut text,
        alloc,
        form,
        &plan,
        workers.as_slice(),
        given.loads.as_slice(),
        given.phases.as_slice(),
    )?;
    show_finished(rt, text.as_str(), form, given.write)
}

/// One of several plans has the time of its run.
pub fn show_one(
    rt: &(impl Print + AllocGlobal),
    form: StatsForm,
    given: &Given,
) -> Result<(), Error> {
    let alloc = rt.alloc();
    let run = given.phases.first().context("it has no phase")?;
    let plan = plan(alloc)?;
    let mut text = String::new(alloc);
    push_plan(&mut text, alloc, form, &plan, &[], *run)?;
    print!(rt; "{text}")?;
    Ok(())
}

/// Several plans share the other times.
pub fn show_shared(
    rt: &(impl Print + AllocGlobal),
    form: StatsForm,
    given: &Given,
) -> Result<(), Error> {
    let alloc = rt.alloc();
    let catalog = catalog(alloc)?;
    let mut text = String::new(alloc);
    push_shared(
        &mut text,
        alloc,
        form,
        &catalog,
        given.loads.as_slice(),
        given.phases.as_slice(),
    )?;
    show_finished(rt, text.as_str(), form, given.write)
}
