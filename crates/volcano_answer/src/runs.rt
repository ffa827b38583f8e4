//! Several plans over one database, which is loaded before the first of them runs.

ghost use Rattle.std.specs.Prelude.{◌≡◌, ◌++◌, codes, string_bytes, IfOk, IfErr, OnOk};
ghost use Rattle.volcano_arguments.specs.Asked.{many_are};
ghost use Rattle.volcano_stats.specs.Text.{shared_text};
ghost use Rattle.volcano_answer.specs.Loaded.{AreLoadedPlans};
ghost use Rattle.volcano_answer.specs.Plans.{PlansRefuse};
ghost use Rattle.volcano_answer.specs.Stats.{if_asked};

use crate::files::is_input;
use crate::layouts::Layout;
use crate::plans::{AcceptedPlan, accepted_plans, catalog_under};
use crate::services::Services;
use std::alloc::{AllocError, Global};
use std::sync::Wait;
use std::thread::Threads;
use std::time::Clock;
use volcano_arguments::ManySources;
use volcano_refusals::Refusal;
use volcano_stats::{LoadTime, LoadTimer, PhaseTime, StatsForm, Timer, WorkPhase, push_shared};
use volcano_tables::{Folder, load_scanned_in_threads};
use vx_catalog::Database;
use vx_catalog_bytes::{ByteIn, Store};
use vx_catalog_relations::Catalog;
use vx_exec_runs::Runs;
use vx_exec_setup::Setting;

/// Several plans that are still to run, and all that their runs need.
#[derive(Drop)]
pub struct LoadedPlans {
    /// The form in which statistics are asked for, if they are.
    pub form: Option<StatsForm>,
    pub setting: Setting,
    pub plans: Vec<AcceptedPlan>,
    /// The rows of each relation that one of the plans scans.
    pub database: Database,
    /// The statistics that the plans have in common; empty where none are asked for.
    pub common: String,
    /// How many threads make the text of rows at most.
    pub threads: usize,
    /// How the rows of each run are written.
    pub layout: Layout,
}

// The statistics that several plans have in common, if they are asked for.
fn common_stats(
    alloc: Global,
    form: Option<StatsForm>,
    catalog: &Catalog,
    loads: &[LoadTime],
    times: &[PhaseTime],
) -> Result<String, AllocError>
    ensures { IfOk result (λ s. string_bytes s ≡ if_asked form (λ f. codes "# all plans\n" ++ shared_text f catalog.now loads.now times.now)) }
{
    let mut stats = String::new(alloc);
    if let Some(form) = form {
        stats.push_str("# all plans\n")?;
        push_shared(&mut stats, alloc, form, catalog, loads, times)?;
    }
    Ok(stats)
}

/// Several plans that are accepted, and the tables that they scan, each loaded once.
pub fn load_plans<T: Threads + Wait + Sync, R: Runs, C: Clock, F: Store, I: ByteIn>(
    services: &Services<'_, T, R, C>,
    files: &F,
    input: &mut I,
    form: Option<StatsForm>,
    sources: &ManySources<'_>,
    folder: &str,
    setting: Setting,
) -> Result<LoadedPlans, Refusal>
    ensures loaded { IfOk result (AreLoadedPlans (F.holds files.now) (I.remaining input.old) (many_are sources.now) folder.now) }
    ensures form { IfOk result (λ l. l.form ≡ form) }
    ensures setting { IfOk result (λ l. l.setting ≡ setting) }
    ensures layout { IfOk result (λ l. l.layout ≡ services.now.layout) }
    ensures refused { IfErr result (PlansRefuse (F.holds files.now) (F.is_reliable files.now) (I.remaining input.old) (I.has_failed input.new) (many_are sources.now) folder.now) }
{
    let (alloc, clock) = (services.alloc, services.clock);
    let mut timer = Timer::start(alloc, clock);
    let catalog = catalog_under(alloc, files, input, sources.catalog)?;
    timer.end(clock, WorkPhase::Catalog)?;
    let was_read = is_input(sources.catalog);
    let paths = sources.plans.as_slice();
    let plans = accepted_plans(alloc, files, input, was_read, &catalog, paths)?;
    timer.end(clock, WorkPhase::Plans)?;
    let tables = Folder {
        files,
        path: folder,
    };
    let (rt, loading) = (services.rt, services.loading());
    let mut loads = LoadTimer::start(alloc, clock);
    let database = load_scanned_in_threads(rt, loading, &catalog, &plans, &tables, &mut loads)?;
    timer.end(clock, WorkPhase::Load)?;
    let common = common_stats(alloc, form, &catalog, loads.times(), timer.times())?;
    Ok(LoadedPlans {
        form,
        setting,
        plans: plans.plans,
        database,
        common,
        threads: services.threads,
        layout: services.layout,
    })
}
