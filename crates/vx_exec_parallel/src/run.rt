//! Runs whose workers are threads.

ghost use Rattle.std.specs.Prelude.{◌≡◌, ◌⊎◌, true, IfOk, IfErr};
ghost use Rattle.vx_check_rules.specs.Checked.{is_allowed, is_root_allowed};
ghost use Rattle.vx_check_rules.specs.CheckedView.{typed_plan};
ghost use Rattle.vx_exec_operators.specs.Operator.{operator_types};
ghost use Rattle.vx_exec_operators.specs.Destination.{post_of, is_open, has_closed};
ghost use Rattle.vx_plan_nodes.specs.Workers.{crew_size, worker_group_at};
ghost use Rattle.vx_exec_spawn.specs.Each.{AllReady};
ghost use Rattle.vx_exec_setup.specs.declared.fault.RunFault.TheVariants.{NoMemory, NoThread};
ghost use Rattle.vx_exec_setup.specs.Counts.{is_wanted, counts_in};
ghost use Rattle.vx_exec.specs.Job.{model_of, sizes_of, types_at, job_plan};
ghost use Rattle.vx_exec_runs.specs.Promise.{NoThreadStarted};
ghost use Rattle.vx_exec.specs.Part.{HasKnown};
ghost use Rattle.vx_exec.specs.Promise.{CrewPromise, PromiseOnceSet, WhereSet};
ghost use Rattle.vx_exec_parallel.specs.Crew.{IsWiringOf, AreNew, AreHonest, IsAcceptedJob, HaveRun};
ghost use Rattle.vx_exec_runs.specs.Runs.{IsWhole};
ghost use Rattle.vx_exec_parallel.specs.Parallel.{NeedsFew, WereJoined, RanByThreads, CountedByThreads};
ghost use Rattle.vx_exec_steps.specs.Verdicts.{Judged};

use crate::members::members_of;
use crate::places::places_of;
use std::alloc::{AllocError, Global};
use std::sync::Wait;
use std::thread::Threads;
use vx_catalog::Database;
use vx_check_rules::CheckedPlan;
use vx_exec::{Crew, Job, answer_of, job_of, keep_counts};
use vx_exec_assembly::assemble;
use vx_exec_operators::{Destination, Operator};
use vx_exec_runs::RunOutcome;
use vx_exec_setup::{RunCounts, RunFault, Setup};
use vx_exec_spawn::{CrewMember, Joined, run_in_threads};
use vx_exec_steps::RunState;
use vx_exec_threads::Gate;
use vx_exec_watch::Watch;
use vx_exec_wiring::{Wiring, wiring_of};
use vx_morsel_decks::SharedDeck;
use vx_plan_nodes::{PlanFunctions, Router};
use vx_rows_values::limits::MAX_WORKERS;
use vx_worker::Worker;

// What the threads of a job's workers hold before the first step.
fn wiring_for<F: PlanFunctions + Copy>(
    alloc: Global,
    job: &Job<'_, F>,
) -> Result<Wiring, AllocError>
    requires allowed { is_allowed job.now.plan.now ≡ true }
    requires root { is_root_allowed job.now.plan.now ≡ true }
    ensures { IfOk result (IsWiringOf F.PlanFunctions job.now) }
{
    let counts = job.morsel_counts(alloc)?;
    wiring_of(alloc, job.layout(), counts.as_slice(), job.slack())
}

// Runs all workers of a job, each in a thread of its own, and puts together what they give back.
fn run_crew<
    F: PlanFunctions + Copy + Send + Sync,
    R: Router + Sync,
    G: Gate + Sync,
    V: Watch,
    T: Threads + Wait + Sync,
>(
    rt: &T,
    alloc: Global,
    job: &Job<'_, F>,
    router: &R,
    gate: &G,
    watch: &V,
    workers: Vec<Worker<Operator<F>, Destination>>,
    wiring: Wiring,
) -> Result<(Vec<Worker<Operator<F>, Destination>>, RunState), RunFault>
    requires new { AreNew F.PlanFunctions job.now workers.items }
    requires wired { IsWiringOf F.PlanFunctions job.now wiring }
    ensures run { IsAcceptedJob F.PlanFunctions (R.route_of router.now) job.now → IfOk result (λ r. HaveRun F.PlanFunctions (R.route_of router.now) job.now workers.items r.0.items r.1) }
    ensures joined { IfOk result (λ r. WereJoined F.PlanFunctions (R.route_of router.now) (model_of (R.route_of router.now) job.now) (job_plan F.PlanFunctions job.now) r.0.items r.1) }
    ensures judged { IfOk result (λ r. Judged r.0.items r.1) }
    ensures fault { IfErr result (λ e. (e ≡ NoMemory) ⊎ (e ≡ NoThread)) }
{
    let Wiring {
        ends,
        decks,
        places,
    } = wiring;
    let layout = job.layout();
    let seats = places_of(alloc, layout)?;
    let members = members_of(alloc, workers, ends, seats.as_slice())?;
    let joined = run_in_threads(rt, alloc, job, router, gate, watch, &decks, members)?;
    let ended = assemble(alloc, layout, decks, places.as_slice(), joined)?;
    Ok(ended)
}

// All workers of a job as threads, and what they come to. None is started where they are more than `most`. What they counted is
// kept, if that is wanted.
fn run_job<
    F: PlanFunctions + Copy + Send + Sync,
    R: Router + Sync,
    G: Gate + Sync,
    V: Watch,
    T: Threads + Wait + Sync,
>(
    rt: &T,
    alloc: Global,
    job: &Job<'_, F>,
    router: &R,
    gate: &G,
    watch: &V,
    most: u32,
    counts: &mut RunCounts,
) -> Result<RunOutcome, RunFault>
    requires allowed { is_allowed job.now.plan.now ≡ true }
    requires root { is_root_allowed job.now.plan.now ≡ true }
    requires known { HasKnown F.PlanFunctions job.now }
    ensures run { PromiseOnceSet (R.route_of router.now) (F.functions job.now.functions) NoThreadStarted job.now.plan.now job.now.database.now (sizes_of job.now) result }
    ensures whole { IfOk result IsWhole }
    ensures few { NeedsFew most (crew_size (worker_group_at job.now.layout.worker_groups.items) (job_plan F.PlanFunctions job.now)) result }
    ensures joined { RanByThreads F.PlanFunctions (R.route_of router.now) (model_of (R.route_of router.now) job.now) (job_plan F.PlanFunctions job.now) result }
    ensures counted { is_wanted counts.old ≡ true
        → CountedByThreads F.PlanFunctions (R.route_of router.now) (model_of (R.route_of router.now) job.now) (job_plan F.PlanFunctions job.now) result (counts_in counts.new) }
{
    job.meets();
    let crew = Crew::new(alloc, job)?;
    let (workers, _links) = crew.into_parts();
    if workers.len() > most as usize {
        return Err(RunFault::NoThread);
    }
    let wiring = wiring_for(alloc, job)?;
    let ended = run_crew(rt, alloc, job, router, gate, watch, workers, wiring)?;
    let (workers, verdict) = ended;
    keep_counts(counts, alloc, workers.as_slice())?;
    answer_of(workers, verdict)
}

/// How the workers of a run are threads.
#[derive(Clone, Copy)]
pub struct Threading<'a, R, G, V> {
    /// Says where hash routes send keys.
    pub router: &'a R,
    /// What each thread passes before it makes a step.
    pub gate: &'a G,
    /// Is told how far the run has come.
    pub watch: &'a V,
    /// The most workers that there may be.
    pub most: u32,
}

impl<'a, R, G, V> Threading<'a, R, G, V> {
    ghost use Rattle.vx_rows_values.specs.Limits.{max_workers};

    /// With as many workers as a run may have.
    pub fn new(router: &'a R, gate: &'a G, watch: &'a V) -> Threading<'a, R, G, V>
        ensures router { result.router.now ≡ router.now }
        ensures most { result.most ≡ max_workers }
    {
        Threading {
            router,
            gate,
            watch,
            most: MAX_WORKERS,
        }
    }
}

/// A run of a plan over a database by these functions, each worker in a thread of its own. They start together or not at all: where there
/// are more workers than there may be, or the machine refuses a thread, none takes a step. Once all have ended and some
/// failed, the fault is that of the lowest-numbered one that failed by itself. That the threads end is not promised.
/// What each worker counted is in `counts` afterwards, also where some failed; memory for it is refused only where it is wanted.
pub fn run_threads<
    F: PlanFunctions + Copy + Send + Sync,
    R: Router + Sync,
    G: Gate + Sync,
    V: Watch,
    T: Threads + Wait + Sync,
>(
    rt: &T,
    alloc: Global,
    plan: &CheckedPlan,
    database: &Database,
    setup: &Setup,
    functions: &F,
    threading: &Threading<'_, R, G, V>,
    counts: &mut RunCounts,
) -> Result<RunOutcome, RunFault>
    ensures promise { CrewPromise (R.route_of threading.now.router.now) (F.functions functions.now) NoThreadStarted (typed_plan plan.now) database.now setup.now result }
    ensures whole { IfOk result IsWhole }
    ensures few { WhereSet (R.route_of threading.now.router.now) (F.functions functions.now) (typed_plan plan.now) database.now setup.now (λ W p. NeedsFew threading.now.most (crew_size W.sizes p) result) }
    ensures joined { WhereSet (R.route_of threading.now.router.now) (F.functions functions.now) (typed_plan plan.now) database.now setup.now (λ W p. RanByThreads F.PlanFunctions (R.route_of threading.now.router.now) W p result) }
    ensures counted { is_wanted counts.old ≡ true
        → WhereSet (R.route_of threading.now.router.now) (F.functions functions.now) (typed_plan plan.now) database.now setup.now
        (λ W p. CountedByThreads F.PlanFunctions (R.route_of threading.now.router.now) W p result (counts_in counts.new)) }
{
    let job = job_of(alloc, *functions, plan.plan(), database, setup)?;
    let (router, gate, watch) = (threading.router, threading.gate, threading.watch);
    run_job(rt, alloc, &job, router, gate, watch, threading.most, counts)
}
