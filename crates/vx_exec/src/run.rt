//! Runs in one thread.

ghost use Rattle.std.specs.Prelude.{◌≡◌, ◌<◌, ◌≤◌, true, length, List, IfOk};
ghost use Rattle.std.specs.List.{All, slice_index_or};
ghost use Rattle.vx_rows_values.specs.declared.value.ColType.{ColType};
ghost use Rattle.vx_catalog.specs.Database.{rows_at};
ghost use Rattle.vx_plan_nodes.specs.TypedView.{plan as whole_plan};
ghost use Rattle.vx_plan_nodes.specs.Workers.{crew_size, worker_group_at};
ghost use Rattle.vx_exec_layout.specs.Needed.{rounds_needed};
ghost use Rattle.vx_check_rules.specs.Checked.{is_allowed, is_root_allowed};
ghost use Rattle.vx_check_rules.specs.CheckedView.{typed_plan};
ghost use Rattle.vx_ops.specs.declared.fault.Fault.TheVariants.{Passed};
ghost use Rattle.vx_exchange_ends.specs.Tasks.{keep, keeps};
ghost use Rattle.vx_exec_operators.specs.Destination.{task_of, post_of};
ghost use Rattle.vx_worker.specs.Worker.{sender_of};
ghost use Rattle.vx_worker.specs.declared.worker.Worker.{Worker as AWorker};
ghost use Rattle.vx_exec_operators.specs.declared.operator.Operator.{Operator as AnOperator};
ghost use Rattle.vx_exec_operators.specs.declared.destination.Destination.{Destination as ADestination};
ghost use Rattle.vx_exec.specs.Job.{job_plan, model_of, sizes_of};
ghost use Rattle.vx_exec_setup.specs.Counts.{is_wanted, counts_in};
ghost use Rattle.vx_exec.specs.Runs.{CountedInRounds, fault_reported, ComesTo, NamesFirst, Scheduled, InRounds};
ghost use Rattle.vx_exec.specs.Part.{HasKnown};
ghost use Rattle.vx_exec_runs.specs.Promise.{NothingElse};
ghost use Rattle.vx_exec_runs.specs.Runs.{IsWhole};
ghost use Rattle.vx_exec_steps.specs.Schedules.{HoldsRounds};
ghost use Rattle.vx_exec.specs.Promise.{CrewPromise, PromiseOnceSet, SchedulePromise, WhereSet, WhereSized};

use crate::counting::keep_counts;
use crate::crew::Crew;
use crate::job::Job;
use crate::setup::{job_of, sized_job, test_functions};
use std::alloc::Global;
use vx_catalog::Database;
use vx_check_rules::CheckedPlan;
use vx_exec_operators::{Destination, Operator};
use vx_exec_runs::RunOutcome;
use vx_exec_setup::{RunCounts, RunFault, Setup};
use vx_exec_steps::{RunState, bad_step, judge_rounds, judge_schedule};
use vx_exec_watch::Watch;
use vx_ops::{Code, Fault};
use vx_plan_nodes::{PlanFunctions, Router};
use vx_rows_views::Rows;
use vx_worker::Worker;

// The rows that the first worker kept.
fn rows_of_root<F: PlanFunctions + Copy>(mut workers: Vec<Worker<Operator<F>, Destination>>) -> Rows
    requires there { 0 < length workers.items }
    requires keeps { (d : AWorker (AnOperator F F.PlanFunctions) ADestination) → (types : List ColType) × (post_of (sender_of (slice_index_or workers.items 0 d)) ≡ keeps types) }
    ensures rows { (d : AWorker (AnOperator F F.PlanFunctions) ADestination) → task_of (sender_of (slice_index_or workers.items 0 d)) ≡ keep result.rows }
    ensures types { (d : AWorker (AnOperator F F.PlanFunctions) ADestination) → post_of (sender_of (slice_index_or workers.items 0 d)) ≡ keeps result.types }
{
    let root = workers.swap_remove(0);
    match root.into_sender() {
        Destination::Collect(collector) => collector.into_rows(),
        Destination::Send(_) => unreachable!(),
    }
}

// The fault of a run whose worker failed like this.
fn fault_of(fault: Fault) -> RunFault
    requires { fault ≡ Passed → ⊥ }
    ensures { result ≡ fault_reported fault }
{
    match fault {
        Fault::Own { code, node } => match code {
            Code::Overflow => RunFault::Overflow { node },
            Code::NoMemory => RunFault::NoMemory,
            Code::Unsorted => RunFault::Unsorted { node },
            Code::Stranger => RunFault::Stranger { exchange: node },
        },
        Fault::Passed => unreachable!(),
    }
}

/// What workers of a run came to, with such a verdict.
pub fn answer_of<F: PlanFunctions + Copy>(
    workers: Vec<Worker<Operator<F>, Destination>>,
    verdict: RunState,
) -> Result<RunOutcome, RunFault>
    requires there { verdict ≡ RunState.Done → 0 < length workers.items }
    requires keeps { verdict ≡ RunState.Done → (d : AWorker (AnOperator F F.PlanFunctions) ADestination) → (types : List ColType) × (post_of (sender_of (slice_index_or workers.items 0 d)) ≡ keeps types) }
    requires own { verdict ≡ RunState.Failed Passed → ⊥ }
    ensures { ComesTo workers.items verdict result }
{
    match verdict {
        RunState::Done => return Ok(RunOutcome::Done(rows_of_root(workers))),
        RunState::Unfinished => return Ok(RunOutcome::Unfinished),
        RunState::Failed(fault) => return Err(fault_of(fault)),
    }
}

// At most `limit` rounds of all workers of a job, and what they come to. What they counted is kept, if that is wanted.
fn run_job<F: PlanFunctions + Copy, R: Router, V: Watch>(
    alloc: Global,
    job: &Job<'_, F>,
    router: &R,
    limit: u64,
    watch: &V,
    counts: &mut RunCounts,
) -> Result<RunOutcome, RunFault>
    requires allowed { is_allowed job.now.plan.now ≡ true }
    requires root { is_root_allowed job.now.plan.now ≡ true }
    requires known { HasKnown F.PlanFunctions job.now }
    ensures run { PromiseOnceSet (R.route_of router.now) (F.functions job.now.functions) NothingElse job.now.plan.now job.now.database.now (sizes_of job.now) result }
    ensures rounds { InRounds F.PlanFunctions (R.route_of router.now) (model_of (R.route_of router.now) job.now) (job_plan F.PlanFunctions job.now) limit result }
    ensures counted { is_wanted counts.old ≡ true
        → CountedInRounds F.PlanFunctions (R.route_of router.now) (model_of (R.route_of router.now) job.now) (job_plan F.PlanFunctions job.now) limit result (counts_in counts.new) }
    ensures ends { rounds_needed (rows_at job.now.database.now) (worker_group_at job.now.layout.worker_groups.items) (job_plan F.PlanFunctions job.now) ≤ limit → IfOk result IsWhole }
{
    job.meets();
    let crew = Crew::new(alloc, job)?;
    let (mut workers, mut links) = crew.into_parts();
    let verdict = judge_rounds(&mut workers, job, router, &mut links, limit, watch);
    keep_counts(counts, alloc, workers.as_slice())?;
    answer_of(workers, verdict)
}

// One step for each of these workers of a job, and what they come to.
fn schedule_job<F: PlanFunctions + Copy, R: Router>(
    alloc: Global,
    job: &Job<'_, F>,
    router: &R,
    steps: &[u32],
) -> Result<RunOutcome, RunFault>
    requires allowed { is_allowed job.now.plan.now ≡ true }
    requires root { is_root_allowed job.now.plan.now ≡ true }
    requires known { HasKnown F.PlanFunctions job.now }
    requires named { All (λ s. s < crew_size (worker_group_at job.now.layout.worker_groups.items) (whole_plan job.now.plan.now)) steps.now }
    ensures run { PromiseOnceSet (R.route_of router.now) (F.functions job.now.functions) NothingElse job.now.plan.now job.now.database.now (sizes_of job.now) result }
    ensures scheduled { Scheduled F.PlanFunctions (R.route_of router.now) (model_of (R.route_of router.now) job.now) (job_plan F.PlanFunctions job.now) steps.now result }
    ensures ends { HoldsRounds (rounds_needed (rows_at job.now.database.now) (worker_group_at job.now.layout.worker_groups.items) (job_plan F.PlanFunctions job.now))
        (crew_size (worker_group_at job.now.layout.worker_groups.items) (job_plan F.PlanFunctions job.now)) steps.now → IfOk result IsWhole }
{
    job.meets();
    let crew = Crew::new(alloc, job)?;
    let (mut workers, mut links) = crew.into_parts();
    let verdict = judge_schedule(&mut workers, job, router, &mut links, steps);
    answer_of(workers, verdict)
}

/// A run of a plan over a database, under these functions: at most `limit` rounds, in each of which every worker makes one step, in
/// number order. Once all workers have ended and some failed, the fault is that of the lowest-numbered one that failed by itself. As many
/// rounds as `rounds_needed` of `vx_exec_layout` says are enough: with that limit or a higher one the answer is not Unfinished. What each
/// worker counted is in `counts` afterwards, also where some failed; memory for it is refused only where it is wanted. `watch` is told how
/// far the run has come.
pub fn run_rounds<F: PlanFunctions + Copy, R: Router, V: Watch>(
    alloc: Global,
    plan: &CheckedPlan,
    database: &Database,
    setup: &Setup,
    functions: &F,
    router: &R,
    limit: u64,
    watch: &V,
    counts: &mut RunCounts,
) -> Result<RunOutcome, RunFault>
    ensures promise { CrewPromise (R.route_of router.now) (F.functions functions.now) NothingElse (typed_plan plan.now) database.now setup.now result }
    ensures rounds { WhereSet (R.route_of router.now) (F.functions functions.now) (typed_plan plan.now) database.now setup.now (λ W p. InRounds F.PlanFunctions (R.route_of router.now) W p limit result) }
    ensures counted { is_wanted counts.old ≡ true
        → WhereSet (R.route_of router.now) (F.functions functions.now) (typed_plan plan.now) database.now setup.now (λ W p. CountedInRounds F.PlanFunctions (R.route_of router.now) W p limit result (counts_in counts.new)) }
    ensures ends { WhereSet (R.route_of router.now) (F.functions functions.now) (typed_plan plan.now) database.now setup.now (λ W p. rounds_needed W.db W.sizes p ≤ limit → IfOk result IsWhole) }
{
    let job = job_of(alloc, *functions, plan.plan(), database, setup)?;
    run_job(alloc, &job, router, limit, watch, counts)
}

/// A run of a plan over a database, under these functions, by a schedule: one step of the worker with each of these numbers, in this
/// order. The root's worker is 0; then come the producers of each exchange, by place, the exchanges in preorder of their nodes.
/// Behind the tests of the setup, the first step that names no worker is refused, and then a function that is not among these.
/// A schedule that holds as many rounds as `rounds_needed` of `vx_exec_layout` says, with any steps between, is enough: its answer is not Unfinished.
pub fn run_scheduled<F: PlanFunctions + Copy, R: Router>(
    alloc: Global,
    plan: &CheckedPlan,
    database: &Database,
    setup: &Setup,
    functions: &F,
    router: &R,
    steps: &[u32],
) -> Result<RunOutcome, RunFault>
    ensures promise { SchedulePromise (R.route_of router.now) (F.functions functions.now) steps.now (typed_plan plan.now) database.now setup.now result }
    ensures named { WhereSized (R.route_of router.now) (typed_plan plan.now) database.now setup.now (λ W p. NamesFirst steps.now W p result) }
    ensures scheduled { WhereSet (R.route_of router.now) (F.functions functions.now) (typed_plan plan.now) database.now setup.now (λ W p. Scheduled F.PlanFunctions (R.route_of router.now) W p steps.now result) }
    ensures ends { WhereSet (R.route_of router.now) (F.functions functions.now) (typed_plan plan.now) database.now setup.now
        (λ W p. HoldsRounds (rounds_needed W.db W.sizes p) (crew_size W.sizes p) steps.now → IfOk result IsWhole) }
{
    let job = sized_job(alloc, *functions, plan.plan(), database, setup)?;
    if let Some(index) = bad_step(steps, job.crew_size() as usize) {
        return Err(RunFault::BadStep { index });
    }
    test_functions(alloc, functions, job.plan())?;
    schedule_job(alloc, &job, router, steps)
}
