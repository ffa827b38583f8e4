//! The tests of a run's setup, before its first step.

ghost use Rattle.std.specs.Prelude.{◌≡◌, nat_le, map, string_bytes, None, IfOk, IfErr};
ghost use Rattle.vx_plan_nodes.specs.TypedView.{names_in, scope, resolved_of, plan as plan_of_typed};
ghost use Rattle.vx_plan_nodes.specs.Under.{typed_plan_under};
ghost use Rattle.vx_exec_runs.specs.Sizes.{Sizes};
ghost use Rattle.vx_exec.specs.Job.{sizes_of};
ghost use Rattle.vx_exec.specs.Part.{HasKnown};
ghost use Rattle.vx_exec.specs.Setup.{IsUnknownFault};
ghost use Rattle.vx_exec_setup.specs.Setup.{first_missing, first_out_of_range};
ghost use Rattle.vx_exec_runs.specs.Setup.{tested, no_name, too_many_workers, size_missing, size_out_of_range, refusal_of, sizes_set, Gives};
ghost use Rattle.vx_exec_runs.specs.Runs.{HasSizes, IsSetUp, RunFails, unknown_in};
ghost use Rattle.vx_rows_values.specs.Limits.{max_workers};

use crate::job::Job;
use std::alloc::{AllocError, Global};
use vx_catalog::Database;
use vx_exec_layout::Layout;
use vx_exec_setup::{RunFault, Setup, is_within};
use vx_plan_nodes::{PlanFunctions, TypedPlan, first_unknown};
use vx_rows_values::limits::{MAX_MORSEL_ROWS, MAX_PACKET_ROWS, MAX_SLACK, MAX_WORKERS};

// This fault, if a test failed.
fn fail_unless(is_right: bool, fault: RunFault) -> Result<(), RunFault>
    ensures { Gives (λ _. tt) result (tested is_right (refusal_of fault)) }
{
    if is_right { Ok(()) } else { Err(fault) }
}

// Each name has an entry.
fn test_missing(alloc: Global, setup: &Setup, names: &[String]) -> Result<(), RunFault>
    ensures { Gives (λ _. tt) result (no_name size_missing (first_missing setup.now.sizes (map string_bytes names.now))) }
{
    match setup.first_missing(names) {
        Some(name) => Err(RunFault::SizeMissing {
            name: String::from_str(alloc, name.as_str())?,
        }),
        None => Ok(()),
    }
}

// Each name has 1 to 64 workers.
fn test_ranges(alloc: Global, setup: &Setup, names: &[String]) -> Result<(), RunFault>
    ensures { Gives (λ _. tt) result (no_name size_out_of_range (first_out_of_range setup.now.sizes (map string_bytes names.now))) }
{
    match setup.first_out_of_range(names) {
        Some(name) => Err(RunFault::SizeOutOfRange {
            name: String::from_str(alloc, name.as_str())?,
        }),
        None => Ok(()),
    }
}

// Refuses a `number` of workers above 256.
fn test_workers(number: u32) -> Result<(), RunFault>
    ensures { Gives (λ _. tt) result (tested (nat_le number max_workers) (too_many_workers number)) }
{
    fail_unless(number <= MAX_WORKERS, RunFault::TooManyWorkers { number })
}

// The job of a plan over a database of its catalog, or the first refusal of its setup.
#[tactic(auto, unfolding(vx_exec_runs::specs::Setup::sizes_set))]
fn job_in<'j, F: Copy>(
    alloc: Global,
    functions: F,
    plan: &'j TypedPlan,
    database: &'j Database,
    setup: &Setup,
) -> Result<Job<'j, F>, RunFault>
    requires same { database.now.catalog ≡ (scope plan.now).catalog }
    ensures gives { Gives sizes_of result (sizes_set setup.now (names_in plan.now).sizes (plan_of_typed plan.now)) }
    ensures functions { IfOk result (λ j. j.functions ≡ functions) }
    ensures plan { IfOk result (λ j. j.plan.now ≡ plan.now) }
    ensures database { IfOk result (λ j. j.database.now ≡ database.now) }
{
    let names = plan.sizes();
    test_missing(alloc, setup, names)?;
    test_ranges(alloc, setup, names)?;
    fail_unless(
        is_within(MAX_PACKET_ROWS, setup.packet()),
        RunFault::BadPacket,
    )?;
    fail_unless(
        is_within(MAX_MORSEL_ROWS, setup.morsel()),
        RunFault::BadMorsel,
    )?;
    fail_unless(is_within(MAX_SLACK, setup.slack()), RunFault::BadSlack)?;
    let worker_groups = setup.worker_groups(alloc, names)?;
    let layout = Layout::of(alloc, worker_groups, plan)?;
    test_workers(layout.workers())?;
    let packet = setup.packet() as usize;
    let morsel = setup.morsel() as usize;
    let slack = setup.slack();
    Ok(Job::new(
        alloc, functions, plan, layout, database, packet, morsel, slack,
    ))
}

/// A plan over a database, with the functions and the sizes of its run. The first test that fails is the answer, in this order: the
/// database has the plan's catalog; each declared size name has an entry; each declared size name has 1 to 64 workers; a packet has 1 to
/// 4,096 rows; a morsel has 1 to 1,000,000 rows; the slack is 1 to 1,024 packets; the plan has at most 256 workers.
pub(crate) fn sized_job<'j, F: PlanFunctions + Copy>(
    alloc: Global,
    functions: F,
    plan: &'j TypedPlan,
    database: &'j Database,
    setup: &Setup,
) -> Result<Job<'j, F>, RunFault>
    ensures sized { IfOk result (λ j. HasSizes (resolved_of plan.now) database.now setup.now (sizes_of j)) }
    ensures refused { IfErr result (RunFails (typed_plan_under (F.functions functions) (resolved_of plan.now)) database.now setup.now) }
    ensures memory { (s : Sizes) → HasSizes (resolved_of plan.now) database.now setup.now s → IfErr result (λ e. e ≡ RunFault.NoMemory) }
    ensures functions { IfOk result (λ j. j.functions ≡ functions) }
    ensures plan { IfOk result (λ j. j.plan.now ≡ plan.now) }
    ensures database { IfOk result (λ j. j.database.now ≡ database.now) }
{
    if !database.catalog().is_same(plan.catalog()) {
        return Err(RunFault::OtherCatalog);
    }
    job_in(alloc, functions, plan, database, setup)
}

/// Refuses a plan that names a function which is not among these for the types of its operands, or whose answer has another type
/// than the plan says. It looks at the plan alone.
pub(crate) fn test_functions<F: PlanFunctions>(
    alloc: Global,
    functions: &F,
    plan: &TypedPlan,
) -> Result<(), RunFault>
    ensures known { IfOk result (λ _. unknown_in (typed_plan_under (F.functions functions.now) (resolved_of plan.now)) ≡ None) }
    ensures unknown { IfErr result (λ e. IsUnknownFault (unknown_in (typed_plan_under (F.functions functions.now) (resolved_of plan.now))) e) }
{
    match first_unknown(functions, alloc, plan.root())? {
        Some(node) => Err(RunFault::BadFunction { node }),
        None => Ok(()),
    }
}

/// A plan over a database, set up to run under these functions. The first test that fails is the answer: those of the sizes, and then
/// whether each function that the plan names is among them.
pub fn job_of<'j, F: PlanFunctions + Copy>(
    alloc: Global,
    functions: F,
    plan: &'j TypedPlan,
    database: &'j Database,
    setup: &Setup,
) -> Result<Job<'j, F>, RunFault>
    ensures set { IfOk result (λ j. IsSetUp (typed_plan_under (F.functions functions) (resolved_of plan.now)) database.now setup.now (sizes_of j)) }
    ensures known { IfOk result (HasKnown F.PlanFunctions) }
    ensures refused { IfErr result (RunFails (typed_plan_under (F.functions functions) (resolved_of plan.now)) database.now setup.now) }
    ensures memory { (s : Sizes) → IsSetUp (typed_plan_under (F.functions functions) (resolved_of plan.now)) database.now setup.now s → IfErr result (λ e. e ≡ RunFault.NoMemory) }
    ensures functions { IfOk result (λ j. j.functions ≡ functions) }
    ensures plan { IfOk result (λ j. j.plan.now ≡ plan.now) }
    ensures database { IfOk result (λ j. j.database.now ≡ database.now) }
{
    let job = sized_job(alloc, functions, plan, database, setup)?;
    test_functions(alloc, &functions, plan)?;
    Ok(job)
}
