//! How many rounds a run needs at most.

ghost use Rattle.std.specs.Prelude.{◌≡◌, IfOk, IfErr};
ghost use Rattle.vx_catalog.specs.Database.{rows_at};
ghost use Rattle.vx_plan_nodes.specs.TypedView.{resolved_of, plan as whole_plan};
ghost use Rattle.vx_plan_nodes.specs.Under.{typed_plan_under};
ghost use Rattle.vx_check_rules.specs.CheckedView.{typed_plan};
ghost use Rattle.vx_plan_nodes.specs.Workers.{worker_group_at};
ghost use Rattle.vx_exec_layout.specs.Needed.{capped, rounds_needed as rounds_by_definition, AreSizesOf};
ghost use Rattle.vx_exec_runs.specs.Runs.{IsSetUp, RunFails};
ghost use Rattle.vx_exec_runs.specs.Sizes.{Sizes};

use crate::setup::job_of;
use std::alloc::{AllocError, Global};
use vx_catalog::Database;
use vx_check_rules::CheckedPlan;
use vx_exec_layout::rounds_needed as rounds_of;
use vx_exec_setup::{RunFault, Setup};
use vx_plan_nodes::PlanFunctions;

// How many rows each relation of a database has, by its number.
fn row_counts(alloc: Global, database: &Database) -> Result<Vec<u64>, AllocError>
    ensures { IfOk result (λ v. AreSizesOf (rows_at database.now) v.items) }
{
    let relations = database.catalog().len();
    let mut counts = Vec::with_capacity(alloc, relations)?;
    for relation in 0..relations {
        counts.push(database.rows(relation).len() as u64)?;
    }
    Ok(counts)
}

/// How many rounds a run of a plan over a database, under these functions, needs at most: `run_rounds` with this limit does not end
/// unfinished, nor does `run_scheduled` by a schedule that holds this number of rounds. Where the number does not fit into 64 bits,
/// `u64::MAX` stands for it, and then it promises nothing more. A setup that is not right is refused as a run would refuse it.
pub fn rounds_needed<F: PlanFunctions + Copy>(
    alloc: Global,
    functions: &F,
    plan: &CheckedPlan,
    database: &Database,
    setup: &Setup,
) -> Result<u64, RunFault>
    ensures needed { (s : Sizes) → IsSetUp (typed_plan_under (F.functions functions.now) (resolved_of (typed_plan plan.now))) database.now setup.now s
        → IfOk result (λ n. n ≡ capped (rounds_by_definition (rows_at database.now) (worker_group_at s.worker_groups) (whole_plan (typed_plan plan.now)))) }
    ensures refused { IfErr result (RunFails (typed_plan_under (F.functions functions.now) (resolved_of (typed_plan plan.now))) database.now setup.now) }
{
    let job = job_of(alloc, *functions, plan.plan(), database, setup)?;
    let counts = row_counts(alloc, database)?;
    let groups = job.layout().worker_groups();
    Ok(rounds_of(job.plan(), groups, counts.as_slice()))
}
