//! All workers of a job, and what connects them.

ghost use Rattle.std.specs.Prelude.{◌≡◌, ◌∷◌, ◌++◌, ℕ, true, List, map, IfOk, OnOk};
ghost use Rattle.std.specs.List.{All};
ghost use Rattle.vx_rows_values.specs.Values.{Row};
ghost use Rattle.vx_rows.specs.Lists.{each_below};
ghost use Rattle.vx_plan_nodes.specs.Outline.{outline_of, plan_of, kind_of};
ghost use Rattle.vx_plan_nodes.specs.Plan.{size};
ghost use Rattle.vx_plan_nodes.specs.Streams.{workers};
ghost use Rattle.vx_plan_nodes.specs.Typed.{is_kind};
ghost use Rattle.vx_plan_nodes.specs.TypedView.{scope};
ghost use Rattle.vx_plan_nodes.specs.Types.{types_of};
ghost use Rattle.vx_plan_nodes.specs.Under.{under};
ghost use Rattle.vx_check_rules.specs.Checked.{relations};
ghost use Rattle.vx_exec_operators.specs.Operator.{OperatorStands, operator_op};
ghost use Rattle.vx_exec_operators.specs.Destination.{DestinationStands, task_of, post_of, bounds_of};
ghost use Rattle.vx_worker.specs.Trace.{scan_morsels};
ghost use Rattle.vx_exec_steps.specs.Crews.{producer_duty, root_duty, duties_below};
ghost use Rattle.vx_exec_steps.specs.Ready.{Ready};
ghost use Rattle.vx_plan_nodes.specs.Workers.{worker_group_at};
ghost use Rattle.vx_exec.specs.Job.{job_plan, model_of};
ghost use Rattle.vx_exec.specs.Part.{HasKnown, IsPartOf};
ghost use Rattle.vx_exec.specs.Crew.{duty, IsNew};

use crate::job::Job;
use crate::links::{ports_of, sends_of, stations_of};
use crate::worker::{producer, root_worker};
use std::alloc::{AllocError, Global};
use vx_exec_operators::{Destination, Operator};
use vx_exec_steps::{Links, Ports, Station};
use vx_plan_nodes::{ExchangeKind, PlanFunctions, TypedNode};
use vx_worker::Worker;

/// The workers of a job in number order, the root's first, and what connects them.
pub struct Crew<F: PlanFunctions + Copy> {
    workers: Vec<Worker<Operator<F>, Destination>>,
    // By worker: the exchange that it sends to, and its queues.
    sends: Vec<u32>,
    ports: Vec<Ports>,
    // By node number.
    stations: Vec<Station>,
}

impl<F: PlanFunctions + Copy> Drop for Crew<F> {
    fn drop(self) {
        let Crew {
            workers: _,
            sends: _,
            ports: _,
            stations: _,
        } = self;
    }
}

// Adds the producers of an exchange of this kind over a node, by their places.
fn add_producers<F: PlanFunctions + Copy>(
    crew: &mut Vec<Worker<Operator<F>, Destination>>,
    alloc: Global,
    job: &Job<'_, F>,
    exchange: u32,
    kind: &ExchangeKind,
    node: &TypedNode,
) -> Result<(), AllocError>
    requires kind { is_kind (scope job.now.plan.now) (types_of (relations job.now.plan.now) (plan_of node.now)) (kind_of kind.now) ≡ true }
    requires part { IsPartOf F.PlanFunctions job.now (outline_of node.now) }
    requires new { All (IsNew F.PlanFunctions job.now) crew.old.items }
    ensures duties { OnOk result ((hash : List ℕ → Row → ℕ → ℕ) → map (duty F.PlanFunctions) crew.new.items
        ≡ map (duty F.PlanFunctions) crew.old.items ++ each_below (workers (worker_group_at job.now.layout.worker_groups.items) (size (plan_of node.now))) (producer_duty (model_of hash job.now) exchange (kind_of kind.now) (under (F.functions job.now.functions) (plan_of node.now)))) }
    ensures new { OnOk result (All (IsNew F.PlanFunctions job.now) crew.new.items) }
{
    for place in 0..job.workers(node.size()) {
        crew.push(producer(alloc, job, exchange, kind, node, place)?)?;
    }
    Ok(())
}

// Adds the producers of all exchanges from a node down, the exchanges in preorder.
fn add_below<F: PlanFunctions + Copy>(
    crew: &mut Vec<Worker<Operator<F>, Destination>>,
    alloc: Global,
    job: &Job<'_, F>,
    node: &TypedNode,
) -> Result<(), AllocError>
    requires part { IsPartOf F.PlanFunctions job.now (outline_of node.now) }
    requires new { All (IsNew F.PlanFunctions job.now) crew.old.items }
    ensures duties { OnOk result ((hash : List ℕ → Row → ℕ → ℕ)
        → map (duty F.PlanFunctions) crew.new.items ≡ map (duty F.PlanFunctions) crew.old.items ++ duties_below (model_of hash job.now) (under (F.functions job.now.functions) (plan_of node.now))) }
    ensures new { OnOk result (All (IsNew F.PlanFunctions job.now) crew.new.items) }
{
    match node {
        TypedNode::Scan(_, _) => return Ok(()),
        TypedNode::Unary(_, _, input) => return add_below(crew, alloc, job, input),
        TypedNode::Binary(_, _, left, right) => {
            add_below(crew, alloc, job, left)?;
            add_below(crew, alloc, job, right)?;
            return Ok(());
        }
        TypedNode::Exchange(head, exchange, input) => {
            add_producers(crew, alloc, job, head.number, &exchange.kind, input)?;
            add_below(crew, alloc, job, input)?;
            return Ok(());
        }
    }
}

// The workers of a job in number order, the root's first.
fn workers_of<F: PlanFunctions + Copy>(
    alloc: Global,
    job: &Job<'_, F>,
) -> Result<Vec<Worker<Operator<F>, Destination>>, AllocError>
    requires { HasKnown F.PlanFunctions job.now }
    ensures duties { IfOk result (λ v. (hash : List ℕ → Row → ℕ → ℕ)
        → map (duty F.PlanFunctions) v.items ≡ root_duty (model_of hash job.now) (job_plan F.PlanFunctions job.now) ∷ duties_below (model_of hash job.now) (job_plan F.PlanFunctions job.now)) }
    ensures new { IfOk result (λ v. All (IsNew F.PlanFunctions job.now) v.items) }
{
    let root = job.plan().root();
    let mut crew = Vec::new(alloc);
    crew.push(root_worker(alloc, job, root)?)?;
    add_below(&mut crew, alloc, job, root)?;
    Ok(crew)
}

impl<F: PlanFunctions + Copy> Crew<F> {
    ghost use Rattle.vx_exec.specs.Links.{board_of};

    /// All workers of a job, none of which made a step.
    pub fn new(alloc: Global, job: &Job<'_, F>) -> Result<Crew<F>, AllocError>
        requires { HasKnown F.PlanFunctions job.now }
        ensures ready { IfOk result (λ c. (hash : List ℕ → Row → ℕ → ℕ)
            → Ready (OperatorStands F.PlanFunctions) (operator_op F.PlanFunctions) DestinationStands task_of post_of bounds_of hash (scan_morsels (model_of hash job.now)) (model_of hash job.now) (job_plan F.PlanFunctions job.now) c.workers.items (board_of c)) }
        ensures new { IfOk result (λ c. All (IsNew F.PlanFunctions job.now) c.workers.items) }
    {
        let workers = workers_of(alloc, job)?;
        let spans = job.layout().spans();
        let sends = sends_of(alloc, spans)?;
        let ports = ports_of(alloc, spans)?;
        let stations = stations_of(alloc, job, spans)?;
        Ok(Crew {
            workers,
            sends,
            ports,
            stations,
        })
    }

    /// The workers, and the links between them.
    pub fn into_parts(self) -> (Vec<Worker<Operator<F>, Destination>>, Links)
        ensures workers { result.0 ≡ self.workers }
        ensures links { result.1 ≡ board_of self }
    {
        let Crew {
            workers,
            sends,
            ports,
            stations,
        } = self;
        (workers, Links::new(sends, stations, ports))
    }
}
