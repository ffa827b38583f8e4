//! Workers of a job, before any step.

ghost use Rattle.std.specs.Prelude.{◌≡◌, ◌++◌, ℕ, true, List, map, IfOk, OnOk};
ghost use Rattle.std.specs.List.{All};
ghost use Rattle.vx_rows_values.specs.Values.{Row};
ghost use Rattle.vx_rows.specs.Lists.{each_below};
ghost use Rattle.vx_plan_nodes.specs.Outline.{outline_of, plan_of, kind_of};
ghost use Rattle.vx_plan_nodes.specs.Outputs.{HasOutputs};
ghost use Rattle.vx_plan_nodes.specs.Typed.{is_kind};
ghost use Rattle.vx_plan_nodes.specs.TypedView.{scope};
ghost use Rattle.vx_plan_nodes.specs.Types.{types_of};
ghost use Rattle.vx_plan_nodes.specs.Under.{under};
ghost use Rattle.vx_ports.specs.Packets.{fault};
ghost use Rattle.vx_exchange_ends.specs.Ship.{Ship, packet_of};
ghost use Rattle.vx_exchange_ends.specs.Tasks.{sends_by_ship, post_types};
ghost use Rattle.vx_exec_operators.specs.Destination.{post_of};
ghost use Rattle.vx_worker.specs.Fragment.{fragment};
ghost use Rattle.vx_worker.specs.Intake.{source_of, IsFresh};
ghost use Rattle.vx_worker.specs.Worker.{inputs_of as sources_of, closing_of};
ghost use Rattle.vx_exec_laws.specs.RunOf.{ship_of};
ghost use Rattle.vx_exec_steps.specs.Crews.{producer_duty, root_duty};
ghost use Rattle.vx_check_rules.specs.Checked.{relations};
ghost use Rattle.vx_plan_nodes.specs.Workers.{worker_group_at};
ghost use Rattle.vx_exec.specs.Job.{model_of};
ghost use Rattle.vx_exec.specs.Part.{IsPartOf};
ghost use Rattle.vx_exec.specs.Inputs.{inputs_of};
ghost use Rattle.vx_exec.specs.Crew.{duty, IsNew, IsUnused};

use crate::fragment::tree_of;
use crate::job::Job;
use std::alloc::{AllocError, Global};
use vx_exchange::{Collector, Sender};
use vx_exec_operators::{Destination, Operator};
use vx_plan_nodes::{ExchangeKind, PlanFunctions, TypedNode, output_types};
use vx_ports::{Packet, StreamEnd};
use vx_rows_values::ColType;
use vx_rows_views::Rows;
use vx_worker::{ExchangeInput, Worker};

// Adds an input for each of the `count` producers of `exchange`.
fn push_inputs(inputs: &mut Vec<ExchangeInput>, exchange: u32, count: u32) -> Result<(), AllocError>
    ensures fresh { All IsFresh inputs.old.items → OnOk result (All IsFresh inputs.new.items) }
    ensures sources { OnOk result (map source_of inputs.new.items ≡ map source_of inputs.old.items ++ each_below count (λ i. (exchange, i))) }
{
    for from in 0..count {
        inputs.push(ExchangeInput::new(exchange, from))?;
    }
    Ok(())
}

// Adds the producers from which the workers of a node's fragment take.
fn add_inputs<F: Copy>(
    inputs: &mut Vec<ExchangeInput>,
    job: &Job<'_, F>,
    node: &TypedNode,
) -> Result<(), AllocError>
    ensures fresh { All IsFresh inputs.old.items → OnOk result (All IsFresh inputs.new.items) }
    ensures sources { OnOk result (map source_of inputs.new.items ≡ map source_of inputs.old.items ++ inputs_of (worker_group_at job.now.layout.worker_groups.items) (plan_of node.now)) }
{
    match node {
        TypedNode::Scan(_, _) => return Ok(()),
        TypedNode::Unary(_, _, input) => return add_inputs(inputs, job, input),
        TypedNode::Binary(_, _, left, right) => {
            add_inputs(inputs, job, left)?;
            return add_inputs(inputs, job, right);
        }
        TypedNode::Exchange(head, _, input) => {
            let count = job.workers(input.size());
            return push_inputs(inputs, head.number, count);
        }
    }
}

// The producers from which the workers of a node's fragment take.
fn inputs_of<F: Copy>(
    alloc: Global,
    job: &Job<'_, F>,
    node: &TypedNode,
) -> Result<Vec<ExchangeInput>, AllocError>
    ensures fresh { IfOk result (λ v. All IsFresh v.items) }
    ensures sources { IfOk result (λ v. map source_of v.items ≡ inputs_of (worker_group_at job.now.layout.worker_groups.items) (plan_of node.now)) }
{
    let mut inputs = Vec::new(alloc);
    add_inputs(&mut inputs, job, node)?;
    Ok(inputs)
}

// Fault for each consumer of a producer, by rising place.
fn closing_packets(
    alloc: Global,
    exchange: u32,
    place: u32,
    consumers: u32,
    types: &[ColType],
) -> Result<Vec<Packet>, AllocError>
    ensures { (ship : Ship) → ship.exchange ≡ exchange → ship.place ≡ place → ship.types ≡ types.now
        → IfOk result (λ v. v.items ≡ each_below consumers (λ j. packet_of ship j fault)) }
{
    let mut packets = Vec::new(alloc);
    for to in 0..consumers {
        let none = Rows::new(alloc, types)?;
        packets.push(Packet::closing(exchange, place, to, StreamEnd::Fault, none))?;
    }
    Ok(packets)
}

// The worker at a place of a node's fragment, before its first step: its rows go to this destination, which it closes with these packets if it fails.
fn fragment_worker<F: PlanFunctions + Copy>(
    alloc: Global,
    job: &Job<'_, F>,
    node: &TypedNode,
    place: u32,
    destination: Destination,
    closing: Vec<Packet>,
) -> Result<Worker<Operator<F>, Destination>, AllocError>
    requires part { IsPartOf F.PlanFunctions job.now (outline_of node.now) }
    requires unused { IsUnused job.now destination }
    requires types { types_of (relations job.now.plan.now) (plan_of node.now) ≡ post_types (post_of destination) }
    requires closing { closing.items ≡ closing_of (post_of destination) }
    ensures duty { IfOk result (λ w. (hash : List ℕ → Row → ℕ → ℕ)
        → duty F.PlanFunctions w ≡ record { frag = fragment (model_of hash job.now) place (under (F.functions job.now.functions) (plan_of node.now)); post = post_of destination }) }
    ensures new { IfOk result (λ w. IsNew F.PlanFunctions job.now w) }
    ensures inputs { IfOk result (λ w. sources_of w ≡ inputs_of (worker_group_at job.now.layout.worker_groups.items) (plan_of node.now)) }
{
    let inputs = inputs_of(alloc, job, node)?;
    let tree = tree_of(alloc, job, node, place)?;
    let number = node.head().number;
    Ok(Worker::new(alloc, tree, destination, number, closing, inputs))
}

/// The worker at the root of a plan, which keeps the rows.
pub fn root_worker<F: PlanFunctions + Copy>(
    alloc: Global,
    job: &Job<'_, F>,
    node: &TypedNode,
) -> Result<Worker<Operator<F>, Destination>, AllocError>
    requires { IsPartOf F.PlanFunctions job.now (outline_of node.now) }
    ensures duty { IfOk result (λ w. (hash : List ℕ → Row → ℕ → ℕ) → duty F.PlanFunctions w ≡ root_duty (model_of hash job.now) (under (F.functions job.now.functions) (plan_of node.now))) }
    ensures new { IfOk result (λ w. IsNew F.PlanFunctions job.now w) }
    ensures inputs { IfOk result (λ w. sources_of w ≡ inputs_of (worker_group_at job.now.layout.worker_groups.items) (plan_of node.now)) }
{
    let collector = Collector::new(alloc, output_types(node))?;
    let destination = Destination::Collect(collector);
    fragment_worker(alloc, job, node, 0, destination, Vec::new(alloc))
}

// The sending end of the producer at a place of an exchange of this kind over a node.
fn sender_of<F: Copy>(
    alloc: Global,
    job: &Job<'_, F>,
    exchange: u32,
    kind: &ExchangeKind,
    node: &TypedNode,
    place: u32,
) -> Result<Destination, AllocError>
    requires kind { is_kind (scope job.now.plan.now) (types_of (relations job.now.plan.now) (plan_of node.now)) (kind_of kind.now) ≡ true }
    requires outputs { HasOutputs (relations job.now.plan.now) (outline_of node.now) }
    ensures post { IfOk result (λ d. (hash : List ℕ → Row → ℕ → ℕ)
        → post_of d ≡ sends_by_ship (ship_of (model_of hash job.now) exchange place (kind_of kind.now) (plan_of node.now))) }
    ensures unused { IfOk result (λ d. IsUnused job.now d) }
{
    let types = output_types(node);
    let consumers = job.workers(kind.target());
    let deal = job.deal_of(alloc, types, kind)?;
    let sender = Sender::new(alloc, exchange, place, consumers, job.packet(), types, deal)?;
    Ok(Destination::Send(sender))
}

/// The producer at a place of an exchange of this kind over a node.
pub fn producer<F: PlanFunctions + Copy>(
    alloc: Global,
    job: &Job<'_, F>,
    exchange: u32,
    kind: &ExchangeKind,
    node: &TypedNode,
    place: u32,
) -> Result<Worker<Operator<F>, Destination>, AllocError>
    requires kind { is_kind (scope job.now.plan.now) (types_of (relations job.now.plan.now) (plan_of node.now)) (kind_of kind.now) ≡ true }
    requires part { IsPartOf F.PlanFunctions job.now (outline_of node.now) }
    ensures duty { IfOk result (λ w. (hash : List ℕ → Row → ℕ → ℕ)
        → duty F.PlanFunctions w ≡ producer_duty (model_of hash job.now) exchange (kind_of kind.now) (under (F.functions job.now.functions) (plan_of node.now)) place) }
    ensures new { IfOk result (λ w. IsNew F.PlanFunctions job.now w) }
    ensures inputs { IfOk result (λ w. sources_of w ≡ inputs_of (worker_group_at job.now.layout.worker_groups.items) (plan_of node.now)) }
{
    let consumers = job.workers(kind.target());
    let closing = closing_packets(alloc, exchange, place, consumers, output_types(node))?;
    let sender = sender_of(alloc, job, exchange, kind, node, place)?;
    fragment_worker(alloc, job, node, place, sender, closing)
}
