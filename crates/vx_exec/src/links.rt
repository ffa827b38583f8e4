//! What connects the workers of a job, by the spans of its layout.

ghost use Rattle.std.specs.Prelude.{◌≡◌, [], ◌∷◌, ◌++◌, map, flat_map, IfOk, OnOk};
ghost use Rattle.vx_exec.specs.Links.{morsels_in, station_in, sends_in, queues_in};

use crate::job::Job;
use std::alloc::{AllocError, Global};
use vx_exec_layout::{NodeSpan, ScanSpan};
use vx_exec_steps::{Ports, SharedScan, Station, WholeScan};

// What the workers of a scan share.
fn scan_station<F: Copy>(
    alloc: Global,
    job: &Job<'_, F>,
    scan: ScanSpan,
) -> Result<Station, AllocError>
    ensures { IfOk result (λ s. s ≡ station_in (morsels_in job.now) (NodeSpan.Scan scan)) }
{
    let workers = scan.workers as usize;
    let morsels = job.morsel_count(scan.relation);
    if scan.is_shared {
        let shared = SharedScan::new(scan.first, workers, morsels);
        return Ok(Station::Shared(shared));
    }
    let whole = WholeScan::new(alloc, scan.first, workers, morsels)?;
    Ok(Station::Whole(whole))
}

// What stands at a node.
fn station_of<F: Copy>(
    alloc: Global,
    job: &Job<'_, F>,
    span: NodeSpan,
) -> Result<Station, AllocError>
    ensures { IfOk result (λ s. s ≡ station_in (morsels_in job.now) span) }
{
    match span {
        NodeSpan::Inner => Ok(Station::Inner),
        NodeSpan::Exchange(exchange) => Ok(Station::Exchange {
            below: exchange.below,
            above: exchange.above,
        }),
        NodeSpan::Scan(scan) => scan_station(alloc, job, scan),
    }
}

/// What stands at each node, by their numbers.
pub fn stations_of<F: Copy>(
    alloc: Global,
    job: &Job<'_, F>,
    spans: &[NodeSpan],
) -> Result<Vec<Station>, AllocError>
    ensures { IfOk result (λ v. v.items ≡ map (station_in (morsels_in job.now)) spans.now) }
{
    let mut stations = Vec::new(alloc);
    for span in spans {
        stations.push(station_of(alloc, job, *span)?)?;
    }
    Ok(stations)
}

// Adds the exchange to which the producers of a node send, once for each, if the node is one.
fn add_sends(sends: &mut Vec<u32>, span: NodeSpan) -> Result<(), AllocError>
    ensures { OnOk result (sends.new.items ≡ sends.old.items ++ sends_in span) }
{
    let NodeSpan::Exchange(exchange) = span else {
        return Ok(());
    };
    for _ in 0..exchange.producers {
        sends.push(exchange.number)?;
    }
    Ok(())
}

/// The exchange to which each worker sends, by their numbers. The root's sends to none.
pub fn sends_of(alloc: Global, spans: &[NodeSpan]) -> Result<Vec<u32>, AllocError>
    ensures { IfOk result (λ v. v.items ≡ 0 ∷ flat_map sends_in spans.now) }
{
    let mut sends = Vec::new(alloc);
    sends.push(0)?;
    for span in spans {
        add_sends(&mut sends, *span)?;
    }
    Ok(sends)
}

// Adds a queue from each producer of a node to each consumer, if the node is an exchange.
fn add_ports(ports: &mut Vec<Ports>, alloc: Global, span: NodeSpan) -> Result<(), AllocError>
    ensures { OnOk result (ports.new.items ≡ ports.old.items ++ queues_in span) }
{
    let NodeSpan::Exchange(exchange) = span else {
        return Ok(());
    };
    for _ in 0..exchange.producers {
        ports.push(Ports::new(alloc, exchange.consumers as usize)?)?;
    }
    Ok(())
}

/// The queues of each worker, by their numbers. The root's has none.
pub fn ports_of(alloc: Global, spans: &[NodeSpan]) -> Result<Vec<Ports>, AllocError>
    ensures { IfOk result (λ v. v.items ≡ [] ∷ flat_map queues_in spans.now) }
{
    let mut ports = Vec::new(alloc);
    ports.push(Ports::new(alloc, 0)?)?;
    for span in spans {
        add_ports(&mut ports, alloc, *span)?;
    }
    Ok(ports)
}
