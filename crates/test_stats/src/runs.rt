//! A plan, and the counts of a run of it, which are made by hand.

use anyhow::Error;
use std::alloc::{AllocError, Global};
use vx_catalog_relations::Catalog;
use vx_exec_setup::{NodeCounts, OperatorCounts, StepCounts, WorkerCounts};
use vx_plan::resolve;
use vx_plan_json::Plan;
use vx_plan_nodes::TypedPlan;

// The relations d "2"(n), whose name has quotes, and t(id, k, v).
const CATALOG: &str =
    r#"{"relations":[{"name":"d \"2\"","columns":[{"name":"n","type":"int"}]},{"name":"t","columns":[{"name":"id","type":"int"},{"name":"k","type":"text"},{"name":"v","type":"int"}]}]}"#;

// Workers scan and select, and the root's worker gathers.
const PLAN: &str =
    r#"{"sizes":["many"],"root":{"op":"exchange","kind":"gather","input":{"op":"select","where":[{"column":"v","op":"=","value":7}],"input":{"op":"scan","relation":"t","mode":"shared","size":"many"}}}}"#;

/// The catalog.
pub fn catalog(alloc: Global) -> Result<Catalog, Error> {
    Ok(Catalog::read(alloc, CATALOG.as_bytes())?)
}

/// The plan.
pub fn plan(alloc: Global) -> Result<TypedPlan, Error> {
    let catalog = catalog(alloc)?;
    let plan = Plan::read(alloc, PLAN.as_bytes())?;
    Ok(resolve(alloc, &plan, &catalog)?)
}

// The rows of an operator that reads from one input.
fn passed(node: u32, left: u64, gave: u64, morsels: u64) -> NodeCounts {
    NodeCounts {
        node,
        counts: OperatorCounts {
            left,
            right: 0,
            gave,
            morsels,
            packets: 0,
            waits: 0,
        },
    }
}

// The worker that gathers four packets, with a row each in two of them. It waited three times for a packet, and once for more.
fn gathering(alloc: Global) -> Result<WorkerCounts, AllocError> {
    let counts = OperatorCounts {
        left: 0,
        right: 0,
        gave: 2,
        morsels: 0,
        packets: 4,
        waits: 3,
    };
    Ok(WorkerCounts {
        steps: StepCounts { puts: 0, waits: 4 },
        nodes: Vec::from_slice(alloc, &[NodeCounts { node: 0, counts }])?,
    })
}

// A worker that scans two morsels of a row each, of which one is selected, and puts that row and the end.
fn scanning(alloc: Global, waits: u64) -> Result<WorkerCounts, AllocError> {
    Ok(WorkerCounts {
        steps: StepCounts { puts: 2, waits },
        nodes: Vec::from_slice(alloc, &[passed(1, 2, 1, 0), passed(2, 2, 2, 2)])?,
    })
}

/// What its three workers counted.
pub fn workers(alloc: Global) -> Result<Vec<WorkerCounts>, AllocError> {
    let mut workers = Vec::new(alloc);
    workers.push(gathering(alloc)?)?;
    workers.push(scanning(alloc, 1)?)?;
    workers.push(scanning(alloc, 0)?)?;
    Ok(workers)
}
