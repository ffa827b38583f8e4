//! A worker that scans, from its first step to its end.

ghost use Rattle.std.specs.Prelude.{◌≡◌, [], ◌∷◌, IfOk};
ghost use Rattle.vx_rows_values.specs.declared.value.ColType.{ColType as ExchangeKind};
ghost use Rattle.vx_ops.specs.Scan.{scan_types};
ghost use Rattle.vx_exchange.specs.Collector.{collector_post, collector_is_open, collector_has_closed};
ghost use Rattle.vx_worker.specs.Worker.{IsReady};

use crate::rows::rows_of;
use crate::sources::{text_of_fault, text_of_rows};
use std::alloc::{AllocError, Global};
use test_tables::ToFirst;
use vx_exchange::Collector;
use vx_ops::Scan;
use vx_ports::{Packet, Put};
use vx_rows::Table;
use vx_rows_values::ColType;
use vx_rows_views::Rows;
use vx_worker::{Morsels, StepOutcome, Tree, Wires, Worker, WorkerOutcome};

// Numbers from `next` to below `end`, and no packet.
#[derive(Drop)]
struct Numbers {
    next: u64,
    end: u64,
}

impl Wires for Numbers {
    ghost Does = { λ _ _ _. Unit {0} };

    ghost IsFull = { λ _ _. Unit {0} };

    ghost LacksMemory = { λ _. ⊥ };

    ghost idle = { λ w. tt };

    fn draw(&mut self, _scan: u32) -> Result<Option<u64>, AllocError> {
        if self.next >= self.end {
            return Ok(None);
        }
        self.next += 1;
        Ok(Some(self.next - 1))
    }

    fn take(&mut self, _exchange: u32, _from: u32) -> Result<Option<Packet>, AllocError> {
        Ok(None)
    }

    fn put(&mut self, _to: u32, packet: Packet) -> Put {
        Put::Full(packet)
    }
}

// The same rows for each morsel, but for one number, where memory is refused.
#[derive(Drop)]
struct Pages {
    alloc: Global,
    rows: Table,
    refused: u64,
}

impl Morsels for Pages {
    ghost morsel_of = { λ s _ _. s.rows.rows };

    ghost types_of = { λ s _. s.rows.types };

    fn morsel(&self, _scan: u32, number: u64) -> Result<Rows, AllocError> {
        if number == self.refused {
            return Err(AllocError);
        }
        let copy = self.rows.copy(self.alloc)?;
        Ok(Rows::of_table(self.alloc, copy)?)
    }
}

// Steps until the worker has ended, at most twenty times.
fn finish(worker: &mut Worker<Scan, Collector>, pages: &Pages, wires: &mut Numbers) -> StepOutcome
    requires pages { pages.now.rows.types ≡ ExchangeKind.Int ∷ [] }
    requires worker { IsReady scan_types collector_post collector_is_open collector_has_closed (λ _. ExchangeKind.Int ∷ []) worker.old }
{
    'steps: for _ in 0..20 {
        if worker.step(pages, &ToFirst, wires) == StepOutcome::Ended {
            return StepOutcome::Ended;
        }
    }
    StepOutcome::Waiting
}

// A worker at the root that scans, at this node.
fn scanner(alloc: Global, node: u32) -> Result<Worker<Scan, Collector>, AllocError>
    ensures { IfOk result (IsReady scan_types collector_post collector_is_open collector_has_closed (λ _. ExchangeKind.Int ∷ [])) }
{
    let types = Vec::from_slice(alloc, &[ColType::Int])?;
    let tree = Tree::Leaf(node, Scan::new(types));
    let sender = Collector::new(alloc, &[ColType::Int])?;
    Ok(Worker::new(alloc, tree, sender, node, Vec::new(alloc), Vec::new(alloc)))
}

// How a `worker` ended that drew so many numbers, and the rows that it kept, as text.
fn text_of_end(
    alloc: Global,
    worker: Worker<Scan, Collector>,
    drawn: u64,
) -> Result<String, AllocError> {
    let end = match worker.outcome() {
        None => String::from_str(alloc, "running")?,
        Some(WorkerOutcome::Well) => String::from_str(alloc, "well")?,
        Some(WorkerOutcome::Failed(fault)) => text_of_fault(alloc, fault)?,
    };
    let rows = text_of_rows(alloc, &worker.into_sender().into_rows())?;
    format!(in alloc; "{end} {drawn} {rows}")
}

/// How a worker ends that scans at the node `node`: so many `morsels` with the numbers of `word`, and no memory for the one with the number
/// `refused`. None where the word cannot be read, or memory ran out elsewhere.
pub fn worked(alloc: Global, node: u32, morsels: u32, refused: u32, word: &str) -> Option<String> {
    let Ok(rows) = rows_of(alloc, word)?.gathered(alloc) else {
        return None;
    };
    let pages = Pages {
        alloc,
        rows,
        refused: u64::from(refused),
    };
    let mut wires = Numbers {
        next: 0,
        end: u64::from(morsels),
    };
    let Ok(mut worker) = scanner(alloc, node) else {
        return None;
    };
    match finish(&mut worker, &pages, &mut wires) {
        StepOutcome::Ended => text_of_end(alloc, worker, wires.next).ok(),
        _ => None,
    }
}
