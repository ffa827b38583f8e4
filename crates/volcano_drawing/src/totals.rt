//! The entries of statistics, added up for each node of a plan.

ghost use Rattle.std.specs.Prelude.{◌≡◌, ◌<◌, true, false, map, length, replicate, slice_index_or, Some, IfOk, IfErr, MatchOption};
ghost use Rattle.std.specs.List.{list_all};
ghost use Rattle.volcano_drawing.specs.Entries.{entry_of, entries_of};
ghost use Rattle.volcano_drawing.specs.Totals.{nothing, with_entry, fits, is_run, AreTotals, added_up, totals_in};
ghost use Rattle.volcano_drawing.specs.Fault.{IsFaultOf, IsOtherOperator, IsDrawFault};

use crate::entries::{Entry, entries_in_text};
use crate::fault::{Difference, DrawFault};
use std::alloc::{AllocError, Global};
use vx_check_formats::NodeTotals;

// The totals with those of one more entry.
fn with_entry(counts: NodeTotals, entry: &Entry) -> NodeTotals
    ensures { result ≡ with_entry counts (entry_of entry.now) }
{
    let counted = entry.counted;
    NodeTotals {
        workers: counts.workers.saturating_add(1),
        rows: counts.rows.saturating_add(counted.gave),
        waits: counts
            .waits
            .saturating_add(counted.waits.saturating_add(counted.full)),
        put: counts.put.saturating_add(counted.put),
        taken: counts.taken.saturating_add(counted.taken),
    }
}

// Nothing counted for `nodes` nodes.
fn nothing_counted(alloc: Global, nodes: usize) -> Result<Vec<NodeTotals>, AllocError>
    ensures { IfOk result (λ v. v.items ≡ replicate nodes nothing) }
{
    let none = NodeTotals {
        workers: 0,
        rows: 0,
        waits: 0,
        put: 0,
        taken: 0,
    };
    let mut counts = Vec::with_capacity(alloc, nodes)?;
    for _node in 0..nodes {
        counts.push(none)?;
    }
    Ok(counts)
}

// Whether an entry is of a node of the plan whose operators have these words, and has its word.
fn fits(words: &[&str], entry: &Entry) -> bool
    ensures { result ≡ fits (map (λ w. w.now) words.now) (entry_of entry.now) }
{
    if entry.node >= words.len() as u64 {
        return false;
    }
    entry.op.as_str() == words[entry.node as usize]
}

// The fault of an entry that does not fit.
fn other_operator(entry: &Entry) -> DrawFault
    ensures { IsOtherOperator (entry_of entry.now) result }
{
    match entry.op.clone() {
        Ok(op) => DrawFault::OtherPlan(Difference {
            node: entry.node,
            there: Some(op),
        }),
        Err(_) => DrawFault::NoMemory,
    }
}

// The totals of each node by these entries, if all of them fit the plan whose operators have these words.
fn add_up(alloc: Global, words: &[&str], entries: &[Entry]) -> Result<Vec<NodeTotals>, DrawFault>
    ensures totals { IfOk result (λ v. AreTotals (map (λ w. w.now) words.now) (entries_of entries.now) v.items) }
    ensures refused { IfErr result (IsFaultOf (map (λ w. w.now) words.now) (entries_of entries.now)) }
{
    let mut counts = nothing_counted(alloc, words.len())?;
    for entry in entries {
        if !fits(words, entry) {
            return Err(other_operator(entry));
        }
        let at = entry.node as usize;
        counts[at] = with_entry(counts[at], entry);
    }
    Ok(counts)
}

// The first node that no worker ran.
fn first_idle(counts: &[NodeTotals]) -> Option<usize>
    ensures { MatchOption result (list_all is_run counts.now ≡ true) (λ k. (k < length counts.now) × (is_run (slice_index_or counts.now k nothing) ≡ false)) }
{
    for (node, totals) in counts.iter().enumerate() {
        if totals.workers == 0 {
            return Some(node);
        }
    }
    None
}

// The totals of each node by these entries, if they are of the plan whose operators have these words.
fn added_up(alloc: Global, words: &[&str], entries: &[Entry]) -> Result<Vec<NodeTotals>, DrawFault>
    ensures totals { IfOk result (λ v. added_up (map (λ w. w.now) words.now) (entries_of entries.now) ≡ Some v.items) }
    ensures refused { IfErr result (IsFaultOf (map (λ w. w.now) words.now) (entries_of entries.now)) }
{
    let counts = add_up(alloc, words, entries)?;
    match first_idle(counts.as_slice()) {
        Some(node) => Err(DrawFault::OtherPlan(Difference {
            node: node as u64,
            there: None,
        })),
        None => Ok(counts),
    }
}

/// The totals of each node of the plan whose operators have these words, by what `run --stats=json` wrote.
pub fn totals_in(alloc: Global, words: &[&str], text: &[u8]) -> Result<Vec<NodeTotals>, DrawFault>
    ensures totals { IfOk result (λ v. totals_in (map (λ w. w.now) words.now) text.now ≡ Some v.items) }
    ensures refused { IfErr result (IsDrawFault (map (λ w. w.now) words.now) text.now) }
{
    let entries = entries_in_text(alloc, text)?;
    added_up(alloc, words, entries.as_slice())
}
