//! The columns of distincts and projections, by the columns of their input.

ghost use Rattle.std.specs.Prelude.{◌≡◌, map, string_bytes, IfOk};
ghost use Rattle.vx_plan_json.specs.Fault.{Gives};
ghost use Rattle.vx_plan_json.specs.Document.{output_form, entry_form};
ghost use Rattle.vx_plan_nodes.specs.Outline.{columns_of};
ghost use Rattle.vx_plan.specs.Resolve.{output_name, find_kept, find_all_kept, kept_shape, entry_name, find_entry, find_entries, entries_shape};
ghost use Rattle.vx_plan.specs.Shaped.{found_of};

use crate::columns::{entry_names, output_names};
use crate::conditions::find_operand;
use crate::lookup::{find_column, test_distinct, test_width};
use std::alloc::Global;
use std::sync::Arc;
use vx_plan_json::{NamedEntry, NamedOutput, PlanFault};
use vx_plan_nodes::{Columns, Entry, Name, Projected};

#[tactic(auto, unfolding(crate::specs::Resolve::find_kept))]
fn find_kept(
    alloc: Global,
    node: u32,
    names: &[Name],
    output: &NamedOutput,
) -> Result<Projected, PlanFault>
    ensures { Gives (λ k. k) result (find_kept node names.now (output_form output.now)) }
{
    let column = find_column(alloc, node, names, output.column.as_str())?;
    Ok(Projected {
        column,
        renamed: output.renamed.is_some(),
    })
}

#[tactic(auto, unfolding(crate::specs::Resolve::find_all_kept), using(crate::proofs::WalkFacts::walk_steps))]
fn find_all_kept(
    alloc: Global,
    node: u32,
    names: &[Name],
    outputs: &[NamedOutput],
) -> Result<Vec<Projected>, PlanFault>
    ensures { Gives (λ v. v.items) result (find_all_kept node names.now (map output_form outputs.now)) }
{
    let mut found = Vec::new(alloc);
    for output in outputs {
        let one = find_kept(alloc, node, names, output)?;
        found.push(one)?;
    }
    Ok(found)
}

/// The kept columns of a distinct. No output name stands twice.
#[tactic(auto, unfolding(crate::specs::Resolve::kept_shape))]
pub fn kept_shape(
    alloc: Global,
    node: u32,
    input: &Columns,
    outputs: &[NamedOutput],
) -> Result<(Vec<Projected>, Vec<String>), PlanFault>
    ensures kept { Gives (λ r. r.0.items) result (kept_shape node (columns_of input.now) (map output_form outputs.now)) }
    ensures names { IfOk result (λ r. map string_bytes r.1.items ≡ map output_name (map output_form outputs.now)) }
{
    let found = find_all_kept(alloc, node, input.names.as_slice(), outputs)?;
    let names = output_names(alloc, outputs)?;
    test_distinct(alloc, node, names.as_slice())?;
    test_width(node, outputs.len())?;
    Ok((found, names))
}

#[tactic(auto, unfolding(crate::specs::Resolve::find_entry))]
fn find_entry(
    alloc: Global,
    node: u32,
    names: &[Name],
    entry: &NamedEntry,
) -> Result<Entry, PlanFault>
    ensures { Gives found_of result (find_entry node names.now (entry_form entry.now)) }
{
    match entry {
        NamedEntry::Kept(output) => {
            let kept = find_kept(alloc, node, names, output)?;
            Ok(Entry::Kept(kept))
        }
        NamedEntry::Made(operand, _) => {
            let found = find_operand(alloc, node, names, operand)?;
            Ok(Entry::Made(Arc::new(alloc, found)?))
        }
    }
}

#[tactic(auto, unfolding(crate::specs::Resolve::find_entries), using(crate::proofs::WalkFacts::walk_steps))]
fn find_entries(
    alloc: Global,
    node: u32,
    names: &[Name],
    entries: &[NamedEntry],
) -> Result<Vec<Entry>, PlanFault>
    ensures { Gives (λ v. map found_of v.items) result (find_entries node names.now (map entry_form entries.now)) }
{
    let mut found = Vec::new(alloc);
    for entry in entries {
        let one = find_entry(alloc, node, names, entry)?;
        found.push(one)?;
    }
    Ok(found)
}

/// The columns of a projection. No output name stands twice.
#[tactic(auto, unfolding(crate::specs::Resolve::entries_shape))]
pub fn entries_shape(
    alloc: Global,
    node: u32,
    input: &Columns,
    entries: &[NamedEntry],
) -> Result<(Vec<Entry>, Vec<String>), PlanFault>
    ensures found { Gives (λ r. map found_of r.0.items) result (entries_shape node (columns_of input.now) (map entry_form entries.now)) }
    ensures names { IfOk result (λ r. map string_bytes r.1.items ≡ map entry_name (map entry_form entries.now)) }
{
    let found = find_entries(alloc, node, input.names.as_slice(), entries)?;
    let names = entry_names(alloc, entries)?;
    test_distinct(alloc, node, names.as_slice())?;
    test_width(node, entries.len())?;
    Ok((found, names))
}
