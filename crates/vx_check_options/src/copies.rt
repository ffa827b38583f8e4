//! All copies of input columns among those of an output.

ghost use Rattle.std.specs.Prelude.{◌≡◌, [], ◌∷◌, ◌++◌, map, take, IfOk, OnOk};
ghost use Rattle.vx_plan_nodes.specs.Describe.{kept_column};
ghost use Rattle.vx_plan_nodes.specs.DescribeView.{copying_of, kept_columns};
ghost use Rattle.vx_plan_nodes.specs.Outline.{entry_of};
ghost use Rattle.vx_check_options.specs.Options.{places_from, entries_from, copies, in_front, copied_lists};

use std::alloc::{AllocError, Global};
use vx_plan_nodes::{Copying, Entry, KeptColumns};

// So many lists of copies of the same columns are kept at most.
const MAX_LISTS: usize = 64;

/// Lists of columns, each a key, or the copies of one column.
pub type Lists = Vec<Vec<usize>>;

// Puts the places of a column among those that are kept behind the others.
fn add_kept(found: &mut Vec<usize>, kept: KeptColumns<'_>, column: usize) -> Result<(), AllocError>
    ensures { OnOk result (found.new.items ≡ found.old.items ++ places_from 0 (kept_columns kept.entry) column) }
{
    for place in 0..kept.len() {
        if kept.get(place) == Some(column) {
            found.push(place)?;
        }
    }
    Ok(())
}

// Puts the places of the entries that keep the column behind the others.
fn add_entries(found: &mut Vec<usize>, entries: &[Entry], column: usize) -> Result<(), AllocError>
    ensures { OnOk result (found.new.items ≡ found.old.items ++ entries_from 0 (map (λ e. kept_column (entry_of e)) entries.now) column) }
{
    let copying = Copying::Entries(entries);
    for place in 0..entries.len() {
        if copying.source(place) == Some(column) {
            found.push(place)?;
        }
    }
    Ok(())
}

/// Puts all output columns that are copies of the input column behind the others.
pub fn add_copies(
    found: &mut Vec<usize>,
    copying: Copying<'_>,
    column: usize,
) -> Result<(), AllocError>
    ensures { OnOk result (found.new.items ≡ found.old.items ++ copies (copying_of copying.entry) column) }
{
    if let Copying::Kept(kept) = copying {
        return add_kept(found, kept, column);
    }
    if let Copying::Entries(entries) = copying {
        return add_entries(found, entries, column);
    }
    if let Some(place) = copying.place(column) {
        found.push(place)?;
    }
    Ok(())
}

// Puts the lists with this column in front behind those that are there.
fn add_in_front(
    alloc: Global,
    found: &mut Lists,
    column: usize,
    lists: &[Vec<usize>],
) -> Result<(), AllocError>
    ensures { OnOk result (map (λ v. v.items) found.new.items ≡ map (λ v. v.items) found.old.items ++ map (λ ds. column ∷ ds) (map (λ v. v.items) lists.now)) }
{
    for list in lists {
        let mut longer = Vec::from_slice(alloc, list.as_slice())?;
        longer.insert(0, column)?;
        found.push(longer)?;
    }
    Ok(())
}

// The lists with a copy of this column in front: the first 64.
fn longer_lists(
    alloc: Global,
    copying: Copying<'_>,
    column: usize,
    lists: Lists,
) -> Result<Lists, AllocError>
    ensures { IfOk result (λ v. map (λ v. v.items) v.items ≡ take 64 (in_front (copying_of copying.entry) column (map (λ v. v.items) lists.items))) }
{
    let mut places = Vec::new(alloc);
    add_copies(&mut places, copying, column)?;
    let ends = lists.as_slice();
    let mut longer = Vec::new(alloc);
    for place in places.as_slice() {
        add_in_front(alloc, &mut longer, *place, ends)?;
    }
    longer.truncate(MAX_LISTS);
    Ok(longer)
}

/// The lists of output columns that are copies of these input columns, one by one: the first 64.
pub fn copied_lists(
    alloc: Global,
    copying: Copying<'_>,
    columns: &[usize],
) -> Result<Lists, AllocError>
    ensures { IfOk result (λ v. map (λ v. v.items) v.items ≡ copied_lists (copying_of copying.entry) columns.now) }
{
    match columns {
        [] => {
            let mut lists = Vec::new(alloc);
            lists.push(Vec::new(alloc))?;
            Ok(lists)
        }
        [column, columns @ ..] => {
            let lists = copied_lists(alloc, copying, columns)?;
            longer_lists(alloc, copying, *column, lists)
        }
    }
}
