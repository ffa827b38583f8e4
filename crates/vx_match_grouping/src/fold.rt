//! How an aggregate takes the rows of a chunk.

ghost use Rattle.std.specs.Prelude.{◌≡◌, ◌<◌, ◌≤◌, ◌++◌, ◌∷◌, [], ℕ, length, map, set, take, slice_index, slice_index_or, OnOk, IfErr, IfSome};
ghost use Rattle.vx_match_grouping.specs.declared.fault.GroupFault.TheVariants.{NoMemory};
ghost use Rattle.vx_match_grouping.specs.Groups.{held_of, no_held, advance};
ghost use Rattle.vx_match_grouping.specs.GroupFaults.{StepBlame};
ghost use Rattle.vx_match_grouping.specs.Takes.{entry_held, advance_all, Takes, TakesNot};

use crate::fault::GroupFault;
use std::alloc::AllocError;

/// One aggregate over the rows of a chunk, which come one by one: what it is of the first row of a group, and how it changes with
/// one more.
pub(crate) trait Fold {
    ghost use Rattle.std.specs.Prelude.{◌≡◌, ◌<◌, ◌∷◌, [], ℕ, List, length, slice_index_or, OnOk, IfOk, IfErr};
    ghost use Rattle.vx_rows_values.specs.Values.{Val, Row};
    ghost use Rattle.vx_plan_nodes.specs.Plan.{Aggregate};
    ghost use Rattle.vx_match_grouping.specs.Groups.{held_of, advance};
    ghost use Rattle.vx_match_grouping.specs.GroupFaults.{StepBlame};
    ghost use Rattle.vx_match_grouping.specs.Takes.{entry_held};

    /// What is kept of the rows of a group.
    type Entry: Drop;

    ghost rows: { Self → List Row };

    ghost aggregate: { Self → Aggregate };

    // The value of an entry, and how many rows it counted.
    ghost value: { Self.Entry → Val };

    ghost taken: { Self.Entry → ℕ };

    /// Of row i alone.
    fn first(&self, i: usize) -> Result<Self::Entry, AllocError>
        requires { i < length (rows self.now) }
        ensures { IfOk result (λ e. entry_held (aggregate self.now) value taken e ≡ held_of (aggregate self.now) (slice_index_or (rows self.now) i [] ∷ [])) };

    /// Adds row i. After an `Err` the entry is arbitrary.
    fn add(&self, entry: &mut Self::Entry, i: usize) -> Result<(), GroupFault>
        requires { i < length (rows self.now) }
        ensures ok { OnOk result (entry_held (aggregate self.now) value taken entry.new ≡ advance (slice_index_or (rows self.now) i []) (entry_held (aggregate self.now) value taken entry.old)) }
        ensures err { IfErr result (λ e. StepBlame e (taken entry.old)) };
}

// Adds row i to the entry of this number, or as the first of the next entry.
#[inline(always)]
fn add_row<F: Fold>(
    fold: &F,
    entries: &mut Vec<F::Entry>,
    number: usize,
    i: usize,
) -> Result<(), GroupFault>
    requires { i < length (F.rows fold.now) }
    ensures known { OnOk result (number < length entries.old.items → map (entry_held (F.aggregate fold.now) F.value F.taken) entries.new.items ≡ set (map (entry_held (F.aggregate fold.now) F.value F.taken) entries.old.items) number (advance (slice_index_or (F.rows fold.now) i []) (slice_index_or (map (entry_held (F.aggregate fold.now) F.value F.taken) entries.old.items) number no_held))) }
    ensures new { OnOk result (length entries.old.items ≤ number → map (entry_held (F.aggregate fold.now) F.value F.taken) entries.new.items ≡ map (entry_held (F.aggregate fold.now) F.value F.taken) entries.old.items ++ held_of (F.aggregate fold.now) (slice_index_or (F.rows fold.now) i [] ∷ []) ∷ []) }
    ensures full { IfErr result (λ e. number < length entries.old.items → StepBlame e (slice_index_or (map (entry_held (F.aggregate fold.now) F.value F.taken) entries.old.items) number no_held).taken) }
    ensures out { IfErr result (λ e. length entries.old.items ≤ number → e ≡ NoMemory) }
{
    if number < entries.len() {
        fold.add(&mut entries[number], i)?;
        return Ok(());
    }
    let entry = fold.first(i)?;
    entries.push(entry)?;
    Ok(())
}

// Adds the rows of a chunk, each to the entry of its number, or as the first of the next entry. After an `Err` some entries may have
// some of them.
fn add_each<F: Fold>(
    fold: &F,
    entries: &mut Vec<F::Entry>,
    numbers: &[usize],
) -> Result<(), GroupFault>
    requires { length numbers.now ≡ length (F.rows fold.now) }
    ensures taken { OnOk result (Takes (F.aggregate fold.now) (F.rows fold.now) numbers.now (map (entry_held (F.aggregate fold.now) F.value F.taken) entries.old.items) (map (entry_held (F.aggregate fold.now) F.value F.taken) entries.new.items)) }
    ensures err { IfErr result (λ e. TakesNot e (F.aggregate fold.now) (F.rows fold.now) numbers.now (map (entry_held (F.aggregate fold.now) F.value F.taken) entries.old.items)) }
{
    for i in 0..numbers.len() {
        add_row(fold, entries, numbers[i], i)?;
    }
    Ok(())
}

// Adds all rows of a chunk, of which there are `count`, to one entry. After an `Err` the entry is arbitrary.
#[inline(always)]
fn add_to_one<F: Fold>(fold: &F, entry: &mut F::Entry, count: usize) -> Result<(), GroupFault>
    requires { count ≡ length (F.rows fold.now) }
    ensures taken { OnOk result (entry_held (F.aggregate fold.now) F.value F.taken entry.new ≡ advance_all (F.rows fold.now) (entry_held (F.aggregate fold.now) F.value F.taken entry.old)) }
    ensures err { IfErr result (λ e. (i : ℕ) × ((i < length (F.rows fold.now)) × StepBlame e (advance_all (take i (F.rows fold.now)) (entry_held (F.aggregate fold.now) F.value F.taken entry.old)).taken)) }
{
    for i in 0..count {
        fold.add(entry, i)?;
    }
    Ok(())
}

// The number that each of these is, if they are all the same.
fn one_number(numbers: &[usize]) -> Option<usize>
    ensures { IfSome result (λ n. (k : ℕ) → k < length numbers.now → slice_index numbers.now k ≡ n) }
{
    if numbers.is_empty() {
        return None;
    }
    let first = numbers[0];
    for number in numbers {
        if *number != first {
            return None;
        }
    }
    Some(first)
}

/// Adds the rows of a chunk, each to the entry of its key's number, or as the first of the next entry. After an `Err` some entries
/// may have some of them.
pub(crate) fn add_rows<F: Fold>(
    fold: &F,
    entries: &mut Vec<F::Entry>,
    numbers: &[usize],
) -> Result<(), GroupFault>
    requires { length numbers.now ≡ length (F.rows fold.now) }
    ensures taken { OnOk result (Takes (F.aggregate fold.now) (F.rows fold.now) numbers.now (map (entry_held (F.aggregate fold.now) F.value F.taken) entries.old.items) (map (entry_held (F.aggregate fold.now) F.value F.taken) entries.new.items)) }
    ensures err { IfErr result (λ e. TakesNot e (F.aggregate fold.now) (F.rows fold.now) numbers.now (map (entry_held (F.aggregate fold.now) F.value F.taken) entries.old.items)) }
{
    // rows of one key find their entry once
    if let Some(number) = one_number(numbers) {
        if number < entries.len() {
            return add_to_one(fold, &mut entries[number], numbers.len());
        }
    }
    add_each(fold, entries, numbers)
}
