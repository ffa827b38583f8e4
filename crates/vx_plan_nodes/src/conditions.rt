//! Conditions and columns of projections in memory of their own; what expressions say is shared.

ghost use Rattle.std.specs.Prelude.{◌≡◌, map, IfOk};
ghost use Rattle.vx_plan_nodes.specs.Outline.{side_of, condition_of, filter_of, entry_of, is_renamed};

use crate::typed::{Condition, Entry, Filter, Side};
use std::alloc::{AllocError, Global};

fn copied_side(alloc: Global, side: &Side) -> Result<Side, AllocError>
    ensures { IfOk result (λ s. side_of s ≡ side_of side.now) }
{
    match side {
        Side::Column(column) => Ok(Side::Column(*column)),
        Side::Constant(value) => Ok(Side::Constant(value.copy(alloc)?)),
    }
}

fn copied_condition(alloc: Global, condition: &Condition) -> Result<Condition, AllocError>
    ensures { IfOk result (λ c. condition_of c ≡ condition_of condition.now) }
{
    Ok(Condition {
        left: condition.left,
        test: condition.test,
        right: copied_side(alloc, &condition.right)?,
    })
}

/// The same conditions in memory of their own.
pub fn copied_conditions(
    alloc: Global,
    conditions: &[Condition],
) -> Result<Vec<Condition>, AllocError>
    ensures { IfOk result (λ v. map condition_of v.items ≡ map condition_of conditions.now) }
{
    let mut copies = Vec::new(alloc);
    for condition in conditions {
        copies.push(copied_condition(alloc, condition)?)?;
    }
    Ok(copies)
}

fn copied_filter(alloc: Global, filter: &Filter) -> Result<Filter, AllocError>
    ensures { IfOk result (λ f. filter_of f ≡ filter_of filter.now) }
{
    match filter {
        Filter::Compared(condition) => Ok(Filter::Compared(copied_condition(alloc, condition)?)),
        Filter::Computed(expression) => Ok(Filter::Computed(expression.clone()?)),
    }
}

/// The same conditions in memory of their own.
pub fn copied_filters(alloc: Global, filters: &[Filter]) -> Result<Vec<Filter>, AllocError>
    ensures { IfOk result (λ v. map filter_of v.items ≡ map filter_of filters.now) }
{
    let mut copies = Vec::new(alloc);
    for filter in filters {
        copies.push(copied_filter(alloc, filter)?)?;
    }
    Ok(copies)
}

fn copied_entry(entry: &Entry) -> Result<Entry, AllocError>
    ensures entry { IfOk result (λ e. entry_of e ≡ entry_of entry.now) }
    ensures renamed { IfOk result (λ e. is_renamed e ≡ is_renamed entry.now) }
{
    match entry {
        Entry::Kept(kept) => Ok(Entry::Kept(*kept)),
        Entry::Made(expression) => Ok(Entry::Made(expression.clone()?)),
    }
}

/// The same columns in memory of their own.
pub fn copied_entries(alloc: Global, entries: &[Entry]) -> Result<Vec<Entry>, AllocError>
    ensures entries { IfOk result (λ v. map entry_of v.items ≡ map entry_of entries.now) }
    ensures renamed { IfOk result (λ v. map is_renamed v.items ≡ map is_renamed entries.now) }
{
    let mut copies = Vec::new(alloc);
    for entry in entries {
        copies.push(copied_entry(entry)?)?;
    }
    Ok(copies)
}
