//! The columns of a set as a list, which is held without the heap.

ghost use Rattle.std.specs.Prelude.{◌≡◌, ◌≤◌};
ghost use Rattle.vx_rows_values.specs.Limits.{max_columns};
ghost use Rattle.vx_plan_facts.specs.ColumnSetView.{set_of_columns};
ghost use Rattle.vx_check_rules.specs.Derived.{members};

use arrayvec::ArrayVec;
use vx_plan_facts::ColumnSet;
use vx_rows_values::limits::MAX_COLUMNS;

/// Those of so many first columns that are in the set.
pub(crate) fn members(width: usize, set: &ColumnSet) -> ArrayVec<usize, MAX_COLUMNS>
    requires { width ≤ max_columns }
    ensures { result.items ≡ members width (set_of_columns set.now) }
{
    let mut list = ArrayVec::new();
    for column in 0..width {
        if set.contains(column) {
            list.push(column);
        }
    }
    list
}
