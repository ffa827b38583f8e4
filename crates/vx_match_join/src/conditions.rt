//! Conditions on a left row and a right row side by side.

ghost use Rattle.std.specs.Prelude.{◌≡◌, ◌<◌, ◌++◌, length};
ghost use Rattle.vx_rows_values.specs.Values.{value_at};
ghost use Rattle.vx_rows_values.specs.ValueView.{cell_val, test_of};
ghost use Rattle.vx_rows.specs.View.{row};
ghost use Rattle.vx_plan_nodes.specs.Conditions.{conditions_of};
ghost use Rattle.vx_plan_nodes.specs.Outline.{side_of};
ghost use Rattle.vx_plan_nodes.specs.Serial.{passes, side, answers};
ghost use Rattle.vx_ops_kernels.specs.Holds.{holds_of};

use std::cmp::Ordering;
use vx_plan_nodes::{Condition, Side};
use vx_rows_values::{Cell, Test, compare_cells};
use vx_rows_views::{Chunk, Rows};

// What a test says of a comparison.
fn answer(test: Test, order: Ordering) -> bool
    ensures { result ≡ answers (test_of test) order }
{
    match test {
        Test::Equal => order.is_eq(),
        Test::Unequal => order.is_ne(),
        Test::Below => order.is_lt(),
        Test::AtMost => order.is_le(),
        Test::Above => order.is_gt(),
        Test::AtLeast => order.is_ge(),
    }
}

// The value in a column of row i of `left` and the row at a place of `right`, and the number 0 where there is no such column, as
// the definitions have it.
fn cell_beside<'a>(
    left: &'a Chunk,
    i: usize,
    right: &'a Rows,
    place: usize,
    column: usize,
) -> Cell<'a>
    requires left { i < length left.now.rows }
    requires right { place < length right.now.rows }
    ensures { cell_val result ≡ value_at (row left.entry.now i ++ row right.entry.now place) column }
{
    let width = left.types().len();
    if column < width {
        return left.cell(i, column);
    }
    if column - width < right.types().len() {
        return right.cell(place, column - width);
    }
    Cell::Int(0)
}

// The value of a condition's right side.
fn right_side<'a>(
    right_side: &'a Side,
    left: &'a Chunk,
    i: usize,
    right: &'a Rows,
    place: usize,
) -> Cell<'a>
    requires left { i < length left.now.rows }
    requires right { place < length right.now.rows }
    ensures { cell_val result ≡ side (side_of right_side.entry.now) (row left.entry.now i ++ row right.entry.now place) }
{
    match right_side {
        Side::Column(column) => cell_beside(left, i, right, place, *column),
        Side::Constant(value) => value.cell(),
    }
}

// Whether a condition holds of row i of `left` and the row at a place of `right`.
fn holds(condition: &Condition, left: &Chunk, i: usize, right: &Rows, place: usize) -> bool
    requires left { i < length left.now.rows }
    requires right { place < length right.now.rows }
    ensures { result ≡ holds_of condition.now (row left.now i ++ row right.now place) }
{
    let value = cell_beside(left, i, right, place, condition.left);
    let other = right_side(&condition.right, left, i, right, place);
    answer(condition.test, compare_cells(value, other))
}

/// Whether all conditions hold of row i of `left` and the row at a place of `right`. It ends at the first that does not.
pub(crate) fn all_hold(
    conditions: &[Condition],
    left: &Chunk,
    i: usize,
    right: &Rows,
    place: usize,
) -> bool
    requires left { i < length left.now.rows }
    requires right { place < length right.now.rows }
    ensures { result ≡ passes (conditions_of conditions.now) (row left.now i ++ row right.now place) }
{
    for k in 0..conditions.len() {
        if !holds(&conditions[k], left, i, right, place) {
            return false;
        }
    }
    true
}
