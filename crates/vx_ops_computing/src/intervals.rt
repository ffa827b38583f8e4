//! Comparisons of one column of numbers with constants, as one interval: so a loop over the column tests each number once.

ghost use Rattle.std.specs.Prelude.{◌≡◌, ◌&&◌, ℤ, ◌<◌, int_le, true, length, map, filter, IfOk, IfSome};
ghost use Rattle.vx_rows_values.specs.declared.value.ColType.TheVariants as kind;
ghost use Rattle.vx_rows_values.specs.Types.{type_at, fits_64};
ghost use Rattle.vx_rows_values.specs.Values.{Row, num, value_at};
ghost use Rattle.vx_plan_nodes.specs.Functions.{Functions};
ghost use Rattle.vx_rows_views.specs.Selected.{of_number};
ghost use Rattle.vx_ops_kernels.specs.Interval.{IsInterval};
ghost use Rattle.vx_ops_computing.specs.Computed.{comparisons_hold};
ghost use Rattle.vx_ops_computing.specs.Given.{filter_by};
ghost use Rattle.vx_ops_computing.specs.Intervals.{lies_in, lies_from, IsMeet};

use std::alloc::{AllocError, Global};
use vx_plan_nodes::{Condition, Filter, Side};
use vx_rows_values::{ColType, Test, Value};
use vx_rows_views::{Chunk, NumberTest, places_are_a_filter};

/// The numbers from `low` to `high` in a column.
#[derive(Clone, Copy)]
pub(crate) struct Interval {
    pub column: usize,
    pub low: i64,
    pub high: i64,
}

impl NumberTest for Interval {
    ghost use Rattle.vx_ops_computing.specs.Intervals.{lies_from};

    ghost says = { λ i z. lies_from i.low i.high z };

    fn passes(&self, number: &i64) -> bool {
        self.low <= *number && *number <= self.high
    }
}

// The first and the last number that compare so with a constant; none where others lie between them, or there are none.
fn bounds(test: Test, constant: i64) -> Option<(i64, i64)>
    ensures { IfSome result (λ b. IsInterval test constant b.0 b.1 true) }
{
    match test {
        Test::Equal => Some((constant, constant)),
        Test::Unequal => None,
        Test::AtMost => Some((i64::MIN, constant)),
        Test::Above => Some((constant.checked_add(1)?, i64::MAX)),
        Test::AtLeast => Some((constant, i64::MAX)),
        Test::Below => Some((i64::MIN, constant.checked_sub(1)?)),
    }
}

// The numbers of an interval of which a condition holds too, where it compares the column of the interval with a constant.
fn met(interval: Interval, condition: &Condition) -> Option<Interval>
    ensures column { IfSome result (λ i. i.column ≡ interval.column) }
    ensures both { IfSome result (λ i. IsMeet interval condition.now i) }
{
    if condition.left != interval.column {
        return None;
    }
    let Side::Constant(Value::Int(constant)) = &condition.right else {
        return None;
    };
    let (low, high) = bounds(condition.test, *constant)?;
    Some(Interval {
        column: interval.column,
        low: interval.low.max(low),
        high: interval.high.min(high),
    })
}

// All numbers of the column that the first condition compares, where it has numbers.
fn whole_column(filters: &[Filter], types: &[ColType]) -> Option<Interval>
    ensures column { IfSome result (λ i. i.column < length types.now) }
    ensures kind { IfSome result (λ i. type_at types.now i.column ≡ kind.Int) }
    ensures all { IfSome result (λ i. (z : ℤ) → fits_64 z ≡ true → lies_from i.low i.high z ≡ true) }
{
    let Some(Filter::Compared(condition)) = filters.first() else {
        return None;
    };
    if condition.left >= types.len() || types[condition.left] != ColType::Int {
        return None;
    }
    Some(Interval {
        column: condition.left,
        low: i64::MIN,
        high: i64::MAX,
    })
}

/// The numbers of which all conditions hold, where all compare one column of numbers with constants, and these numbers lie side by side.
pub(crate) fn interval_of(filters: &[Filter], types: &[ColType]) -> Option<Interval>
    ensures column { IfSome result (λ i. i.column < length types.now) }
    ensures kind { IfSome result (λ i. type_at types.now i.column ≡ kind.Int) }
    ensures same { IfSome result (λ i. (given : Functions) (row : Row) (z : ℤ) → value_at row i.column ≡ num z → fits_64 z ≡ true → comparisons_hold (map (filter_by given) filters.now) row ≡ lies_from i.low i.high z) }
{
    let mut interval = whole_column(filters, types)?;
    for filter in filters {
        let Filter::Compared(condition) = filter else {
            return None;
        };
        interval = met(interval, condition)?;
    }
    Some(interval)
}

/// The rows of a chunk whose number in the column of an interval lies in it.
pub(crate) fn within(alloc: Global, interval: &Interval, chunk: &Chunk) -> Result<Chunk, AllocError>
    requires column { interval.now.column < length chunk.now.types }
    requires kind { type_at chunk.now.types interval.now.column ≡ kind.Int }
    ensures types { IfOk result (λ c. c.types ≡ chunk.now.types) }
    ensures rows { IfOk result (λ c. c.rows ≡ filter (lies_in interval.now) chunk.now.rows) }
{
    let Some(places) = chunk.places_where(alloc, interval.column, interval)? else {
        return Ok(chunk.share(alloc)?);
    };
    places_are_a_filter();
    Ok(chunk.at(alloc, places.as_slice())?)
}
