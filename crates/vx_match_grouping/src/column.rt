//! Aggregates by column: of one aggregate, an entry for each group.

ghost use Rattle.std.specs.Prelude.{◌≡◌, ◌<◌, [], length, map, slice_index_or, OnOk, IfOk, IfErr, IfSome, IfNone, true, false};
ghost use Rattle.vx_rows_values.specs.Values.{num};
ghost use Rattle.vx_rows_values.specs.ValueView.{val_of, cell_val};
ghost use Rattle.vx_plan_nodes.specs.Plan.{sum};
ghost use Rattle.vx_plan_nodes.specs.Outline.{aggregate_of as op_of};
ghost use Rattle.vx_match_grouping.specs.Groups.{held_fits, no_held};
ghost use Rattle.vx_match_grouping.specs.Takes.{Takes, TakesNot};
ghost use Rattle.vx_match_grouping.specs.Shown.{aggregate_at, extremes_held, sum_held, column_held, aggregate_in};

use crate::fault::GroupFault;
use crate::fold::add_rows;
use crate::folds::{
    Count, End, ExtremeValues, GreatestNumbers, LeastNumbers, SumOfNumbers, SumOfValues,
};
use crate::operands::{CellOperand, NumberOperand, read_numbers};
use crate::sum::WideSum;
use std::alloc::{AllocError, Global};
use vx_plan_nodes::Aggregate;
use vx_rows_values::{Cell, Value};
use vx_rows_views::Chunk;

/// The least or the greatest values of the groups. They are numbers as long as all that came are.
pub(crate) enum Extremes {
    Numbers(Vec<i64>),
    Values(Vec<Value>),
}

impl Drop for Extremes {
    fn drop(self) {
        match self {
            Extremes::Numbers(_) => {}
            Extremes::Values(_) => {}
        }
    }
}

/// One aggregate of all groups: entry n is of the rows of the group with number n. It carries the column that it is of.
pub(crate) enum AggregateColumn {
    /// The least or the greatest values.
    Extreme(End, usize, Extremes),
    /// The sums of the numbers.
    Sum(usize, Vec<WideSum>),
    /// How many rows.
    CountRows(Vec<u64>),
}

impl Drop for AggregateColumn {
    fn drop(self) {
        match self {
            AggregateColumn::Extreme(_, _, _) => {}
            AggregateColumn::Sum(_, _) => {}
            AggregateColumn::CountRows(_) => {}
        }
    }
}

// Numbers as values.
fn as_values(alloc: Global, numbers: &[i64]) -> Result<Vec<Value>, AllocError>
    ensures { IfOk result (λ v. map val_of v.items ≡ map num numbers.now) }
{
    let mut values = Vec::with_capacity(alloc, numbers.len())?;
    for number in numbers {
        values.push(Value::Int(*number))?;
    }
    Ok(values)
}

// Adds the rows of a chunk to the least or the greatest values of a column. Numbers become values where it has texts.
fn add_extremes(
    fold: ExtremeValues<'_>,
    extremes: &mut Extremes,
    numbers: &[usize],
    room: &mut Vec<i64>,
) -> Result<(), GroupFault>
    requires { length numbers.now ≡ length fold.operand.chunk.now.rows }
    ensures taken { OnOk result (Takes (aggregate_at fold.entry.end fold.entry.operand.column) fold.entry.operand.chunk.now.rows numbers.now (extremes_held (aggregate_at fold.entry.end fold.entry.operand.column) extremes.old) (extremes_held (aggregate_at fold.entry.end fold.entry.operand.column) extremes.new)) }
    ensures err { IfErr result (λ e. TakesNot e (aggregate_at fold.entry.end fold.entry.operand.column) fold.entry.operand.chunk.now.rows numbers.now (extremes_held (aggregate_at fold.entry.end fold.entry.operand.column) extremes.old)) }
{
    let CellOperand { chunk, column } = fold.operand;
    match extremes {
        Extremes::Values(entries) => add_rows(&fold, entries, numbers),
        Extremes::Numbers(entries) => {
            if read_numbers(chunk, column, room)? {
                let operand = NumberOperand {
                    chunk,
                    column,
                    numbers: room.as_slice(),
                };
                return match fold.end {
                    End::Least => add_rows(&LeastNumbers { operand }, entries, numbers),
                    End::Greatest => add_rows(&GreatestNumbers { operand }, entries, numbers),
                };
            }
            let mut values = as_values(fold.alloc, entries.as_slice())?;
            add_rows(&fold, &mut values, numbers)?;
            *extremes = Extremes::Values(values);
            Ok(())
        }
    }
}

// Adds the rows of a chunk to the sums of a column.
fn add_sums(
    operand: CellOperand<'_>,
    sums: &mut Vec<WideSum>,
    numbers: &[usize],
    room: &mut Vec<i64>,
) -> Result<(), GroupFault>
    requires { length numbers.now ≡ length operand.chunk.now.rows }
    ensures taken { OnOk result (Takes (sum operand.entry.column) operand.entry.chunk.now.rows numbers.now (map (sum_held operand.entry.column) sums.old.items) (map (sum_held operand.entry.column) sums.new.items)) }
    ensures err { IfErr result (λ e. TakesNot e (sum operand.entry.column) operand.entry.chunk.now.rows numbers.now (map (sum_held operand.entry.column) sums.old.items)) }
{
    let CellOperand { chunk, column } = operand;
    if read_numbers(chunk, column, room)? {
        let operand = NumberOperand {
            chunk,
            column,
            numbers: room.as_slice(),
        };
        return add_rows(&SumOfNumbers { operand }, sums, numbers);
    }
    add_rows(&SumOfValues { operand }, sums, numbers)
}

impl AggregateColumn {
    /// Of no groups.
    pub fn new(alloc: Global, aggregate: Aggregate) -> AggregateColumn
        ensures aggregate { aggregate_in result ≡ op_of aggregate }
        ensures none { column_held result ≡ [] }
    {
        match aggregate {
            Aggregate::Least(column) => {
                AggregateColumn::Extreme(End::Least, column, Extremes::Numbers(Vec::new(alloc)))
            }
            Aggregate::Greatest(column) => {
                AggregateColumn::Extreme(End::Greatest, column, Extremes::Numbers(Vec::new(alloc)))
            }
            Aggregate::Sum(column) => AggregateColumn::Sum(column, Vec::new(alloc)),
            Aggregate::CountRows => AggregateColumn::CountRows(Vec::new(alloc)),
        }
    }

    /// The aggregate.
    pub fn aggregate(&self) -> Aggregate
        ensures { op_of result ≡ aggregate_in self.now }
    {
        match self {
            AggregateColumn::Extreme(End::Least, column, _) => Aggregate::Least(*column),
            AggregateColumn::Extreme(End::Greatest, column, _) => Aggregate::Greatest(*column),
            AggregateColumn::Sum(column, _) => Aggregate::Sum(*column),
            AggregateColumn::CountRows(_) => Aggregate::CountRows,
        }
    }

    /// Adds the rows of a chunk, each to the group of its key's number, or as the first of the next group. After an `Err` some
    /// groups may have some of them. `room` is for the numbers of a column, whatever stands there.
    pub fn add(
        &mut self,
        alloc: Global,
        chunk: &Chunk,
        numbers: &[usize],
        room: &mut Vec<i64>,
    ) -> Result<(), GroupFault>
        requires { length numbers.now ≡ length chunk.now.rows }
        ensures aggregate { aggregate_in self.new ≡ aggregate_in self.old }
        ensures taken { OnOk result (Takes (aggregate_in self.old) chunk.now.rows numbers.now (column_held self.old) (column_held self.new)) }
        ensures err { IfErr result (λ e. TakesNot e (aggregate_in self.old) chunk.now.rows numbers.now (column_held self.old)) }
    {
        match self {
            AggregateColumn::Extreme(end, column, extremes) => {
                let operand = CellOperand {
                    chunk,
                    column: *column,
                };
                let end = *end;
                add_extremes(
                    ExtremeValues {
                        end,
                        operand,
                        alloc,
                    },
                    extremes,
                    numbers,
                    room,
                )
            }
            AggregateColumn::Sum(column, sums) => {
                let operand = CellOperand {
                    chunk,
                    column: *column,
                };
                add_sums(operand, sums, numbers, room)
            }
            AggregateColumn::CountRows(counts) => add_rows(&Count { chunk }, counts, numbers),
        }
    }

    /// The value of a group, where it fits 64 bits.
    pub fn cell(&self, number: usize) -> Option<Cell<'_>>
        requires { number < length (column_held self.now) }
        ensures fits { IfSome result (λ c. (cell_val c ≡ (slice_index_or (column_held self.now) number no_held).value) × (held_fits (slice_index_or (column_held self.now) number no_held) ≡ true)) }
        ensures not { IfNone result (held_fits (slice_index_or (column_held self.now) number no_held) ≡ false) }
    {
        match self {
            AggregateColumn::Extreme(_, _, Extremes::Numbers(numbers)) => {
                Some(Cell::Int(numbers[number]))
            }
            AggregateColumn::Extreme(_, _, Extremes::Values(values)) => {
                Some(values[number].cell())
            }
            AggregateColumn::Sum(_, sums) => Some(Cell::Int(sums[number].fit()?)),
            AggregateColumn::CountRows(counts) => {
                Some(Cell::Int(i64::try_from(counts[number]).ok()?))
            }
        }
    }
}
