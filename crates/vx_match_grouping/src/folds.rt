//! The aggregates: least and greatest values, sums and counts.

ghost use Rattle.std.specs.Prelude.{◌≡◌, ◌+◌, ◌+ℤ◌, OnOk, IfErr};
ghost use Rattle.vx_rows_values.specs.ValueView.{val_of, cell_val};
ghost use Rattle.vx_match_grouping.specs.GroupFaults.{StepBlame};
ghost use Rattle.vx_match_grouping.specs.Shown.{is_beyond};

use crate::fault::GroupFault;
use crate::fold::Fold;
use crate::operands::{CellOperand, NumberOperand};
use crate::sum::WideSum;
use std::alloc::{AllocError, Global};
use vx_rows_values::{Cell, Value, compare_cells};
use vx_rows_views::Chunk;

/// Which of the values of a group is kept.
#[derive(Clone, Copy)]
pub(crate) enum End {
    Least,
    Greatest,
}

impl End {
    // Whether a value is nearer to this end than the one that is kept.
    fn is_cell_beyond(self, cell: Cell<'_>, kept: &Value) -> bool
        ensures { result ≡ is_beyond self (cell_val cell.entry) (val_of kept.now) }
    {
        let order = compare_cells(kept.cell(), cell);
        match self {
            End::Least => order.is_gt(),
            End::Greatest => order.is_lt(),
        }
    }
}

/// The least number of a column.
#[derive(Clone, Copy)]
pub(crate) struct LeastNumbers<'a> {
    pub operand: NumberOperand<'a>,
}

impl Fold for LeastNumbers<'_> {
    ghost use Rattle.vx_rows_values.specs.Values.{num};
    ghost use Rattle.vx_plan_nodes.specs.Plan.{least};

    type Entry = i64;

    ghost rows = { λ f. f.operand.chunk.now.rows };

    ghost aggregate = { λ f. least f.operand.column };

    ghost value = { λ n. num n };

    ghost taken = { λ _. 0 };

    #[inline(always)]
    fn first(&self, i: usize) -> Result<i64, AllocError> {
        Ok(self.operand.get(i))
    }

    #[inline(always)]
    fn add(&self, entry: &mut i64, i: usize) -> Result<(), GroupFault> {
        *entry = (*entry).min(self.operand.get(i));
        Ok(())
    }
}

/// The greatest number of a column.
#[derive(Clone, Copy)]
pub(crate) struct GreatestNumbers<'a> {
    pub operand: NumberOperand<'a>,
}

impl Fold for GreatestNumbers<'_> {
    ghost use Rattle.vx_rows_values.specs.Values.{num};
    ghost use Rattle.vx_plan_nodes.specs.Plan.{greatest};

    type Entry = i64;

    ghost rows = { λ f. f.operand.chunk.now.rows };

    ghost aggregate = { λ f. greatest f.operand.column };

    ghost value = { λ n. num n };

    ghost taken = { λ _. 0 };

    #[inline(always)]
    fn first(&self, i: usize) -> Result<i64, AllocError> {
        Ok(self.operand.get(i))
    }

    #[inline(always)]
    fn add(&self, entry: &mut i64, i: usize) -> Result<(), GroupFault> {
        *entry = (*entry).max(self.operand.get(i));
        Ok(())
    }
}

/// The least or the greatest value of a column.
#[derive(Clone, Copy)]
pub(crate) struct ExtremeValues<'a> {
    pub end: End,
    pub operand: CellOperand<'a>,
    pub alloc: Global,
}

impl Fold for ExtremeValues<'_> {
    ghost use Rattle.vx_rows_values.specs.ValueView.{val_of};
    ghost use Rattle.vx_match_grouping.specs.Shown.{aggregate_at};

    type Entry = Value;

    ghost rows = { λ f. f.operand.chunk.now.rows };

    ghost aggregate = { λ f. aggregate_at f.end f.operand.column };

    ghost value = { λ v. val_of v };

    ghost taken = { λ _. 0 };

    fn first(&self, i: usize) -> Result<Value, AllocError> {
        self.operand.value(self.alloc, i)
    }

    fn add(&self, entry: &mut Value, i: usize) -> Result<(), GroupFault> {
        let cell = self.operand.get(i);
        if self.end.is_cell_beyond(cell, entry) {
            entry.set(self.alloc, cell)?;
        }
        Ok(())
    }
}

// Adds a number to a sum.
#[inline(always)]
fn add_number(sum: &mut WideSum, number: i64) -> Result<(), GroupFault>
    ensures total { OnOk result (sum.new.total ≡ sum.old.total +ℤ number) }
    ensures taken { OnOk result (sum.new.taken ≡ sum.old.taken + 1) }
    ensures err { IfErr result (λ e. StepBlame e sum.old.taken) }
{
    if sum.add(number).is_err() {
        return Err(GroupFault::TooMany);
    }
    Ok(())
}

/// The sum of the numbers of a column.
#[derive(Clone, Copy)]
pub(crate) struct SumOfNumbers<'a> {
    pub operand: NumberOperand<'a>,
}

impl Fold for SumOfNumbers<'_> {
    ghost use Rattle.vx_rows_values.specs.Values.{num};
    ghost use Rattle.vx_plan_nodes.specs.Plan.{sum};

    type Entry = WideSum;

    ghost rows = { λ f. f.operand.chunk.now.rows };

    ghost aggregate = { λ f. sum f.operand.column };

    ghost value = { λ s. num s.total };

    ghost taken = { λ s. s.taken };

    #[inline(always)]
    fn first(&self, i: usize) -> Result<WideSum, AllocError> {
        Ok(WideSum::of(self.operand.get(i)))
    }

    #[inline(always)]
    fn add(&self, entry: &mut WideSum, i: usize) -> Result<(), GroupFault> {
        add_number(entry, self.operand.get(i))
    }
}

/// The sum of the values of a column, a text being 0.
#[derive(Clone, Copy)]
pub(crate) struct SumOfValues<'a> {
    pub operand: CellOperand<'a>,
}

impl Fold for SumOfValues<'_> {
    ghost use Rattle.vx_rows_values.specs.Values.{num};
    ghost use Rattle.vx_plan_nodes.specs.Plan.{sum};

    type Entry = WideSum;

    ghost rows = { λ f. f.operand.chunk.now.rows };

    ghost aggregate = { λ f. sum f.operand.column };

    ghost value = { λ s. num s.total };

    ghost taken = { λ s. s.taken };

    fn first(&self, i: usize) -> Result<WideSum, AllocError> {
        Ok(WideSum::of(self.operand.number(i)))
    }

    fn add(&self, entry: &mut WideSum, i: usize) -> Result<(), GroupFault> {
        add_number(entry, self.operand.number(i))
    }
}

/// How many rows there are.
#[derive(Clone, Copy)]
pub(crate) struct Count<'a> {
    pub chunk: &'a Chunk,
}

impl Fold for Count<'_> {
    ghost use Rattle.std.specs.Prelude.{pos};
    ghost use Rattle.vx_rows_values.specs.Values.{num};
    ghost use Rattle.vx_plan_nodes.specs.Plan.{count_rows};

    type Entry = u64;

    ghost rows = { λ f. f.chunk.now.rows };

    ghost aggregate = { λ _. count_rows };

    ghost value = { λ n. num (pos n) };

    ghost taken = { λ n. n };

    #[inline(always)]
    fn first(&self, _i: usize) -> Result<u64, AllocError> {
        Ok(1)
    }

    #[inline(always)]
    fn add(&self, entry: &mut u64, _i: usize) -> Result<(), GroupFault> {
        if *entry >= 1 << 62 {
            return Err(GroupFault::TooMany);
        }
        *entry += 1;
        Ok(())
    }
}
