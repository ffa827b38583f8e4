//! Kernels that return rows for each batch of their input.

use std::alloc::AllocError;
use vx_rows_views::Rows;

/// Why a kernel returns no rows for a batch.
#[derive(Clone, Copy)]
pub enum StepFault {
    /// A function overflows for some row.
    Overflow,
    /// Out of memory.
    NoMemory,
}

impl From<AllocError> for StepFault {
    ghost use Rattle.std.specs.Prelude.{◌≡◌};
    ghost use Rattle.vx_ops.specs.declared.step_kernel.StepFault.TheVariants.{NoMemory};

    ghost from_gives = { λ _ e. e ≡ NoMemory };

    fn from(_e: AllocError) -> StepFault {
        StepFault::NoMemory
    }
}

/// Calls: `step*`, and none after an `Err`.
///
/// What an operator of one input computes, a batch at a time: `Stepping` makes a source of it.
pub trait StepKernel: Drop {
    ghost use Rattle.std.specs.Prelude.{ℕ, ◌≡◌, ◌≤◌, ◌++◌, List, length, Some, IfOk, IfErr};
    ghost use Rattle.vx_rows_values.specs.Values.{Row};
    ghost use Rattle.vx_plan_nodes.specs.Plan.{Unary};
    ghost use Rattle.vx_plan_nodes.specs.Serial.{unary_rows};
    ghost use Rattle.vx_ops.specs.Ledger.{Ledger, one_op, HoldsBack};
    ghost use Rattle.vx_ops.specs.StepKernel.{StepBlame};
    ghost use Rattle.vx_ops.specs.Turn.{Shape};

    // The operator.
    ghost unary: { Self → Unary };

    // The types of the rows of its input and of its output.
    ghost types: { Self → Shape };

    // That the kernel has read the first rows, and has returned the second for them.
    ghost HasMade: { Self → List Row → List Row → Type 0 };

    /// The output rows that a further batch of the input adds: no more than the batch has.
    fn step(&mut self, batch: Rows) -> Result<Rows, StepFault>
        requires typed { batch.types ≡ (types self.old).left }
        ensures made { IfOk result (λ r. (xs ys : List Row) → HasMade self.old xs ys → HasMade self.new (xs ++ batch.rows) (ys ++ r.rows)) }
        ensures fewer { IfOk result (λ r. length r.rows ≤ length batch.rows) }
        ensures typed { IfOk result (λ r. r.types ≡ (types self.old).out) }
        ensures blame { IfErr result (λ e. (xs ys : List Row) → HasMade self.old xs ys → StepBlame (unary self.old) (xs ++ batch.rows) e) }
        ensures unary { unary self.new ≡ unary self.old }
        ensures types { types self.new ≡ types self.old };

    // All that it returned is what the operator makes of all that it read, by its serial meaning.
    ghost serial: { (s : Self) (xs ys : List Row) → HasMade s xs ys → unary_rows (unary s) xs ≡ Some ys };

    // The operator is none that has to hold its rows back until its input has ended.
    ghost at_once: { (s : Self) (n : ℕ) (l : Ledger) → HoldsBack (one_op n (unary s)) l };
}
