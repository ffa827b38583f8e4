//! Kernels that read all of their input before they make any row.

use std::alloc::AllocError;
use vx_rows_views::Rows;

/// Why a kernel makes nothing of its whole input.
#[derive(Clone, Copy)]
pub enum FinishFault {
    /// A sum or a count outside 64 signed bits, or more than 2^62 rows.
    Overflow,
    /// Out of memory.
    NoMemory,
}

/// Calls: `take* finish`, and none after an `Err`.
///
/// What an operator of one input computes of its whole input: `Collecting` makes a source of it.
pub trait CollectingKernel: Drop {
    ghost use Rattle.std.specs.Prelude.{◌≡◌, ◌≤◌, ◌+◌, ◌++◌, ℕ, List, [], length, Some, IfOk, OnOk, IfErr};
    ghost use Rattle.vx_rows_values.specs.Values.{Row};
    ghost use Rattle.vx_plan_nodes.specs.Plan.{Unary};
    ghost use Rattle.vx_plan_nodes.specs.Serial.{unary_rows};
    ghost use Rattle.vx_ops.specs.Turn.{Shape};
    ghost use Rattle.vx_ops.specs.CollectingKernel.{FinishBlame};

    // The operator.
    ghost unary: { Self → Unary };

    // The types of the rows of its input and of its output.
    ghost types: { Self → Shape };

    // That the kernel has read these rows, and no others.
    ghost HasRead: { Self → List Row → Type 0 };

    // The most rows that it makes of what it has read: each row that it reads adds one at most.
    ghost held: { Self → ℕ };

    /// Reads a further batch of the input.
    fn take(&mut self, batch: Rows) -> Result<(), AllocError>
        requires typed { batch.types ≡ (types self.old).left }
        ensures read { OnOk result ((xs : List Row) → HasRead self.old xs → HasRead self.new (xs ++ batch.rows)) }
        ensures held { OnOk result (held self.new ≤ held self.old + length batch.rows) }
        ensures unary { unary self.new ≡ unary self.old }
        ensures types { types self.new ≡ types self.old };

    /// The output rows: what the operator makes of all that was read, by its serial meaning.
    fn finish(&mut self) -> Result<Rows, FinishFault>
        ensures rows { IfOk result (λ r. (xs : List Row) → HasRead self.old xs → unary_rows (unary self.old) xs ≡ Some r.rows) }
        ensures fewer { IfOk result (λ r. length r.rows ≤ held self.old) }
        ensures typed { IfOk result (λ r. r.types ≡ (types self.old).out) }
        ensures err { IfErr result (λ e. (xs : List Row) → HasRead self.old xs → FinishBlame (unary self.old) xs e) }
        ensures unary { unary self.new ≡ unary self.old }
        ensures types { types self.new ≡ types self.old };

    // Of no rows the operator makes none.
    ghost empty: { (s : Self) → unary_rows (unary s) [] ≡ Some [] };
}
