//! Kernels that join the rows of their left input with a build side, which is all of their right input.

use std::alloc::AllocError;
use vx_rows_views::Rows;

/// Calls: `build* finish_build probe*`, and none after an `Err`.
///
/// What a join computes that reads one of its inputs whole before the other (the build and the probe side of DeWitt's
/// hash join): `Probing` makes a source of it.
pub trait ProbeKernel: Drop {
    ghost use Rattle.std.specs.Prelude.{◌≡◌, ◌<◌, ◌≤◌, ◌+◌, ◌*◌, ◌++◌, ℕ, List, [], length, IfOk, OnOk};
    ghost use Rattle.vx_rows_values.specs.Values.{Row};
    ghost use Rattle.vx_plan_nodes.specs.Plan.{Binary};
    ghost use Rattle.vx_plan_nodes.specs.Serial.{binary_rows};
    ghost use Rattle.vx_ops.specs.Turn.{Shape};
    ghost use Rattle.vx_ops.specs.ProbeKernel.{IsProbed};

    // The operator.
    ghost binary: { Self → Binary };

    // The types of the rows of its inputs and of its output.
    ghost types: { Self → Shape };

    // That these rows of the right input were read, and no others.
    ghost HasRead: { Self → List Row → Type 0 };

    // That the build side is ready, and is these rows.
    ghost HasBuilt: { Self → List Row → Type 0 };

    // The most rows that it makes of one left row, if so many right rows may still come.
    ghost each: { Self → ℕ → ℕ };

    /// Reads a further batch of the right input.
    fn build(&mut self, batch: Rows) -> Result<(), AllocError>
        requires typed { batch.types ≡ (types self.old).right }
        ensures read { OnOk result ((rs : List Row) → HasRead self.old rs → HasRead self.new (rs ++ batch.rows)) }
        ensures held { OnOk result ((n : ℕ) → each self.new n ≤ each self.old (n + length batch.rows)) }
        ensures binary { binary self.new ≡ binary self.old }
        ensures types { types self.new ≡ types self.old };

    /// Makes the build side ready, of all that was read.
    fn finish_build(&mut self) -> Result<(), AllocError>
        ensures built { OnOk result ((rs : List Row) → HasRead self.old rs → HasBuilt self.new rs) }
        ensures held { OnOk result ((n : ℕ) → each self.new n ≤ each self.old n) }
        ensures binary { binary self.new ≡ binary self.old }
        ensures types { types self.new ≡ types self.old };

    /// Joins the first rows of a batch of the left input, as many as make a batch of joined rows that is large enough.
    /// Returns the joined rows, and the rest of the batch.
    fn probe(&mut self, batch: Rows) -> Result<(Rows, Rows), AllocError>
        requires typed { batch.types ≡ (types self.old).left }
        ensures probed { IfOk result (λ p. (rs : List Row) → HasBuilt self.old rs → IsProbed (binary self.old) rs batch.rows p.0.rows p.1.rows) }
        ensures fewer { IfOk result (λ p. 0 < length batch.rows → length p.1.rows < length batch.rows) }
        ensures joins { IfOk result (λ p. (n : ℕ) → length p.0.rows + length p.1.rows * each self.old n ≤ length batch.rows * each self.old n) }
        ensures built { OnOk result ((rs : List Row) → HasBuilt self.old rs → HasBuilt self.new rs) }
        ensures held { OnOk result ((n : ℕ) → each self.new n ≤ each self.old n) }
        ensures joined_typed { IfOk result (λ p. p.0.types ≡ (types self.old).out) }
        ensures rest_typed { IfOk result (λ p. p.1.types ≡ (types self.old).left) }
        ensures binary { binary self.new ≡ binary self.old }
        ensures types { types self.new ≡ types self.old };

    // Of no left rows the operator makes none.
    ghost empty: { (s : Self) (rs : List Row) → binary_rows (binary s) [] rs ≡ [] };

    // What it makes of left rows does not depend on those before them.
    ghost parts: { (s : Self) (xs ys rs : List Row) → binary_rows (binary s) (xs ++ ys) rs ≡ binary_rows (binary s) xs rs ++ binary_rows (binary s) ys rs };

    // Where fewer right rows may still come, it makes no more of a left row.
    ghost each_grows: { (s : Self) (m n : ℕ) → m ≤ n → each s m ≤ each s n };
}
