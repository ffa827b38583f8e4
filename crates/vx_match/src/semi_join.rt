//! Semi and anti joins, a batch at a time.

ghost use Rattle.std.specs.Prelude.{◌≡◌, ℕ, length, map, IfOk};

use std::alloc::{AllocError, Global};
use std::marker::Model;
use vx_match_join::{MatchBuild, Matching};
use vx_ops::{ProbeKernel, Probing};
use vx_rows_values::{ColType, KeySeed};
use vx_rows_views::Rows;

/// Calls: `(wants turn)*`.
///
/// Returns the rows of its left input, in order, that some row of its right input matches, or those that none does: a row matches
/// that agrees on pairs of columns, if the conditions hold of both rows side by side. `SemiJoining::source` makes it.
pub type SemiJoin = Probing<SemiJoining>;

/// The kernel of a semi or an anti join. No cell of a left row is copied.
pub struct SemiJoining {
    alloc: Global,
    left: Vec<ColType>,
    build: MatchBuild,
}

impl Drop for SemiJoining {
    fn drop(self) {
        let SemiJoining {
            alloc: _,
            left: _,
            build: _,
        } = self;
    }
}

impl Model for SemiJoining {
    ghost use Rattle.vx_match.specs.SemiJoining.{SemiJoiningView, IsSemiJoining};

    ghost Value = { SemiJoiningView };

    ghost view = { λ s. record { left = s.left.items; build = s.build } };

    ghost invariant = { λ s. IsSemiJoining s.left.items s.build };
}

impl SemiJoining {
    ghost use Rattle.vx_rows.specs.View.{AreColumns};
    ghost use Rattle.vx_match_join.specs.Matching.{op_of_matching};
    ghost use Rattle.vx_ops.specs.Ledger.{two_op};
    ghost use Rattle.vx_ops.specs.Turn.{fresh_ledger};
    ghost use Rattle.vx_ops.specs.Starts.{Starts};
    ghost use Rattle.vx_match.specs.SemiJoin.{SemiJoinStands, semi_join_op, semi_join_types, semi_join_meaning};

    /// A semi or an anti join of rows of these types, at the node with this number, to which nothing came. Keys are hashed by the
    /// seed.
    pub fn source(
        alloc: Global,
        seed: KeySeed,
        node: u32,
        matching: Matching,
        left: &[ColType],
        right: &[ColType],
    ) -> Result<SemiJoin, AllocError>
        requires left { AreColumns (length left.now) (map (λ (p : ℕ × ℕ). p.0) matching.on.items) }
        requires right { AreColumns (length right.now) (map (λ (p : ℕ × ℕ). p.1) matching.on.items) }
        ensures stands { IfOk result (λ s. SemiJoinStands s fresh_ledger) }
        ensures op { IfOk result (λ s. semi_join_op s ≡ two_op node (op_of_matching matching)) }
        ensures types { IfOk result (λ s. semi_join_types s ≡ record { left = left.now; right = right.now; out = left.now }) }
        ensures starts { IfOk result (λ s. Starts (semi_join_meaning s)) }
    {
        let left = Vec::from_slice(alloc, left)?;
        let build = MatchBuild::of(alloc, seed, matching, right)?;
        let kernel = SemiJoining { alloc, left, build };
        Ok(Probing::with_kernel(node, kernel))
    }
}

impl ProbeKernel for SemiJoining {
    ghost use Rattle.std.specs.Prelude.{refl};
    ghost use Rattle.std.proofs.Common.{le_refl};
    ghost use Rattle.vx_match.specs.SemiJoining.{semi_joining, semi_joining_types, SemiJoiningHasRead, SemiJoiningHasBuilt, semi_joining_each, matched-empty, matched-parts};

    ghost binary = { semi_joining };

    ghost types = { semi_joining_types };

    ghost HasRead = { SemiJoiningHasRead };

    ghost HasBuilt = { SemiJoiningHasBuilt };

    ghost each = { semi_joining_each };

    ghost empty = { λ s rs. matched-empty s.build.matched s.build.on s.build.conditions rs };

    ghost parts = { λ s xs ys rs. matched-parts s.build.matched s.build.on s.build.conditions xs ys rs };

    ghost each_grows = { λ s m n h. le_refl 1 };

    fn build(&mut self, batch: Rows) -> Result<(), AllocError> {
        self.build.add(batch)
    }

    fn finish_build(&mut self) -> Result<(), AllocError> {
        self.build.finish()
    }

    fn probe(&mut self, batch: Rows) -> Result<(Rows, Rows), AllocError> {
        let count = batch.len();
        let kept = self.build.probe(&batch)?;
        let rest = batch.slice(self.alloc, count, count)?;
        Ok((kept, rest))
    }
}
