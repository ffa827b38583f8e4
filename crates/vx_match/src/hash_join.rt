//! Hash joins, a batch at a time.

ghost use Rattle.std.specs.Prelude.{◌≡◌, ℕ, length, map, IfOk};

use std::alloc::{AllocError, Global};
use std::marker::Model;
use vx_match_join::Build;
use vx_ops::{ProbeKernel, Probing};
use vx_ops_kernels::{left_columns, right_columns};
use vx_rows_values::{ColType, KeySeed};
use vx_rows_views::Rows;

// As many joined rows make a batch.
const BATCH: usize = 65_536;

/// Calls: `(wants turn)*`.
///
/// Joins each row of its left input with the rows of its right input that agree with it on pairs of columns: in the order
/// of the left rows, and for one left row in the order of the right rows (DeWitt and others' hash join, in memory).
/// `HashJoining::source` makes it.
pub type HashJoin = Probing<HashJoining>;

/// The kernel of a hash join. Its right rows stay where they are, or are copied once, as `Build` says.
pub struct HashJoining {
    alloc: Global,
    seed: KeySeed,
    on: Vec<(usize, usize)>,
    left_columns: Vec<usize>,
    left: Vec<ColType>,
    read: Rows,
    build: Build,
}

impl Drop for HashJoining {
    fn drop(self) {
        let HashJoining {
            alloc: _,
            seed: _,
            on: _,
            left_columns: _,
            left: _,
            read: _,
            build: _,
        } = self;
    }
}

impl Model for HashJoining {
    ghost use Rattle.vx_match.specs.HashJoining.{HashJoiningView, IsHashJoining};

    ghost Value = { HashJoiningView };

    ghost view = { λ s. record { on = s.on.items; left = s.left.items; right = s.read.types; read = s.read.rows; built = s.build.rows } };

    ghost invariant = { λ s. IsHashJoining s.on.items s.left_columns.items s.left.items s.read.types s.build };
}

impl HashJoining {
    ghost use Rattle.std.specs.Prelude.{◌++◌, false};
    ghost use Rattle.vx_rows.specs.View.{AreColumns};
    ghost use Rattle.vx_plan_nodes.specs.Plan.{join, by_hashing};
    ghost use Rattle.vx_ops.specs.Ledger.{two_op};
    ghost use Rattle.vx_ops.specs.Turn.{fresh_ledger};
    ghost use Rattle.vx_ops.specs.Starts.{Starts};
    ghost use Rattle.vx_match.specs.HashJoin.{HashJoinStands, hash_join_op, hash_join_types, hash_join_meaning};

    /// A hash join on these pairs of a left and a right column, of rows of these types, at the node with this number, to
    /// which nothing came. Keys are hashed by the seed.
    pub fn source(
        alloc: Global,
        seed: KeySeed,
        node: u32,
        on: Vec<(usize, usize)>,
        left: &[ColType],
        right: &[ColType],
    ) -> Result<HashJoin, AllocError>
        requires left { AreColumns (length left.now) (map (λ (p : ℕ × ℕ). p.0) on.items) }
        requires right { AreColumns (length right.now) (map (λ (p : ℕ × ℕ). p.1) on.items) }
        ensures stands { IfOk result (λ s. HashJoinStands s fresh_ledger) }
        ensures op { IfOk result (λ s. hash_join_op s ≡ two_op node (join by_hashing on.items)) }
        ensures types { IfOk result (λ s. hash_join_types s ≡ record { left = left.now; right = right.now; out = left.now ++ right.now }) }
        ensures starts { IfOk result (λ s. Starts (hash_join_meaning s)) }
    {
        let left_columns = left_columns(alloc, on.as_slice())?;
        let right_columns = right_columns(alloc, on.as_slice())?;
        let left = Vec::from_slice(alloc, left)?;
        let read = Rows::new(alloc, right)?;
        let build = Build::of(alloc, seed, &read, right_columns)?;
        let kernel = HashJoining {
            alloc,
            seed,
            on,
            left_columns,
            left,
            read,
            build,
        };
        Ok(Probing::with_kernel(node, kernel))
    }
}

impl ProbeKernel for HashJoining {
    ghost use Rattle.std.specs.Prelude.{refl};
    ghost use Rattle.vx_match.specs.HashJoining.{hash_joining, hash_joining_types, HashJoiningHasRead, HashJoiningHasBuilt, hash_joining_each, hash-joining-grows};
    ghost use Rattle.std.proofs.lemmas.Grind.{flat_map-append};
    ghost use Rattle.vx_plan_nodes.specs.Serial.{joined_with};

    ghost binary = { hash_joining };

    ghost types = { hash_joining_types };

    ghost HasRead = { HashJoiningHasRead };

    ghost HasBuilt = { HashJoiningHasBuilt };

    ghost each = { hash_joining_each };

    ghost empty = { λ s rs. refl };

    ghost parts = { λ s xs ys rs. flat_map-append (joined_with s.on rs) xs ys };

    ghost each_grows = { hash-joining-grows };

    fn build(&mut self, batch: Rows) -> Result<(), AllocError> {
        self.read.append(batch)
    }

    fn finish_build(&mut self) -> Result<(), AllocError> {
        let columns = right_columns(self.alloc, self.on.as_slice())?;
        self.build = Build::of(self.alloc, self.seed, &self.read, columns)?;
        self.read.clear();
        Ok(())
    }

    fn probe(&mut self, batch: Rows) -> Result<(Rows, Rows), AllocError> {
        self.build.probe(batch, self.left_columns.as_slice(), BATCH)
    }
}
