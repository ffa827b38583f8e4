//! The first rows, a batch at a time.

use crate::step_kernel::{StepFault, StepKernel};
use crate::stepping::Stepping;
use std::alloc::Global;
use vx_rows_values::ColType;
use vx_rows_views::Rows;

/// Calls: `new (wants turn)*`.
///
/// Returns the first rows of its input, so many, or all if there are fewer. It reads its input to the end.
pub type Limit = Stepping<Limiting>;

/// The kernel of a limit. No cell is copied.
pub struct Limiting {
    alloc: Global,
    rows: u32,
    missing: usize,
    types: Vec<ColType>,
}

impl Drop for Limiting {
    fn drop(self) {
        let Limiting {
            alloc: _,
            rows: _,
            missing: _,
            types: _,
        } = self;
    }
}

impl Stepping<Limiting> {
    ghost use Rattle.std.specs.Prelude.{◌≡◌};
    ghost use Rattle.vx_plan_nodes.specs.Plan.{limit};
    ghost use Rattle.vx_ops.specs.Ledger.{one_op};
    ghost use Rattle.vx_ops.specs.Turn.{fresh_ledger};
    ghost use Rattle.vx_ops.specs.Limit.{LimitStands, limit_op, limit_types, limit_meaning};
    ghost use Rattle.vx_ops.specs.Starts.{Starts};

    /// So many first rows, of these types, at the node with this number, to which nothing came.
    pub fn new(alloc: Global, node: u32, rows: u32, types: Vec<ColType>) -> Limit
        ensures stands { LimitStands result fresh_ledger }
        ensures op { limit_op result ≡ one_op node (limit rows) }
        ensures types { limit_types result ≡ record { left = types.items; right = types.items; out = types.items } }
        ensures starts { Starts (limit_meaning result) }
    {
        let kernel = Limiting {
            alloc,
            rows,
            missing: rows as usize,
            types,
        };
        Stepping::with_kernel(node, kernel)
    }
}

impl StepKernel for Limiting {
    ghost use Rattle.std.proofs.Common.{ap, sym};
    ghost use Rattle.std.specs.Prelude.{Some};
    ghost use Rattle.vx_ops.specs.Limit.{limiting, limiting_types, HasLimited};

    ghost unary = { limiting };

    ghost types = { limiting_types };

    ghost HasMade = { HasLimited };

    ghost serial = { λ s xs ys made. ap Some (sym made.rows) };

    ghost at_once = { λ s n l. tt };

    fn step(&mut self, batch: Rows) -> Result<Rows, StepFault> {
        let count = batch.len();
        if count <= self.missing {
            self.missing -= count;
            return Ok(batch);
        }
        let front = batch.slice(self.alloc, 0, self.missing)?;
        self.missing = 0;
        Ok(front)
    }
}
