//! Distinct rows, a batch at a time.

use std::alloc::{AllocError, Global};
use std::marker::Model;
use vx_match_keys::Seen;
use vx_ops::{StepFault, StepKernel, Stepping};
use vx_rows_values::{ColType, KeySeed};
use vx_rows_views::Rows;

/// Calls: `FirstRows::source (wants turn)*`.
///
/// Returns some columns of the rows of its input, each row that these make once: where it comes first.
///
/// It keeps each row that it has returned, so its memory grows with their number.
pub type Distinct = Stepping<FirstRows>;

/// The kernel of a distinct. The cells of the rows that it returns are copied once, to know them again.
pub struct FirstRows {
    columns: Vec<usize>,
    types: Vec<ColType>,
    seen: Seen,
}

impl Drop for FirstRows {
    fn drop(self) {
        let FirstRows {
            columns: _,
            types: _,
            seen: _,
        } = self;
    }
}

impl Model for FirstRows {
    ghost use Rattle.std.specs.Prelude.{length};
    ghost use Rattle.vx_rows.specs.View.{AreColumns};
    ghost use Rattle.vx_match.specs.FirstRows.{FirstRowsView};

    ghost Value = { FirstRowsView };

    ghost view = { λ s. record { columns = s.columns.items; types = s.types.items; seen = s.seen } };

    ghost invariant = { λ s. AreColumns (length s.types.items) s.columns.items };
}

impl FirstRows {
    ghost use Rattle.std.specs.Prelude.{◌≡◌, length, map, IfOk};
    ghost use Rattle.vx_rows_values.specs.Types.{type_at};
    ghost use Rattle.vx_rows.specs.View.{AreColumns};
    ghost use Rattle.vx_plan_nodes.specs.Plan.{distinct};
    ghost use Rattle.vx_ops.specs.Ledger.{one_op};
    ghost use Rattle.vx_ops.specs.Turn.{fresh_ledger};
    ghost use Rattle.vx_ops.specs.Starts.{Starts};
    ghost use Rattle.vx_match.specs.Distinct.{DistinctStands, distinct_op, distinct_types, distinct_meaning};

    /// A distinct on these columns of rows of these types, in this order, at the node with this number, to which nothing came.
    /// Keys are hashed by the seed.
    pub fn source(
        alloc: Global,
        seed: KeySeed,
        node: u32,
        columns: Vec<usize>,
        types: &[ColType],
    ) -> Result<Distinct, AllocError>
        requires { AreColumns (length types.now) columns.items }
        ensures stands { IfOk result (λ s. DistinctStands s fresh_ledger) }
        ensures op { IfOk result (λ s. distinct_op s ≡ one_op node (distinct columns.items)) }
        ensures types { IfOk result (λ s. distinct_types s ≡ record { left = types.now; right = types.now; out = map (type_at types.now) columns.items }) }
        ensures starts { IfOk result (λ s. Starts (distinct_meaning s)) }
    {
        let types = Vec::from_slice(alloc, types)?;
        let kernel = FirstRows {
            columns,
            types,
            seen: Seen::new(alloc, seed),
        };
        Ok(Stepping::with_kernel(node, kernel))
    }
}

impl StepKernel for FirstRows {
    ghost use Rattle.std.proofs.Common.{ap, sym, ◌∙◌};
    ghost use Rattle.std.specs.Prelude.{Some};
    ghost use Rattle.vx_match.specs.FirstRows.{first_rows, first_rows_types, HasReturned};

    ghost unary = { first_rows };

    ghost types = { first_rows_types };

    ghost HasMade = { HasReturned };

    ghost serial = { λ s xs ys made. ap Some (sym made.1 ∙ made.0) };

    ghost at_once = { λ s n l. tt };

    fn step(&mut self, batch: Rows) -> Result<Rows, StepFault> {
        Ok(self.seen.keep_new(&batch, self.columns.as_slice())?)
    }
}
