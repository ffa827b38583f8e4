//! Projection, a batch at a time.

ghost use Rattle.std.specs.Prelude.{◌≡◌, true, map};
ghost use Rattle.vx_plan_nodes.specs.Known.{unary_known};
ghost use Rattle.vx_plan_nodes.specs.Outline.{entry_of};
ghost use Rattle.vx_plan_nodes.specs.Plan.{project};
ghost use Rattle.vx_plan_nodes.specs.Typed.{is_unary};
ghost use Rattle.vx_plan_nodes.specs.Under.{unary_under};

use crate::step_kernel::{StepFault, StepKernel};
use crate::stepping::Stepping;
use std::alloc::{AllocError, Global};
use vx_ops_computing::{ComputeFault, projected};
use vx_plan_nodes::{Entry, PlanFunctions};
use vx_rows_values::ColType;
use vx_rows_views::Rows;

/// Calls: `new (wants turn)*`.
///
/// Returns some columns of each row of its input, and what functions answer of it. Rows that become alike stay as many as they were.
pub type Project<F> = Stepping<Projection<F>>;

/// The kernel of a projection. No cell of a column that is kept is copied.
pub struct Projection<F: PlanFunctions + Copy> {
    alloc: Global,
    functions: F,
    entries: Vec<Entry>,
    types: Vec<ColType>,
    ghost typed: { is_unary types.items (project (map entry_of entries.items)) ≡ true },
    ghost known: { unary_known types.items (unary_under (F.functions functions) (project (map entry_of entries.items))) ≡ true },
}

impl<F: PlanFunctions + Copy> Drop for Projection<F> {
    fn drop(self) {
        let Projection {
            alloc: _,
            functions: _,
            entries: _,
            types: _,
        } = self;
    }
}

impl<F: PlanFunctions + Copy> Stepping<Projection<F>> {
    ghost use Rattle.std.specs.Prelude.{IfOk};
    ghost use Rattle.vx_plan_nodes.specs.Types.{unary_types};
    ghost use Rattle.vx_ops.specs.Ledger.{one_op};
    ghost use Rattle.vx_ops.specs.Turn.{fresh_ledger};
    ghost use Rattle.vx_ops.specs.Project.{ProjectStands, project_op, project_types, project_meaning};
    ghost use Rattle.vx_ops.specs.Starts.{Starts};

    /// A projection on these columns of rows of these types, in this order, at the node with this number, to which nothing came. `functions`
    /// has those of the columns that are computed.
    pub fn new(
        alloc: Global,
        node: u32,
        functions: F,
        entries: Vec<Entry>,
        types: &[ColType],
    ) -> Result<Project<F>, AllocError>
        requires typed { is_unary types.now (project (map entry_of entries.items)) ≡ true }
        requires known { unary_known types.now (unary_under (F.functions functions) (project (map entry_of entries.items))) ≡ true }
        ensures stands { IfOk result (λ s. ProjectStands F.PlanFunctions s fresh_ledger) }
        ensures op { IfOk result (λ s. project_op F.PlanFunctions s ≡ one_op node (unary_under (F.functions functions) (project (map entry_of entries.items)))) }
        ensures types { IfOk result (λ s. project_types F.PlanFunctions s ≡ record { left = types.now; right = types.now; out = unary_types (project (map entry_of entries.items)) types.now }) }
        ensures starts { IfOk result (λ s. Starts (project_meaning F.PlanFunctions s)) }
    {
        let types = Vec::from_slice(alloc, types)?;
        let kernel = Projection {
            alloc,
            functions,
            entries,
            types,
        };
        Ok(Stepping::with_kernel(node, kernel))
    }
}

impl<F: PlanFunctions + Copy> StepKernel for Projection<F> {
    ghost use Rattle.vx_ops.specs.Projection.{projection, projection_types, HasProjected};

    ghost unary = { projection F.PlanFunctions };

    ghost types = { projection_types F.PlanFunctions };

    ghost HasMade = { HasProjected F.PlanFunctions };

    ghost serial = { λ s xs ys made. made };

    ghost at_once = { λ s n l. tt };

    fn step(&mut self, batch: Rows) -> Result<Rows, StepFault> {
        match projected(self.alloc, &self.functions, &batch, self.entries.as_slice()) {
            Ok(rows) => Ok(rows),
            Err(ComputeFault::Overflow) => Err(StepFault::Overflow),
            Err(ComputeFault::NoMemory) => Err(StepFault::NoMemory),
        }
    }
}
