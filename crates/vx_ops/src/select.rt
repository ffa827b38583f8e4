//! Selection, a batch at a time.

ghost use Rattle.std.specs.Prelude.{◌≡◌, true, map};
ghost use Rattle.vx_plan_nodes.specs.Known.{unary_known};
ghost use Rattle.vx_plan_nodes.specs.Outline.{filter_of};
ghost use Rattle.vx_plan_nodes.specs.Plan.{select};
ghost use Rattle.vx_plan_nodes.specs.Under.{unary_under};

use crate::step_kernel::{StepFault, StepKernel};
use crate::stepping::Stepping;
use std::alloc::Global;
use vx_ops_computing::{ComputeFault, filtered};
use vx_plan_nodes::{Filter, PlanFunctions};
use vx_rows_values::ColType;
use vx_rows_views::Rows;

/// Calls: `new (wants turn)*`.
///
/// Returns the rows of its input for which all conditions hold.
pub type Select<F> = Stepping<Selection<F>>;

/// The kernel of a selection.
pub struct Selection<F: PlanFunctions + Copy> {
    alloc: Global,
    functions: F,
    filters: Vec<Filter>,
    types: Vec<ColType>,
    ghost known: { unary_known types.items (unary_under (F.functions functions) (select (map filter_of filters.items))) ≡ true },
}

impl<F: PlanFunctions + Copy> Drop for Selection<F> {
    fn drop(self) {
        let Selection {
            alloc: _,
            functions: _,
            filters: _,
            types: _,
        } = self;
    }
}

impl<F: PlanFunctions + Copy> Stepping<Selection<F>> {
    ghost use Rattle.vx_ops.specs.Ledger.{one_op};
    ghost use Rattle.vx_ops.specs.Turn.{fresh_ledger};
    ghost use Rattle.vx_ops.specs.Select.{SelectStands, select_op, select_types, select_meaning};
    ghost use Rattle.vx_ops.specs.Starts.{Starts};

    /// A selection over rows of these types at the node with this number, to which nothing came. `functions` has those of its conditions.
    pub fn new(
        alloc: Global,
        node: u32,
        functions: F,
        filters: Vec<Filter>,
        types: Vec<ColType>,
    ) -> Select<F>
        requires { unary_known types.items (unary_under (F.functions functions) (select (map filter_of filters.items))) ≡ true }
        ensures stands { SelectStands F.PlanFunctions result fresh_ledger }
        ensures op { select_op F.PlanFunctions result ≡ one_op node (unary_under (F.functions functions) (select (map filter_of filters.items))) }
        ensures types { select_types F.PlanFunctions result ≡ record { left = types.items; right = types.items; out = types.items } }
        ensures starts { Starts (select_meaning F.PlanFunctions result) }
    {
        let kernel = Selection {
            alloc,
            functions,
            filters,
            types,
        };
        Stepping::with_kernel(node, kernel)
    }
}

impl<F: PlanFunctions + Copy> StepKernel for Selection<F> {
    ghost use Rattle.vx_ops.specs.Selection.{selection, selection_types, HasSelected};

    ghost unary = { selection F.PlanFunctions };

    ghost types = { selection_types F.PlanFunctions };

    ghost HasMade = { HasSelected F.PlanFunctions };

    ghost serial = { λ s xs ys made. made };

    ghost at_once = { λ s n l. tt };

    fn step(&mut self, batch: Rows) -> Result<Rows, StepFault> {
        match filtered(self.alloc, &self.functions, &batch, self.filters.as_slice()) {
            Ok(rows) => Ok(rows),
            Err(ComputeFault::Overflow) => Err(StepFault::Overflow),
            Err(ComputeFault::NoMemory) => Err(StepFault::NoMemory),
        }
    }
}
