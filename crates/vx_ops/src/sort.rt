//! Sorting.

use crate::collecting::Collecting;
use crate::collecting_kernel::{CollectingKernel, FinishFault};
use std::alloc::{AllocError, Global};
use std::marker::Model;
use vx_ops_kernels::sorted_chunks;
use vx_plan_nodes::SortPhase;
use vx_rows_values::{ColType, OrderEntry};
use vx_rows_views::Rows;

/// Calls: `new (wants turn)*`.
///
/// Returns the rows of its input in an order, once the input has ended.
pub type Sort = Collecting<Sorting>;

/// The kernel of a sort.
pub struct Sorting {
    alloc: Global,
    phase: SortPhase,
    order: Vec<OrderEntry>,
    read: Rows,
}

impl Drop for Sorting {
    fn drop(self) {
        let Sorting {
            alloc: _,
            phase: _,
            order: _,
            read: _,
        } = self;
    }
}

impl Model for Sorting {
    ghost use Rattle.std.specs.Prelude.{length};
    ghost use Rattle.vx_rows_values.specs.Order.{order_columns};
    ghost use Rattle.vx_rows.specs.View.{AreColumns};
    ghost use Rattle.vx_plan_nodes.specs.Outline.{is_of_parts};
    ghost use Rattle.vx_ops.specs.Sorting.{SortingView};

    ghost Value = { SortingView };

    ghost view = { λ s. record { of_parts = is_of_parts s.phase; order = s.order.items; table = s.read } };

    ghost invariant = { λ s. AreColumns (length s.read.types) (order_columns s.order.items) };
}

impl Collecting<Sorting> {
    ghost use Rattle.std.specs.Prelude.{◌≡◌, length, IfOk};
    ghost use Rattle.vx_rows_values.specs.Order.{order_columns};
    ghost use Rattle.vx_rows.specs.View.{AreColumns};
    ghost use Rattle.vx_plan_nodes.specs.Plan.{sort};
    ghost use Rattle.vx_plan_nodes.specs.Outline.{is_of_parts};
    ghost use Rattle.vx_ops.specs.Ledger.{one_op};
    ghost use Rattle.vx_ops.specs.Turn.{fresh_ledger};
    ghost use Rattle.vx_ops.specs.Sort.{SortStands, sort_op, sort_types, sort_meaning};
    ghost use Rattle.vx_ops.specs.Starts.{Starts};

    /// A sort of whole rows, or of parts of groups, in this order of rows of these types, at the node with this number, to which nothing came.
    pub fn new(
        alloc: Global,
        node: u32,
        phase: SortPhase,
        order: Vec<OrderEntry>,
        types: &[ColType],
    ) -> Result<Sort, AllocError>
        requires { AreColumns (length types.now) (order_columns order.items) }
        ensures stands { IfOk result (λ s. SortStands s fresh_ledger) }
        ensures op { IfOk result (λ s. sort_op s ≡ one_op node (sort (is_of_parts phase) order.items)) }
        ensures types { IfOk result (λ s. sort_types s ≡ record { left = types.now; right = types.now; out = types.now }) }
        ensures starts { IfOk result (λ s. Starts (sort_meaning s)) }
    {
        let read = Rows::new(alloc, types)?;
        let kernel = Sorting {
            alloc,
            phase,
            order,
            read,
        };
        Ok(Collecting::with_kernel(node, kernel))
    }
}

impl CollectingKernel for Sorting {
    ghost use Rattle.std.specs.Prelude.{refl};
    ghost use Rattle.vx_ops.specs.Sorting.{sorting, sorting_types, SortingHasRead, sorting_held};

    ghost unary = { sorting };

    ghost types = { sorting_types };

    ghost HasRead = { SortingHasRead };

    ghost held = { sorting_held };

    ghost empty = { λ s. refl };

    fn take(&mut self, batch: Rows) -> Result<(), AllocError> {
        self.read.append(batch)
    }

    fn finish(&mut self) -> Result<Rows, FinishFault> {
        match sorted_chunks(self.alloc, &self.read, self.order.as_slice()) {
            Ok(rows) => Ok(rows),
            Err(_) => Err(FinishFault::NoMemory),
        }
    }
}
