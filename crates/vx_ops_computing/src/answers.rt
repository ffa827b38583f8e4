//! Functions that are applied row by row.

use std::alloc::{AllocError, Global};
use vx_functions::StandardFunction;
use vx_plan_nodes::PlanFunctions;
use vx_rows_values::{Cell, Value};

/// One function of values.
pub trait Answers {
    ghost use Rattle.std.specs.Prelude.{◌≡◌, List, Option, map, option_map, IfOk};
    ghost use Rattle.vx_rows_values.specs.Values.{Val};
    ghost use Rattle.vx_rows_values.specs.ValueView.{val_of, cell_val};

    ghost says: { Self → List Val → Option Val };

    /// What it answers of these values. `None` is an overflow.
    fn answer(&self, alloc: Global, values: &[Cell<'_>]) -> Result<Option<Value>, AllocError>
        ensures { IfOk result (λ o. option_map val_of o ≡ says self.now (map cell_val values.now)) };
}

impl Answers for StandardFunction {
    ghost use Rattle.vx_functions.specs.Standard.{meaning};

    ghost says = { meaning };

    fn answer(&self, alloc: Global, values: &[Cell<'_>]) -> Result<Option<Value>, AllocError> {
        self.apply(alloc, values)
    }
}

/// The function of a name among those that are given.
#[derive(Clone, Copy)]
pub struct Named<'f, F> {
    pub functions: &'f F,
    pub name: &'f str,
}

impl<F: PlanFunctions> Answers for Named<'_, F> {
    ghost use Rattle.vx_plan_nodes.specs.Functions.{given_for};

    ghost says = { λ s. (given_for (F.functions s.functions.now) s.name.now).answer };

    fn answer(&self, alloc: Global, values: &[Cell<'_>]) -> Result<Option<Value>, AllocError> {
        self.functions.apply(alloc, self.name, values)
    }
}
