//! The functions that plans name.

use std::alloc::{AllocError, Global};
use vx_functions::StandardFunction;
use vx_rows_values::{Cell, ColType, Value};

/// The functions that plans may name: any that depend on the name and the values alone, and answer what their signatures say.
pub trait PlanFunctions {
    ghost use Rattle.std.specs.Prelude.{◌≡◌, List, map, option_map, IfOk, IfSome};
    ghost use Rattle.vx_rows_values.specs.Values.{Val};
    ghost use Rattle.vx_rows_values.specs.ValueView.{val_of, cell_val};
    ghost use Rattle.vx_functions.specs.Standard.{meaning};
    ghost use Rattle.vx_plan_nodes.specs.Functions.{Functions, AnswersAreTyped};

    // The function of each name.
    ghost functions: { Self → Functions };

    /// The type of what the function of this name answers of values of these types. `None` if there is no such function, or it takes no such values.
    fn signature(&self, name: &str, types: &[ColType]) -> Option<ColType>
        ensures { result ≡ (functions self.now name.now).signature types.now };

    /// What the function of this name answers of these values. `None` if it overflows.
    fn apply(
        &self,
        alloc: Global,
        name: &str,
        values: &[Cell<'_>],
    ) -> Result<Option<Value>, AllocError>
        ensures { IfOk result (λ o. option_map val_of o ≡ (functions self.now name.now).answer (map cell_val values.now)) };

    /// The standard function that the function of this name is, if it is one: a run applies that to whole columns, and any other function row by row.
    fn standard(&self, _name: &str) -> Option<StandardFunction>
        ensures { IfSome result (λ f. (values : List Val) → (functions self.now _name.now).answer values ≡ meaning f values) }
    {
        None
    }

    // Answers have the types that the signatures say.
    ghost typed: { (f : Self) → AnswersAreTyped (functions f) };
}

/// The standard functions, by their names.
#[derive(Clone, Copy)]
pub struct StandardFunctions;

impl PlanFunctions for StandardFunctions {
    ghost use Rattle.vx_plan_nodes.specs.Outline.{function_of};
    ghost use Rattle.vx_plan_nodes.specs.OwnFunctions.{own-typed};

    ghost functions = { λ _. function_of };

    ghost typed = { λ _. own-typed };

    fn signature(&self, name: &str, types: &[ColType]) -> Option<ColType> {
        match StandardFunction::named(name) {
            Some(function) => function.signature(types),
            None => None,
        }
    }

    fn apply(
        &self,
        alloc: Global,
        name: &str,
        values: &[Cell<'_>],
    ) -> Result<Option<Value>, AllocError> {
        match StandardFunction::named(name) {
            Some(function) => function.apply(alloc, values),
            None => Ok(None),
        }
    }

    fn standard(&self, name: &str) -> Option<StandardFunction> {
        StandardFunction::named(name)
    }
}
