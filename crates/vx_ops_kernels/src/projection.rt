//! Some of the columns of rows, and their types.

ghost use Rattle.std.specs.Prelude.{◌≡◌, length, map, IfOk};
ghost use Rattle.vx_rows_values.specs.Types.{type_at};
ghost use Rattle.vx_rows.specs.View.{AreColumns};

use std::alloc::{AllocError, Global};
use vx_plan_nodes::Projected;
use vx_rows_values::ColType;

/// The types of these columns.
pub fn types_at(
    alloc: Global,
    types: &[ColType],
    columns: &[usize],
) -> Result<Vec<ColType>, AllocError>
    requires { AreColumns (length types.now) columns.now }
    ensures { IfOk result (λ v. v.items ≡ map (type_at types.now) columns.now) }
{
    let mut found = Vec::new(alloc);
    for column in columns {
        found.push(types[*column])?;
    }
    Ok(found)
}

/// The columns that a projection or a distinct keeps, without their names.
pub fn kept_columns(alloc: Global, kept: &[Projected]) -> Result<Vec<usize>, AllocError>
    ensures { IfOk result (λ v. v.items ≡ map (λ k. k.column) kept.now) }
{
    kept.iter().map(|kept| kept.column).collect(alloc)
}
