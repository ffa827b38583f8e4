//! Ranges by which rows are routed.

ghost use Rattle.std.specs.Prelude.{◌≡◌, map, IfOk};
ghost use Rattle.vx_rows_values.specs.Ranges.{range_form};

use crate::value::{Value, copied_values};
use std::alloc::{AllocError, Global};

/// A declared range: a route by its bounds goes up by one at each bound that is not above the value.
#[derive(Drop)]
pub struct NamedRange {
    pub name: String,
    pub bounds: Vec<Value>,
}

fn copied_range(alloc: Global, range: &NamedRange) -> Result<NamedRange, AllocError>
    ensures { IfOk result (λ r. range_form r ≡ range_form range.now) }
{
    Ok(NamedRange {
        name: String::from_str(alloc, range.name.as_str())?,
        bounds: copied_values(alloc, range.bounds.as_slice())?,
    })
}

/// Copies of the declared ranges, in their order.
pub fn copied_ranges(alloc: Global, ranges: &[NamedRange]) -> Result<Vec<NamedRange>, AllocError>
    ensures { IfOk result (λ v. map range_form v.items ≡ map range_form ranges.now) }
{
    let mut copies = Vec::new(alloc);
    for range in ranges {
        copies.push(copied_range(alloc, range)?)?;
    }
    Ok(copies)
}
