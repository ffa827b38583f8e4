//! The columns of pairs.

ghost use Rattle.std.specs.Prelude.{◌≡◌, map, IfOk};

use std::alloc::{AllocError, Global};

/// The left columns of pairs.
pub fn left_columns(alloc: Global, on: &[(usize, usize)]) -> Result<Vec<usize>, AllocError>
    ensures { IfOk result (λ v. v.items ≡ map (λ p. p.0) on.now) }
{
    on.iter().map(|pair| pair.0).collect(alloc)
}

/// The right columns of pairs.
pub fn right_columns(alloc: Global, on: &[(usize, usize)]) -> Result<Vec<usize>, AllocError>
    ensures { IfOk result (λ v. v.items ≡ map (λ p. p.1) on.now) }
{
    on.iter().map(|pair| pair.1).collect(alloc)
}
