//! The text of the checker's answer.

ghost use Rattle.std.specs.Prelude.{◌≡◌, IfOk};
ghost use Rattle.vx_check.specs.Accepted.{accepted_text};

use std::alloc::{AllocError, Global};

/// The text of the checker's answer to a plan that it accepts: whether the plan is total.
pub fn accepted_text(alloc: Global, is_total: bool) -> Result<Vec<u8>, AllocError>
    ensures { IfOk result (λ text. text.items ≡ accepted_text is_total) }
{
    if is_total {
        Vec::from_slice(alloc, b"accepted total\n")
    } else {
        Vec::from_slice(alloc, b"accepted\n")
    }
}
