//! The claims of nodes that were found already.

ghost use Rattle.std.specs.Prelude.{◌≡◌, map, IfOk};
ghost use Rattle.vx_plan_nodes.specs.Outline.{claim_of};
ghost use Rattle.vx_check_shown.specs.Found.{no_claim, claim_at};

use std::alloc::{AllocError, Global};
use vx_plan_nodes::{Claim, Part};

/// What is said of an input that a node does not have.
pub(crate) fn no_claim(alloc: Global) -> Claim
    ensures { claim_of result ≡ no_claim }
{
    Claim {
        part: Part::Any,
        order: Vec::new(alloc),
        keys: Vec::new(alloc),
    }
}

/// The claim at this place, or the other one, which says nothing, where there is none.
pub(crate) fn claim_at<'c>(claims: &'c [Claim], at: Option<usize>, none: &'c Claim) -> &'c Claim
    requires { claim_of none.now ≡ no_claim }
    ensures { claim_of result.now ≡ claim_at (map claim_of claims.now) at }
{
    match at {
        Some(at) => match claims.get(at) {
            Some(claim) => claim,
            None => none,
        },
        None => none,
    }
}

/// The same keys, in memory of their own.
pub(crate) fn copied_keys(alloc: Global, keys: &[Vec<usize>]) -> Result<Vec<Vec<usize>>, AllocError>
    ensures { IfOk result (λ v. map (λ k. k.items) v.items ≡ map (λ k. k.items) keys.now) }
{
    let mut copies = Vec::new(alloc);
    for key in keys {
        copies.push(Vec::from_slice(alloc, key.as_slice())?)?;
    }
    Ok(copies)
}
