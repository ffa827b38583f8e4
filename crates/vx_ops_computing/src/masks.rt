//! The places at which masks hold.

ghost use Rattle.std.specs.Prelude.{◌≡◌, true, length, All, IfOk, IfSome, IfNone};
ghost use Rattle.vx_rows_views.specs.Selected.{places_of};

use std::alloc::{AllocError, Global};

// At how many places a mask holds. The loop has no branch that depends on the mask, so it is done for several places at once.
fn count_places(mask: &[bool]) -> usize
    ensures { result ≡ length (places_of (λ b. b) mask.now) }
{
    let mut count = 0;
    for k in 0..mask.len() {
        count += mask[k] as usize;
    }
    count
}

// Puts the places at which a mask holds. Each place is written, and stays where the mask holds: so there is no branch that depends on it.
fn fill_places(mask: &[bool], places: &mut [usize])
    requires { length places.old ≡ length (places_of (λ b. b) mask.now) }
    ensures { places.new ≡ places_of (λ b. b) mask.now }
{
    let mut found = 0;
    let mut k = 0;
    while found < places.len() {
        places[found] = k;
        found += mask[k] as usize;
        k += 1;
    }
}

/// The places at which a mask holds, or none where it holds throughout.
pub fn places_in(alloc: Global, mask: &[bool]) -> Result<Option<Vec<usize>>, AllocError>
    ensures some { IfOk result (λ o. IfSome o (λ v. v.items ≡ places_of (λ b. b) mask.now)) }
    ensures all { IfOk result (λ o. IfNone o (All (λ b. b ≡ true) mask.now)) }
{
    let count = count_places(mask);
    if count == mask.len() {
        return Ok(None);
    }
    let mut places = Vec::new(alloc);
    places.resize(count, 0)?;
    fill_places(mask, places.as_mut_slice());
    Ok(Some(places))
}
