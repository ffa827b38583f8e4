//! Which fragment each worker of a plan is of, and at which place.

ghost use Rattle.std.specs.Prelude.{◌≡◌, ◌≤◌, ◌∷◌, ◌++◌, length, map, flat_map, IfOk, OnOk};
ghost use Rattle.vx_rows.specs.Lists.{each_below};
ghost use Rattle.vx_exec_parallel.specs.Fragments.{fragment_in, places_from};
ghost use Rattle.vx_exec_parallel.specs.Places.{place_in};
ghost use Rattle.vx_rows_values.specs.Limits.{max_nodes};

use std::alloc::{AllocError, Global};
use vx_exec_layout::{Layout, NodeSpan};

/// Where a worker stands in a plan.
#[derive(Clone, Copy)]
pub struct FragmentPlace {
    /// The number of its fragment.
    pub fragment: u32,
    /// Its place among the workers of the fragment.
    pub place: u32,
}

// Adds how many workers the fragment below a node has, if the node is an exchange.
fn add_fragment(fragments: &mut Vec<u32>, span: NodeSpan) -> Result<(), AllocError>
    ensures { OnOk result (fragments.new.items ≡ fragments.old.items ++ fragment_in span) }
{
    if let NodeSpan::Exchange(exchange) = span {
        fragments.push(exchange.producers)?;
    }
    Ok(())
}

// How many workers each fragment has, the root's first.
fn fragments_of(alloc: Global, spans: &[NodeSpan]) -> Result<Vec<u32>, AllocError>
    ensures { IfOk result (λ v. v.items ≡ 1 ∷ flat_map fragment_in spans.now) }
{
    let mut fragments = Vec::new(alloc);
    fragments.push(1)?;
    for span in spans {
        add_fragment(&mut fragments, *span)?;
    }
    Ok(fragments)
}

// Adds the workers of one fragment.
fn add_places(
    places: &mut Vec<FragmentPlace>,
    fragment: u32,
    workers: u32,
) -> Result<(), AllocError>
    ensures { OnOk result (map place_in places.new.items ≡ map place_in places.old.items ++ each_below workers (λ i. (fragment, i))) }
{
    for place in 0..workers {
        places.push(FragmentPlace { fragment, place })?;
    }
    Ok(())
}

/// Where each worker of a plan stands, by its number: the root's worker first, and then those of each fragment by their
/// places, the fragments in preorder of their top nodes.
pub fn places_of(alloc: Global, layout: &Layout) -> Result<Vec<FragmentPlace>, AllocError>
    requires { length layout.now.spans.items ≤ max_nodes }
    ensures { IfOk result (λ v. map place_in v.items ≡ places_from 0 (1 ∷ flat_map fragment_in layout.now.spans.items)) }
{
    let fragments = fragments_of(alloc, layout.spans())?;
    let mut places = Vec::new(alloc);
    for fragment in 0..fragments.len() {
        add_places(&mut places, fragment as u32, fragments[fragment])?;
    }
    Ok(places)
}
