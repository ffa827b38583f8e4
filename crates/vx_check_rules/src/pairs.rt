//! The pairs of columns on which a join's inputs agree.

ghost use Rattle.std.specs.Prelude.{◌≡◌};
ghost use Rattle.vx_check_rules.specs.Rules.{has_pair, all_pairs};

// Whether the two columns are one of the pairs.
fn is_pair(on: &[(usize, usize)], left: usize, right: usize) -> bool
    ensures { result ≡ has_pair on.now left right }
{
    for pair in on {
        if pair.0 == left && pair.1 == right {
            return true;
        }
    }
    false
}

/// Whether the lists are equally long and each column is paired with the one at its place.
pub fn are_pairs(on: &[(usize, usize)], lefts: &[usize], rights: &[usize]) -> bool
    ensures { result ≡ all_pairs on.now lefts.now rights.now }
{
    if lefts.len() != rights.len() {
        return false;
    }
    for (i, left) in lefts.iter().enumerate() {
        if !is_pair(on, *left, rights[i]) {
            return false;
        }
    }
    true
}
