//! What nodes can claim, whatever they claim: the laws on which `annotate` rests.
#![tactic(auto)]

mod choices;
mod claiming;
mod copies;
mod keys;
mod options;
mod order_choices;
mod parts;
mod placing;

ghost use Rattle.vx_check_options.specs.Claimed.{ClaimedIsFit, ClaimedIsTyped, ClaimedKeeps, ClaimedIsStrongest};
ghost use Rattle.vx_check_options.specs.Laws.{OnlyOptions};

pub use choices::{MAX_KEYS, add_key, put_choices};
pub use claiming::found_claims;
pub use copies::Lists;
pub use keys::without;
pub use options::{Options, absent, first_unfit, options_at};
pub use order_choices::has_entry;

/// Where claims are accepted, each node can claim what they do.
pub fn only_options()
    ensures { OnlyOptions }
{}

/// The checker refuses claims that are placed, with the keys that are found, exactly where no claims fit, or where they do not
/// make the first rows of a limit's input known.
pub fn claimed_is_fit()
    ensures { ClaimedIsFit }
{}

/// They name what there is.
pub fn claimed_is_typed()
    ensures { ClaimedIsTyped }
{}

/// They keep what an accepted plan claims.
pub fn claimed_keeps()
    ensures { ClaimedKeeps }
{}

/// They tell the most that is shown at each node.
pub fn claimed_is_strongest()
    ensures { ClaimedIsStrongest }
{}
