//! What a node shows, by what is known of columns, over what its inputs claim: its part, its longest order and its keys.
#![tactic(auto)]

mod candidates;
mod claim_lists;
mod firsts;
mod found_laws;
mod keying;
mod keys;
mod order_laws;
mod orders;
mod part_laws;
mod parts;
mod projected;
mod strongest_claims;
mod totals;

pub use found_laws::{found_is_good, keyed_is_good};
pub use keying::keyed_claims;
pub use keys::shown_keys;
pub use order_laws::shown_order_tells_the_most;
pub use orders::shown_order;
pub use part_laws::shown_part_tells_the_most;
pub use parts::shown_part;
pub use strongest_claims::found_claims;
