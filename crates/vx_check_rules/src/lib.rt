//! The rule table: the claims of a plan follow, or the first that does not is refused.
#![tactic(auto)]

mod carried;
mod carried_keys;
mod carried_orders;
mod checked;
mod checking;
mod column_list;
mod columns;
mod copied;
mod derived_keys;
mod derived_orders;
mod derived_parts;
mod equal;
mod fault;
mod inputs;
mod keyed;
mod keys;
mod laws;
mod nodes;
mod order_seen;
mod orders;
mod pairs;
mod parts;
mod places;
mod refusal;
mod refused;
mod routed;
mod rule;
mod shown;
mod shown_orders;
mod sortings;
mod sources;
mod table;
mod ways;

pub use carried::{node_order, node_part};
pub use carried_keys::node_keys;
pub use carried_orders::{carried_order, copy_of, short};
pub use checked::CheckedPlan;
pub use checking::check;
pub use columns::ColumnsSeen;
pub use derived_keys::is_key_derived;
pub use derived_orders::{follows_claimed, order_follows};
pub use equal::are_equal;
pub use fault::CheckFault;
pub use inputs::do_sizes_match;
pub use keyed::{CopiedKeys, Keyed, KeysSeen, are_covered, keyed_from, show_key};
pub use laws::{
    carried_is_shown, copies_back, fits_exactly, functions_are_not_asked, keys_carried,
    keys_exactly, orders_carried, orders_exactly, parts_carried, parts_exactly, tables_decide,
    verdicts_exactly,
};
pub use nodes::{claimed_keys, claimed_order, claimed_part, has_one_worker};
pub use order_seen::OrderSeen;
pub use orders::is_total;
pub use parts::{PartSeen, gives, is_same_route, seen};
pub use refusal::{failure_at, root_failure};
pub use refused::Refused;
pub use routed::{are_alike_equally, is_same_equally};
pub use rule::Rule;
pub use shown_orders::{keeps_order, order_over};
pub use sortings::{order_after, rises_with_workers};
pub use table::{Table, table_of};
pub use ways::{Had, Way, show_part, ways_from};
