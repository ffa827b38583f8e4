//! Consumer ends of exchanges that give rows in an order: of their producers' numbers, or of the rows.
#![tactic(auto)]

mod heads;
mod in_order;
mod merge;
mod merge_receiver;
mod place;

pub use in_order::InOrderReceiver;
pub use merge_receiver::MergeReceiver;
