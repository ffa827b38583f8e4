//! What the checker knows of columns: which are equal, which have one value, and what some of them determine. It follows from the comparisons, joins,
//! constants and keys of a plan, and is never claimed.
#![tactic(auto)]

mod answers;
mod carrying;
mod classes;
mod closing;
mod column_set;
mod copies;
mod determined_laws;
mod determining;
mod facts;
mod follow_laws;
mod inputs;
mod joining;
mod known;
mod labels;
mod laws;
mod numbered;
mod operators;
mod projecting;
mod sharing;
mod values;

pub use column_set::ColumnSet;
pub use determined_laws::{
    determined_holds, determined_in_listed, facts_of_serial, keys_of_serial, least_sets,
    more_from_keys, more_from_more,
};
pub use facts::{ColumnFacts, FixedColumn};
pub use follow_laws::{keys_follow, orders_follow, totals_follow};
pub use known::{KnownColumns, known_columns};
pub use laws::{
    binary_meets, exchange_meets, facts_stay, scan_meets, serial_meets, typed_inputs_fit,
    unary_meets,
};
pub use numbered::column_facts;
