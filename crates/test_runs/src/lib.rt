//! Worked plans over small relations, and what comes of them, for the tests of runs by rounds, by schedules and by
//! threads (`crates/test_execution`). They are texts.
#![tactic(auto)]

mod crowds;
mod exchanges;
mod functions;
mod lines;
mod operators;
mod relations;
mod worked;

pub use crowds::IN_A_ROW;
pub use exchanges::EXCHANGE_PLANS;
pub use functions::FUNCTION_PLANS;
pub use lines::{document_named, rows_named};
pub use operators::{OPERATOR_JOINS, OPERATOR_PLANS};
pub use relations::{
    BOTH_TOO_LARGE, CATALOG, LARGE, OTHER_CATALOG, ROWS_OF_D, ROWS_OF_T, TOO_LARGE, with_scans,
};
pub use worked::{
    GROUPED, JOIN_PLANS, JOINED_SUMS, MERGED, SUM_PLANS, SUMS_IN_TWO_PHASES, WORKED_PLANS,
};
