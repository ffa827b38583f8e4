//! A relation of any number of rows for measuring, whose columns are formulas on the row's number, with a catalog and
//! plans over it. The names are borrowed from the Wisconsin benchmark; rules, plans and results are this project's own.
#![tactic(auto)]

mod fault;
mod line;
mod queries;
mod rows;
mod writing;

pub use fault::GenerateFault;
pub use queries::{catalog, plan};
pub use rows::{column_names, generate_rows};
pub use writing::{generate, rows_meet_what_is_declared};
