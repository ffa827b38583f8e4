//! Rows as text for people and for other programs: a table, and lines of JSON.
#![tactic(auto)]

mod cells;
mod json_lines;
mod table;
mod widths;

pub use json_lines::format_json;
pub use table::format_table;
