//! A plan as one statement of SQL: its operators without its exchanges, in the words of SQLite, PostgreSQL or ClickHouse.
#![tactic(auto)]

mod blocks;
mod conditions;
mod dialect;
mod expressions;
mod functions;
mod joins;
mod nodes;
mod operators;
mod output_names;
mod own_names;
mod relations;
mod statement;
mod texts;
mod words;

pub use dialect::Dialect;
pub use statement::plan_sql;
