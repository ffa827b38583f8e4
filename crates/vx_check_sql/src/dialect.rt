//! The database systems for which statements are written.

/// Whose SQL a statement is.
#[derive(Clone, Copy, PartialEq, Eq)]
pub enum Dialect {
    Sqlite,
    Postgres,
    ClickHouse,
}
