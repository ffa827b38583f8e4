//! Tables in the memory of SQLite, and the rows of its answers as lines. The values of a line are written as SQL writes
//! them: numbers as they are, texts in quotes.

ghost use Rattle.std.specs.Prelude.{◌<◌, length};

use sqlite::types::ValueRef;
use sqlite::{Connection, MemStore, Row};
use std::alloc::{AllocError, Global};
use std::test::Fail;
use vx_catalog::Database;
use vx_catalog_relations::Relation;
use vx_rows::Table;
use vx_rows_values::{Cell, ColType};

// Adds a value.
fn push_value(alloc: Global, text: &mut String, cell: Cell<'_>) -> Result<(), AllocError> {
    match cell {
        Cell::Int(number) => write!(text, "{number}"),
        Cell::Text(words) => {
            let inside = words.replace(alloc, "'", "''")?;
            write!(text, "'{inside}'")
        }
    }
}

// The line of a row of a table.
fn table_line(alloc: Global, rows: &Table, row: usize) -> Result<String, AllocError>
    requires { row < length rows.now.rows }
{
    let mut line = String::new(alloc);
    for column in 0..rows.types().len() {
        if column > 0 {
            line.push(',')?;
        }
        push_value(alloc, &mut line, rows.cell(row, column))?;
    }
    Ok(line)
}

/// The lines of a table.
pub fn table_lines(alloc: Global, rows: &Table) -> Result<Vec<String>, AllocError> {
    let mut lines = Vec::new(alloc);
    for row in 0..rows.len() {
        lines.push(table_line(alloc, rows, row)?)?;
    }
    Ok(lines)
}

// Adds the statement that makes the table of a relation.
fn push_definition(script: &mut String, relation: &Relation) -> Result<(), AllocError> {
    let name = relation.name();
    write!(script, "CREATE TABLE \"{name}\" (")?;
    for (column, (name, kind)) in relation.names().iter().zip(relation.types()).enumerate() {
        let between = if column == 0 { "" } else { ", " };
        let kind = match kind {
            ColType::Int => "INTEGER",
            ColType::Text => "TEXT",
        };
        write!(script, "{between}\"{name}\" {kind}")?;
    }
    script.push_str(");\n")
}

// Adds a statement for each row of a relation.
fn push_rows(
    alloc: Global,
    script: &mut String,
    relation: &Relation,
    rows: &Table,
) -> Result<(), AllocError> {
    let name = relation.name();
    for line in table_lines(alloc, rows)? {
        write!(script, "INSERT INTO \"{name}\" VALUES ({line});\n")?;
    }
    Ok(())
}

// The statements that make the tables of a database.
fn script_of(alloc: Global, database: &Database) -> Result<String, AllocError> {
    let mut script = String::from_str(alloc, "BEGIN;\n")?;
    let catalog = database.catalog();
    for relation in 0..catalog.len() {
        push_definition(&mut script, catalog.get(relation))?;
        push_rows(
            alloc,
            &mut script,
            catalog.get(relation),
            &database.rows(relation).gathered(alloc)?,
        )?;
    }
    script.push_str("COMMIT;\n")?;
    Ok(script)
}

/// SQLite with the tables of a database.
pub fn opened(alloc: Global, database: &Database) -> Result<Connection<MemStore>, Fail> {
    let script = script_of(alloc, database)?;
    let mut connection = Connection::open_in_memory(alloc)?;
    connection.execute_batch(script.as_str())?;
    Ok(connection)
}

// Adds a value of an answer, if a table can have it.
fn push_answered(alloc: Global, text: &mut String, value: ValueRef<'_>) -> Result<(), Fail> {
    match value {
        ValueRef::Int(number) => push_value(alloc, text, Cell::Int(number))?,
        ValueRef::Text(bytes) => { push_value(alloc, text, Cell::Text(str::from_utf8(bytes)?))? }
        ValueRef::Null | ValueRef::Real(_) | ValueRef::Blob(_) => {
            return Err(Fail::new("each value is a number or a text"));
        }
    }
    Ok(())
}

// The line of a row of an answer.
fn answer_line(alloc: Global, row: &Row) -> Result<String, Fail> {
    let mut line = String::new(alloc);
    for column in 0..row.column_count() {
        if column > 0 {
            line.push(',')?;
        }
        push_answered(alloc, &mut line, row.get_ref(column)?)?;
    }
    Ok(line)
}

/// The lines of the rows that a statement gives.
pub fn answer_lines(
    alloc: Global,
    connection: &mut Connection<MemStore>,
    statement: &str,
) -> Result<Vec<String>, Fail> {
    let mut lines = Vec::new(alloc);
    for row in connection.query_all(statement, &[])?.iter() {
        lines.push(answer_line(alloc, row)?)?;
    }
    Ok(lines)
}
