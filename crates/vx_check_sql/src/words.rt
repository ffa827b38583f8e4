//! Words of a statement: numbers, quoted names and texts, and own names for nodes and columns.

ghost use Rattle.std.specs.Prelude.{◌≡◌, ◌++◌, string_bytes, OnOk, decimal, replicate};
ghost use Rattle.vx_rows_values.specs.ValueView.{val_of};
ghost use Rattle.vx_check_sql.specs.Words.{escape_of, zero_in_text, zero_in_name, inside, insides, quoted, identifier, value_sql, node_name, column_name};

use crate::dialect::Dialect;
use itoa::Buffer;
use std::alloc::AllocError;
use vx_rows_values::Value;

/// The name of a node's rows in a statement.
///
/// It has the node's number, and behind its first letter as many underscores as all names that the statement makes.
#[derive(Clone, Copy)]
pub struct Alias {
    pub underscores: usize,
    pub node: u32,
}

/// Adds a number in plain decimal.
pub fn push_number(text: &mut String, number: usize) -> Result<(), AllocError>
    ensures { OnOk result (string_bytes text.new ≡ string_bytes text.old ++ decimal number) }
{
    let mut digits = Buffer::new();
    text.push_str(digits.format(number))
}

// What stands before a quote inside of quotes.
fn escape_of(dialect: Dialect, quote: char) -> char
    ensures { result ≡ escape_of dialect quote }
{
    match dialect {
        Dialect::Sqlite | Dialect::Postgres => quote,
        Dialect::ClickHouse => '\\',
    }
}

// What stands for the character 0 inside of a text. SQLite and PostgreSQL make it by a call, since they cannot write it.
fn zero_in_text(dialect: Dialect) -> &'static str
    ensures { result.now ≡ zero_in_text dialect }
{
    match dialect {
        Dialect::Sqlite => "'||char(0)||'",
        Dialect::Postgres => "'||chr(0)||'",
        Dialect::ClickHouse => "\\0",
    }
}

// The same inside of a name, where no call can stand.
fn zero_in_name(dialect: Dialect) -> &'static str
    ensures { result.now ≡ zero_in_name dialect }
{
    match dialect {
        Dialect::Sqlite | Dialect::Postgres => "\0",
        Dialect::ClickHouse => "\\0",
    }
}

// Adds a character inside of quotes.
fn push_inside(
    text: &mut String,
    quote: char,
    escape: char,
    zero: &str,
    character: char,
) -> Result<(), AllocError>
    ensures { OnOk result (string_bytes text.new ≡ string_bytes text.old ++ inside quote escape zero.now character) }
{
    if character == '\0' {
        return text.push_str(zero);
    }
    if character == quote || character == escape {
        text.push(escape)?;
    }
    text.push(character)
}

// Adds the characters of a text inside of quotes.
fn push_insides(
    text: &mut String,
    quote: char,
    escape: char,
    zero: &str,
    words: &str,
) -> Result<(), AllocError>
    ensures { OnOk result (string_bytes text.new ≡ string_bytes text.old ++ insides quote escape zero.now words.now) }
{
    for character in words.chars() {
        push_inside(text, quote, escape, zero, character)?;
    }
    Ok(())
}

// Adds a text in quotes.
#[tactic(auto, unfolding(crate::specs::Words::quoted))]
fn push_quoted(
    text: &mut String,
    dialect: Dialect,
    quote: char,
    zero: &str,
    words: &str,
) -> Result<(), AllocError>
    ensures { OnOk result (string_bytes text.new ≡ string_bytes text.old ++ quoted dialect quote zero.now words.now) }
{
    text.push(quote)?;
    push_insides(text, quote, escape_of(dialect, quote), zero, words)?;
    text.push(quote)
}

/// Adds the name of a table or a column of the database.
pub fn push_identifier(text: &mut String, dialect: Dialect, name: &str) -> Result<(), AllocError>
    ensures { OnOk result (string_bytes text.new ≡ string_bytes text.old ++ identifier dialect name.now) }
{
    push_quoted(text, dialect, '"', zero_in_name(dialect), name)
}

/// Adds a number in plain decimal, or a text in quotes.
pub fn push_value(text: &mut String, dialect: Dialect, value: &Value) -> Result<(), AllocError>
    ensures { OnOk result (string_bytes text.new ≡ string_bytes text.old ++ value_sql dialect (val_of value.now)) }
{
    match value {
        Value::Int(number) => {
            let mut digits = Buffer::new();
            text.push_str(digits.format(*number))
        }
        Value::Text(words) => {
            push_quoted(text, dialect, '\'', zero_in_text(dialect), words.as_str())
        }
    }
}

// Adds this many underscores.
#[tactic(auto, using(std::proofs::lemmas::Grind::common_steps, crate::proofs::WordFacts::one_more))]
fn push_underscores(text: &mut String, count: usize) -> Result<(), AllocError>
    ensures { OnOk result (string_bytes text.new ≡ string_bytes text.old ++ replicate count 95) }
{
    for _ in 0..count {
        text.push_str("_")?;
    }
    Ok(())
}

/// Adds the name of a node's rows.
#[tactic(auto, unfolding(crate::specs::Words::node_name))]
pub fn push_node_name(text: &mut String, alias: Alias) -> Result<(), AllocError>
    ensures { OnOk result (string_bytes text.new ≡ string_bytes text.old ++ node_name alias) }
{
    text.push_str("n")?;
    push_underscores(text, alias.underscores)?;
    push_number(text, alias.node as usize)
}

/// Adds the own name of a column of a node's rows.
#[tactic(auto, unfolding(crate::specs::Words::column_name))]
pub fn push_column_name(text: &mut String, alias: Alias, column: usize) -> Result<(), AllocError>
    ensures { OnOk result (string_bytes text.new ≡ string_bytes text.old ++ column_name alias column) }
{
    text.push_str("c")?;
    push_underscores(text, alias.underscores)?;
    push_number(text, alias.node as usize)?;
    text.push_str("_")?;
    push_number(text, column)
}
