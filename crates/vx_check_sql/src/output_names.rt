//! What the columns of a SELECT are called.

ghost use Rattle.std.specs.Prelude.{◌≡◌, map, string_bytes, IfOk};
ghost use Rattle.std.specs.Str.{str_eq_ignore_ascii_case};
ghost use Rattle.vx_check_sql.specs.Words.{identifier, column_name};
ghost use Rattle.vx_check_sql.specs.OutputNames.{is_plain, has_alike, are_apart, numbered, takes_names, output_names};
ghost use Rattle.vx_check_sql.specs.BlocksView.{texts_of};

use crate::dialect::Dialect;
use crate::words::{Alias, push_column_name, push_identifier};
use std::alloc::{AllocError, Global};
use vx_plan_nodes::{Name, name_texts};

// How many bytes of a name PostgreSQL reads, and one more.
const TOO_LONG: usize = 64;

// Whether each system reads this name as it is.
fn is_plain(name: &str) -> bool
    ensures { result ≡ is_plain name.now }
{
    name.len() < TOO_LONG && !name.as_bytes().contains(&0)
}

// Whether two names are the same, in any case.
fn is_alike(name: &str, other: &str) -> bool
    ensures { result ≡ str_eq_ignore_ascii_case name.now other.now }
{
    name.eq_ignore_ascii_case(other)
}

// Whether one of these names is this one, in any case.
fn has_alike(name: &str, others: &[String]) -> bool
    ensures { result ≡ has_alike name.now (map string_bytes others.now) }
{
    for other in others {
        if is_alike(name, other.as_str()) {
            return true;
        }
    }
    false
}

// Whether each system reads these names as they are, and tells them apart.
fn are_apart(names: &[String]) -> bool
    ensures { result ≡ are_apart (map string_bytes names.now) }
{
    for (i, name) in names.iter().enumerate() {
        if !is_plain(name.as_str()) || has_alike(name.as_str(), &names[i + 1..]) {
            return false;
        }
    }
    true
}

fn takes_names(dialect: Dialect, names: &[String]) -> bool
    ensures { result ≡ takes_names dialect (map string_bytes names.now) }
{
    match dialect {
        Dialect::Sqlite | Dialect::Postgres => are_apart(names),
        Dialect::ClickHouse => false,
    }
}

fn identifier(alloc: Global, dialect: Dialect, name: &str) -> Result<String, AllocError>
    ensures { IfOk result (λ s. string_bytes s ≡ identifier dialect name.now) }
{
    let mut text = String::new(alloc);
    push_identifier(&mut text, dialect, name)?;
    Ok(text)
}

fn identifiers(alloc: Global, dialect: Dialect, names: &[String]) -> Result<Vec<String>, AllocError>
    ensures { IfOk result (λ v. texts_of v ≡ map (identifier dialect) (map string_bytes names.now)) }
{
    let mut list = Vec::new(alloc);
    for name in names {
        list.push(identifier(alloc, dialect, name.as_str())?)?;
    }
    Ok(list)
}

fn column_name(alloc: Global, node: Alias, column: usize) -> Result<String, AllocError>
    ensures { IfOk result (λ s. string_bytes s ≡ column_name node column) }
{
    let mut text = String::new(alloc);
    push_column_name(&mut text, node, column)?;
    Ok(text)
}

// Own names for as many columns.
fn numbered(alloc: Global, node: Alias, names: &[String]) -> Result<Vec<String>, AllocError>
    ensures { IfOk result (λ v. texts_of v ≡ numbered node 0 (map string_bytes names.now)) }
{
    let mut list = Vec::new(alloc);
    for (i, _name) in names.iter().enumerate() {
        list.push(column_name(alloc, node, i)?)?;
    }
    Ok(list)
}

/// The names of the columns of a node, as they are written.
#[tactic(auto, unfolding(crate::specs::OutputNames::output_names))]
pub fn output_names(
    alloc: Global,
    dialect: Dialect,
    node: Alias,
    names: &[Name],
) -> Result<Vec<String>, AllocError>
    ensures { IfOk result (λ v. texts_of v ≡ output_names dialect node names.now) }
{
    let texts = name_texts(alloc, names)?;
    if takes_names(dialect, texts.as_slice()) {
        identifiers(alloc, dialect, texts.as_slice())
    } else {
        numbered(alloc, node, texts.as_slice())
    }
}

/// The names that the plan gives, as they are written.
pub fn plan_names(
    alloc: Global,
    dialect: Dialect,
    names: &[Name],
) -> Result<Vec<String>, AllocError>
    ensures { IfOk result (λ v. texts_of v ≡ map (identifier dialect) names.now) }
{
    let texts = name_texts(alloc, names)?;
    identifiers(alloc, dialect, texts.as_slice())
}
