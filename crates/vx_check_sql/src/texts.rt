//! Lists of texts: the columns of a SELECT, their names, its conditions and the tables before it.

ghost use Rattle.std.specs.Prelude.{◌≡◌, ◌++◌, map, string_bytes, codes, OnOk, IfOk, false};
ghost use Rattle.vx_catalog_relations.specs.Naming.{name_at};
ghost use Rattle.vx_check.specs.Explain.{separated};
ghost use Rattle.vx_check_sql.specs.Blocks.{named};
ghost use Rattle.vx_check_sql.specs.BlocksView.{texts_of};

use std::alloc::{AllocError, Global};
use vx_check::push_between;
use vx_plan_nodes::Projected;

/// The text with this number. Behind the last one it is empty.
pub fn text_at(texts: &[String], number: usize) -> &str
    ensures { result.now ≡ name_at (map string_bytes texts.now) number }
{
    if number < texts.len() {
        texts[number].as_str()
    } else {
        ""
    }
}

/// Adds these texts, with one between each two.
pub fn push_separated(text: &mut String, between: &str, texts: &[String]) -> Result<(), AllocError>
    ensures { OnOk result (string_bytes text.new ≡ string_bytes text.old ++ separated between.now false (map string_bytes texts.now)) }
{
    for (i, part) in texts.iter().enumerate() {
        push_between(text, between, i > 0)?;
        text.push_str(part.as_str())?;
    }
    Ok(())
}

/// Adds columns with their names.
pub fn push_named(text: &mut String, columns: &[String], names: &[String]) -> Result<(), AllocError>
    ensures { OnOk result (string_bytes text.new ≡ string_bytes text.old ++ separated (codes ", ") false (named (map string_bytes names.now) 0 (map string_bytes columns.now))) }
{
    for (i, column) in columns.iter().enumerate() {
        push_between(text, ", ", i > 0)?;
        text.push_str(column.as_str())?;
        text.push_str(" AS ")?;
        text.push_str(text_at(names, i))?;
    }
    Ok(())
}

/// These texts with more behind them.
pub fn appended(texts: Vec<String>, more: Vec<String>) -> Result<Vec<String>, AllocError>
    ensures { IfOk result (λ v. texts_of v ≡ texts_of texts ++ texts_of more) }
{
    let mut all = texts;
    let mut rest = more;
    all.append(&mut rest)?;
    Ok(all)
}

/// A copy of these texts.
pub fn copied(alloc: Global, texts: &[String]) -> Result<Vec<String>, AllocError>
    ensures { IfOk result (λ v. texts_of v ≡ map string_bytes texts.now) }
{
    let mut list = Vec::new(alloc);
    for text in texts {
        list.push(String::from_str(alloc, text.as_str())?)?;
    }
    Ok(list)
}

/// The texts with these numbers.
pub fn texts_at(
    alloc: Global,
    texts: &[String],
    numbers: &[usize],
) -> Result<Vec<String>, AllocError>
    ensures { IfOk result (λ v. texts_of v ≡ map (name_at (map string_bytes texts.now)) numbers.now) }
{
    let mut list = Vec::new(alloc);
    for number in numbers {
        list.push(String::from_str(alloc, text_at(texts, *number))?)?;
    }
    Ok(list)
}

/// The texts of the columns that a distinct keeps.
pub fn kept_texts(
    alloc: Global,
    texts: &[String],
    kept: &[Projected],
) -> Result<Vec<String>, AllocError>
    ensures { IfOk result (λ v. texts_of v ≡ map (name_at (map string_bytes texts.now)) (map (λ k. k.column) kept.now)) }
{
    let mut list = Vec::new(alloc);
    for column in kept {
        list.push(String::from_str(alloc, text_at(texts, column.column))?)?;
    }
    Ok(list)
}
