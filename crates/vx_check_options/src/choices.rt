//! Choices of copies of columns, and the keys that they make.

ghost use Rattle.std.specs.Prelude.{◌≡◌, ◌++◌, true, map, IfOk, OnOk};
ghost use Rattle.std.specs.List.{filter};
ghost use Rattle.vx_catalog_relations.specs.Catalog.{are_distinct};
ghost use Rattle.vx_plan_nodes.specs.Describe.{source};
ghost use Rattle.vx_plan_nodes.specs.Phases.{first_columns};
ghost use Rattle.vx_plan_nodes.specs.DescribeView.{copying_of};
ghost use Rattle.vx_check_rules.specs.Rules.{within};
ghost use Rattle.vx_check_rules.specs.Behaviour.{is_column};
ghost use Rattle.vx_check_rules.specs.Seen.{columns_seen};
ghost use Rattle.vx_check_options.specs.FoundKeys.{with_key, with_column, choices_of, IsChoice, IsMet, Finds};

use crate::copies::Lists;
use std::alloc::{AllocError, Global};
use vx_check_rules::{ColumnsSeen, KeysSeen, are_covered};
use vx_plan_nodes::Copying;

/// So many keys of a node are looked for. A plan that claims more keeps them.
pub const MAX_KEYS: usize = 16;

// Whether each of the columns is among the others.
fn is_within(columns: &[usize], others: &[usize]) -> bool
    ensures { result ≡ within columns.now others.now }
{
    for column in columns {
        if !others.contains(column) {
            return false;
        }
    }
    true
}

/// Puts the key behind the others, if none of them is contained in it, and drops those that contain it.
pub fn add_key(found: &mut Lists, key: Vec<usize>) -> Result<(), AllocError>
    ensures { OnOk result (map (λ k. k.items) found.new.items ≡ with_key (map (λ k. k.items) found.old.items) key.items) }
{
    let keys = KeysSeen::Listed(found.as_slice());
    if are_covered(keys, ColumnsSeen::Listed(key.as_slice())) {
        return Ok(());
    }
    found.retain(|other| !is_within(key.as_slice(), other.as_slice()));
    found.push(key)?;
    Ok(())
}

// The columns with one more, if it is not among them.
fn with_column(alloc: Global, columns: &[usize], column: usize) -> Result<Vec<usize>, AllocError>
    ensures { IfOk result (λ v. v.items ≡ with_column columns.now column) }
{
    let mut longer = Vec::from_slice(alloc, columns)?;
    if !columns.contains(&column) {
        longer.push(column)?;
    }
    Ok(longer)
}

// The copies of the input column `input` among the first `width` columns.
fn copies_among(
    alloc: Global,
    copying: Copying<'_>,
    width: usize,
    input: usize,
) -> Result<Vec<usize>, AllocError>
    ensures { IfOk result (λ v. v.items ≡ filter (λ d. is_column (source (copying_of copying.entry) d) input) (first_columns width)) }
{
    let mut copies = Vec::new(alloc);
    for column in 0..width {
        if copying.source(column) == Some(input) {
            copies.push(column)?;
        }
    }
    Ok(copies)
}

/// Puts the copies of each column of the key, among the first columns of an output, behind the choices that are there.
pub fn put_choices(
    alloc: Global,
    choices: &mut Lists,
    copying: Copying<'_>,
    width: usize,
    key: ColumnsSeen<'_>,
) -> Result<(), AllocError>
    ensures { OnOk result (map (λ k. k.items) choices.new.items ≡ map (λ k. k.items) choices.old.items ++ choices_of (copying_of copying.entry) (first_columns width) (columns_seen key.entry)) }
{
    for place in 0..key.len() {
        choices.push(copies_among(alloc, copying, width, key.at(place))?)?;
    }
    Ok(())
}

/// Adds the keys of these columns and one of each of the choices, until 16 are found. The choices can be more than could be
/// tried: six columns with ten copies each have a million. But no key of an input contains another one, and no choice has
/// an empty list, so that each choice that is tried is a key to add, unless it was found among the claimed keys or
/// contains another one of a relation. So not many more are tried than are found.
pub fn add_choices(
    alloc: Global,
    found: &mut Lists,
    columns: &[usize],
    choices: &[Vec<usize>],
) -> Result<(), AllocError>
    requires { are_distinct columns.now ≡ true }
    ensures { OnOk result (Finds (IsChoice columns.now (map (λ k. k.items) choices.now)) (IsMet columns.now (map (λ k. k.items) choices.now)) (map (λ k. k.items) found.old.items) (map (λ k. k.items) found.new.items)) }
{
    if found.len() >= MAX_KEYS {
        return Ok(());
    }
    let [first, rest @ ..] = choices else {
        return add_key(found, Vec::from_slice(alloc, columns)?);
    };
    for column in first.as_slice() {
        let longer = with_column(alloc, columns, *column)?;
        add_choices(alloc, found, longer.as_slice(), rest)?;
    }
    Ok(())
}
