//! Keys by columns that stand for those that are equal to them.

ghost use Rattle.std.specs.Prelude.{◌≡◌, [], true, map, slice_index, IfOk, OnOk};
ghost use Rattle.std.specs.List.{list_all};
ghost use Rattle.vx_catalog_relations.specs.Catalog.{all_below};
ghost use Rattle.vx_plan_facts.specs.FactsView.{facts_of, width_of};
ghost use Rattle.vx_check_options.specs.FoundKeys.{with_column};
ghost use Rattle.vx_check_failures.specs.Shown.{with_named, with_new, with_named_keys};

use std::alloc::{AllocError, Global};
use vx_check_rules::{ColumnsSeen, KeysSeen, are_covered};
use vx_plan_facts::ColumnFacts;
use vx_rows_values::limits::MAX_KEYS;

// Puts the column behind the others, if it is not among them.
fn put_once(columns: &mut Vec<usize>, column: usize) -> Result<(), AllocError>
    ensures { OnOk result (columns.new.items ≡ with_column columns.old.items column) }
{
    if columns.contains(&column) {
        return Ok(());
    }
    columns.push(column)?;
    Ok(())
}

// The columns by the first ones that are equal to them, each once.
fn named(
    alloc: Global,
    facts: &ColumnFacts<'_>,
    columns: &[usize],
) -> Result<Vec<usize>, AllocError>
    requires { all_below (width_of facts.now) columns.now ≡ true }
    ensures { IfOk result (λ v. v.items ≡ with_named (slice_index (facts_of facts.now).firsts) [] columns.now) }
{
    let mut named = Vec::new(alloc);
    for column in columns {
        put_once(&mut named, facts.first_of(*column))?;
    }
    Ok(named)
}

// Puts the key behind the others, if it contains none of them and they are not too many.
fn put_new(keys: &mut Vec<Vec<usize>>, key: Vec<usize>) -> Result<(), AllocError>
    ensures { OnOk result (map (λ k. k.items) keys.new.items ≡ with_new (map (λ k. k.items) keys.old.items) key.items) }
{
    if MAX_KEYS <= keys.len() {
        return Ok(());
    }
    let columns = ColumnsSeen::Listed(key.as_slice());
    if are_covered(KeysSeen::Listed(keys.as_slice()), columns) {
        return Ok(());
    }
    keys.push(key)?;
    Ok(())
}

/// The keys by the first ones of equal columns, without those that contain one before them, and not more than a plan may claim.
pub fn named_keys(
    alloc: Global,
    facts: &ColumnFacts<'_>,
    keys: &[Vec<usize>],
) -> Result<Vec<Vec<usize>>, AllocError>
    requires { list_all (all_below (width_of facts.now)) (map (λ k. k.items) keys.now) ≡ true }
    ensures { IfOk result (λ v. map (λ k. k.items) v.items ≡ with_named_keys (slice_index (facts_of facts.now).firsts) [] (map (λ k. k.items) keys.now)) }
{
    let mut found = Vec::new(alloc);
    for key in keys {
        let named = named(alloc, facts, key.as_slice())?;
        put_new(&mut found, named)?;
    }
    Ok(found)
}
