//! Claims over the columns of an output, by their names.

ghost use Rattle.std.specs.Prelude.{◌≡◌, map, string_bytes, IfOk};
ghost use Rattle.vx_rows_values.specs.Ranges.{range_form};
ghost use Rattle.vx_catalog_relations.specs.Naming.{name_at, order_text};
ghost use Rattle.vx_plan_nodes.specs.Names.{Names};
ghost use Rattle.vx_plan_nodes.specs.Outline.{part_of, claim_of};
ghost use Rattle.vx_plan_json.specs.Document.{part_form, claim_form};
ghost use Rattle.vx_plan.specs.ByName.{names_at, first_name, range_name, part_by_name, claim_by_name};

use std::alloc::{AllocError, Global};
use vx_catalog_json::OrderText;
use vx_plan_json::{NamedClaim, NamedPart};
use vx_plan_nodes::{Claim, Name, Part, Route};
use vx_rows_values::{NamedRange, OrderEntry};

// The name with this number; past the end the empty one.
fn name_at(alloc: Global, names: &[Name], number: usize) -> Result<String, AllocError>
    ensures { IfOk result (λ s. string_bytes s ≡ name_at names.now number) }
{
    match names.get(number) {
        Some(name) => name.to_text(alloc),
        None => Ok(String::new(alloc)),
    }
}

fn names_at(alloc: Global, names: &[Name], columns: &[usize]) -> Result<Vec<String>, AllocError>
    ensures { IfOk result (λ v. map string_bytes v.items ≡ names_at names.now columns.now) }
{
    let mut found = Vec::new(alloc);
    for column in columns {
        found.push(name_at(alloc, names, *column)?)?;
    }
    Ok(found)
}

// An order by the names of its columns.
fn order_at(
    alloc: Global,
    names: &[Name],
    order: &[OrderEntry],
) -> Result<Vec<OrderText>, AllocError>
    ensures { IfOk result (λ v. v.items ≡ order_text names.now order.now) }
{
    let mut found = Vec::new(alloc);
    for entry in order {
        found.push(OrderText {
            name: name_at(alloc, names, entry.column)?,
            falling: entry.falling,
        })?;
    }
    Ok(found)
}

fn keys_at(
    alloc: Global,
    names: &[Name],
    keys: &[Vec<usize>],
) -> Result<Vec<Vec<String>>, AllocError>
    ensures { IfOk result (λ v. map (λ k. map string_bytes k.items) v.items ≡ map (names_at names.now) (map (λ k. k.items) keys.now)) }
{
    let mut found = Vec::new(alloc);
    for key in keys {
        found.push(names_at(alloc, names, key.as_slice())?)?;
    }
    Ok(found)
}

// The name of a declared range; past the end the empty one.
fn range_name(ranges: &[NamedRange], range: usize) -> &str
    ensures { (s : Names) → s.ranges ≡ map range_form ranges.now → result.now ≡ range_name s range }
{
    match ranges.get(range) {
        Some(range) => range.name.as_str(),
        None => "",
    }
}

// The name of the first of the columns.
fn first_name(alloc: Global, names: &[Name], columns: &[usize]) -> Result<String, AllocError>
    ensures { IfOk result (λ s. string_bytes s ≡ first_name names.now columns.now) }
{
    match columns {
        [first, ..] => name_at(alloc, names, *first),
        [] => Ok(String::new(alloc)),
    }
}

fn named_part(
    alloc: Global,
    ranges: &[NamedRange],
    names: &[Name],
    part: &Part,
) -> Result<NamedPart, AllocError>
    ensures { (s : Names) → s.ranges ≡ map range_form ranges.now → IfOk result (λ p. part_form p ≡ part_by_name s names.now (part_of part.now)) }
{
    match part {
        Part::One => Ok(NamedPart::One),
        Part::Any => Ok(NamedPart::Any),
        Part::All => Ok(NamedPart::All),
        Part::Routed(Route::Hash(route), columns) => Ok(NamedPart::Hash {
            route: String::from_str(alloc, route.as_str())?,
            columns: names_at(alloc, names, columns.as_slice())?,
        }),
        Part::Routed(Route::Range(range), columns) => Ok(NamedPart::Range {
            range: String::from_str(alloc, range_name(ranges, *range))?,
            column: first_name(alloc, names, columns.as_slice())?,
        }),
    }
}

/// A claim over columns with these names, by the names in place of the numbers.
pub fn named_claim(
    alloc: Global,
    ranges: &[NamedRange],
    names: &[Name],
    claim: &Claim,
) -> Result<NamedClaim, AllocError>
    ensures { (s : Names) → s.ranges ≡ map range_form ranges.now → IfOk result (λ c. claim_form c ≡ claim_by_name s names.now (claim_of claim.now)) }
{
    Ok(NamedClaim {
        part: named_part(alloc, ranges, names, &claim.part)?,
        order: order_at(alloc, names, claim.order.as_slice())?,
        keys: keys_at(alloc, names, claim.keys.as_slice())?,
    })
}
