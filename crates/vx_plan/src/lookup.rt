//! Looking up names: columns of an input, sizes and ranges of a plan.

ghost use Rattle.std.specs.Prelude.{◌≡◌, map, position, bytes_eq, string_bytes, IfOk};
ghost use Rattle.std.specs.List.{list_any};
ghost use Rattle.vx_plan_json.specs.Fault.{Gives};
ghost use Rattle.vx_plan_json.specs.Document.{pair_form};
ghost use Rattle.vx_rows_values.specs.Ranges.{range_form};
ghost use Rattle.vx_plan_nodes.specs.Outline.{size_of};
ghost use Rattle.vx_plan.specs.Lookup.{find_column, find_columns, order_names, order_falls, find_order, find_keys, test_distinct, test_distinct_pairs, test_distinct_keys, test_match, test_width, pair_eq, find_size, find_range};
ghost use Rattle.vx_plan.specs.Named.{names_of};

use std::alloc::{AllocError, AllocFailed, Global};
use std::collections::BTreeSet;
use vx_catalog_json::OrderText;
use vx_catalog_relations::{Catalog, find_name};
use vx_plan_json::PlanFault;
use vx_plan_nodes::{Name, Size, find_output_name};
use vx_rows_values::limits::MAX_COLUMNS;
use vx_rows_values::{NamedRange, OrderEntry, in_directions};

/// What the nodes of a plan may name.
#[derive(Clone, Copy)]
pub struct Declared<'a> {
    pub catalog: &'a Catalog,
    pub ranges: &'a [NamedRange],
    pub sizes: &'a [String],
}

fn is_any(names: &[String], name: &str) -> bool
    ensures { result ≡ list_any (λ n. bytes_eq name.now (string_bytes n)) names.now }
{
    names.iter().any(|n| name == n.as_str())
}

/// Whether a name is one of these.
pub fn has_name(names: &[String], name: &str) -> bool
    ensures { result ≡ list_any (bytes_eq name.now) (map string_bytes names.now) }
{
    is_any(names, name)
}

/// The position of the column with this name.
#[tactic(auto, unfolding(crate::specs::Lookup::find_column))]
pub fn find_column(alloc: Global, node: u32, names: &[Name], name: &str) -> Result<usize, PlanFault>
    ensures { Gives (λ c. c) result (find_column node names.now name.now) }
{
    match find_output_name(names, name) {
        Some(column) => Ok(column),
        None => Err(PlanFault::UnknownColumn {
            node,
            name: String::from_str(alloc, name)?,
        }),
    }
}

/// The positions of the columns with these names.
#[tactic(auto, unfolding(crate::specs::Lookup::find_columns), using(crate::proofs::WalkFacts::walk_steps))]
pub fn find_columns(
    alloc: Global,
    node: u32,
    names: &[Name],
    list: &[String],
) -> Result<Vec<usize>, PlanFault>
    ensures { Gives (λ v. v.items) result (find_columns node names.now (map string_bytes list.now)) }
{
    let mut found = Vec::new(alloc);
    for name in list {
        let column = find_column(alloc, node, names, name.as_str())?;
        found.push(column)?;
    }
    Ok(found)
}

// The positions of the columns of an order.
#[tactic(auto, unfolding(crate::specs::Lookup::find_columns), using(crate::proofs::WalkFacts::walk_steps))]
fn ordered_columns(
    alloc: Global,
    node: u32,
    names: &[Name],
    order: &[OrderText],
) -> Result<Vec<usize>, PlanFault>
    ensures { Gives (λ v. v.items) result (find_columns node names.now (order_names order.now)) }
{
    let mut found = Vec::new(alloc);
    for entry in order {
        let column = find_column(alloc, node, names, entry.name.as_str())?;
        found.push(column)?;
    }
    Ok(found)
}

// Of each column of an order, whether it falls.
fn order_falls(alloc: Global, order: &[OrderText]) -> Result<Vec<bool>, AllocError>
    ensures { IfOk result (λ v. v.items ≡ order_falls order.now) }
{
    let mut falls = Vec::new(alloc);
    for entry in order {
        falls.push(entry.falling)?;
    }
    Ok(falls)
}

/// An order by the positions of its columns.
#[tactic(auto, unfolding(crate::specs::Lookup::find_order))]
pub fn find_order(
    alloc: Global,
    node: u32,
    names: &[Name],
    order: &[OrderText],
) -> Result<Vec<OrderEntry>, PlanFault>
    ensures { Gives (λ v. v.items) result (find_order node names.now order.now) }
{
    let columns = ordered_columns(alloc, node, names, order)?;
    let falls = order_falls(alloc, order)?;
    Ok(in_directions(alloc, columns.as_slice(), falls.as_slice())?)
}

/// The positions of the columns of each key.
#[tactic(auto, unfolding(crate::specs::Lookup::find_keys), using(crate::proofs::WalkFacts::walk_steps))]
pub fn find_keys(
    alloc: Global,
    node: u32,
    names: &[Name],
    keys: &[Vec<String>],
) -> Result<Vec<Vec<usize>>, PlanFault>
    ensures { Gives (λ v. map (λ k. k.items) v.items) result (find_keys node names.now (map (λ k. map string_bytes k.items) keys.now)) }
{
    let mut found = Vec::new(alloc);
    for key in keys {
        let columns = find_columns(alloc, node, names, key.as_slice())?;
        found.push(columns)?;
    }
    Ok(found)
}

/// No name stands twice, or the first that repeats an earlier one.
#[tactic(auto, unfolding(crate::specs::Lookup::test_distinct), using(crate::proofs::TestFacts::test_steps))]
pub fn test_distinct(alloc: Global, node: u32, names: &[String]) -> Result<(), PlanFault>
    ensures { Gives (λ _. tt) result (test_distinct node (map string_bytes names.now)) }
{
    let mut seen = BTreeSet::new(alloc);
    for i in 0..names.len() {
        let name = names[i].as_str();
        let is_new = seen.insert(name)?;
        if !is_new {
            return Err(PlanFault::DuplicateColumn {
                node,
                name: String::from_str(alloc, name)?,
            });
        }
    }
    Ok(())
}

/// No column stands twice in an order, whatever its directions.
#[tactic(auto, unfolding(crate::specs::Lookup::test_distinct), using(crate::proofs::TestFacts::test_steps))]
pub fn test_distinct_order(alloc: Global, node: u32, order: &[OrderText]) -> Result<(), PlanFault>
    ensures { Gives (λ _. tt) result (test_distinct node (order_names order.now)) }
{
    let mut seen = BTreeSet::new(alloc);
    for i in 0..order.len() {
        let entry = &order[i];
        let name = entry.name.as_str();
        let is_new = seen.insert(name)?;
        if !is_new {
            return Err(PlanFault::DuplicateColumn {
                node,
                name: String::from_str(alloc, name)?,
            });
        }
    }
    Ok(())
}

/// The same of output names.
#[tactic(auto, unfolding(crate::specs::Lookup::test_distinct), using(crate::proofs::TestFacts::test_steps))]
pub fn test_distinct_names(alloc: Global, node: u32, names: &[Name]) -> Result<(), PlanFault>
    ensures { Gives (λ _. tt) result (test_distinct node names.now) }
{
    let mut seen = BTreeSet::new(alloc);
    for i in 0..names.len() {
        let name = &names[i];
        let is_new = seen.insert(name)?;
        if !is_new {
            return Err(PlanFault::DuplicateColumn {
                node,
                name: name.to_text(alloc)?,
            });
        }
    }
    Ok(())
}

fn is_same_pair(pair: &(String, String), other: &(String, String)) -> bool
    ensures { result ≡ pair_eq (pair_form pair.now) (pair_form other.now) }
{
    pair.0.as_str() == other.0.as_str() && pair.1.as_str() == other.1.as_str()
}

fn is_any_pair(pairs: &[(String, String)], pair: &(String, String)) -> bool
    ensures { result ≡ list_any (λ p. pair_eq (pair_form pair.now) (pair_form p)) pairs.now }
{
    pairs.iter().any(|p| is_same_pair(pair, p))
}

fn has_pair(pairs: &[(String, String)], pair: &(String, String)) -> bool
    ensures { result ≡ list_any (pair_eq (pair_form pair.now)) (map pair_form pairs.now) }
{
    is_any_pair(pairs, pair)
}

/// No pair stands twice, or the left column of the first that repeats an earlier one.
#[tactic(auto, unfolding(crate::specs::Lookup::test_distinct_pairs), using(crate::proofs::TestFacts::test_steps))]
pub fn test_distinct_pairs(
    alloc: Global,
    node: u32,
    pairs: &[(String, String)],
) -> Result<(), PlanFault>
    ensures { Gives (λ _. tt) result (test_distinct_pairs node (map pair_form pairs.now)) }
{
    for i in 0..pairs.len() {
        let pair = &pairs[i];
        if has_pair(&pairs[..i], pair) {
            return Err(PlanFault::DuplicateColumn {
                node,
                name: String::from_str(alloc, pair.0.as_str())?,
            });
        }
    }
    Ok(())
}

/// No name stands twice in one of these lists.
#[tactic(auto, using(crate::proofs::WalkFacts::keys_steps))]
pub fn test_distinct_keys(alloc: Global, node: u32, keys: &[Vec<String>]) -> Result<(), PlanFault>
    ensures { Gives (λ _. tt) result (test_distinct_keys node (map (λ k. map string_bytes k.items) keys.now)) }
{
    for key in keys {
        test_distinct(alloc, node, key.as_slice())?;
    }
    Ok(())
}

/// Types are equal where they have to be.
#[tactic(auto, unfolding(crate::specs::Lookup::test_match))]
pub fn test_match(node: u32, are_equal: bool) -> Result<(), PlanFault>
    ensures { Gives (λ _. tt) result (test_match node are_equal) }
{
    if are_equal {
        Ok(())
    } else {
        Err(PlanFault::TypeMismatch { node })
    }
}

/// An output is at most 64 columns wide.
#[tactic(auto, unfolding(crate::specs::Lookup::test_width))]
pub fn test_width(node: u32, width: usize) -> Result<(), PlanFault>
    ensures { Gives (λ _. tt) result (test_width node width) }
{
    if width <= MAX_COLUMNS {
        Ok(())
    } else {
        Err(PlanFault::TooWide { node })
    }
}

/// `one`, or a declared size name.
#[tactic(auto, unfolding(crate::specs::Lookup::find_size))]
pub fn find_size(alloc: Global, declared: &Declared<'_>, name: &str) -> Result<Size, PlanFault>
    ensures { Gives size_of result (find_size (names_of declared.now) name.now) }
{
    if name == "one" {
        return Ok(Size::One);
    }
    match find_name(declared.sizes, name) {
        Some(size) => Ok(Size::Group(size)),
        None => Err(PlanFault::BadSize {
            name: String::from_str(alloc, name)?,
        }),
    }
}

fn range_at_name(ranges: &[NamedRange], name: &str) -> Option<usize>
    ensures { result ≡ position (λ r. bytes_eq name.now (string_bytes r.name)) ranges.now }
{
    ranges.iter().position(|r| name == r.name.as_str())
}

fn range_number(ranges: &[NamedRange], name: &str) -> Option<usize>
    ensures { result ≡ position (λ r. bytes_eq name.now r.name) (map range_form ranges.now) }
{
    range_at_name(ranges, name)
}

/// The number of the declared range with this name.
#[tactic(auto, unfolding(crate::specs::Lookup::find_range))]
pub fn find_range(
    alloc: Global,
    declared: &Declared<'_>,
    node: u32,
    name: &str,
) -> Result<usize, PlanFault>
    ensures { Gives (λ k. k) result (find_range (names_of declared.now) node name.now) }
{
    match range_number(declared.ranges, name) {
        Some(range) => Ok(range),
        None => Err(PlanFault::UnknownRange {
            node,
            name: String::from_str(alloc, name)?,
        }),
    }
}
