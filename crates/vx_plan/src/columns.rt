//! The columns of outputs: kept, put side by side, with a prefix.

ghost use Rattle.std.specs.Prelude.{◌≡◌, ◌++◌, map, string_bytes, IfOk, OnOk};
ghost use Rattle.std.specs.Arc.{arc_value};
ghost use Rattle.vx_rows_values.specs.Types.{type_at};
ghost use Rattle.vx_plan_json.specs.Document.{aggregate_form, output_form, entry_form};
ghost use Rattle.vx_plan_nodes.specs.Outline.{columns_of, columns, entry_of, aggregate_of, outline_of};
ghost use Rattle.vx_plan_nodes.specs.Types.{entry_type, aggregate_type};
ghost use Rattle.vx_plan.specs.Resolve.{both_columns, output_name, entry_name, scan_columns};

use crate::fits::type_at;
use std::alloc::{AllocError, Global};
use std::sync::Arc;
use vx_catalog_relations::Relation;
use vx_plan_json::{NamedAggregate, NamedEntry, NamedOutput};
use vx_plan_nodes::{Aggregate, Columns, Entry, Name, Projected, TypedNode, share_names};
use vx_rows_values::ColType;

/// The columns of a node's output, to be read or shared.
pub fn columns(node: &TypedNode) -> &Arc<Columns>
    ensures { columns_of (arc_value result.now) ≡ columns (outline_of node.now) }
{
    &node.head().columns
}

// Copies of these names at the end of a list.
fn put_names(alloc: Global, list: &mut Vec<String>, names: &[String]) -> Result<(), AllocError>
    ensures { OnOk result (map string_bytes list.new.items ≡ map string_bytes list.old.items ++ map string_bytes names.now) }
{
    for name in names {
        list.push(String::from_str(alloc, name.as_str())?)?;
    }
    Ok(())
}

/// A copy of a list of names.
pub fn copied_names(alloc: Global, names: &[String]) -> Result<Vec<String>, AllocError>
    ensures { IfOk result (λ v. map string_bytes v.items ≡ map string_bytes names.now) }
{
    let mut copies = Vec::new(alloc);
    put_names(alloc, &mut copies, names)?;
    Ok(copies)
}

/// The left columns, then the right ones, with the names of both shared.
pub fn side_by_side(
    alloc: Global,
    left: &Columns,
    right: &Columns,
) -> Result<Arc<Columns>, AllocError>
    ensures { IfOk result (λ c. columns_of (arc_value c) ≡ both_columns (columns_of left.now) (columns_of right.now)) }
{
    let mut names = Vec::new(alloc);
    share_names(&mut names, left.names.as_slice())?;
    share_names(&mut names, right.names.as_slice())?;
    let mut types = Vec::from_slice(alloc, left.types.as_slice())?;
    types.extend_from_slice(right.types.as_slice())?;
    Ok(Arc::new(alloc, Columns { names, types })?)
}

/// Columns with names of their own.
pub fn own_columns(
    alloc: Global,
    names: Vec<String>,
    types: Vec<ColType>,
) -> Result<Arc<Columns>, AllocError>
    ensures { IfOk result (λ c. columns_of (arc_value c) ≡ record { names = map string_bytes names.items; types = types.items }) }
{
    let names = Name::without_prefix(alloc, names)?;
    Ok(Arc::new(alloc, Columns { names, types })?)
}

fn output_name(alloc: Global, output: &NamedOutput) -> Result<String, AllocError>
    ensures { IfOk result (λ s. string_bytes s ≡ output_name (output_form output.now)) }
{
    match &output.renamed {
        Some(name) => String::from_str(alloc, name.as_str()),
        None => String::from_str(alloc, output.column.as_str()),
    }
}

/// The names of kept columns.
pub fn output_names(alloc: Global, outputs: &[NamedOutput]) -> Result<Vec<String>, AllocError>
    ensures { IfOk result (λ v. map string_bytes v.items ≡ map output_name (map output_form outputs.now)) }
{
    let mut names = Vec::new(alloc);
    for output in outputs {
        names.push(output_name(alloc, output)?)?;
    }
    Ok(names)
}

/// The types of kept columns.
pub fn kept_types(
    alloc: Global,
    types: &[ColType],
    kept: &[Projected],
) -> Result<Vec<ColType>, AllocError>
    ensures { IfOk result (λ v. v.items ≡ map (λ k. type_at types.now k.column) kept.now) }
{
    let mut found = Vec::new(alloc);
    for k in kept {
        found.push(type_at(types, k.column))?;
    }
    Ok(found)
}

fn entry_name(alloc: Global, entry: &NamedEntry) -> Result<String, AllocError>
    ensures { IfOk result (λ s. string_bytes s ≡ entry_name (entry_form entry.now)) }
{
    match entry {
        NamedEntry::Kept(output) => output_name(alloc, output),
        NamedEntry::Made(_, name) => String::from_str(alloc, name.as_str()),
    }
}

/// The names of the columns of a projection.
pub fn entry_names(alloc: Global, entries: &[NamedEntry]) -> Result<Vec<String>, AllocError>
    ensures { IfOk result (λ v. map string_bytes v.items ≡ map entry_name (map entry_form entries.now)) }
{
    let mut names = Vec::new(alloc);
    for entry in entries {
        names.push(entry_name(alloc, entry)?)?;
    }
    Ok(names)
}

fn entry_type(types: &[ColType], entry: &Entry) -> ColType
    ensures { result ≡ entry_type types.now (entry_of entry.now) }
{
    match entry {
        Entry::Kept(kept) => type_at(types, kept.column),
        Entry::Made(expression) => expression.answer_type(types),
    }
}

/// The types of the columns of a projection.
pub fn entry_types(
    alloc: Global,
    types: &[ColType],
    entries: &[Entry],
) -> Result<Vec<ColType>, AllocError>
    ensures { IfOk result (λ v. v.items ≡ map (entry_type types.now) (map entry_of entries.now)) }
{
    let mut found = Vec::new(alloc);
    for entry in entries {
        found.push(entry_type(types, entry))?;
    }
    Ok(found)
}

/// The names of a group's output: those of its keys, then those of its aggregates.
pub fn group_names(
    alloc: Global,
    by: &[String],
    aggregates: &[NamedAggregate],
) -> Result<Vec<String>, AllocError>
    ensures { IfOk result (λ v. map string_bytes v.items ≡ map string_bytes by.now ++ map (λ a. a.name) (map aggregate_form aggregates.now)) }
{
    let mut names = Vec::new(alloc);
    put_names(alloc, &mut names, by)?;
    put_aggregate_names(alloc, &mut names, aggregates)?;
    Ok(names)
}

fn put_aggregate_names(
    alloc: Global,
    list: &mut Vec<String>,
    aggregates: &[NamedAggregate],
) -> Result<(), AllocError>
    ensures { OnOk result (map string_bytes list.new.items ≡ map string_bytes list.old.items ++ map (λ a. a.name) (map aggregate_form aggregates.now)) }
{
    for aggregate in aggregates {
        list.push(String::from_str(alloc, aggregate.name.as_str())?)?;
    }
    Ok(())
}

fn aggregate_type(types: &[ColType], aggregate: Aggregate) -> ColType
    ensures { result ≡ aggregate_type types.now (aggregate_of aggregate) }
{
    match aggregate {
        Aggregate::Least(column) | Aggregate::Greatest(column) => type_at(types, column),
        Aggregate::Sum(_) | Aggregate::CountRows => ColType::Int,
    }
}

fn put_types(
    list: &mut Vec<ColType>,
    types: &[ColType],
    columns: &[usize],
) -> Result<(), AllocError>
    ensures { OnOk result (list.new.items ≡ list.old.items ++ map (type_at types.now) columns.now) }
{
    for column in columns {
        list.push(type_at(types, *column))?;
    }
    Ok(())
}

fn put_aggregate_types(
    list: &mut Vec<ColType>,
    types: &[ColType],
    aggregates: &[Aggregate],
) -> Result<(), AllocError>
    ensures { OnOk result (list.new.items ≡ list.old.items ++ map (aggregate_type types.now) (map aggregate_of aggregates.now)) }
{
    for aggregate in aggregates {
        list.push(aggregate_type(types, *aggregate))?;
    }
    Ok(())
}

/// The types of a group's output: those of its keys, then those of its aggregates.
pub fn group_types(
    alloc: Global,
    types: &[ColType],
    by: &[usize],
    aggregates: &[Aggregate],
) -> Result<Vec<ColType>, AllocError>
    ensures { IfOk result (λ v. v.items ≡ map (type_at types.now) by.now ++ map (aggregate_type types.now) (map aggregate_of aggregates.now)) }
{
    let mut found = Vec::new(alloc);
    put_types(&mut found, types, by)?;
    put_aggregate_types(&mut found, types, aggregates)?;
    Ok(found)
}

/// The columns of a relation, with a prefix before each name.
pub fn scanned(alloc: Global, relation: &Relation, prefix: &str) -> Result<Arc<Columns>, AllocError>
    ensures { IfOk result (λ c. columns_of (arc_value c) ≡ scan_columns relation.now prefix.now) }
{
    let prefix = Arc::new(alloc, String::from_str(alloc, prefix)?)?;
    let names = Name::with_prefix(alloc, &prefix, relation.shared_names())?;
    let types = Vec::from_slice(alloc, relation.types())?;
    Ok(Arc::new(alloc, Columns { names, types })?)
}
