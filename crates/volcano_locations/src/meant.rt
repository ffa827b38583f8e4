//! The name that may have been meant in the place of one that a catalog does not have.

use crate::source_text::add_nearest;
use std::alloc::{AllocError, Global};
use volcano_diagnostics::Diagnostic;
use volcano_documents::nearest_word;
use vx_catalog_relations::Catalog;
use vx_plan_json::PlanFault;

// The names of relations.
fn relations<'c>(alloc: Global, catalog: &'c Catalog) -> Result<Vec<&'c str>, AllocError> {
    let mut names = Vec::new(alloc);
    for relation in 0..catalog.len() {
        names.push(catalog.get(relation).name())?;
    }
    Ok(names)
}

// The names of columns of all relations.
fn columns<'c>(alloc: Global, catalog: &'c Catalog) -> Result<Vec<&'c str>, AllocError> {
    let mut names = Vec::new(alloc);
    for relation in 0..catalog.len() {
        push_columns(&mut names, catalog.get(relation).names())?;
    }
    Ok(names)
}

fn push_columns<'c>(names: &mut Vec<&'c str>, columns: &'c [String]) -> Result<(), AllocError> {
    for column in columns {
        names.push(column.as_str())?;
    }
    Ok(())
}

// The name that is nearest to one that was not found, if one is near.
fn meant<'c>(
    alloc: Global,
    catalog: &'c Catalog,
    fault: &PlanFault,
) -> Result<Option<&'c str>, AllocError> {
    match fault {
        PlanFault::UnknownRelation { name, .. } => {
            let names = relations(alloc, catalog)?;
            nearest_word(alloc, names.as_slice(), name.as_str())
        }
        PlanFault::UnknownColumn { name, .. } => {
            let names = columns(alloc, catalog)?;
            nearest_word(alloc, names.as_slice(), name.as_str())
        }
        _ => Ok(None),
    }
}

/// Adds the name of a relation or a column that may have been meant, if one is near.
pub fn add_meant(
    alloc: Global,
    found: &mut Diagnostic,
    catalog: &Catalog,
    fault: &PlanFault,
) -> Result<(), AllocError> {
    match meant(alloc, catalog, fault)? {
        Some(name) => add_nearest(alloc, found, Some(String::from_str(alloc, name)?)),
        None => Ok(()),
    }
}
