//! What is said of a refusal of a bundle, from its text.

ghost use Rattle.std.specs.Prelude.{◌<◌, length, true};
ghost use Rattle.vx_catalog_bytes.specs.Stored.{present};

use crate::catalogs::catalog_diagnostic;
use crate::checks::{check_diagnostic, fitted};
use crate::fault::PlaceFault;
use crate::plans::{plan_diagnostic, plan_of};
use crate::source_text::{SourceText, add_form};
use crate::spots::spot_of;
use crate::tables::{scans, table_diagnostic};
use serde_json::Value as Json;
use std::alloc::{AllocError, Global};
use volcano_diagnostics::Diagnostic;
use volcano_documents::Document;
use volcano_refusals::Refusal;
use vx_catalog::LoadFault;
use vx_catalog_bytes::{MemoryIn, Store};
use vx_catalog_relations::{Catalog, CatalogFault};
use vx_check_rules::Rule;
use vx_plan_json::Plan;

// How the text of a bundle is named to people.
const INPUT: &str = "standard input";

// A part of a bundle, or all of it.
fn part<'t>(text: &'t [u8], inside: &'t [&'t str]) -> SourceText<'t> {
    SourceText {
        file: INPUT,
        text,
        inside,
    }
}

// Of what is no bundle.
fn form_diagnostic(alloc: Global, text: &[u8]) -> Result<Diagnostic, AllocError> {
    let mut found = Diagnostic::in_file(alloc, INPUT)?;
    let source = part(text, &[]);
    add_form(alloc, &mut found, &source, Document::Bundle)?;
    Ok(found)
}

// The catalog of a bundle, if it is one.
fn catalog_in(alloc: Global, text: &[u8]) -> Result<Option<Catalog>, PlaceFault> {
    let Some(value) = part(text, &["catalog"]).value(alloc)? else {
        return Ok(None);
    };
    match Catalog::of_value(alloc, &value) {
        Ok(catalog) => Ok(Some(catalog)),
        Err(CatalogFault::NoMemory) => Err(PlaceFault::NoMemory),
        Err(_) => Ok(None),
    }
}

// Of a plan whose claims do not follow.
fn claims_diagnostic(
    alloc: Global,
    text: &[u8],
    refused: (Rule, u32),
) -> Result<Option<Diagnostic>, PlaceFault> {
    let source = part(text, &["plan"]);
    let Some(plan) = plan_of(alloc, &source)? else {
        return Ok(None);
    };
    let Some(catalog) = catalog_in(alloc, text)? else {
        return Ok(None);
    };
    let Some(typed) = fitted(alloc, &plan, &catalog)? else {
        return Ok(None);
    };
    let found = check_diagnostic(alloc, &source, &plan, &typed, false, refused)?;
    Ok(Some(found))
}

// A text, which is under every path.
#[derive(Clone, Copy)]
struct OneText<'t> {
    text: &'t str,
}

impl<'t> Store for OneText<'t> {
    type In = MemoryIn<'t>;

    ghost holds = { λ s _. present s.text.now };

    ghost is_reliable = { λ _ _. true };

    fn open(&self, _path: &str) -> Option<MemoryIn<'t>> {
        Some(MemoryIn::new(self.text.as_bytes(), None))
    }
}

// Of the table of the relation with this number, if its text is at fault so.
fn table_in(
    alloc: Global,
    tables: &Json,
    catalog: &Catalog,
    relation: usize,
    fault: LoadFault,
) -> Result<Option<Diagnostic>, PlaceFault>
    requires { relation < length catalog.now }
{
    let relation = catalog.get(relation);
    let name = relation.name();
    let Some(Json::String(text)) = tables.get(name) else {
        return Ok(None);
    };
    let store = OneText {
        text: text.as_str(),
    };
    let path = format!(in alloc; "the table {name} of {INPUT}")?;
    match spot_of(alloc, &store, path.as_str(), relation, fault)? {
        Some(spot) => {
            let found = table_diagnostic(alloc, &store, relation, path.as_str(), &spot, fault)?;
            Ok(Some(found))
        }
        None => Ok(None),
    }
}

// Of the first table that is at fault so, of the relations that the plan scans.
fn first_table(
    alloc: Global,
    tables: &Json,
    catalog: &Catalog,
    plan: &Plan,
    fault: LoadFault,
) -> Result<Option<Diagnostic>, PlaceFault> {
    for relation in 0..catalog.len() {
        if scans(plan.root(), catalog.get(relation).name()) {
            let found = table_in(alloc, tables, catalog, relation, fault)?;
            if found.is_some() {
                return Ok(found);
            }
        }
    }
    Ok(None)
}

// Of a table that is at fault.
fn load_diagnostic(
    alloc: Global,
    text: &[u8],
    fault: LoadFault,
) -> Result<Option<Diagnostic>, PlaceFault> {
    let Some(tables) = part(text, &["tables"]).value(alloc)? else {
        return Ok(None);
    };
    let Some(plan) = plan_of(alloc, &part(text, &["plan"]))? else {
        return Ok(None);
    };
    match catalog_in(alloc, text)? {
        Some(catalog) => first_table(alloc, &tables, &catalog, &plan, fault),
        None => Ok(None),
    }
}

/// Where what was refused of a bundle is, if that is found in its text.
pub fn place_in_bundle(
    alloc: Global,
    text: &[u8],
    refusal: &Refusal,
) -> Result<Option<Diagnostic>, PlaceFault> {
    match refusal {
        Refusal::BadBundle => Ok(Some(form_diagnostic(alloc, text)?)),
        Refusal::Catalog(fault) => {
            let source = part(text, &["catalog"]);
            Ok(Some(catalog_diagnostic(alloc, &source, fault)?))
        }
        Refusal::Plan(fault) => {
            let source = part(text, &["plan"]);
            Ok(Some(plan_diagnostic(alloc, &source, false, fault)?))
        }
        Refusal::Check { rule, node } => claims_diagnostic(alloc, text, (*rule, *node)),
        Refusal::Load(fault) => load_diagnostic(alloc, text, *fault),
        _ => Ok(None),
    }
}
