//! What is said of a refusal of what arguments ask for, from the files that they name.

use crate::again::ReadAgain;
use crate::bundles::place_in_bundle;
use crate::catalogs::catalog_diagnostic;
use crate::checks::{check_diagnostic, first_failure, fitted};
use crate::fault::PlaceFault;
use crate::files::{bytes_at, catalog_at, shown_name};
use crate::inputs::Inputs;
use crate::meant::add_meant;
use crate::plans::{plan_diagnostic, plan_of};
use crate::reasons::{Reason, Reasons};
use crate::source_text::SourceText;
use crate::tables::{file_diagnostic, load_diagnostic};
use crate::unloaded::place_in_tables;
use crate::with_input::WithInput;
use std::alloc::{AllocError, Global};
use volcano_diagnostics::{Diagnostic, Label, Note};
use volcano_refusals::Refusal;
use volcano_why::entry;
use vx_catalog_bytes::Store;
use vx_catalog_relations::{Catalog, CatalogFault};
use vx_check_rules::Rule;
use vx_plan_json::PlanFault;

// The text of the file at a path, which is all of what is meant.
fn whole_text<'t>(path: &'t str, text: &'t [u8]) -> SourceText<'t> {
    SourceText {
        file: shown_name(path),
        text,
        inside: &[],
    }
}

// Of a catalog that is refused.
fn diagnose_catalog<F: Store>(
    alloc: Global,
    files: &F,
    path: &str,
    fault: &CatalogFault,
) -> Result<Option<Diagnostic>, PlaceFault> {
    let Some(text) = bytes_at(alloc, files, path)? else {
        return Ok(None);
    };
    let source = whole_text(path, text.as_slice());
    Ok(Some(catalog_diagnostic(alloc, &source, fault)?))
}

// Whether a plan is one that fits the catalog.
fn is_fitted(
    alloc: Global,
    source: &SourceText<'_>,
    catalog: Option<&Catalog>,
) -> Result<bool, PlaceFault> {
    let Some(plan) = plan_of(alloc, source)? else {
        return Ok(false);
    };
    match catalog {
        Some(catalog) => Ok(fitted(alloc, &plan, catalog)?.is_some()),
        None => Ok(false),
    }
}

// Of the first plan that does not fit its catalog.
fn diagnose_plans<F: Store>(
    alloc: Global,
    files: &F,
    inputs: &Inputs<'_>,
    fault: &PlanFault,
) -> Result<Option<Diagnostic>, PlaceFault> {
    let catalog = catalog_at(alloc, files, inputs.catalog)?;
    for path in inputs.plans {
        let Some(text) = bytes_at(alloc, files, path)? else {
            return Ok(None);
        };
        let source = whole_text(path, text.as_slice());
        if !is_fitted(alloc, &source, catalog.as_ref())? {
            let mut found = plan_diagnostic(alloc, &source, inputs.draws_all, fault)?;
            if let Some(catalog) = &catalog {
                add_meant(alloc, &mut found, catalog, fault)?;
            }
            return Ok(Some(found));
        }
    }
    Ok(None)
}

// Of a plan whose claims do not follow; nothing of one whose claims do.
fn diagnose_claims(
    alloc: Global,
    source: &SourceText<'_>,
    catalog: &Catalog,
    draws_all: bool,
    refused: (Rule, u32),
) -> Result<Option<Diagnostic>, PlaceFault> {
    let Some(plan) = plan_of(alloc, source)? else {
        return Ok(None);
    };
    let Some(typed) = fitted(alloc, &plan, catalog)? else {
        return Ok(None);
    };
    if first_failure(alloc, &typed)?.is_none() {
        return Ok(None);
    }
    let found = check_diagnostic(alloc, source, &plan, &typed, draws_all, refused)?;
    Ok(Some(found))
}

// Of the first plan whose claims do not follow.
fn diagnose_checks<F: Store>(
    alloc: Global,
    files: &F,
    inputs: &Inputs<'_>,
    refused: (Rule, u32),
) -> Result<Option<Diagnostic>, PlaceFault> {
    let Some(catalog) = catalog_at(alloc, files, inputs.catalog)? else {
        return Ok(None);
    };
    for path in inputs.plans {
        let Some(text) = bytes_at(alloc, files, path)? else {
            return Ok(None);
        };
        let source = whole_text(path, text.as_slice());
        let found = diagnose_claims(alloc, &source, &catalog, inputs.draws_all, refused)?;
        if found.is_some() {
            return Ok(found);
        }
    }
    Ok(None)
}

// Whether a path goes up from a folder that it begins with.
fn leads_out(folder: &str, path: &str) -> bool {
    let Some(name) = path.strip_prefix(folder) else {
        return false;
    };
    for part in name.split('/') {
        if part == ".." {
            return !folder.is_empty();
        }
    }
    false
}

// Why the file at a path is not read.
fn reason_of<F: Reasons>(files: &F, folder: &str, path: &str) -> Option<Reason> {
    if leads_out(folder, path) {
        return Some(Reason::LeadsOut);
    }
    files.reason(path)
}

// Where it is, if that is found.
fn place_of<F: Store + Reasons>(
    alloc: Global,
    files: &F,
    inputs: &Inputs<'_>,
    refusal: &Refusal,
) -> Result<Option<Diagnostic>, PlaceFault> {
    match refusal {
        Refusal::Catalog(fault) => diagnose_catalog(alloc, files, inputs.catalog, fault),
        Refusal::Plan(fault) => diagnose_plans(alloc, files, inputs, fault),
        Refusal::Check { rule, node } => diagnose_checks(alloc, files, inputs, (*rule, *node)),
        Refusal::Load(fault) => load_diagnostic(alloc, files, inputs, *fault),
        Refusal::FileUnreadable { path } => {
            let reason = reason_of(files, inputs.folder, path.as_str());
            Ok(Some(file_diagnostic(alloc, path.as_str(), reason)?))
        }
        _ => Ok(None),
    }
}

// The usual cause and the cure of what has this code, in one line.
fn cure_of(alloc: Global, code: &str) -> Result<Option<String>, AllocError> {
    let Some(text) = entry(code) else {
        return Ok(None);
    };
    let Some((_, rest)) = text.split_once("Usual cause, and cure: ") else {
        return Ok(None);
    };
    let cure = match rest.split_once("\nExample: ") {
        Some((cure, _)) => cure,
        None => rest,
    };
    Ok(Some(cure.replace(alloc, "\n", " ")?))
}

// Whether it is said already what would help: there is help, the place in a JSON text and what is expected there, or why a file is not
// read.
fn is_helped(found: &Diagnostic) -> bool {
    let is_in_json = found.character.is_some();
    let is_of_file = found.lines.is_empty();
    found.notes.iter().any(|note| match note.label {
        Label::Help => true,
        Label::Expected => is_in_json,
        Label::Reason => is_of_file,
        Label::Found | Label::Claimed | Label::Shown => false,
    })
}

// Adds the usual cause and the cure, unless there is help already.
fn add_cure(alloc: Global, found: &mut Diagnostic, refusal: &str) -> Result<(), AllocError> {
    if is_helped(found) {
        return Ok(());
    }
    let Some((code, _)) = refusal.split_once(' ') else {
        return Ok(());
    };
    match cure_of(alloc, code)? {
        Some(text) => found.add_note(Note {
            label: Label::Help,
            text,
        }),
        None => Ok(()),
    }
}

/// What arguments ask for: the answer to a bundle on standard input, something of files, or the catalog of tables. Or none of these.
#[derive(Clone, Copy)]
pub enum Origin<'a> {
    Bundle,
    Files(Inputs<'a>),
    /// Tables at these paths, in which a catalog is looked for.
    Tables(&'a [&'a str]),
    Neither,
}

/// What is said of a refusal: where it is, if that is found again in the files that arguments name or in what was read of standard
/// input; what was expected there; and what would help. The text of the refusal is its line without the program's name.
pub fn diagnose<F: Store + Reasons>(
    alloc: Global,
    files: &F,
    input: Option<&[u8]>,
    origin: &Origin<'_>,
    refusal: &Refusal,
    text: &str,
) -> Result<Diagnostic, AllocError> {
    let files = ReadAgain { files };
    let place = match (origin, input) {
        (Origin::Files(inputs), _) => {
            let files = WithInput {
                files: &files,
                input,
            };
            place_of(alloc, &files, inputs, refusal)
        }
        (Origin::Tables(paths), _) => place_in_tables(alloc, &files, *paths, refusal),
        (Origin::Bundle, Some(bundle)) => place_in_bundle(alloc, bundle, refusal),
        _ => Ok(None),
    };
    let mut found = match place {
        Ok(Some(found)) => found,
        _ => Diagnostic::new(alloc),
    };
    add_cure(alloc, &mut found, text)?;
    Ok(found)
}
