//! Which of the tables is at fault in which a catalog is looked for, and where.

use crate::fault::PlaceFault;
use crate::files::bytes_at;
use crate::reasons::Reasons;
use crate::spots::spot_of;
use crate::tables::{file_diagnostic, table_diagnostic};
use std::alloc::Global;
use volcano_diagnostics::Diagnostic;
use volcano_refusals::Refusal;
use vx_catalog::LoadFault;
use vx_catalog_bytes::Store;
use vx_catalog_finding::{FindFault, header_catalog};
use vx_catalog_relations::Catalog;

// Of a table with this header, if it is at fault so.
fn table_place<F: Store>(
    alloc: Global,
    files: &F,
    path: &str,
    header: &Catalog,
    fault: LoadFault,
) -> Result<Option<Diagnostic>, PlaceFault> {
    if header.is_empty() {
        return Ok(None);
    }
    let relation = header.get(0);
    match spot_of(alloc, files, path, relation, fault)? {
        Some(spot) => Ok(Some(table_diagnostic(alloc, files, relation, path, &spot, fault)?)),
        None => Ok(None),
    }
}

// Of the table at a path, if this is why it has no relation.
fn place_in_table<F: Store>(
    alloc: Global,
    files: &F,
    path: &str,
    refusal: &Refusal,
) -> Result<Option<Diagnostic>, PlaceFault> {
    let Some(text) = bytes_at(alloc, files, path)? else {
        return Ok(None);
    };
    match (header_catalog(alloc, path, text.as_slice()), refusal) {
        (Ok(header), Refusal::Load(fault)) => table_place(alloc, files, path, &header, *fault),
        (Err(FindFault::Load { .. }), Refusal::Load(_))
        | (Err(FindFault::Catalog(_)), Refusal::Catalog(_)) => {
            Ok(Some(file_diagnostic(alloc, path, None)?))
        }
        _ => Ok(None),
    }
}

/// Of the first of the tables at these paths that is at fault so, if that is found.
pub fn place_in_tables<F: Store + Reasons>(
    alloc: Global,
    files: &F,
    paths: &[&str],
    refusal: &Refusal,
) -> Result<Option<Diagnostic>, PlaceFault> {
    if let Refusal::FileUnreadable { path } = refusal {
        let reason = files.reason(path.as_str());
        return Ok(Some(file_diagnostic(alloc, path.as_str(), reason)?));
    }
    for path in paths {
        let found = place_in_table(alloc, files, path, refusal)?;
        if found.is_some() {
            return Ok(found);
        }
    }
    Ok(None)
}
