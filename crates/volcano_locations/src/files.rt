//! Files that are read once more, after a refusal. What stands for standard input is read from what the store keeps of it.

ghost use Rattle.std.specs.Prelude.{◌≡◌, IfOk, IfSome};
ghost use Rattle.vx_catalog_bytes.specs.Stored.{IfBytes};

use crate::fault::PlaceFault;
use std::alloc::Global;
use vx_catalog_bytes::{ReadFault, Store, read_all};
use vx_catalog_relations::{Catalog, CatalogFault};
use vx_plan_json::{Plan, PlanFault};
use vx_rows_values::limits::MAX_TEXT_BYTES;

// The path of standard input.
const INPUT: &str = "-";

/// How a file is named to people.
pub fn shown_name(path: &str) -> &str {
    if path == INPUT {
        "standard input"
    } else {
        path
    }
}

/// All bytes of the file at a path, if there is one.
pub fn bytes_at<F: Store>(
    alloc: Global,
    files: &F,
    path: &str,
) -> Result<Option<Vec<u8>>, PlaceFault>
    ensures { IfOk result (λ o. IfSome o (λ v. IfBytes (F.holds files.now path.now) (λ bytes. bytes ≡ v.items))) }
{
    let Some(mut file) = files.open(path) else {
        return Ok(None);
    };
    match read_all(alloc, &mut file, MAX_TEXT_BYTES) {
        Ok(bytes) => Ok(Some(bytes)),
        Err(ReadFault::NoMemory) => Err(PlaceFault::NoMemory),
        Err(ReadFault::Broken | ReadFault::TooLarge) => Err(PlaceFault::Unreadable),
    }
}

/// The catalog at a path, if there is one.
pub fn catalog_at<F: Store>(
    alloc: Global,
    files: &F,
    path: &str,
) -> Result<Option<Catalog>, PlaceFault> {
    let Some(bytes) = bytes_at(alloc, files, path)? else {
        return Ok(None);
    };
    match Catalog::read(alloc, bytes.as_slice()) {
        Ok(catalog) => Ok(Some(catalog)),
        Err(CatalogFault::NoMemory) => Err(PlaceFault::NoMemory),
        Err(_) => Ok(None),
    }
}

/// The plan at a path, if there is one.
pub fn plan_at<F: Store>(alloc: Global, files: &F, path: &str) -> Result<Option<Plan>, PlaceFault> {
    let Some(bytes) = bytes_at(alloc, files, path)? else {
        return Ok(None);
    };
    match Plan::read(alloc, bytes.as_slice()) {
        Ok(plan) => Ok(Some(plan)),
        Err(PlanFault::NoMemory) => Err(PlaceFault::NoMemory),
        Err(_) => Ok(None),
    }
}
