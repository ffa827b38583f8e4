//! Where the text of a relation lies in a folder.

ghost use Rattle.std.specs.Prelude.{◌≡◌, IfOk, string_bytes};
ghost use Rattle.vx_catalog.specs.Folder.{path_in};

use std::alloc::{AllocError, Global};

/// Where the text of the relation of this name is: in FOLDER/NAME.csv.
pub fn path_in(alloc: Global, folder: &str, name: &str) -> Result<String, AllocError>
    ensures { IfOk result (λ s. string_bytes s ≡ path_in folder.now name.now) }
{
    let mut path = String::from_str(alloc, folder)?;
    path.push_str("/")?;
    path.push_str(name)?;
    path.push_str(".csv")?;
    Ok(path)
}
