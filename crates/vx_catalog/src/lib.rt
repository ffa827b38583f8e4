//! Databases that meet what a catalog declares: rows are read of texts, and written.
#![tactic(auto)]

mod counted;
mod database;
mod fault;
mod folder;
mod key_numbers;
mod loader;
mod number;
mod record;
mod writing;

pub use counted::{Lent, LimitedReader, Origin};
pub use database::Database;
pub use fault::{LoadFault, WriteFault};
pub use folder::path_in;
pub use loader::{Loaded, Loader, read_text, test_rows, texts_are_loaded_exactly};
pub use record::{is_header, next_record, read_rows, read_sized_rows};
pub use vx_catalog_relations::{
    Catalog, CatalogFault, Relation, catalogs_are_read_exactly, find_name,
};
pub use writing::{format_rows, write_rows};
