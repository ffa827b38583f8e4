//! What a catalog declares of its relations, and reading a catalog.
#![tactic(auto)]

mod catalog;
mod fault;
mod form;
mod names;
mod naming;
mod relation;

pub use catalog::{Catalog, catalogs_are_read_exactly};
pub use fault::CatalogFault;
pub use names::find_name;
pub use relation::Relation;
