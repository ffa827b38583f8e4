//! Relations that are filled with the rows of texts.

use std::alloc::Global;
use std::test::Fail;
use vx_catalog::{Database, Loader};
use vx_catalog_bytes::MemoryIn;
use vx_catalog_relations::Catalog;

/// Fills a relation with the rows of a text.
pub fn fill(
    alloc: Global,
    catalog: &Catalog,
    database: &mut Database,
    relation: usize,
    text: &str,
) -> Result<(), Fail> {
    if relation >= catalog.len() {
        return Err(Fail::new("the catalog has the relation"));
    }
    let mut reader = MemoryIn::new(text.as_bytes(), None);
    match database.put(Loader::load(alloc, catalog, relation, &mut reader)?) {
        Ok(()) => Ok(()),
        Err(_) => Err(Fail::new("the rows are of this catalog")),
    }
}
