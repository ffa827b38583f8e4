//! The plans to measure on, and their relations.

use crate::plans::accepted;
use crate::rows::fill;
use std::alloc::Global;
use std::test::Fail;
use vx_catalog::Database;
use vx_catalog_bytes::MemoryOut;
use vx_catalog_relations::Catalog;
use vx_check_rules::CheckedPlan;
use vx_wisconsin::{catalog, generate, plan};

/// The text of `rows` rows of the relations that are generated.
pub fn generated(alloc: Global, rows: u64) -> Result<String, Fail> {
    let mut out = MemoryOut::new(alloc, 1_000_000, 1_000_000_000);
    generate(alloc, rows, &mut out)?;
    Ok(String::from_utf8(Vec::from_slice(alloc, out.bytes())?)?)
}

/// The relations that are generated. `rows` holds the number of rows of each.
pub fn generated_database(alloc: Global, rows: &[u64]) -> Result<Database, Fail> {
    let catalog = Catalog::read(alloc, catalog().as_bytes())?;
    let mut database = Database::empty(alloc, &catalog)?;
    for (relation, rows) in rows.iter().enumerate() {
        let text = generated(alloc, *rows)?;
        fill(alloc, &catalog, &mut database, relation, text.as_str())?;
    }
    Ok(database)
}

/// The plan of a query over these relations, as the checker accepts it.
pub fn plan_of_query(alloc: Global, query: u32) -> Result<CheckedPlan, Fail> {
    match plan(query) {
        Some(text) => accepted(alloc, &Catalog::read(alloc, catalog().as_bytes())?, text),
        None => Err(Fail::new("the query has a plan")),
    }
}
