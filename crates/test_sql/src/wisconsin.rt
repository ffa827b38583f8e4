//! The queries of the Wisconsin benchmark over small relations.

use crate::cases::compare_all;
use std::alloc::Global;
use std::test::Fail;
use test_relations::generated_database;
use vx_wisconsin::plan;

// The rows of each relation.
const ROWS: [u64; 4] = [200, 200, 100, 100];

// The plans of all queries.
fn plans(alloc: Global) -> Result<Vec<&'static str>, Fail> {
    let mut plans = Vec::new(alloc);
    for query in 1..14 {
        if let Some(text) = plan(query) {
            plans.push(text)?;
        }
    }
    Ok(plans)
}

#[test]
fn queries_have_their_rows(rt: HostRuntime) -> Result<(), Fail> {
    let alloc = rt.alloc();
    let database = generated_database(alloc, &ROWS)?;
    let plans = plans(alloc)?;
    assert_eq!(rt; plans.len(), 13);
    compare_all(&rt, alloc, &database, plans.as_slice())
}
