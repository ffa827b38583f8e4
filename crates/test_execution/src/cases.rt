//! Plans over rows.
//!
//! A line has the name of a plan, its document, its rows of t and of d, how many groups of `many` workers it has beside the worker at the root, and
//! what comes of it: rows, or the line of a fault. A document is named, or written out with words in capitals for scans. It may be `QUERY 7`: then the
//! plan is that query of `vx_wisconsin`, over the relations that are generated. The rows that come are named or written out, or `serial 100`: those
//! of the serial evaluation, which have to be 100. The groups are `-` where no way to run the plan needs to know them.

use crate::lines::first_part;
use crate::rows::rows_of;
use crate::runs::serially;
use std::alloc::{AllocError, Global};
use std::test::Fail;
use test_relations::{accepted, fill, generated_database};
use test_runs::{CATALOG, OTHER_CATALOG, document_named, with_scans};
use vx_catalog::Database;
use vx_catalog_relations::Catalog;
use vx_check_rules::CheckedPlan;
use vx_plan_nodes::PlanFunctions;
use vx_wisconsin::{catalog, plan};

/// A plan over a database.
#[derive(Drop)]
pub struct Case {
    pub plan: CheckedPlan,
    pub database: Database,
    /// How many groups of workers it has beside the worker at the root.
    pub groups: u32,
    /// What comes of it: rows, or the line of a fault.
    pub rows: String,
}

/// A plan as its line has it.
#[derive(Clone, Copy)]
pub struct WorkedPlan<'a> {
    pub name: &'a str,
    pub document: &'a str,
    pub rows_of_t: &'a str,
    pub rows_of_d: &'a str,
    pub groups: u32,
    pub rows: &'a str,
}

/// The plan of a line.
pub fn worked_plan(line: &str) -> WorkedPlan<'_> {
    let (name, rest) = first_part(line);
    let (document, rest) = first_part(rest);
    let (rows_of_t, rest) = first_part(rest);
    let (rows_of_d, rest) = first_part(rest);
    let (groups, rows) = first_part(rest);
    WorkedPlan {
        name,
        document: document_named(document),
        rows_of_t,
        rows_of_d,
        groups: groups.parse::<u32>().unwrap_or(0),
        rows,
    }
}

// Fills a relation with the rows below a header.
fn fill_below(
    alloc: Global,
    catalog: &Catalog,
    database: &mut Database,
    relation: usize,
    header: &str,
    rows: &str,
) -> Result<(), Fail> {
    let text = format!(in alloc; "{header}\n{rows}")?;
    fill(alloc, catalog, database, relation, text.as_str())
}

// A database of a catalog with these rows of t and of d.
fn database_of(
    alloc: Global,
    catalog: &str,
    rows_of_t: &str,
    rows_of_d: &str,
) -> Result<Database, Fail> {
    let catalog = Catalog::read(alloc, catalog.as_bytes())?;
    let mut database = Database::empty(alloc, &catalog)?;
    fill_below(alloc, &catalog, &mut database, 0, "id,k,v", rows_of_t)?;
    fill_below(alloc, &catalog, &mut database, 1, "k,n", rows_of_d)?;
    Ok(database)
}

// The plan of a document over t and d, as the checker accepts it.
fn plan_of(alloc: Global, document: &str) -> Result<CheckedPlan, Fail> {
    let catalog = Catalog::read(alloc, CATALOG.as_bytes())?;
    accepted(alloc, &catalog, with_scans(alloc, document)?.as_str())
}

// The plan of a line over its rows of t, of which there are `count` where they are generated, and of d. If these of t are `OTHER`, the
// database is an empty one of another catalog.
fn small_case(alloc: Global, line: &WorkedPlan<'_>, count: u32) -> Result<Case, Fail> {
    let (catalog, rows_of_t) = match line.rows_of_t {
        "OTHER" => (OTHER_CATALOG, "-"),
        text => (CATALOG, text),
    };
    let rows_of_t = rows_of(alloc, rows_of_t, count)?;
    let rows_of_d = rows_of(alloc, line.rows_of_d, count)?;
    Ok(Case {
        plan: plan_of(alloc, line.document)?,
        database: database_of(alloc, catalog, rows_of_t.as_str(), rows_of_d.as_str())?,
        groups: line.groups,
        rows: String::new(alloc),
    })
}

// The plan of a query. The bounds of its ranges, where it has some, give each of four workers a quarter of `count` rows.
fn query_plan(alloc: Global, query: u32, count: u32) -> Result<CheckedPlan, Fail> {
    let Some(text) = plan(query) else {
        return Err(Fail::new("the query has a plan"));
    };
    let quarter = count / 4;
    let bounds = format!(in alloc;
        "[{quarter}, {}, {}]",
        quarter.saturating_mul(2),
        quarter.saturating_mul(3)
    )?;
    let text = text.replace(alloc, "[2500, 5000, 7500]", bounds.as_str())?;
    let catalog = Catalog::read(alloc, catalog().as_bytes())?;
    accepted(alloc, &catalog, text.as_str())
}

// The plan of a query over relations of `count` rows, and of a tenth of that.
fn query_case(alloc: Global, query: u32, count: u32) -> Result<Case, Fail> {
    let large = u64::from(count);
    let small = u64::from(count / 10);
    Ok(Case {
        plan: query_plan(alloc, query, count)?,
        database: generated_database(alloc, &[large, large, small, small])?,
        groups: 0,
        rows: String::new(alloc),
    })
}

/// The plan of a line over its rows; what comes of it is not known yet. Where relations are generated, `count` says how many rows they have.
pub fn case_of(alloc: Global, line: &WorkedPlan<'_>, count: u32) -> Result<Case, Fail> {
    match line.document.strip_prefix("QUERY ") {
        Some(query) => query_case(alloc, query.parse::<u32>()?, count),
        None => small_case(alloc, line, count),
    }
}

// The rows of a case by serial evaluation, of which there have to be so many as `number` says.
fn serial_rows<F: PlanFunctions>(
    alloc: Global,
    functions: &F,
    case: &Case,
    number: &str,
) -> Result<String, Fail> {
    let rows = serially(alloc, functions, case)?;
    let more = number.parse::<usize>()?;
    if rows.split(';').count() == more.saturating_add(1) {
        return Ok(rows);
    }
    Err(Fail::new("the serial rows are as many as their line says"))
}

/// What comes of a case by its line.
pub fn expected<F: PlanFunctions>(
    alloc: Global,
    functions: &F,
    case: &Case,
    line: &WorkedPlan<'_>,
    count: u32,
) -> Result<String, Fail> {
    match line.rows.strip_prefix("serial ") {
        Some(number) => serial_rows(alloc, functions, case, number),
        None => Ok(rows_of(alloc, line.rows, count)?),
    }
}

// The rows of a text, sorted.
fn sorted(alloc: Global, text: &str) -> Result<Vec<&str>, AllocError> {
    let mut rows = Vec::new(alloc);
    for row in text.split(';') {
        rows.push(row)?;
    }
    rows.sort()?;
    Ok(rows)
}

/// Whether a text has these rows, in the same order if the plan is total.
pub fn agrees(alloc: Global, case: &Case, text: &str, rows: &str) -> Result<bool, AllocError> {
    if case.plan.is_total() {
        return Ok(text == rows);
    }
    Ok(sorted(alloc, text)?.as_slice() == sorted(alloc, rows)?.as_slice())
}
