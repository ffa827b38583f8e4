//! What the calls answer, as texts.

use std::alloc::{AllocError, Global};
use std::test::Fail;
use test_relations::{generated, plan_of_query};
use vx_catalog::{Database, format_rows};
use vx_catalog_bytes::MemoryOut;
use vx_plan::erase;
use vx_plan_nodes::{StandardFunctions, name_texts};
use vx_serial::eval;
use vx_wisconsin::{GenerateFault, generate, plan};

// The most bytes of a row that are shown.
const SHOWN: usize = 100;

/// The digest of a text: the hash FNV-1a, in 64 bits.
pub fn digest(text: &[u8]) -> u64 {
    let mut digest = 14_695_981_039_346_656_037u64;
    for byte in text {
        digest = (digest ^ u64::from(*byte)).wrapping_mul(1_099_511_628_211);
    }
    digest
}

// A `word` on a text, and how many lines and bytes it has, with its digest.
fn summary(alloc: Global, word: &str, text: &[u8]) -> Result<String, AllocError> {
    let lines = text.iter().filter(|byte| **byte == b'\n').count();
    let digest = digest(text);
    format!(in alloc;
        "{word}, {lines} lines, {} bytes, digest {digest}",
        text.len()
    )
}

/// What comes of generating so many `rows`, where the writer takes at most `at_once` bytes in a call, and `room` bytes in all.
pub fn written(alloc: Global, rows: u32, at_once: u32, room: u32) -> Result<String, AllocError> {
    let mut out = MemoryOut::new(alloc, at_once as usize, room as usize);
    let word = match generate(alloc, u64::from(rows), &mut out) {
        Ok(()) => "written",
        Err(GenerateFault::TooLarge) => "TooLarge",
        Err(GenerateFault::WriteFailed) => "WriteFailed",
        Err(GenerateFault::NoMemory) => "NoMemory",
    };
    summary(alloc, word, out.bytes())
}

/// So many lines, `count`, of the text of `rows` rows, from the line `first` on, where the header is line 0: with `/` for the end of a line.
pub fn lines_of(alloc: Global, rows: u32, first: u32, count: u32) -> Result<String, Fail> {
    let text = generated(alloc, u64::from(rows))?;
    let mut lines = String::new(alloc);
    for line in text.lines().skip(first as usize).take(count as usize) {
        lines.push_str(line)?;
        lines.push('/')?;
    }
    Ok(lines)
}

// Whether the plan of a query is total, as words, and the text of its rows by the serial evaluation.
fn result_of(
    alloc: Global,
    database: &Database,
    query: u32,
) -> Result<(&'static str, String), Fail> {
    let plan = plan_of_query(alloc, query)?;
    let plan = plan.plan();
    let word = if plan.is_total() {
        "total"
    } else {
        "not total"
    };
    let rows = eval(alloc, &StandardFunctions, &erase(alloc, plan)?, database)?;
    let names = name_texts(alloc, plan.root().head().columns.names.as_slice())?;
    let text = String::from_utf8(format_rows(alloc, names.as_slice(), &rows)?)?;
    Ok((word, text))
}

/// What comes of a query over the relations of `database`, with the front of its first row; or that there is no such query.
pub fn queried(alloc: Global, database: &Database, query: u32) -> Result<String, Fail> {
    if plan(query).is_none() {
        return Ok(String::from_str(alloc, "none")?);
    }
    let (word, text) = result_of(alloc, database, query)?;
    let summary = summary(alloc, word, text.as_bytes())?;
    let row = text.lines().nth(1).unwrap_or("");
    let front = row.get(..SHOWN).unwrap_or(row);
    Ok(format!(in alloc; "{summary}: {front}")?)
}
