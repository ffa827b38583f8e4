//! Whether the functions of values answer what files of cases say.
//!
//! The arguments name files. A line `["NAME", VALUE ..] => ANSWER` is a case: the answer is a value in JSON, `overflow`, `no function` of that
//! name, or `no signature` of values of these types. A case that comes to another answer is printed with it. Behind each file stands the number of its cases.
#![tactic(auto)]

use anyhow::{Context, Error};
use serde_json::{Value as Json, from_str};
use std::alloc::{AllocError, Global};
use std::{env, fs};
use vx_functions::StandardFunction;
use vx_rows_values::{Cell, ColType, Value};

// A value of JSON as a cell: a number of 64 bits, or a text.
fn cell_of(value: &Json) -> Option<Cell<'_>> {
    match value {
        Json::String(text) => Some(Cell::Text(text.as_str())),
        _ => Some(Cell::Int(value.as_i64()?)),
    }
}

// The values behind the name.
fn cells_of(alloc: Global, values: &[Json]) -> Result<Option<Vec<Cell<'_>>>, AllocError> {
    let mut cells = Vec::new(alloc);
    for value in values {
        let Some(cell) = cell_of(value) else {
            return Ok(None);
        };
        cells.push(cell)?;
    }
    Ok(Some(cells))
}

fn types_of(alloc: Global, cells: &[Cell<'_>]) -> Result<Vec<ColType>, AllocError> {
    let mut types = Vec::new(alloc);
    for cell in cells {
        types.push(cell.col_type())?;
    }
    Ok(types)
}

// An answer as text.
fn told(alloc: Global, answer: Option<Value>) -> Result<String, AllocError> {
    match answer {
        Some(Value::Int(n)) => format!(in alloc; "{n}"),
        Some(Value::Text(text)) => format!(in alloc; "{text:?}"),
        None => String::from_str(alloc, "overflow"),
    }
}

// What a function answers of these values.
fn applied(alloc: Global, name: &str, cells: &[Cell<'_>]) -> Result<String, AllocError> {
    let Some(function) = StandardFunction::named(name) else {
        return String::from_str(alloc, "no function");
    };
    let types = types_of(alloc, cells)?;
    if function.signature(types.as_slice()).is_none() {
        return String::from_str(alloc, "no signature");
    }
    told(alloc, function.apply(alloc, cells)?)
}

// What a call comes to.
fn outcome(alloc: Global, call: &str) -> Result<String, Error> {
    let value: Json = from_str(alloc, call)?;
    if let Json::Array(words) = &value {
        if let [Json::String(name), values @ ..] = words.as_slice() {
            if let Some(cells) = cells_of(alloc, values)? {
                return Ok(applied(alloc, name.as_str(), cells.as_slice())?);
            }
        }
    }
    Ok(String::from_str(alloc, "no call")?)
}

// Prints a case that comes to another answer than the line says.
fn tell(rt: &(impl Print + AllocGlobal), line: &str) -> Result<(), Error> {
    let Some((call, wanted)) = line.split_once(" => ") else {
        println!(rt; "no case: {line}")?;
        return Ok(());
    };
    let given = outcome(rt.alloc(), call)?;
    if given.as_str() != wanted {
        println!(rt; "{call}: {given}, and not {wanted}")?;
    }
    Ok(())
}

fn tell_all(rt: &(impl Print + AllocGlobal), name: &str, text: &str) -> Result<(), Error> {
    let mut count = 0u64;
    for line in text.lines() {
        tell(rt, line)?;
        count = count.saturating_add(1);
    }
    println!(rt; "{name}: {count} cases")?;
    Ok(())
}

fn main(rt: HostRuntime) -> Result<(), Error> {
    for argument in env::args(&rt)?.skip(1) {
        let path = argument.as_str();
        let text = fs::read_to_string(&rt, path).context(format_args!("reading {path}"))?;
        tell_all(&rt, path, text.as_str())?;
    }
    Ok(())
}
