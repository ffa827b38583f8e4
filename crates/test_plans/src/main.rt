//! Whether plans are answered as files of cases say.
//!
//! The first word of the command line names a catalog, each further one a file of cases: a JSON value with what it is
//! about and a list of cases and notes. A line is printed for each file, and before it one for each case that is answered
//! otherwise.
#![tactic(auto)]

mod answers;
mod built;
mod call;
mod case;
mod member;
mod outline;

use answers::answer;
use anyhow::{Context, Error};
use case::{Case, is_note};
use serde_json::Value as Json;
use std::path::Path;
use std::rt::Files;
use std::{env, fs};
use vx_catalog_relations::Catalog;

// The JSON value in a file.
fn json_in(rt: &(impl Files + AllocGlobal), path: &str) -> Result<Json, Error> {
    let text = fs::read_to_string(rt, path).context(format_args!("reading {path}"))?;
    let value = Json::from_str(rt.alloc(), text.as_str()).context(format_args!("reading {path}"))?;
    Ok(value)
}

// Shows the case if it is answered otherwise than it says.
fn tell(
    rt: &(impl Print + AllocGlobal),
    catalog: &Catalog,
    name: &str,
    number: u64,
    entry: &Json,
) -> Result<(), Error> {
    let case = Case::read(rt.alloc(), entry).context(format_args!("{name}, case {number}"))?;
    let given = answer(rt.alloc(), catalog, &case)?;
    let wanted = &case.gives;
    if given.as_str() != wanted.as_str() {
        println!(rt; "{name}, case {number}: gave {given:?}, not {wanted:?}")?;
    }
    Ok(())
}

// Shows those cases of a file that are answered otherwise than they say, and how many the file has.
fn tell_all(
    rt: &(impl Print + AllocGlobal),
    catalog: &Catalog,
    name: &str,
    file: &Json,
) -> Result<(), Error> {
    let entries = file
        .get("cases")
        .and_then(Json::as_array)
        .context(format_args!("{name} has no cases"))?;
    let mut number = 0u64;
    for entry in entries {
        if !is_note(entry) {
            number = number.saturating_add(1);
            tell(rt, catalog, name, number, entry)?;
        }
    }
    println!(rt; "{name}: {number} cases")?;
    Ok(())
}

fn main(rt: HostRuntime) -> Result<(), Error> {
    let mut words = env::args(&rt)?.skip(1);
    let path = words.next().context("no catalog is named")?;
    let catalog = Catalog::of_value(rt.alloc(), &json_in(&rt, path.as_str())?)?;
    for word in words {
        let path = word.as_str();
        let name = Path::new(path).file_stem().unwrap_or(path);
        tell_all(&rt, &catalog, name, &json_in(&rt, path)?)?;
    }
    Ok(())
}
