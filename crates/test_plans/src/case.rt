//! A case as its file has it.

use crate::built::built_text;
use crate::call::Call;
use crate::member::text_at;
use anyhow::{Context, Error, bail};
use serde_json::Value as Json;
use std::alloc::{AllocError, Global};
use vx_plan_json::{Plan, to_json};

/// A call over a plan, and what it has to give.
#[derive(Drop)]
pub struct Case {
    pub call: Call,
    /// The bytes of the plan.
    pub plan: Vec<u8>,
    /// The bytes of the plan that it is compared with, if the call compares.
    pub other: Vec<u8>,
    pub gives: String,
}

/// Whether an entry is a note on the cases behind it.
pub fn is_note(entry: &Json) -> bool {
    entry.get("note").is_some()
}

// The bytes of a list of numbers.
fn bytes_of(alloc: Global, numbers: &[Json]) -> Result<Vec<u8>, Error> {
    let mut bytes = Vec::new(alloc);
    for number in numbers {
        let byte = number.as_u64().context("a byte is no number")?;
        bytes.push(u8::try_from(byte).context("a byte is over 255")?)?;
    }
    Ok(bytes)
}

// The text of a value.
fn written(alloc: Global, value: &Json) -> Result<Vec<u8>, AllocError> {
    Ok(value.to_string(alloc)?.into_bytes())
}

// The bytes of the plan: a JSON value in `plan`, a text in `text`, the parts of a text in `built`, or a list of numbers
// in `bytes`.
fn plan_in(alloc: Global, entry: &Json) -> Result<Vec<u8>, Error> {
    if let Some(value) = entry.get("plan") {
        return Ok(written(alloc, value)?);
    }
    if let Some(text) = entry.get("text").and_then(Json::as_str) {
        return Ok(Vec::from_slice(alloc, text.as_bytes())?);
    }
    if let Some(parts) = entry.get("built") {
        return Ok(built_text(alloc, parts)?.into_bytes());
    }
    match entry.get("bytes").and_then(Json::as_array) {
        Some(numbers) => bytes_of(alloc, numbers.as_slice()),
        None => bail!("it has no plan"),
    }
}

// The bytes of the plan to compare with: a JSON value in `other`, a text in `other_text`, or none.
fn other_in(alloc: Global, entry: &Json) -> Result<Vec<u8>, AllocError> {
    if let Some(value) = entry.get("other") {
        return written(alloc, value);
    }
    let text = entry.get("other_text").and_then(Json::as_str).unwrap_or("");
    Vec::from_slice(alloc, text.as_bytes())
}

// What has to come: a text, or a plan as it is written.
fn gives_in(alloc: Global, entry: &Json) -> Result<String, Error> {
    let gives = entry
        .get("gives")
        .context("it says nothing of what is given")?;
    if let Some(text) = gives.as_str() {
        return Ok(String::from_str(alloc, text)?);
    }
    let plan = Plan::of_value(alloc, gives)?;
    Ok(to_json(alloc, &plan)?)
}

impl Case {
    /// The case of an entry.
    pub fn read(alloc: Global, entry: &Json) -> Result<Case, Error> {
        let call = Call::named(text_at(entry, "call")?).context("it names no call")?;
        Ok(Case {
            call,
            plan: plan_in(alloc, entry)?,
            other: other_in(alloc, entry)?,
            gives: gives_in(alloc, entry)?,
        })
    }
}
