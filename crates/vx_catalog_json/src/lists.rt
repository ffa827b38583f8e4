//! Lists of JSON values of one form.

ghost use Rattle.std.specs.Prelude.{[], map, string_bytes, List, ℕ};
ghost use Rattle.serde_json.specs.Find.{get};
ghost use Rattle.serde_json.specs.View.{view};
ghost use Rattle.vx_catalog_json.specs.Look.{Parses, name_in, each_onto, each_in, some_in, or_default};

use crate::look::{get_items, get_some_items, read_name};
use crate::misread::Misread;
use serde_json::Value;
use std::alloc::Global;

/// How a JSON value of one form is read.
pub trait Reader {
    ghost use Rattle.std.specs.Prelude.{Option};
    ghost use Rattle.serde_json.specs.Data.{Data};
    ghost use Rattle.serde_json.specs.View.{view};
    ghost use Rattle.vx_catalog_json.specs.Look.{Parses};

    /// What a value is read as.
    type Item: Drop;

    ghost Form: { Type 0 };

    ghost look: { Self.Item → Form };

    ghost form: { Data → Option Form };

    /// Reads a value of the form.
    fn read(alloc: Global, value: &Value) -> Result<Self::Item, Misread>
        ensures { Parses look result (form (view value.now)) };
}

// Reads each of the values, in order.
#[tactic(auto, using(crate::proofs::EachFacts::each_steps))]
fn read_each<R: Reader>(alloc: Global, values: &[Value]) -> Result<Vec<R::Item>, Misread>
    ensures { Parses (λ v. map R.look v.items) result (each_onto R.form [] (map view values.now)) }
{
    let mut found = Vec::new(alloc);
    for value in values {
        found.push(R::read(alloc, value)?)?;
    }
    Ok(found)
}

/// Reads an array, each of whose items has the form.
pub fn read_list<R: Reader>(alloc: Global, value: &Value) -> Result<Vec<R::Item>, Misread>
    ensures { Parses (λ v. map R.look v.items) result (each_in R.form (view value.now)) }
{
    read_each::<R>(alloc, get_items(value)?)
}

/// Reads an array with an item or more, each of which has the form.
pub fn read_some<R: Reader>(alloc: Global, value: &Value) -> Result<Vec<R::Item>, Misread>
    ensures { Parses (λ v. map R.look v.items) result (some_in R.form (view value.now)) }
{
    read_each::<R>(alloc, get_some_items(value)?)
}

/// Reads the array in a member. Where the member is left out, the list is empty.
pub fn read_list_or_empty<R: Reader>(
    alloc: Global,
    value: &Value,
    key: &str,
) -> Result<Vec<R::Item>, Misread>
    ensures { Parses (λ v. map R.look v.items) result (or_default [] (each_in R.form) (get key.now (view value.now))) }
{
    match value.get(key) {
        Some(list) => read_list::<R>(alloc, list),
        None => Ok(Vec::new(alloc)),
    }
}

/// Reads names: texts that are not empty.
pub struct NameReader;

impl Reader for NameReader {
    type Item = String;

    ghost Form = { List ℕ };

    ghost look = { string_bytes };

    ghost form = { name_in };

    fn read(alloc: Global, value: &Value) -> Result<String, Misread> {
        read_name(alloc, value)
    }
}
