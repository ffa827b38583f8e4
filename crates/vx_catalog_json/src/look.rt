//! Looking into a JSON value.

ghost use Rattle.std.specs.Prelude.{◌≡◌, true, false, map, option_and_then, string_bytes, OnOk, IfErr};
ghost use Rattle.std.specs.List.{list_all};
ghost use Rattle.std.specs.BTreeMap.{keys};
ghost use Rattle.serde_json.specs.Find.{get, as_str};
ghost use Rattle.serde_json.specs.View.{view};
ghost use Rattle.vx_catalog_json.specs.Look.{as_list, some_entry, is_among, has_only, Finds, Parses, name_in, flag_in};
ghost use Rattle.vx_catalog_json.specs.declared.misread.Misread.TheVariants.{NotOfForm};

use crate::misread::Misread;
use serde_json::{Map, Value};
use std::alloc::Global;

/// The items of an array.
pub fn get_items(value: &Value) -> Result<&[Value], Misread>
    ensures { Finds (λ s. map view s.now) result (as_list (view value.now)) }
{
    match value.as_array() {
        Some(list) => Ok(list.as_slice()),
        None => Err(Misread::NotOfForm),
    }
}

/// The items of an array that is not empty.
pub fn get_some_items(value: &Value) -> Result<&[Value], Misread>
    ensures { Finds (λ s. map view s.now) result (option_and_then some_entry (as_list (view value.now))) }
{
    let values = get_items(value)?;
    if values.is_empty() {
        return Err(Misread::NotOfForm);
    }
    Ok(values)
}

/// The value of a member.
pub fn get_member<'v>(value: &'v Value, key: &str) -> Result<&'v Value, Misread>
    ensures { Finds (λ v. view v.now) result (get key.now (view value.now)) }
{
    value.get(key).ok_or(Misread::NotOfForm)
}

fn is_among(names: &[&str], key: &str) -> bool
    ensures { result ≡ is_among (map (λ n. n.now) names.now) key.now }
{
    for name in names {
        if key == *name {
            return true;
        }
    }
    false
}

fn are_keys_among(members: &Map<String, Value>, names: &[&str]) -> bool
    ensures { result ≡ list_all (λ k. is_among (map (λ n. n.now) names.now) (string_bytes k)) (keys members.now) }
{
    members.keys().all(|key| is_among(names, key.as_str()))
}

/// Whether a value is an object with no members but these.
pub fn has_only(value: &Value, names: &[&str]) -> bool
    ensures { result ≡ has_only (map (λ n. n.now) names.now) (view value.now) }
{
    match value.as_object() {
        Some(members) => are_keys_among(members, names),
        None => false,
    }
}

/// Fails unless a value is an object with no members but these.
pub fn test_members(value: &Value, names: &[&str]) -> Result<(), Misread>
    ensures ok { OnOk result (has_only (map (λ n. n.now) names.now) (view value.now) ≡ true) }
    ensures err { IfErr result (λ e. (e ≡ NotOfForm) × (has_only (map (λ n. n.now) names.now) (view value.now) ≡ false)) }
{
    if has_only(value, names) {
        Ok(())
    } else {
        Err(Misread::NotOfForm)
    }
}

/// A text.
pub fn get_text(value: &Value) -> Result<&str, Misread>
    ensures { Finds (λ s. s.now) result (as_str (view value.now)) }
{
    value.as_str().ok_or(Misread::NotOfForm)
}

/// A text that is not empty, in memory of its own.
#[tactic(auto, unfolding(crate::specs::Look::name_in))]
pub fn read_name(alloc: Global, value: &Value) -> Result<String, Misread>
    ensures { Parses string_bytes result (name_in (view value.now)) }
{
    match value.as_str() {
        Some(text) if !text.is_empty() => Ok(String::from_str(alloc, text)?),
        _ => Err(Misread::NotOfForm),
    }
}

/// A member that is true or false; false where it is left out.
pub fn read_flag(value: &Value, key: &str) -> Result<bool, Misread>
    ensures { Finds (λ b. b) result (flag_in key.now (view value.now)) }
{
    match value.get(key) {
        Some(flag) => flag.as_bool().ok_or(Misread::NotOfForm),
        None => Ok(false),
    }
}
