//! Steps into a JSON text, and the paths that people read.

ghost use Rattle.std.specs.Prelude.{◌≡◌, ◌<◌, ◌≤◌, length, true, Some, option_map, IfOk, IfSome};
ghost use Rattle.serde_json.specs.Data.{depth};
ghost use Rattle.serde_json.specs.Read.{read, max_depth};
ghost use Rattle.serde_json.specs.View.{view};
ghost use Rattle.volcano_documents.specs.Places.{IsPosition};
ghost use Rattle.volcano_documents.specs.Spans.{IsMemberSpan};
ghost use Rattle.volcano_documents.specs.Steps.{step_value, value_at, BeginsValue, IsValuePlace};

use crate::places::{Position, place_behind};
use crate::scan::{MemberSpan, is_at, is_space, next_item, next_member, skip_space, skip_value};
use crate::wording::quote;
use serde_json::Value;
use std::alloc::{AllocError, Global};

/// A step from a value to one in it.
#[derive(Clone, Copy)]
pub enum Step<'a> {
    /// To the value of the member of this name. If there are several, the last one counts, as for the readers.
    Member(&'a str),
    /// To the item with this number, counted from 0.
    Item(usize),
}

/// The value that a part of a JSON text is, if it is one.
pub fn value_in(alloc: Global, part: &[u8]) -> Result<Option<Value>, AllocError>
    ensures value { IfOk result (λ o. IfSome o (λ v. read part.now ≡ Some (view v))) }
    ensures nests { IfOk result (λ o. IfSome o (λ v. depth (view v) ≤ max_depth)) }
{
    match Value::from_slice(alloc, part) {
        Ok(value) => Ok(Some(value)),
        Err(error) if error.is_memory() => Err(AllocError),
        Err(_) => Ok(None),
    }
}

// Whether a member has this name.
fn is_named(alloc: Global, text: &[u8], member: &MemberSpan, name: &str) -> Result<bool, AllocError>
    requires named { member.now.name < member.now.name_end }
    requires within { member.now.name_end ≤ length text.now }
{
    match value_in(alloc, &text[member.name..member.name_end])? {
        Some(value) => Ok(value.as_str() == Some(name)),
        None => Ok(false),
    }
}

// The last member of this name in the object at an offset.
fn find_member(
    alloc: Global,
    text: &[u8],
    object: usize,
    name: &str,
) -> Result<Option<MemberSpan>, AllocError>
    ensures { IfOk result (λ o. IfSome o (IsMemberSpan text.now 0)) }
{
    let mut found = None;
    if !is_at(text, object, b'{') {
        return Ok(found);
    }
    let mut at = object + 1;
    while let Some(member) = next_member(text, at) {
        if is_named(alloc, text, &member, name)? {
            found = Some(member);
        }
        at = member.next;
    }
    Ok(found)
}

// Where an item of the list at an offset begins.
fn find_item(text: &[u8], list: usize, number: usize) -> Option<usize>
    ensures { IfSome result (λ i. i < length text.now) }
{
    if !is_at(text, list, b'[') {
        return None;
    }
    let mut at = list + 1;
    for _ in 0..number {
        let item = next_item(text, at)?;
        at = item.next;
    }
    let item = next_item(text, at)?;
    Some(item.value)
}

// Where the value behind a step begins, from the value at an offset.
fn offset_behind(
    alloc: Global,
    text: &[u8],
    at: usize,
    step: Step<'_>,
) -> Result<Option<usize>, AllocError>
    ensures { IfOk result (λ o. IfSome o (λ i. i < length text.now)) }
{
    match step {
        Step::Member(name) => match find_member(alloc, text, at, name)? {
            Some(member) => Ok(Some(member.value)),
            None => Ok(None),
        },
        Step::Item(number) => Ok(find_item(text, at, number)),
    }
}

/// Where the value behind some steps begins in a text.
pub fn offset_of(
    alloc: Global,
    text: &[u8],
    steps: &[Step<'_>],
) -> Result<Option<usize>, AllocError>
    ensures { IfOk result (λ o. IfSome o (λ i. i ≤ length text.now)) }
{
    let mut at = skip_space(text, 0);
    for step in steps {
        let Some(next) = offset_behind(alloc, text, at, *step)? else {
            return Ok(None);
        };
        at = next;
    }
    Ok(Some(at))
}

/// Where the name of a member begins, of the object behind some steps.
pub fn offset_of_member(
    alloc: Global,
    text: &[u8],
    steps: &[Step<'_>],
    name: &str,
) -> Result<Option<usize>, AllocError>
    ensures { IfOk result (λ o. IfSome o (λ i. i ≤ length text.now)) }
{
    let Some(object) = offset_of(alloc, text, steps)? else {
        return Ok(None);
    };
    match find_member(alloc, text, object, name)? {
        Some(member) => Ok(Some(member.name)),
        None => Ok(None),
    }
}

// The value behind a step.
fn value_behind_step<'v>(value: &'v Value, step: Step<'_>) -> Option<&'v Value>
    ensures { option_map (λ v. view v.now) result ≡ step_value step.entry (view value.now) }
{
    match step {
        Step::Member(name) => value.get(name),
        Step::Item(number) => value.get(number),
    }
}

// The value behind some steps.
fn value_behind<'v>(value: &'v Value, steps: &[Step<'_>]) -> Option<&'v Value>
    ensures { option_map (λ v. view v.now) result ≡ value_at steps.now (view value.now) }
{
    let mut found = value;
    for step in steps {
        found = value_behind_step(found, *step)?;
    }
    Some(found)
}

// Whether two values have the same text, and so are the same.
fn is_same(alloc: Global, value: &Value, other: &Value) -> Result<bool, AllocError>
    requires value { depth (view value.now) ≤ max_depth }
    requires other { depth (view other.now) ≤ max_depth }
    ensures { IfOk result (λ same. same ≡ true → view value.now ≡ view other.now) }
{
    let first = value.to_string(alloc)?;
    let second = other.to_string(alloc)?;
    Ok(first.as_str() == second.as_str())
}

// Whether the value that steps lead to from a text's own value begins at an offset.
fn is_value_at(
    alloc: Global,
    text: &[u8],
    at: usize,
    whole: &Value,
    steps: &[Step<'_>],
) -> Result<bool, AllocError>
    requires { depth (view whole.now) ≤ max_depth }
    ensures { IfOk result (λ b. b ≡ true → BeginsValue text.now at (value_at steps.now (view whole.now))) }
{
    if at >= text.len() || is_space(text[at]) {
        return Ok(false);
    }
    let end = skip_value(text, at);
    let Some(part) = value_in(alloc, &text[at..end])? else {
        return Ok(false);
    };
    match value_behind(whole, steps) {
        Some(value) => Ok(is_same(alloc, value, &part)?),
        None => Ok(false),
    }
}

/// Where the value that these steps lead to begins in a JSON text. It is tried: the text there reads as that value.
pub fn position_of(
    alloc: Global,
    text: &[u8],
    steps: &[Step<'_>],
) -> Result<Option<Position>, AllocError>
    ensures place { IfOk result (λ o. IfSome o (λ p. IsPosition text.now p.line p.column)) }
    ensures value { IfOk result (λ o. IfSome o (λ p. IsValuePlace text.now steps.now p.line p.column)) }
{
    let Some(whole) = value_in(alloc, text)? else {
        return Ok(None);
    };
    let Some(at) = offset_of(alloc, text, steps)? else {
        return Ok(None);
    };
    if is_value_at(alloc, text, at, &whole, steps)? {
        return Ok(Some(place_behind(&text[..at])));
    }
    Ok(None)
}

// Whether a name can stand in a path as it is.
fn is_plain(name: &str) -> bool {
    !name.is_empty() && name.bytes().all(|b| b.is_ascii_alphanumeric() || b == b'_')
}

// Puts a step behind a path.
fn push_step(alloc: Global, path: &mut String, step: Step<'_>) -> Result<(), AllocError> {
    match step {
        Step::Member(name) if is_plain(name) => {
            if !path.is_empty() {
                path.push_str(".")?;
            }
            path.push_str(name)
        }
        Step::Member(name) => {
            path.push_str("[")?;
            path.push_str(quote(alloc, name)?.as_str())?;
            path.push_str("]")
        }
        Step::Item(number) => path.push_str(format!(in alloc; "[{number}]")?.as_str()),
    }
}

/// Steps as people read them, as `relations[0].columns[1].type`.
pub fn path_of(alloc: Global, steps: &[Step<'_>]) -> Result<String, AllocError> {
    let mut path = String::new(alloc);
    for step in steps {
        push_step(alloc, &mut path, *step)?;
    }
    Ok(path)
}

/// A path with a step more.
pub fn path_behind(alloc: Global, path: &str, step: Step<'_>) -> Result<String, AllocError> {
    let mut longer = String::from_str(alloc, path)?;
    push_step(alloc, &mut longer, step)?;
    Ok(longer)
}
