//! How what was found, and what is expected, is said.

ghost use Rattle.std.specs.Prelude.{◌≡◌, map, IfOk};
ghost use Rattle.volcano_documents.specs.Shapes.{names_of};

use crate::shapes::{Member, Shape};
use crate::words::words_of;
use serde_json::Value;
use std::alloc::{AllocError, Global};

// The most characters of a text that are shown.
const MAX_SHOWN: usize = 60;

// The first characters of a text, and whether these are all.
fn front_of(alloc: Global, text: &str) -> Result<(String, bool), AllocError> {
    let mut front = String::new(alloc);
    for (count, c) in text.chars().enumerate() {
        if count >= MAX_SHOWN {
            return Ok((front, false));
        }
        front.push(c)?;
    }
    Ok((front, true))
}

/// A text in quotes, with dots behind it if it is cut.
pub fn quote(alloc: Global, text: &str) -> Result<String, AllocError> {
    let (front, is_whole) = front_of(alloc, text)?;
    let mut quoted = Value::String(front).to_string(alloc)?;
    if !is_whole {
        quoted.push_str("...")?;
    }
    Ok(quoted)
}

/// What a value is, in a few words.
pub fn found_value(alloc: Global, value: &Value) -> Result<String, AllocError> {
    match value {
        Value::String(text) => quote(alloc, text.as_str()),
        Value::Array(items) if !items.is_empty() => String::from_str(alloc, "a list"),
        Value::Object(members) if !members.is_empty() => String::from_str(alloc, "an object"),
        _ => value.to_string(alloc),
    }
}

/// A member by its name.
pub fn found_member(alloc: Global, name: &str) -> Result<String, AllocError> {
    let mut found = String::from_str(alloc, "the member ")?;
    found.push_str(quote(alloc, name)?.as_str())?;
    Ok(found)
}

/// The names of members.
pub fn names_of(alloc: Global, members: &[Member]) -> Result<Vec<&'static str>, AllocError>
    ensures { IfOk result (λ v. map (λ w. w.now) v.items ≡ names_of members.now) }
{
    let mut names = Vec::new(alloc);
    for member in members {
        names.push(member.name)?;
    }
    Ok(names)
}

// Puts words in quotes, with commas between them, and something else before the last.
fn push_words(text: &mut String, words: &[&'static str], last: &str) -> Result<(), AllocError> {
    for (i, word) in words.iter().enumerate() {
        if i > 0 {
            text.push_str(if words.len() - i == 1 { last } else { ", " })?;
        }
        text.push_str("\"")?;
        text.push_str(*word)?;
        text.push_str("\"")?;
    }
    Ok(())
}

/// One of these words.
pub fn expected_words(alloc: Global, words: &[&'static str]) -> Result<String, AllocError> {
    let mut text = String::new(alloc);
    push_words(&mut text, words, " or ")?;
    Ok(text)
}

/// One of the members with these names.
pub fn expected_members(alloc: Global, names: &[&'static str]) -> Result<String, AllocError> {
    let start = if names.len() == 1 {
        "the member "
    } else {
        "one of the members "
    };
    let mut text = String::from_str(alloc, start)?;
    push_words(&mut text, names, ", ")?;
    Ok(text)
}

/// The member of one of these names.
pub fn expected_member(alloc: Global, names: &[&'static str]) -> Result<String, AllocError> {
    let mut text = String::from_str(alloc, "the member ")?;
    push_words(&mut text, names, " or ")?;
    Ok(text)
}

/// A value of a shape that is looked at by itself.
pub fn expected_single(alloc: Global, shape: Shape) -> Result<String, AllocError> {
    let text = match shape {
        Shape::Word(words) => return expected_words(alloc, words_of(words)),
        Shape::Flag => "true or false",
        Shape::Count => "a whole number from 0 to 4294967295",
        Shape::Constant => "a whole number of 64 bits or a text",
        Shape::Text => "a text",
        Shape::Name => "a text that is not empty",
        _ => "a value",
    };
    String::from_str(alloc, text)
}
