//! Where a JSON value departs from its shape.

ghost use Rattle.std.specs.Prelude.{ℕ, List, IfOk, IfSome, Contains};
ghost use Rattle.volcano_documents.specs.Shapes.{names_of, known_words};
ghost use Rattle.volcano_documents.specs.Misfits.{NamesOneOf, NamesNone};

use crate::near::nearest_word;
use crate::shapes::{Form, Mark, Member, Rule, Shape, chosen_shape, form_of};
use crate::steps::Step;
use crate::wording::{
    expected_member, expected_members, expected_single, found_member, found_value, names_of,
};
use crate::words::{Words, words_of};
use serde_json::{Map, Value};
use std::alloc::{AllocError, Global};

/// How a value departs from its shape.
#[derive(Drop)]
pub struct Misfit<'v> {
    /// The member that should not be there.
    pub member: Option<&'v str>,
    pub found: String,
    pub expected: String,
    pub nearest: Option<&'static str>,
}

/// A value with the shape that it should have: a part of another value, or, without a step, that value itself.
#[derive(Clone, Copy)]
pub struct Part<'v> {
    pub step: Option<Step<'v>>,
    pub shape: Shape,
    pub value: &'v Value,
}

/// What is seen of a value without looking into its parts.
#[derive(Drop)]
pub enum Seen<'v> {
    Misfit(Misfit<'v>),
    Parts(Vec<Part<'v>>),
}

// A value where something else is expected.
fn wrong_value<'v>(alloc: Global, value: &'v Value, expected: &str) -> Result<Seen<'v>, AllocError>
    ensures { IfOk result NamesNone }
{
    Ok(Seen::Misfit(Misfit {
        member: None,
        found: found_value(alloc, value)?,
        expected: String::from_str(alloc, expected)?,
        nearest: None,
    }))
}

// A member that should not be there.
fn wrong_member<'v>(
    alloc: Global,
    name: &'v str,
    expected: String,
    nearest: Option<&'static str>,
) -> Result<Seen<'v>, AllocError>
    ensures { IfOk result (λ seen. (words : List (List ℕ)) → IfSome nearest.entry (λ w. Contains words w.now) → NamesOneOf words seen) }
{
    Ok(Seen::Misfit(Misfit {
        member: Some(name),
        found: found_member(alloc, name)?,
        expected,
        nearest,
    }))
}

// An object without any of the members with these names.
fn missing_member<'v>(alloc: Global, names: &[&'static str]) -> Result<Seen<'v>, AllocError>
    ensures { IfOk result NamesNone }
{
    Ok(Seen::Misfit(Misfit {
        member: None,
        found: String::from_str(alloc, "nothing")?,
        expected: expected_member(alloc, names)?,
        nearest: None,
    }))
}

fn is_count(value: &Value) -> bool {
    match value.as_u64() {
        Some(number) => u32::try_from(number).is_ok(),
        None => false,
    }
}

fn is_name(value: &Value) -> bool {
    match value.as_str() {
        Some(text) => !text.is_empty(),
        None => false,
    }
}

fn is_word(words: Words, value: &Value) -> bool {
    match value.as_str() {
        Some(text) => words_of(words).iter().any(|word| *word == text),
        None => false,
    }
}

// Whether a value has a shape that is looked at by itself.
fn fits_single(shape: Shape, value: &Value) -> bool {
    match shape {
        Shape::Flag => value.as_bool().is_some(),
        Shape::Count => is_count(value),
        Shape::Constant => value.as_i64().is_some() || value.as_str().is_some(),
        Shape::Text => value.as_str().is_some(),
        Shape::Name => is_name(value),
        Shape::Word(words) => is_word(words, value),
        _ => true,
    }
}

// The word that a value was meant to be.
fn nearest_to(
    alloc: Global,
    shape: Shape,
    value: &Value,
) -> Result<Option<&'static str>, AllocError>
    ensures { IfOk result (λ o. IfSome o (λ w. Contains (known_words shape) w.now)) }
{
    let Shape::Word(words) = shape else {
        return Ok(None);
    };
    match value.as_str() {
        Some(text) => nearest_word(alloc, words_of(words), text),
        None => Ok(None),
    }
}

fn see_single<'v>(alloc: Global, shape: Shape, value: &'v Value) -> Result<Seen<'v>, AllocError>
    ensures { IfOk result (NamesOneOf (known_words shape)) }
{
    if fits_single(shape, value) {
        return Ok(Seen::Parts(Vec::new(alloc)));
    }
    Ok(Seen::Misfit(Misfit {
        member: None,
        found: found_value(alloc, value)?,
        expected: expected_single(alloc, shape)?,
        nearest: nearest_to(alloc, shape, value)?,
    }))
}

// The items of a list, each of which has the shape.
fn item_parts<'v>(alloc: Global, shape: Shape, items: &'v [Value]) -> Result<Seen<'v>, AllocError>
    ensures { IfOk result NamesNone }
{
    let mut parts = Vec::new(alloc);
    for (i, value) in items.iter().enumerate() {
        let step = Some(Step::Item(i));
        parts.push(Part { step, shape, value })?;
    }
    Ok(Seen::Parts(parts))
}

fn see_list<'v>(
    alloc: Global,
    shape: Shape,
    least: usize,
    value: &'v Value,
) -> Result<Seen<'v>, AllocError>
    ensures { IfOk result NamesNone }
{
    match value.as_array() {
        Some(items) if items.len() >= least => item_parts(alloc, shape, items.as_slice()),
        _ if least == 0 => wrong_value(alloc, value, "a list"),
        _ => wrong_value(alloc, value, "a list with an item or more"),
    }
}

fn see_pair<'v>(alloc: Global, value: &'v Value) -> Result<Seen<'v>, AllocError>
    ensures { IfOk result NamesNone }
{
    match value.as_array() {
        Some(items) if items.len() == 2 => item_parts(alloc, Shape::Name, items.as_slice()),
        _ => wrong_value(alloc, value, "a list of two names"),
    }
}

// The values of an object's members, each of which has the shape.
fn map_parts<'v>(
    alloc: Global,
    shape: Shape,
    object: &'v Map<String, Value>,
) -> Result<Seen<'v>, AllocError>
    ensures { IfOk result NamesNone }
{
    let mut parts = Vec::new(alloc);
    for (name, value) in object.iter() {
        let step = Some(Step::Member(name.as_str()));
        parts.push(Part { step, shape, value })?;
    }
    Ok(Seen::Parts(parts))
}

fn see_map<'v>(alloc: Global, shape: Shape, value: &'v Value) -> Result<Seen<'v>, AllocError>
    ensures { IfOk result NamesNone }
{
    match value.as_object() {
        Some(object) => map_parts(alloc, shape, object),
        None => wrong_value(alloc, value, "an object"),
    }
}

// The first name of a member that is none of these.
fn unknown_name<'v>(object: &'v Map<String, Value>, names: &[&'static str]) -> Option<&'v str> {
    for (name, _) in object.iter() {
        if !names.iter().any(|known| *known == name.as_str()) {
            return Some(name.as_str());
        }
    }
    None
}

// The first member that is required and not there.
fn missing_name(value: &Value, members: &[Member]) -> Option<&'static str> {
    for member in members {
        if member.is_required && value.get(member.name).is_none() {
            return Some(member.name);
        }
    }
    None
}

// The values of the members of an object, in the order of its form.
fn member_parts<'v>(
    alloc: Global,
    members: &'static [Member],
    value: &'v Value,
) -> Result<Vec<Part<'v>>, AllocError> {
    let mut parts = Vec::new(alloc);
    for member in members {
        if let Some(part) = value.get(member.name) {
            let step = Some(Step::Member(member.name));
            parts.push(Part {
                step,
                shape: member.shape,
                value: part,
            })?;
        }
    }
    Ok(parts)
}

// Whether a member is an empty list.
fn is_empty_list(value: &Value, name: &'static str) -> bool {
    match value.get(name).and_then(Value::as_array) {
        Some(items) => items.is_empty(),
        None => false,
    }
}

// A value alone, with the shape that it should have.
fn one_part<'v>(
    alloc: Global,
    step: Option<Step<'v>>,
    shape: Shape,
    value: &'v Value,
) -> Result<Seen<'v>, AllocError>
    ensures { IfOk result NamesNone }
{
    let mut parts = Vec::new(alloc);
    parts.push(Part { step, shape, value })?;
    Ok(Seen::Parts(parts))
}

// What is against having one of two members, if anything is.
fn against_one<'v>(
    alloc: Global,
    first: &'static str,
    second: &'static str,
    value: &'v Value,
) -> Result<Option<Seen<'v>>, AllocError>
    ensures { IfOk result (λ o. IfSome o NamesNone) }
{
    let has_first = value.get(first).is_some();
    let has_second = value.get(second).is_some();
    if has_first && has_second {
        let expected = format!(in alloc; "no member \"{second}\" beside \"{first}\"")?;
        return Ok(Some(wrong_member(alloc, second, expected, None)?));
    }
    if has_first || has_second {
        return Ok(None);
    }
    Ok(Some(missing_member(alloc, &[first, second])?))
}

// What is against an item in one of two lists, if anything is: if both are empty, the second should have one.
fn against_some<'v>(
    alloc: Global,
    first: &'static str,
    second: &'static str,
    value: &'v Value,
) -> Result<Option<Seen<'v>>, AllocError>
    ensures { IfOk result (λ o. IfSome o NamesNone) }
{
    let Some(list) = value.get(second) else {
        return Ok(None);
    };
    if !is_empty_list(value, first) || !is_empty_list(value, second) {
        return Ok(None);
    }
    let step = Some(Step::Member(second));
    Ok(Some(one_part(alloc, step, Shape::SomeAggregates, list)?))
}

// What is against an object's rule, if anything is.
fn against_rule<'v>(
    alloc: Global,
    rule: Rule,
    value: &'v Value,
) -> Result<Option<Seen<'v>>, AllocError>
    ensures { IfOk result (λ o. IfSome o NamesNone) }
{
    match rule {
        Rule::Free => Ok(None),
        Rule::One(first, second) => against_one(alloc, first, second, value),
        Rule::SomeItem(first, second) => against_some(alloc, first, second, value),
    }
}

// The first member that is unknown, or else the first that is missing, if one is.
fn see_members<'v>(
    alloc: Global,
    members: &'static [Member],
    value: &'v Value,
    object: &'v Map<String, Value>,
) -> Result<Option<Seen<'v>>, AllocError>
    ensures { IfOk result (λ o. IfSome o (NamesOneOf (names_of members.now))) }
{
    let names = names_of(alloc, members)?;
    if let Some(name) = unknown_name(object, names.as_slice()) {
        let expected = expected_members(alloc, names.as_slice())?;
        let nearest = nearest_word(alloc, names.as_slice(), name)?;
        return Ok(Some(wrong_member(alloc, name, expected, nearest)?));
    }
    match missing_name(value, members) {
        Some(name) => Ok(Some(missing_member(alloc, &[name])?)),
        None => Ok(None),
    }
}

fn see_object<'v>(
    alloc: Global,
    members: &'static [Member],
    rule: Rule,
    value: &'v Value,
) -> Result<Seen<'v>, AllocError>
    ensures { IfOk result (NamesOneOf (names_of members.now)) }
{
    let Some(object) = value.as_object() else {
        return wrong_value(alloc, value, "an object");
    };
    if let Some(seen) = see_members(alloc, members, value, object)? {
        return Ok(seen);
    }
    if let Some(seen) = against_rule(alloc, rule, value)? {
        return Ok(seen);
    }
    Ok(Seen::Parts(member_parts(alloc, members, value)?))
}

// The object of which a member's word says the shape.
fn see_tagged<'v>(
    alloc: Global,
    shape: Shape,
    member: &'static str,
    words: Words,
    default: Option<Shape>,
    value: &'v Value,
) -> Result<Seen<'v>, AllocError>
    ensures { IfOk result NamesNone }
{
    if value.as_object().is_none() {
        return wrong_value(alloc, value, "an object");
    }
    let Some(tag) = value.get(member) else {
        return match default {
            Some(default) => one_part(alloc, None, default, value),
            None => missing_member(alloc, &[member]),
        };
    };
    match tag.as_str().and_then(|word| chosen_shape(shape, word)) {
        Some(chosen) => one_part(alloc, None, chosen, value),
        None => one_part(alloc, Some(Step::Member(member)), Shape::Word(words), tag),
    }
}

fn see_either<'v>(
    alloc: Global,
    text: Shape,
    object: Shape,
    value: &'v Value,
) -> Result<Seen<'v>, AllocError>
    ensures { IfOk result NamesNone }
{
    if value.as_str().is_some() {
        return one_part(alloc, None, text, value);
    }
    if value.as_object().is_some() {
        return one_part(alloc, None, object, value);
    }
    let mut expected = expected_single(alloc, text)?;
    expected.push_str(", or an object")?;
    wrong_value(alloc, value, expected.as_str())
}

// The shape of the first of these members that a value has, or else the other one.
fn marked_shape(marks: &[Mark], other: Shape, value: &Value) -> Shape {
    for mark in marks {
        if value.get(mark.name).is_some() {
            return mark.shape;
        }
    }
    other
}

/// What is seen of a value that should have a shape, without looking into its parts.
pub fn see<'v>(alloc: Global, shape: Shape, value: &'v Value) -> Result<Seen<'v>, AllocError>
    ensures { IfOk result (NamesOneOf (known_words shape)) }
{
    match form_of(shape) {
        Form::Single => see_single(alloc, shape, value),
        Form::List(item, least) => see_list(alloc, item, least, value),
        Form::Pair => see_pair(alloc, value),
        Form::Map(item) => see_map(alloc, item, value),
        Form::Object(members, rule) => see_object(alloc, members, rule, value),
        Form::Tagged(member, words, default) => {
            see_tagged(alloc, shape, member, words, default, value)
        }
        Form::Either(text, object) => see_either(alloc, text, object, value),
        Form::Marked(marks, other) => {
            one_part(alloc, None, marked_shape(marks, other, value), value)
        }
    }
}
