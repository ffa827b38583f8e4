//! Where a name stands in a JSON text.

ghost use Rattle.std.specs.Prelude.{◌≡◌, ◌≤◌, ◌<◌, length, IfOk, IfSome};
ghost use Rattle.volcano_documents.specs.Names.{IsNamePlace};

use crate::places::{Position, place_behind};
use crate::scan::{is_at, next_item, next_member, skip_value};
use crate::steps::{Step, offset_of, path_behind, path_of, value_in};
use std::alloc::{AllocError, Global};

/// Where a name stands: its line and column, and the members that lead there.
#[derive(Drop)]
pub struct NamePlace {
    pub line: u64,
    pub column: u64,
    pub path: String,
}

// A value in a text: where it begins, and the members that lead there.
#[derive(Drop)]
struct Spot {
    at: usize,
    path: String,
}

// More levels than JSON nests.
const MAX_LEVELS: u32 = 200;

const QUOTE: u8 = b'"';

// Whether a member has an input of a node.
fn is_input(name: &str) -> bool {
    matches!(name, "input" | "left" | "right")
}

// The spot of a member's value, if it is no input.
fn member_spot(
    alloc: Global,
    quoted: &[u8],
    at: usize,
    path: &str,
) -> Result<Option<Spot>, AllocError> {
    let Some(value) = value_in(alloc, quoted)? else {
        return Ok(None);
    };
    match value.as_str() {
        Some(name) if !is_input(name) => {
            let path = path_behind(alloc, path, Step::Member(name))?;
            Ok(Some(Spot { at, path }))
        }
        _ => Ok(None),
    }
}

// The values of the object at an offset, but for inputs of a node.
fn member_spots(
    alloc: Global,
    text: &[u8],
    object: usize,
    path: &str,
) -> Result<Vec<Spot>, AllocError>
    requires { object < length text.now }
{
    let mut spots = Vec::new(alloc);
    let mut at = object + 1;
    while let Some(member) = next_member(text, at) {
        let quoted = &text[member.name..member.name_end];
        if let Some(spot) = member_spot(alloc, quoted, member.value, path)? {
            spots.push(spot)?;
        }
        at = member.next;
    }
    Ok(spots)
}

// The items of the list at an offset.
fn item_spots(alloc: Global, text: &[u8], list: usize, path: &str) -> Result<Vec<Spot>, AllocError>
    requires { list < length text.now }
{
    let mut spots = Vec::new(alloc);
    let mut at = list + 1;
    while let Some(item) = next_item(text, at) {
        let path = path_behind(alloc, path, Step::Item(spots.len()))?;
        let spot = Spot {
            at: item.value,
            path,
        };
        spots.push(spot)?;
        at = item.next;
    }
    Ok(spots)
}

// The values in the value at an offset.
fn spots_in(alloc: Global, text: &[u8], at: usize, path: &str) -> Result<Vec<Spot>, AllocError>
    requires { at < length text.now }
{
    match text[at] {
        b'{' => member_spots(alloc, text, at, path),
        b'[' => item_spots(alloc, text, at, path),
        _ => Ok(Vec::new(alloc)),
    }
}

// The place of the value at an offset, if it is a text that is the name.
fn name_at(
    alloc: Global,
    text: &[u8],
    at: usize,
    name: &str,
) -> Result<Option<Position>, AllocError>
    ensures { IfOk result (λ o. IfSome o (λ p. IsNamePlace text.now name.now p.line p.column)) }
{
    if !is_at(text, at, QUOTE) {
        return Ok(None);
    }
    let end = skip_value(text, at);
    let Some(value) = value_in(alloc, &text[at..end])? else {
        return Ok(None);
    };
    if value.as_str() == Some(name) {
        return Ok(Some(place_behind(&text[..at])));
    }
    Ok(None)
}

// The place of the name in the value at an offset, behind as many others as are left out.
fn seek(
    alloc: Global,
    levels: u32,
    text: &[u8],
    at: usize,
    name: &str,
    path: &str,
    left: &mut usize,
) -> Result<Option<NamePlace>, AllocError>
    ensures { IfOk result (λ o. IfSome o (λ p. IsNamePlace text.now name.now p.line p.column)) }
{
    if levels == 0 || at >= text.len() {
        return Ok(None);
    }
    if let Some(place) = name_at(alloc, text, at, name)? {
        if *left == 0 {
            return Ok(Some(NamePlace {
                line: place.line,
                column: place.column,
                path: String::from_str(alloc, path)?,
            }));
        }
        *left -= 1;
        return Ok(None);
    }
    let spots = spots_in(alloc, text, at, path)?;
    for spot in &spots {
        let path = spot.path.as_str();
        if let Some(found) = seek(alloc, levels - 1, text, spot.at, name, path, left)? {
            return Ok(Some(found));
        }
    }
    Ok(None)
}

/// Where a name stands in the own members of the value that the steps lead to, which are all but `input`, `left` and `right`: the
/// text with this number, counted from 0, of those that are equal to the name, in the order of the JSON text.
pub fn find_name(
    alloc: Global,
    text: &[u8],
    steps: &[Step<'_>],
    name: &str,
    number: usize,
) -> Result<Option<NamePlace>, AllocError>
    ensures { IfOk result (λ o. IfSome o (λ p. IsNamePlace text.now name.now p.line p.column)) }
{
    let Some(at) = offset_of(alloc, text, steps)? else {
        return Ok(None);
    };
    let path = path_of(alloc, steps)?;
    let mut left = number;
    seek(alloc, MAX_LEVELS, text, at, name, path.as_str(), &mut left)
}
