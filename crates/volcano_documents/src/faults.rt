//! Where a JSON text departs from the form of a document.

ghost use Rattle.std.specs.Prelude.{string_bytes, IfOk, IfSome, IfNone, IsSome, IsUtf8};
ghost use Rattle.serde_json.specs.Read.{read};
ghost use Rattle.volcano_documents.specs.Places.{IsPosition};
ghost use Rattle.volcano_documents.specs.Shapes.{IsKnownWord};

use crate::misfits::{Misfit, Seen, see};
use crate::places::{Position, place_behind};
use crate::shapes::Shape;
use crate::steps::{Step, offset_of, offset_of_member, path_behind, path_of};
use crate::syntax::fault_of_syntax;
use serde_json::Value;
use std::alloc::{AllocError, Global};

/// What a JSON text should be.
#[derive(Clone, Copy, PartialEq, Eq)]
pub enum Document {
    Bundle,
    Catalog,
    Plan,
}

/// Where a text is not of its form. Lines and columns count from 1, columns in characters, as an editor does.
#[derive(Drop)]
pub struct DocumentFault {
    pub line: u64,
    pub column: u64,
    /// The members that lead there from the text's own value, as `relations[0].columns[1].type`; empty for that value itself.
    pub path: String,
    /// What stands there, as `"integer"`, `the member "limt"`, `nothing` or `[]`. A text is cut at 60 characters.
    pub found: String,
    /// What is expected, as `"int" or "text"` or `one of the members "part", "order", "keys"`.
    pub expected: String,
    /// The nearest known word, if a word is unknown and one is near.
    pub nearest: Option<String>,
}

// How deep documents are looked into: more than JSON nests, with up to three shapes for a value.
const MAX_LEVELS: u32 = 600;

// The shape of a document's part: in a bundle that of its catalog or its plan, if it is one of them.
fn shape_of(document: Document, inside: &[&str]) -> Shape {
    match document {
        Document::Bundle => match inside.last() {
            Some(name) if *name == "catalog" => Shape::Catalog,
            Some(name) if *name == "plan" => Shape::Plan,
            _ => Shape::Bundle,
        },
        Document::Catalog => Shape::Catalog,
        Document::Plan => Shape::Plan,
    }
}

// The value that these members lead to, with their steps behind others.
fn value_inside<'v>(
    value: &'v Value,
    inside: &[&'v str],
    trail: &mut Vec<Step<'v>>,
) -> Result<Option<&'v Value>, AllocError> {
    let mut found = value;
    for name in inside {
        trail.push(Step::Member(*name))?;
        match found.get(*name) {
            Some(part) => found = part,
            None => return Ok(None),
        }
    }
    Ok(Some(found))
}

// The first misfit of a value and its parts. The trail is then the steps to it; otherwise it stays.
fn first_misfit<'v>(
    alloc: Global,
    levels: u32,
    shape: Shape,
    value: &'v Value,
    trail: &mut Vec<Step<'v>>,
) -> Result<Option<Misfit<'v>>, AllocError>
    ensures { IfOk result (λ o. IfSome o (λ m. IfSome m.nearest (λ w. IsKnownWord w.now))) }
{
    if levels == 0 {
        return Ok(None);
    }
    let parts = match see(alloc, shape, value)? {
        Seen::Misfit(misfit) => return Ok(Some(misfit)),
        Seen::Parts(parts) => parts,
    };
    for part in &parts {
        if let Some(step) = part.step {
            trail.push(step)?;
        }
        if let Some(misfit) = first_misfit(alloc, levels - 1, part.shape, part.value, trail)? {
            return Ok(Some(misfit));
        }
        if part.step.is_some() {
            let _ = trail.pop();
        }
    }
    Ok(None)
}

// Where a misfit stands: at a member's name, or at a value. Of a text that is JSON each is found; the front stands for one that is not.
fn place_of(
    alloc: Global,
    text: &[u8],
    steps: &[Step<'_>],
    member: Option<&str>,
) -> Result<Position, AllocError>
    ensures { IfOk result (λ p. IsPosition text.now p.line p.column) }
{
    let offset = match member {
        Some(name) => offset_of_member(alloc, text, steps, name)?,
        None => offset_of(alloc, text, steps)?,
    };
    match offset {
        Some(at) => Ok(place_behind(&text[..at])),
        None => Ok(place_behind(&text[..0])),
    }
}

// A word in memory of its own.
fn owned(alloc: Global, word: Option<&'static str>) -> Result<Option<String>, AllocError>
    requires { IfSome word (λ w. IsKnownWord w.now) }
    ensures { IfOk result (λ o. IfSome o (λ w. IsKnownWord (string_bytes w))) }
{
    match word {
        Some(word) => Ok(Some(String::from_str(alloc, word)?)),
        None => Ok(None),
    }
}

// The path to a misfit, through the member that should not be there.
fn path_to(alloc: Global, steps: &[Step<'_>], member: Option<&str>) -> Result<String, AllocError> {
    let path = path_of(alloc, steps)?;
    match member {
        Some(name) => path_behind(alloc, path.as_str(), Step::Member(name)),
        None => Ok(path),
    }
}

// The fault that a misfit is.
fn fault_of(
    alloc: Global,
    text: &[u8],
    steps: &[Step<'_>],
    misfit: Misfit<'_>,
) -> Result<DocumentFault, AllocError>
    requires { IfSome misfit.nearest (λ w. IsKnownWord w.now) }
    ensures place { IfOk result (λ f. IsPosition text.now f.line f.column) }
    ensures word { IfOk result (λ f. IfSome f.nearest (λ w. IsKnownWord (string_bytes w))) }
{
    let place = place_of(alloc, text, steps, misfit.member)?;
    let path = path_to(alloc, steps, misfit.member)?;
    let nearest = owned(alloc, misfit.nearest)?;
    Ok(DocumentFault {
        line: place.line,
        column: place.column,
        path,
        found: misfit.found,
        expected: misfit.expected,
        nearest,
    })
}

// The first fault of a value that a text was read as.
fn fault_in(
    alloc: Global,
    text: &[u8],
    value: &Value,
    document: Document,
    inside: &[&str],
) -> Result<Option<DocumentFault>, AllocError>
    ensures place { IfOk result (λ o. IfSome o (λ f. IsPosition text.now f.line f.column)) }
    ensures word { IfOk result (λ o. IfSome o (λ f. IfSome f.nearest (λ w. IsKnownWord (string_bytes w)))) }
{
    let mut trail = Vec::new(alloc);
    let Some(part) = value_inside(value, inside, &mut trail)? else {
        return Ok(None);
    };
    match first_misfit(
        alloc,
        MAX_LEVELS,
        shape_of(document, inside),
        part,
        &mut trail,
    )? {
        Some(misfit) => Ok(Some(fault_of(alloc, text, trail.as_slice(), misfit)?)),
        None => Ok(None),
    }
}

/// The first departure of a text from its form, in the order of the form. Of an object come first its unknown members, then those
/// that are missing, then the values of its members, the inputs of a node last.
///
/// `inside` names the members that lead to the part of the text that is looked at. Of a bundle itself only its own form is
/// looked at, not that of its catalog and plan.
pub fn find_fault(
    alloc: Global,
    text: &[u8],
    document: Document,
    inside: &[&str],
) -> Result<Option<DocumentFault>, AllocError>
    ensures place { IfOk result (λ o. IfSome o (λ f. IsPosition text.now f.line f.column)) }
    ensures word { IfOk result (λ o. IfSome o (λ f. IfSome f.nearest (λ w. IsKnownWord (string_bytes w)))) }

    // A text that is no JSON has a fault.
    ensures none { IfOk result (λ o. IfNone o (IsUtf8 text.now × IsSome (read text.now))) }
{
    match Value::from_slice(alloc, text) {
        Ok(value) => fault_in(alloc, text, &value, document, inside),
        Err(error) if error.is_memory() => Err(AllocError),
        Err(error) => Ok(Some(fault_of_syntax(alloc, text, &error)?)),
    }
}
