//! The name of the relation whose text is at a path.

ghost use Rattle.std.specs.Prelude.{◌≡◌, ◌↔◌, List, ℕ, map, IfOk, IfSome, IsSome};
ghost use Rattle.volcano_progress.specs.Name.{IsTable, name_in, after_slash, is_continuation, plain_byte, IsFront};

use std::alloc::{AllocError, Global};

// How many bytes of a name are shown.
const SHOWN: usize = 40;

// The ending of the path of each relation's text.
const ENDING: &[u8] = b".csv";

/// What follows the last slash, or all if there is none.
#[tactic(auto, using(crate::proofs::NameFacts::last_part_whole))]
pub fn after_slash(path: &[u8]) -> &[u8]
    ensures { result.now ≡ after_slash path.now }
{
    let mut name = path;
    let mut rest = path;
    while let Some((byte, others)) = rest.split_first() {
        if *byte == b'/' {
            name = others;
        }
        rest = others;
    }
    name
}

/// The name of the relation whose text is at a path, if one is.
pub fn relation_at(path: &[u8]) -> Option<&[u8]>
    ensures table { IsSome result ↔ IsTable path.now }
    ensures name { IfSome result (λ name. name.now ≡ name_in path.now) }
{
    if path.ends_with(ENDING) {
        Some(after_slash(&path[..path.len() - ENDING.len()]))
    } else {
        None
    }
}

// Whether a byte goes on with a character that began before it.
fn is_continuation(byte: u8) -> bool
    ensures { result ≡ is_continuation byte }
{
    127 < byte && byte < 192
}

// The longest front of a name that is not too long and ends where a character does.
fn front_of(name: &[u8]) -> &[u8]
    ensures { IsFront name.now result.now }
{
    let mut end = name.len().min(SHOWN);
    while end > 0 && end < name.len() && is_continuation(name[end]) {
        end -= 1;
    }
    &name[..end]
}

// A byte as it is shown: a question mark stands for what would move the cursor.
fn plain_byte(byte: u8) -> u8
    ensures { result ≡ plain_byte byte }
{
    if byte < 32 || byte == 127 { b'?' } else { byte }
}

/// A name as it is shown: not too long, and on one line.
pub fn shown_name(alloc: Global, name: &[u8]) -> Result<Vec<u8>, AllocError>
    ensures { IfOk result (λ shown. (front : List ℕ) × IsFront name.now front × (shown.items ≡ map plain_byte front)) }
{
    front_of(name).iter().map(|b| plain_byte(*b)).collect(alloc)
}
