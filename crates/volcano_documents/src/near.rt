//! The nearest of some words.

ghost use Rattle.std.specs.Prelude.{map, IfOk, IfSome, Contains};

use std::alloc::{AllocError, Global};
use strsim::levenshtein;

// The most edits that lead from one word to another that is near, whatever their length.
const FEW_EDITS: usize = 2;

// A longer text is near no word.
const MAX_WORD_BYTES: usize = 60;

// Whether so many edits are few for a text: at most two, or a third of its length, and not all that the words have.
fn is_near(edits: usize, text: &str, word: &str) -> bool {
    let is_few = edits <= FEW_EDITS || edits <= text.len() / 3;
    is_few && edits < text.len().max(word.len())
}

// The first of the words to which the fewest edits lead from a text, if they are few.
fn nearest_of<'a>(
    alloc: Global,
    words: &[&'a str],
    text: &str,
) -> Result<Option<&'a str>, AllocError>
    ensures { IfOk result (λ o. IfSome o (λ w. Contains (map (λ x. x.now) words.now) w.now)) }
{
    let mut nearest = None;
    let mut fewest = usize::MAX;
    for word in words {
        let edits = levenshtein(alloc, text, *word)?;
        if edits < fewest && is_near(edits, text, *word) {
            nearest = Some(*word);
            fewest = edits;
        }
    }
    Ok(nearest)
}

/// The word that a text was meant to be, if one is near.
pub fn nearest_word<'a>(
    alloc: Global,
    words: &[&'a str],
    text: &str,
) -> Result<Option<&'a str>, AllocError>
    ensures { IfOk result (λ o. IfSome o (λ w. Contains (map (λ x. x.now) words.now) w.now)) }
{
    if text.len() > MAX_WORD_BYTES {
        return Ok(None);
    }
    nearest_of(alloc, words, text)
}
