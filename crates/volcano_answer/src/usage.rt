//! What is said of wrong arguments: which one is wrong, and what there is in its place.

ghost use Rattle.std.specs.Prelude.{◌≡◌, IfOk};
ghost use Rattle.volcano_answer.specs.Usage.{Tells};

use std::alloc::{AllocError, Global};
use volcano_diagnostics::push_shown;

/// A part of the command line that is wrong: the words before it in a message, itself, and the words behind it.
#[derive(Clone, Copy)]
pub struct WrongPart<'a> {
    pub before: &'static str,
    pub argument: &'a str,
    pub after: &'a str,
}

/// The message, in which the wrong part stays on its line.
pub fn usage_text(alloc: Global, wrong: WrongPart<'_>) -> Result<Vec<u8>, AllocError>
    ensures { IfOk result (λ text. Tells wrong.entry.before.now wrong.entry.argument.now wrong.entry.after.now text.items) }
{
    let mut text = Vec::from_slice(alloc, wrong.before.as_bytes())?;
    push_shown(&mut text, wrong.argument.as_bytes())?;
    text.extend_from_slice(wrong.after.as_bytes())?;
    Ok(text)
}
