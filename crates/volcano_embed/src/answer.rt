//! What a call writes for its caller.

ghost use Rattle.std.specs.Prelude.{◌≡◌, ◌⊎◌, length, false};
ghost use Rattle.volcano_embed.specs.Given.{IsGiven, IsSpanStatus, error_form};

use std::ptr::null_mut;
use volcano_embedding::{ErrorForm, Reply, SpanFault, Words, words_in};

/// A text with a zero byte behind it, which its holder frees, and what it says. What is said of a refusal below its line is a text
/// of its own, in the form that `errors` asks for before the call.
#[repr(C)]
#[derive(Drop)]
pub struct Answer {
    pub text: *mut u8,
    pub length: usize,
    pub code_at: usize,
    pub code_length: usize,
    pub name_at: usize,
    pub name_length: usize,
    pub node: u32,
    pub has_node: bool,
    pub is_total: bool,
    pub errors: u8,
    pub more: *mut u8,
    pub more_length: usize,
}

/// In which form more is to be said of a refusal. A number that stands for none asks for nothing.
pub fn errors_in(answer: &Answer) -> ErrorForm
    ensures { result ≡ error_form answer.now.errors }
{
    match answer.errors {
        1 => ErrorForm::Long,
        2 => ErrorForm::Json,
        _ => ErrorForm::Short,
    }
}

// No text.
fn nothing(errors: u8) -> Answer
    ensures length { result.length ≡ 0 }
    ensures node { result.has_node ≡ false }
    ensures errors { result.errors ≡ errors }
    ensures more { result.more_length ≡ 0 }
{
    Answer {
        text: null_mut(),
        length: 0,
        code_at: 0,
        code_length: 0,
        name_at: 0,
        name_length: 0,
        node: 0,
        has_node: false,
        is_total: false,
        errors,
        more: null_mut(),
        more_length: 0,
    }
}

// Where the code and the name stand in a reply's text, if it is the line of a refusal.
fn words_of(reply: &Reply) -> Words {
    if reply.is_line {
        return words_in(reply.text.as_slice());
    }
    words_in(b"")
}

// A text with a zero byte behind it, if there was memory for that. Its holder frees it.
fn leaked(text: Vec<u8>) -> Option<*mut u8> {
    let mut text = text;
    if text.push(0).is_err() {
        return None;
    }
    let at = text.as_mut_ptr();
    let _ = text.leak();
    Some(at)
}

// The same of what is said below the line of a refusal, of which there may be nothing, and its length.
fn leaked_more(more: Vec<u8>) -> (*mut u8, usize)
    ensures { (result.1 ≡ length more.items) ⊎ (result.1 ≡ 0) }
{
    let length = more.len();
    if length == 0 {
        return (null_mut(), 0);
    }
    match leaked(more) {
        Some(at) => (at, length),
        None => (null_mut(), 0),
    }
}

/// Writes a reply for the caller, who has its texts from now on. It returns the reply's status, or 4 where memory ran out.
pub fn give(reply: Reply, answer: &mut Answer) -> u8
    ensures given { IsGiven reply result answer.new }
    ensures errors { answer.new.errors ≡ answer.old.errors }
{
    let errors = answer.errors;
    let words = words_of(&reply);
    let Reply {
        status,
        is_total,
        node,
        text,
        is_line: _,
        more,
    } = reply;
    let length = text.len();
    let Some(at) = leaked(text) else {
        *answer = nothing(errors);
        return 4;
    };
    let (more, more_length) = leaked_more(more);
    *answer = Answer {
        text: at,
        length,
        code_at: words.code_at,
        code_length: words.code_length,
        name_at: words.name_at,
        name_length: words.name_length,
        node: node.unwrap_or(0),
        has_node: node.is_some(),
        is_total,
        errors,
        more,
        more_length,
    };
    status
}

/// Writes that there is no text, and returns this status.
pub fn give_none(status: u8, answer: &mut Answer) -> u8
    ensures status { result ≡ status }
    ensures length { answer.new.length ≡ 0 }
    ensures node { answer.new.has_node ≡ false }
    ensures more { answer.new.more_length ≡ 0 }
    ensures errors { answer.new.errors ≡ answer.old.errors }
{
    *answer = nothing(answer.errors);
    status
}

/// Writes that there are no tables: status 2 for a span that is not within the bytes, and 4 where memory ran out.
pub fn give_span(fault: &SpanFault, answer: &mut Answer) -> u8
    ensures status { IsSpanStatus fault.now result }
    ensures more { answer.new.more_length ≡ 0 }
    ensures errors { answer.new.errors ≡ answer.old.errors }
{
    match fault {
        SpanFault::Outside => give_none(2, answer),
        SpanFault::NoMemory => give_none(4, answer),
    }
}
