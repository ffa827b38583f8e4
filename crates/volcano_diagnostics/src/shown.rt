//! How a text is shown in a line: as it is, but for what would not stay on the line or not be seen.

ghost use Rattle.std.specs.Str.{chars};
ghost use Rattle.std.specs.List.{list_any};
ghost use Rattle.std.specs.Prelude.{◌≡◌, ◌≤◌, ◌<◌, ◌++◌, ◌∷◌, [], ℕ, List, length, OnOk};
ghost use Rattle.volcano_diagnostics.specs.Shown.{digit, numbered, is_bare, is_hidden, are_seen, is_continuation, cut_place, quoted_length, byte_shown, byte_quoted, text_shown, text_quoted, IsShown, IsQuoted};

use std::alloc::AllocError;
use std::str;

// The most bytes of a value that are shown.
const MAX_SHOWN: usize = 60;

// Whether a character is not seen by itself, or moves what is.
fn is_hidden(c: char) -> bool
    ensures { result ≡ is_hidden c }
{
    matches!(
        c,
        '\u{80}'..='\u{9f}'
            | '\u{200b}'..='\u{200f}'
            | '\u{2028}'..='\u{202e}'
            | '\u{2060}'..='\u{2069}'
            | '\u{feff}'
    )
}

// Whether a character of a text is not seen by itself, or moves what is.
fn has_hidden(text: &str) -> bool
    ensures { result ≡ list_any is_hidden (chars text.now) }
{
    let mut is_found = false;
    for character in text.chars() {
        is_found = is_found || is_hidden(character);
    }
    is_found
}

// Whether bytes are UTF-8 and each of their characters beyond ASCII is seen.
fn are_seen(bytes: &[u8]) -> bool
    ensures { result ≡ are_seen bytes.now }
{
    match str::from_utf8(bytes) {
        Ok(text) => !has_hidden(text),
        Err(_) => false,
    }
}

// Whether a byte goes on with a character that began before it.
fn is_continuation(byte: u8) -> bool
    ensures { result ≡ is_continuation byte }
{
    127 < byte && byte < 192
}

// Before which of its bytes a long text is cut: where a character begins.
fn cut_place(bytes: &[u8]) -> usize
    requires { 60 < length bytes.now }
    ensures place { result ≡ cut_place bytes.now }
    ensures few { result ≤ 60 }
{
    if !is_continuation(bytes[60]) {
        60
    } else if !is_continuation(bytes[59]) {
        59
    } else if !is_continuation(bytes[58]) {
        58
    } else if !is_continuation(bytes[57]) {
        57
    } else {
        60
    }
}

// How many bytes are shown in quotes: all, or those of whole characters at the front.
#[tactic(auto, unfolding(crate::specs::Shown::quoted_length))]
fn quoted_length(bytes: &[u8]) -> usize
    ensures length { result ≡ quoted_length bytes.now }
    ensures within { result ≤ length bytes.now }
    ensures few { result ≤ 60 }
{
    if bytes.len() <= MAX_SHOWN {
        bytes.len()
    } else {
        cut_place(bytes)
    }
}

// The digit of a number below 16.
fn digit(n: u8) -> u8
    requires { n < 16 }
    ensures { result ≡ digit n }
{
    if n < 10 { b'0' + n } else { b'a' + (n - 10) }
}

// Puts a byte by its number.
fn push_numbered(text: &mut Vec<u8>, byte: u8) -> Result<(), AllocError>
    ensures { OnOk result (text.new.items ≡ text.old.items ++ numbered byte) }
{
    let digits = [b'\\', b'x', digit(byte / 16), digit(byte % 16)];
    text.extend_from_slice(&digits)
}

// Puts a byte behind a backslash.
fn push_escaped(text: &mut Vec<u8>, byte: u8) -> Result<(), AllocError>
    ensures { OnOk result (text.new.items ≡ text.old.items ++ 92 ∷ byte ∷ []) }
{
    let escaped = [b'\\', byte];
    text.extend_from_slice(&escaped)
}

// Whether a byte is shown as it is.
fn is_bare(are_seen: bool, byte: u8) -> bool
    ensures { result ≡ is_bare are_seen byte }
{
    byte >= 32 && byte != 127 && (byte < 128 || are_seen)
}

// Puts a byte of a text.
#[tactic(auto, unfolding(crate::specs::Shown::byte_shown))]
fn push_byte(text: &mut Vec<u8>, are_seen: bool, byte: u8) -> Result<(), AllocError>
    ensures { OnOk result (text.new.items ≡ text.old.items ++ byte_shown are_seen byte) }
{
    match byte {
        b'\n' => push_escaped(text, b'n'),
        b'\r' => push_escaped(text, b'r'),
        b'\t' => push_escaped(text, b't'),
        _ => {
            if !is_bare(are_seen, byte) {
                return push_numbered(text, byte);
            }
            text.push(byte)?;
            Ok(())
        }
    }
}

// Puts a byte of a text in quotes.
#[tactic(auto, unfolding(crate::specs::Shown::byte_quoted))]
fn push_quoted_byte(text: &mut Vec<u8>, are_seen: bool, byte: u8) -> Result<(), AllocError>
    ensures { OnOk result (text.new.items ≡ text.old.items ++ byte_quoted are_seen byte) }
{
    if byte == b'"' || byte == b'\\' {
        return push_escaped(text, byte);
    }
    push_byte(text, are_seen, byte)
}

/// Puts a text on a line.
pub fn push_shown(text: &mut Vec<u8>, shown: &[u8]) -> Result<(), AllocError>
    ensures text { OnOk result (text.new.items ≡ text.old.items ++ text_shown shown.now) }
    ensures shown { OnOk result ((added : List ℕ) × (text.new.items ≡ text.old.items ++ added) × IsShown shown.now added) }
{
    let are_seen = are_seen(shown);
    for byte in shown {
        push_byte(text, are_seen, *byte)?;
    }
    Ok(())
}

/// Puts a text on a line, in quotes and with dots behind it if it is cut.
pub fn push_quoted(text: &mut Vec<u8>, quoted: &[u8]) -> Result<(), AllocError>
    ensures text { OnOk result (text.new.items ≡ text.old.items ++ text_quoted quoted.now) }
    ensures quoted { OnOk result ((added : List ℕ) × (text.new.items ≡ text.old.items ++ added) × IsQuoted quoted.now added) }
{
    let (shown, rest) = quoted.split_at(quoted_length(quoted));
    let are_seen = are_seen(shown);
    text.push(b'"')?;
    for byte in shown {
        push_quoted_byte(text, are_seen, *byte)?;
    }
    text.push(b'"')?;
    if !rest.is_empty() {
        text.extend_from_slice(b"...")?;
    }
    Ok(())
}
