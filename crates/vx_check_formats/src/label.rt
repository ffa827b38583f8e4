//! The labels of a graph in the language of Graphviz.

ghost use Rattle.std.specs.Prelude.{◌≡◌, ◌++◌, string_bytes, OnOk};
ghost use Rattle.vx_check_formats.specs.Label.{shown, inside, insides, label};

use std::alloc::AllocError;

// The signs for the characters below 32, in order: U+2400 to U+241F.
const FIRST_SIGN: u32 = 0x2400;

// The sign for the character 127.
const DELETE_SIGN: char = '\u{2421}';

// What stands for a control character, which no picture can have: a sign for it.
fn shown(character: char) -> char
    ensures { result ≡ shown character }
{
    let code = character as u32;
    if code < 32 {
        return char::from_u32(FIRST_SIGN + code).unwrap_or(DELETE_SIGN);
    }
    if code == 127 {
        return DELETE_SIGN;
    }
    character
}

// Adds a character inside of a label.
fn push_inside(text: &mut String, character: char) -> Result<(), AllocError>
    ensures { OnOk result (string_bytes text.new ≡ string_bytes text.old ++ inside character) }
{
    match character {
        '"' => text.push_str("\\\""),
        '\\' => text.push_str("\\\\"),
        '&' => text.push_str("&amp;"),
        _ => text.push(shown(character)),
    }
}

/// Adds the characters of a text inside of a label.
pub fn push_insides(text: &mut String, words: &str) -> Result<(), AllocError>
    ensures { OnOk result (string_bytes text.new ≡ string_bytes text.old ++ insides words.now) }
{
    for character in words.chars() {
        push_inside(text, character)?;
    }
    Ok(())
}

/// Adds a label of one line.
pub fn push_label(text: &mut String, words: &str) -> Result<(), AllocError>
    ensures { OnOk result (string_bytes text.new ≡ string_bytes text.old ++ label words.now) }
{
    text.push_str("label=\"")?;
    push_insides(text, words)?;
    text.push_str("\"")
}
