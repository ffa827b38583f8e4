//! Lines of tables: their parts, and setups in them.

use std::alloc::Global;
use std::test::Fail;
use test_tables::three_numbers;
use vx_exec_setup::Setup;

/// What stands before the first `|` of a line, and what stands behind it.
pub fn first_part(line: &str) -> (&str, &str) {
    let (part, rest) = line.split_once('|').unwrap_or((line, ""));
    (part.trim(), rest.trim())
}

/// The first word of a text, and what stands behind it.
pub fn first_word(text: &str) -> (&str, &str) {
    text.split_once(' ').unwrap_or((text, ""))
}

// A name and its number, as `many=4`.
fn named_number(text: &str) -> Option<(&str, u32)> {
    let (name, number) = text.split_once('=')?;
    Some((name, number.parse::<u32>().ok()?))
}

// Names and their numbers, as `many=4 few=2`.
fn named_numbers(alloc: Global, text: &str) -> Result<Vec<(String, u32)>, Fail> {
    let mut entries = Vec::new(alloc);
    for entry in text.split_whitespace() {
        let Some((name, number)) = named_number(entry) else {
            return Err(Fail::new("a name has a number"));
        };
        entries.push((String::from_str(alloc, name)?, number))?;
    }
    Ok(entries)
}

/// A setup: `sizes` has the workers of names, as `many=4 few=2`, and `limits` the rows of a packet, those of a morsel, and the slack, as
/// `256 1024 8`.
pub fn setup_from(alloc: Global, sizes: &str, limits: &str) -> Result<Setup, Fail> {
    let Some((packet, morsel, slack)) = three_numbers(limits) else {
        return Err(Fail::new("there are three limits"));
    };
    Ok(Setup::new(named_numbers(alloc, sizes)?, packet, morsel, slack))
}
