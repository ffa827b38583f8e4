//! The texts of lines.

ghost use Rattle.std.specs.Prelude.{◌≡◌, ◌++◌, ◌≤◌, ◌<◌, ◌*◌, ◌/◌, ◌%◌, ◌==◌, OnOk, IfOk, Option};
ghost use Rattle.volcano_progress.specs.Text.{are_groups, grouped, number_text, units, unit_name, bytes_text, part_text, amount_text, line_text, shown_text, run_line_text, shown_run_text};

use itoa::Buffer;
use std::alloc::{AllocError, Global};

const KILOBYTE: u64 = 1_000;

const MEGABYTE: u64 = 1_000_000;

// To the first column of the line.
const START: &[u8] = b"\r";

// Erases the line from the cursor on.
const ERASED: &[u8] = b"\x1b[K";

/// Erases the line.
pub const ENDING: &[u8] = b"\r\x1b[K";

// Whether `digits` digits are whole groups of three.
fn are_groups(digits: usize) -> bool
    ensures { result ≡ are_groups digits }
{
    0 < digits && digits % 3 == 0
}

// Adds digits, with a comma before each group of three.
fn push_grouped(text: &mut Vec<u8>, digits: &[u8]) -> Result<(), AllocError>
    ensures { OnOk result (text.new.items ≡ text.old.items ++ grouped digits.now) }
{
    let mut rest = digits;
    while let Some((digit, others)) = rest.split_first() {
        text.push(*digit)?;
        if are_groups(others.len()) {
            text.push(b',')?;
        }
        rest = others;
    }
    Ok(())
}

// Adds a number in groups of three digits.
fn push_number(text: &mut Vec<u8>, number: u64) -> Result<(), AllocError>
    ensures { OnOk result (text.new.items ≡ text.old.items ++ number_text number) }
{
    let mut digits = Buffer::new();
    push_grouped(text, digits.format(number).as_bytes())
}

// How many whole units these bytes are, where the unit is that of a size.
fn units(size: u64, bytes: u64) -> u64
    ensures { result ≡ units size bytes }
{
    if size < MEGABYTE {
        bytes / KILOBYTE
    } else {
        bytes / MEGABYTE
    }
}

// The name of that unit.
fn unit_name(size: u64) -> &'static [u8]
    ensures { result.now ≡ unit_name size }
{
    if size < MEGABYTE { b" kB" } else { b" MB" }
}

// Adds the text of `bytes` bytes of a file whose size is not known.
fn push_bytes(text: &mut Vec<u8>, bytes: u64) -> Result<(), AllocError>
    ensures { OnOk result (text.new.items ≡ text.old.items ++ bytes_text bytes) }
{
    push_number(text, units(bytes, bytes))?;
    text.extend_from_slice(unit_name(bytes))
}

// How many hundredths of `size` bytes `bytes` bytes are.
fn percent_of(bytes: u64, size: u64) -> u64
    requires some { 0 < size }
    requires part { bytes ≤ size }
    ensures { result ≡ bytes * 100 / size }
{
    (u128::from(bytes) * 100 / u128::from(size)) as u64
}

// Adds the text of `bytes` bytes of a file of `size` bytes.
fn push_part(text: &mut Vec<u8>, bytes: u64, size: u64) -> Result<(), AllocError>
    requires some { 0 < size }
    requires part { bytes ≤ size }
    ensures { OnOk result (text.new.items ≡ text.old.items ++ part_text bytes size) }
{
    push_number(text, units(size, bytes))?;
    text.extend_from_slice(b" of ")?;
    push_number(text, units(size, size))?;
    text.extend_from_slice(unit_name(size))?;
    text.extend_from_slice(b" (")?;
    let mut digits = Buffer::new();
    text.extend_from_slice(digits.format(percent_of(bytes, size)).as_bytes())?;
    text.extend_from_slice(b"%)")
}

// Adds the text of `bytes` bytes of a file of `size` bytes, or of unknown size.
fn push_amount(text: &mut Vec<u8>, size: Option<u64>, bytes: u64) -> Result<(), AllocError>
    ensures { OnOk result (text.new.items ≡ text.old.items ++ amount_text size bytes) }
{
    match size {
        Some(size) if 0 < size && bytes <= size => push_part(text, bytes, size),
        _ => push_bytes(text, bytes),
    }
}

// Adds the line.
fn push_line(
    text: &mut Vec<u8>,
    name: &[u8],
    size: Option<u64>,
    bytes: u64,
    lines: u64,
) -> Result<(), AllocError>
    ensures { OnOk result (text.new.items ≡ text.old.items ++ line_text name.now size bytes lines) }
{
    text.extend_from_slice(name)?;
    text.extend_from_slice(b": ")?;
    push_amount(text, size, bytes)?;
    text.extend_from_slice(b", ")?;
    push_number(text, lines)?;
    text.extend_from_slice(b" lines")
}

/// What is written for the line: over the one before it, of which nothing is left.
pub fn shown_text(
    alloc: Global,
    name: &[u8],
    size: Option<u64>,
    bytes: u64,
    lines: u64,
) -> Result<Vec<u8>, AllocError>
    ensures { IfOk result (λ text. text.items ≡ shown_text name.now size bytes lines) }
{
    let mut text = Vec::from_slice(alloc, START)?;
    push_line(&mut text, name, size, bytes, lines)?;
    text.extend_from_slice(ERASED)?;
    Ok(text)
}

// Adds the line of a run.
fn push_run_line(text: &mut Vec<u8>, name: &[u8], rows: u64, seconds: u64) -> Result<(), AllocError>
    ensures { OnOk result (text.new.items ≡ text.old.items ++ run_line_text name.now rows seconds) }
{
    text.extend_from_slice(name)?;
    text.extend_from_slice(b": ")?;
    push_number(text, rows)?;
    text.extend_from_slice(b" rows, ")?;
    push_number(text, seconds)?;
    text.extend_from_slice(b" s")
}

/// What is written for the line of a run: over the one before it, of which nothing is left.
pub fn shown_run_text(
    alloc: Global,
    name: &[u8],
    rows: u64,
    seconds: u64,
) -> Result<Vec<u8>, AllocError>
    ensures { IfOk result (λ text. text.items ≡ shown_run_text name.now rows seconds) }
{
    let mut text = Vec::from_slice(alloc, START)?;
    push_run_line(&mut text, name, rows, seconds)?;
    text.extend_from_slice(ERASED)?;
    Ok(text)
}
