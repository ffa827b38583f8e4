//! The relation as rows.

ghost use Rattle.std.specs.Prelude.{◌≡◌, ◌<◌, ◌≤◌, ◌++◌, ◌∷◌, [], All, pos, length, map, string_bytes, IsUtf8, IfOk, OnOk};
ghost use Rattle.vx_rows_values.specs.Limits.{max_generated_rows};
ghost use Rattle.vx_rows_values.specs.Types.{type_at};
ghost use Rattle.vx_rows_values.specs.Values.{num, text};
ghost use Rattle.vx_wisconsin.specs.Wisconsin.{numbers, text_of, string4, row_of, wisconsin, column_names, column_types};

use crate::line::{TURNS, numbers, seven_letters, unique1};
use std::alloc::{AllocError, Global};
use std::str;
use vx_rows::OpenRows;
use vx_rows_values::{Cell, ColType};
use vx_rows_views::Rows;

const NAMES: [&str; 16] = [
    "unique1",
    "unique2",
    "two",
    "four",
    "ten",
    "twenty",
    "onePercent",
    "tenPercent",
    "twentyPercent",
    "fiftyPercent",
    "unique3",
    "evenOnePercent",
    "oddOnePercent",
    "stringu1",
    "stringu2",
    "string4",
];

const TYPES: [ColType; 16] = [
    ColType::Int,
    ColType::Int,
    ColType::Int,
    ColType::Int,
    ColType::Int,
    ColType::Int,
    ColType::Int,
    ColType::Int,
    ColType::Int,
    ColType::Int,
    ColType::Int,
    ColType::Int,
    ColType::Int,
    ColType::Text,
    ColType::Text,
    ColType::Text,
];

// Texts of their own with these names.
fn texts_of(alloc: Global, names: &[&str]) -> Result<Vec<String>, AllocError>
    ensures { IfOk result (λ texts. map string_bytes texts.items ≡ map (λ name. name.now) names.now) }
{
    let mut texts = Vec::with_capacity(alloc, names.len())?;
    for name in names {
        texts.push(String::from_str(alloc, name)?)?;
    }
    Ok(texts)
}

/// The names of the columns.
#[tactic(auto, unfolding(crate::specs::Wisconsin::column_names))]
pub fn column_names(alloc: Global) -> Result<Vec<String>, AllocError>
    ensures { IfOk result (λ names. map string_bytes names.items ≡ column_names) }
{
    texts_of(alloc, &NAMES)
}

// The text of a number.
#[tactic(auto, unfolding(crate::specs::Wisconsin::seven_letters))]
fn text_of(number: u64) -> [u8; 52]
    ensures { result ≡ text_of number }
{
    let mut letters = [b'x'; 52];
    letters[..7].copy_from_slice(&seven_letters(number));
    letters
}

// The last column of row `i`.
#[tactic(auto, unfolding(crate::specs::Wisconsin::string4))]
fn string4(i: u64) -> [u8; 52]
    ensures { result ≡ string4 i }
{
    let mut letters = [b'x'; 52];
    letters[..4].copy_from_slice(&[TURNS[(i % 4) as usize]; 4]);
    letters
}

// Puts the columns of numbers into the open row.
fn push_numbers(rows: &mut OpenRows, numbers: &[u64; 13]) -> Result<(), AllocError>
    requires small { All (λ k. k ≤ 9223372036854775807) numbers.now }
    requires types { rows.old.types ≡ column_types }
    requires front { rows.old.front ≡ [] }
    ensures types { rows.new.types ≡ column_types }
    ensures rows { rows.new.rows ≡ rows.old.rows }
    ensures front { OnOk result (rows.new.front ≡ map (λ k. num (pos k)) numbers.now) }
{
    for number in numbers {
        rows.push_cell(Cell::Int(*number as i64))?;
    }
    Ok(())
}

// Puts letters into the open row.
fn push_text(rows: &mut OpenRows, letters: &[u8]) -> Result<(), AllocError>
    requires utf8 { IsUtf8 letters.now }
    requires room { length rows.old.front < length rows.old.types }
    requires kind { type_at rows.old.types (length rows.old.front) ≡ ColType.Text }
    ensures types { rows.new.types ≡ rows.old.types }
    ensures rows { rows.new.rows ≡ rows.old.rows }
    ensures front { OnOk result (rows.new.front ≡ rows.old.front ++ text letters.now ∷ []) }
{
    rows.push_cell(Cell::Text(unsafe { str::from_utf8_unchecked(letters) }))
}

// Adds row `i` of `count`.
fn push_row(rows: &mut OpenRows, count: u64, i: u64) -> Result<(), AllocError>
    requires there { (count ≤ max_generated_rows) × (i < count) }
    requires types { rows.old.types ≡ column_types }
    requires front { rows.old.front ≡ [] }
    ensures types { rows.new.types ≡ column_types }
    ensures rows { OnOk result (rows.new.rows ≡ rows.old.rows ++ row_of count i ∷ []) }
    ensures front { OnOk result (rows.new.front ≡ []) }
{
    let unique1 = unique1(count, i);
    push_numbers(rows, &numbers(unique1, i))?;
    push_text(rows, &text_of(unique1))?;
    push_text(rows, &text_of(i))?;
    push_text(rows, &string4(i))?;
    rows.end_row()
}

/// The relation with `count` rows.
pub fn generate_rows(alloc: Global, count: u64) -> Result<Rows, AllocError>
    requires { count ≤ max_generated_rows }
    ensures { IfOk result (λ r. r.rows ≡ wisconsin count) }
{
    let mut rows = OpenRows::new(alloc, &TYPES)?;
    for i in 0..count {
        push_row(&mut rows, count, i)?;
    }
    Rows::of_table(alloc, rows.into_rows())
}
