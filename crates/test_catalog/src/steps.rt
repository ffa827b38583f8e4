//! Steps that make rows and ask of them, each a word and what stands behind it.

ghost use Rattle.std.specs.Prelude.{◌≡◌, [], ◌∷◌, length, true};
ghost use Rattle.vx_rows_values.specs.declared.value.ColType.TheVariants as kind;
ghost use Rattle.vx_rows.specs.View.{AreColumns};
ghost use Rattle.vx_rows_values.specs.Order.{order_columns};

use std::alloc::{AllocError, Global};
use std::collections::HashMap;
use std::mem;
use test_tables::{TYPES, shown, three_numbers};
use vx_rows::{OpenRows, Row, Table};
use vx_rows_values::{Cell, ColType, OrderEntry, Value};

// A number and a text, as `7 b`.
fn entry(text: &str) -> Option<(i64, &str)> {
    let (number, text) = text.split_once(' ')?;
    Some((number.parse::<i64>().ok()?, text))
}

// Two numbers, as `0 2`.
fn pair(text: &str) -> Option<(usize, usize)> {
    let (first, second) = text.split_once(' ')?;
    Some((first.parse::<usize>().ok()?, second.parse::<usize>().ok()?))
}

// The columns of the rows `rows` that the text `text` names.
fn columns(rows: &Table, text: &str) -> &'static [usize]
    requires { rows.now.types ≡ kind.Int ∷ kind.Text ∷ [] }
    ensures { AreColumns (length rows.now.types) result.now }
{
    match text {
        "0" => &[0],
        "1" => &[1],
        "1 0" => &[1, 0],
        _ => &[],
    }
}

// The column of numbers, falling.
const NUMBERS_FALL: OrderEntry = OrderEntry {
    column: 0,
    falling: true,
};

// The column of numbers, rising.
const NUMBERS: OrderEntry = OrderEntry {
    column: 0,
    falling: false,
};

// The column of texts, falling.
const TEXTS_FALL: OrderEntry = OrderEntry {
    column: 1,
    falling: true,
};

// The column of texts, rising.
const TEXTS: OrderEntry = OrderEntry {
    column: 1,
    falling: false,
};

// The order of the rows `rows` that the text `text` names, with a minus before each column that falls.
fn entries(rows: &Table, text: &str) -> &'static [OrderEntry]
    requires { rows.now.types ≡ kind.Int ∷ kind.Text ∷ [] }
    ensures { AreColumns (length rows.now.types) (order_columns result.now) }
{
    match text {
        "0" => &[NUMBERS],
        "1" => &[TEXTS],
        "1 0" => &[TEXTS, NUMBERS],
        "-0" => &[NUMBERS_FALL],
        "-1 0" => &[TEXTS_FALL, NUMBERS],
        _ => &[],
    }
}

// Adds the row that `text` says, as `7 b`, of values that are borrowed.
fn push_cells(rows: &mut Table, text: &str) -> Result<(), AllocError>
    requires { rows.old.types ≡ kind.Int ∷ kind.Text ∷ [] }
{
    match entry(text) {
        Some((number, text)) => rows.push_cells(&[Cell::Int(number), Cell::Text(text)]),
        None => Ok(()),
    }
}

// Adds the row that `text` says, of values that are owned.
fn push_values(alloc: Global, rows: &mut Table, text: &str) -> Result<(), AllocError> {
    let Some((number, text)) = entry(text) else {
        return Ok(());
    };
    let values = [
        Value::Int(number),
        Value::Text(String::from_str(alloc, text)?),
    ];
    if rows.fits(&values) {
        rows.push(&values)?;
    }
    Ok(())
}

// Adds the rows of `others` from one position up to another, as `text` says: `0 2`.
fn push_range(rows: &mut Table, others: &Table, text: &str) -> Result<(), AllocError>
    requires { others.now.types ≡ rows.old.types }
{
    let Some((from, to)) = pair(text) else {
        return Ok(());
    };
    if from <= to && to <= others.len() {
        return rows.append_range(others, from, to);
    }
    Ok(())
}

// Adds the rows of `others` at three positions, as `text` says: `3 3 1`.
fn push_at(rows: &mut Table, others: &Table, text: &str) -> Result<(), AllocError>
    requires { others.now.types ≡ rows.old.types }
{
    let Some((a, b, c)) = three_numbers(text) else {
        return Ok(());
    };
    let (a, b, c) = (a as usize, b as usize, c as usize);
    let count = others.len();
    if a < count && b < count && c < count {
        return rows.append_rows_at(others, &[a, b, c]);
    }
    Ok(())
}

// Makes `rows` two rows that are filled value by value, both of the number that `text` says, the first with its text and the
// second with none; a third is begun. It answers how many rows there are before the first ends, how many at the end, and
// how many columns.
fn fill(alloc: Global, rows: &mut Table, text: &str) -> Result<String, AllocError> {
    let (number, text) = entry(text).unwrap_or((0, ""));
    let mut open = OpenRows::new(alloc, TYPES.as_slice())?;
    open.push_cell(Cell::Int(number))?;
    open.push_cell(Cell::Text(text))?;
    let before = open.len();
    open.end_row()?;
    open.push_cell(Cell::Int(number))?;
    open.push_cell(Cell::Text(""))?;
    open.end_row()?;
    open.push_cell(Cell::Int(number))?;
    let answer = format!(in alloc; "[{before} {} {}]", open.len(), open.types().len())?;
    *rows = open.into_rows();
    Ok(answer)
}

// The positions of the rows `rows` in the order `order`.
fn sorted(alloc: Global, rows: &Table, order: &[OrderEntry]) -> Result<String, AllocError>
    requires { AreColumns (length rows.now.types) (order_columns order.now) }
{
    let mut answer = String::from_str(alloc, "[")?;
    for position in &rows.sorted_positions(alloc, order)? {
        write!(answer, "{position},")?;
    }
    answer.push(']')?;
    Ok(answer)
}

// The first two of the rows `rows` that agree on the columns `columns`.
fn clash(alloc: Global, rows: &Table, columns: &[usize]) -> Result<String, AllocError>
    requires { AreColumns (length rows.now.types) columns.now }
{
    match rows.first_key_clash(alloc, columns)? {
        Some((first, second)) => format!(in alloc; "[{first} {second}]"),
        None => String::from_str(alloc, "[none]"),
    }
}

// Notes the first of the rows `rows` with each text in `seen`, and leaves the last text as the key `key`.
fn note(rows: &Table, key: &mut Row, seen: &mut HashMap<Row, usize>) -> Result<(), AllocError>
    requires { rows.now.types ≡ kind.Int ∷ kind.Text ∷ [] }
{
    for i in 0..rows.len() {
        key.read(rows, i, &[1])?;
        if !seen.contains_key(&*key) {
            seen.insert(key.copy()?, i)?;
        }
    }
    Ok(())
}

// How many texts the rows `rows` have as keys of a map, and which is the first row with the last one.
fn keys(alloc: Global, rows: &Table) -> Result<String, AllocError>
    requires { rows.now.types ≡ kind.Int ∷ kind.Text ∷ [] }
{
    let mut seen = HashMap::new(alloc);
    let mut key = Row::new(alloc);
    note(rows, &mut key, &mut seen)?;
    let first = seen.get(&key).copied().unwrap_or(rows.len());
    format!(in alloc; "[{} {first}]", seen.len())
}

// What the rows `rows` answer to the word `word`, which may ask of the columns that `text` names.
fn answer(alloc: Global, rows: &Table, word: &str, text: &str) -> Result<String, AllocError>
    requires { rows.now.types ≡ kind.Int ∷ kind.Text ∷ [] }
{
    match word {
        "show" => format!(in alloc; "[{}]", shown(alloc, rows)?),
        "sorted" => format!(in alloc; "[{}]", rows.is_sorted(entries(rows, text))),
        "order" => sorted(alloc, rows, entries(rows, text)),
        "clash" => clash(alloc, rows, columns(rows, text)),
        "keys" => keys(alloc, rows),
        _ => format!(in alloc; "[{word}?]"),
    }
}

// Whether the rows `rows` have the columns of the usual ones: a number and a text.
fn are_usual(rows: &Table) -> bool
    ensures { result ≡ true → rows.now.types ≡ kind.Int ∷ kind.Text ∷ [] }
{
    matches!(rows.types(), [ColType::Int, ColType::Text])
}

/// What the step `step` answers. It may change `rows` and `others`; where memory ran out it changes neither.
pub fn take_step(
    alloc: Global,
    rows: &mut Table,
    others: &mut Table,
    step: &str,
) -> Result<String, AllocError> {
    if !are_usual(rows) || !are_usual(others) {
        return String::from_str(alloc, "other types");
    }
    let (word, rest) = step.split_once(' ').unwrap_or((step, ""));
    match word {
        "cells" => push_cells(rows, rest)?,
        "values" => push_values(alloc, rows, rest)?,
        "range" => push_range(rows, others, rest)?,
        "at" => push_at(rows, others, rest)?,
        "reserve" => rows.reserve(rest.parse::<usize>().unwrap_or(0))?,
        "truncate" => rows.truncate(rest.parse::<usize>().unwrap_or(0)),
        "copy" => *others = rows.copy(alloc)?,
        "take" => *others = rows.take(alloc)?,
        "swap" => mem::swap(rows, others),
        "fill" => return fill(alloc, rows, rest),
        _ => return answer(alloc, rows, word, rest),
    }
    Ok(String::new(alloc))
}
