//! The program's functions, by name.

ghost use Rattle.std.specs.Prelude.{◌≡◌, map, option_map, IfOk};
ghost use Rattle.vx_rows_values.specs.Values.{num};
ghost use Rattle.vx_rows_values.specs.ValueView.{val_of, cell_val};
ghost use Rattle.vx_functions.specs.Standard.{named, takes, takes_alike, takes_choice, signature, compared, of_number, of_numbers, of_text, of_texts, of_span, chosen, of_one, of_two, of_three, meaning};

use crate::numbers::{add, div, holds, mul, neg, remainder, sub, truth};
use crate::patterns::like;
use crate::texts::{characters, contains, joined, lower, starts_with, substring, upper};
use std::alloc::{AllocError, Global};
use std::cmp::Ordering;
use vx_rows_values::{Cell, ColType, Value};

/// A function of the program. It takes values of certain types alone ([`signature`](StandardFunction::signature)), and of the
/// same values it always answers the same.
#[derive(Clone, Copy, PartialEq, Eq)]
pub enum StandardFunction {
    Add,
    Sub,
    Mul,
    Neg,
    Div,
    Mod,
    Eq,
    Ne,
    Lt,
    Le,
    Gt,
    Ge,
    And,
    Or,
    Not,
    Length,
    Lower,
    Upper,
    Concat,
    StartsWith,
    Contains,
    Like,
    Substring,
    If,
}

// The type of the answer, if the values have just the types that are wanted.
fn takes(wanted: &[ColType], answer: ColType, types: &[ColType]) -> Option<ColType>
    ensures { result ≡ takes wanted.now answer types.now }
{
    if wanted == types { Some(answer) } else { None }
}

// The signature of a comparison: two values of one type, and a number.
fn takes_alike(types: &[ColType]) -> Option<ColType>
    ensures { result ≡ takes_alike types.now }
{
    match types {
        [first, second] if first == second => Some(ColType::Int),
        _ => None,
    }
}

// The signature of `if`: a condition and two values of one type, which is that of the answer.
fn takes_choice(types: &[ColType]) -> Option<ColType>
    ensures { result ≡ takes_choice types.now }
{
    match types {
        [ColType::Int, first, second] if first == second => Some(*first),
        _ => None,
    }
}

impl StandardFunction {
    /// The function of this name, if there is one.
    pub fn named(name: &str) -> Option<StandardFunction>
        ensures { result ≡ named name.now }
    {
        match name {
            "add" => Some(StandardFunction::Add),
            "sub" => Some(StandardFunction::Sub),
            "mul" => Some(StandardFunction::Mul),
            "neg" => Some(StandardFunction::Neg),
            "div" => Some(StandardFunction::Div),
            "mod" => Some(StandardFunction::Mod),
            "eq" => Some(StandardFunction::Eq),
            "ne" => Some(StandardFunction::Ne),
            "lt" => Some(StandardFunction::Lt),
            "le" => Some(StandardFunction::Le),
            "gt" => Some(StandardFunction::Gt),
            "ge" => Some(StandardFunction::Ge),
            "and" => Some(StandardFunction::And),
            "or" => Some(StandardFunction::Or),
            "not" => Some(StandardFunction::Not),
            "length" => Some(StandardFunction::Length),
            "lower" => Some(StandardFunction::Lower),
            "upper" => Some(StandardFunction::Upper),
            "concat" => Some(StandardFunction::Concat),
            "starts_with" => Some(StandardFunction::StartsWith),
            "contains" => Some(StandardFunction::Contains),
            "like" => Some(StandardFunction::Like),
            "substring" => Some(StandardFunction::Substring),
            "if" => Some(StandardFunction::If),
            _ => None,
        }
    }

    /// The type of the answer of values of these types. It is none if the function does not take such values.
    pub fn signature(self, types: &[ColType]) -> Option<ColType>
        ensures { result ≡ signature self types.now }
    {
        let (int, text) = (ColType::Int, ColType::Text);
        match self {
            StandardFunction::Neg | StandardFunction::Not => takes(&[int], int, types),
            StandardFunction::Eq
            | StandardFunction::Ne
            | StandardFunction::Lt
            | StandardFunction::Le
            | StandardFunction::Gt
            | StandardFunction::Ge => takes_alike(types),
            StandardFunction::Length => takes(&[text], int, types),
            StandardFunction::Lower | StandardFunction::Upper => takes(&[text], text, types),
            StandardFunction::Concat => takes(&[text, text], text, types),
            StandardFunction::StartsWith | StandardFunction::Contains | StandardFunction::Like => {
                takes(&[text, text], int, types)
            }
            StandardFunction::Substring => takes(&[text, int, int], text, types),
            StandardFunction::If => takes_choice(types),
            _ => takes(&[int, int], int, types),
        }
    }

    // What a comparison answers of two values of which the first one compares so with the second.
    fn compared(self, order: Ordering) -> Option<i64>
        ensures { result ≡ compared self order }
    {
        match self {
            StandardFunction::Eq => Some(truth(order.is_eq())),
            StandardFunction::Ne => Some(truth(order.is_ne())),
            StandardFunction::Lt => Some(truth(order.is_lt())),
            StandardFunction::Le => Some(truth(order.is_le())),
            StandardFunction::Gt => Some(truth(order.is_gt())),
            StandardFunction::Ge => Some(truth(order.is_ge())),
            _ => None,
        }
    }

    // The answer of one number. None is an overflow.
    fn of_number(self, x: i64) -> Option<i64>
        ensures { result ≡ of_number self x }
    {
        match self {
            StandardFunction::Neg => neg(x),
            StandardFunction::Not => Some(truth(!holds(x))),
            _ => None,
        }
    }

    // The answer of two numbers. None is an overflow.
    fn of_numbers(self, x: i64, y: i64) -> Option<i64>
        ensures { result ≡ of_numbers self x y }
    {
        match self {
            StandardFunction::Add => add(x, y),
            StandardFunction::Sub => sub(x, y),
            StandardFunction::Mul => mul(x, y),
            StandardFunction::Div => div(x, y),
            StandardFunction::Mod => remainder(x, y),
            StandardFunction::And => Some(truth(holds(x) && holds(y))),
            StandardFunction::Or => Some(truth(holds(x) || holds(y))),
            _ => self.compared(x.cmp(&y)),
        }
    }
}

// The answer of one text.
fn of_text(
    alloc: Global,
    function: StandardFunction,
    text: &str,
) -> Result<Option<Value>, AllocError>
    ensures { IfOk result (λ o. option_map val_of o ≡ of_text function text.now) }
{
    match function {
        StandardFunction::Length => Ok(Some(Value::Int(characters(text)))),
        StandardFunction::Lower => Ok(Some(Value::Text(lower(alloc, text)?))),
        StandardFunction::Upper => Ok(Some(Value::Text(upper(alloc, text)?))),
        _ => Ok(None),
    }
}

// The number as a value; none stays none.
fn number_value(number: Option<i64>) -> Option<Value>
    ensures { option_map val_of result ≡ option_map num number }
{
    match number {
        Some(number) => Some(Value::Int(number)),
        None => None,
    }
}

// The answer of two texts.
fn of_texts(
    alloc: Global,
    function: StandardFunction,
    first: &str,
    second: &str,
) -> Result<Option<Value>, AllocError>
    ensures { IfOk result (λ o. option_map val_of o ≡ of_texts function first.now second.now) }
{
    match function {
        StandardFunction::Concat => Ok(Some(Value::Text(joined(alloc, first, second)?))),
        StandardFunction::StartsWith => {
            Ok(number_value(Some(truth(starts_with(first, second)))))
        }
        StandardFunction::Contains => Ok(number_value(Some(truth(contains(first, second))))),
        StandardFunction::Like => Ok(number_value(Some(truth(like(alloc, first, second)?)))),
        _ => {
            let order = first.as_bytes().cmp(second.as_bytes());
            Ok(number_value(function.compared(order)))
        }
    }
}

// The answer of a text and two numbers.
fn of_span(
    alloc: Global,
    function: StandardFunction,
    text: &str,
    from: i64,
    count: i64,
) -> Result<Option<Value>, AllocError>
    ensures { IfOk result (λ o. option_map val_of o ≡ of_span function text.now from count) }
{
    match function {
        StandardFunction::Substring => {
            Ok(Some(Value::Text(substring(alloc, text, from, count)?)))
        }
        _ => Ok(None),
    }
}

// The answer of `if`: the first value where the condition holds, else the second.
fn chosen(
    alloc: Global,
    function: StandardFunction,
    condition: i64,
    first: Cell<'_>,
    second: Cell<'_>,
) -> Result<Option<Value>, AllocError>
    ensures { IfOk result (λ o. option_map val_of o ≡ chosen function condition (cell_val first.entry) (cell_val second.entry)) }
{
    match function {
        StandardFunction::If if holds(condition) => Ok(Some(first.to_value(alloc)?)),
        StandardFunction::If => Ok(Some(second.to_value(alloc)?)),
        _ => Ok(None),
    }
}

// The answer of one value.
fn of_one(
    alloc: Global,
    function: StandardFunction,
    value: Cell<'_>,
) -> Result<Option<Value>, AllocError>
    ensures { IfOk result (λ o. option_map val_of o ≡ of_one function (cell_val value.entry)) }
{
    match value {
        Cell::Int(x) => Ok(number_value(function.of_number(x))),
        Cell::Text(text) => of_text(alloc, function, text),
    }
}

// The answer of two values.
fn of_two(
    alloc: Global,
    function: StandardFunction,
    first: Cell<'_>,
    second: Cell<'_>,
) -> Result<Option<Value>, AllocError>
    ensures { IfOk result (λ o. option_map val_of o ≡ of_two function (cell_val first.entry) (cell_val second.entry)) }
{
    match (first, second) {
        (Cell::Int(x), Cell::Int(y)) => Ok(number_value(function.of_numbers(x, y))),
        (Cell::Text(text), Cell::Text(other)) => of_texts(alloc, function, text, other),
        (Cell::Int(_), Cell::Text(_)) => Ok(None),
        (Cell::Text(_), Cell::Int(_)) => Ok(None),
    }
}

// The answer of three values.
fn of_three(
    alloc: Global,
    function: StandardFunction,
    first: Cell<'_>,
    second: Cell<'_>,
    third: Cell<'_>,
) -> Result<Option<Value>, AllocError>
    ensures { IfOk result (λ o. option_map val_of o ≡ of_three function (cell_val first.entry) (cell_val second.entry) (cell_val third.entry)) }
{
    match (first, second, third) {
        (Cell::Int(condition), _, _) => chosen(alloc, function, condition, second, third),
        (Cell::Text(text), Cell::Int(from), Cell::Int(count)) => {
            of_span(alloc, function, text, from, count)
        }
        (Cell::Text(_), Cell::Int(_), Cell::Text(_)) => Ok(None),
        (Cell::Text(_), Cell::Text(_), _) => Ok(None),
    }
}

impl StandardFunction {
    /// What it answers of these values. None is an overflow: a number outside 64 bits, or a division by 0. It is none too of
    /// values that the function does not take.
    pub fn apply(self, alloc: Global, values: &[Cell<'_>]) -> Result<Option<Value>, AllocError>
        ensures { IfOk result (λ o. option_map val_of o ≡ meaning self (map cell_val values.now)) }
    {
        match values {
            [] => Ok(None),
            [value] => of_one(alloc, self, *value),
            [first, second] => of_two(alloc, self, *first, *second),
            [first, second, third] => of_three(alloc, self, *first, *second, *third),
            [_, _, _, _, ..] => Ok(None),
        }
    }
}
