//! Functions of operands: standard ones of two numbers by columns, any other row by row.

ghost use Rattle.std.specs.Prelude.{◌≡◌, ◌++◌, [], ◌∷◌, true, map, option_map, All, IfOk, IfErr, IfSome, OnOk};
ghost use Rattle.vx_rows_values.specs.declared.value.ColType.TheVariants as kind;
ghost use Rattle.vx_rows_values.specs.Types.{type_of};
ghost use Rattle.vx_rows_values.specs.ValueView.{val_of, cell_val};
ghost use Rattle.vx_functions.specs.Standard.{meaning};
ghost use Rattle.vx_plan_nodes.specs.Functions.{given_for};
ghost use Rattle.vx_plan_nodes.specs.Known.{is_type};
ghost use Rattle.vx_ops_computing.specs.Applied.{AnswersOf, AreNumbersOf, AreTextsOf};
ghost use Rattle.vx_ops_computing.specs.Called.{IsCalled, CallOverflows};
ghost use Rattle.vx_ops_computing.specs.Fault.{Blames};
ghost use Rattle.vx_ops_computing.specs.Operands.{operand_type, IsThere, IsFor, values_at};

use crate::answers::{Answers, Named};
use crate::fault::ComputeFault;
use crate::numbers::{gather, paired};
use crate::operands::Operand;
use crate::texts::tested;
use std::alloc::{AllocError, Global};
use vx_functions::StandardFunction;
use vx_plan_nodes::PlanFunctions;
use vx_rows::{OpenRows, Table};
use vx_rows_values::{Cell, ColType, Value};

// The values of the operands for row k.
fn cells_at<'o>(
    alloc: Global,
    operands: &'o [Operand<'_>],
    k: usize,
) -> Result<Vec<Cell<'o>>, AllocError>
    requires { All (IsThere k) operands.now }
    ensures { IfOk result (λ v. map cell_val v.items ≡ values_at operands.entry.now k) }
{
    let mut cells = Vec::with_capacity(alloc, operands.len())?;
    for operand in operands {
        cells.push(operand.cell(k))?;
    }
    Ok(cells)
}

// What a function answers of the operands for row k.
fn answer_at<A: Answers>(
    alloc: Global,
    function: &A,
    operands: &[Operand<'_>],
    k: usize,
) -> Result<Option<Value>, AllocError>
    requires { All (IsThere k) operands.now }
    ensures { IfOk result (λ o. option_map val_of o ≡ A.says function.now (values_at operands.now k)) }
{
    match operands {
        [first] => function.answer(alloc, &[first.cell(k)]),
        [first, second] => function.answer(alloc, &[first.cell(k), second.cell(k)]),
        _ => function.answer(alloc, cells_at(alloc, operands, k)?.as_slice()),
    }
}

// What a function whose answers are numbers answers for each of `count` rows.
fn number_answers<A: Answers>(
    alloc: Global,
    function: &A,
    operands: &[Operand<'_>],
    count: usize,
) -> Result<Vec<i64>, ComputeFault>
    requires whole { All (IsFor count) operands.now }
    requires typed { AnswersOf (A.says function.now) operands.now count kind.Int }
    ensures numbers { IfOk result (λ v. AreNumbersOf (A.says function.now) operands.now count v.items) }
    ensures fault { IfErr result (Blames (CallOverflows (A.says function.now) operands.now count)) }
{
    let mut numbers = Vec::with_capacity(alloc, count)?;
    for k in 0..count {
        match answer_at(alloc, function, operands, k)? {
            Some(Value::Int(number)) => numbers.push(number)?,
            Some(Value::Text(_)) => unreachable!(),
            None => return Err(ComputeFault::Overflow),
        }
    }
    Ok(numbers)
}

// Adds a row of one text.
fn push_text(texts: &mut OpenRows, text: &Value) -> Result<(), AllocError>
    requires types { texts.old.types ≡ kind.Text ∷ [] }
    requires front { texts.old.front ≡ [] }
    requires kind { type_of (val_of text.now) ≡ kind.Text }
    ensures types { texts.new.types ≡ kind.Text ∷ [] }
    ensures front { OnOk result (texts.new.front ≡ []) }
    ensures rows { OnOk result (texts.new.rows ≡ texts.old.rows ++ (val_of text.now ∷ []) ∷ []) }
{
    texts.push_cell(text.cell())?;
    texts.end_row()
}

// What a function whose answers are texts answers for each of `count` rows.
fn text_answers<A: Answers>(
    alloc: Global,
    function: &A,
    operands: &[Operand<'_>],
    count: usize,
) -> Result<Table, ComputeFault>
    requires whole { All (IsFor count) operands.now }
    requires typed { AnswersOf (A.says function.now) operands.now count kind.Text }
    ensures texts { IfOk result (λ t. AreTextsOf (A.says function.now) operands.now count t) }
    ensures fault { IfErr result (Blames (CallOverflows (A.says function.now) operands.now count)) }
{
    let mut texts = OpenRows::new(alloc, &[ColType::Text])?;
    for k in 0..count {
        match answer_at(alloc, function, operands, k)? {
            Some(text) => push_text(&mut texts, &text)?,
            None => return Err(ComputeFault::Overflow),
        }
    }
    Ok(texts.into_rows())
}

// What a function of two numbers answers for each of `count` rows, where this is one and these are two numbers.
fn pair_answers(
    alloc: Global,
    function: StandardFunction,
    operands: &[Operand<'_>],
    count: usize,
) -> Result<Option<Vec<i64>>, ComputeFault>
    requires { All (IsFor count) operands.now }
    ensures numbers { IfOk result (λ o. IfSome o (λ v. AreNumbersOf (meaning function) operands.now count v.items)) }
    ensures fault { IfErr result (Blames (CallOverflows (meaning function) operands.now count)) }
{
    let [first, second] = operands else {
        return Ok(None);
    };
    let Some(left) = gather(alloc, first, count)? else {
        return Ok(None);
    };
    let Some(right) = gather(alloc, second, count)? else {
        return Ok(None);
    };
    paired(alloc, function, &left, &right, count)
}

// What a function answers of operands for each of `count` rows, where its answers have this type, row by row.
fn applied_by_rows<'a, A: Answers>(
    alloc: Global,
    function: &A,
    answer: ColType,
    operands: &[Operand<'_>],
    count: usize,
) -> Result<Operand<'a>, ComputeFault>
    requires whole { All (IsFor count) operands.now }
    requires typed { AnswersOf (A.says function.now) operands.now count answer }
    ensures applied { IfOk result (IsCalled (A.says function.now) operands.now count answer) }
    ensures fault { IfErr result (Blames (CallOverflows (A.says function.now) operands.now count)) }
{
    match answer {
        ColType::Int => {
            let numbers = number_answers(alloc, function, operands, count)?;
            Ok(Operand::Numbers(numbers))
        }
        ColType::Text => {
            let texts = text_answers(alloc, function, operands, count)?;
            // its rows fit its types
            let _types = texts.types();
            Ok(Operand::Texts(texts))
        }
    }
}

// What a standard function answers of operands for each of `count` rows, where its answers have this type.
fn applied<'a>(
    alloc: Global,
    function: StandardFunction,
    answer: ColType,
    operands: &[Operand<'_>],
    count: usize,
) -> Result<Operand<'a>, ComputeFault>
    requires whole { All (IsFor count) operands.now }
    requires typed { AnswersOf (meaning function) operands.now count answer }
    ensures applied { IfOk result (IsCalled (meaning function) operands.now count answer) }
    ensures fault { IfErr result (Blames (CallOverflows (meaning function) operands.now count)) }
{
    if let ColType::Int = answer {
        if let Some(numbers) = pair_answers(alloc, function, operands, count)? {
            return Ok(Operand::Numbers(numbers));
        }
        if let Some(numbers) = tested(alloc, function, operands, count)? {
            return Ok(Operand::Numbers(numbers));
        }
    }
    applied_by_rows(alloc, &function, answer, operands, count)
}

/// What the function of this name answers of operands for each of `count` rows: a standard one by columns where it can.
pub fn called<'a, F: PlanFunctions>(
    alloc: Global,
    functions: &F,
    name: &str,
    answer: ColType,
    operands: &[Operand<'_>],
    count: usize,
) -> Result<Operand<'a>, ComputeFault>
    requires whole { All (IsFor count) operands.now }
    requires known { is_type answer ((given_for (F.functions functions.now) name.now).signature (map operand_type operands.now)) ≡ true }
    ensures called { IfOk result (IsCalled (given_for (F.functions functions.now) name.now).answer operands.now count answer) }
    ensures fault { IfErr result (Blames (CallOverflows (given_for (F.functions functions.now) name.now).answer operands.now count)) }
{
    match functions.standard(name) {
        Some(function) => applied(alloc, function, answer, operands, count),
        None => {
            let named = Named { functions, name };
            applied_by_rows(alloc, &named, answer, operands, count)
        }
    }
}
