//! What expressions are in SQL.

ghost use Rattle.std.specs.Prelude.{◌≡◌, ◌++◌, map, string_bytes, OnOk};
ghost use Rattle.vx_rows_values.specs.ValueView.{val_of};
ghost use Rattle.vx_plan_nodes.specs.Outline.{expression_of};
ghost use Rattle.vx_check_sql.specs.Functions.{spaced, call_sql, tests_operands};
ghost use Rattle.vx_check_sql.specs.FunctionsView.{form_of};
ghost use Rattle.vx_check_sql.specs.Expressions.{constant_before, constant_after, constant_sql, expression_sql};

use crate::dialect::Dialect;
use crate::functions::{Form, call_form, is_tested, push_closing, push_opening, tests_operands};
use crate::texts::text_at;
use crate::words::push_value;
use std::alloc::AllocError;
use vx_functions::StandardFunction;
use vx_plan_nodes::Expression;
use vx_rows_values::Value;

fn constant_before(dialect: Dialect, value: &Value) -> &'static str
    ensures { result.now ≡ constant_before dialect (val_of value.now) }
{
    match (dialect, value) {
        (Dialect::Sqlite, _) => "",
        (Dialect::Postgres, Value::Int(_)) => "CAST(",
        (Dialect::Postgres, Value::Text(_)) => "(CAST(",
        (Dialect::ClickHouse, Value::Int(_)) => "toInt64(",
        (Dialect::ClickHouse, Value::Text(_)) => "",
    }
}

fn constant_after(dialect: Dialect, value: &Value) -> &'static str
    ensures { result.now ≡ constant_after dialect (val_of value.now) }
{
    match (dialect, value) {
        (Dialect::Sqlite, _) => "",
        (Dialect::Postgres, Value::Int(_)) => " AS bigint)",
        (Dialect::Postgres, Value::Text(_)) => " AS text) COLLATE \"C\")",
        (Dialect::ClickHouse, Value::Int(_)) => ")",
        (Dialect::ClickHouse, Value::Text(_)) => "",
    }
}

// Adds a value that is a column or an operand.
fn push_constant(text: &mut String, dialect: Dialect, value: &Value) -> Result<(), AllocError>
    ensures { OnOk result (string_bytes text.new ≡ string_bytes text.old ++ constant_sql dialect (val_of value.now)) }
{
    text.push_str(constant_before(dialect, value))?;
    push_value(text, dialect, value)?;
    text.push_str(constant_after(dialect, value))
}

// Adds the operands of a call that is written in this form.
#[cycle(expressions)]
fn push_operands(
    text: &mut String,
    dialect: Dialect,
    columns: &[String],
    asks: bool,
    form: Form,
    operands: &[Expression],
) -> Result<(), AllocError>
    ensures { OnOk result (string_bytes text.new ≡ string_bytes text.old ++ spaced (form_of form) 0 (map (λ e. expression_sql dialect (map string_bytes columns.now) asks (expression_of e)) operands.now)) }
{
    for (i, operand) in operands.iter().enumerate() {
        text.push_str(form.before(i))?;
        push_expression(text, dialect, columns, asks, operand)?;
    }
    Ok(())
}

// Adds a call of a function, if the program has it.
#[cycle(expressions)]
fn push_call(
    text: &mut String,
    dialect: Dialect,
    columns: &[String],
    asks: bool,
    function: Option<StandardFunction>,
    operands: &[Expression],
) -> Result<(), AllocError>
    ensures { OnOk result (string_bytes text.new ≡ string_bytes text.old ++ call_sql dialect asks function (map (λ e. expression_sql dialect (map string_bytes columns.now) (tests_operands function) (expression_of e)) operands.now)) }
{
    let words = call_form(dialect, function);
    let tests = is_tested(dialect, asks, function);
    push_opening(text, tests, words)?;
    push_operands(
        text,
        dialect,
        columns,
        tests_operands(function),
        words,
        operands,
    )?;
    push_closing(text, dialect, tests, words)
}

/// Adds an expression over these columns; `asks` says whether what stands around it asks for a test of its answer.
#[cycle(expressions)]
pub fn push_expression(
    text: &mut String,
    dialect: Dialect,
    columns: &[String],
    asks: bool,
    expression: &Expression,
) -> Result<(), AllocError>
    ensures { OnOk result (string_bytes text.new ≡ string_bytes text.old ++ expression_sql dialect (map string_bytes columns.now) asks (expression_of expression.now)) }
{
    match expression {
        Expression::Input(column) => text.push_str(text_at(columns, *column)),
        Expression::Value(value) => push_constant(text, dialect, value),
        Expression::Call(name, _, operands) => push_call(
            text,
            dialect,
            columns,
            asks,
            StandardFunction::named(name.as_str()),
            operands.as_slice(),
        ),
    }
}
