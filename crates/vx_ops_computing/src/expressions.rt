//! What expressions answer of the rows of a chunk.

ghost use Rattle.std.specs.Prelude.{◌≡◌, true, IfOk, IfErr};
ghost use Rattle.vx_plan_nodes.specs.Known.{knows};
ghost use Rattle.vx_ops_computing.specs.Answers.{IsAnswered, IsUnanswered};
ghost use Rattle.vx_ops_computing.specs.Fault.{Blames};
ghost use Rattle.vx_ops_computing.specs.Given.{expression_by};

use crate::applying::called;
use crate::fault::ComputeFault;
use crate::operands::Operand;
use std::alloc::Global;
use vx_plan_nodes::{Expression, PlanFunctions};
use vx_rows_values::Cell;
use vx_rows_views::Chunk;

/// What an expression answers of each row of a chunk.
pub fn evaluated<'a, F: PlanFunctions>(
    alloc: Global,
    functions: &F,
    chunk: &'a Chunk,
    expression: &'a Expression,
) -> Result<Operand<'a>, ComputeFault>
    requires { knows chunk.now.types (expression_by (F.functions functions.now) expression.now) ≡ true }
    ensures answers { IfOk result (IsAnswered chunk.entry.now.types (expression_by (F.functions functions.now) expression.entry.now) chunk.entry.now.rows) }
    ensures fault { IfErr result (Blames (IsUnanswered (expression_by (F.functions functions.now) expression.entry.now) chunk.entry.now.rows)) }
{
    match expression {
        Expression::Input(column) => {
            if *column < chunk.types().len() {
                return Ok(Operand::Lying(chunk, *column));
            }
            Ok(Operand::Same(Cell::Int(0)))
        }
        Expression::Value(value) => Ok(Operand::Same(value.cell())),
        Expression::Call(name, answer, expressions) => {
            let mut operands = Vec::new(alloc);
            for inner in expressions {
                operands.push(evaluated(alloc, functions, chunk, inner)?)?;
            }
            called(
                alloc,
                functions,
                name.as_str(),
                *answer,
                operands.as_slice(),
                chunk.len(),
            )
        }
    }
}
