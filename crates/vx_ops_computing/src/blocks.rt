//! The numbers that expressions answer, block by block: what is computed for a block stays near the processor.

ghost use Rattle.std.specs.Prelude.{◌≡◌, true, length, IfOk, IfErr, IfSome};
ghost use Rattle.vx_plan_nodes.specs.Known.{knows};
ghost use Rattle.vx_ops_computing.specs.Answers.{IsAnswered, IsUnanswered};
ghost use Rattle.vx_ops_computing.specs.Blocks.{AreAnswers};
ghost use Rattle.vx_ops_computing.specs.Fault.{Blames};
ghost use Rattle.vx_ops_computing.specs.Given.{expression_by};

use crate::expressions::evaluated;
use crate::fault::ComputeFault;
use crate::operands::Operand;
use std::alloc::Global;
use vx_plan_nodes::{Expression, PlanFunctions};
use vx_rows_values::ColType;
use vx_rows_views::Chunk;

/// How many rows are computed at once.
pub const BLOCK: usize = 2048;

// The numbers that an expression answers of each row of a chunk, where it computes numbers.
fn computed_numbers<F: PlanFunctions>(
    alloc: Global,
    functions: &F,
    chunk: &Chunk,
    expression: &Expression,
) -> Result<Option<Vec<i64>>, ComputeFault>
    requires { knows chunk.now.types (expression_by (F.functions functions.now) expression.now) ≡ true }
    ensures numbers { IfOk result (λ o. IfSome o (λ v. AreAnswers (expression_by (F.functions functions.now) expression.now) chunk.now.rows (length chunk.now.rows) v.items)) }
    ensures fault { IfErr result (Blames (IsUnanswered (expression_by (F.functions functions.now) expression.now) chunk.now.rows)) }
{
    let count = chunk.len();
    let mut numbers = Vec::with_capacity(alloc, count)?;
    let mut from = 0;
    while from < count {
        let block = BLOCK.min(count - from);
        let part = chunk.slice(alloc, from, from + block)?;
        let operand = evaluated(alloc, functions, &part, expression)?;
        match operand {
            Operand::Numbers(found) => numbers.extend_from_slice(found.as_slice())?,
            _ => return Ok(None),
        }
        from += block;
    }
    Ok(Some(numbers))
}

/// What an expression answers of each row of a chunk. Numbers that it computes of many rows are computed block by block.
pub fn evaluated_by_blocks<'a, F: PlanFunctions>(
    alloc: Global,
    functions: &F,
    chunk: &'a Chunk,
    expression: &'a Expression,
) -> Result<Operand<'a>, ComputeFault>
    requires { knows chunk.now.types (expression_by (F.functions functions.now) expression.now) ≡ true }
    ensures answers { IfOk result (IsAnswered chunk.entry.now.types (expression_by (F.functions functions.now) expression.entry.now) chunk.entry.now.rows) }
    ensures fault { IfErr result (Blames (IsUnanswered (expression_by (F.functions functions.now) expression.entry.now) chunk.entry.now.rows)) }
{
    if let Expression::Call(_, ColType::Int, _) = expression {
        if chunk.len() > BLOCK {
            if let Some(numbers) = computed_numbers(alloc, functions, chunk, expression)? {
                return Ok(Operand::Numbers(numbers));
            }
        }
    }
    evaluated(alloc, functions, chunk, expression)
}
