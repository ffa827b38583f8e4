//! Plans as statements of SQL.

ghost use Rattle.std.specs.Prelude.{◌≡◌, IfOk, IfErr};
ghost use Rattle.vx_plan_nodes.specs.TypedView.{resolved_of};
ghost use Rattle.volcano_answer.specs.Statements.{dialect_named, IsStatement, StatementFails};

use std::alloc::Global;
use volcano_refusals::Refusal;
use vx_check_sql::{Dialect, plan_sql};
use vx_exec_setup::RunFault;
use vx_plan_nodes::{StandardFunctions, TypedPlan, first_unknown};

/// The dialect of a name, if it is one.
pub fn dialect_named(name: &str) -> Option<Dialect>
    ensures { result ≡ dialect_named name.now }
{
    match name {
        "sqlite" => Some(Dialect::Sqlite),
        "postgres" => Some(Dialect::Postgres),
        "clickhouse" => Some(Dialect::ClickHouse),
        _ => None,
    }
}

/// The plan without its exchanges, in the SQL of a dialect. It is refused for the first node with a function that the program
/// does not have: only of its own does it know what they are in SQL.
pub fn statement(alloc: Global, dialect: Dialect, plan: &TypedPlan) -> Result<Vec<u8>, Refusal>
    ensures text { IfOk result (λ text. IsStatement dialect (resolved_of plan.now) text.items) }
    ensures refused { IfErr result (StatementFails (resolved_of plan.now)) }
{
    if let Some(node) = first_unknown(&StandardFunctions, alloc, plan.root())? {
        return Err(Refusal::Run(RunFault::BadFunction { node }));
    }
    let text = plan_sql(alloc, dialect, plan)?;
    Ok(text.into_bytes())
}
