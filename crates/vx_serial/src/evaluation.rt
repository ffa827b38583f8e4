//! The rows of a plan over a database.

ghost use Rattle.std.specs.Prelude.{◌≡◌, IfOk, IfErr};
ghost use Rattle.vx_catalog_relations.specs.Catalog.{relation_at};
ghost use Rattle.vx_catalog.specs.Database.{rows_at};
ghost use Rattle.vx_plan_nodes.specs.Outline.{plan_of};
ghost use Rattle.vx_plan_nodes.specs.Serial.{rows};
ghost use Rattle.vx_plan_nodes.specs.TypedView.{resolved_of};
ghost use Rattle.vx_plan_nodes.specs.Types.{types_of};
ghost use Rattle.vx_plan_nodes.specs.Under.{under, typed_plan_under};
ghost use Rattle.vx_serial.specs.Evaluated.{evaluated, IsFit};
ghost use Rattle.vx_serial.specs.Results.{IsFaultOf, IsSerialOf, EvalFails};

use crate::exchanges::first_exchange;
use crate::operators::{binary_rows, unary_rows};
use std::alloc::Global;
use vx_catalog::Database;
use vx_exec_setup::EvalFault;
use vx_plan_nodes::{PlanFunctions, TypedNode, TypedPlan, first_unknown};
use vx_rows_views::Rows;

// The rows of a node. Each input is read to its end, also where no further row can come of it. An exchange returns its
// input. A scan shares the rows of its relation.
fn eval_node<F: PlanFunctions>(
    alloc: Global,
    functions: &F,
    database: &Database,
    node: &TypedNode,
) -> Result<Rows, EvalFault>
    requires { IsFit database.now.catalog (under (F.functions functions.now) (plan_of node.now)) }
    ensures types { IfOk result (λ t. t.types ≡ types_of (relation_at database.now.catalog) (plan_of node.now)) }
    ensures rows { IfOk result (λ t. evaluated (rows_at database.now) (under (F.functions functions.now) (plan_of node.now)) ≡ rows t.rows) }
    ensures fault { IfErr result (IsFaultOf (evaluated (rows_at database.now) (under (F.functions functions.now) (plan_of node.now)))) }
{
    match node {
        TypedNode::Scan(_, scan) => {
            let rows = database.rows(scan.relation);
            Ok(rows.slice(alloc, 0, rows.len())?)
        }
        TypedNode::Unary(head, unary, input) => {
            let rows = eval_node(alloc, functions, database, input)?;
            let seed = database.seed();
            unary_rows(alloc, functions, seed, head.number, unary, &rows)
        }
        TypedNode::Binary(_, binary, left, right) => {
            let first = eval_node(alloc, functions, database, left)?;
            let second = eval_node(alloc, functions, database, right)?;
            let seed = database.seed();
            Ok(binary_rows(alloc, seed, binary, first, second)?)
        }
        TypedNode::Exchange(_, _, input) => eval_node(alloc, functions, database, input),
    }
}

/// The rows of a plan without exchanges over a database of its catalog: those of its serial meaning with these functions.
///
/// It is refused for another catalog first, then for its first exchange, then for the first node with a function that is not among them,
/// then for the first node that overflows.
pub fn eval<F: PlanFunctions>(
    alloc: Global,
    functions: &F,
    plan: &TypedPlan,
    database: &Database,
) -> Result<Rows, EvalFault>
    ensures rows { IfOk result (IsSerialOf (typed_plan_under (F.functions functions.now) (resolved_of plan.now)) database.now) }
    ensures refused { IfErr result (EvalFails (typed_plan_under (F.functions functions.now) (resolved_of plan.now)) database.now) }
{
    if !database.catalog().is_same(plan.catalog()) {
        return Err(EvalFault::OtherCatalog);
    }
    if let Some(node) = first_exchange(plan.root()) {
        return Err(EvalFault::HasExchange { node });
    }
    let unknown = first_unknown(functions, alloc, plan.root())?;
    if let Some(node) = unknown {
        return Err(EvalFault::BadFunction { node });
    }
    eval_node(alloc, functions, database, plan.root())
}
