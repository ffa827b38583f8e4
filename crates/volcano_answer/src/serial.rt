//! Evaluations of plans over tables.

ghost use Rattle.std.specs.Prelude.{IfOk, IfErr};
ghost use Rattle.vx_plan_nodes.specs.TypedView.{resolved_of};
ghost use Rattle.volcano_answer.specs.Commands.{IsSerial, SerialRefuses};

use crate::run::text_of;
use crate::services::Services;
use std::sync::Wait;
use std::thread::Threads;
use std::time::Clock;
use volcano_refusals::Refusal;
use volcano_tables::{Tables, Unobserved, load_tables_in_threads};
use vx_catalog_writing::Text;
use vx_exec_runs::Runs;
use vx_plan::erase;
use vx_plan_nodes::{StandardFunctions, TypedPlan};
use vx_serial::eval;

/// The text of the rows of a plan without its exchanges over tables, under the names of the plan. Up to `services.threads`
/// threads load a table and make the text; one thread evaluates the plan.
pub fn serial_plan<T: Threads + Wait + Sync, R: Runs, C: Clock, B: Tables>(
    services: &Services<'_, T, R, C>,
    tables: &B,
    plan: &TypedPlan,
) -> Result<Text, Refusal>
    ensures text { IfOk result (λ text. IsSerial services.now.layout (resolved_of plan.now) (B.holds tables.now) text.items) }
    ensures refused { IfErr result (λ e. SerialRefuses (resolved_of plan.now) (B.holds tables.now) (B.lacks tables.now) e) }
{
    let database = load_tables_in_threads(
        services.rt,
        services.loading(),
        plan,
        tables,
        &mut Unobserved,
    )?;
    let Ok(erased) = erase(services.alloc, plan) else {
        return Err(Refusal::NoMemory);
    };
    let rows = eval(services.alloc, &StandardFunctions, &erased, &database)?;
    // What no row of the answer needs goes before the text is made, and the rest while it is.
    drop(database);
    Ok(text_of(services, plan, rows)?)
}
