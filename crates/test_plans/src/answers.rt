//! What the calls answer, as texts.

use crate::call::Call;
use crate::case::Case;
use crate::outline::{columns, is_claimed, outline};
use serde_json::{Error, Value as Json};
use std::alloc::{AllocError, Global};
use vx_catalog_relations::Catalog;
use vx_check::explain;
use vx_check_annotate::annotate;
use vx_check_directions::planned;
use vx_check_rules::{CheckFault, CheckedPlan, Refused, check};
use vx_plan::erase;
use vx_plan_json::{Plan, PlanFault, to_json};
use vx_plan_nodes::TypedPlan;

// An answer, or why a plan is none.
type Answer = Result<String, PlanFault>;

fn text(alloc: Global, text: &str) -> Answer {
    Ok(String::from_str(alloc, text)?)
}

fn read(alloc: Global, bytes: &[u8]) -> Answer {
    Plan::read(alloc, bytes)?;
    text(alloc, "ok")
}

// Why a text is no JSON value, as a plan's reader says it.
fn no_value(error: Error) -> PlanFault {
    if error.is_memory() {
        PlanFault::NoMemory
    } else {
        PlanFault::NotJson
    }
}

fn read_value(alloc: Global, bytes: &[u8]) -> Answer {
    let value = Json::from_slice(alloc, bytes).map_err(no_value)?;
    Plan::of_value(alloc, &value)?;
    text(alloc, "ok")
}

// `ok` where each front is refused as no JSON and the whole is read, else the first front that is not.
fn fronts(alloc: Global, bytes: &[u8]) -> Answer {
    for length in 0..bytes.len() {
        let front = Plan::read(alloc, &bytes[..length]);
        if !matches!(front, Err(PlanFault::NotJson)) {
            return Ok(format!(in alloc; "the first {length} bytes")?);
        }
    }
    read(alloc, bytes)
}

fn written(alloc: Global, bytes: &[u8]) -> Answer {
    let plan = Plan::read(alloc, bytes)?;
    Ok(to_json(alloc, &plan)?)
}

// `ok` where both are one plan, by the document that is written of each.
fn alike(alloc: Global, bytes: &[u8], others: &[u8]) -> Answer {
    let plan = Plan::read(alloc, bytes)?;
    let other = Plan::read(alloc, others)?;
    let one = to_json(alloc, &plan)?;
    let two = to_json(alloc, &other)?;
    text(alloc, if one == two { "ok" } else { "another plan" })
}

fn typed(alloc: Global, catalog: &Catalog, bytes: &[u8]) -> Result<TypedPlan, PlanFault> {
    let plan = Plan::read(alloc, bytes)?;
    planned(alloc, &plan, catalog)
}

fn resolved(alloc: Global, catalog: &Catalog, bytes: &[u8]) -> Answer {
    typed(alloc, catalog, bytes)?;
    text(alloc, "ok")
}

fn numbered(alloc: Global, catalog: &Catalog, bytes: &[u8]) -> Answer {
    let plan = typed(alloc, catalog, bytes)?;
    Ok(outline(alloc, plan.root())?)
}

fn typed_columns(alloc: Global, catalog: &Catalog, bytes: &[u8]) -> Answer {
    let plan = typed(alloc, catalog, bytes)?;
    Ok(columns(alloc, &plan)?)
}

// `ok` where the plan without its exchanges is the other one, by its nodes and columns. That it is the very plan is a clause of `erase`.
fn erased(alloc: Global, catalog: &Catalog, bytes: &[u8], others: &[u8]) -> Answer {
    let plan = typed(alloc, catalog, bytes)?;
    let without = erase(alloc, &plan)?;
    let other = typed(alloc, catalog, others)?;
    let nodes = outline(alloc, without.root())?;
    let is_same = nodes == outline(alloc, other.root())?
        && columns(alloc, &without)? == columns(alloc, &other)?;
    if is_same {
        return text(alloc, "ok");
    }
    Ok(nodes)
}

// The numbers of the nodes without exchanges, where the rest is as it has to be: sizes and ranges are left, and nothing
// is claimed of an order or a key.
fn renumbered(alloc: Global, catalog: &Catalog, bytes: &[u8]) -> Answer {
    let plan = typed(alloc, catalog, bytes)?;
    let without = erase(alloc, &plan)?;
    if without.is_total() || is_claimed(without.root().head()) {
        return text(alloc, "an order or a key is claimed");
    }
    if without.sizes().len() != plan.sizes().len() {
        return text(alloc, "other sizes");
    }
    if without.ranges().len() != plan.ranges().len() {
        return text(alloc, "other ranges");
    }
    Ok(outline(alloc, without.root())?)
}

// What the checker answers of a plan, if it has the memory for what is known of its columns.
fn judged(alloc: Global, plan: TypedPlan) -> Result<Result<CheckedPlan, Refused>, PlanFault> {
    match check(alloc, plan) {
        Ok(checked) => Ok(Ok(checked)),
        Err(CheckFault::Refused(refused)) => Ok(Err(refused)),
        Err(CheckFault::NoMemory(_)) => Err(PlanFault::NoMemory),
    }
}

// What the checker says of a plan.
fn verdict(alloc: Global, answer: &Result<CheckedPlan, Refused>) -> Result<String, AllocError> {
    match answer {
        Ok(checked) if checked.is_total() => String::from_str(alloc, "accepted total"),
        Ok(_) => String::from_str(alloc, "accepted"),
        Err(refused) => format!(in alloc; "{refused}"),
    }
}

// What was said of a refused plan, if the plan that comes back is refused alike.
fn refused_alike(alloc: Global, refused: Refused, said: String) -> Answer {
    let answer = judged(alloc, refused.plan)?;
    let again = verdict(alloc, &answer)?;
    if again == said {
        return Ok(said);
    }
    Ok(format!(in alloc; "{said}, and then {again}")?)
}

fn checked(alloc: Global, catalog: &Catalog, bytes: &[u8]) -> Answer {
    let answer = judged(alloc, typed(alloc, catalog, bytes)?)?;
    let said = verdict(alloc, &answer)?;
    match answer {
        Ok(_accepted) => Ok(said),
        Err(refused) => refused_alike(alloc, refused, said),
    }
}

fn explained(alloc: Global, catalog: &Catalog, bytes: &[u8]) -> Answer {
    let answer = judged(alloc, typed(alloc, catalog, bytes)?)?;
    match &answer {
        Ok(checked) => Ok(explain(alloc, checked)?),
        Err(_) => Ok(verdict(alloc, &answer)?),
    }
}

fn annotated(alloc: Global, catalog: &Catalog, bytes: &[u8]) -> Answer {
    match annotate(alloc, catalog, Plan::read(alloc, bytes)?) {
        Ok(plan) => Ok(to_json(alloc, &plan)?),
        Err(fault) => Ok(format!(in alloc; "{fault}")?),
    }
}

/// What the call of a case answers. A refusal is its line.
pub fn answer(alloc: Global, catalog: &Catalog, case: &Case) -> Result<String, AllocError> {
    let plan = case.plan.as_slice();
    let other = case.other.as_slice();
    let answer = match case.call {
        Call::Read => read(alloc, plan),
        Call::OfValue => read_value(alloc, plan),
        Call::Fronts => fronts(alloc, plan),
        Call::Written => written(alloc, plan),
        Call::Alike => alike(alloc, plan, other),
        Call::Resolve => resolved(alloc, catalog, plan),
        Call::Numbered => numbered(alloc, catalog, plan),
        Call::Columns => typed_columns(alloc, catalog, plan),
        Call::Erased => erased(alloc, catalog, plan, other),
        Call::Renumbered => renumbered(alloc, catalog, plan),
        Call::Check => checked(alloc, catalog, plan),
        Call::Explain => explained(alloc, catalog, plan),
        Call::Annotate => annotated(alloc, catalog, plan),
        Call::NoMemory => Err(PlanFault::NoMemory),
    };
    match answer {
        Ok(text) => Ok(text),
        Err(fault) => format!(in alloc; "{fault}"),
    }
}
