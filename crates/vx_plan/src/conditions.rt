//! Conditions and what is computed, by the columns of their input.

ghost use Rattle.std.specs.Prelude.{[], map};
ghost use Rattle.vx_plan_json.specs.Fault.{Gives};
ghost use Rattle.vx_plan_json.specs.Document.{side_form, condition_form, operand_form, filter_form};
ghost use Rattle.vx_plan_nodes.specs.Outline.{side_of, condition_of, expression_of, filter_of};
ghost use Rattle.vx_plan.specs.Lookup.{walk_onto};
ghost use Rattle.vx_plan.specs.Resolve.{find_side, find_condition, find_conditions, find_operand, find_filter, find_filters};

use crate::lookup::find_column;
use std::alloc::Global;
use std::sync::Arc;
use vx_plan_json::{NamedCondition, NamedFilter, NamedOperand, NamedSide, PlanFault};
use vx_plan_nodes::{Condition, Expression, Filter, Name, Side};

#[tactic(auto, unfolding(crate::specs::Resolve::find_side))]
fn find_side(alloc: Global, node: u32, names: &[Name], side: &NamedSide) -> Result<Side, PlanFault>
    ensures { Gives side_of result (find_side node names.now (side_form side.now)) }
{
    match side {
        NamedSide::Column(name) => {
            let column = find_column(alloc, node, names, name.as_str())?;
            Ok(Side::Column(column))
        }
        NamedSide::Constant(value) => Ok(Side::Constant(value.copy(alloc)?)),
    }
}

#[tactic(auto, unfolding(crate::specs::Resolve::find_condition))]
fn find_condition(
    alloc: Global,
    node: u32,
    names: &[Name],
    condition: &NamedCondition,
) -> Result<Condition, PlanFault>
    ensures { Gives condition_of result (find_condition node names.now (condition_form condition.now)) }
{
    let left = find_column(alloc, node, names, condition.left.as_str())?;
    let right = find_side(alloc, node, names, &condition.right)?;
    Ok(Condition {
        left,
        test: condition.test,
        right,
    })
}

/// Conditions by positions: a name that stands more than once is that of its first column.
#[tactic(auto, unfolding(crate::specs::Resolve::find_conditions), using(crate::proofs::WalkFacts::walk_steps))]
pub fn find_conditions(
    alloc: Global,
    node: u32,
    names: &[Name],
    conditions: &[NamedCondition],
) -> Result<Vec<Condition>, PlanFault>
    ensures { Gives (λ v. map condition_of v.items) result (find_conditions node names.now (map condition_form conditions.now)) }
{
    let mut found = Vec::new(alloc);
    for condition in conditions {
        let one = find_condition(alloc, node, names, condition)?;
        found.push(one)?;
    }
    Ok(found)
}

/// What is computed: columns by their positions, functions by their names.
#[cycle(operands)]
pub fn find_operand(
    alloc: Global,
    node: u32,
    names: &[Name],
    operand: &NamedOperand,
) -> Result<Expression, PlanFault>
    ensures { Gives expression_of result (find_operand node names.now (operand_form operand.now)) }
{
    match operand {
        NamedOperand::Column(name) => {
            let column = find_column(alloc, node, names, name.as_str())?;
            Ok(Expression::Input(column))
        }
        NamedOperand::Constant(value) => Ok(Expression::Value(value.copy(alloc)?)),
        NamedOperand::Call(name, answer, operands) => {
            let found = find_operands(alloc, node, names, operands.as_slice())?;
            let function = String::from_str(alloc, name.as_str())?;
            Ok(Expression::Call(function, *answer, found))
        }
    }
}

#[cycle(operands)]
#[tactic(auto, using(crate::proofs::WalkFacts::walk_steps))]
fn find_operands(
    alloc: Global,
    node: u32,
    names: &[Name],
    operands: &[NamedOperand],
) -> Result<Vec<Expression>, PlanFault>
    ensures { Gives (λ v. map expression_of v.items) result (walk_onto (find_operand node names.now) [] (map operand_form operands.now)) }
{
    let mut found = Vec::new(alloc);
    for operand in operands {
        let one = find_operand(alloc, node, names, operand)?;
        found.push(one)?;
    }
    Ok(found)
}

#[tactic(auto, unfolding(crate::specs::Resolve::find_filter))]
fn find_filter(
    alloc: Global,
    node: u32,
    names: &[Name],
    filter: &NamedFilter,
) -> Result<Filter, PlanFault>
    ensures { Gives filter_of result (find_filter node names.now (filter_form filter.now)) }
{
    match filter {
        NamedFilter::Compared(condition) => {
            let found = find_condition(alloc, node, names, condition)?;
            Ok(Filter::Compared(found))
        }
        NamedFilter::Computed(operand) => {
            let found = find_operand(alloc, node, names, operand)?;
            Ok(Filter::Computed(Arc::new(alloc, found)?))
        }
    }
}

/// The conditions of a select by positions.
#[tactic(auto, unfolding(crate::specs::Resolve::find_filters), using(crate::proofs::WalkFacts::walk_steps))]
pub fn find_filters(
    alloc: Global,
    node: u32,
    names: &[Name],
    filters: &[NamedFilter],
) -> Result<Vec<Filter>, PlanFault>
    ensures { Gives (λ v. map filter_of v.items) result (find_filters node names.now (map filter_form filters.now)) }
{
    let mut found = Vec::new(alloc);
    for filter in filters {
        let one = find_filter(alloc, node, names, filter)?;
        found.push(one)?;
    }
    Ok(found)
}
