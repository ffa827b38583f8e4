//! Operators over one input, by the columns of that input.

ghost use Rattle.std.specs.Prelude.{◌≡◌, map, string_bytes, IfOk};
ghost use Rattle.std.specs.Arc.{arc_value};
ghost use Rattle.vx_plan_json.specs.Fault.{Gives};
ghost use Rattle.vx_plan_json.specs.Document.{filter_form, output_form, entry_form, function_form, aggregate_form, unary_form};
ghost use Rattle.vx_plan_nodes.specs.Outline.{aggregate_of, phase_of, is_of_parts, columns_of, columns, outline_of};
ghost use Rattle.vx_plan.specs.Resolve.{select_shape, project_shape, distinct_shape, sort_shape, partial_sort_shape, limit_shape, find_function, find_aggregates, find_group, test_group, group_shape, partial_shape, parts_of, final_shape, unary_shape};
ghost use Rattle.vx_plan.specs.Shaped.{shape_of};

use crate::columns::{columns, entry_types, group_names, group_types, kept_types, own_columns};
use crate::conditions::find_filters;
use crate::entries::{entries_shape, kept_shape};
use crate::fits::{are_aggregates, are_filters};
use crate::lookup::{
    find_column, find_columns, find_order, test_distinct, test_distinct_order, test_match,
    test_width,
};
use crate::phases::{first_columns, merged, parts_of, sorts_before, test_phase};
use std::alloc::Global;
use std::sync::Arc;
use vx_catalog_json::OrderText;
use vx_plan_json::{
    NamedAggregate, NamedEntry, NamedFilter, NamedFunction, NamedOutput, NamedUnary, PlanFault,
};
use vx_plan_nodes::{Aggregate, Columns, Name, Phase, SortPhase, TypedNode, Unary};
use vx_rows_values::ColType;

/// An operator over one input, and its output.
#[derive(Drop)]
pub struct UnaryShape {
    pub unary: Unary,
    pub columns: Arc<Columns>,
}

#[tactic(auto, unfolding(crate::specs::Resolve::select_shape))]
fn select_shape(
    alloc: Global,
    node: u32,
    input: &Arc<Columns>,
    filters: &[NamedFilter],
) -> Result<UnaryShape, PlanFault>
    ensures { Gives shape_of result (select_shape node (columns_of (arc_value input.now)) (map filter_form filters.now)) }
{
    let found = find_filters(alloc, node, input.names.as_slice(), filters)?;
    test_match(node, are_filters(input.types.as_slice(), found.as_slice()))?;
    let columns = Arc::try_clone(input)?;
    Ok(UnaryShape {
        unary: Unary::Select(found),
        columns,
    })
}

#[tactic(auto, unfolding(crate::specs::Resolve::project_shape), using(crate::proofs::EntryFacts::entry_views))]
fn project_shape(
    alloc: Global,
    node: u32,
    input: &Columns,
    entries: &[NamedEntry],
) -> Result<UnaryShape, PlanFault>
    ensures { Gives shape_of result (project_shape node (columns_of input.now) (map entry_form entries.now)) }
{
    let (found, names) = entries_shape(alloc, node, input, entries)?;
    let types = entry_types(alloc, input.types.as_slice(), found.as_slice())?;
    Ok(UnaryShape {
        unary: Unary::Project(found),
        columns: own_columns(alloc, names, types)?,
    })
}

#[tactic(auto, unfolding(crate::specs::Resolve::distinct_shape))]
fn distinct_shape(
    alloc: Global,
    node: u32,
    input: &Columns,
    outputs: &[NamedOutput],
) -> Result<UnaryShape, PlanFault>
    ensures { Gives shape_of result (distinct_shape node (columns_of input.now) (map output_form outputs.now)) }
{
    let (kept, names) = kept_shape(alloc, node, input, outputs)?;
    let types = kept_types(alloc, input.types.as_slice(), kept.as_slice())?;
    Ok(UnaryShape {
        unary: Unary::Distinct(kept),
        columns: own_columns(alloc, names, types)?,
    })
}

#[tactic(auto, unfolding(crate::specs::Resolve::sort_shape))]
fn sort_shape(
    alloc: Global,
    phase: SortPhase,
    node: u32,
    input: &Arc<Columns>,
    order: &[OrderText],
) -> Result<UnaryShape, PlanFault>
    ensures { Gives shape_of result (sort_shape (is_of_parts phase) node (columns_of (arc_value input.now)) order.now) }
{
    let found = find_order(alloc, node, input.names.as_slice(), order)?;
    test_distinct_order(alloc, node, order)?;
    let columns = Arc::try_clone(input)?;
    Ok(UnaryShape {
        unary: Unary::Sort(phase, found),
        columns,
    })
}

// A partial sort is to stand between a partial group and its final one.
#[tactic(auto, unfolding(crate::specs::Resolve::partial_sort_shape))]
fn partial_sort_shape(
    alloc: Global,
    between: bool,
    node: u32,
    input: &Arc<Columns>,
    order: &[OrderText],
) -> Result<UnaryShape, PlanFault>
    ensures { Gives shape_of result (partial_sort_shape between node (columns_of (arc_value input.now)) order.now) }
{
    test_phase(node, between)?;
    sort_shape(alloc, SortPhase::Partial, node, input, order)
}

#[tactic(auto, unfolding(crate::specs::Resolve::find_function))]
fn find_function(
    alloc: Global,
    node: u32,
    names: &[Name],
    function: &NamedFunction,
) -> Result<Aggregate, PlanFault>
    ensures { Gives aggregate_of result (find_function node names.now (function_form function.now)) }
{
    match function {
        NamedFunction::Least(name) => {
            let column = find_column(alloc, node, names, name.as_str())?;
            Ok(Aggregate::Least(column))
        }
        NamedFunction::Greatest(name) => {
            let column = find_column(alloc, node, names, name.as_str())?;
            Ok(Aggregate::Greatest(column))
        }
        NamedFunction::Sum(name) => {
            let column = find_column(alloc, node, names, name.as_str())?;
            Ok(Aggregate::Sum(column))
        }
        NamedFunction::CountRows => Ok(Aggregate::CountRows),
    }
}

#[tactic(auto, unfolding(crate::specs::Resolve::find_aggregates), using(crate::proofs::WalkFacts::walk_steps))]
fn find_aggregates(
    alloc: Global,
    node: u32,
    names: &[Name],
    aggregates: &[NamedAggregate],
) -> Result<Vec<Aggregate>, PlanFault>
    ensures { Gives (λ v. map aggregate_of v.items) result (find_aggregates node names.now (map aggregate_form aggregates.now)) }
{
    let mut found = Vec::new(alloc);
    for aggregate in aggregates {
        let one = find_function(alloc, node, names, &aggregate.function)?;
        found.push(one)?;
    }
    Ok(found)
}

#[tactic(auto, unfolding(crate::specs::Resolve::find_group))]
fn find_group(
    alloc: Global,
    node: u32,
    names: &[Name],
    by: &[String],
    aggregates: &[NamedAggregate],
) -> Result<(Vec<usize>, Vec<Aggregate>), PlanFault>
    ensures { Gives (λ r. (r.0.items, map aggregate_of r.1.items)) result (find_group node names.now (map string_bytes by.now) (map aggregate_form aggregates.now)) }
{
    let keys = find_columns(alloc, node, names, by)?;
    let found = find_aggregates(alloc, node, names, aggregates)?;
    Ok((keys, found))
}

#[tactic(auto, unfolding(crate::specs::Resolve::test_group))]
fn test_group(
    alloc: Global,
    node: u32,
    types: &[ColType],
    names: &[String],
    aggregates: &[Aggregate],
) -> Result<(), PlanFault>
    ensures { Gives (λ _. tt) result (test_group node types.now (map string_bytes names.now) (map aggregate_of aggregates.now)) }
{
    test_distinct(alloc, node, names)?;
    test_width(node, names.len())?;
    test_match(node, are_aggregates(types, aggregates))
}

#[tactic(auto, unfolding(crate::specs::Resolve::group_shape))]
fn group_shape(
    alloc: Global,
    phase: Phase,
    node: u32,
    input: &Columns,
    by: &[String],
    aggregates: &[NamedAggregate],
) -> Result<UnaryShape, PlanFault>
    ensures { Gives shape_of result (group_shape (phase_of phase) node (columns_of input.now) (map string_bytes by.now) (map aggregate_form aggregates.now)) }
{
    let (keys, found) = find_group(alloc, node, input.names.as_slice(), by, aggregates)?;
    let names = group_names(alloc, by, aggregates)?;
    test_group(
        alloc,
        node,
        input.types.as_slice(),
        names.as_slice(),
        found.as_slice(),
    )?;
    let types = group_types(
        alloc,
        input.types.as_slice(),
        keys.as_slice(),
        found.as_slice(),
    )?;
    Ok(UnaryShape {
        unary: Unary::Group(phase, keys, found),
        columns: own_columns(alloc, names, types)?,
    })
}

#[tactic(auto, unfolding(crate::specs::Resolve::partial_shape))]
fn partial_shape(
    alloc: Global,
    under: bool,
    node: u32,
    input: &Columns,
    by: &[String],
    aggregates: &[NamedAggregate],
) -> Result<UnaryShape, PlanFault>
    ensures { Gives shape_of result (partial_shape under node (columns_of input.now) (map string_bytes by.now) (map aggregate_form aggregates.now)) }
{
    test_phase(node, under)?;
    group_shape(alloc, Phase::Partial, node, input, by, aggregates)
}

// A final group puts together what the partial one below it gives, and has its columns. The sorts between are on columns that the
// partial one groups by.
#[tactic(auto, unfolding(crate::specs::Resolve::final_shape))]
fn final_shape(alloc: Global, node: u32, input: &TypedNode) -> Result<UnaryShape, PlanFault>
    ensures { Gives shape_of result (final_shape node (outline_of input.now) (parts_of (outline_of input.now))) }
{
    let Some((by, aggregates)) = parts_of(input) else {
        return Err(PlanFault::PhaseMismatch { node });
    };
    test_phase(node, sorts_before(by.len(), input))?;
    let keys = first_columns(alloc, by.len())?;
    let found = merged(alloc, by.len(), aggregates)?;
    let columns = Arc::try_clone(columns(input))?;
    Ok(UnaryShape {
        unary: Unary::Group(Phase::Final, keys, found),
        columns,
    })
}

// The first rows have the columns of the input.
#[tactic(auto, unfolding(crate::specs::Resolve::limit_shape))]
fn limit_shape(input: &Arc<Columns>, rows: u32) -> Result<UnaryShape, PlanFault>
    ensures { Gives shape_of result (limit_shape (columns_of (arc_value input.now)) rows) }
{
    let columns = Arc::try_clone(input)?;
    Ok(UnaryShape {
        unary: Unary::Limit(rows),
        columns,
    })
}

/// An operator by positions, and its output. Whether the way up through exchanges and partial sorts alone reaches a final group
/// decides for a partial one and for a partial sort, which is to have a partial group below as well.
#[tactic(auto, unfolding(crate::specs::Resolve::unary_shape))]
pub fn unary_shape(
    alloc: Global,
    under: bool,
    node: u32,
    input: &TypedNode,
    unary: &NamedUnary,
) -> Result<UnaryShape, PlanFault>
    ensures { Gives shape_of result (unary_shape under node (outline_of input.now) (unary_form unary.now)) }
{
    let columns = columns(input);
    match unary {
        NamedUnary::Select(filters) => select_shape(alloc, node, columns, filters.as_slice()),
        NamedUnary::Project(entries) => project_shape(alloc, node, columns, entries.as_slice()),
        NamedUnary::Distinct(outputs) => distinct_shape(alloc, node, columns, outputs.as_slice()),
        NamedUnary::Sort(order) => {
            sort_shape(alloc, SortPhase::Plain, node, columns, order.as_slice())
        }
        NamedUnary::PartialSort(order) => {
            let between = under && parts_of(input).is_some();
            partial_sort_shape(alloc, between, node, columns, order.as_slice())
        }
        NamedUnary::Group(by, aggregates) => {
            let (by, aggregates) = (by.as_slice(), aggregates.as_slice());
            group_shape(alloc, Phase::Plain, node, columns, by, aggregates)
        }
        NamedUnary::PartialGroup(by, aggregates) => {
            let (by, aggregates) = (by.as_slice(), aggregates.as_slice());
            partial_shape(alloc, under, node, columns, by, aggregates)
        }
        NamedUnary::FinalGroup => final_shape(alloc, node, input),
        NamedUnary::Limit(rows) => limit_shape(columns, *rows),
    }
}
