//! Whether there are the functions that a plan names.

ghost use Rattle.std.specs.Prelude.{◌≡◌, ℕ, map, IfOk};
ghost use Rattle.std.specs.List.{list_all};
ghost use Rattle.vx_catalog_relations.specs.Relation.{Relation};
ghost use Rattle.vx_plan_nodes.specs.Known.{is_type, knows, filter_known, entry_known, unary_known, first_unknown};
ghost use Rattle.vx_plan_nodes.specs.Functions.{given_for};
ghost use Rattle.vx_plan_nodes.specs.Outline.{outline_of, plan_of, expression_of, filter_of, entry_of, unary_of};
ghost use Rattle.vx_plan_nodes.specs.Outputs.{HasOutputs};
ghost use Rattle.vx_plan_nodes.specs.Types.{expression_type};
ghost use Rattle.vx_plan_nodes.specs.Under.{expression_under, filter_under, entry_under, unary_under, under};

use crate::functions::PlanFunctions;
use crate::outputs::output_types;
use crate::typed::{Entry, Expression, Filter, TypedNode, Unary};
use std::alloc::{AllocError, Global};
use vx_rows_values::ColType;

impl Expression {
    /// The type of its answer, over columns of these types. Past their end it is that of a number.
    pub fn answer_type(&self, types: &[ColType]) -> ColType
        ensures { result ≡ expression_type types.now (expression_of self.now) }
    {
        match self {
            Expression::Input(column) => types.get(*column).copied().unwrap_or(ColType::Int),
            Expression::Value(value) => value.cell().col_type(),
            Expression::Call(_, answer, _) => *answer,
        }
    }
}

// Whether the function of this name takes values of these types and answers one of that type.
fn has_signature<F: PlanFunctions>(
    functions: &F,
    name: &str,
    types: &[ColType],
    answer: ColType,
) -> bool
    ensures { result ≡ is_type answer ((given_for (F.functions functions.now) name.now).signature types.now) }
{
    match functions.signature(name, types) {
        Some(found) => found == answer,
        None => false,
    }
}

// Whether there is each function in the expression, for the types of its operands.
fn knows<F: PlanFunctions>(
    functions: &F,
    alloc: Global,
    types: &[ColType],
    expression: &Expression,
) -> Result<bool, AllocError>
    ensures { IfOk result (λ b. b ≡ knows types.now (expression_under (F.functions functions.now) (expression_of expression.now))) }
{
    match expression {
        Expression::Input(_) | Expression::Value(_) => Ok(true),
        Expression::Call(name, answer, operands) => {
            let mut operand_types = Vec::new(alloc);
            for operand in operands {
                if !knows(functions, alloc, types, operand)? {
                    return Ok(false);
                }
                operand_types.push(operand.answer_type(types))?;
            }
            Ok(has_signature(functions, name.as_str(), operand_types.as_slice(), *answer))
        }
    }
}

fn knows_filter<F: PlanFunctions>(
    functions: &F,
    alloc: Global,
    types: &[ColType],
    filter: &Filter,
) -> Result<bool, AllocError>
    ensures { IfOk result (λ b. b ≡ filter_known types.now (filter_under (F.functions functions.now) (filter_of filter.now))) }
{
    match filter {
        Filter::Compared(_) => Ok(true),
        Filter::Computed(expression) => knows(functions, alloc, types, expression),
    }
}

fn knows_entry<F: PlanFunctions>(
    functions: &F,
    alloc: Global,
    types: &[ColType],
    entry: &Entry,
) -> Result<bool, AllocError>
    ensures { IfOk result (λ b. b ≡ entry_known types.now (entry_under (F.functions functions.now) (entry_of entry.now))) }
{
    match entry {
        Entry::Kept(_) => Ok(true),
        Entry::Made(expression) => knows(functions, alloc, types, expression),
    }
}

fn knows_filters<F: PlanFunctions>(
    functions: &F,
    alloc: Global,
    types: &[ColType],
    filters: &[Filter],
) -> Result<bool, AllocError>
    ensures { IfOk result (λ b. b ≡ list_all (filter_known types.now) (map (filter_under (F.functions functions.now)) (map filter_of filters.now))) }
{
    for filter in filters {
        if !knows_filter(functions, alloc, types, filter)? {
            return Ok(false);
        }
    }
    Ok(true)
}

fn knows_entries<F: PlanFunctions>(
    functions: &F,
    alloc: Global,
    types: &[ColType],
    entries: &[Entry],
) -> Result<bool, AllocError>
    ensures { IfOk result (λ b. b ≡ list_all (entry_known types.now) (map (entry_under (F.functions functions.now)) (map entry_of entries.now))) }
{
    for entry in entries {
        if !knows_entry(functions, alloc, types, entry)? {
            return Ok(false);
        }
    }
    Ok(true)
}

fn knows_operator<F: PlanFunctions>(
    functions: &F,
    alloc: Global,
    types: &[ColType],
    operator: &Unary,
) -> Result<bool, AllocError>
    ensures { IfOk result (λ b. b ≡ unary_known types.now (unary_under (F.functions functions.now) (unary_of operator.now))) }
{
    match operator {
        Unary::Select(filters) => knows_filters(functions, alloc, types, filters.as_slice()),
        Unary::Project(entries) => knows_entries(functions, alloc, types, entries.as_slice()),
        Unary::Distinct(_) => Ok(true),
        Unary::Sort(_, _) => Ok(true),
        Unary::Group(_, _, _) => Ok(true),
        Unary::Limit(_) => Ok(true),
    }
}

/// The number of the first node that names a function which is not among these for the types of its operands, or whose answer
/// has another type than the plan says. Inputs come before their node, and the left one before the right one.
pub fn first_unknown<F: PlanFunctions>(
    functions: &F,
    alloc: Global,
    node: &TypedNode,
) -> Result<Option<u32>, AllocError>
    ensures { IfOk result (λ unknown. (catalog : ℕ → Relation) → HasOutputs catalog (outline_of node.now) → unknown ≡ first_unknown catalog (under (F.functions functions.now) (plan_of node.now))) }
{
    match node {
        TypedNode::Scan(_, _) => Ok(None),
        TypedNode::Unary(head, operator, input) => {
            if let Some(unknown) = first_unknown(functions, alloc, input)? {
                return Ok(Some(unknown));
            }
            let is_known = knows_operator(functions, alloc, output_types(input), operator)?;
            Ok((!is_known).then_some(head.number))
        }
        TypedNode::Binary(_, _, left, right) => match first_unknown(functions, alloc, left)? {
            Some(unknown) => Ok(Some(unknown)),
            None => first_unknown(functions, alloc, right),
        },
        TypedNode::Exchange(_, _, input) => first_unknown(functions, alloc, input),
    }
}
