//! Tests of types: what is compared, summed and routed has the type for it.

ghost use Rattle.std.specs.Prelude.{◌≡◌, ◌&&◌, map};
ghost use Rattle.std.specs.List.{list_all};
ghost use Rattle.std.specs.Ordering.{is_lt};
ghost use Rattle.vx_rows_values.specs.Values.{val_cmp};
ghost use Rattle.vx_rows_values.specs.Types.{type_of, type_at, is_held};
ghost use Rattle.vx_rows_values.specs.ValueView.{val_of};
ghost use Rattle.vx_plan_nodes.specs.Typed.{type_eq, types_eq, rises, is_range, range_type, bounds_at, is_side, is_condition, is_aggregate, is_pair};
ghost use Rattle.vx_rows_values.specs.Ranges.{range_form};
ghost use Rattle.vx_plan_nodes.specs.Outline.{side_of, condition_of, filter_of, aggregate_of, route_of};
ghost use Rattle.vx_plan.specs.Resolve.{filter_fits, route_fits};
ghost use Rattle.vx_plan.specs.Named.{names_of};

use crate::lookup::Declared;
use vx_plan_nodes::{Aggregate, Condition, Filter, Route, Side};
use vx_rows_values::{ColType, NamedRange, Value, compare_cells};

/// Whether two types are one.
pub fn is_same_type(kind: ColType, other: ColType) -> bool
    ensures { result ≡ type_eq kind other }
{
    match (kind, other) {
        (ColType::Int, ColType::Int) => true,
        (ColType::Text, ColType::Text) => true,
        (ColType::Int, ColType::Text) => false,
        (ColType::Text, ColType::Int) => false,
    }
}

/// Whether two lists of types are one.
pub fn are_same_types(kinds: &[ColType], others: &[ColType]) -> bool
    ensures { result ≡ types_eq kinds.now others.now }
{
    if kinds.len() != others.len() {
        return false;
    }
    for i in 0..kinds.len() {
        if !is_same_type(kinds[i], others[i]) {
            return false;
        }
    }
    true
}

/// The type of a column. There is none past the last: that of a number stands for it.
pub fn type_at(types: &[ColType], column: usize) -> ColType
    ensures { result ≡ type_at types.now column }
{
    if column < types.len() {
        types[column]
    } else {
        ColType::Int
    }
}

fn value_type(value: &Value) -> ColType
    ensures { result ≡ type_of (val_of value.now) }
{
    value.cell().col_type()
}

// Whether a constant has a type.
fn is_constant_of(value: &Value, kind: ColType) -> bool
    ensures { result ≡ (is_held (val_of value.now) && type_eq kind (type_of (val_of value.now))) }
{
    match value {
        Value::Int(number) => {
            let _number = *number;
            is_same_type(kind, ColType::Int)
        }
        Value::Text(text) => {
            let _text = text.as_str();
            is_same_type(kind, ColType::Text)
        }
    }
}

fn is_side(types: &[ColType], kind: ColType, side: &Side) -> bool
    ensures { result ≡ is_side types.now kind (side_of side.now) }
{
    match side {
        Side::Column(column) => *column < types.len() && is_same_type(kind, types[*column]),
        Side::Constant(value) => is_constant_of(value, kind),
    }
}

fn is_condition(types: &[ColType], condition: &Condition) -> bool
    ensures { result ≡ is_condition types.now (condition_of condition.now) }
{
    condition.left < types.len() && is_side(types, types[condition.left], &condition.right)
}

fn all_conditions(types: &[ColType], conditions: &[Condition]) -> bool
    ensures { result ≡ list_all (λ c. is_condition types.now (condition_of c)) conditions.now }
{
    conditions.iter().all(|c| is_condition(types, c))
}

fn filter_fits(types: &[ColType], filter: &Filter) -> bool
    ensures { result ≡ filter_fits types.now (filter_of filter.now) }
{
    match filter {
        Filter::Compared(condition) => is_condition(types, condition),
        Filter::Computed(expression) => is_same_type(expression.answer_type(types), ColType::Int),
    }
}

fn all_filters(types: &[ColType], filters: &[Filter]) -> bool
    ensures { result ≡ list_all (λ f. filter_fits types.now (filter_of f)) filters.now }
{
    filters.iter().all(|f| filter_fits(types, f))
}

/// Whether the sides of each comparison have one type, and each other condition is a number.
pub fn are_filters(types: &[ColType], filters: &[Filter]) -> bool
    ensures { result ≡ list_all (filter_fits types.now) (map filter_of filters.now) }
{
    all_filters(types, filters)
}

/// Whether the sides of each condition have one type.
pub fn are_conditions(types: &[ColType], conditions: &[Condition]) -> bool
    ensures { result ≡ list_all (is_condition types.now) (map condition_of conditions.now) }
{
    all_conditions(types, conditions)
}

fn is_aggregate(types: &[ColType], aggregate: &Aggregate) -> bool
    ensures { result ≡ is_aggregate types.now (aggregate_of aggregate.now) }
{
    match aggregate {
        Aggregate::Least(column) => *column < types.len(),
        Aggregate::Greatest(column) => *column < types.len(),
        Aggregate::Sum(column) => *column < types.len()
            && is_same_type(types[*column], ColType::Int),
        Aggregate::CountRows => true,
    }
}

fn all_aggregates(types: &[ColType], aggregates: &[Aggregate]) -> bool
    ensures { result ≡ list_all (λ a. is_aggregate types.now (aggregate_of a)) aggregates.now }
{
    aggregates.iter().all(|a| is_aggregate(types, a))
}

/// Whether only numbers are summed.
pub fn are_aggregates(types: &[ColType], aggregates: &[Aggregate]) -> bool
    ensures { result ≡ list_all (is_aggregate types.now) (map aggregate_of aggregates.now) }
{
    all_aggregates(types, aggregates)
}

fn is_pair(left: &[ColType], right: &[ColType], pair: &(usize, usize)) -> bool
    ensures { result ≡ is_pair left.now right.now pair.now }
{
    pair.0 < left.len() && pair.1 < right.len() && is_same_type(left[pair.0], right[pair.1])
}

/// Whether the columns of each pair have one type.
pub fn are_pairs(left: &[ColType], right: &[ColType], pairs: &[(usize, usize)]) -> bool
    ensures { result ≡ list_all (is_pair left.now right.now) pairs.now }
{
    pairs.iter().all(|p| is_pair(left, right, p))
}

// The type of a range's bounds: that of the first.
fn range_type(bounds: &[Value]) -> ColType
    ensures { result ≡ range_type (map val_of bounds.now) }
{
    match bounds {
        [] => ColType::Int,
        [first, ..] => value_type(first),
    }
}

fn range_type_at(ranges: &[NamedRange], range: usize) -> ColType
    ensures { result ≡ range_type (bounds_at (map (λ r. r.bounds) (map range_form ranges.now)) range) }
{
    if range < ranges.len() {
        range_type(ranges[range].bounds.as_slice())
    } else {
        ColType::Int
    }
}

/// Whether a column that is routed by a range has its type.
pub fn route_fits(
    declared: &Declared<'_>,
    types: &[ColType],
    route: &Route,
    columns: &[usize],
) -> bool
    ensures { result ≡ route_fits (names_of declared.now) types.now (route_of route.now) columns.now }
{
    match (route, columns) {
        (Route::Range(range), [first, ..]) => {
            is_same_type(
                type_at(types, *first),
                range_type_at(declared.ranges, *range),
            )
        }
        (Route::Hash(_), _) => true,
        (_, []) => true,
    }
}

fn is_below(value: &Value, other: &Value) -> bool
    ensures { result ≡ is_lt (val_cmp (val_of value.now) (val_of other.now)) }
{
    compare_cells(value.cell(), other.cell()).is_lt()
}

fn all_above(value: &Value, others: &[Value]) -> bool
    ensures { result ≡ list_all (λ v. is_lt (val_cmp (val_of value.now) (val_of v))) others.now }
{
    others.iter().all(|v| is_below(value, v))
}

fn is_below_all(value: &Value, others: &[Value]) -> bool
    ensures { result ≡ list_all (λ v. is_lt (val_cmp (val_of value.now) v)) (map val_of others.now) }
{
    all_above(value, others)
}

// Whether each bound is above those before it.
fn rises(bounds: &[Value]) -> bool
    ensures { result ≡ rises (map val_of bounds.now) }
{
    match bounds {
        [] => true,
        [bound, later @ ..] => is_below_all(bound, later) && rises(later),
    }
}

fn is_bound_of(value: &Value, kind: ColType) -> bool
    ensures { result ≡ (is_held (val_of value.now) && type_eq (type_of (val_of value.now)) kind) }
{
    match value {
        Value::Int(number) => {
            let _number = *number;
            is_same_type(ColType::Int, kind)
        }
        Value::Text(text) => {
            let _text = text.as_str();
            is_same_type(ColType::Text, kind)
        }
    }
}

fn all_bounds(bounds: &[Value], kind: ColType) -> bool
    ensures { result ≡ list_all (λ v. is_held (val_of v) && type_eq (type_of (val_of v)) kind) bounds.now }
{
    bounds.iter().all(|v| is_bound_of(v, kind))
}

fn are_bounds_of(bounds: &[Value], kind: ColType) -> bool
    ensures { result ≡ list_all (λ b. is_held b && type_eq (type_of b) kind) (map val_of bounds.now) }
{
    all_bounds(bounds, kind)
}

/// Whether there are 1 to 63 bounds of one type that rise.
pub fn is_range(bounds: &[Value]) -> bool
    ensures { result ≡ is_range (map val_of bounds.now) }
{
    if bounds.is_empty() || bounds.len() > 63 {
        return false;
    }
    if !are_bounds_of(bounds, range_type(bounds)) {
        return false;
    }
    rises(bounds)
}
