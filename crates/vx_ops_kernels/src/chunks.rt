//! Selection and sorting of rows in chunks. Rows are picked by their places: a selection copies no cell, a sort each one once.

ghost use Rattle.std.specs.Prelude.{◌≡◌, ◌<◌, ◌++◌, ◌&&◌, true, filter, length, IfOk, IfSome, IfNone, OnOk};
ghost use Rattle.std.specs.List.{All};
ghost use Rattle.vx_rows_values.specs.declared.value.ColType.TheVariants as kind;
ghost use Rattle.vx_rows_values.specs.Types.{type_at};
ghost use Rattle.vx_rows_values.specs.Values.{num};
ghost use Rattle.vx_rows_values.specs.ValueView.{cell_val, test_of};
ghost use Rattle.vx_rows_values.specs.Order.{order_columns, sort_on};
ghost use Rattle.vx_rows.specs.View.{row, AreColumns};
ghost use Rattle.vx_plan_nodes.specs.Conditions.{conditions_of};
ghost use Rattle.vx_plan_nodes.specs.Outline.{side_of};
ghost use Rattle.vx_plan_nodes.specs.Plan.{constant};
ghost use Rattle.vx_plan_nodes.specs.Serial.{passes, side, answers};
ghost use Rattle.vx_rows_views.specs.Chunks.{all_rows};
ghost use Rattle.vx_rows_views.specs.Selected.{places_of};
ghost use Rattle.vx_ops_kernels.specs.Holds.{holds_of};
ghost use Rattle.vx_ops_kernels.specs.Interval.{IsInterval};

use crate::cells::cell_or_zero;
use std::alloc::{AllocError, Global};
use std::cmp::Ordering;
use vx_plan_nodes::{Condition, Side};
use vx_rows_values::{Cell, ColType, OrderEntry, Test, Value, compare_cells};
use vx_rows_views::{Chunk, NumberTest, Rows, places_are_a_filter, push_place_if};

// What a test says of a comparison.
fn answer(test: Test, order: Ordering) -> bool
    ensures { result ≡ answers (test_of test) order }
{
    match test {
        Test::Equal => order.is_eq(),
        Test::Unequal => order.is_ne(),
        Test::Below => order.is_lt(),
        Test::AtMost => order.is_le(),
        Test::Above => order.is_gt(),
        Test::AtLeast => order.is_ge(),
    }
}

// A comparison of a number with a constant, as a test whether the number lies from `low` to `high`, or that it does not: so the loop over
// a column asks of no number which comparison it is.
#[derive(Clone, Copy)]
struct NumberCondition {
    test: Test,
    constant: i64,
    low: i64,
    high: i64,
    inside: bool,
    ghost same: { IsInterval test constant low high inside },
}

// The numbers that compare so with a constant: from the first to the second one, or, at `false`, all others.
fn interval(test: Test, constant: i64) -> (i64, i64, bool)
    ensures { IsInterval test constant result.0 result.1 result.2 }
{
    match test {
        Test::Equal => (constant, constant, true),
        Test::Unequal => (constant, constant, false),
        Test::AtMost => (i64::MIN, constant, true),
        Test::Above => (i64::MIN, constant, false),
        Test::AtLeast => (constant, i64::MAX, true),
        Test::Below => (constant, i64::MAX, false),
    }
}

impl NumberCondition {
    // The comparison with a constant.
    fn of(test: Test, constant: i64) -> NumberCondition
        ensures test { result.test ≡ test }
        ensures constant { result.constant ≡ constant }
    {
        let (low, high, inside) = interval(test, constant);
        NumberCondition {
            test,
            constant,
            low,
            high,
            inside,
        }
    }
}

impl NumberTest for NumberCondition {
    ghost use Rattle.vx_ops_kernels.specs.Interval.{says};

    ghost says = { λ c z. says c.test c.constant z };

    fn passes(&self, number: &i64) -> bool {
        (self.low <= *number && *number <= self.high) == self.inside
    }
}

// Two comparisons with constants at once.
#[derive(Clone, Copy)]
struct BothConditions {
    first: NumberCondition,
    second: NumberCondition,
}

impl NumberTest for BothConditions {
    ghost use Rattle.vx_ops_kernels.specs.Interval.{says};

    ghost says = { λ c z. says c.first.test c.first.constant z && says c.second.test c.second.constant z };

    fn passes(&self, number: &i64) -> bool {
        self.first.passes(number) && self.second.passes(number)
    }
}

// The comparison with a constant that a condition makes of a column of numbers; none where it makes another one.
fn number_condition(condition: &Condition, types: &[ColType]) -> Option<NumberCondition>
    ensures column { IfSome result (λ _. condition.now.left < length types.now) }
    ensures kind { IfSome result (λ _. type_at types.now condition.now.left ≡ kind.Int) }
    ensures test { IfSome result (λ t. t.test ≡ condition.now.test) }
    ensures constant { IfSome result (λ t. side_of condition.now.right ≡ constant (num t.constant)) }
{
    if condition.left >= types.len() {
        return None;
    }
    match (types[condition.left], &condition.right) {
        (ColType::Int, Side::Constant(Value::Int(number))) => Some(NumberCondition::of(
            condition.test,
            *number,
        )),
        _ => None,
    }
}

// The value of a condition's right side.
fn right_side<'a>(right: &'a Side, chunk: &'a Chunk, i: usize) -> Cell<'a>
    requires { i < length chunk.now.rows }
    ensures { cell_val result ≡ side (side_of right.entry.now) (row chunk.entry.now i) }
{
    match right {
        Side::Column(c) => cell_or_zero(chunk, i, *c),
        Side::Constant(v) => v.cell(),
    }
}

// Whether a condition holds of row i of a chunk.
fn holds(condition: &Condition, chunk: &Chunk, i: usize) -> bool
    requires { i < length chunk.now.rows }
    ensures { result ≡ holds_of condition.now (row chunk.now i) }
{
    let left = cell_or_zero(chunk, i, condition.left);
    let order = compare_cells(left, right_side(&condition.right, chunk, i));
    answer(condition.test, order)
}

// The places of the rows of a chunk of which a condition holds, row by row.
fn places_by_rows(
    alloc: Global,
    condition: &Condition,
    chunk: &Chunk,
) -> Result<Vec<usize>, AllocError>
    ensures { IfOk result (λ v. v.items ≡ places_of (holds_of condition.now) chunk.now.rows) }
{
    let mut places = Vec::new(alloc);
    for i in 0..chunk.len() {
        push_place_if(&mut places, i, holds(condition, chunk, i))?;
    }
    Ok(places)
}

// The places of the rows of a chunk of which a condition holds, or none where it holds of all. A column of numbers that is compared with a
// constant is gone over where it lies.
fn places_that_pass(
    alloc: Global,
    condition: &Condition,
    chunk: &Chunk,
) -> Result<Option<Vec<usize>>, AllocError>
    ensures some { IfOk result (λ o. IfSome o (λ v. v.items ≡ places_of (holds_of condition.now) chunk.now.rows)) }
    ensures all { IfOk result (λ o. IfNone o (All (λ r. holds_of condition.now r ≡ true) chunk.now.rows)) }
{
    match number_condition(condition, chunk.types()) {
        Some(test) => chunk.places_where(alloc, condition.left, &test),
        None => Ok(Some(places_by_rows(alloc, condition, chunk)?)),
    }
}

/// The rows of a chunk of which a condition holds. Where it holds of all, the chunk is returned as it is.
pub fn kept(alloc: Global, condition: &Condition, chunk: Chunk) -> Result<Chunk, AllocError>
    ensures types { IfOk result (λ c. c.types ≡ chunk.types) }
    ensures rows { IfOk result (λ c. c.rows ≡ filter (holds_of condition.now) chunk.rows) }
{
    let Some(places) = places_that_pass(alloc, condition, &chunk)? else {
        return Ok(chunk);
    };
    places_are_a_filter();
    Ok(chunk.at(alloc, places.as_slice())?)
}

// The comparisons with constants that two conditions make of one column of numbers; none where one of them makes another one.
fn both_conditions(
    first: &Condition,
    second: &Condition,
    types: &[ColType],
) -> Option<BothConditions>
    ensures column { IfSome result (λ _. first.now.left < length types.now) }
    ensures same { IfSome result (λ _. second.now.left ≡ first.now.left) }
    ensures kind { IfSome result (λ _. type_at types.now first.now.left ≡ kind.Int) }
    ensures first_test { IfSome result (λ t. t.first.test ≡ first.now.test) }
    ensures first_constant { IfSome result (λ t. side_of first.now.right ≡ constant (num t.first.constant)) }
    ensures second_test { IfSome result (λ t. t.second.test ≡ second.now.test) }
    ensures second_constant { IfSome result (λ t. side_of second.now.right ≡ constant (num t.second.constant)) }
{
    if first.left != second.left {
        return None;
    }
    let first = number_condition(first, types)?;
    let second = number_condition(second, types)?;
    Some(BothConditions { first, second })
}

/// The rows of a chunk of which two conditions hold. A column of numbers that both compare with constants is gone over once.
pub fn kept_both(
    alloc: Global,
    first: &Condition,
    second: &Condition,
    chunk: Chunk,
) -> Result<Chunk, AllocError>
    ensures types { IfOk result (λ c. c.types ≡ chunk.types) }
    ensures rows { IfOk result (λ c. c.rows ≡ filter (λ r. holds_of first.now r && holds_of second.now r) chunk.rows) }
{
    let Some(test) = both_conditions(first, second, chunk.types()) else {
        let found = kept(alloc, first, chunk)?;
        return kept(alloc, second, found);
    };
    let Some(places) = chunk.places_where(alloc, first.left, &test)? else {
        return Ok(chunk);
    };
    places_are_a_filter();
    Ok(chunk.at(alloc, places.as_slice())?)
}

// The rows of a chunk of which all conditions hold.
fn chosen_of(alloc: Global, conditions: &[Condition], chunk: &Chunk) -> Result<Chunk, AllocError>
    ensures types { IfOk result (λ c. c.types ≡ chunk.now.types) }
    ensures rows { IfOk result (λ c. c.rows ≡ filter (passes (conditions_of conditions.now)) chunk.now.rows) }
{
    let mut found = chunk.share(alloc)?;
    for i in 0..conditions.len() {
        found = kept(alloc, &conditions[i], found)?;
    }
    Ok(found)
}

// Adds the rows of chunks of which all conditions hold.
fn add_chosen(
    alloc: Global,
    found: &mut Rows,
    conditions: &[Condition],
    chunks: &[Chunk],
) -> Result<(), AllocError>
    requires { All (λ c. c.types ≡ found.old.types) chunks.now }
    ensures types { found.new.types ≡ found.old.types }
    ensures ok { OnOk result (found.new.rows ≡ found.old.rows ++ filter (passes (conditions_of conditions.now)) (all_rows chunks.now)) }
{
    for i in 0..chunks.len() {
        let chunk = chosen_of(alloc, conditions, &chunks[i])?;
        found.push(chunk)?;
    }
    Ok(())
}

/// The rows of which all conditions hold, in order. No cell is copied, and a chunk of which they hold throughout is handed on without positions.
pub fn chosen(alloc: Global, conditions: &[Condition], rows: &Rows) -> Result<Rows, AllocError>
    ensures types { IfOk result (λ r. r.types ≡ rows.now.types) }
    ensures rows { IfOk result (λ r. r.rows ≡ filter (passes (conditions_of conditions.now)) rows.now.rows) }
{
    let mut found = Rows::new(alloc, rows.types())?;
    add_chosen(alloc, &mut found, conditions, rows.chunks())?;
    Ok(found)
}

/// The rows in this order; rows that are equal in it stay as they stood. They are gathered into one table, whose rows are seen by their positions.
pub fn sorted_chunks(alloc: Global, rows: &Rows, order: &[OrderEntry]) -> Result<Rows, AllocError>
    requires { AreColumns (length rows.now.types) (order_columns order.now) }
    ensures types { IfOk result (λ r. r.types ≡ rows.now.types) }
    ensures rows { IfOk result (λ r. r.rows ≡ sort_on order.now rows.now.rows) }
{
    let table = rows.gathered(alloc)?;
    let positions = table.sorted_positions(alloc, order)?;
    let risen = Rows::of_table(alloc, table)?;
    Ok(risen.at(alloc, positions.as_slice())?)
}
