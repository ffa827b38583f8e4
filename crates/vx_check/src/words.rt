//! Words of the text that explains a plan: names, lists of columns, orders, sizes, parts and claims.

ghost use Rattle.std.specs.Prelude.{◌≡◌, ◌++◌, [], map, string_bytes, OnOk, cond, codes, false};
ghost use Rattle.vx_plan_nodes.specs.Outline.{size_of, route_of, part_of, claim_of};
ghost use Rattle.vx_plan_nodes.specs.TypedView.{names_in};
ghost use Rattle.vx_check.specs.Explain.{name_at, separated, list_text, entry_text, order_text, size_text, route_text, part_text, keys_text, claim_text};

use std::alloc::AllocError;
use vx_plan_nodes::{Claim, Name, Part, Route, Size, TypedPlan};
use vx_rows_values::OrderEntry;

/// The name with this number; past the end the empty one.
pub fn name_at(names: &[String], number: usize) -> &str
    ensures { result.now ≡ name_at (map string_bytes names.now) number }
{
    match names.get(number) {
        Some(name) => name.as_str(),
        None => "",
    }
}

/// Adds the name with this number; past the end nothing.
pub fn push_name(text: &mut String, names: &[Name], number: usize) -> Result<(), AllocError>
    ensures { OnOk result (string_bytes text.new ≡ string_bytes text.old ++ name_at names.now number) }
{
    match names.get(number) {
        Some(name) => name.push_to(text),
        None => Ok(()),
    }
}

/// Adds the separator, unless nothing was added before.
pub fn push_between(text: &mut String, between: &str, is_later: bool) -> Result<(), AllocError>
    ensures { OnOk result (string_bytes text.new ≡ string_bytes text.old ++ cond is_later between.now []) }
{
    if is_later {
        text.push_str(between)
    } else {
        Ok(())
    }
}

// Adds columns by their names.
fn push_names(text: &mut String, names: &[Name], columns: &[usize]) -> Result<(), AllocError>
    ensures { OnOk result (string_bytes text.new ≡ string_bytes text.old ++ separated (codes ",") false (map (name_at names.now) columns.now)) }
{
    for (i, column) in columns.iter().enumerate() {
        push_between(text, ",", i > 0)?;
        push_name(text, names, *column)?;
    }
    Ok(())
}

/// Adds columns by their names, in brackets.
pub fn push_list(text: &mut String, names: &[Name], columns: &[usize]) -> Result<(), AllocError>
    ensures { OnOk result (string_bytes text.new ≡ string_bytes text.old ++ list_text names.now columns.now) }
{
    text.push_str("[")?;
    push_names(text, names, columns)?;
    text.push_str("]")
}

// Adds a column of an order by its name, and whether it falls.
fn push_entry(text: &mut String, names: &[Name], entry: OrderEntry) -> Result<(), AllocError>
    ensures { OnOk result (string_bytes text.new ≡ string_bytes text.old ++ entry_text names.now entry) }
{
    push_name(text, names, entry.column)?;
    if entry.falling {
        text.push_str(" desc")?;
    }
    Ok(())
}

// Adds the columns of an order, and which of them fall.
fn push_entries(text: &mut String, names: &[Name], order: &[OrderEntry]) -> Result<(), AllocError>
    ensures { OnOk result (string_bytes text.new ≡ string_bytes text.old ++ separated (codes ",") false (map (entry_text names.now) order.now)) }
{
    for (i, entry) in order.iter().enumerate() {
        push_between(text, ",", i > 0)?;
        push_entry(text, names, *entry)?;
    }
    Ok(())
}

/// Adds an order, in brackets.
pub fn push_order(text: &mut String, names: &[Name], order: &[OrderEntry]) -> Result<(), AllocError>
    ensures { OnOk result (string_bytes text.new ≡ string_bytes text.old ++ order_text names.now order.now) }
{
    text.push_str("[")?;
    push_entries(text, names, order)?;
    text.push_str("]")
}

/// Adds the name of a size.
pub fn push_size(text: &mut String, plan: &TypedPlan, size: Size) -> Result<(), AllocError>
    ensures { OnOk result (string_bytes text.new ≡ string_bytes text.old ++ size_text (names_in plan.now) (size_of size)) }
{
    match size {
        Size::One => text.push_str("one"),
        Size::Group(size) => text.push_str(name_at(plan.sizes(), size)),
    }
}

/// The name of a declared range; past the end the empty one.
pub fn range_name<'a>(plan: &'a TypedPlan, range: usize) -> &'a str
    ensures { result.now ≡ name_at (map (λ r. r.name) (names_in plan.now).ranges) range }
{
    match plan.ranges().get(range) {
        Some(range) => range.name.as_str(),
        None => "",
    }
}

/// Adds the kind and the name of a route.
pub fn push_route(text: &mut String, plan: &TypedPlan, route: &Route) -> Result<(), AllocError>
    ensures { OnOk result (string_bytes text.new ≡ string_bytes text.old ++ route_text (names_in plan.now) (route_of route.now)) }
{
    match route {
        Route::Hash(name) => {
            text.push_str("hash:")?;
            text.push_str(name.as_str())
        }
        Route::Range(range) => {
            text.push_str("range:")?;
            text.push_str(range_name(plan, *range))
        }
    }
}

/// Adds a route and the columns by which it sends, by their names.
pub fn push_routed(
    text: &mut String,
    plan: &TypedPlan,
    names: &[Name],
    route: &Route,
    columns: &[usize],
) -> Result<(), AllocError>
    ensures { OnOk result (string_bytes text.new ≡ string_bytes text.old ++ (route_text (names_in plan.now) (route_of route.now) ++ list_text names.now columns.now)) }
{
    push_route(text, plan, route)?;
    push_list(text, names, columns)
}

/// Adds a part, whose columns have these names.
pub fn push_part(
    text: &mut String,
    plan: &TypedPlan,
    names: &[Name],
    part: &Part,
) -> Result<(), AllocError>
    ensures { OnOk result (string_bytes text.new ≡ string_bytes text.old ++ part_text (names_in plan.now) names.now (part_of part.now)) }
{
    match part {
        Part::One => text.push_str("one"),
        Part::Any => text.push_str("any"),
        Part::All => text.push_str("all"),
        Part::Routed(route, columns) => push_routed(text, plan, names, route, columns.as_slice()),
    }
}

// Adds lists of columns.
fn push_lists(text: &mut String, names: &[Name], keys: &[Vec<usize>]) -> Result<(), AllocError>
    ensures { OnOk result (string_bytes text.new ≡ string_bytes text.old ++ separated (codes ";") false (map (list_text names.now) (map (λ k. k.items) keys.now))) }
{
    for (i, key) in keys.iter().enumerate() {
        push_between(text, ";", i > 0)?;
        push_list(text, names, key.as_slice())?;
    }
    Ok(())
}

// Adds keys, or a dash where there is none.
fn push_keys(text: &mut String, names: &[Name], keys: &[Vec<usize>]) -> Result<(), AllocError>
    ensures { OnOk result (string_bytes text.new ≡ string_bytes text.old ++ keys_text names.now (map (λ k. k.items) keys.now)) }
{
    if keys.is_empty() {
        text.push_str("-")
    } else {
        push_lists(text, names, keys)
    }
}

/// Adds a claim on an output whose columns have these names.
pub fn push_claim(
    text: &mut String,
    plan: &TypedPlan,
    names: &[Name],
    claim: &Claim,
) -> Result<(), AllocError>
    ensures { OnOk result (string_bytes text.new ≡ string_bytes text.old ++ claim_text (names_in plan.now) names.now (claim_of claim.now)) }
{
    text.push_str(" part=")?;
    push_part(text, plan, names, &claim.part)?;
    text.push_str(" order=")?;
    push_order(text, names, claim.order.as_slice())?;
    text.push_str(" keys=")?;
    push_keys(text, names, claim.keys.as_slice())
}
