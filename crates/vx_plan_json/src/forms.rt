//! Claims, conditions, kept columns, aggregates and pairs from JSON values.

ghost use Rattle.std.specs.Prelude.{string_bytes, codes};
ghost use Rattle.serde_json.specs.Find.{get};
ghost use Rattle.serde_json.specs.View.{view};
ghost use Rattle.vx_catalog_json.specs.Look.{Finds, Parses};
ghost use Rattle.vx_plan_json.specs.Look.{or_default};
ghost use Rattle.vx_rows_values.specs.Values.{Name};
ghost use Rattle.vx_rows_values.specs.ValueView.{test_of};
ghost use Rattle.vx_plan_json.specs.Document.{any, part_form, claim_form, side_form, ConditionForm, condition_form, OutputForm, output_form, function_form, AggregateForm, aggregate_form, pair_form};
ghost use Rattle.vx_plan_json.specs.Form.{hash_part_in, range_part_in, routed_part_in, part_in, claim_in, claimed, test_named, side_in, condition_in, renamed_in, output_in, function_named, function_at, aggregate_in, pair_in};

use crate::look::{NamesReader, ValueReader, get_text_at, read_name_at, read_order_or_empty};
use crate::plan::{
    NamedAggregate, NamedClaim, NamedCondition, NamedFunction, NamedOutput, NamedPart, NamedSide,
};
use serde_json::Value as Json;
use std::alloc::Global;
use vx_catalog_json::{
    Misread, NameReader, Reader, get_items, get_member, has_only, read_list_or_empty, read_name,
    read_some, test_members,
};
use vx_rows_values::Test;

#[tactic(auto, unfolding(crate::specs::Form::hash_part_in, crate::specs::Form::some_names_in))]
fn read_hash_part(alloc: Global, value: &Json) -> Result<NamedPart, Misread>
    ensures { Parses part_form result (hash_part_in (view value.now)) }
{
    let route = read_name_at(alloc, value, "hash")?;
    let columns = read_some::<NameReader>(alloc, get_member(value, "columns")?)?;
    Ok(NamedPart::Hash { route, columns })
}

#[tactic(auto, unfolding(crate::specs::Form::range_part_in))]
fn read_range_part(alloc: Global, value: &Json) -> Result<NamedPart, Misread>
    ensures { Parses part_form result (range_part_in (view value.now)) }
{
    let range = read_name_at(alloc, value, "range")?;
    let column = read_name_at(alloc, value, "column")?;
    Ok(NamedPart::Range { range, column })
}

fn read_routed_part(alloc: Global, value: &Json) -> Result<NamedPart, Misread>
    ensures { Parses part_form result (routed_part_in (view value.now)) }
{
    if has_only(value, &["hash", "columns"]) {
        return read_hash_part(alloc, value);
    }
    test_members(value, &["range", "column"])?;
    read_range_part(alloc, value)
}

#[tactic(auto, unfolding(crate::specs::Form::part_in))]
fn read_part(alloc: Global, value: &Json) -> Result<NamedPart, Misread>
    ensures { Parses part_form result (part_in (view value.now)) }
{
    match value.as_str() {
        Some("one") => Ok(NamedPart::One),
        Some("any") => Ok(NamedPart::Any),
        Some("all") => Ok(NamedPart::All),
        Some(_) => Err(Misread::NotOfForm),
        None => read_routed_part(alloc, value),
    }
}

fn read_part_or_any(alloc: Global, value: &Json) -> Result<NamedPart, Misread>
    ensures { Parses part_form result (or_default any part_in (get (codes "part") (view value.now))) }
{
    match value.get("part") {
        Some(part) => read_part(alloc, part),
        None => Ok(NamedPart::Any),
    }
}

#[tactic(auto, unfolding(crate::specs::Form::claim_in, crate::specs::Form::keys_in))]
fn read_claim(alloc: Global, value: &Json) -> Result<NamedClaim, Misread>
    ensures { Parses claim_form result (claim_in (view value.now)) }
{
    test_members(value, &["part", "order", "keys"])?;
    let part = read_part_or_any(alloc, value)?;
    let order = read_order_or_empty(alloc, value, "order")?;
    let keys = read_list_or_empty::<NamesReader>(alloc, value, "keys")?;
    Ok(NamedClaim { part, order, keys })
}

/// The claim of a node: any part, no order and no keys where it is left out.
#[tactic(auto, unfolding(crate::specs::Form::claimed))]
pub fn read_node_claim(alloc: Global, node: &Json) -> Result<NamedClaim, Misread>
    ensures { Parses claim_form result (claimed (view node.now)) }
{
    match node.get("claim") {
        Some(claim) => read_claim(alloc, claim),
        None => Ok(NamedClaim {
            part: NamedPart::Any,
            order: Vec::new(alloc),
            keys: Vec::new(alloc),
        }),
    }
}

fn parse_test(text: &str) -> Result<Test, Misread>
    ensures { Finds test_of result (test_named text.now) }
{
    match text {
        "=" => Ok(Test::Equal),
        "<>" => Ok(Test::Unequal),
        "<" => Ok(Test::Below),
        "<=" => Ok(Test::AtMost),
        ">" => Ok(Test::Above),
        ">=" => Ok(Test::AtLeast),
        _ => Err(Misread::NotOfForm),
    }
}

#[tactic(auto, unfolding(crate::specs::Form::side_in))]
fn read_side(alloc: Global, value: &Json) -> Result<NamedSide, Misread>
    ensures { Parses side_form result (side_in (view value.now)) }
{
    if has_only(value, &["column", "op", "value"]) {
        let constant = ValueReader::read(alloc, get_member(value, "value")?)?;
        return Ok(NamedSide::Constant(constant));
    }
    test_members(value, &["column", "op", "column2"])?;
    Ok(NamedSide::Column(read_name_at(alloc, value, "column2")?))
}

/// Reads conditions: a column compared with a constant or another column.
pub struct ConditionReader;

impl Reader for ConditionReader {
    type Item = NamedCondition;

    ghost Form = { ConditionForm };

    ghost look = { condition_form };

    ghost form = { condition_in };

    #[tactic(auto, unfolding(crate::specs::Form::condition_in))]
    fn read(alloc: Global, value: &Json) -> Result<NamedCondition, Misread> {
        let left = read_name_at(alloc, value, "column")?;
        let test = parse_test(get_text_at(value, "op")?)?;
        let right = read_side(alloc, value)?;
        Ok(NamedCondition { left, test, right })
    }
}

#[tactic(auto, unfolding(crate::specs::Form::renamed_in))]
fn read_renamed(alloc: Global, value: &Json) -> Result<NamedOutput, Misread>
    ensures { Parses output_form result (renamed_in (view value.now)) }
{
    test_members(value, &["column", "as"])?;
    let column = read_name_at(alloc, value, "column")?;
    let name = read_name_at(alloc, value, "as")?;
    Ok(NamedOutput {
        column,
        renamed: Some(name),
    })
}

/// Reads kept columns: a column by its name, or with a new one.
pub struct OutputReader;

impl Reader for OutputReader {
    type Item = NamedOutput;

    ghost Form = { OutputForm };

    ghost look = { output_form };

    ghost form = { output_in };

    #[tactic(auto, unfolding(crate::specs::Form::output_in))]
    fn read(alloc: Global, value: &Json) -> Result<NamedOutput, Misread> {
        let Some(text) = value.as_str() else {
            return read_renamed(alloc, value);
        };
        if text.is_empty() {
            return Err(Misread::NotOfForm);
        }
        Ok(NamedOutput {
            column: String::from_str(alloc, text)?,
            renamed: None,
        })
    }
}

fn make_function(name: &str, column: String) -> Result<NamedFunction, Misread>
    ensures { Finds function_form result (function_named name.now (string_bytes column)) }
{
    match name {
        "min" => Ok(NamedFunction::Least(column)),
        "max" => Ok(NamedFunction::Greatest(column)),
        "sum" => Ok(NamedFunction::Sum(column)),
        _ => Err(Misread::NotOfForm),
    }
}

#[tactic(auto, unfolding(crate::specs::Form::function_at))]
fn read_function(alloc: Global, name: &str, value: &Json) -> Result<NamedFunction, Misread>
    ensures { Parses function_form result (function_at name.now (view value.now)) }
{
    if name == "count" {
        test_members(value, &["fn", "as"])?;
        return Ok(NamedFunction::CountRows);
    }
    test_members(value, &["fn", "column", "as"])?;
    make_function(name, read_name_at(alloc, value, "column")?)
}

/// Reads aggregates, each with the name of its column.
pub struct AggregateReader;

impl Reader for AggregateReader {
    type Item = NamedAggregate;

    ghost Form = { AggregateForm };

    ghost look = { aggregate_form };

    ghost form = { aggregate_in };

    #[tactic(auto, unfolding(crate::specs::Form::aggregate_in))]
    fn read(alloc: Global, value: &Json) -> Result<NamedAggregate, Misread> {
        let function = read_function(alloc, get_text_at(value, "fn")?, value)?;
        let name = read_name_at(alloc, value, "as")?;
        Ok(NamedAggregate { function, name })
    }
}

/// Reads pairs of names: left column, right column.
pub struct PairReader;

impl Reader for PairReader {
    type Item = (String, String);

    ghost Form = { Name × Name };

    ghost look = { pair_form };

    ghost form = { pair_in };

    #[tactic(auto, unfolding(crate::specs::Form::pair_in))]
    fn read(alloc: Global, value: &Json) -> Result<(String, String), Misread> {
        let [left, right] = get_items(value)? else {
            return Err(Misread::NotOfForm);
        };
        Ok((read_name(alloc, left)?, read_name(alloc, right)?))
    }
}
