//! Functions of columns and values from JSON values: operands, conditions of selects and columns of projections.

ghost use Rattle.std.specs.Prelude.{map, codes};
ghost use Rattle.serde_json.specs.View.{view};
ghost use Rattle.vx_catalog_json.specs.Look.{Finds, Parses, each_onto};
ghost use Rattle.vx_plan_json.specs.Look.{some_in};
ghost use Rattle.vx_plan_json.specs.Document.{operand_form, filter_form, entry_form};
ghost use Rattle.vx_plan_json.specs.Form.{type_named, constant_in, call_in, object_in, operand_in, operands_in, answer_in, filter_in, projected_in};

use crate::forms::{ConditionReader, OutputReader};
use crate::look::{ValueReader, get_text_at, read_name_at};
use crate::plan::{NamedEntry, NamedFilter, NamedOperand};
use serde_json::Value as Json;
use std::alloc::Global;
use vx_catalog_json::{
    Misread, Reader, get_items, get_member, get_some_items, has_only, read_name, test_members,
};
use vx_rows_values::ColType;

fn parse_type(text: &str) -> Result<ColType, Misread>
    ensures { Finds (λ t. t) result (type_named text.now) }
{
    match text {
        "int" => Ok(ColType::Int),
        "text" => Ok(ColType::Text),
        _ => Err(Misread::NotOfForm),
    }
}

#[tactic(auto, unfolding(crate::specs::Form::constant_in))]
fn read_constant(alloc: Global, value: &Json) -> Result<NamedOperand, Misread>
    ensures { Parses operand_form result (constant_in (view value.now)) }
{
    let constant = ValueReader::read(alloc, get_member(value, "value")?)?;
    Ok(NamedOperand::Constant(constant))
}

// A function, its operands, which have so many levels of JSON at most, and the type of its answer.
#[cycle(operands)]
#[tactic(auto, unfolding(crate::specs::Form::call_in), using(crate::proofs::OperandFacts::call_is))]
fn read_call(alloc: Global, levels: u32, value: &Json) -> Result<NamedOperand, Misread>
    ensures { Parses operand_form result (call_in (operands_in levels) (view value.now)) }
{
    let name = read_name_at(alloc, value, "fn")?;
    let operands = read_operands(alloc, levels, get_member(value, "of")?)?;
    let answer = parse_type(get_text_at(value, "type")?)?;
    Ok(NamedOperand::Call(name, answer, operands))
}

#[cycle(operands)]
fn read_object(alloc: Global, levels: u32, value: &Json) -> Result<NamedOperand, Misread>
    ensures { Parses operand_form result (object_in (operands_in levels) (view value.now)) }
{
    if has_only(value, &["value"]) {
        return read_constant(alloc, value);
    }
    test_members(value, &["fn", "of", "type"])?;
    read_call(alloc, levels, value)
}

// A column by its name, a constant, or a function.
#[cycle(operands)]
#[tactic(auto)]
fn read_operand(alloc: Global, levels: u32, value: &Json) -> Result<NamedOperand, Misread>
    ensures { Parses operand_form result (operand_in levels (view value.now)) }
{
    match value.as_str() {
        Some(_) => Ok(NamedOperand::Column(read_name(alloc, value)?)),
        None if levels == 0 => Err(Misread::NotOfForm),
        None => read_object(alloc, levels - 1, value),
    }
}

// A list of operands, of so many levels of JSON at most.
#[cycle(operands)]
#[tactic(auto, using(crate::proofs::OperandFacts::operands_steps))]
fn read_operands(alloc: Global, levels: u32, value: &Json) -> Result<Vec<NamedOperand>, Misread>
    ensures { Parses (λ v. map operand_form v.items) result (operands_in levels (view value.now)) }
{
    if levels == 0 {
        return Err(Misread::NotOfForm);
    }
    let mut found = Vec::new(alloc);
    for item in get_items(value)? {
        found.push(read_operand(alloc, levels - 1, item)?)?;
    }
    Ok(found)
}

// A function that answers a number.
#[tactic(auto, unfolding(crate::specs::Form::answer_in), using(crate::proofs::OperandFacts::call_is))]
fn read_answer(alloc: Global, levels: u32, value: &Json) -> Result<NamedFilter, Misread>
    ensures { Parses filter_form result (answer_in levels (view value.now)) }
{
    let name = read_name_at(alloc, value, "fn")?;
    let operands = read_operands(alloc, levels, get_member(value, "of")?)?;
    let call = NamedOperand::Call(name, ColType::Int, operands);
    Ok(NamedFilter::Computed(call))
}

#[tactic(auto, unfolding(crate::specs::Form::filter_in))]
fn read_filter(alloc: Global, levels: u32, value: &Json) -> Result<NamedFilter, Misread>
    ensures { Parses filter_form result (filter_in levels (view value.now)) }
{
    if has_only(value, &["fn", "of"]) {
        return read_answer(alloc, levels, value);
    }
    Ok(NamedFilter::Compared(ConditionReader::read(alloc, value)?))
}

/// The conditions of a select. What stands in the objects of functions has so many levels of JSON at most.
#[tactic(auto, using(crate::proofs::OperandFacts::list_steps))]
pub fn read_filters(alloc: Global, levels: u32, value: &Json) -> Result<Vec<NamedFilter>, Misread>
    ensures { Parses (λ v. map filter_form v.items) result (some_in (filter_in levels) (view value.now)) }
{
    let mut found = Vec::new(alloc);
    for item in get_some_items(value)? {
        found.push(read_filter(alloc, levels, item)?)?;
    }
    Ok(found)
}

#[tactic(auto, unfolding(crate::specs::Form::projected_in))]
fn read_entry(alloc: Global, levels: u32, value: &Json) -> Result<NamedEntry, Misread>
    ensures { Parses entry_form result (projected_in levels (view value.now)) }
{
    if has_only(value, &["value", "as"]) {
        let constant = read_constant(alloc, value)?;
        return Ok(NamedEntry::Made(constant, read_name_at(alloc, value, "as")?));
    }
    if has_only(value, &["fn", "of", "type", "as"]) {
        let call = read_call(alloc, levels, value)?;
        return Ok(NamedEntry::Made(call, read_name_at(alloc, value, "as")?));
    }
    Ok(NamedEntry::Kept(OutputReader::read(alloc, value)?))
}

/// The columns of a projection. What stands in the objects of functions has so many levels of JSON at most.
#[tactic(auto, using(crate::proofs::OperandFacts::list_steps))]
pub fn read_entries(alloc: Global, levels: u32, value: &Json) -> Result<Vec<NamedEntry>, Misread>
    ensures { Parses (λ v. map entry_form v.items) result (some_in (projected_in levels) (view value.now)) }
{
    let mut found = Vec::new(alloc);
    for item in get_some_items(value)? {
        found.push(read_entry(alloc, levels, item)?)?;
    }
    Ok(found)
}
