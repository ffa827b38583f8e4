//! Looking into a JSON value: names and texts in members, lists of names, orders, and constants.

ghost use Rattle.std.specs.Prelude.{List, [], ℕ, map, string_bytes};
ghost use Rattle.serde_json.specs.View.{view};
ghost use Rattle.vx_rows_values.specs.Values.{Val};
ghost use Rattle.vx_rows_values.specs.ValueView.{val_of};
ghost use Rattle.vx_catalog_json.specs.Look.{Finds, Parses};
ghost use Rattle.vx_plan_json.specs.Look.{name_at, text_at, value_in};
ghost use Rattle.serde_json.specs.Find.{get};
ghost use Rattle.vx_plan_json.specs.Look.{or_default};
ghost use Rattle.vx_plan_json.specs.Form.{names_in, order_in, some_order_in};

use serde_json::Value as Json;
use std::alloc::Global;
use vx_catalog_json::{
    Misread, NameReader, OrderReader, OrderText, Reader, get_member, get_text, read_list,
    read_list_or_empty, read_name, read_some,
};
use vx_rows_values::{Cell, Value};

/// The name in a member.
#[tactic(auto, unfolding(crate::specs::Look::name_at))]
pub fn read_name_at(alloc: Global, value: &Json, key: &str) -> Result<String, Misread>
    ensures { Parses string_bytes result (name_at key.now (view value.now)) }
{
    read_name(alloc, get_member(value, key)?)
}

/// The text in a member.
#[tactic(auto, unfolding(crate::specs::Look::text_at))]
pub fn get_text_at<'v>(value: &'v Json, key: &str) -> Result<&'v str, Misread>
    ensures { Finds (λ s. s.now) result (text_at key.now (view value.now)) }
{
    get_text(get_member(value, key)?)
}

/// Reads lists of names.
pub struct NamesReader;

impl Reader for NamesReader {
    type Item = Vec<String>;

    ghost Form = { List (List ℕ) };

    ghost look = { λ k. map string_bytes k.items };

    ghost form = { names_in };

    #[tactic(auto, unfolding(crate::specs::Form::names_in))]
    fn read(alloc: Global, value: &Json) -> Result<Vec<String>, Misread> {
        read_list::<NameReader>(alloc, value)
    }
}

/// The order in a member. Where the member is left out, it is empty.
#[tactic(auto, unfolding(crate::specs::Form::order_in), using(crate::proofs::OrderFacts::same_order))]
pub fn read_order_or_empty(
    alloc: Global,
    value: &Json,
    key: &str,
) -> Result<Vec<OrderText>, Misread>
    ensures { Parses (λ v. v.items) result (or_default [] order_in (get key.now (view value.now))) }
{
    read_list_or_empty::<OrderReader>(alloc, value, key)
}

/// An order with an entry or more.
#[tactic(auto, unfolding(crate::specs::Form::some_order_in), using(crate::proofs::OrderFacts::same_order))]
pub fn read_some_order(alloc: Global, value: &Json) -> Result<Vec<OrderText>, Misread>
    ensures { Parses (λ v. v.items) result (some_order_in (view value.now)) }
{
    read_some::<OrderReader>(alloc, value)
}

/// Reads constants: numbers of 64 signed bits, and texts.
pub struct ValueReader;

impl Reader for ValueReader {
    type Item = Value;

    ghost Form = { Val };

    ghost look = { val_of };

    ghost form = { value_in };

    #[tactic(auto, unfolding(crate::specs::Look::value_in))]
    fn read(alloc: Global, value: &Json) -> Result<Value, Misread> {
        if let Some(number) = value.as_i64() {
            return Ok(Cell::Int(number).to_value(alloc)?);
        }
        let text = get_text(value)?;
        Ok(Cell::Text(text).to_value(alloc)?)
    }
}
