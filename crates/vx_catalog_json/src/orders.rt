//! Entries of orders: columns by their names, each rising or falling.

ghost use Rattle.serde_json.specs.View.{view};
ghost use Rattle.vx_catalog_json.specs.Look.{OrderText, Parses, directed_in, order_entry_in};

use crate::lists::Reader;
use crate::look::{get_member, read_flag, read_name, test_members};
use crate::misread::Misread;
use serde_json::Value;
use std::alloc::Global;
use std::marker::Model;

/// An entry of an order as a text has it: a column by its name, rising or falling.
#[derive(Drop)]
pub struct OrderText {
    pub name: String,
    pub falling: bool,
}

impl Model for OrderText {
    ghost use Rattle.std.specs.Prelude.{string_bytes};
    ghost use Rattle.vx_catalog_json.specs.Look.{OrderText};

    ghost Value = { OrderText };

    ghost view = { λ e. record { name = string_bytes e.name; falling = e.falling } };
}

#[tactic(auto, unfolding(crate::specs::Look::directed_in))]
fn read_directed(alloc: Global, value: &Value) -> Result<OrderText, Misread>
    ensures { Parses (λ e. e) result (directed_in (view value.now)) }
{
    test_members(value, &["column", "desc"])?;
    let name = read_name(alloc, get_member(value, "column")?)?;
    let falling = read_flag(value, "desc")?;
    Ok(OrderText { name, falling })
}

/// Reads entries of orders: the name of a column, which rises, or an object with the column's name and its direction.
pub struct OrderReader;

impl Reader for OrderReader {
    type Item = OrderText;

    ghost Form = { OrderText };

    ghost look = { λ e. e };

    ghost form = { order_entry_in };

    #[tactic(auto, unfolding(crate::specs::Look::order_entry_in))]
    fn read(alloc: Global, value: &Value) -> Result<OrderText, Misread> {
        let Some(text) = value.as_str() else {
            return read_directed(alloc, value);
        };
        if text.is_empty() {
            return Err(Misread::NotOfForm);
        }
        Ok(OrderText {
            name: String::from_str(alloc, text)?,
            falling: false,
        })
    }
}
