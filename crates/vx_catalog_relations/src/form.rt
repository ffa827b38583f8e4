//! The form of a catalog in JSON.

ghost use Rattle.std.specs.Prelude.{ℕ, List, map, string_bytes};
ghost use Rattle.serde_json.specs.View.{view};
ghost use Rattle.vx_catalog_json.specs.Look.{Finds, Parses};
ghost use Rattle.vx_catalog_relations.specs.Form.{kind_in, column_in, key_in, relation_in, catalog_in};

use serde_json::Value;
use std::alloc::Global;
use std::marker::Model;
use vx_catalog_json::{
    Misread, NameReader, OrderReader, OrderText, Reader, get_member, read_list, read_list_or_empty,
    read_name, read_some, test_members,
};
use vx_rows_values::ColType;

/// A column as the catalog's text has it.
#[derive(Drop)]
pub struct ColumnText {
    pub(crate) name: String,
    pub(crate) kind: ColType,
}

impl Model for ColumnText {
    ghost use Rattle.std.specs.Prelude.{string_bytes};
    ghost use Rattle.vx_catalog_relations.specs.Form.{ColumnText};

    ghost Value = { ColumnText };

    ghost view = { λ c. record { name = string_bytes c.name; kind = c.kind } };
}

/// A relation as the catalog's text has it: its keys and its order name columns.
#[derive(Drop)]
pub struct RelationText {
    pub(crate) name: String,
    pub(crate) columns: Vec<ColumnText>,
    pub(crate) keys: Vec<Vec<String>>,
    pub(crate) order: Vec<OrderText>,
}

impl Model for RelationText {
    ghost use Rattle.std.specs.Prelude.{map, string_bytes};
    ghost use Rattle.vx_catalog_relations.specs.Form.{RelationText};

    ghost Value = { RelationText };

    ghost view = { λ t. record { name = string_bytes t.name; columns = t.columns.items; keys = map (λ k. map string_bytes k.items) t.keys.items; order = t.order.items } };
}

#[tactic(auto, unfolding(crate::specs::Form::kind_in))]
fn read_kind(value: &Value) -> Result<ColType, Misread>
    ensures { Finds (λ k. k) result (kind_in (view value.now)) }
{
    match value.as_str() {
        Some("int") => Ok(ColType::Int),
        Some("text") => Ok(ColType::Text),
        _ => Err(Misread::NotOfForm),
    }
}

struct ColumnReader;

impl Reader for ColumnReader {
    ghost use Rattle.vx_catalog_relations.specs.Form.{ColumnText};

    type Item = ColumnText;

    ghost Form = { ColumnText };

    ghost look = { λ c. c };

    ghost form = { column_in };

    #[tactic(auto, unfolding(crate::specs::Form::column_in))]
    fn read(alloc: Global, value: &Value) -> Result<ColumnText, Misread> {
        test_members(value, &["name", "type"])?;
        let name = read_name(alloc, get_member(value, "name")?)?;
        let kind = read_kind(get_member(value, "type")?)?;
        Ok(ColumnText { name, kind })
    }
}

// A key: one name or more.
struct KeyReader;

impl Reader for KeyReader {
    type Item = Vec<String>;

    ghost Form = { List (List ℕ) };

    ghost look = { λ k. map string_bytes k.items };

    ghost form = { key_in };

    #[tactic(auto, unfolding(crate::specs::Form::key_in))]
    fn read(alloc: Global, value: &Value) -> Result<Vec<String>, Misread> {
        read_some::<NameReader>(alloc, value)
    }
}

struct RelationReader;

impl Reader for RelationReader {
    ghost use Rattle.vx_catalog_relations.specs.Form.{RelationText};

    type Item = RelationText;

    ghost Form = { RelationText };

    ghost look = { λ t. t };

    ghost form = { relation_in };

    #[tactic(auto, unfolding(crate::specs::Form::relation_in, crate::specs::Form::columns_in), using(crate::proofs::SameFacts::same_list))]
    fn read(alloc: Global, value: &Value) -> Result<RelationText, Misread> {
        test_members(value, &["name", "columns", "keys", "order"])?;
        let name = read_name(alloc, get_member(value, "name")?)?;
        let columns = read_some::<ColumnReader>(alloc, get_member(value, "columns")?)?;
        let keys = read_list_or_empty::<KeyReader>(alloc, value, "keys")?;
        let order = read_list_or_empty::<OrderReader>(alloc, value, "order")?;
        Ok(RelationText {
            name,
            columns,
            keys,
            order,
        })
    }
}

/// The relations that a value of the form declares.
#[tactic(auto, unfolding(crate::specs::Form::catalog_in), using(crate::proofs::SameFacts::same_list))]
pub fn read_catalog(alloc: Global, value: &Value) -> Result<Vec<RelationText>, Misread>
    ensures { Parses (λ v. v.items) result (catalog_in (view value.now)) }
{
    test_members(value, &["relations"])?;
    read_list::<RelationReader>(alloc, get_member(value, "relations")?)
}
