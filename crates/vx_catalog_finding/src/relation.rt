//! A relation found in its text.

ghost use Rattle.std.specs.Prelude.{◌≡◌, ◌↔◌, map, string_bytes, IsTrue};
ghost use Rattle.vx_catalog.specs.Loading.{Gives};
ghost use Rattle.vx_catalog_finding.specs.Found.{in_header, found};

use crate::keys::keys_of;
use crate::order::order_of;
use crate::text::{header_of, rows_behind};
use crate::types::{all_texts, types_of};
use std::alloc::Global;
use std::marker::Model;
use vx_catalog::LoadFault;
use vx_catalog_relations::Relation;
use vx_rows_values::{ColType, OrderEntry};

/// What is found of a relation in its text. Keys and order name columns by their positions, counted from 0.
#[derive(Drop)]
pub struct FoundRelation {
    pub(crate) name: String,
    pub(crate) names: Vec<String>,
    pub(crate) types: Vec<ColType>,
    pub(crate) keys: Vec<Vec<usize>>,
    pub(crate) order: Vec<OrderEntry>,
}

impl Model for FoundRelation {
    ghost use Rattle.std.specs.Prelude.{map, string_bytes};
    ghost use Rattle.vx_catalog_relations.specs.Relation.{Relation};

    ghost Value = { Relation };

    ghost view = { λ r. record { name = string_bytes r.name; names = map string_bytes r.names.items; types = r.types.items; keys = map (λ k. k.items) r.keys.items; order = r.order.items } };
}

/// The relation of this name with the columns in the header of a text, all of them of texts.
#[tactic(auto, using(crate::proofs::RelationFacts::header_refused))]
pub fn header_relation(alloc: Global, name: &str, text: &[u8]) -> Result<FoundRelation, LoadFault>
    ensures { Gives (λ r. r) result (in_header name.now text.now) }
{
    let names = header_of(alloc, text)?;
    let types = all_texts(alloc, names.as_slice())?;
    Ok(FoundRelation {
        name: String::from_str(alloc, name)?,
        names,
        types,
        keys: Vec::new(alloc),
        order: Vec::new(alloc),
    })
}

/// The relation of this name that is found in a text: as columns those of its header, of numbers if each field is a plain one; as keys
/// the columns in which no value is twice, or else pairs of columns; and the order in which the rows stand.
#[tactic(auto, using(crate::proofs::RelationFacts::relation_steps))]
pub fn find_relation(alloc: Global, name: &str, text: &[u8]) -> Result<FoundRelation, LoadFault>
    ensures { Gives (λ r. r) result (found name.now text.now) }
{
    let names = header_of(alloc, text)?;
    let texts = rows_behind(alloc, all_texts(alloc, names.as_slice())?.as_slice(), text)?;
    let types = types_of(alloc, &texts)?;
    drop(texts);
    let rows = rows_behind(alloc, types.as_slice(), text)?;
    Ok(FoundRelation {
        name: String::from_str(alloc, name)?,
        names,
        types,
        keys: keys_of(alloc, &rows)?,
        order: order_of(alloc, &rows)?,
    })
}

fn are_same_names(names: &[String], others: &[String]) -> bool
    ensures { IsTrue result ↔ (map string_bytes names.now ≡ map string_bytes others.now) }
{
    names == others
}

fn are_same_columns(columns: &[usize], others: &[usize]) -> bool
    ensures { IsTrue result ↔ (columns.now ≡ others.now) }
{
    columns == others
}

// Whether the relation has just these keys, in this order.
fn has_keys(relation: &Relation, keys: &[Vec<usize>]) -> bool
    ensures { IsTrue result ↔ (relation.now.keys ≡ map (λ k. k.items) keys.now) }
{
    if relation.key_count() != keys.len() {
        return false;
    }
    for i in 0..keys.len() {
        if !are_same_columns(relation.key(i), keys[i].as_slice()) {
            return false;
        }
    }
    true
}

fn are_same_types(types: &[ColType], others: &[ColType]) -> bool
    ensures { IsTrue result ↔ (types.now ≡ others.now) }
{
    types == others
}

fn are_same_orders(order: &[OrderEntry], others: &[OrderEntry]) -> bool
    ensures { IsTrue result ↔ (order.now ≡ others.now) }
{
    order == others
}

impl FoundRelation {
    /// Whether a relation of a catalog is just this one.
    pub(crate) fn is_found(&self, relation: &Relation) -> bool
        ensures { IsTrue result ↔ (relation.now ≡ self.now) }
    {
        if relation.name() != self.name.as_str() {
            return false;
        }
        if !are_same_names(relation.names(), self.names.as_slice()) {
            return false;
        }
        if !are_same_types(relation.types(), self.types.as_slice()) {
            return false;
        }
        if !has_keys(relation, self.keys.as_slice()) {
            return false;
        }
        are_same_orders(relation.order(), self.order.as_slice())
    }
}
