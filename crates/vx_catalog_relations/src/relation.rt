//! What a catalog declares of one relation.

ghost use Rattle.std.specs.Prelude.{◌≡◌, ◌↔◌, ◌<◌, [], map, length, position, bytes_eq, string_bytes, slice_index_or, IsTrue};
ghost use Rattle.std.specs.Arc.{arc_value};
ghost use Rattle.vx_rows_values.specs.Types.{type_at};

use crate::names::find_name;
use std::marker::Model;
use std::sync::Arc;
use vx_rows_values::{ColType, OrderEntry};

// Whether these are the same names in the same order.
fn are_same_names(names: &[String], others: &[String]) -> bool
    ensures { IsTrue result ↔ (map string_bytes names.now ≡ map string_bytes others.now) }
{
    names == others
}

// Whether these are the same lists of columns in the same order.
fn are_same_keys(keys: &[Vec<usize>], others: &[Vec<usize>]) -> bool
    ensures { IsTrue result ↔ (map (λ k. k.items) keys.now ≡ map (λ k. k.items) others.now) }
{
    keys == others
}

fn are_same_types(types: &[ColType], others: &[ColType]) -> bool
    ensures { IsTrue result ↔ (types.now ≡ others.now) }
{
    types == others
}

// Whether these are the same entries in the same order.
fn are_same_orders(order: &[OrderEntry], others: &[OrderEntry]) -> bool
    ensures { IsTrue result ↔ (order.now ≡ others.now) }
{
    order == others
}

/// A relation of a catalog: its name, its columns, its keys and the order of its rows.
///
/// Keys and order name columns by their positions, counted from 0. An empty order declares none.
#[derive(Drop)]
pub struct Relation {
    name: String,
    names: Arc<Vec<String>>,
    types: Vec<ColType>,
    keys: Vec<Vec<usize>>,
    order: Vec<OrderEntry>,
}

impl Model for Relation {
    ghost use Rattle.std.specs.Prelude.{map, string_bytes};
    ghost use Rattle.std.specs.Arc.{arc_value};
    ghost use Rattle.vx_catalog_relations.specs.Relation.{Relation};

    ghost Value = { Relation };

    ghost view = { λ r. record { name = string_bytes r.name; names = map string_bytes (arc_value r.names).items; types = r.types.items; keys = map (λ k. k.items) r.keys.items; order = r.order.items } };
}

impl Relation {
    pub(crate) fn new(
        name: String,
        names: Arc<Vec<String>>,
        types: Vec<ColType>,
        keys: Vec<Vec<usize>>,
        order: Vec<OrderEntry>,
    ) -> Relation
        ensures { result ≡ record { name = string_bytes name; names = map string_bytes (arc_value names).items; types = types.items; keys = map (λ k. k.items) keys.items; order = order.items } }
    {
        Relation {
            name,
            names,
            types,
            keys,
            order,
        }
    }

    /// The name by which plans scan the relation. It is not empty.
    pub fn name(&self) -> &str
        ensures { result.now ≡ self.now.name }
    {
        self.name.as_str()
    }

    /// How many columns there are.
    pub fn width(&self) -> usize
        ensures { result ≡ length self.now.names }
    {
        self.names.len()
    }

    /// The names of the columns.
    pub fn names(&self) -> &[String]
        ensures { map string_bytes result.now ≡ self.now.names }
    {
        self.names.as_slice()
    }

    /// The names of the columns, to be shared by whatever has columns with these names.
    pub fn shared_names(&self) -> &Arc<Vec<String>>
        ensures { map string_bytes (arc_value result.now).items ≡ self.now.names }
    {
        &self.names
    }

    /// The number of the column of this name.
    pub fn column(&self, name: &str) -> Option<usize>
        ensures { result ≡ position (bytes_eq name.now) self.now.names }
    {
        find_name(self.names.as_slice(), name)
    }

    /// The type of a column, counted from 0.
    pub fn column_type(&self, column: usize) -> ColType
        requires { column < length self.now.types }
        ensures { result ≡ type_at self.now.types column }
    {
        self.types[column]
    }

    /// The types of the columns.
    pub fn types(&self) -> &[ColType]
        ensures { result.now ≡ self.now.types }
    {
        self.types.as_slice()
    }

    /// How many keys are declared, 16 at most.
    pub fn key_count(&self) -> usize
        ensures { result ≡ length self.now.keys }
    {
        self.keys.len()
    }

    /// The columns of a key, in the order in which the catalog names them.
    pub fn key(&self, key: usize) -> &[usize]
        requires { key < length self.now.keys }
        ensures { result.now ≡ slice_index_or self.now.keys key [] }
    {
        self.keys[key].as_slice()
    }

    /// The order in which the rows are sorted.
    pub fn order(&self) -> &[OrderEntry]
        ensures { result.now ≡ self.now.order }
    {
        self.order.as_slice()
    }

    /// Whether the other declares the same: a name in another place, or a key in another order, is a difference.
    pub fn is_same(&self, other: &Relation) -> bool
        ensures { IsTrue result ↔ (self.now ≡ other.now) }
    {
        if self.name.as_str() != other.name.as_str() {
            return false;
        }
        if !are_same_names(self.names.as_slice(), other.names.as_slice()) {
            return false;
        }
        if !are_same_types(self.types.as_slice(), other.types.as_slice()) {
            return false;
        }
        if !are_same_keys(self.keys.as_slice(), other.keys.as_slice()) {
            return false;
        }
        are_same_orders(self.order.as_slice(), other.order.as_slice())
    }
}
