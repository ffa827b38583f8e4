//! Catalogs.

ghost use Rattle.std.specs.Prelude.{◌≡◌, ◌↔◌, ◌<◌, length, position, bytes_eq, IfOk, IsTrue};
ghost use Rattle.serde_json.specs.View.{view};
ghost use Rattle.vx_catalog_relations.specs.Catalog.{relation_at, IsRelation, IsCatalog};
ghost use Rattle.vx_catalog_relations.specs.Naming.{Gives, catalog_of, catalog_text, CatalogLaw};

use crate::fault::CatalogFault;
use crate::form::read_catalog;
use crate::naming::{is_within_limits, relations_of};
use crate::relation::Relation;
use serde_json::{Category, Value};
use std::alloc::{AllocError, Global};
use std::marker::Model;
use std::sync::Arc;
use vx_rows_values::OrderEntry;

// The relations of a catalog, which its handles share.
#[derive(Drop)]
struct Relations {
    list: Vec<Relation>,
}

impl Model for Relations {
    ghost use Rattle.std.specs.Prelude.{List};
    ghost use Rattle.vx_catalog_relations.specs.Relation.{Relation};
    ghost use Rattle.vx_catalog_relations.specs.Catalog.{IsCatalog};

    ghost Value = { List Relation };

    ghost view = { λ r. r.list.items };

    ghost invariant = { λ r. IsCatalog r.list.items };
}

impl Relations {
    fn as_slice(&self) -> &[Relation]
        ensures value { result.now ≡ self.now }
        ensures fine { IsCatalog self.now }
    {
        self.list.as_slice()
    }
}

/// What is known of relations before their rows are: at most 256 relations, with names of their own.
///
/// Keys and orders name columns of their relations, each once. A catalog is a handle: `share` makes another on the same relations.
pub struct Catalog {
    relations: Arc<Relations>,
}

// By hand, so that the drops of its parts are made and proved here once, and not again in each crate that drops one.
impl Drop for Catalog {
    fn drop(self) {
        let Catalog { relations: _ } = self;
    }
}

impl Model for Catalog {
    ghost use Rattle.std.specs.Prelude.{List};
    ghost use Rattle.std.specs.Arc.{arc_value};
    ghost use Rattle.vx_catalog_relations.specs.Relation.{Relation};

    ghost Value = { List Relation };

    ghost view = { λ c. arc_value c.relations };
}

// Whether these are the same relations in the same order.
fn are_same(relations: &[Relation], others: &[Relation]) -> bool
    ensures { IsTrue result ↔ (relations.now ≡ others.now) }
{
    if relations.len() != others.len() {
        return false;
    }
    for i in 0..relations.len() {
        if !relations[i].is_same(&others[i]) {
            return false;
        }
    }
    true
}

// The number of the first relation of this name.
fn position_of(relations: &[Relation], name: &str) -> Option<usize>
    ensures { result ≡ position (λ r. bytes_eq name.now r.name) relations.now }
{
    relations.iter().position(|r| name == r.name())
}

impl Catalog {
    // A catalog of relations that keep its rules.
    fn of_list(alloc: Global, list: Vec<Relation>) -> Result<Catalog, AllocError>
        requires { IsCatalog list.items }
        ensures { IfOk result (λ c. c ≡ list.items) }
    {
        match Arc::new(alloc, Relations { list }) {
            Ok(relations) => Ok(Catalog { relations }),
            Err(_) => Err(AllocError),
        }
    }

    /// The catalog that a JSON value is. Its form comes first, then its limits, then its names,
    /// relation by relation: its name, the names of its columns, its keys and its order.
    #[tactic(auto, unfolding(crate::specs::Naming::catalog_of), using(crate::proofs::SameFacts::misread_fails))]
    pub fn of_value(alloc: Global, value: &Value) -> Result<Catalog, CatalogFault>
        ensures { Gives (λ c. c) result (catalog_of (view value.now)) }
    {
        let texts = read_catalog(alloc, value)?;
        if !is_within_limits(texts.as_slice()) {
            return Err(CatalogFault::TooLarge);
        }
        let relations = relations_of(alloc, texts.as_slice())?;
        Ok(Catalog::of_list(alloc, relations)?)
    }

    /// The catalog that a JSON text is.
    #[tactic(auto, unfolding(crate::specs::Naming::catalog_text))]
    pub fn read(alloc: Global, bytes: &[u8]) -> Result<Catalog, CatalogFault>
        ensures { Gives (λ c. c) result (catalog_text bytes.now) }
    {
        match Value::from_slice(alloc, bytes) {
            Ok(value) => Catalog::of_value(alloc, &value),
            Err(e) => match e.classify() {
                Category::Memory => Err(CatalogFault::NoMemory),
                _ => Err(CatalogFault::BadCatalog),
            },
        }
    }

    /// How many relations there are. They keep all limits of a catalog.
    pub fn len(&self) -> usize
        ensures count { result ≡ length self.now }
        ensures fine { IsCatalog self.now }
    {
        self.as_slice().len()
    }

    /// Whether there is no relation.
    pub fn is_empty(&self) -> bool
        ensures { IsTrue result ↔ (length self.now ≡ 0) }
    {
        self.as_slice().is_empty()
    }

    /// The relation with this number, counted from 0.
    pub fn get(&self, relation: usize) -> &Relation
        requires { relation < length self.now }
        ensures value { result.now ≡ relation_at self.now relation }
        ensures fine { IsRelation result.now }
    {
        &self.as_slice()[relation]
    }

    /// The declared order of the relation with this number; past the end the empty one.
    pub fn order_of(&self, relation: usize) -> &[OrderEntry]
        ensures { result.now ≡ (relation_at self.now relation).order }
    {
        if relation < self.len() {
            self.get(relation).order()
        } else {
            &[]
        }
    }

    /// The number of the relation of this name.
    pub fn find(&self, name: &str) -> Option<usize>
        ensures { result ≡ position (λ r. bytes_eq name.now r.name) self.now }
    {
        position_of(self.as_slice(), name)
    }

    /// Whether the other has the same relations in the same order.
    pub fn is_same(&self, other: &Catalog) -> bool
        ensures { IsTrue result ↔ (self.now ≡ other.now) }
    {
        are_same(self.as_slice(), other.as_slice())
    }

    /// Another handle on the same relations. Only 2^63 handles would make it fail.
    pub fn share(&self) -> Result<Catalog, AllocError>
        ensures { IfOk result (λ c. c ≡ self.now) }
    {
        let relations = Arc::try_clone(&self.relations)?;
        Ok(Catalog { relations })
    }

    fn as_slice(&self) -> &[Relation]
        ensures value { result.now ≡ self.now }
        ensures fine { IsCatalog self.now }
    {
        self.relations.as_slice()
    }
}

/// The law of reading: what is read as a catalog is one, with the names, keys and orders that the value says, and
/// every catalog is read of each value that says it. It does nothing.
pub fn catalogs_are_read_exactly()
    ensures { CatalogLaw }
{}
