//! Databases.

ghost use Rattle.std.specs.Prelude.{◌≡◌, ◌≢◌, ◌<◌, ◌≤◌, [], map, length, IfOk, IfErr, OnOk, OnErr};
ghost use Rattle.vx_catalog_relations.specs.Relation.{Meets};
ghost use Rattle.vx_catalog_relations.specs.Catalog.{relation_at};
ghost use Rattle.vx_catalog.specs.Database.{rows_at, with_rows, IsDatabase, MeetsAll};
ghost use Rattle.vx_rows_values.specs.Limits.{max_rows};

use crate::loader::Loaded;
use std::alloc::{AllocError, Global};
use std::marker::Model;
use vx_catalog_relations::Catalog;
use vx_rows_values::KeySeed;
use vx_rows_views::Rows;

// No rows for each relation of a catalog.
fn empty_tables(alloc: Global, catalog: &Catalog) -> Result<Vec<Rows>, AllocError>
    ensures database { IfOk result (λ v. IsDatabase catalog.now v.items) }
    ensures empty { IfOk result (λ v. map (λ t. t.rows) v.items ≡ map (λ _. []) catalog.now) }
{
    let mut tables = Vec::new(alloc);
    for relation in 0..catalog.len() {
        tables.push(Rows::new(alloc, catalog.get(relation).types())?)?;
    }
    Ok(tables)
}

/// Rows for each relation of a catalog, 100,000,000 at most for each, which meet all that it declares. They are shared: runs read them in place.
pub struct Database {
    catalog: Catalog,
    tables: Vec<Rows>,
    seed: KeySeed,
}

// By hand, so that the drops of its parts are made and proved here once, and not again in each crate that drops one.
impl Drop for Database {
    fn drop(self) {
        let Database {
            catalog: _,
            tables: _,
            seed: _,
        } = self;
    }
}

impl Model for Database {
    ghost use Rattle.std.specs.Prelude.{map};
    ghost use Rattle.vx_catalog.specs.Database.{Database, IsDatabase};

    ghost Value = { Database };

    ghost view = { λ d. record { catalog = d.catalog; rows = map (λ t. t.rows) d.tables.items } };

    ghost invariant = { λ d. IsDatabase d.catalog d.tables.items };
}

impl Database {
    /// A database of a catalog, with every relation empty, and with the fixed seed.
    pub fn empty(alloc: Global, catalog: &Catalog) -> Result<Database, AllocError>
        ensures catalog { IfOk result (λ d. d.catalog ≡ catalog.now) }
        ensures empty { IfOk result (λ d. d.rows ≡ map (λ _. []) catalog.now) }
    {
        Ok(Database {
            catalog: catalog.share()?,
            tables: empty_tables(alloc, catalog)?,
            seed: KeySeed::fixed(),
        })
    }

    /// The same database, with a seed by which whoever reads it hashes keys.
    pub fn seeded(self, seed: KeySeed) -> Database
        ensures { result ≡ self }
    {
        let mut database = self;
        database.seed = seed;
        database
    }

    /// The seed by which whoever reads the database hashes keys. No answer depends on it.
    pub fn seed(&self) -> KeySeed {
        self.seed
    }

    /// The catalog whose relations these are. The rows of each meet all that it declares.
    pub fn catalog(&self) -> &Catalog
        ensures catalog { result.now ≡ self.now.catalog }
        ensures meets { MeetsAll self.now }
        ensures many { length self.now.rows ≡ length self.now.catalog }
    {
        &self.catalog
    }

    /// The rows of a relation, in the pieces in which they were read.
    pub fn rows(&self, relation: usize) -> &Rows
        requires { relation < length self.now.catalog }
        ensures types { result.now.types ≡ (relation_at self.now.catalog relation).types }
        ensures rows { result.now.rows ≡ rows_at self.now relation }
        ensures meets { Meets (relation_at self.now.catalog relation) result.now.rows }
        ensures few { length result.now.rows ≤ max_rows }
    {
        &self.tables[relation]
    }

    /// Replaces the rows of one relation by those that were loaded for this catalog.
    pub fn replace(&mut self, loaded: Loaded)
        requires { loaded.catalog ≡ self.old.catalog }
        ensures { self.new ≡ with_rows self.old loaded.relation loaded.rows }
    {
        let relation = loaded.relation();
        self.tables[relation] = loaded.into_rows();
    }

    /// Replaces the rows of one relation, after a test of their catalog. Rows of another catalog come back.
    pub fn put(&mut self, loaded: Loaded) -> Result<(), Loaded>
        ensures ok { OnOk result (self.new ≡ with_rows self.old loaded.relation loaded.rows) }
        ensures own { OnOk result (loaded.catalog ≡ self.old.catalog) }
        ensures err { OnErr result (self.new ≡ self.old) }
        ensures back { IfErr result (λ l. l ≡ loaded) }
        ensures other { OnErr result (loaded.catalog ≢ self.old.catalog) }
    {
        if !self.catalog.is_same(loaded.catalog()) {
            return Err(loaded);
        }
        self.replace(loaded);
        Ok(())
    }
}
