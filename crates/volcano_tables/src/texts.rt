//! The texts of a bundle, which have the rows of relations.

ghost use Rattle.std.specs.Prelude.{◌≡◌, ◌<◌, length, IfOk};
ghost use Rattle.vx_catalog_relations.specs.Catalog.{relation_at};
ghost use Rattle.vx_catalog.specs.Loading.{Gives, load_of};

use crate::tables::Tables;
use std::alloc::Global;
use std::thread::Threads;
use volcano_bundle::Bundle;
use volcano_refusals::Refusal;
use vx_catalog::{LoadFault, Loaded, Loader};
use vx_catalog_bytes::MemoryIn;
use vx_catalog_loading::load_in_threads;
use vx_catalog_relations::Catalog;

// The rows of a relation from its text.
fn load_text(
    alloc: Global,
    catalog: &Catalog,
    relation: usize,
    text: &str,
) -> Result<Loaded, LoadFault>
    requires { relation < length catalog.now }
    ensures rows { Gives (λ l. l.rows) result (load_of (relation_at catalog.now relation) text.now) }
    ensures catalog { IfOk result (λ l. l.catalog ≡ catalog.now) }
    ensures relation { IfOk result (λ l. l.relation ≡ relation) }
{
    let mut reader = MemoryIn::new(text.as_bytes(), None);
    Loader::load(alloc, catalog, relation, &mut reader)
}

// The same rows, read by up to `threads` threads.
fn load_text_in_threads<P: Threads + Sync>(
    rt: &P,
    alloc: Global,
    threads: usize,
    catalog: &Catalog,
    relation: usize,
    text: &str,
) -> Result<Loaded, LoadFault>
    requires { relation < length catalog.now }
    ensures rows { Gives (λ l. l.rows) result (load_of (relation_at catalog.now relation) text.now) }
    ensures catalog { IfOk result (λ l. l.catalog ≡ catalog.now) }
    ensures relation { IfOk result (λ l. l.relation ≡ relation) }
{
    let mut reader = MemoryIn::new(text.as_bytes(), None);
    load_in_threads(rt, alloc, catalog, relation, threads, &mut reader)
}

impl Tables for Bundle<'_> {
    ghost use Rattle.volcano_bundle.specs.BundleView.{bundle_form};
    ghost use Rattle.volcano_tables.specs.Texts.{holds_in, lacks_in};

    ghost holds = { λ b. holds_in (bundle_form b).tables };

    ghost lacks = { λ b. lacks_in (bundle_form b).tables };

    fn load(&self, alloc: Global, catalog: &Catalog, relation: usize) -> Result<Loaded, Refusal> {
        let name = catalog.get(relation).name();
        let Some(text) = self.table(name) else {
            let name = String::from_str(alloc, name)?;
            return Err(Refusal::NoTable { name });
        };
        Ok(load_text(alloc, catalog, relation, text)?)
    }

    fn load_in_threads<P: Threads + Sync>(
        &self,
        rt: &P,
        alloc: Global,
        threads: usize,
        catalog: &Catalog,
        relation: usize,
    ) -> Result<Loaded, Refusal> {
        let name = catalog.get(relation).name();
        let Some(text) = self.table(name) else {
            let name = String::from_str(alloc, name)?;
            return Err(Refusal::NoTable { name });
        };
        let loaded = load_text_in_threads(rt, alloc, threads, catalog, relation, text)?;
        Ok(loaded)
    }
}
