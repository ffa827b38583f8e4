//! The files of a folder, which have the rows of relations.

ghost use Rattle.std.specs.Prelude.{◌≡◌, ◌<◌, length, true, false, IfOk, IfErr};
ghost use Rattle.vx_catalog_relations.specs.Catalog.{relation_at};
ghost use Rattle.vx_catalog_bytes.specs.Stored.{OpensAs};
ghost use Rattle.vx_catalog.specs.Folder.{path_in};
ghost use Rattle.volcano_tables.specs.Folder.{leads_out, LacksAt};

use crate::tables::Tables;
use std::alloc::Global;
use std::thread::Threads;
use volcano_refusals::Refusal;
use vx_catalog::{Loaded, Loader, path_in};
use vx_catalog_bytes::Store;
use vx_catalog_loading::load_in_threads;
use vx_catalog_relations::Catalog;

/// A folder with a text NAME.csv for each relation NAME.
#[derive(Clone, Copy)]
pub struct Folder<'f, F> {
    pub files: &'f F,
    pub path: &'f str,
}

// Whether a part of a relation's name between slashes is `..`, so that its file may lie outside the folder.
fn leads_out(name: &str) -> bool
    ensures { result ≡ leads_out name.now }
{
    name.split('/').any(|part| part == "..")
}

// Opens the file that has the text of a relation. A name that leads out of the folder is refused, and nothing is opened.
fn open_table<F: Store>(
    alloc: Global,
    folder: &Folder<'_, F>,
    catalog: &Catalog,
    relation: usize,
) -> Result<F::In, Refusal>
    requires { relation < length catalog.now }
    ensures bytes { IfOk result (λ file. OpensAs (F.holds folder.now.files.now (path_in folder.now.path.now (relation_at catalog.now relation).name)) (F.In.remaining file)) }
    ensures inside { IfOk result (λ _. leads_out (relation_at catalog.now relation).name ≡ false) }
    ensures whole { IfOk result (λ file. F.In.has_failed file ≡ false) }
    ensures reliable { IfOk result (λ file. F.is_reliable folder.now.files.now (path_in folder.now.path.now (relation_at catalog.now relation).name) ≡ true → F.In.is_reliable file ≡ true) }
    ensures refused { IfErr result (LacksAt (F.holds folder.now.files.now) (F.is_reliable folder.now.files.now) folder.now.path.now (relation_at catalog.now relation)) }
{
    let name = catalog.get(relation).name();
    let path = path_in(alloc, folder.path, name)?;
    if leads_out(name) {
        return Err(Refusal::FileUnreadable { path });
    }
    match folder.files.open(path.as_str()) {
        Some(file) => Ok(file),
        None => Err(Refusal::FileUnreadable { path }),
    }
}

impl<F: Store> Tables for Folder<'_, F> {
    ghost use Rattle.volcano_tables.specs.Folder.{holds_at, LacksAt};

    ghost holds = { λ f. holds_at (F.holds f.files.now) f.path.now };

    ghost lacks = { λ f. LacksAt (F.holds f.files.now) (F.is_reliable f.files.now) f.path.now };

    fn load(&self, alloc: Global, catalog: &Catalog, relation: usize) -> Result<Loaded, Refusal> {
        let mut file = open_table(alloc, self, catalog, relation)?;
        Ok(Loader::load(alloc, catalog, relation, &mut file)?)
    }

    fn load_in_threads<P: Threads + Sync>(
        &self,
        rt: &P,
        alloc: Global,
        threads: usize,
        catalog: &Catalog,
        relation: usize,
    ) -> Result<Loaded, Refusal> {
        let mut text = open_table(alloc, self, catalog, relation)?;
        Ok(load_in_threads(rt, alloc, catalog, relation, threads, &mut text)?)
    }
}
