//! A catalog found in the texts of its relations.

ghost use Rattle.std.specs.Prelude.{◌≡◌, ◌↔◌, ◌<◌, ℕ, List, map, length, string_bytes, Ok, IfOk, IfErr, IsTrue};
ghost use Rattle.vx_catalog_relations.specs.Relation.{Relation};
ghost use Rattle.vx_catalog_relations.specs.Catalog.{relation_at};
ghost use Rattle.vx_catalog_relations.specs.Naming.{catalog_text};
ghost use Rattle.vx_catalog.specs.Loading.{Fails, load_of};
ghost use Rattle.vx_catalog_finding.specs.Layout.{laid_out};
ghost use Rattle.vx_catalog_finding.specs.Finding.{text_of, text_at, all_found, Loads, IsFoundCatalog, AreNoCatalog, IsNotFound, IsHeaderCatalog, IsNoHeader};

use crate::fault::FindFault;
use crate::layout::laid_out;
use crate::relation::{FoundRelation, find_relation, header_relation};
use std::alloc::Global;
use std::thread::Threads;
use vx_catalog::LoadFault;
use vx_catalog_bytes::MemoryIn;
use vx_catalog_loading::load_in_threads;
use vx_catalog_relations::{Catalog, CatalogFault};

/// A relation's name and its text.
#[derive(Drop)]
pub struct NamedText<'a> {
    pub name: &'a str,
    pub text: Vec<u8>,
}

// The relation that is found in each text.
#[tactic(auto, using(crate::proofs::CatalogFacts::catalog_steps))]
fn find_relations(alloc: Global, texts: &[NamedText<'_>]) -> Result<Vec<FoundRelation>, FindFault>
    ensures ok { IfOk result (λ v. all_found (map text_of texts.now) ≡ map Ok v.items) }
    ensures refused { IfErr result (IsNotFound (map text_of texts.now)) }
{
    let mut relations = Vec::new(alloc);
    for i in 0..texts.len() {
        let text = &texts[i];
        match find_relation(alloc, text.name, text.text.as_slice()) {
            Ok(relation) => relations.push(relation)?,
            Err(fault) => return Err(FindFault::Load { text: i, fault }),
        }
    }
    Ok(relations)
}

// Whether a catalog has just these relations.
fn are_found(catalog: &Catalog, relations: &[FoundRelation]) -> bool
    ensures { IsTrue result ↔ (catalog.now ≡ relations.now) }
{
    if catalog.len() != relations.len() {
        return false;
    }
    for i in 0..relations.len() {
        if !relations[i].is_found(catalog.get(i)) {
            return false;
        }
    }
    true
}

// The catalog that the text of relations is read as. No proof says that it has just these relations, so that is tested.
fn read_back(
    alloc: Global,
    relations: &[FoundRelation],
    text: &str,
) -> Result<Catalog, CatalogFault>
    requires { text.now ≡ laid_out relations.now }
    ensures ok { IfOk result (λ c. c ≡ relations.now) }
    ensures read { IfOk result (λ c. catalog_text text.now ≡ Ok c) }
    ensures refused { IfErr result (AreNoCatalog relations.now) }
{
    let catalog = Catalog::read(alloc, text.as_bytes())?;
    if !are_found(&catalog, relations) {
        return Err(CatalogFault::BadCatalog);
    }
    Ok(catalog)
}

/// The catalog of one relation, of this name, with the columns in the header of a text. All of them are columns of texts.
#[tactic(auto, using(crate::proofs::CatalogFacts::header_steps))]
pub fn header_catalog(alloc: Global, name: &str, text: &[u8]) -> Result<Catalog, FindFault>
    ensures ok { IfOk result (IsHeaderCatalog (record { name = name.now; text = text.now })) }
    ensures refused { IfErr result (IsNoHeader (record { name = name.now; text = text.now })) }
{
    let relation = match header_relation(alloc, name, text) {
        Ok(relation) => relation,
        Err(fault) => return Err(FindFault::Load { text: 0, fault }),
    };
    let mut relations = Vec::new(alloc);
    relations.push(relation)?;
    let text = laid_out(alloc, relations.as_slice())?;
    Ok(read_back(alloc, relations.as_slice(), text.as_str())?)
}

// Loads a text as its relation, by up to `threads` threads: its rows meet all that the relation declares.
fn load_text<P: Threads + Sync>(
    rt: &P,
    alloc: Global,
    threads: usize,
    catalog: &Catalog,
    relation: usize,
    text: &[u8],
) -> Result<(), LoadFault>
    requires { relation < length catalog.now }
    ensures ok { IfOk result (λ _. Loads (relation_at catalog.now relation) text.now) }
    ensures refused { IfErr result (λ e. Fails e (load_of (relation_at catalog.now relation) text.now)) }
{
    let mut reader = MemoryIn::new(text, None);
    let loaded = load_in_threads(rt, alloc, catalog, relation, threads, &mut reader)?;
    let _rows = loaded.rows();
    Ok(())
}

// Loads each text as its relation in the catalog.
#[tactic(auto, using(crate::proofs::CatalogFacts::catalog_steps))]
fn load_all<P: Threads + Sync>(
    rt: &P,
    alloc: Global,
    threads: usize,
    catalog: &Catalog,
    texts: &[NamedText<'_>],
) -> Result<(), FindFault>
    requires { all_found (map text_of texts.now) ≡ map Ok catalog.now }
    ensures ok { IfOk result (λ _. (i : ℕ) → i < length texts.now → Loads (relation_at catalog.now i) (text_at (map text_of texts.now) i)) }
    ensures refused { IfErr result (IsNotFound (map text_of texts.now)) }
{
    for i in 0..texts.len() {
        let text = &texts[i];
        match load_text(rt, alloc, threads, catalog, i, text.text.as_slice()) {
            Ok(()) => {}
            Err(fault) => return Err(FindFault::Load { text: i, fault }),
        }
    }
    Ok(())
}

/// The text of the catalog that is found in texts of relations. Each text is loaded as its relation before the catalog is handed
/// out, by up to `threads` threads: so all that the catalog declares holds of the rows of these texts.
pub fn find_catalog<P: Threads + Sync>(
    rt: &P,
    alloc: Global,
    threads: usize,
    texts: &[NamedText<'_>],
) -> Result<String, FindFault>
    ensures found { IfOk result (λ text. (relations : List Relation) × IsFoundCatalog (map text_of texts.now) relations (string_bytes text)) }
    ensures refused { IfErr result (IsNotFound (map text_of texts.now)) }
{
    let relations = find_relations(alloc, texts)?;
    let text = laid_out(alloc, relations.as_slice())?;
    let catalog = read_back(alloc, relations.as_slice(), text.as_str())?;
    load_all(rt, alloc, threads, &catalog, texts)?;
    Ok(text)
}
