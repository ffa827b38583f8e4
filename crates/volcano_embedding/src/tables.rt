//! The texts of tables, which have the rows of relations.

ghost use Rattle.std.specs.Prelude.{◌≡◌, ◌<◌, length, map, option_map, bytes_eq, IfOk};
ghost use Rattle.std.specs.List.{find};
ghost use Rattle.vx_catalog_relations.specs.Catalog.{relation_at};
ghost use Rattle.vx_catalog.specs.Loading.{Gives, load_of};
ghost use Rattle.volcano_tables.specs.Texts.{text_of};
ghost use Rattle.volcano_embedding.specs.Texts.{table_form};

use std::alloc::Global;
use volcano_refusals::Refusal;
use volcano_tables::Tables;
use vx_catalog::{LoadFault, Loaded, Loader};
use vx_catalog_bytes::MemoryIn;
use vx_catalog_relations::Catalog;

/// The text of a table.
#[derive(Drop)]
pub struct TableText {
    pub name: Vec<u8>,
    pub text: Vec<u8>,
}

/// Texts of tables. Of two texts of one table the first counts.
#[derive(Clone, Copy)]
pub(crate) struct TextTables<'t> {
    pub(crate) texts: &'t [TableText],
}

// The first text of this name.
fn find_table<'t>(tables: &'t [TableText], name: &str) -> Option<&'t TableText>
    ensures { option_map (λ t. t.now) result ≡ find (λ t. bytes_eq t.name.items name.now) tables.now }
{
    tables.iter().find(|t| t.name.as_slice() == name.as_bytes())
}

/// The text of the table of this name.
pub(crate) fn table<'t>(tables: &'t [TableText], name: &str) -> Option<&'t [u8]>
    ensures { option_map (λ t. t.now) result ≡ text_of name.now (map table_form tables.now) }
{
    match find_table(tables, name) {
        Some(table) => Some(table.text.as_slice()),
        None => None,
    }
}

// The rows of a relation from its text.
fn load_text(
    alloc: Global,
    catalog: &Catalog,
    relation: usize,
    text: &[u8],
) -> Result<Loaded, LoadFault>
    requires { relation < length catalog.now }
    ensures rows { Gives (λ l. l.rows) result (load_of (relation_at catalog.now relation) text.now) }
    ensures catalog { IfOk result (λ l. l.catalog ≡ catalog.now) }
    ensures relation { IfOk result (λ l. l.relation ≡ relation) }
{
    let mut reader = MemoryIn::new(text, None);
    Loader::load(alloc, catalog, relation, &mut reader)
}

impl Tables for TextTables<'_> {
    ghost use Rattle.std.specs.Prelude.{map};
    ghost use Rattle.volcano_tables.specs.Texts.{holds_in, lacks_in};
    ghost use Rattle.volcano_embedding.specs.Texts.{table_form};

    ghost holds = { λ s. holds_in (map table_form s.texts.now) };

    ghost lacks = { λ s. lacks_in (map table_form s.texts.now) };

    fn load(&self, alloc: Global, catalog: &Catalog, relation: usize) -> Result<Loaded, Refusal> {
        let name = catalog.get(relation).name();
        let Some(text) = table(self.texts, name) else {
            let name = String::from_str(alloc, name)?;
            return Err(Refusal::NoTable { name });
        };
        Ok(load_text(alloc, catalog, relation, text)?)
    }
}
