//! The texts of a call, as files.

ghost use Rattle.vx_catalog_bytes.specs.Stored.{silent};
ghost use Rattle.std.specs.Prelude.{None, false};

use crate::tables::{TableText, table};
use volcano_locations::{Reason, Reasons};
use vx_catalog_bytes::{Broken, ByteIn, MemoryIn, Store};

/// The path of the catalog.
pub(crate) const CATALOG: &str = "catalog";

/// The path of the plan.
pub(crate) const PLAN: &str = "plan";

/// The folder of the tables.
pub(crate) const TABLES: &str = "tables";

/// A text of a call that is read. Clauses know nothing of its bytes, as of those of a file.
#[derive(Drop)]
pub struct TextIn<'t> {
    text: MemoryIn<'t>,
}

impl ByteIn for TextIn<'_> {
    ghost remaining = { λ _. None };

    ghost has_failed = { λ t. t.text.broken };

    ghost is_reliable = { λ _. false };

    fn read(&mut self, buf: &mut [u8]) -> Result<usize, Broken> {
        self.text.read(buf)
    }

    fn failed(&self) -> bool {
        self.text.failed()
    }
}

/// The texts of a call, as files: `catalog`, `plan`, and `tables/NAME.csv` for each table.
#[derive(Clone, Copy)]
pub struct CallTexts<'t> {
    pub catalog: &'t [u8],
    pub plan: &'t [u8],
    pub tables: &'t [TableText],
}

// The table that the path of its file names.
fn name_in(path: &str) -> Option<&str> {
    let name = path.strip_prefix(TABLES)?;
    name.strip_prefix("/")?.strip_suffix(".csv")
}

impl<'t> Store for CallTexts<'t> {
    type In = TextIn<'t>;

    ghost holds = { λ _ _. silent };

    ghost is_reliable = { λ _ _. false };

    fn open(&self, path: &str) -> Option<TextIn<'t>> {
        let text = match path {
            CATALOG => self.catalog,
            PLAN => self.plan,
            _ => table(self.tables, name_in(path)?)?,
        };
        Some(TextIn {
            text: MemoryIn::new(text, None),
        })
    }
}

impl Reasons for CallTexts<'_> {
    fn reason(&self, _path: &str) -> Option<Reason> {
        None
    }

    fn is_regular(&self, _path: &str) -> bool {
        true
    }
}
