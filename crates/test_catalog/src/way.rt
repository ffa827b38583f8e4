//! Ways to share work out among threads.

ghost use Rattle.std.specs.Prelude.{◌<◌, length};

use std::alloc::{AllocError, Global};
use std::thread::Threads;
use vx_catalog::{LoadFault, Loaded};
use vx_catalog_bytes::{MemoryIn, Real};
use vx_catalog_loading::{ReadShares, load_in_shares, load_in_threads};
use vx_catalog_relations::Catalog;
use vx_catalog_writing::{WriteShares, format_in_shares, format_in_threads};
use vx_rows_views::Rows;

// How much a thread gets in a round: `block` bytes of a text of at least `least` bytes, or `rows` rows to be written.
#[derive(Clone, Copy)]
struct Sizes {
    block: usize,
    least: usize,
    rows: usize,
}

/// How many threads there are, and how much each gets in a round, if that is not what the program gives it.
#[derive(Clone, Copy)]
pub struct Way {
    threads: usize,
    sizes: Option<Sizes>,
}

// Three sizes, as `1 8 2`.
fn sizes_of(text: &str) -> Option<Sizes> {
    let (block, rest) = text.split_once(' ')?;
    let (least, rows) = rest.split_once(' ')?;
    Some(Sizes {
        block: block.parse::<usize>().ok()?,
        least: least.parse::<usize>().ok()?,
        rows: rows.parse::<usize>().ok()?,
    })
}

impl Way {
    /// The way that the text `text` says: `4` of four threads, or `4 1 8 2`, with `block`, `least` and `rows` behind it.
    pub fn of(text: &str) -> Option<Way> {
        let Some((threads, sizes)) = text.split_once(' ') else {
            let threads = text.parse::<usize>().ok()?;
            return Some(Way {
                threads,
                sizes: None,
            });
        };
        Some(Way {
            threads: threads.parse::<usize>().ok()?,
            sizes: Some(sizes_of(sizes)?),
        })
    }

    /// Loads the rows of relation 0 of the catalog `catalog` from the reader `reader` in this way.
    pub fn load<R: Threads + Sync>(
        self,
        rt: &R,
        alloc: Global,
        catalog: &Catalog,
        reader: &mut MemoryIn<'_>,
    ) -> Result<Loaded, LoadFault>
        requires { 0 < length catalog.now }
    {
        let Some(sizes) = self.sizes else {
            return load_in_threads(rt, alloc, catalog, 0, self.threads, reader);
        };
        let shares = ReadShares {
            threads: self.threads.max(1),
            block: sizes.block,
            least: sizes.least,
        };
        load_in_shares(rt, alloc, catalog, 0, shares, reader)
    }

    /// Makes the text of the rows `rows` under the names `names` in this way.
    pub fn format<R: Threads + Sync>(
        self,
        rt: &R,
        alloc: Global,
        names: &[String],
        rows: &Rows,
    ) -> Result<Vec<u8>, AllocError> {
        let rows = rows.slice(alloc, 0, rows.len())?;
        let text = match self.sizes {
            None => format_in_threads(rt, alloc, self.threads, names, rows)?,
            Some(sizes) => {
                let shares = WriteShares {
                    threads: self.threads.max(1),
                    block: sizes.rows.max(1),
                };
                format_in_shares(rt, alloc, shares, names, rows)?
            }
        };
        let mut bytes = Vec::new(alloc);
        match text.write_to(&mut Real::new(&mut bytes)) {
            Ok(()) => Ok(bytes),
            Err(_) => Err(AllocError),
        }
    }
}
