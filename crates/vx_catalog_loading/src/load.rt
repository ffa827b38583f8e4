//! A relation's rows from its text, by several threads.

ghost use Rattle.std.specs.Prelude.{◌≡◌, ◌≢◌, ◌<◌, ◌≤◌, length, true, false, IfOk, IfSome, IsErrOf, IfErr};
ghost use Rattle.vx_catalog_relations.specs.Relation.{Meets};
ghost use Rattle.vx_catalog_relations.specs.Catalog.{relation_at, IsRelation};
ghost use Rattle.vx_catalog.specs.Loading.{Gives, tested, load_of};
ghost use Rattle.vx_rows_values.specs.Limits.{max_rows};

use crate::rounds::ReadShares;
use crate::text::{Finished, read_in_threads};
use std::alloc::Global;
use std::marker::Brand;
use std::thread::Threads;
use vx_catalog::{Lent, LimitedReader, LoadFault, Loaded, Loader, Origin, test_rows};
use vx_catalog_bytes::ByteIn;
use vx_catalog_relations::{Catalog, Relation};
use vx_rows_values::limits::MAX_THREADS;
use vx_rows_views::Rows;

// How many bytes a round has, for all threads together. In longer rounds threads wait less for each other, and more bytes are held.
const ROUND: usize = 16 << 20;

// A text of fewer bytes is read by one thread, since starting threads costs more than they save.
const LEAST: usize = 4 << 20;

// Tests rows that a table has. That they fit its types, the table says itself.
fn test_read(alloc: Global, relation: &Relation, rows: Rows) -> Result<Rows, LoadFault>
    requires relation { IsRelation relation.now }
    requires types { rows.types ≡ relation.now.types }
    ensures same { IfOk result (λ r. r ≡ rows) }
    ensures rows { Gives (λ r. r.rows) result (tested relation.now rows.rows) }
    ensures meets { IfOk result (λ r. Meets relation.now r.rows) }
{
    let _types = rows.types();
    test_rows(alloc, relation, rows)
}

// Loads the rows of a relation from a port into `loaded`, and returns the port: otherwise nothing would be known of it.
// All bytes of the port are read before any error but NoMemory is returned. A failure of the port goes before whatever
// was loaded; the port itself says whether it failed.
fn load_text<'p, P: Threads + Sync, R: ByteIn, T: Origin>(
    rt: &P,
    alloc: Global,
    relation: &Relation,
    shares: ReadShares,
    port: &'p mut R,
    loaded: &mut Result<Rows, LoadFault>,
) -> Lent<'p, R>
    requires threads { 0 < shares.threads }
    requires text { R.remaining port.now ≡ T.text }
    requires whole { T.is_reliable ≡ true → (R.is_reliable port.now ≡ true) × (R.has_failed port.now ≡ false) }
    requires same { port.ghost_name ≡ T.name }
    requires relation { IsRelation relation.now }
    ensures types { IfOk loaded.new (λ r. r.types ≡ relation.now.types) }
    ensures rows { IfSome T.text (λ bytes. Gives (λ r. r.rows) loaded.new (load_of relation.now bytes)) }
    ensures meets { IfOk loaded.new (λ r. Meets relation.now r.rows) }
    ensures few { IfOk loaded.new (λ r. length r.rows ≤ max_rows) }
    ensures own { IfErr loaded.new (λ e. e ≢ LoadFault.ReadFailed) }
    ensures same { result.port.ghost_name ≡ port.entry.ghost_name }
    ensures reliable { T.is_reliable ≡ true → R.has_failed result.port.now ≡ false }
{
    let counted = LimitedReader::<R, T>::new(port);
    let Finished { read, mut source } = read_in_threads(rt, alloc, relation, shares, counted);
    let tested = match source.settle(read) {
        Ok(rows) => test_read(alloc, relation, rows),
        Err(fault) => Err(fault),
    };
    *loaded = tested;
    source.into_lent()
}

/// `load_in_threads`, where the caller says how the text is shared out.
pub fn load_in_shares<P: Threads + Sync, R: ByteIn>(
    rt: &P,
    alloc: Global,
    catalog: &Catalog,
    relation: usize,
    shares: ReadShares,
    reader: &mut R,
) -> Result<Loaded, LoadFault>
    requires there { relation < length catalog.now }
    requires threads { 0 < shares.threads }
    ensures known { R.has_failed reader.new ≡ false → IfSome (R.remaining reader.old) (λ bytes. Gives (λ l. l.rows) result (load_of (relation_at catalog.now relation) bytes)) }
    ensures catalog { IfOk result (λ l. l.catalog ≡ catalog.now) }
    ensures relation { IfOk result (λ l. l.relation ≡ relation) }
    ensures failed { IsErrOf result LoadFault.ReadFailed → R.has_failed reader.new ≡ true }
    ensures broken { R.has_failed reader.new ≡ true → IsErrOf result LoadFault.ReadFailed }
    ensures reliable { R.is_reliable reader.old ≡ true → R.has_failed reader.old ≡ false → R.has_failed reader.new ≡ false }
{
    let mut read = Err(LoadFault::NoMemory);
    let lent = load_text::<P, R, Brand>(
        rt,
        alloc,
        catalog.get(relation),
        shares,
        reader,
        &mut read,
    );
    if lent.port.failed() {
        return Err(LoadFault::ReadFailed);
    }
    Ok(Loaded::new(catalog, relation, read?)?)
}

/// Reads the rows of a relation of a catalog from all bytes of `reader`, in up to `threads` threads. It returns what
/// `Loader::load` returns, which one thread calls.
///
/// A text of less than 4 MB is read by one thread. A longer one is read by rounds of 16 MB or more, in which the longest line has room.
/// In a round threads draw pieces of its lines and read each into a table of its rows, while one reads the bytes of the next round.
/// From the first piece with a quote on one thread reads the rest, since a line feed within quotes ends no row.
pub fn load_in_threads<P: Threads + Sync, R: ByteIn>(
    rt: &P,
    alloc: Global,
    catalog: &Catalog,
    relation: usize,
    threads: usize,
    reader: &mut R,
) -> Result<Loaded, LoadFault>
    requires { relation < length catalog.now }

    // Of a reader whose bytes are known and that did not fail: these rows, or the first error.
    ensures known { R.has_failed reader.new ≡ false → IfSome (R.remaining reader.old) (λ bytes. Gives (λ l. l.rows) result (load_of (relation_at catalog.now relation) bytes)) }
    ensures catalog { IfOk result (λ l. l.catalog ≡ catalog.now) }
    ensures relation { IfOk result (λ l. l.relation ≡ relation) }

    // C10 comes only where the reader failed, and then nothing else does.
    ensures failed { IsErrOf result LoadFault.ReadFailed → R.has_failed reader.new ≡ true }
    ensures broken { R.has_failed reader.new ≡ true → IsErrOf result LoadFault.ReadFailed }

    // A reader that is known never to fail has not failed.
    ensures reliable { R.is_reliable reader.old ≡ true → R.has_failed reader.old ≡ false → R.has_failed reader.new ≡ false }
{
    if threads < 2 {
        return Loader::load(alloc, catalog, relation, reader);
    }
    let threads = threads.min(MAX_THREADS);
    let shares = ReadShares {
        threads,
        block: ROUND / threads,
        least: LEAST,
    };
    load_in_shares(rt, alloc, catalog, relation, shares, reader)
}
