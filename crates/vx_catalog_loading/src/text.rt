//! The rows of a whole text, by several threads.

ghost use Rattle.std.specs.Prelude.{◌≡◌, ◌≢◌, ◌⊎◌, ℕ, ◌<◌, ◌≤◌, ◌++◌, [], List, Option, length, Ok, Err, IfErr, IfOk, IfSome, option_map};
ghost use Rattle.csv.specs.Reading.{source_of};
ghost use Rattle.vx_catalog.specs.Counting.{StaysKnown};
ghost use Rattle.vx_catalog.specs.Records.{IsPlain, rest_of};
ghost use Rattle.vx_catalog.specs.Loading.{Fails, Gives, rows_onto};
ghost use Rattle.vx_catalog_loading.specs.Pieces.{behind};
ghost use Rattle.vx_catalog_loading.specs.Reading.{rows_under, BeginsFrom};
ghost use Rattle.vx_rows_values.specs.Limits.{max_rows};

use crate::buffer::{drop_front, fill};
use crate::cuts::first_cut;
use crate::first_line::read_first_line;
use crate::pieces::{fault_of, is_unquoted};
use crate::rounds::{ReadShares, read_rounds};
use csv::{Reader, ReaderBuilder};
use std::alloc::Global;
use std::io::Read;
use std::thread::Threads;
use vx_catalog::{LoadFault, read_rows, read_text};
use vx_catalog_relations::Relation;
use vx_rows::Table;
use vx_rows_values::limits::MAX_ROWS;
use vx_rows_views::Rows;

// Takes the first line of a text out of a buffer, and returns its rows. None, if threads may not read what follows it, since it
// does not end here, or has a quote or no record: then nothing is taken.
fn take_first_line(
    alloc: Global,
    relation: &Relation,
    buffer: &mut Vec<u8>,
) -> Result<Option<Table>, LoadFault>
    ensures types { IfOk result (λ first. IfSome first (λ t. t.types ≡ relation.now.types)) }
    ensures few { IfOk result (λ first. IfSome first (λ t. length t.rows ≤ max_rows)) }

    // Whatever follows the buffer.
    ensures rows { IfOk result (λ first. (left : Option (List ℕ)) → BeginsFrom relation.now buffer.old.items left (option_map (λ t. t.rows) first) buffer.new.items left) }
    ensures err { IfErr result (λ e. (left : List ℕ) → Fails e (rows_under relation.now (buffer.old.items ++ left))) }
{
    let end = first_cut(buffer.as_slice());
    if end == buffer.len() || !is_unquoted(&buffer[..end]) {
        return Ok(None);
    }
    let Some(rows) = read_first_line(alloc, relation, &buffer[..end])? else {
        return Ok(None);
    };
    drop_front(buffer, end);
    Ok(Some(rows))
}

// Reads a text up to what one reader is to read: what the buffer holds then, and what the source has left. That is all of the
// text, if no rows are returned.
fn read_front<P: Threads + Sync, S: Read>(
    rt: &P,
    alloc: Global,
    relation: &Relation,
    shares: ReadShares,
    source: &mut S,
    buffer: &mut Vec<u8>,
) -> Result<Option<Rows>, LoadFault>
    requires { 0 < shares.threads }
    ensures types { IfOk result (λ front. IfSome front (λ t. t.types ≡ relation.now.types)) }
    ensures few { IfOk result (λ front. IfSome front (λ t. length t.rows ≤ max_rows)) }
    ensures rows { IfOk result (λ front. BeginsFrom relation.now buffer.old.items (S.remaining source.old) (option_map (λ t. t.rows) front) buffer.new.items (S.remaining source.new)) }
    ensures err { IfErr result (λ e. IfSome (S.remaining source.old) (λ left. Fails e (rows_under relation.now (buffer.old.items ++ left)))) }
    ensures known { (result ≡ Err LoadFault.NoMemory) ⊎ StaysKnown (S.remaining source.old) (S.remaining source.new) }
    ensures own { IfErr result (λ e. e ≢ LoadFault.ReadFailed) }
{
    if fill(source, buffer, shares.least)? {
        return Ok(None);
    }
    let Some(first) = take_first_line(alloc, relation, buffer)? else {
        return Ok(None);
    };
    let mut rows = Rows::of_table(alloc, first)?;
    read_rounds(rt, alloc, shares, source, buffer, &mut rows)?;
    Ok(Some(rows))
}

// Rows behind others, if there are not too many.
#[tactic(auto, unfolding(crate::specs::Pieces::behind))]
fn join(alloc: Global, front: Rows, rest: Table) -> Result<Rows, LoadFault>
    requires types { rest.types ≡ front.types }
    requires few { length front.rows ≤ max_rows }
    requires rest { length rest.rows ≤ max_rows }
    ensures types { IfOk result (λ r. r.types ≡ front.types) }
    ensures few { IfOk result (λ r. length r.rows ≤ max_rows) }
    ensures rows { Gives (λ r. r.rows) result (behind front.rows (Ok rest.rows)) }
{
    if rest.len() > MAX_ROWS - front.len() {
        return Err(LoadFault::TooLarge);
    }
    let mut all = front;
    all.append(Rows::of_table(alloc, rest)?)?;
    Ok(all)
}

// The rows of the records that a reader has left, behind others.
fn read_rest<S: Read>(alloc: Global, front: Rows, reader: &mut Reader<S>) -> Result<Rows, LoadFault>
    requires plain { IsPlain reader.old }
    requires few { length front.rows ≤ max_rows }
    ensures types { IfOk result (λ r. r.types ≡ front.types) }
    ensures few { IfOk result (λ r. length r.rows ≤ max_rows) }
    ensures rows { IfSome (rest_of S.remaining reader.old) (λ records. Gives (λ r. r.rows) result (rows_onto front.types front.rows records)) }
    ensures known { (result ≡ Err LoadFault.NoMemory) ⊎ StaysKnown (source_of S.remaining reader.old) (source_of S.remaining reader.new) }
    ensures own { IfErr result (λ e. e ≢ LoadFault.ReadFailed) }
{
    match read_rows(alloc, front.types(), reader) {
        Ok(rest) => join(alloc, front, rest),
        Err(fault) => Err(fault_of(front.len(), fault)),
    }
}

/// What was read of a source, and the source.
#[derive(Drop)]
pub struct Finished<S> {
    pub read: Result<Rows, LoadFault>,
    pub source: S,
}

// One reader reads the bytes that are held and what the source has left, behind the rows so far: if there are none, with the header.
fn finish<S: Read + Drop>(
    alloc: Global,
    relation: &Relation,
    front: Option<Rows>,
    held: &[u8],
    source: S,
) -> Finished<S>
    requires types { IfSome front (λ t. t.types ≡ relation.now.types) }
    requires few { IfSome front (λ t. length t.rows ≤ max_rows) }
    ensures types { IfOk result.read (λ r. r.types ≡ relation.now.types) }
    ensures few { IfOk result.read (λ r. length r.rows ≤ max_rows) }
    ensures rows { (left : Option (List ℕ)) → BeginsFrom relation.now [] left (option_map (λ t. t.rows) front) held.now (S.remaining source)
        → IfSome left (λ text. Gives (λ r. r.rows) result.read (rows_under relation.now text)) }
    ensures known { (result.read ≡ Err LoadFault.NoMemory) ⊎ StaysKnown (S.remaining source) (S.remaining result.source) }
    ensures own { IfErr result.read (λ e. e ≢ LoadFault.ReadFailed) }
{
    let mut reader = ReaderBuilder::new()
        .has_headers(false)
        .flexible(true)
        .from_reader(alloc, held.chain(source));
    let read = match front {
        Some(rows) => read_rest(alloc, rows, &mut reader),
        None => read_text(alloc, relation, &mut reader),
    };
    let (_, source) = reader.into_inner().into_inner();
    Finished { read, source }
}

/// The rows under the header of the text that a source has left, by threads. It also fails with NoMemory if the source failed.
pub fn read_in_threads<P: Threads + Sync, S: Read + Drop>(
    rt: &P,
    alloc: Global,
    relation: &Relation,
    shares: ReadShares,
    source: S,
) -> Finished<S>
    requires { 0 < shares.threads }
    ensures types { IfOk result.read (λ r. r.types ≡ relation.now.types) }
    ensures few { IfOk result.read (λ r. length r.rows ≤ max_rows) }
    ensures rows { IfSome (S.remaining source) (λ text. Gives (λ r. r.rows) result.read (rows_under relation.now text)) }
    ensures known { (result.read ≡ Err LoadFault.NoMemory) ⊎ StaysKnown (S.remaining source) (S.remaining result.source) }
    ensures own { IfErr result.read (λ e. e ≢ LoadFault.ReadFailed) }
{
    let mut left = source;
    let mut buffer = Vec::new(alloc);
    match read_front(rt, alloc, relation, shares, &mut left, &mut buffer) {
        Ok(front) => finish(alloc, relation, front, buffer.as_slice(), left),
        Err(fault) => Finished {
            read: Err(fault),
            source: left,
        },
    }
}
