//! The rows of the pieces of a text, each read by a thread of its own, behind the rows so far.

ghost use Rattle.std.specs.Prelude.{◌≡◌, ℕ, ◌+◌, ◌-◌, ◌<◌, ◌≤◌, ◌++◌, [], drop, length, true, List, Result, Option, None, All, IfErr, IfOk, OnOk, slice_index, slice_index_or, slice_set, vec_len};
ghost use Rattle.vx_rows.specs.Parts.{rows_of_all, HaveTypes};
ghost use Rattle.vx_rows_values.specs.Values.{Row};
ghost use Rattle.vx_rows_values.specs.declared.value.ColType.{ColType as Kind};
ghost use Rattle.vx_catalog_split.specs.Split.{is_unquoted};
ghost use Rattle.vx_catalog.specs.Loading.{Fails, Gives};
ghost use Rattle.vx_catalog_loading.specs.Pieces.{rows_of_text, fault_behind, piece_at, AreCuts, AreLinesRead, LinesFail, IsPieceRead, IsDrawn, AreDrawn, AreShared, ArePartsRead, ArePieces, Joined};
ghost use Rattle.vx_rows_values.specs.Limits.{max_rows};

use crate::cuts::cuts_of;
use csv::ReaderBuilder;
use std::alloc::{AllocError, Global};
use std::sync::atomic::{AtomicUsize, Ordering};
use std::thread::Threads;
use std::{mem, thread};
use vx_catalog::{LoadFault, read_sized_rows};
use vx_rows::Table;
use vx_rows_values::ColType;
use vx_rows_values::limits::MAX_ROWS;
use vx_rows_views::Rows;

/// Whether bytes have no quote.
pub fn is_unquoted(bytes: &[u8]) -> bool
    ensures { result ≡ is_unquoted bytes.now }
{
    !bytes.contains(&b'"')
}

/// The rows of the records of a piece.
pub fn read_piece(alloc: Global, types: &[ColType], piece: &[u8]) -> Result<Table, LoadFault>
    ensures types { IfOk result (λ r. r.types ≡ types.now) }
    ensures rows { Gives (λ r. r.rows) result (rows_of_text types.now [] piece.now) }
    ensures few { IfOk result (λ r. length r.rows ≤ max_rows) }
{
    let mut reader = ReaderBuilder::new()
        .has_headers(false)
        .flexible(true)
        .from_reader(alloc, piece);
    read_sized_rows(alloc, types, &mut reader, piece.len())
}

// What a piece is read as; none if it has a quote, since then it may end within a field.
fn read_unquoted(alloc: Global, types: &[ColType], piece: &[u8]) -> Option<Result<Table, LoadFault>>
    ensures { IsPieceRead types.now piece.now result }
{
    if is_unquoted(piece) {
        Some(read_piece(alloc, types, piece))
    } else {
        None
    }
}

// What one piece of a text is read as.
#[derive(Drop)]
pub(crate) struct PieceRead {
    piece: usize,
    read: Option<Result<Table, LoadFault>>,
}

// Reads the piece with this number.
fn read_at(alloc: Global, types: &[ColType], text: &[u8], cuts: &[usize], piece: usize) -> PieceRead
    requires cuts { AreCuts text.now cuts.now (length text.now) }
    requires near { piece + 1 < length cuts.now }
    ensures { IsDrawn types.now text.now cuts.now result }
{
    let read = read_unquoted(alloc, types, &text[cuts[piece]..cuts[piece + 1]]);
    PieceRead { piece, read }
}

// Reads the pieces that this thread draws: each time the next that no thread has drawn, until there is none. So no thread waits for a slower
// one while there are pieces left.
fn read_drawn(
    alloc: Global,
    types: &[ColType],
    text: &[u8],
    cuts: &[usize],
    next: &AtomicUsize,
) -> Result<Vec<PieceRead>, AllocError>
    requires { AreCuts text.now cuts.now (length text.now) }
    ensures { IfOk result (λ v. AreDrawn types.now text.now cuts.now v.items) }
{
    let mut reads = Vec::new(alloc);
    for _ in 1..cuts.len() {
        let piece = next.fetch_add(1, Ordering::SeqCst);
        if piece >= cuts.len() - 1 {
            break;
        }
        let read = read_at(alloc, types, text, cuts, piece);
        reads.push(read)?;
    }
    Ok(reads)
}

// So many pieces of which nothing is read.
fn unread(alloc: Global, count: usize) -> Result<Vec<Option<Result<Table, LoadFault>>>, AllocError>
    ensures len { IfOk result (λ v. vec_len v ≡ count) }
    ensures none { IfOk result (λ v. All (λ p. p ≡ None) v.items) }
{
    let mut parts = Vec::new(alloc);
    for _ in 0..count {
        parts.push(None)?;
    }
    Ok(parts)
}

// Puts what a piece was read as where the piece stands, if it does.
fn place(parts: &mut Vec<Option<Result<Table, LoadFault>>>, drawn: PieceRead)
    ensures len { vec_len parts.new ≡ vec_len parts.old }
    ensures there { drawn.piece < length parts.old.items → parts.new.items ≡ slice_set parts.old.items drawn.piece drawn.read }
    ensures beyond { length parts.old.items ≤ drawn.piece → parts.new.items ≡ parts.old.items }
{
    let PieceRead { piece, read } = drawn;
    if piece < parts.len() {
        let _unread = mem::replace(&mut parts[piece], read);
    }
}

// Puts what one thread read where its pieces stand.
fn place_reads(parts: &mut Vec<Option<Result<Table, LoadFault>>>, reads: Vec<PieceRead>)
    ensures len { vec_len parts.new ≡ vec_len parts.old }
    ensures read { (types : List Kind) (text cuts : List ℕ) → AreDrawn types text cuts reads.items → ArePartsRead types text cuts parts.old.items → ArePartsRead types text cuts parts.new.items }
{
    for drawn in reads {
        place(parts, drawn);
    }
}

// What all threads read, in the order of the pieces.
fn place_shares(
    alloc: Global,
    count: usize,
    shares: Vec<Result<Vec<PieceRead>, AllocError>>,
) -> Result<Vec<Option<Result<Table, LoadFault>>>, AllocError>
    ensures len { IfOk result (λ v. vec_len v ≡ count) }
    ensures read { IfOk result (λ v. (types : List Kind) (text cuts : List ℕ) → AreShared types text cuts shares.items → ArePartsRead types text cuts v.items) }
{
    let mut parts = unread(alloc, count)?;
    for share in shares {
        place_reads(&mut parts, share?);
    }
    Ok(parts)
}

// What each piece of a text is read as, by threads that draw one piece after the other.
fn read_pieces<P: Threads + Sync>(
    rt: &P,
    alloc: Global,
    threads: usize,
    types: &[ColType],
    text: &[u8],
    cuts: &[usize],
) -> Result<Vec<Option<Result<Table, LoadFault>>>, AllocError>
    requires { AreCuts text.now cuts.now (length text.now) }
    ensures len { IfOk result (λ v. vec_len v ≡ length cuts.now - 1) }
    ensures each { IfOk result (λ v. (i : ℕ) (d : _) → i + 1 < length cuts.now → IsPieceRead types.now (piece_at text.now cuts.now i) (slice_index_or v.items i d)) }
{
    let next = AtomicUsize::new(0);
    let shares = thread::map_indices(
        rt,
        alloc,
        threads,
        &|_thread: usize| -> Result<Vec<PieceRead>, AllocError>
            requires { AreCuts text.now cuts.now (length text.now) }
            ensures { IfOk result (λ v. AreDrawn types.entry.now text.entry.now cuts.entry.now v.items) }
        { read_drawn(alloc, types, text, cuts, &next) },
    )?;
    place_shares(alloc, cuts.len() - 1, shares)
}

/// The error of a piece with `n` rows before it: its row, if it has one, is shifted by `n`. It is `TooLarge` beyond the limit.
pub fn fault_of(n: usize, fault: LoadFault) -> LoadFault
    requires { n ≤ max_rows }
    ensures { result ≡ fault_behind n fault }
{
    match fault {
        LoadFault::BadWidth { row } if row < MAX_ROWS - n => LoadFault::BadWidth { row: n + row },
        LoadFault::BadInt { row, col } if row < MAX_ROWS - n => LoadFault::BadInt {
            row: n + row,
            col,
        },
        LoadFault::NotUtf8 { row } if row < MAX_ROWS - n => LoadFault::NotUtf8 { row: n + row },
        LoadFault::BadWidth { .. } | LoadFault::BadInt { .. } | LoadFault::NotUtf8 { .. } =>
            LoadFault::TooLarge,
        other => other,
    }
}

// The tables of `parts` before the first `None` (a piece with a quote), or the first error. An error's row is shifted by
// `before` and by the rows of the tables in front of it.
fn tables_of(
    alloc: Global,
    before: usize,
    parts: Vec<Option<Result<Table, LoadFault>>>,
) -> Result<Vec<Table>, LoadFault>
    requires { before ≤ max_rows }
    ensures few { IfOk result (λ v. before + length (rows_of_all v.items) ≤ max_rows) }
    ensures many { IfOk result (λ v. length v.items ≤ length parts.items) }
    ensures joined { IfOk result (λ v. (types : List Kind) (front : List Row) (left : ℕ → List ℕ) → length front ≡ before → ArePieces types parts.items left → Joined types front left v.items) }
    ensures err { IfErr result (λ e. (types : List Kind) (front : List Row) (left : ℕ → List ℕ) → length front ≡ before → ArePieces types parts.items left → Fails e (rows_of_text types front (left 0))) }
{
    let mut tables = Vec::new(alloc);
    let mut count = before;
    for part in parts {
        match part {
            None => return Ok(tables),
            Some(Err(fault)) => return Err(fault_of(count, fault)),
            Some(Ok(table)) => {
                if table.len() > MAX_ROWS - count {
                    return Err(LoadFault::TooLarge);
                }
                count += table.len();
                tables.push(table)?;
            }
        }
    }
    Ok(tables)
}

// Adds the rows of tables, of which each stays a piece of its own.
fn append_tables(alloc: Global, rows: &mut Rows, tables: Vec<Table>) -> Result<(), AllocError>
    requires { HaveTypes rows.old.types tables.items }
    ensures types { rows.new.types ≡ rows.old.types }
    ensures rows { OnOk result (rows.new.rows ≡ rows.old.rows ++ rows_of_all tables.items) }
{
    for table in tables {
        rows.append(Rows::of_table(alloc, table)?)?;
    }
    Ok(())
}

/// Adds the rows of `text` to `rows`, up to the first piece that has a quote, and returns how many bytes were read. The text is
/// cut into pieces, which the `threads` draw one after the other.
pub fn read_round<P: Threads + Sync>(
    rt: &P,
    alloc: Global,
    threads: usize,
    text: &[u8],
    rows: &mut Rows,
) -> Result<usize, LoadFault>
    requires threads { 0 < threads }
    requires few { length rows.old.rows ≤ max_rows }
    ensures types { rows.new.types ≡ rows.old.types }
    ensures few { OnOk result (length rows.new.rows ≤ max_rows) }
    ensures within { IfOk result (λ n. n ≤ length text.now) }
    ensures rows { IfOk result (λ n. AreLinesRead rows.old.types rows.old.rows text.now rows.new.rows (drop n text.now)) }
    ensures err { IfErr result (LinesFail rows.old.types rows.old.rows text.now) }
{
    let cuts = cuts_of(alloc, text, threads)?;
    let parts = read_pieces(rt, alloc, threads, rows.types(), text, cuts.as_slice())?;
    let tables = tables_of(alloc, rows.len(), parts)?;
    let read = tables.len();
    append_tables(alloc, rows, tables)?;
    Ok(cuts[read])
}
