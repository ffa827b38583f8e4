//! Rounds: threads read the lines that a buffer holds, while the bytes behind them come from a source.

ghost use Rattle.std.specs.Prelude.{◌≡◌, ◌≢◌, ◌⊎◌, ◌<◌, ◌≤◌, ◌++◌, ◌^◌, length, drop, take, true, false, Err, IfErr, IfOk, IfSome, OnOk, IsOkUnless, vec_len};
ghost use Rattle.std.specs.Io.KnownBytes.{IsAtEnd};
ghost use Rattle.std.specs.Thread.{IsSync};
ghost use Rattle.vx_catalog.specs.Counting.{StaysKnown};
ghost use Rattle.vx_catalog.specs.Loading.{Fails};
ghost use Rattle.vx_catalog_loading.specs.Pieces.{may_cut_before, rows_of_text, AreLinesRead, LinesFail};
ghost use Rattle.vx_catalog_loading.specs.Reading.{ComesFrom, Moves};
ghost use Rattle.vx_rows_values.specs.Limits.{max_rows};

use crate::buffer::{drop_front, fill};
use crate::cuts::last_cut;
use crate::pieces::read_round;
use std::alloc::{AllocError, Global};
use std::io::Read;
use std::mem;
use std::thread::{Threads, join_mut};
use vx_catalog::LoadFault;
use vx_rows_views::Rows;

/// How a text is shared out: how many threads read it, at least one, how many bytes each of them gets in a round, and how many
/// bytes the text has at least, if it is.
#[derive(Clone, Copy, Debug)]
pub struct ReadShares {
    pub threads: usize,
    pub block: usize,
    pub least: usize,
}

// How many bytes a buffer is to hold for the next round, if it holds `len` of a line that has not ended.
fn round_size(shares: ReadShares, len: usize) -> usize
    requires { len < 2 ^ 63 }
    ensures { len < result }
{
    let size = shares.threads.saturating_mul(shares.block).max(1);
    size.max(len.saturating_mul(2))
}

// Where a round ends in what a buffer holds: where the source does, or at the last line feed.
fn round_end(text: &[u8], is_at_end: bool) -> usize
    ensures within { result ≤ length text.now }
    ensures end { is_at_end ≡ true → result ≡ length text.now }
    ensures cut { is_at_end ≡ false → 0 < result → (result < length text.now) × (may_cut_before (drop result text.now) ≡ true) }
{
    if is_at_end {
        text.len()
    } else {
        last_cut(text)
    }
}

// The bytes that a round has of a source, and those behind them for the next round. `is_at_end`, if the source has no more.
#[derive(Drop)]
struct RoundBytes {
    held: Vec<u8>,
    next: Vec<u8>,
    is_at_end: bool,
}

impl RoundBytes {
    // Takes the bytes for the next round, behind those between `read` and `end`, which were not read.
    fn turn(&mut self, read: usize, end: usize) -> Result<(), AllocError>
        requires order { read ≤ end }
        requires there { end ≤ vec_len self.old.held }
        ensures held { OnOk result (self.new.held.items ≡ drop read (take end self.old.held.items) ++ self.old.next.items) }
        ensures end { self.new.is_at_end ≡ self.old.is_at_end }
    {
        if read == end {
            mem::swap(&mut self.held, &mut self.next);
            return Ok(());
        }
        self.held.truncate(end);
        drop_front(&mut self.held, read);
        self.held.extend_from_slice(self.next.as_slice())
    }
}

// Adds the rows of lines to `rows` by threads, as `read_round` does, while this thread reads the bytes behind `next` from a source.
// Returns how many bytes of the lines were read, and whether the source came to its end.
fn read_and_fill<P: Threads + Sync, S: Read>(
    rt: &P,
    alloc: Global,
    shares: ReadShares,
    lines: &[u8],
    rows: &mut Rows,
    source: &mut S,
    next: &mut Vec<u8>,
) -> (Result<usize, LoadFault>, Result<bool, LoadFault>)
    requires threads { 0 < shares.threads }
    requires few { length rows.old.rows ≤ max_rows }
    ensures types { rows.new.types ≡ rows.old.types }
    ensures few { OnOk result.0 (length rows.new.rows ≤ max_rows) }
    ensures within { IfOk result.0 (λ n. n ≤ length lines.now) }
    ensures rows { IfOk result.0 (λ n. AreLinesRead rows.old.types rows.old.rows lines.now rows.new.rows (drop n lines.now)) }
    ensures err { IfErr result.0 (LinesFail rows.old.types rows.old.rows lines.now) }
    ensures bytes { OnOk result.1 (Moves next.old.items (S.remaining source.old) next.new.items (S.remaining source.new)) }
    ensures end { IfOk result.1 (λ is_at_end. is_at_end ≡ true → IsAtEnd (S.remaining source.new)) }
    ensures failed { IsOkUnless result.1 LoadFault.NoMemory }
{
    let size = round_size(shares, next.len());
    join_mut(
        rt,
        &mut || -> Result<usize, LoadFault>
            requires { IsSync P.row × (0 < shares.threads) × (length rows.now.rows ≤ max_rows) }
        { read_round(rt, alloc, shares.threads, lines, rows) },
        &mut || fill(source, next, size),
    )
}

// One round: threads read the lines that are held, up to the last line feed or up to the first quote, and their rows are added to
// those so far. Beside this the bytes of the next round are read. Returns whether another round may follow.
fn next_round<P: Threads + Sync, S: Read>(
    rt: &P,
    alloc: Global,
    shares: ReadShares,
    source: &mut S,
    bytes: &mut RoundBytes,
    rows: &mut Rows,
) -> Result<bool, LoadFault>
    requires threads { 0 < shares.threads }
    requires few { length rows.old.rows ≤ max_rows }
    requires end { bytes.old.is_at_end ≡ true → IsAtEnd (S.remaining source.old) }
    ensures types { rows.new.types ≡ rows.old.types }
    ensures few { OnOk result (length rows.new.rows ≤ max_rows) }
    ensures rows { OnOk result (ComesFrom rows.old.types rows.old.rows bytes.old.held.items (S.remaining source.old) rows.new.rows bytes.new.held.items (S.remaining source.new)) }
    ensures end { OnOk result (bytes.new.is_at_end ≡ true → IsAtEnd (S.remaining source.new)) }
    ensures err { IfErr result (λ e. IfSome (S.remaining source.old) (λ left. Fails e (rows_of_text rows.old.types rows.old.rows (bytes.old.held.items ++ left)))) }
    ensures known { (result ≡ Err LoadFault.NoMemory) ⊎ StaysKnown (S.remaining source.old) (S.remaining source.new) }
    ensures own { IfErr result (λ e. e ≢ LoadFault.ReadFailed) }
{
    let was_at_end = bytes.is_at_end;
    let end = round_end(bytes.held.as_slice(), was_at_end);
    if end == 0 {
        let size = round_size(shares, bytes.held.len());
        bytes.is_at_end = fill(source, &mut bytes.held, size)?;
        return Ok(!was_at_end);
    }
    bytes.next.clear();
    bytes.next.extend_from_slice(&bytes.held[end..])?;
    let lines = &bytes.held[..end];
    let (read, filled) = read_and_fill(rt, alloc, shares, lines, rows, source, &mut bytes.next);
    bytes.is_at_end = filled?;
    let read = read?;
    bytes.turn(read, end)?;
    Ok(!was_at_end && read == end)
}

/// Reads what a buffer holds of a source, and what the source has left, by rounds, behind the rows so far, until the source is at
/// its end or a quote comes. One reader is to read what the buffer holds then, and what the source has left.
pub fn read_rounds<P: Threads + Sync, S: Read>(
    rt: &P,
    alloc: Global,
    shares: ReadShares,
    source: &mut S,
    buffer: &mut Vec<u8>,
    rows: &mut Rows,
) -> Result<(), LoadFault>
    requires threads { 0 < shares.threads }
    requires few { length rows.old.rows ≤ max_rows }
    ensures types { rows.new.types ≡ rows.old.types }
    ensures few { OnOk result (length rows.new.rows ≤ max_rows) }
    ensures rows { OnOk result (ComesFrom rows.old.types rows.old.rows buffer.old.items (S.remaining source.old) rows.new.rows buffer.new.items (S.remaining source.new)) }
    ensures err { IfErr result (λ e. IfSome (S.remaining source.old) (λ left. Fails e (rows_of_text rows.old.types rows.old.rows (buffer.old.items ++ left)))) }
    ensures known { (result ≡ Err LoadFault.NoMemory) ⊎ StaysKnown (S.remaining source.old) (S.remaining source.new) }
    ensures own { IfErr result (λ e. e ≢ LoadFault.ReadFailed) }
{
    let mut bytes = RoundBytes {
        held: mem::replace(buffer, Vec::new(alloc)),
        next: Vec::new(alloc),
        is_at_end: false,
    };
    for _ in 0..u64::MAX {
        if !next_round(rt, alloc, shares, source, &mut bytes, rows)? {
            break;
        }
    }
    *buffer = bytes.held;
    Ok(())
}
