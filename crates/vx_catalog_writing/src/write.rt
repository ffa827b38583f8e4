//! The text of rows, made by several threads.

ghost use Rattle.std.specs.Prelude.{◌≡◌, ◌<◌, map, string_bytes, IfOk};
ghost use Rattle.vx_catalog.specs.Csv.{csv_text};

use crate::blocks::{cut_into_blocks, make_all_lines, with_lines};
use crate::lines::header_text;
use crate::text::Text;
use std::alloc::{AllocError, Global};
use std::thread::Threads;
use vx_rows_values::limits::MAX_THREADS;
use vx_rows_views::Rows;

// How many rows a block has: so many that few blocks have a small part of all rows, and that starting a thread costs less than their lines.
const BLOCK: usize = 4096;

/// How rows are shared out: how many threads make their text, and how many rows a block has, at least one.
#[derive(Clone, Copy, Debug)]
pub struct WriteShares {
    pub threads: usize,
    pub block: usize,
}

/// `format_in_threads`, where the caller says how the rows are shared out.
pub fn format_in_shares<P: Threads + Sync>(
    rt: &P,
    alloc: Global,
    shares: WriteShares,
    names: &[String],
    rows: Rows,
) -> Result<Text, AllocError>
    requires threads { 0 < shares.threads }
    requires block { 0 < shares.block }
    ensures { IfOk result (λ v. v.items ≡ csv_text (map string_bytes names.now) rows.rows) }
{
    let header = header_text(alloc, names, rows.types())?;
    let mut blocks = cut_into_blocks(alloc, rows, shares.block)?;
    make_all_lines(rt, alloc, shares.threads, names, blocks.as_mut_slice());
    with_lines(Text::from(header), blocks)
}

/// The text of rows, as `format_rows` makes it, by up to `threads` threads.
///
/// The rows are cut into blocks of some thousand. A thread makes the lines of blocks that follow one another, and lets go of the rows of each
/// once it has its lines: so the memory of tables that nobody else holds goes as the text grows.
pub fn format_in_threads<P: Threads + Sync>(
    rt: &P,
    alloc: Global,
    threads: usize,
    names: &[String],
    rows: Rows,
) -> Result<Text, AllocError>
    ensures { IfOk result (λ v. v.items ≡ csv_text (map string_bytes names.now) rows.rows) }
{
    let shares = WriteShares {
        threads: threads.clamp(1, MAX_THREADS),
        block: BLOCK,
    };
    format_in_shares(rt, alloc, shares, names, rows)
}
