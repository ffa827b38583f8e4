//! Blocks of rows, the lines of which are made by several threads.

ghost use Rattle.std.specs.Prelude.{◌≡◌, ◌+◌, ◌<◌, ◌≤◌, ◌++◌, length, flat_map, IfSome, IfOk, All};
ghost use Rattle.vx_catalog_writing.specs.Blocks.{lines_text, rows_of_blocks, lines_in, HaveLines, IsMade};

use crate::lines::Lines;
use crate::text::Text;
use std::alloc::{AllocError, Global};
use std::thread;
use std::thread::Threads;
use vx_rows_views::Rows;

/// Rows until their lines are made, and then these lines.
#[derive(Drop)]
pub struct Block {
    rows: Rows,
    lines: Option<Lines>,
}

impl Block {
    // Makes the lines, and lets go of the rows. If memory runs out there are no lines.
    fn make_lines(&mut self, alloc: Global, names: &[String])
        ensures { IfSome self.new.lines (λ l. l ≡ lines_text self.old.rows.rows) }
    {
        self.lines = Lines::of(alloc, names, &self.rows).ok();
        self.rows.clear();
    }

    // The lines, if they were made.
    fn into_lines(self) -> Option<Lines>
        ensures { result ≡ self.lines }
    {
        let Block { rows: _, lines } = self;
        lines
    }
}

/// These rows in blocks of `size`, of which the last may have fewer.
pub fn cut_into_blocks(alloc: Global, rows: Rows, size: usize) -> Result<Vec<Block>, AllocError>
    requires { 0 < size }
    ensures { IfOk result (λ v. rows_of_blocks v.items ≡ rows.rows) }
{
    let len = rows.len();
    let mut blocks = Vec::with_capacity(alloc, len.div_ceil(size))?;
    let mut from = 0;
    'cut: while from < len {
        let to = from + size.min(len - from);
        blocks.push(Block {
            rows: rows.slice(alloc, from, to)?,
            lines: None,
        })?;
        from = to;
    }
    Ok(blocks)
}

/// Makes the lines of all blocks by up to `threads` threads, each of which gets blocks that follow one another. The rows of a block go once its
/// lines are made.
pub fn make_all_lines<P: Threads + Sync>(
    rt: &P,
    alloc: Global,
    threads: usize,
    names: &[String],
    blocks: &mut [Block],
)
    requires { 0 < threads }
    ensures many { length blocks.new ≡ length blocks.old }
    ensures lines { HaveLines blocks.old blocks.new }
{
    thread::for_each_mut(
        rt,
        blocks,
        threads,
        &|_: usize, block: &mut Block|
            ensures { IfSome block.new.lines (λ l. l ≡ lines_text block.old.rows.rows) }
        { block.make_lines(alloc, names) },
    );
}

/// A text with the lines of all blocks behind it, unless memory ran out where some were made.
pub fn with_lines(text: Text, blocks: Vec<Block>) -> Result<Text, AllocError>
    ensures made { IfOk result (λ _. All IsMade blocks.items) }
    ensures lines { IfOk result (λ t. t.items ≡ text.items ++ flat_map lines_in blocks.items) }
{
    let mut text = text;
    for block in blocks {
        let Some(lines) = block.into_lines() else {
            return Err(AllocError);
        };
        text.push(lines)?;
    }
    Ok(text)
}
