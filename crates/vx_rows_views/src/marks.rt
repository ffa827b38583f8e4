//! Where chunks begin, so that a row far behind is found without a look at each chunk before it.

ghost use Rattle.std.specs.Prelude.{◌≡◌, ◌⊎◌, ◌≤◌, ◌+◌, ◌++◌, ℕ, List, Some, IfSome, slice_get, length, All};
ghost use Rattle.vx_rows.specs.View.{RowsView};
ghost use Rattle.vx_rows_views.specs.Chunks.{all_rows};
ghost use Rattle.vx_rows_views.specs.Marks.{IsMark, IsRest, first_mark};

use crate::chunk::Chunk;
use std::alloc::{AllocError, Global};
use std::marker::Model;

// How many chunks lie from one mark to the next, at least.
const APART: usize = 16;

/// Where a chunk begins.
#[derive(Clone, Copy)]
pub struct Mark {
    /// Its number: how many chunks stand before it.
    pub chunk: usize,
    /// How many rows stand before it.
    pub rows: usize,
}

/// Where some chunks begin, one behind the other. Mostly there are few chunks and so no marks, which take one word in the rows that have them.
pub struct Marks {
    listed: Option<Box<Vec<Mark>>>,
}

// By hand, so that it is proved here once, and not in each crate that drops rows.
impl Drop for Marks {
    fn drop(self) {
        let Marks { listed: _ } = self;
    }
}

impl Model for Marks {
    ghost use Rattle.std.specs.Prelude.{List};
    ghost use Rattle.vx_rows_views.specs.Marks.{marks_in};
    ghost use Rattle.vx_rows_views.specs.declared.marks.Mark.{Mark};

    ghost Value = { List Mark };

    ghost view = { λ m. marks_in m.listed };
}

impl Marks {
    ghost use Rattle.std.specs.Prelude.{◌++◌, ◌∷◌, [], OnOk, OnErr};

    /// No marks.
    pub fn new() -> Marks
        ensures { result ≡ [] }
    {
        Marks { listed: None }
    }

    /// The marks.
    pub fn as_slice(&self) -> &[Mark]
        ensures { result.now ≡ self.now }
    {
        match &self.listed {
            Some(marks) => marks.as_slice(),
            None => &[],
        }
    }

    // Adds a mark. After an `Err` they are as before.
    fn push(&mut self, alloc: Global, mark: Mark) -> Result<(), AllocError>
        ensures ok { OnOk result (self.new ≡ self.old ++ mark ∷ []) }
        ensures err { OnErr result (self.new ≡ self.old) }
    {
        match &mut self.listed {
            Some(marks) => {
                marks.push(mark)?;
                Ok(())
            }
            None => {
                let mut marks = Vec::new(alloc);
                marks.push(mark)?;
                self.listed = Some(Box::new(alloc, marks)?);
                Ok(())
            }
        }
    }
}

// The last of some rising marks with at most `row` rows before it. If there is none, it is where the first chunk begins.
fn last_mark(marks: &[Mark], row: usize) -> Mark
    ensures found { (result ≡ first_mark) ⊎ ((k : ℕ) × (slice_get marks.now k ≡ Some result)) }
    ensures before { result.rows ≤ row }
{
    let first = Mark { chunk: 0, rows: 0 };
    let behind = marks.partition_point(|mark| mark.rows <= row);
    let Some(place) = behind.checked_sub(1) else {
        return first;
    };
    let mark = marks[place];
    // so that no proof asks whether the marks rise
    if mark.rows <= row { mark } else { first }
}

/// The chunks from one on that begins at `row` or before it, and how many rows stand before them.
pub fn chunks_toward<'c>(chunks: &'c [Chunk], marks: &[Mark], row: usize) -> (&'c [Chunk], usize)
    requires { All (IsMark chunks.now) marks.now }
    ensures rest { IsRest chunks.now result.0.now result.1 }
    ensures before { result.1 ≤ row }
{
    let mark = last_mark(marks, row);
    (&chunks[mark.chunk..], mark.rows)
}

/// Notes where the next of some chunks begins, if the last mark is far from there.
pub fn mark_end(
    alloc: Global,
    marks: &mut Marks,
    chunks: &[Chunk],
    rows: usize,
) -> Result<(), AllocError>
    requires marks { All (IsMark chunks.now) marks.old }
    requires rows { rows ≡ length (all_rows chunks.now) }
    ensures { All (IsMark chunks.now) marks.new }
{
    let last = marks.as_slice().last().map_or(0, |mark| mark.chunk);
    if chunks.len() < last.saturating_add(APART) {
        return Ok(());
    }
    let mark = Mark {
        chunk: chunks.len(),
        rows,
    };
    marks.push(alloc, mark)
}

// The same mark, where so many chunks with so many rows come first.
fn behind(mark: Mark, chunks: usize, rows: usize) -> Option<Mark>
    ensures { IfSome result (λ m. (m.chunk ≡ chunks + mark.chunk) × (m.rows ≡ rows + mark.rows)) }
{
    Some(Mark {
        chunk: chunks.checked_add(mark.chunk)?,
        rows: rows.checked_add(mark.rows)?,
    })
}

/// Notes the marks of `others` too, which stand behind these chunks, as far as there is memory for them: rows are found without a mark as well.
pub fn add_marks(alloc: Global, marks: &mut Marks, others: &[Mark], chunks: usize, rows: usize)
    ensures { (xs ys : List RowsView) → chunks ≡ length xs → rows ≡ length (all_rows xs) → All (IsMark (xs ++ ys)) marks.old
        → All (IsMark ys) others.now → All (IsMark (xs ++ ys)) marks.new }
{
    for i in 0..others.len() {
        let Some(mark) = behind(others[i], chunks, rows) else {
            return;
        };
        let Ok(()) = marks.push(alloc, mark) else {
            return;
        };
    }
}
