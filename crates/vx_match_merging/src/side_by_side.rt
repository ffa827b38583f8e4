//! Rows of two inputs side by side, without copying a cell.

ghost use Rattle.std.specs.Prelude.{◌≡◌, ◌<◌, ◌≤◌, ◌+◌, ◌-◌, ◌++◌, ℕ, length, map, slice_range, OnOk, IfOk};
ghost use Rattle.vx_rows.specs.View.{RowsView, row, ArePositions};
ghost use Rattle.vx_match_merging.specs.Merged.{beside, rows_at};

use std::alloc::{AllocError, Global};
use vx_rows_views::{Chunk, Rows};

/// Places of rows of two inputs that belong together: the first of both, then the second, and so on.
#[derive(Drop)]
pub(crate) struct MatchedPositions {
    pub left: Vec<usize>,
    pub right: Vec<usize>,
}

// Adds the place of a left row with each right place from `from` up to `to`.
pub(crate) fn add_pairs(
    pairs: &mut MatchedPositions,
    place: usize,
    from: usize,
    to: usize,
) -> Result<(), AllocError>
    requires many { length pairs.old.left.items ≡ length pairs.old.right.items }
    requires order { from ≤ to }
    ensures many { OnOk result (length pairs.new.left.items ≡ length pairs.new.right.items) }
    ensures count { OnOk result (length pairs.new.left.items ≡ length pairs.old.left.items + (to - from)) }
    ensures left { OnOk result ((n : ℕ) → place < n → ArePositions n pairs.old.left.items → ArePositions n pairs.new.left.items) }
    ensures right { OnOk result ((n : ℕ) → to ≤ n → ArePositions n pairs.old.right.items → ArePositions n pairs.new.right.items) }
    ensures rows { OnOk result ((a b : RowsView) → to ≤ length b.rows
        → rows_at a b pairs.new.left.items pairs.new.right.items ≡ rows_at a b pairs.old.left.items pairs.old.right.items ++ map (λ r. row a place ++ r) (slice_range b.rows from to)) }
{
    for other in from..to {
        pairs.left.push(place)?;
        pairs.right.push(other)?;
    }
    Ok(())
}

/// The rows at pairs of places.
pub(crate) fn pair_rows(
    alloc: Global,
    left: &Rows,
    right: &Rows,
    pairs: &MatchedPositions,
) -> Result<Rows, AllocError>
    requires many { length pairs.now.left.items ≡ length pairs.now.right.items }
    requires left { ArePositions (length left.now.rows) pairs.now.left.items }
    requires right { ArePositions (length right.now.rows) pairs.now.right.items }
    ensures types { IfOk result (λ r. r.types ≡ left.now.types ++ right.now.types) }
    ensures rows { IfOk result (λ r. r.rows ≡ rows_at left.now right.now pairs.now.left.items pairs.now.right.items) }
    ensures count { IfOk result (λ r. length r.rows ≡ length pairs.now.left.items) }
{
    let left = left.at(alloc, pairs.left.as_slice())?;
    let right = right.at(alloc, pairs.right.as_slice())?;
    side_by_side(alloc, &left, &right)
}

// Equally many rows of two inputs side by side: the first of both, then the second, and so on.
fn side_by_side(alloc: Global, left: &Rows, right: &Rows) -> Result<Rows, AllocError>
    requires many { length left.now.rows ≡ length right.now.rows }
    ensures types { IfOk result (λ r. r.types ≡ left.now.types ++ right.now.types) }
    ensures rows { IfOk result (λ r. r.rows ≡ beside left.now.rows right.now.rows) }
{
    let mut types = Vec::from_slice(alloc, left.types())?;
    types.extend_from_slice(right.types())?;
    let mut joined = Rows::new(alloc, types.as_slice())?;
    let _count = right.len();
    let chunks = left.chunks();
    let mut from = 0;
    for i in 0..chunks.len() {
        let chunk = &chunks[i];
        let to = from + chunk.len();
        let part = right.slice(alloc, from, to)?;
        push_beside(alloc, &mut joined, chunk, &part)?;
        from = to;
    }
    Ok(joined)
}

/// Adds the rows of a chunk, each with the right row beside it: the first of both, then the second, and so on. No cell is
/// copied.
pub fn push_beside(
    alloc: Global,
    joined: &mut Rows,
    left: &Chunk,
    right: &Rows,
) -> Result<(), AllocError>
    requires many { length left.now.rows ≡ length right.now.rows }
    requires types { joined.old.types ≡ left.now.types ++ right.now.types }
    ensures types { joined.new.types ≡ joined.old.types }
    ensures rows { OnOk result (joined.new.rows ≡ joined.old.rows ++ beside left.now.rows right.now.rows) }
{
    let _count = left.len();
    let chunks = right.chunks();
    let mut from = 0;
    for i in 0..chunks.len() {
        let chunk = &chunks[i];
        let to = from + chunk.len();
        joined.push(chunks_beside(alloc, left, from, to, chunk)?)?;
        from = to;
    }
    Ok(())
}

// The rows of a chunk from `from` up to `to`, beside all rows of another.
fn chunks_beside(
    alloc: Global,
    left: &Chunk,
    from: usize,
    to: usize,
    right: &Chunk,
) -> Result<Chunk, AllocError>
    requires order { from ≤ to }
    requires there { to ≤ length left.now.rows }
    requires many { length right.now.rows ≡ to - from }
    ensures types { IfOk result (λ c. c.types ≡ left.now.types ++ right.now.types) }
    ensures rows { IfOk result (λ c. c.rows ≡ beside (slice_range left.now.rows from to) right.now.rows) }
{
    let left = left.slice(alloc, from, to)?;
    let right = right.share(alloc)?;
    Chunk::beside(left, right)
}
