//! Where a text is cut.

ghost use Rattle.std.specs.Prelude.{◌≡◌, ◌<◌, ◌≤◌, drop, length, true, IfOk};
ghost use Rattle.vx_catalog_loading.specs.Pieces.{may_cut_before, AreCuts};

use std::alloc::{AllocError, Global};

// The most pieces of a text for each thread.
const MOST_PIECES: usize = 16;

// The first line feed from a place on, or the end of the text.
fn next_cut(text: &[u8], from: usize) -> usize
    requires { from ≤ length text.now }
    ensures after { from ≤ result }
    ensures within { result ≤ length text.now }
    ensures cut { may_cut_before (drop result text.now) ≡ true }
{
    for i in from..text.len() {
        if text[i] == b'\n' {
            return i;
        }
    }
    text.len()
}

/// The first line feed of a text that is not its first byte, or the end of the text.
pub fn first_cut(text: &[u8]) -> usize
    ensures within { result ≤ length text.now }
    ensures cut { may_cut_before (drop result text.now) ≡ true }
{
    next_cut(text, text.len().min(1))
}

/// The last line feed of a text that is not its first byte, or 0 if there is none.
pub fn last_cut(text: &[u8]) -> usize
    ensures within { result ≤ length text.now }
    ensures cut { 0 < result → (result < length text.now) × (may_cut_before (drop result text.now) ≡ true) }
{
    for place in (1..text.len()).rev() {
        if text[place] == b'\n' {
            return place;
        }
    }
    0
}

/// The beginnings of the pieces of a text, and its end. A piece has half of what each of the threads would get of the rest, or more where
/// that is little or a line is long. So the pieces become shorter, and threads that draw them end at about the same time.
pub fn cuts_of(alloc: Global, text: &[u8], threads: usize) -> Result<Vec<usize>, AllocError>
    requires { 0 < threads }
    ensures { IfOk result (λ v. AreCuts text.now v.items (length text.now)) }
{
    let most = threads.saturating_mul(MOST_PIECES).max(1);
    let shares = threads.saturating_mul(2).max(1);
    let least = text.len() / most + 1;
    let mut cuts = Vec::new(alloc);
    cuts.push(0)?;
    let mut last = 0usize;
    for _ in 1..most {
        let step = least.max((text.len() - last) / shares);
        let next = next_cut(text, text.len().min(last.saturating_add(step)));
        if next == text.len() {
            break;
        }
        cuts.push(next)?;
        last = next;
    }
    cuts.push(text.len())?;
    Ok(cuts)
}
