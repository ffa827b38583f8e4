//! Texts that lie one after another.

ghost use Rattle.std.specs.Prelude.{◌≡◌, ℕ, ◌+◌, ◌-◌, ◌^◌, ◌<◌, ◌≤◌, [], length, slice_index, slice_index_or, slice_range, true, OnOk, IfOk};
ghost use Rattle.std.specs.Str.{IsUtf8, is_utf8};
ghost use Rattle.vx_rows.specs.View.{ArePositions};
ghost use Rattle.vx_rows.specs.Texts.{piece, AreCuts, AreMoved, Rise};

use std::alloc::{AllocError, Global};
use std::marker::Model;

// The text in a part of these bytes.
fn text_of(bytes: &[u8], from: usize, to: usize) -> &str
    requires rise { from ≤ to }
    requires within { to ≤ length bytes.now }
    requires utf8 { IsUtf8 (slice_range bytes.now from to) }
    ensures { result.now ≡ slice_range bytes.now from to }
{
    unsafe { std::str::from_utf8_unchecked(&bytes[from..to]) }
}

// Adds the cuts of other texts, moved to where their bytes now lie.
fn push_cuts(
    cuts: &mut Vec<usize>,
    at: usize,
    other_cuts: &[usize],
    from: usize,
    to: usize,
) -> Result<(), AllocError>
    requires last { length cuts.old.items ≡ at + 1 }
    requires order { from ≤ to }
    requires far { to < length other_cuts.now }
    requires rise { Rise other_cuts.now }
    requires fits { slice_index cuts.old.items at + (slice_index other_cuts.now to - slice_index other_cuts.now from) < 2 ^ 64 }
    ensures moved { AreMoved cuts.old.items other_cuts.now cuts.new.items at from to }
    ensures ok { OnOk result (length cuts.new.items ≡ at + 1 + (to - from)) }
{
    let start = cuts[at];
    let first = other_cuts[from];
    for i in from..to {
        cuts.push(start + (other_cuts[i + 1] - first))?;
    }
    Ok(())
}

// Leaves the first `at` texts, and adds those of another from `from` up to `to`.
fn splice(
    bytes: &mut Vec<u8>,
    cuts: &mut Vec<usize>,
    at: usize,
    others: &[u8],
    other_cuts: &[usize],
    from: usize,
    to: usize,
) -> Result<(), AllocError>
    requires old { AreCuts bytes.old.items cuts.old.items }
    requires other { AreCuts others.now other_cuts.now }
    requires near { at < length cuts.old.items }
    requires order { from ≤ to }
    requires far { to < length other_cuts.now }
    ensures cuts { AreCuts bytes.new.items cuts.new.items }
    ensures kept { (k : ℕ) → k < at → piece bytes.new.items cuts.new.items k ≡ piece bytes.old.items cuts.old.items k }
    ensures long { at < length cuts.new.items }
    ensures ok { OnOk result ((k : ℕ) → k < to - from → piece bytes.new.items cuts.new.items (at + k) ≡ piece others.now other_cuts.now (from + k)) }
    ensures ok_long { OnOk result (length cuts.new.items ≡ at + 1 + (to - from)) }
{
    let start = cuts[at];
    bytes.truncate(start);
    cuts.truncate(at + 1);
    bytes.extend_from_slice(&others[other_cuts[from]..other_cuts[to]])?;
    push_cuts(cuts, at, other_cuts, from, to)
}

// Leaves the first `at` texts, and adds one.
fn put_text(
    bytes: &mut Vec<u8>,
    cuts: &mut Vec<usize>,
    at: usize,
    text: &str,
) -> Result<(), AllocError>
    requires old { AreCuts bytes.old.items cuts.old.items }
    requires near { at < length cuts.old.items }
    ensures cuts { AreCuts bytes.new.items cuts.new.items }
    ensures kept { (k : ℕ) → k < at → piece bytes.new.items cuts.new.items k ≡ piece bytes.old.items cuts.old.items k }
    ensures long { at < length cuts.new.items }
    ensures ok { OnOk result (piece bytes.new.items cuts.new.items at ≡ text.now) }
    ensures ok_long { OnOk result (length cuts.new.items ≡ at + 2) }
{
    let start = cuts[at];
    bytes.truncate(start);
    cuts.truncate(at + 1);
    bytes.extend_from_slice(text.as_bytes())?;
    cuts.push(bytes.len())?;
    Ok(())
}

// Leaves the first `at` texts.
fn cut_back(bytes: &mut Vec<u8>, cuts: &mut Vec<usize>, at: usize)
    requires old { AreCuts bytes.old.items cuts.old.items }
    requires near { at < length cuts.old.items }
    ensures cuts { AreCuts bytes.new.items cuts.new.items }
    ensures kept { (k : ℕ) → k < at → piece bytes.new.items cuts.new.items k ≡ piece bytes.old.items cuts.old.items k }
    ensures long { length cuts.new.items ≡ at + 1 }
{
    let start = cuts[at];
    bytes.truncate(start);
    cuts.truncate(at + 1);
}

/// Texts in UTF-8 that lie one after another in one list of bytes.
#[derive(Drop)]
pub struct Texts {
    bytes: Vec<u8>,
    cuts: Vec<usize>,
}

impl Model for Texts {
    ghost use Rattle.std.specs.Prelude.{List, ℕ};
    ghost use Rattle.vx_rows.specs.Texts.{pieces, AreCuts};

    ghost Value = { List (List ℕ) };

    ghost view = { λ t. pieces t.bytes.items t.cuts.items };

    ghost invariant = { λ t. AreCuts t.bytes.items t.cuts.items };
}

impl Texts {
    /// No texts.
    pub(crate) fn new(alloc: Global) -> Result<Texts, AllocError>
        ensures { IfOk result (λ t. t ≡ []) }
    {
        let mut cuts = Vec::new(alloc);
        cuts.push(0)?;
        Ok(Texts {
            bytes: Vec::new(alloc),
            cuts,
        })
    }

    /// How many texts there are.
    pub fn len(&self) -> usize
        ensures { result ≡ length self.now }
    {
        self.cuts.len() - 1
    }

    /// The text at a position.
    pub fn get(&self, i: usize) -> &str
        requires { i < length self.now }
        ensures { result.now ≡ slice_index_or self.now i [] }
    {
        text_of(self.bytes.as_slice(), self.cuts[i], self.cuts[i + 1])
    }

    /// Leaves the first `at` texts, and adds one, which is in UTF-8 as any `str` is.
    pub(crate) fn put(&mut self, at: usize, text: &str) -> Result<(), AllocError>
        requires { at ≤ length self.old }
        ensures held { is_utf8 text.now ≡ true }
        ensures kept { (k : ℕ) → k < at → slice_index_or self.new k [] ≡ slice_index_or self.old k [] }
        ensures long { at ≤ length self.new }
        ensures ok { OnOk result (slice_index_or self.new at [] ≡ text.now) }
        ensures ok_long { OnOk result (length self.new ≡ at + 1) }
    {
        put_text(&mut self.bytes, &mut self.cuts, at, text)
    }

    /// Leaves the first `at` texts, and adds those of another from `from` up to `to`.
    pub(crate) fn put_range(
        &mut self,
        at: usize,
        other: &Texts,
        from: usize,
        to: usize,
    ) -> Result<(), AllocError>
        requires room { at ≤ length self.old }
        requires order { from ≤ to }
        requires there { to ≤ length other.now }
        ensures kept { (k : ℕ) → k < at → slice_index_or self.new k [] ≡ slice_index_or self.old k [] }
        ensures long { at ≤ length self.new }
        ensures ok { OnOk result ((k : ℕ) → k < to - from → slice_index_or self.new (at + k) [] ≡ slice_index_or other.now (from + k) []) }
        ensures ok_long { OnOk result (length self.new ≡ at + (to - from)) }
    {
        splice(
            &mut self.bytes,
            &mut self.cuts,
            at,
            other.bytes.as_slice(),
            other.cuts.as_slice(),
            from,
            to,
        )
    }

    /// Leaves the first `at` texts, and adds those of another at some positions, in their order.
    pub(crate) fn put_at(
        &mut self,
        at: usize,
        other: &Texts,
        positions: &[usize],
    ) -> Result<(), AllocError>
        requires room { at ≤ length self.old }
        requires there { ArePositions (length other.now) positions.now }
        ensures kept { (k : ℕ) → k < at → slice_index_or self.new k [] ≡ slice_index_or self.old k [] }
        ensures long { at ≤ length self.new }
        ensures ok { OnOk result ((k : ℕ) → k < length positions.now → slice_index_or self.new (at + k) [] ≡ slice_index_or other.now (slice_index positions.now k) []) }
        ensures ok_long { OnOk result (at + length positions.now ≤ length self.new) }
    {
        for j in 0..positions.len() {
            put_text(
                &mut self.bytes,
                &mut self.cuts,
                at + j,
                other.get(positions[j]),
            )?;
        }
        Ok(())
    }

    /// Keeps the first `at` texts.
    pub(crate) fn truncate(&mut self, at: usize)
        requires { at ≤ length self.old }
        ensures kept { (k : ℕ) → k < at → slice_index_or self.new k [] ≡ slice_index_or self.old k [] }
        ensures long { length self.new ≡ at }
    {
        cut_back(&mut self.bytes, &mut self.cuts, at);
    }

    /// Reserves room for `additional` more texts, but not for their bytes.
    pub(crate) fn reserve(&mut self, additional: usize) -> Result<(), AllocError>
        ensures { self.new ≡ self.old }
    {
        self.cuts.reserve(additional)
    }

    /// Reserves room for `times` times as many more texts as there are, and `times` times their bytes.
    pub(crate) fn reserve_times(&mut self, times: usize) -> Result<(), AllocError>
        ensures { self.new ≡ self.old }
    {
        self.cuts.reserve(self.cuts.len().saturating_mul(times))?;
        self.bytes.reserve(self.bytes.len().saturating_mul(times))
    }

    /// Gives back the memory in which no text lies.
    pub(crate) fn shrink(&mut self)
        ensures { self.new ≡ self.old }
    {
        self.bytes.shrink_to_fit();
        self.cuts.shrink_to_fit();
    }
}
