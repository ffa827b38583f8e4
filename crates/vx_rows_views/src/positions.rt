//! Which rows of a table are seen, and in which order.

ghost use Rattle.std.specs.Prelude.{◌≡◌, ◌↔◌, ℕ, ◌+◌, ◌-◌, ◌^◌, ◌<◌, ◌≤◌, List, length, map, slice_index, slice_range, All, IfOk, IsTrue};
ghost use Rattle.vx_rows.specs.View.{ArePositions};
ghost use Rattle.vx_rows.specs.Lists.{each_below};

use std::alloc::{AllocError, Global};
use std::marker::Model;
use std::sync::Arc;

// Positions below this fit 32 bits.
const NARROW: usize = 0x1_0000_0000;

/// A position as a list keeps it: in 32 bits, or in 64.
pub trait Position: Copy {
    ghost use Rattle.std.specs.Prelude.{◌≡◌, ℕ};

    ghost place: { Self → ℕ };

    /// The position as a number of 64 bits.
    fn place(self) -> usize
        ensures { result ≡ place self };
}

impl Position for u32 {
    ghost place = { λ p. p };

    fn place(self) -> usize {
        self as usize
    }
}

impl Position for usize {
    ghost place = { λ p. p };

    fn place(self) -> usize {
        self
    }
}

// The positions of a list, as wide as they are kept.
#[derive(Drop)]
enum PositionWidth {
    Narrow(Vec<u32>),
    Wide(Vec<usize>),
}

/// A list of positions, which several `Positions` may share. They take 4 bytes each where all of them are known to fit 32
/// bits.
pub struct PositionList {
    width: PositionWidth,
}

impl Drop for PositionList {
    fn drop(self) {
        let PositionList { width: _ } = self;
    }
}

impl Model for PositionList {
    ghost use Rattle.std.specs.Prelude.{List, ℕ};
    ghost use Rattle.vx_rows_views.specs.Seen.{kept_positions};

    ghost Value = { List ℕ };

    ghost view = { λ p. kept_positions p.width };
}

impl PositionList {
    ghost use Rattle.vx_rows_views.specs.Seen.{seen_positions};

    /// How many positions there are.
    fn len(&self) -> usize
        ensures { result ≡ length self.now }
    {
        match &self.width {
            PositionWidth::Narrow(positions) => positions.len(),
            PositionWidth::Wide(positions) => positions.len(),
        }
    }

    /// The position at a place.
    fn get(&self, i: usize) -> usize
        requires { i < length self.now }
        ensures { result ≡ slice_index self.now i }
    {
        match &self.width {
            PositionWidth::Narrow(positions) => positions[i] as usize,
            PositionWidth::Wide(positions) => positions[i],
        }
    }

    /// Those from `from` up to `to`.
    fn part(&self, from: usize, to: usize) -> PositionsRef<'_>
        requires order { from ≤ to }
        requires there { to ≤ length self.now }
        ensures { seen_positions result ≡ slice_range self.now from to }
    {
        match &self.width {
            PositionWidth::Narrow(positions) => PositionsRef::Narrow(
                &positions.as_slice()[from..to],
            ),
            PositionWidth::Wide(positions) => PositionsRef::Wide(&positions.as_slice()[from..to]),
        }
    }

    /// Of those from `from` up to `to`, the ones at some places, as wide as they are.
    fn at(
        &self,
        alloc: Global,
        from: usize,
        to: usize,
        places: &[usize],
    ) -> Result<PositionList, AllocError>
        requires order { from ≤ to }
        requires there { to ≤ length self.now }
        requires places { ArePositions (to - from) places.now }
        ensures { IfOk result (λ l. l ≡ map (slice_index (slice_range self.now from to)) places.now) }
    {
        match &self.width {
            PositionWidth::Narrow(positions) => narrow_at(
                alloc,
                &positions.as_slice()[from..to],
                places,
            ),
            PositionWidth::Wide(positions) => wide_at(
                alloc,
                &positions.as_slice()[from..to],
                places,
            ),
        }
    }
}

/// Positions: a range, or a part of a list that others may share.
pub struct Positions {
    listed: Option<Arc<PositionList>>,
    from: usize,
    count: usize,
}

impl Drop for Positions {
    fn drop(self) {
        let Positions {
            listed: _,
            from: _,
            count: _,
        } = self;
    }
}

impl Model for Positions {
    ghost use Rattle.std.specs.Prelude.{List, ℕ};
    ghost use Rattle.std.specs.Arc.{arc_value};
    ghost use Rattle.vx_rows_views.specs.Selections.{positions_of, IsSelection};

    ghost Value = { List ℕ };

    ghost view = { λ s. positions_of arc_value s.listed s.from s.count };

    ghost invariant = { λ s. IsSelection arc_value s.listed s.from s.count };
}

/// What a loop goes over: the first position and how many follow it, or a list in 32 bits or in 64.
#[derive(Clone, Copy)]
pub enum PositionsRef<'a> {
    Range(usize, usize),
    Narrow(&'a [u32]),
    Wide(&'a [usize]),
}

impl Positions {
    ghost use Rattle.std.specs.Arc.{arc_value};
    ghost use Rattle.vx_rows_views.specs.Seen.{seen_positions};

    /// The `count` positions from `from` on.
    pub fn range(from: usize, count: usize) -> Positions
        requires { from + count < 2 ^ 64 }
        ensures { result ≡ each_below count (λ k. from + k) }
    {
        Positions {
            listed: None,
            from,
            count,
        }
    }

    // These positions.
    fn list(alloc: Global, positions: PositionList) -> Result<Positions, AllocError>
        ensures { IfOk result (λ s. s ≡ positions) }
    {
        let count = positions.len();
        let shared = Arc::new(alloc, positions)?;
        Ok(Positions {
            listed: Some(shared),
            from: 0,
            count,
        })
    }

    /// How many positions there are.
    pub fn len(&self) -> usize
        ensures { result ≡ length self.now }
    {
        self.count
    }

    /// Position k.
    pub fn get(&self, k: usize) -> usize
        requires { k < length self.now }
        ensures { result ≡ slice_index self.now k }
    {
        match &self.listed {
            None => self.from + k,
            Some(positions) => positions.get(self.from + k),
        }
    }

    /// The positions, for a loop.
    pub fn seen(&self) -> PositionsRef<'_>
        ensures { seen_positions result ≡ self.now }
    {
        match &self.listed {
            None => PositionsRef::Range(self.from, self.count),
            Some(positions) => positions.part(self.from, self.from + self.count),
        }
    }

    /// The positions from `from` up to `to`, of the same list.
    pub fn slice(&self, from: usize, to: usize) -> Result<Positions, AllocError>
        requires order { from ≤ to }
        requires there { to ≤ length self.now }
        ensures { IfOk result (λ s. s ≡ slice_range self.now from to) }
    {
        match &self.listed {
            None => Ok(Positions::range(self.from + from, to - from)),
            Some(positions) => {
                let shared = Arc::try_clone(positions)?;
                Ok(Positions {
                    listed: Some(shared),
                    from: self.from + from,
                    count: to - from,
                })
            }
        }
    }

    /// The positions at these places. Where the places follow one another, these are a part of the positions, and none is copied.
    pub fn at(&self, alloc: Global, places: &[usize]) -> Result<Positions, AllocError>
        requires { ArePositions (length self.now) places.now }
        ensures { IfOk result (λ s. s ≡ map (slice_index self.now) places.now) }
    {
        // no place is above this
        let _count = self.len();
        if !places.is_empty() && are_counted_from(places[0], places) {
            return self.slice(places[0], places[0] + places.len());
        }
        match &self.listed {
            None => {
                let positions = moved(alloc, places, self.from, self.count)?;
                Ok(Positions::list(alloc, positions)?)
            }
            Some(listed) => {
                let positions = listed.at(alloc, self.from, self.from + self.count, places)?;
                Ok(Positions::list(alloc, positions)?)
            }
        }
    }
}

// Puts the places behind a position, in 32 bits, into a slice of as many.
fn move_to(places: &[usize], from: usize, positions: &mut [u32])
    requires long { length places.now ≡ length positions.old }
    requires narrow { All (λ i. from + i < 2 ^ 32) places.now }
    ensures { positions.new ≡ map (λ i. from + i) places.now }
{
    for i in 0..positions.len() {
        positions[i] = (from + places[i]) as u32;
    }
}

// Adds a position to each of these places.
fn move_by(places: &mut [usize], from: usize)
    requires { All (λ i. from + i < 2 ^ 64) places.old }
    ensures { places.new ≡ map (λ i. from + i) places.old }
{
    for i in 0..places.len() {
        places[i] = from + places[i];
    }
}

// Places behind a position, in 32 bits where all that are below `count` fit them.
fn moved(
    alloc: Global,
    places: &[usize],
    from: usize,
    count: usize,
) -> Result<PositionList, AllocError>
    requires there { ArePositions count places.now }
    requires small { from + count < 2 ^ 64 }
    ensures { IfOk result (λ l. l ≡ map (λ i. from + i) places.now) }
{
    if from + count <= NARROW {
        let mut narrow = Vec::new(alloc);
        narrow.resize(places.len(), 0)?;
        move_to(places, from, narrow.as_mut_slice());
        return Ok(PositionList {
            width: PositionWidth::Narrow(narrow),
        });
    }
    let mut wide = Vec::from_slice(alloc, places)?;
    move_by(wide.as_mut_slice(), from);
    Ok(PositionList {
        width: PositionWidth::Wide(wide),
    })
}

// Puts the positions of 32 bits that are listed at some places into a slice of as many.
fn look_up_narrow(listed: &[u32], places: &[usize], positions: &mut [u32])
    requires long { length places.now ≡ length positions.old }
    requires there { ArePositions (length listed.now) places.now }
    ensures { positions.new ≡ map (slice_index listed.now) places.now }
{
    for i in 0..positions.len() {
        positions[i] = listed[places[i]];
    }
}

// The positions of 32 bits at some places.
fn narrow_at(alloc: Global, listed: &[u32], places: &[usize]) -> Result<PositionList, AllocError>
    requires { ArePositions (length listed.now) places.now }
    ensures { IfOk result (λ l. l ≡ map (slice_index listed.now) places.now) }
{
    let mut positions = Vec::new(alloc);
    positions.resize(places.len(), 0)?;
    look_up_narrow(listed, places, positions.as_mut_slice());
    Ok(PositionList {
        width: PositionWidth::Narrow(positions),
    })
}

// Puts the position of 64 bits that is listed at each of these places there.
fn look_up(places: &mut [usize], listed: &[usize])
    requires { ArePositions (length listed.now) places.old }
    ensures { places.new ≡ map (slice_index listed.now) places.old }
{
    for i in 0..places.len() {
        places[i] = listed[places[i]];
    }
}

// The positions of 64 bits at some places.
fn wide_at(alloc: Global, listed: &[usize], places: &[usize]) -> Result<PositionList, AllocError>
    requires { ArePositions (length listed.now) places.now }
    ensures { IfOk result (λ l. l ≡ map (slice_index listed.now) places.now) }
{
    let mut positions = Vec::from_slice(alloc, places)?;
    look_up(positions.as_mut_slice(), listed);
    Ok(PositionList {
        width: PositionWidth::Wide(positions),
    })
}

// Puts positions of 32 bits into a slice of as many of 64.
fn widen(narrow: &[u32], positions: &mut [usize])
    requires { length narrow.now ≡ length positions.old }
    ensures { positions.new ≡ narrow.now }
{
    for i in 0..positions.len() {
        positions[i] = narrow[i] as usize;
    }
}

// The same positions in 64 bits.
pub(crate) fn widened(alloc: Global, narrow: &[u32]) -> Result<Vec<usize>, AllocError>
    ensures { IfOk result (λ v. v.items ≡ narrow.now) }
{
    let mut positions = Vec::new(alloc);
    positions.resize(narrow.len(), 0)?;
    widen(narrow, positions.as_mut_slice());
    Ok(positions)
}

/// Whether these are `first`, `first + 1`, and so on.
pub fn are_counted_from(first: usize, numbers: &[usize]) -> bool
    ensures { IsTrue result ↔ (numbers.now ≡ each_below (length numbers.now) (λ k. first + k)) }
{
    for i in 0..numbers.len() {
        if numbers[i] < first || numbers[i] - first != i {
            return false;
        }
    }
    true
}
