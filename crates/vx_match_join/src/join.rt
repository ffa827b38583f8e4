//! The hash join: the right rows are indexed by key, and left rows probe them (DeWitt and others, 1984).

ghost use Rattle.std.specs.Prelude.{◌≡◌, ◌<◌, ◌≤◌, ◌+◌, ◌^◌, ◌++◌, ◌∷◌, [], ℕ, List, length, map, flat_map, take, slice_range, OnOk, IfOk};
ghost use Rattle.std.specs.List.{position_or_len};
ghost use Rattle.vx_rows_values.specs.Values.{Row, row_eq, pick};
ghost use Rattle.vx_rows.specs.View.{AreColumns};
ghost use Rattle.vx_plan_nodes.specs.Serial.{group_keys, join_rows};
ghost use Rattle.vx_match_join.specs.Build.{places_of, IsIndex, ArePairs};
ghost use Rattle.vx_match_join.specs.Parts.{places_in, listed_places};
ghost use Rattle.vx_match_keys.specs.Matched.{matched};

use crate::build_rows::BuildRows;
use crate::key_places::{KeyPlaces, KeyPositions};
use std::alloc::{AllocError, Global};
use std::marker::Model;
use vx_match_keys::Keys;
use vx_rows_values::{ColType, KeySeed};
use vx_rows_views::{Chunk, Rows};

// How many rows a probe looks up at once.
const BLOCK: usize = 4_096;

/// Calls: `of probe*`.
///
/// The build side of a join: the right rows, their keys, and the places of the rows of each key.
pub struct Build {
    rows: BuildRows,
    columns: Vec<usize>,
    keys: Keys,
    parts: KeyPlaces,
    alloc: Global,
}

impl Drop for Build {
    fn drop(self) {
        let Build {
            rows: _,
            columns: _,
            keys: _,
            parts: _,
            alloc: _,
        } = self;
    }
}

impl Model for Build {
    ghost use Rattle.vx_match_join.specs.Build.{Built, IsIndex};
    ghost use Rattle.vx_match_join.specs.Parts.{places_in};
    ghost use Rattle.vx_match_join.specs.Sides.{side_rows};

    ghost Value = { Built };

    ghost view = { λ b. record { types = (side_rows b.rows).types; rows = (side_rows b.rows).rows; columns = b.columns.items } };

    ghost invariant = { λ b. IsIndex b.columns.items (side_rows b.rows).rows b.keys (places_in b.parts) };
}

// Places of left rows, and beside each that of a right row.
#[derive(Drop)]
struct JoinedPositions {
    lefts: Vec<usize>,
    rights: Vec<usize>,
}

/// The end of the block that starts at row `from`, out of `count` rows.
pub(crate) fn block_end(from: usize, count: usize) -> usize
    requires { from < count }
    ensures more { from < result }
    ensures within { result ≤ count }
{
    if count - from <= BLOCK {
        return count;
    }
    from + BLOCK
}

// Adds the place of a left row, and beside it that of a right row.
fn push_pair(pairs: &mut JoinedPositions, left: usize, right: usize) -> Result<(), AllocError>
    ensures lefts { OnOk result (pairs.new.lefts.items ≡ pairs.old.lefts.items ++ left ∷ []) }
    ensures rights { OnOk result (pairs.new.rights.items ≡ pairs.old.rights.items ++ right ∷ []) }
{
    pairs.lefts.push(left)?;
    pairs.rights.push(right)?;
    Ok(())
}

// Adds the place of a left row, beside each of the places of a list.
fn push_listed(pairs: &mut JoinedPositions, left: usize, places: &[usize]) -> Result<(), AllocError>
    ensures lefts { OnOk result (pairs.new.lefts.items ≡ pairs.old.lefts.items ++ map (λ _. left) places.now) }
    ensures rights { OnOk result (pairs.new.rights.items ≡ pairs.old.rights.items ++ places.now) }
{
    for place in places {
        push_pair(pairs, left, *place)?;
    }
    Ok(())
}

// Adds the place of a left row, beside each of the places of the right rows of a key.
fn push_pairs(
    pairs: &mut JoinedPositions,
    left: usize,
    places: KeyPositions<'_>,
) -> Result<(), AllocError>
    ensures lefts { OnOk result (pairs.new.lefts.items ≡ pairs.old.lefts.items ++ map (λ _. left) (listed_places places.entry)) }
    ensures rights { OnOk result (pairs.new.rights.items ≡ pairs.old.rights.items ++ listed_places places.entry) }
{
    match places {
        KeyPositions::None => Ok(()),
        KeyPositions::One(place) => push_pair(pairs, left, place),
        KeyPositions::Listed(places) => push_listed(pairs, left, places),
    }
}

// Indexes the rows of `chunk` after `first` indexed rows: adds their keys to `keys` and their places to `parts`.
fn index_chunk(
    alloc: Global,
    keys: &mut Keys,
    parts: &mut KeyPlaces,
    first: usize,
    chunk: &Chunk,
    columns: &[usize],
) -> Result<(), AllocError>
    requires columns { AreColumns (length chunk.now.types) columns.now }
    requires room { first + length chunk.now.rows < 2 ^ 64 }
    ensures { OnOk result ((xs : List Row) → length xs ≡ first → IsIndex columns.now xs keys.old (places_in parts.old) → IsIndex columns.now (xs ++ chunk.now.rows) keys.new (places_in parts.new)) }
{
    let mut numbers = Vec::with_capacity(alloc, chunk.len())?;
    keys.number_chunk(chunk, columns, &mut numbers)?;
    parts.add(alloc, first, numbers.as_slice())?;
    Ok(())
}

/// The keys of the rows of a batch, and the places of the rows of each.
pub(crate) fn index_rows(
    alloc: Global,
    seed: KeySeed,
    rows: &Rows,
    columns: &[usize],
) -> Result<(Keys, KeyPlaces), AllocError>
    requires { AreColumns (length rows.now.types) columns.now }
    ensures { IfOk result (λ p. IsIndex columns.now rows.now.rows p.0 (places_in p.1)) }
{
    let count = rows.len();
    let mut keys = Keys::with_room(alloc, seed, count);
    let mut parts = KeyPlaces::none();
    let chunks = rows.chunks();
    let mut first = 0;
    for i in 0..chunks.len() {
        let chunk = &chunks[i];
        index_chunk(alloc, &mut keys, &mut parts, first, chunk, columns)?;
        first += chunk.len();
    }
    Ok((keys, parts))
}

impl Build {
    /// The build side of a join, with its columns of the join, whose keys are hashed by this seed. No cell is copied
    /// yet; all right rows are, once, when those that are joined one behind the other lie far apart.
    pub fn of(
        alloc: Global,
        seed: KeySeed,
        rows: &Rows,
        columns: Vec<usize>,
    ) -> Result<Build, AllocError>
        requires { AreColumns (length rows.now.types) columns.items }
        ensures types { IfOk result (λ b. b.types ≡ rows.now.types) }
        ensures rows { IfOk result (λ b. b.rows ≡ rows.now.rows) }
        ensures columns { IfOk result (λ b. b.columns ≡ columns.items) }
    {
        let (keys, parts) = index_rows(alloc, seed, rows, columns.as_slice())?;
        Ok(Build {
            rows: BuildRows::of(alloc, rows)?,
            columns,
            keys,
            parts,
            alloc,
        })
    }

    // The places of the rows whose key has this number, or of no rows where no key has it.
    fn matches(&self, number: usize) -> KeyPositions<'_>
        ensures { (key : Row) → number ≡ position_or_len (row_eq key) (group_keys self.now.columns self.now.rows) → listed_places result ≡ places_of self.now.columns key self.now.rows }
    {
        self.parts.get(number)
    }

    // Adds the pairs of left rows from place `from` up to `to`, whose keys have these numbers, until there are `most`
    // pairs or more, and returns the place behind them.
    fn pair_numbers(
        &self,
        pairs: &mut JoinedPositions,
        from: usize,
        to: usize,
        numbers: &[usize],
        most: usize,
    ) -> Result<usize, AllocError>
        requires { from + length numbers.now ≡ to }
        ensures end { IfOk result (λ n. n ≤ to) }
        ensures more { IfOk result (λ n. length pairs.old.lefts.items < most → from < to → from < n) }
        ensures pairs { IfOk result (λ n. (columns : List ℕ) (ls : List Row) → to ≤ length ls
            → numbers.now ≡ map (λ r. position_or_len (row_eq (pick columns r)) (group_keys self.now.columns self.now.rows)) (slice_range ls from to)
            → ArePairs ls self.now.rows pairs.old.lefts.items pairs.old.rights.items (flat_map (matched columns self.now.columns self.now.rows) (take from ls))
            → ArePairs ls self.now.rows pairs.new.lefts.items pairs.new.rights.items (flat_map (matched columns self.now.columns self.now.rows) (take n ls))) }
    {
        let known = self.keys.len();
        for i in 0..numbers.len() {
            let number = numbers[i];
            // no right row has the key: most rows of a selective join go no further
            if number >= known {
                continue;
            }
            if pairs.lefts.len() >= most {
                return Ok(from + i);
            }
            push_pairs(pairs, from + i, self.matches(number))?;
        }
        Ok(to)
    }

    // The same for a block of rows of a chunk.
    fn pair_block(
        &self,
        pairs: &mut JoinedPositions,
        chunk: &Chunk,
        columns: &[usize],
        from: usize,
        most: usize,
    ) -> Result<usize, AllocError>
        requires columns { AreColumns (length chunk.now.types) columns.now }
        requires row { from < length chunk.now.rows }
        requires room { length pairs.old.lefts.items < most }
        ensures end { IfOk result (λ n. n ≤ length chunk.now.rows) }
        ensures more { IfOk result (λ n. from < n) }
        ensures pairs { IfOk result (λ n.
            ArePairs chunk.now.rows self.now.rows pairs.old.lefts.items pairs.old.rights.items (flat_map (matched columns.now self.now.columns self.now.rows) (take from chunk.now.rows))
            → ArePairs chunk.now.rows self.now.rows pairs.new.lefts.items pairs.new.rights.items (flat_map (matched columns.now self.now.columns self.now.rows) (take n chunk.now.rows))) }
    {
        let to = block_end(from, chunk.len());
        let block = chunk.slice(self.alloc, from, to)?;
        let numbers = self.keys.find_all(&block, columns)?;
        let behind = self.pair_numbers(pairs, from, to, numbers.as_slice(), most)?;
        Ok(behind)
    }

    // Joins rows of a chunk from its first on, until the joined rows are `most` or more, and returns how many of its
    // rows were joined.
    fn join_chunk(
        &mut self,
        chunk: &Chunk,
        columns: &[usize],
        most: usize,
        joined: &mut Rows,
    ) -> Result<usize, AllocError>
        requires columns { AreColumns (length chunk.now.types) columns.now }
        requires types { joined.old.types ≡ chunk.now.types ++ self.old.types }
        ensures same { self.new ≡ self.old }
        ensures types { joined.new.types ≡ joined.old.types }
        ensures within { IfOk result (λ n. n ≤ length chunk.now.rows) }
        ensures rows { IfOk result (λ n. joined.new.rows ≡ joined.old.rows ++ flat_map (matched columns.now self.old.columns self.old.rows) (take n chunk.now.rows)) }
        ensures whole { IfOk result (λ n. length joined.new.rows < most → n ≡ length chunk.now.rows) }
        ensures more { IfOk result (λ n. length joined.old.rows < most → 0 < length chunk.now.rows → 0 < n) }
    {
        let room = most.saturating_sub(joined.len());
        let mut pairs = JoinedPositions {
            lefts: Vec::new(self.alloc),
            rights: Vec::new(self.alloc),
        };
        let mut taken = 0;
        while taken < chunk.len() && pairs.lefts.len() < room {
            taken = self.pair_block(&mut pairs, chunk, columns, taken, room)?;
        }
        let lefts = pairs.lefts.as_slice();
        let rights = pairs.rights.as_slice();
        self.rows
            .push_joined(self.alloc, joined, chunk, lefts, rights)?;
        Ok(taken)
    }

    // No rows, of the columns of left rows and then of the right ones.
    fn none_joined(&self, left: &[ColType]) -> Result<Rows, AllocError>
        ensures types { IfOk result (λ r. r.types ≡ left.now ++ self.now.types) }
        ensures rows { IfOk result (λ r. r.rows ≡ []) }
    {
        let mut types = Vec::from_slice(self.alloc, left)?;
        types.extend_from_slice(self.rows.types())?;
        Rows::new(self.alloc, types.as_slice())
    }

    /// Joins rows of a batch from its first on, until the joined rows are `most` or more: each left row with the right
    /// rows that agree with it on the pairs of columns, in the order of the left rows, and for one left row in the order
    /// of the right rows. It returns the joined rows, for which no cell of a left row is copied, and the rest of the batch.
    ///
    /// A `most` of 0 means 1: of a batch that has rows, one or more are joined.
    pub fn probe(
        &mut self,
        batch: Rows,
        columns: &[usize],
        most: usize,
    ) -> Result<(Rows, Rows), AllocError>
        requires { AreColumns (length batch.types) columns.now }
        ensures same { self.new ≡ self.old }
        ensures types { IfOk result (λ p. p.0.types ≡ batch.types ++ self.old.types) }
        ensures rest_types { IfOk result (λ p. p.1.types ≡ batch.types) }
        ensures rows { IfOk result (λ p. (front : List Row) × (front ++ p.1.rows ≡ batch.rows)
            × ((on : List (ℕ × ℕ)) → columns.now ≡ map (λ c. c.0) on → self.old.columns ≡ map (λ c. c.1) on → p.0.rows ≡ join_rows on front self.old.rows)) }
        ensures progress { IfOk result (λ p. 0 < length batch.rows → length p.1.rows < length batch.rows) }
    {
        let room = most.max(1);
        let count = batch.len();
        let mut joined = self.none_joined(batch.types())?;
        let chunks = batch.chunks();
        let mut taken = 0;
        let mut next = 0;
        while next < chunks.len() && joined.len() < room {
            let more = self.join_chunk(&chunks[next], columns, room, &mut joined)?;
            taken += more;
            next += 1;
        }
        let rest = batch.slice(self.alloc, taken, count)?;
        Ok((joined, rest))
    }
}

/// Each left row joined with the right rows that agree with it on the pairs of columns: in the order of the left rows,
/// and for one left row in the order of the right rows. No cell of a left row is copied.
pub fn hash_join(
    alloc: Global,
    seed: KeySeed,
    left: Rows,
    left_columns: &[usize],
    right: &Rows,
    right_columns: Vec<usize>,
) -> Result<Rows, AllocError>
    requires left { AreColumns (length left.types) left_columns.now }
    requires right { AreColumns (length right.now.types) right_columns.items }
    ensures types { IfOk result (λ r. r.types ≡ left.types ++ right.now.types) }
    ensures rows { IfOk result (λ r. (on : List (ℕ × ℕ)) → left_columns.now ≡ map (λ p. p.0) on → right_columns.items ≡ map (λ p. p.1) on → r.rows ≡ join_rows on left.rows right.now.rows) }
{
    let mut build = Build::of(alloc, seed, right, right_columns)?;
    let mut joined = build.none_joined(left.types())?;
    let mut rest = left;
    'probes: while !rest.is_empty() {
        let probed = build.probe(rest, left_columns, usize::MAX)?;
        joined.append(probed.0)?;
        rest = probed.1;
    }
    Ok(joined)
}
