//! What an operator does with columns and rows, whatever its inputs claim.

ghost use Rattle.std.specs.Prelude.{◌≡◌, ◌==◌, nat_le, cond, length, position, slice_get};
ghost use Rattle.std.specs.List.{list_any};
ghost use Rattle.vx_plan_nodes.specs.Describe.{place, right_of, is_column, kept_column, key_of_first, keys_kept, described, described_both};
ghost use Rattle.vx_plan_nodes.specs.DescribeView.{keys_after_of, described_of, described_both_of};
ghost use Rattle.vx_plan_nodes.specs.Outline.{entry_of, unary_of, binary_of};

use crate::typed::{Binary, Entry, Phase, Projected, SortPhase, Unary};
use vx_rows_values::limits::MAX_COLUMNS;
use vx_rows_values::{ColType, OrderEntry};

/// The columns of its input that an operator keeps.
#[derive(Clone, Copy)]
pub enum KeptColumns<'p> {
    /// Those of a distinct.
    Outputs(&'p [Projected]),
    /// The keys of a group.
    Keys(&'p [usize]),
}

/// How columns of an output are copies of those of an input.
#[derive(Clone, Copy)]
pub enum Copying<'p> {
    /// Each is the input's own.
    WholeRows,
    /// They are those that are kept, as far as these go.
    Kept(KeptColumns<'p>),
    /// They are those that these entries keep; what entries compute is no copy.
    Entries(&'p [Entry]),
    /// The first ones are those of a left input, whose columns have these types.
    Left(&'p [ColType]),
    /// Those behind a left input's columns, which have these types, are those of a right input.
    Right(&'p [ColType]),
    /// None is a copy.
    NoColumns,
}

/// What becomes of the order of the rows.
#[derive(Clone, Copy)]
pub enum OrderAfter<'p> {
    Kept,
    /// They are put in this order.
    SortedOn(&'p [OrderEntry]),
}

/// What becomes of the keys.
#[derive(Clone, Copy)]
pub enum KeysAfter {
    Kept,
    /// So many first columns of the output are one.
    First(usize),
    NoKey,
}

/// What an operator over one input does.
#[derive(Clone, Copy)]
pub struct Described<'p> {
    pub copying: Copying<'p>,
    /// Rows that agree in these columns have to be on one worker; none where the rows are taken one by one.
    pub meets: Option<KeptColumns<'p>>,
    pub order: OrderAfter<'p>,
    pub keys: KeysAfter,
}

/// How the rows of two inputs come together.
#[derive(Clone, Copy)]
pub enum Meeting<'p> {
    /// Side by side.
    SideBySide,
    /// Rows that agree on these pairs have to meet, and each two of them make a row.
    PairedOn(&'p [(usize, usize)]),
    /// Rows that agree on these pairs have to meet, and say which rows of the left input are kept.
    MatchedOn(&'p [(usize, usize)]),
}

/// What an operator over two inputs does.
#[derive(Clone, Copy)]
pub struct DescribedBoth<'p> {
    pub left: Copying<'p>,
    pub right: Copying<'p>,
    pub meeting: Meeting<'p>,
}

// Where the first of the outputs stands that keeps the column.
fn place_of_output(kept: &[Projected], column: usize) -> Option<usize>
    ensures { result ≡ position (λ k. column == k.column) kept.now }
{
    kept.iter().position(|output| column == output.column)
}

// Whether one of the outputs keeps the column.
fn is_among_outputs(kept: &[Projected], column: usize) -> bool
    ensures { result ≡ list_any (λ k. column == k.column) kept.now }
{
    kept.iter().any(|output| column == output.column)
}

impl Entry {
    ghost use Rattle.vx_plan_nodes.specs.Describe.{kept_column};
    ghost use Rattle.vx_plan_nodes.specs.Outline.{entry_of};

    /// The column of the input that it keeps; none if it is computed.
    pub fn kept_column(&self) -> Option<usize>
        ensures { result ≡ kept_column (entry_of self.now) }
    {
        match self {
            Entry::Kept(kept) => Some(kept.column),
            Entry::Made(_) => None,
        }
    }
}

// Whether the entry keeps the column.
fn keeps(entry: &Entry, column: usize) -> bool
    ensures { result ≡ is_column column (kept_column (entry_of entry.now)) }
{
    match entry {
        Entry::Kept(kept) => column == kept.column,
        Entry::Made(_) => false,
    }
}

// Where the first of the entries stands that keeps the column.
fn place_of_entry(entries: &[Entry], column: usize) -> Option<usize>
    ensures { result ≡ position (λ e. is_column column (kept_column (entry_of e))) entries.now }
{
    entries.iter().position(|entry| keeps(entry, column))
}

// Where the column first stands among the keys.
fn place_of_key(by: &[usize], column: usize) -> Option<usize>
    ensures { result ≡ position (λ k. column == k) by.now }
{
    by.iter().position(|key| column == *key)
}

// Where a column stands that is `column` places behind these.
fn place_behind(types: &[ColType], column: usize) -> Option<usize>
    ensures { result ≡ place (right_of (length types.now)) column }
{
    if column >= MAX_COLUMNS {
        return None;
    }
    Some(types.len() + column)
}

impl KeptColumns<'_> {
    ghost use Rattle.vx_plan_nodes.specs.DescribeView.{kept_columns};

    /// How many they are.
    pub fn len(self) -> usize
        ensures { result ≡ length (kept_columns self.entry) }
    {
        match self {
            KeptColumns::Outputs(kept) => kept.len(),
            KeptColumns::Keys(by) => by.len(),
        }
    }

    /// The column at this place.
    pub fn get(self, at: usize) -> Option<usize>
        ensures { result ≡ slice_get (kept_columns self.entry) at }
    {
        match self {
            KeptColumns::Outputs(kept) => kept.get(at).map(|k| k.column),
            KeptColumns::Keys(by) => by.get(at).copied(),
        }
    }

    /// Where the column first stands.
    pub fn position(self, column: usize) -> Option<usize>
        ensures { result ≡ position (λ k. column == k) (kept_columns self.entry) }
    {
        match self {
            KeptColumns::Outputs(kept) => place_of_output(kept, column),
            KeptColumns::Keys(by) => place_of_key(by, column),
        }
    }

    /// Whether the column is one of them.
    pub fn contains(self, column: usize) -> bool
        ensures { result ≡ list_any (λ k. column == k) (kept_columns self.entry) }
    {
        match self {
            KeptColumns::Outputs(kept) => is_among_outputs(kept, column),
            KeptColumns::Keys(by) => by.iter().any(|k| column == *k),
        }
    }
}

impl Copying<'_> {
    ghost use Rattle.vx_plan_nodes.specs.Describe.{source};
    ghost use Rattle.vx_plan_nodes.specs.DescribeView.{copying_of};

    /// The input column that an output column is a copy of.
    pub fn source(self, column: usize) -> Option<usize>
        ensures { result ≡ source (copying_of self.entry) column }
    {
        match self {
            Copying::WholeRows => Some(column),
            Copying::Kept(kept) => kept.get(column),
            Copying::Entries(entries) => entries.get(column).and_then(|e| e.kept_column()),
            Copying::Left(types) => (column < types.len()).then_some(column),
            Copying::Right(types) => column.checked_sub(types.len()),
            Copying::NoColumns => None,
        }
    }

    /// Where an input column first stands in the output.
    pub fn place(self, column: usize) -> Option<usize>
        ensures { result ≡ place (copying_of self.entry) column }
    {
        match self {
            Copying::WholeRows => Some(column),
            Copying::Kept(kept) => kept.position(column),
            Copying::Entries(entries) => place_of_entry(entries, column),
            Copying::Left(types) => (column < types.len()).then_some(column),
            Copying::Right(types) => place_behind(types, column),
            Copying::NoColumns => None,
        }
    }
}

// The keys of so many first rows: of one row at most, no column is a key.
fn keys_of_first_rows(rows: u32) -> KeysAfter
    ensures { keys_after_of result ≡ cond (nat_le rows 1) (key_of_first 0) keys_kept }
{
    if rows <= 1 {
        return KeysAfter::First(0);
    }
    KeysAfter::Kept
}

impl Unary {
    /// What the operator does with columns and rows.
    pub fn described(&self) -> Described<'_>
        ensures { described_of result ≡ described (unary_of self.now) }
    {
        match self {
            Unary::Select(_) => Described {
                copying: Copying::WholeRows,
                meets: None,
                order: OrderAfter::Kept,
                keys: KeysAfter::Kept,
            },
            Unary::Project(entries) => Described {
                copying: Copying::Entries(entries.as_slice()),
                meets: None,
                order: OrderAfter::Kept,
                keys: KeysAfter::Kept,
            },
            Unary::Distinct(kept) => Described {
                copying: Copying::Kept(KeptColumns::Outputs(kept.as_slice())),
                meets: Some(KeptColumns::Outputs(kept.as_slice())),
                order: OrderAfter::Kept,
                keys: KeysAfter::First(kept.len()),
            },
            Unary::Sort(SortPhase::Plain, order) => Described {
                copying: Copying::WholeRows,
                meets: None,
                order: OrderAfter::SortedOn(order.as_slice()),
                keys: KeysAfter::Kept,
            },
            Unary::Sort(SortPhase::Partial, order) => Described {
                copying: Copying::WholeRows,
                meets: None,
                order: OrderAfter::SortedOn(order.as_slice()),
                keys: KeysAfter::NoKey,
            },
            Unary::Group(Phase::Plain, by, _) | Unary::Group(Phase::Final, by, _) => Described {
                copying: Copying::Kept(KeptColumns::Keys(by.as_slice())),
                meets: Some(KeptColumns::Keys(by.as_slice())),
                order: OrderAfter::Kept,
                keys: KeysAfter::First(by.len()),
            },
            Unary::Group(Phase::Partial, by, _) => Described {
                copying: Copying::Kept(KeptColumns::Keys(by.as_slice())),
                meets: None,
                order: OrderAfter::Kept,
                keys: KeysAfter::NoKey,
            },
            Unary::Limit(rows) => Described {
                copying: Copying::WholeRows,
                meets: None,
                order: OrderAfter::Kept,
                keys: keys_of_first_rows(*rows),
            },
        }
    }
}

impl Binary {
    /// What the operator does with the columns and rows of its inputs, where the left one's columns have these types.
    pub fn described<'p>(&'p self, left: &'p [ColType]) -> DescribedBoth<'p>
        ensures { described_both_of result ≡ described_both (length left.now) (binary_of self.now) }
    {
        match self {
            Binary::Union => DescribedBoth {
                left: Copying::WholeRows,
                right: Copying::WholeRows,
                meeting: Meeting::SideBySide,
            },
            Binary::HashJoin(on) | Binary::MergeJoin(on, _) => DescribedBoth {
                left: Copying::Left(left),
                right: Copying::Right(left),
                meeting: Meeting::PairedOn(on.as_slice()),
            },
            Binary::SemiJoin(on, _) | Binary::AntiJoin(on, _) => DescribedBoth {
                left: Copying::WholeRows,
                right: Copying::NoColumns,
                meeting: Meeting::MatchedOn(on.as_slice()),
            },
        }
    }
}
