//! The input columns that have copies among output columns, for many questions about the same ones.

ghost use Rattle.std.specs.Prelude.{◌≡◌, ℕ, ◌<◌, ◌==◌, ◌||◌};
ghost use Rattle.std.specs.List.{list_all};
ghost use Rattle.std.specs.Int.{bit_at};
ghost use Rattle.vx_plan_nodes.specs.DescribeView.{copying_of};
ghost use Rattle.vx_check_rules.specs.Behaviour.{is_column, has_copy};
ghost use Rattle.vx_check_rules.specs.Copied.{LowCopies};
ghost use Rattle.vx_check_rules.specs.Seen.{columns_seen};

use crate::columns::ColumnsSeen;
use vx_plan_nodes::Copying;

// How many columns have a bit.
const LOW: usize = 64;

/// The input columns that have a copy among some output columns. The first 64 are bits of one number, so that looking for one of these
/// needs no walk over the output columns: a plan may claim thousands of keys, each of which is held against each key of the input.
#[derive(Drop)]
pub(crate) struct CopiedColumns<'a> {
    copying: Copying<'a>,
    columns: ColumnsSeen<'a>,
    low: u64,
    ghost bits: { LowCopies (has_copy (copying_of copying) (columns_seen columns)) low },
}

// The bits with one more input column.
fn with_bit(low: u64, input: Option<usize>) -> u64
    ensures { (c : ℕ) → c < 64 → (bit_at result c == 1) ≡ ((bit_at low c == 1) || is_column input c) }
{
    match input {
        Some(input) if input < LOW => low | 1 << input,
        _ => low,
    }
}

// A bit for each of the first input columns that has a copy.
fn bits_of(copying: Copying<'_>, columns: ColumnsSeen<'_>) -> u64
    ensures { LowCopies (has_copy (copying_of copying.entry) (columns_seen columns.entry)) result }
{
    let mut low = 0;
    for i in 0..columns.len() {
        low = with_bit(low, copying.source(columns.at(i)));
    }
    low
}

// Whether the column is there, and is this one.
fn is_column(source: Option<usize>, column: usize) -> bool
    ensures { result ≡ is_column source column }
{
    match source {
        Some(source) => column == source,
        None => false,
    }
}

impl<'a> CopiedColumns<'a> {
    /// Of which these output columns have copies.
    pub fn of(copying: Copying<'a>, columns: ColumnsSeen<'a>) -> CopiedColumns<'a>
        ensures copying { result.copying ≡ copying.entry }
        ensures columns { result.columns ≡ columns.entry }
    {
        CopiedColumns {
            copying,
            columns,
            low: bits_of(copying, columns),
        }
    }

    // Whether this input column has a copy.
    fn has(&self, input: usize) -> bool
        ensures { result ≡ has_copy (copying_of self.now.copying) (columns_seen self.now.columns) input }
    {
        if input < LOW {
            return self.low >> input & 1 == 1;
        }
        for i in 0..self.columns.len() {
            if is_column(self.copying.source(self.columns.at(i)), input) {
                return true;
            }
        }
        false
    }

    /// Whether each of these input columns has a copy.
    pub fn has_all(&self, inputs: ColumnsSeen<'_>) -> bool
        ensures { result ≡ list_all (has_copy (copying_of self.now.copying) (columns_seen self.now.columns)) (columns_seen inputs.entry) }
    {
        for i in 0..inputs.len() {
            if !self.has(inputs.at(i)) {
                return false;
            }
        }
        true
    }
}
